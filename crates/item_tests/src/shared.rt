//! Tests of copies, and of items that go to other threads.

use crate::made::{numbered, one, samples};
use item_tree::{
    FewIntegers, Item, PairList, Str, Whole, array_from, array_of_few, deep_equal, object_from,
    object_of,
};
use std::alloc::Global;
use std::test::Fail;

// It would take minutes if a copy took time for each pair.
#[test]
fn copies_large_objects(rt: HostRuntime) -> Result<(), Fail> {
    let alloc = rt.alloc();
    let object = object_of(alloc, numbered(alloc, 200_000, None)?)?;
    for _ in 0..1_000_000 {
        let _copy = object.copy()?;
    }
    assert!(rt;
        deep_equal(
            one(&object, alloc)?.as_slice(),
            one(&object, alloc)?.as_slice()
        )
    );
    Ok(())
}

// The first of the samples, so many.
fn first_samples(alloc: Global, count: usize) -> Result<Vec<Item>, Fail> {
    let mut items = samples(alloc)?;
    items.truncate(count);
    Ok(items)
}

fn has_items(item: &Item, wanted: &[Item]) -> bool {
    match item {
        Item::Array(items) => deep_equal(items.as_slice(), wanted),
        _ => false,
    }
}

// Short arrays are held in other ways than long ones.
#[test]
fn keeps_items_of_each_number(rt: HostRuntime) -> Result<(), Fail> {
    let alloc = rt.alloc();
    for count in 0..13 {
        let wanted = first_samples(alloc, count)?;
        let mut items = first_samples(alloc, count)?;
        let array = array_from(alloc, &mut items)?;
        assert!(rt; items.is_empty(), "{count} items");
        assert!(rt; has_items(&array, wanted.as_slice()), "{count} items");
        let copy = array.copy()?;
        assert!(rt; has_items(&copy, wanted.as_slice()), "{count} items");
    }
    Ok(())
}

#[test]
fn makes_arrays_of_few_integers(rt: HostRuntime) -> Result<(), Fail> {
    let alloc = rt.alloc();
    let (a, b, c, d) = (
        Whole::new(0),
        Whole::new(-1),
        Whole::new(99_999_999_999_999_999_999),
        Whole::new(7),
    );
    let rows = [
        FewIntegers::One(c),
        FewIntegers::Two(a, b),
        FewIntegers::Three(a, b, c),
        FewIntegers::Four(a, b, c, d),
    ];
    for row in &rows {
        let wanted = match row {
            FewIntegers::One(_) => vec![in alloc; Item::Int(c)]?,
            FewIntegers::Two(_, _) => vec![in alloc; Item::Int(a), Item::Int(b)]?,
            FewIntegers::Three(_, _, _) => {
                vec![in alloc; Item::Int(a), Item::Int(b), Item::Int(c)]?
            }
            FewIntegers::Four(_, _, _, _) => {
                vec![in alloc; Item::Int(a), Item::Int(b), Item::Int(c), Item::Int(d)]?
            }
        };
        let array = array_of_few(alloc, *row)?;
        assert_eq!(rt; array.depth(), 1);
        assert!(rt;
            has_items(&array, wanted.as_slice()),
            "{} items",
            wanted.len()
        );
        assert!(rt;
            has_items(&array.copy()?, wanted.as_slice()),
            "{} items",
            wanted.len()
        );
    }
    Ok(())
}

// Up to four pairs stand in one block, and more in a list.
#[test]
fn gives_pairs_back(rt: HostRuntime) -> Result<(), Fail> {
    let alloc = rt.alloc();
    for count in [0u32, 1, 2, 3, 4, 5, 40] {
        let mut list = PairList::of(alloc, numbered(alloc, count, None)?)?;
        let Item::Object(pairs) = object_from(alloc, &mut list)? else {
            assert!(rt; false, "{count} pairs are no object");
            return Ok(());
        };
        assert!(rt; list.as_slice().is_empty(), "{count} pairs");
        let shared = pairs.copy()?;
        assert_eq!(rt; pairs.as_slice().len(), count as usize);
        assert_eq!(rt; shared.into_vec()?.len(), count as usize);
        assert_eq!(rt; pairs.into_vec()?.len(), count as usize);
    }
    Ok(())
}

fn crosses_threads<T: Send + Sync>(_value: &T) {}

#[test]
fn items_cross_threads(rt: HostRuntime) -> Result<(), Fail> {
    let alloc = rt.alloc();
    crosses_threads(&Str::of(alloc, "k")?);
    crosses_threads(&object_of(alloc, numbered(alloc, 40, None)?)?);
    Ok(())
}
