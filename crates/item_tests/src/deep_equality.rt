//! Tests of equality at every depth.

use crate::made::{numbered, one, reversed, samples, whole};
use item_tree::{Item, Str, Units, array_of, deep_equal, laws, object_of};
use std::alloc::Global;
use std::test::Fail;

#[test]
fn equals_deeply(rt: HostRuntime) -> Result<(), Fail> {
    let alloc = rt.alloc();
    let samples = samples(alloc)?;
    for (i, a) in samples.iter().enumerate() {
        let left = one(a, alloc)?;
        assert!(rt; !deep_equal(left.as_slice(), &[]));
        for (j, b) in samples.iter().enumerate() {
            let same = i == j || (i == 4 && j == 5) || (i == 5 && j == 4);
            let right = one(b, alloc)?;
            assert_eq!(rt;
                deep_equal(left.as_slice(), right.as_slice()),
                same,
                "{i} {j}"
            );
        }
    }
    Ok(())
}

// An object of two pairs, the second a list of two items.
fn object(alloc: Global, keys: (&str, &str), list: (Item, Item)) -> Result<Item, Fail> {
    let list = array_of(alloc, vec![in alloc; list.0, list.1]?)?;
    let mut pairs = Vec::new(alloc);
    pairs.push((Str::of(alloc, keys.0)?, Item::Null))?;
    pairs.push((Str::of(alloc, keys.1)?, list))?;
    Ok(object_of(alloc, pairs)?)
}

#[test]
fn equals_objects_in_any_order(rt: HostRuntime) -> Result<(), Fail> {
    let alloc = rt.alloc();
    let decimal = Item::Dec(Units::new(1_000_000));
    let first = one(&object(alloc, ("a", "b"), (whole(1), whole(2)))?, alloc)?;
    let second = one(
        &reversed(alloc, object(alloc, ("a", "b"), (decimal, whole(2)))?)?,
        alloc,
    )?;
    let turned = one(&object(alloc, ("a", "b"), (whole(2), whole(1)))?, alloc)?;
    let renamed = one(&object(alloc, ("a", "c"), (whole(1), whole(2)))?, alloc)?;
    assert!(rt; deep_equal(first.as_slice(), second.as_slice()));
    assert!(rt; !deep_equal(first.as_slice(), turned.as_slice()));
    assert!(rt; !deep_equal(first.as_slice(), renamed.as_slice()));
    Ok(())
}

// It would take minutes if its time grew with the square of the number of keys.
#[test]
fn compares_large_objects(rt: HostRuntime) -> Result<(), Fail> {
    let alloc = rt.alloc();
    let first = object_of(alloc, numbered(alloc, 200_000, None)?)?;
    let second = one(&reversed(alloc, first.copy()?)?, alloc)?;
    let first = one(&first, alloc)?;
    assert!(rt; deep_equal(first.as_slice(), second.as_slice()));
    Ok(())
}

// An array of the number and then so many nulls.
fn array(alloc: Global, n: u32, nulls: u32) -> Result<Item, Fail> {
    let mut items = vec![in alloc; whole(n)]?;
    for _ in 0..nulls {
        items.push(Item::Null)?;
    }
    Ok(array_of(alloc, items)?)
}

// It would take minutes if it went on behind the first difference.
#[test]
fn stops_at_the_first_difference(rt: HostRuntime) -> Result<(), Fail> {
    let alloc = rt.alloc();
    let first = one(&array(alloc, 1, 200_000)?, alloc)?;
    let second = one(&array(alloc, 2, 200_000)?, alloc)?;
    for _ in 0..1_000_000 {
        assert!(rt; !deep_equal(first.as_slice(), second.as_slice()));
    }
    Ok(())
}

#[test]
fn has_laws() {
    laws::items_are_equivalent();
    laws::sequences_are_equivalent();
}
