//! Tests of how objects are made and read.

use crate::made::{nested, numbered, whole};
use item_tree::{Item, MakeFault, Pairs, Str, object_of, same_key};
use std::test::Fail;

#[test]
fn finds_the_first_repeat(rt: HostRuntime) -> Result<(), Fail> {
    let alloc = rt.alloc();
    for count in [2, 3, 8, 32, 33, 100] {
        assert!(rt; object_of(alloc, numbered(alloc, count, None)?).is_ok());
        for at in 1..count {
            match object_of(alloc, numbered(alloc, count, Some(at))?) {
                Err(MakeFault::KeyTwice { at: found }) => assert_eq!(rt; found, at as usize),
                _ => assert!(rt; false, "{count} {at}"),
            }
        }
    }
    Ok(())
}

#[test]
fn tells_the_first_cause(rt: HostRuntime) -> Result<(), Fail> {
    let alloc = rt.alloc();
    let mut pairs = numbered(alloc, 4, Some(2))?;
    pairs.push((Str::of(alloc, "k1")?, nested(alloc, 128)?))?;
    assert!(rt; matches!(object_of(alloc, pairs), Err(MakeFault::KeyTwice { at: 2 })));
    Ok(())
}

fn has(pairs: &Pairs, key: &Str, n: u32) -> bool {
    same_key(pairs.get(key), Some(&whole(n)))
}

// It would take minutes if the time for a key grew with the number of keys.
#[test]
fn looks_up_keys(rt: HostRuntime) -> Result<(), Fail> {
    let alloc = rt.alloc();
    for count in [3, 200_000] {
        let Item::Object(pairs) = object_of(alloc, numbered(alloc, count, None)?)? else {
            return Ok(());
        };
        for i in 0..count {
            let key = Str::from_string(alloc, format!(in alloc; "k{i}")?)?;
            assert!(rt; has(&pairs, &key, i));
        }
        assert!(rt; pairs.get(&Str::of(alloc, "k")?).is_none());
    }
    Ok(())
}
