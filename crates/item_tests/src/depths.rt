//! Tests of depths, and of keys that repeat.

use crate::made::{nested, one};
use item_tree::{MakeFault, PairList, Str, array_of, laws, object_of, object_of_distinct};
use std::test::Fail;

#[test]
fn keeps_the_depth(rt: HostRuntime) -> Result<(), Fail> {
    let alloc = rt.alloc();
    for depth in [0, 1, 2, 127, 128] {
        let item = nested(alloc, depth)?;
        assert_eq!(rt; item.depth(), depth);
        let inside = one(&item, alloc)?;
        let pairs = vec![in alloc; (Str::of(alloc, "k")?, item)]?;
        if depth < 128 {
            assert_eq!(rt; object_of(alloc, pairs)?.depth(), depth + 1);
            assert_eq!(rt; array_of(alloc, inside)?.depth(), depth + 1);
        } else {
            assert!(rt; matches!(object_of(alloc, pairs), Err(MakeFault::TooDeep)));
            assert!(rt; matches!(array_of(alloc, inside), Err(MakeFault::TooDeep)));
        }
    }
    laws::depths_are_kept();
    Ok(())
}

#[test]
fn takes_distinct_keys(rt: HostRuntime) -> Result<(), Fail> {
    let alloc = rt.alloc();
    let mut pairs = PairList::new(alloc);
    pairs.put(alloc, Str::of(alloc, "k")?, nested(alloc, 127)?)?;
    assert_eq!(rt; object_of_distinct(alloc, pairs)?.depth(), 128);
    let pairs = PairList::of(
        alloc,
        vec![in alloc; (Str::of(alloc, "k")?, nested(alloc, 128)?)]?,
    )?;
    assert!(rt; matches!(object_of_distinct(alloc, pairs), Err(MakeFault::TooDeep)));
    Ok(())
}
