//! Tests of values that go last in a list.

use item_tree::push_last;
use std::test::Fail;

// The list grows more than once.
#[test]
fn puts_values_last(rt: HostRuntime) -> Result<(), Fail> {
    let alloc = rt.alloc();
    let mut list = Vec::new(alloc);
    for n in [7u32, 3, 9, 3, 1, 8, 2, 6, 5] {
        push_last(&mut list, n)?;
    }
    assert_eq!(rt; list.as_slice(), &[7, 3, 9, 3, 1, 8, 2, 6, 5][..]);
    Ok(())
}
