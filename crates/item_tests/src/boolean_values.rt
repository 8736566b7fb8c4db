//! Tests of effective boolean values.

use crate::made::{one, samples};
use item_tree::{Code, Item, Units, Whole, ebv};
use std::test::Fail;

#[test]
fn has_boolean_values(rt: HostRuntime) -> Result<(), Fail> {
    let alloc = rt.alloc();
    let items = samples(alloc)?;
    let wants = "001111101111";
    for (item, want) in items.iter().zip(wants.chars()) {
        let sequence = one(item, alloc)?;
        assert_eq!(rt; ebv(sequence.as_slice()), Ok(want == '1'), "{item:?}");
    }
    assert_eq!(rt; ebv(&[]), Ok(false));
    assert_eq!(rt; ebv(&[Item::Int(Whole::new(0))]), Ok(false));
    assert_eq!(rt; ebv(&[Item::Dec(Units::new(0))]), Ok(false));
    assert_eq!(rt; ebv(items.as_slice()), Err(Code::FORG0006));
    assert_eq!(rt; Code::FORG0006.text(), "FORG0006");
    Ok(())
}
