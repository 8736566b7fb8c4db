//! Effective boolean values.

ghost use Rattle.std.specs.Prelude.{◌≡◌};
ghost use Rattle.item_tree.specs.Item.{datum, datums};
ghost use Rattle.item_tree.specs.Truth.{value_of_one, boolean_value};

use crate::{Code, Item};

/// The effective boolean value of a sequence. The empty sequence is false, an array or an object is
/// true. Two or more items have none, and one date or date-time has none.
pub fn ebv(s: &[Item]) -> Result<bool, Code>
    ensures { result ≡ boolean_value (datums s.now) }
{
    match s {
        [] => Ok(false),
        [x] => value_of_one(x),
        [_, _, ..] => Err(Code::FORG0006),
    }
}

fn value_of_one(x: &Item) -> Result<bool, Code>
    ensures { result ≡ value_of_one (datum x.now) }
{
    match x {
        Item::Null => Ok(false),
        Item::Bool(b) => Ok(*b),
        Item::Int(n) => Ok(n.get() != 0),
        Item::Dec(m) => Ok(m.get() != 0),
        Item::Text(t) => Ok(!t.as_str().is_empty()),
        Item::Date(_) | Item::DateTime(_) => Err(Code::FORG0006),
        Item::Array(_) | Item::Object(_) => Ok(true),
    }
}
