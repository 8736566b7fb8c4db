//! What atomics are compared by, as keys.

ghost use Rattle.std.specs.Prelude.{◌≡◌, IfOk, Some};
ghost use Rattle.item_tree.specs.Compare.{atom};
ghost use Rattle.item_tree.specs.Datum.{IsAtomic};
ghost use Rattle.item_tree.specs.Item.{datum};
ghost use Rattle.item_tree.specs.Keys.{atom_of};

use crate::{Day, Item, Moment, NoMemory, Str};
use std::alloc::AllocError;

/// What an atomic is compared by. Keys are equal where their atomics are, and stand in the order of
/// their atomics; where those do not compare, booleans stand before numbers, and then come strings,
/// dates and date-times. A string is shared with its item.
#[derive(Debug, Drop, PartialEq, Eq, PartialOrd, Ord, Hash)]
pub enum Key {
    Null,
    Boolean(bool),
    /// A number in units of 10^-6.
    Number(i128),
    Text(Str),
    Date(Day),
    DateTime(Moment),
}

/// What this atomic is compared by. It takes no memory, and fails only where no further copy of a
/// string can be counted.
pub fn key_of(item: &Item) -> Result<Key, NoMemory>
    requires { IsAtomic (datum item.now) }
    ensures { IfOk result (λ k. atom (datum item.now) ≡ Some (atom_of k)) }
{
    match item {
        Item::Null => Ok(Key::Null),
        Item::Bool(b) => Ok(Key::Boolean(*b)),
        Item::Int(n) => Ok(Key::Number(n.units())),
        Item::Dec(m) => Ok(Key::Number(m.get())),
        Item::Text(t) => Ok(Key::Text(t.copy()?)),
        Item::Date(day) => Ok(Key::Date(*day)),
        Item::DateTime(moment) => Ok(Key::DateTime(*moment)),
        Item::Array(_) | Item::Object(_) => unreachable!(),
    }
}

impl Clone for Key {
    ghost is_clone = { λ a b. b ≡ a };

    fn clone(&self) -> Result<Key, AllocError> {
        match self {
            Key::Null => Ok(Key::Null),
            Key::Boolean(b) => Ok(Key::Boolean(*b)),
            Key::Number(m) => Ok(Key::Number(*m)),
            Key::Text(t) => Ok(Key::Text(t.clone()?)),
            Key::Date(day) => Ok(Key::Date(*day)),
            Key::DateTime(moment) => Ok(Key::DateTime(*moment)),
        }
    }
}
