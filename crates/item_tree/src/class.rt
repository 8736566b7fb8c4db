//! The classes of atomics.

ghost use Rattle.std.specs.Prelude.{◌≡◌};
ghost use Rattle.item_tree.specs.Classes.{class_of};
ghost use Rattle.item_tree.specs.Item.{datum};

use crate::Item;

/// What an atomic is. Two atomics compare where they are of one class, or one of them is null.
#[derive(Clone, Copy, Debug, PartialEq, Eq)]
pub enum Class {
    Null,
    Boolean,
    Number,
    Text,
    Date,
    DateTime,
}

impl Item {
    /// The class of an atomic. `None` exactly for an array or an object.
    pub fn class(&self) -> Option<Class>
        ensures { result ≡ class_of (datum self.now) }
    {
        match self {
            Item::Null => Some(Class::Null),
            Item::Bool(_) => Some(Class::Boolean),
            Item::Int(_) | Item::Dec(_) => Some(Class::Number),
            Item::Text(_) => Some(Class::Text),
            Item::Date(_) => Some(Class::Date),
            Item::DateTime(_) => Some(Class::DateTime),
            Item::Array(_) | Item::Object(_) => None,
        }
    }
}
