//! What is kept of the keys of one column.

ghost use Rattle.std.specs.Prelude.{◌≡◌, ◌<◌, ◌^◌, ◌∷◌, [], option_map};
ghost use Rattle.item_tree.specs.Item.{datum};
ghost use Rattle.tuple_rows.specs.Keys.{key_datum};
ghost use Rattle.item_tree.specs.Classes.{same_class, class_number};
ghost use Rattle.order_runs.specs.Clashes.{key_class};
ghost use Rattle.order_runs.specs.Seen.{column_seen};
ghost use Rattle.order_runs.specs.inside.Follow.{sees, clash_of, clash_of_one, place_of, followed, shifted, or_later, plus, first_some, IsWithin, IsPlaced};

use item_tree::{Class, Item};
use std::alloc::AllocError;

/// A class, and how many keys stand before the first one that has it.
#[derive(Clone, Copy, Debug, PartialEq, Eq)]
pub struct First {
    pub class: Class,
    pub before: u64,
}

/// The first class of a column, and how many keys stand before the first one of another class.
#[derive(Copy, Debug, PartialEq, Eq)]
pub struct ColumnSeen {
    pub first: Option<First>,
    pub other: Option<u64>,
}

impl Clone for ColumnSeen {
    ghost is_clone = { λ a b. b ≡ a };

    fn clone(&self) -> Result<ColumnSeen, AllocError> {
        Ok(*self)
    }
}

impl ColumnSeen {
    /// Of no keys.
    pub const NONE: ColumnSeen = ColumnSeen {
        first: None,
        other: None,
    };

    /// Of one key.
    pub fn of(key: &Option<Item>) -> ColumnSeen
        ensures { result ≡ column_seen (key_class (key_datum key.now) ∷ []) }
    {
        match class_of_key(key) {
            None => ColumnSeen::NONE,
            Some(class) => ColumnSeen {
                first: Some(First { class, before: 0 }),
                other: None,
            },
        }
    }

    /// How many of these keys stand before the first one whose class is not that of a key before
    /// it, here or in another column's keys.
    pub fn clash_after(&self, before: &ColumnSeen) -> Option<u64>
        ensures { result ≡ clash_of (sees before.now) self.now }
    {
        match before.first {
            None => self.other,
            Some(first) => match before.other {
                None => clash_with(first.class, self.first, self.other),
                Some(_) => self.first.map(|f| f.before),
            },
        }
    }

    /// Of these keys, so many, and others behind them.
    pub fn followed(&self, count: u64, later: &ColumnSeen) -> ColumnSeen
        requires count { count < 2 ^ 60 }
        requires later { IsWithin (2 ^ 60) later.now }
        ensures { result ≡ followed count self.now later.now }
    {
        let first = match self.first {
            Some(first) => Some(first),
            None => shifted(count, later.first),
        };
        let other = match self.other {
            Some(other) => Some(other),
            None => plus(count, later.clash_after(self)),
        };
        ColumnSeen { first, other }
    }
}

fn clash_with(class: Class, first: Option<First>, other: Option<u64>) -> Option<u64>
    ensures { result ≡ clash_of_one class first other }
{
    match first {
        None => None,
        Some(first) => {
            if same_class(class, first.class) {
                other
            } else {
                Some(first.before)
            }
        }
    }
}

fn shifted(count: u64, first: Option<First>) -> Option<First>
    requires count { count < 2 ^ 60 }
    requires first { IsPlaced (2 ^ 60) (place_of first) }
    ensures { result ≡ shifted count first }
{
    match first {
        None => None,
        Some(first) => Some(First {
            class: first.class,
            before: count + first.before,
        }),
    }
}

fn plus(count: u64, place: Option<u64>) -> Option<u64>
    requires count { count < 2 ^ 60 }
    requires place { IsPlaced (2 ^ 60) place }
    ensures { result ≡ plus count place }
{
    match place {
        None => None,
        Some(before) => Some(count + before),
    }
}

// The class of a key that may clash: an absent one and null go with every class.
fn class_of_key(key: &Option<Item>) -> Option<Class>
    ensures { result ≡ key_class (key_datum key.now) }
{
    match key {
        None => None,
        Some(Item::Null) => None,
        Some(item) => item.class(),
    }
}

fn same_class(a: Class, b: Class) -> bool
    ensures { result ≡ same_class a b }
{
    class_number(a) == class_number(b)
}

fn class_number(class: Class) -> u8
    ensures { result ≡ class_number class }
{
    match class {
        Class::Null => 0,
        Class::Boolean => 1,
        Class::Number => 2,
        Class::Text => 3,
        Class::Date => 4,
        Class::DateTime => 5,
    }
}
