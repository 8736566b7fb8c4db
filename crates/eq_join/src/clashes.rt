//! The first key of a list that a given key cannot be compared with.

ghost use Rattle.std.specs.Prelude.{◌≡◌, ◌++◌, ◌∷◌, [], length, None};
ghost use Rattle.tuple_rows.specs.Keys.{KeyList, key_datum, key_data};
ghost use Rattle.eq_join.specs.Clashes.{clash, clash_at, earlier};
ghost use Rattle.eq_join.specs.inside.Noted.{noted, AreClashes};

use crate::PairFault;
use item_tree::{Class, Code, Item};

/// For each class of keys, and for arrays and objects, the first key in a list that a key of that
/// class cannot be compared with.
#[derive(Clone, Copy, Debug)]
pub(crate) struct Clashes {
    null: Option<PairFault>,
    boolean: Option<PairFault>,
    number: Option<PairFault>,
    text: Option<PairFault>,
    date: Option<PairFault>,
    date_time: Option<PairFault>,
    no_atomic: Option<PairFault>,
}

impl Clashes {
    /// Those of no keys.
    pub fn none() -> Clashes
        ensures { (c : _) → noted result c ≡ None }
    {
        Clashes {
            null: None,
            boolean: None,
            number: None,
            text: None,
            date: None,
            date_time: None,
            no_atomic: None,
        }
    }

    /// One more key of this class at this position, behind those that were noted.
    pub fn note(self, class: Option<Class>, at: u64) -> Clashes
        ensures { (c : _) → noted result c ≡ earlier (noted self c) (clash_at (clash c class) at) }
    {
        Clashes {
            null: first(self.null, Some(Class::Null), class, at),
            boolean: first(self.boolean, Some(Class::Boolean), class, at),
            number: first(self.number, Some(Class::Number), class, at),
            text: first(self.text, Some(Class::Text), class, at),
            date: first(self.date, Some(Class::Date), class, at),
            date_time: first(self.date_time, Some(Class::DateTime), class, at),
            no_atomic: first(self.no_atomic, None, class, at),
        }
    }

    /// The first key that a key of this class cannot be compared with.
    pub fn of(&self, class: Option<Class>) -> Option<PairFault>
        ensures { result ≡ noted self.now class }
    {
        match class {
            Some(Class::Null) => self.null,
            Some(Class::Boolean) => self.boolean,
            Some(Class::Number) => self.number,
            Some(Class::Text) => self.text,
            Some(Class::Date) => self.date,
            Some(Class::DateTime) => self.date_time,
            None => self.no_atomic,
        }
    }
}

/// For each class the first of these keys that a key of that class cannot be compared with.
pub(crate) fn clashes_of(keys: &[Option<Item>]) -> Clashes
    ensures { AreClashes result (key_data keys.now) }
{
    let mut clashes = Clashes::none();
    for (at, key) in keys.iter().enumerate() {
        clashes = with_key(clashes, key, at as u64);
    }
    clashes
}

// One more key behind so many.
fn with_key(clashes: Clashes, key: &Option<Item>, at: u64) -> Clashes
    ensures { (ls : KeyList) → length ls ≡ at → AreClashes clashes ls
        → AreClashes result (ls ++ key_datum key.now ∷ []) }
{
    match key {
        None => clashes,
        Some(item) => clashes.note(item.class(), at),
    }
}

// What a key of the first class clashes with, where one of the second class comes now.
fn first(
    found: Option<PairFault>,
    class: Option<Class>,
    other: Option<Class>,
    at: u64,
) -> Option<PairFault>
    ensures { result ≡ earlier found (clash_at (clash class other) at) }
{
    if found.is_some() {
        return found;
    }
    match clash(class, other) {
        None => None,
        Some(code) => Some(PairFault { code, at }),
    }
}

fn clash(class: Option<Class>, other: Option<Class>) -> Option<Code>
    ensures { result ≡ clash class other }
{
    let (Some(class), Some(other)) = (class, other) else {
        return Some(Code::JNTY0004);
    };
    if class == other || class == Class::Null || other == Class::Null {
        None
    } else {
        Some(Code::XPTY0004)
    }
}
