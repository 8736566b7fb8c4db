//! The types that a query names.

ghost use Rattle.std.specs.Prelude.{◌≡◌, codes};
ghost use Rattle.std.specs.Str.{bytes_eq};
ghost use Rattle.query_tree.specs.Scopes.{is_at_most_one};
ghost use Rattle.static_rules.specs.Mentions.{has_type, casts_to};
ghost use Rattle.static_rules.specs.Rules.{is_empty_sequence, is_once, is_atomic_type, is_unknown_type, is_unknown_cast_type};
ghost use Rattle.static_rules.specs.Compiling.{placed_type, type_of};

use item_tree::Str;
use query_tree::{Placed, TypeName};
use seq_types::{ItemType, SeqType, Times, find_type};

/// Whether a sequence has no such type.
pub fn is_unknown_type(t: &TypeName) -> bool
    ensures { result ≡ is_unknown_type (has_type t.now) }
{
    !(is_empty_sequence(t) || find_type(t.name.as_str(), t.parens).is_some())
}

/// Whether a cast has no such type.
pub fn is_unknown_cast_type(t: &TypeName) -> bool
    ensures { result ≡ is_unknown_cast_type (casts_to t.now) }
{
    !(is_atomic(find_type(t.name.as_str(), t.parens)) && is_at_most_one(t.times))
}

/// The type that is meant.
pub fn placed_type(t: &Placed<TypeName>) -> Placed<SeqType>
    ensures { result ≡ placed_type t.now }
{
    Placed {
        place: t.place,
        name: type_of(&t.name),
    }
}

fn type_of(t: &TypeName) -> SeqType
    ensures { result ≡ type_of t.now }
{
    if is_empty_sequence(t) {
        return SeqType::Empty;
    }
    SeqType::Of {
        item: find_type(t.name.as_str(), t.parens).unwrap_or(ItemType::Item),
        times: t.times,
    }
}

// Whether a type is written `empty-sequence()`.
fn is_empty_sequence(t: &TypeName) -> bool
    ensures { result ≡ is_empty_sequence t.now }
{
    let named = is_word(&t.name);
    let once = is_once(t.times);
    named && t.parens && once
}

fn is_word(name: &Str) -> bool
    ensures { result ≡ bytes_eq name.now (codes "empty-sequence") }
{
    name.as_str() == "empty-sequence"
}

fn is_once(times: Times) -> bool
    ensures { result ≡ is_once times }
{
    match times {
        Times::One => true,
        Times::Optional | Times::Any | Times::Many => false,
    }
}

fn is_atomic(found: Option<ItemType>) -> bool
    ensures { result ≡ is_atomic_type found }
{
    match found {
        Some(ItemType::Text)
        | Some(ItemType::Integer)
        | Some(ItemType::Decimal)
        | Some(ItemType::Boolean)
        | Some(ItemType::Null)
        | Some(ItemType::Date)
        | Some(ItemType::DateTime) => true,
        _ => false,
    }
}

fn is_at_most_one(times: Times) -> bool
    ensures { result ≡ is_at_most_one times }
{
    match times {
        Times::One | Times::Optional => true,
        Times::Any | Times::Many => false,
    }
}
