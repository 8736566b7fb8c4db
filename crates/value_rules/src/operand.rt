//! What an operand must be.

ghost use Rattle.std.specs.Prelude.{◌≡◌, Ok, Err, Some, None, MatchResult, IfOk, IfSome, option_map};
ghost use Rattle.std.specs.Str.{chars};
ghost use Rattle.item_tree.specs.Datum.{IsAtomic, IsWhole};
ghost use Rattle.item_tree.specs.Item.{datum, datums};
ghost use Rattle.num_fixed.specs.Bounds.{NumberInBounds};
ghost use Rattle.value_rules.specs.Operands.{atomic, number, integer_of, one_atomic, optional_atomic, one_number, optional_number, one_integer, string_of, optional_string};

use item_tree::{Code, Item};
use num_fixed::Number;

/// The item itself, where it is an atomic.
pub fn atomic(x: &Item) -> Result<&Item, Code>
    ensures value { MatchResult result
        (λ y. atomic (datum x.now) ≡ Ok (datum y.now)) (λ e. atomic (datum x.now) ≡ Err e) }
    ensures atomic { IfOk result (λ y. IsAtomic (datum y.now)) }
{
    match x {
        Item::Array(_) | Item::Object(_) => Err(Code::JNTY0004),
        _ => Ok(x),
    }
}

/// The one atomic of a sequence.
pub fn one_atomic(s: &[Item]) -> Result<&Item, Code>
    ensures value { MatchResult result
        (λ x. one_atomic (datums s.now) ≡ Ok (datum x.now))
        (λ e. one_atomic (datums s.now) ≡ Err e) }
    ensures atomic { IfOk result (λ x. IsAtomic (datum x.now)) }
{
    match s {
        [x] => atomic(x),
        _ => Err(Code::XPTY0004),
    }
}

/// The number that an item is.
pub fn number(x: &Item) -> Result<Number, Code>
    ensures value { result ≡ number (datum x.now) }
    ensures within { IfOk result NumberInBounds }
{
    match x {
        Item::Int(n) => Ok(Number::Int(n.get())),
        Item::Dec(m) => Ok(Number::Dec(m.get())),
        Item::Array(_) | Item::Object(_) => Err(Code::JNTY0004),
        _ => Err(Code::XPTY0004),
    }
}

/// The one number of a sequence.
pub fn one_number(s: &[Item]) -> Result<Number, Code>
    ensures value { result ≡ one_number (datums s.now) }
    ensures within { IfOk result NumberInBounds }
{
    match s {
        [x] => number(x),
        _ => Err(Code::XPTY0004),
    }
}

/// The integer that an item is.
pub fn integer_of(x: &Item) -> Result<i128, Code>
    ensures value { result ≡ integer_of (datum x.now) }
    ensures within { IfOk result IsWhole }
{
    match x {
        Item::Int(n) => Ok(n.get()),
        Item::Array(_) | Item::Object(_) => Err(Code::JNTY0004),
        _ => Err(Code::XPTY0004),
    }
}

/// The one integer of a sequence.
pub fn one_integer(s: &[Item]) -> Result<i128, Code>
    ensures value { result ≡ one_integer (datums s.now) }
    ensures within { IfOk result IsWhole }
{
    match s {
        [x] => integer_of(x),
        _ => Err(Code::XPTY0004),
    }
}

/// Nothing, or the one atomic of a sequence.
pub fn optional_atomic(s: &[Item]) -> Result<Option<&Item>, Code>
    ensures value { MatchResult result
        (λ o. optional_atomic (datums s.now) ≡ Ok (option_map (λ x. datum x.now) o))
        (λ e. optional_atomic (datums s.now) ≡ Err e) }
    ensures atomic { IfOk result (λ o. IfSome o (λ x. IsAtomic (datum x.now))) }
{
    if s.is_empty() {
        return Ok(None);
    }
    Ok(Some(one_atomic(s)?))
}

/// Nothing, or the one number of a sequence.
pub fn optional_number(s: &[Item]) -> Result<Option<Number>, Code>
    ensures value { result ≡ optional_number (datums s.now) }
    ensures within { IfOk result (λ o. IfSome o NumberInBounds) }
{
    if s.is_empty() {
        return Ok(None);
    }
    Ok(Some(one_number(s)?))
}

/// The string that an item is.
pub fn string_of(x: &Item) -> Result<&str, Code>
    ensures { MatchResult result
        (λ t. string_of (datum x.now) ≡ Ok (chars t.now)) (λ e. string_of (datum x.now) ≡ Err e) }
{
    match x {
        Item::Text(t) => Ok(t.as_str()),
        Item::Array(_) | Item::Object(_) => Err(Code::JNTY0004),
        _ => Err(Code::XPTY0004),
    }
}

/// The one string of a sequence; of none, the empty string.
pub fn optional_string(s: &[Item]) -> Result<&str, Code>
    ensures { MatchResult result
        (λ t. optional_string (datums s.now) ≡ Ok (chars t.now))
        (λ e. optional_string (datums s.now) ≡ Err e) }
{
    match s {
        [] => Ok(""),
        [x] => string_of(x),
        _ => Err(Code::XPTY0004),
    }
}
