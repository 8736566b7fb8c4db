//! What an atomic is cast to, a function for each type.

ghost use Rattle.std.specs.Prelude.{◌≡◌, Ok, Err, MatchResult, IfOk};
ghost use Rattle.item_tree.specs.Item.{datum};
ghost use Rattle.num_fixed.specs.Bounds.{NumberInBounds};
ghost use Rattle.atom_ops.specs.Casts.{as_decimal, integer_from, decimal_from, truth_in, boolean_from, null_from, date_from, moment_from};

use crate::date_texts::{day_in, moment_in};
use crate::number_texts::{number_in, trimmed};
use item_tree::{Code, Day, Item, Moment};
use num_fixed::{Number, to_units, whole_part};

/// An integer: a decimal without its part behind the point, true and false as 1 and 0, and a string
/// of digits, with a sign or without one.
pub(crate) fn integer_from(x: &Item) -> Result<Number, Code>
    ensures value { result ≡ integer_from (datum x.now) }
    ensures within { IfOk result NumberInBounds }
{
    match x {
        Item::Int(n) => Ok(Number::Int(n.get())),
        Item::Dec(m) => Ok(Number::Int(whole_part(m.get()))),
        Item::Bool(true) => Ok(Number::Int(1)),
        Item::Bool(false) => Ok(Number::Int(0)),
        Item::Text(t) => number_in(false, trimmed(t.as_str().as_bytes())),
        _ => Err(Code::FORG0001),
    }
}

/// A decimal: a number of the same value, true and false as 1 and 0, and a string of digits with a
/// point or without one, with a sign or without one, to the nearest unit.
pub(crate) fn decimal_from(x: &Item) -> Result<Number, Code>
    ensures value { result ≡ decimal_from (datum x.now) }
    ensures within { IfOk result NumberInBounds }
{
    match x {
        Item::Int(n) => Ok(Number::Dec(to_units(n.get()))),
        Item::Dec(m) => Ok(Number::Dec(m.get())),
        Item::Bool(true) => Ok(Number::Dec(1_000_000)),
        Item::Bool(false) => Ok(Number::Dec(0)),
        Item::Text(t) => match number_in(true, trimmed(t.as_str().as_bytes())) {
            Ok(number) => Ok(as_decimal(number)),
            Err(code) => Err(code),
        },
        _ => Err(Code::FORG0001),
    }
}

fn as_decimal(number: Number) -> Number
    requires { NumberInBounds number }
    ensures value { result ≡ as_decimal number }
    ensures within { NumberInBounds result }
{
    match number {
        Number::Int(n) => Number::Dec(to_units(n)),
        Number::Dec(m) => Number::Dec(m),
    }
}

/// A boolean: a number by whether it is zero, and the strings `true`, `1`, `false` and `0`.
pub(crate) fn boolean_from(x: &Item) -> Result<bool, Code>
    ensures { result ≡ boolean_from (datum x.now) }
{
    match x {
        Item::Bool(b) => Ok(*b),
        Item::Int(n) => Ok(n.get() != 0),
        Item::Dec(m) => Ok(m.get() != 0),
        Item::Text(t) => truth_in(trimmed(t.as_str().as_bytes())),
        _ => Err(Code::FORG0001),
    }
}

fn truth_in(text: &[u8]) -> Result<bool, Code>
    ensures { result ≡ truth_in text.now }
{
    if text == b"true".as_slice() || text == b"1".as_slice() {
        Ok(true)
    } else if text == b"false".as_slice() || text == b"0".as_slice() {
        Ok(false)
    } else {
        Err(Code::FORG0001)
    }
}

/// Null: null itself, and the string `null`.
pub(crate) fn null_from(x: &Item) -> Result<Item, Code>
    ensures { MatchResult result
        (λ y. null_from (datum x.now) ≡ Ok (datum y)) (λ e. null_from (datum x.now) ≡ Err e) }
{
    let is_null = match x {
        Item::Null => true,
        Item::Text(t) => trimmed(t.as_str().as_bytes()) == b"null".as_slice(),
        _ => false,
    };
    if is_null {
        Ok(Item::Null)
    } else {
        Err(Code::FORG0001)
    }
}

/// A date: a date-time without its time of day, and a string that says a date.
pub(crate) fn date_from(x: &Item) -> Result<Day, Code>
    ensures { result ≡ date_from (datum x.now) }
{
    match x {
        Item::Date(day) => Ok(*day),
        Item::DateTime(moment) => Ok(moment.day()),
        Item::Text(t) => day_in(trimmed(t.as_str().as_bytes())),
        _ => Err(Code::FORG0001),
    }
}

/// A date-time: a date's midnight, and a string that says a moment.
pub(crate) fn moment_from(x: &Item) -> Result<Moment, Code>
    ensures { result ≡ moment_from (datum x.now) }
{
    match x {
        Item::Date(day) => Ok(Moment::new(*day, 0)),
        Item::DateTime(moment) => Ok(*moment),
        Item::Text(t) => moment_in(trimmed(t.as_str().as_bytes())),
        _ => Err(Code::FORG0001),
    }
}
