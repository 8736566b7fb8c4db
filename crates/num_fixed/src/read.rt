//! The parts of a number's text.

ghost use Rattle.std.specs.Prelude.{◌≡◌, ◌↔◌, IsTrue, [], ◌++◌, take, drop, IfOk, IfErr};
ghost use Rattle.std.specs.Char.{is_ascii_digit};
ghost use Rattle.std.specs.List.{list_all};
ghost use Rattle.num_fixed.specs.Bounds.{NumberInBounds};
ghost use Rattle.num_fixed.specs.Numeral.{AreDigits, Numeral, IsNumeral, IsNumberText, IsSaid, IsRefused};
ghost use Rattle.num_fixed.specs.Scan.{minus_at, behind_sign, digits_len, exp_minus_at, exp_digits_at, only_digits, only_exp, ends_well};
ghost use Rattle.num_fixed.specs.inside.Reads.{IsIntegerOf, IsIntegerOver, IsDecimalRead, IsDecimalOver};
ghost use Rattle.num_fixed.specs.declared.number.NumFault.TheVariants.{Overflow};

use crate::bounds::WHOLE_BOUND;
use crate::digits::number_of;
use crate::front::number_front;
use crate::nearest::with_sign;
use crate::scale::size_in_units;
use crate::{NumFault, Number};

/// Whether a minus stands first, and what is behind a sign, if there is one.
fn split_sign(text: &[u8]) -> (bool, &[u8])
    ensures minus { result.0 ≡ minus_at text.now }
    ensures rest { result.1.now ≡ behind_sign text.now }
{
    match text {
        [b'-', rest @ ..] => (true, rest),
        [b'+', rest @ ..] => (false, rest),
        _ => (false, text),
    }
}

/// How many digits stand first.
fn digits_len(text: &[u8]) -> usize
    ensures { result ≡ digits_len text.now }
{
    text.iter().take_while(|b| b.is_ascii_digit()).count()
}

/// The digits that stand first, and the rest.
fn split_digits(text: &[u8]) -> (&[u8], &[u8])
    ensures digits { AreDigits result.0.now }
    ensures first { result.0.now ≡ take (digits_len text.now) text.now }
    ensures rest { result.1.now ≡ drop (digits_len text.now) text.now }
{
    text.split_at(digits_len(text))
}

/// Whether an exponent is below 0, and its digits. What isn't there is as an exponent of 0.
fn split_exponent(text: &[u8]) -> (bool, &[u8])
    ensures minus { result.0 ≡ exp_minus_at text.now }
    ensures digits { result.1.now ≡ exp_digits_at text.now }
{
    match text {
        [_letter, signed @ ..] => split_sign(signed),
        [] => (false, text),
    }
}

fn all_digits(text: &[u8]) -> bool
    ensures { result ≡ list_all is_ascii_digit text.now }
{
    text.iter().all(|b| b.is_ascii_digit())
}

/// Whether a text is one digit or more.
fn is_digits(text: &[u8]) -> bool
    ensures { result ≡ only_digits text.now }
{
    !text.is_empty() && all_digits(text)
}

/// Whether a text is an exponent or nothing.
fn is_exponent(text: &[u8]) -> bool
    ensures { result ≡ only_exp text.now }
{
    match text {
        [b'e' | b'E', signed @ ..] => {
            let (_, digits) = split_sign(signed);
            is_digits(digits)
        }
        _ => text.is_empty(),
    }
}

/// Whether what stands behind the digits before the point ends a number.
fn ends_well(some: bool, text: &[u8]) -> bool
    ensures { result ≡ ends_well some text.now }
{
    match text {
        [] => some,
        [b'.', behind @ ..] => {
            let (fraction, exponent) = split_digits(behind);
            (some || !fraction.is_empty()) && is_exponent(exponent)
        }
        _ => some && is_exponent(text),
    }
}

/// Whether a text is a number that [`read_number`] takes: a sign or none, digits with or without a
/// point, a digit on one side of it at least, and an exponent or none.
pub fn is_number(text: &[u8]) -> bool
    ensures { IsTrue result ↔ IsNumberText text.now }
{
    let (_, unsigned) = split_sign(text);
    let (whole, rest) = split_digits(unsigned);
    ends_well(!whole.is_empty(), rest)
}

/// The integer that digits spell.
fn read_int(negative: bool, digits: &[u8]) -> Result<Number, NumFault>
    ensures value { IfOk result (λ x. IsIntegerOf negative digits.now x × NumberInBounds x) }
    ensures overflow { IfErr result (λ e. (e ≡ Overflow) × IsIntegerOver negative digits.now) }
{
    match number_of(digits, &[]) {
        Some(size) => {
            if size < WHOLE_BOUND {
                Ok(Number::Int(with_sign(negative, size)))
            } else {
                Err(NumFault::Overflow)
            }
        }
        None => Err(NumFault::Overflow),
    }
}

/// The decimal nearest to what digits before and behind the point spell, with an exponent behind
/// them.
fn read_dec(
    negative: bool,
    whole: &[u8],
    fraction: &[u8],
    exponent: &[u8],
) -> Result<Number, NumFault>
    requires { AreDigits (whole.now ++ fraction.now) }
    ensures value { IsDecimalRead negative whole.now fraction.now exponent.now result }
    ensures overflow { IsDecimalOver negative whole.now fraction.now exponent.now result }
{
    let (small, digits) = split_exponent(exponent);
    match size_in_units(whole, fraction, small, digits) {
        Some(size) => Ok(Number::Dec(with_sign(negative, size))),
        None => Err(NumFault::Overflow),
    }
}

/// The number that a text says, read part by part: an integer where it has neither point nor
/// exponent, and else a decimal. It takes a text of any length and any exponent.
pub(crate) fn read_parts(text: &[u8]) -> Result<Number, NumFault>
    requires { IsNumberText text.now }
    ensures value { (n : Numeral) → IsNumeral n text.now [] → IfOk result (IsSaid n) }
    ensures overflow { (n : Numeral) → IsNumeral n text.now [] → IfErr result (IsRefused n) }
{
    let (negative, unsigned) = split_sign(text);
    let (whole, rest) = split_digits(unsigned);
    match rest {
        [] => read_int(negative, whole),
        [b'.', behind @ ..] => {
            let (fraction, exponent) = split_digits(behind);
            read_dec(negative, whole, fraction, exponent)
        }
        _ => read_dec(negative, whole, &[], rest),
    }
}

/// The number that a text says: an integer where it has neither point nor exponent, and else the
/// decimal nearest to its value. It takes a text of any length and any exponent, in time linear in
/// the text, and never answers `ZeroDivisor`.
pub fn read_number(text: &[u8]) -> Result<Number, NumFault>
    requires { IsNumberText text.now }
    ensures value { (n : Numeral) → IsNumeral n text.now [] → IfOk result (IsSaid n) }
    ensures overflow { (n : Numeral) → IsNumeral n text.now [] → IfErr result (IsRefused n) }
{
    if let Some(front) = number_front(text) {
        if front.end == text.len() {
            return front.value;
        }
    }
    read_parts(text)
}
