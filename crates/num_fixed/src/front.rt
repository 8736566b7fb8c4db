//! A number at the front of some bytes.

ghost use Rattle.std.specs.Prelude.{◌≡◌, ◌<◌, ◌≤◌, ◌-◌, ◌^◌, length, true, false, IfSome, IfNone, IfOk, IfErr};
ghost use Rattle.num_fixed.specs.Fronts.{minus_len, sign_len, fraction_len, exponent_len, has_number, numeral_front, AreEnds, may_go_on as may_go_on_of, short_whole as short_whole_of, IsWholeFront};
ghost use Rattle.num_fixed.specs.Numeral.{number_of, IsSaid, IsRefused};
ghost use Rattle.num_fixed.specs.Scan.{digits_len};
ghost use Rattle.num_fixed.specs.inside.Spells.{spelled, IsKeptIn64, places_at, small_number};

use crate::nearest::with_sign;
use crate::read::read_parts;
use crate::{NumFault, Number};

/// A number at the front of some bytes, and where its parts end.
#[derive(Clone, Copy, Debug, PartialEq, Eq)]
pub struct NumberFront {
    /// The number, or why it isn't in bounds.
    pub value: Result<Number, NumFault>,
    /// Where the digits before the point end.
    pub whole_end: usize,
    /// Where the point and the digits behind it end, or the digits before it if there is no point.
    pub fraction_end: usize,
    /// Where the number ends.
    pub end: usize,
}

/// How long a minus at the front is.
fn minus_len(bytes: &[u8]) -> usize
    ensures value { result ≡ minus_len bytes.now }
    ensures within { result ≤ length bytes.now }
{
    match bytes {
        [b'-', ..] => 1,
        _ => 0,
    }
}

/// How long a sign at the front is.
fn sign_len(bytes: &[u8]) -> usize
    ensures value { result ≡ sign_len bytes.now }
    ensures within { result ≤ length bytes.now }
{
    match bytes {
        [first, ..] if *first == b'+' || *first == b'-' => 1,
        _ => 0,
    }
}

/// How many digits stand at the front, and the number that they spell behind another, where it has
/// room.
fn digits_front(start: u64, bytes: &[u8]) -> (usize, u64)
    ensures length { result.0 ≡ digits_len bytes.now }
    ensures within { result.0 ≤ length bytes.now }
    ensures number { IsKeptIn64 (spelled start bytes.now) result.1 }
{
    let mut n = start;
    let mut len = 0;
    for b in bytes {
        if !b.is_ascii_digit() {
            return (len, n);
        }
        n = n
            .wrapping_mul(10)
            .wrapping_add(u64::from(b.saturating_sub(b'0')));
        len += 1;
    }
    (len, n)
}

/// How long a point and the digits behind it are, and the number that these spell behind another.
#[tactic(auto, unfolding(crate::specs::Fronts::fraction_len))]
fn fraction_front(start: u64, bytes: &[u8]) -> (usize, u64)
    ensures length { result.0 ≡ fraction_len bytes.now }
    ensures within { result.0 ≤ length bytes.now }
    ensures number { IsKeptIn64 (number_of start (places_at bytes.now)) result.1 }
{
    let [b'.', rest @ ..] = bytes else {
        return (0, start)
    };
    let (len, n) = digits_front(start, rest);
    if len > 0 { (1 + len, n) } else { (0, start) }
}

/// How long an exponent at the front is.
#[tactic(auto, unfolding(crate::specs::Fronts::exponent_len))]
fn exponent_len(bytes: &[u8]) -> usize
    ensures value { result ≡ exponent_len bytes.now }
    ensures within { result ≤ length bytes.now }
{
    match bytes {
        [first, rest @ ..] if *first == b'e' || *first == b'E' => {
            let sign = sign_len(rest);
            let digits = digits_front(0, &rest[sign..]).0;
            if digits > 0 { 1 + sign + digits } else { 0 }
        }
        _ => 0,
    }
}

/// Whether what stands here may belong to a number whose digits are before it.
#[tactic(auto, unfolding(crate::specs::Fronts::fraction_len, crate::specs::Fronts::exponent_len))]
fn may_go_on(bytes: &[u8]) -> bool
    ensures value { result ≡ may_go_on_of bytes.now }
    ensures no { result ≡ false → (fraction_len bytes.now ≡ 0) × (exponent_len bytes.now ≡ 0) }
{
    match bytes {
        [first, ..] => *first == b'.' || *first == b'e' || *first == b'E',
        [] => false,
    }
}

/// How many units the last digit of a fraction of so many bytes counts.
fn units_in_last(fraction: usize) -> u128
    requires some { 0 < fraction }
    requires few { fraction < 8 }
    ensures { result ≡ 10 ^ (7 - fraction) }
{
    match fraction {
        1 => 1_000_000,
        2 => 100_000,
        3 => 10_000,
        4 => 1_000,
        5 => 100,
        6 => 10,
        _ => 1,
    }
}

/// The number that a few digits spell, when a fraction of so many bytes is behind the point.
fn small_number(negative: bool, n: u64, fraction: usize) -> Number
    requires digits { n < 10 ^ 18 }
    requires places { fraction < 8 }
    ensures { result ≡ small_number negative n fraction }
{
    let n = u128::from(n);
    if fraction == 0 {
        Number::Int(with_sign(negative, n))
    } else {
        Number::Dec(with_sign(negative, n * units_in_last(fraction)))
    }
}

/// The whole number at the front of some bytes and how many digits it has, where these are 1 to 18
/// and have neither a sign before them nor a point or a letter e behind them. It is what
/// [`number_front`] finds there, in fewer steps.
#[inline(always)]
pub fn short_whole(bytes: &[u8]) -> Option<(u64, usize)>
    ensures value { result ≡ short_whole_of bytes.now }
    ensures front { IfSome result (IsWholeFront bytes.now) }
{
    let (len, n) = digits_front(0, bytes);
    if len == 0 || len > 18 || may_go_on(&bytes[len..]) {
        return None;
    }
    Some((n, len))
}

/// The longest number at the front of some bytes: a minus or none, digits, a point and digits or
/// none, and an exponent or none, with a digit before the exponent. None where no number stands
/// there. Each byte is read once, except those of a number with an exponent, more than six places
/// or more than 18 digits. It is inlined, since its result would go through memory else.
#[inline(always)]
pub fn number_front(bytes: &[u8]) -> Option<NumberFront>
    ensures none { IfNone result (has_number bytes.now ≡ false) }
    ensures some { IfSome result (λ f. (has_number bytes.now ≡ true) × AreEnds bytes.now f) }
    ensures value { IfSome result (λ f. IfOk f.value (IsSaid (numeral_front bytes.now))) }
    ensures overflow { IfSome result (λ f. IfErr f.value (IsRefused (numeral_front bytes.now))) }
{
    let minus = minus_len(bytes);
    let (whole, n) = digits_front(0, &bytes[minus..]);
    let whole_end = minus + whole;
    // Most numbers are short and whole.
    if whole > 0 && whole <= 18 && !may_go_on(&bytes[whole_end..]) {
        return Some(NumberFront {
            value: Ok(small_number(minus == 1, n, 0)),
            whole_end,
            fraction_end: whole_end,
            end: whole_end,
        });
    }
    let (fraction, n) = fraction_front(n, &bytes[whole_end..]);
    let fraction_end = whole_end + fraction;
    if fraction_end == minus {
        return None;
    }
    let end = fraction_end + exponent_len(&bytes[fraction_end..]);
    let digits = whole + fraction.saturating_sub(1);
    let value = if digits <= 18 && fraction < 8 && end == fraction_end {
        Ok(small_number(minus == 1, n, fraction))
    } else {
        read_parts(&bytes[..end])
    };
    Some(NumberFront {
        value,
        whole_end,
        fraction_end,
        end,
    })
}
