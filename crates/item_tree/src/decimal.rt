//! The texts of decimals.

ghost use Rattle.std.specs.Prelude.{◌≡◌, ◌+◌, ◌/◌, ◌%◌, ◌^◌, ◌<◌, ◌≤◌, ◌++◌, length, take, drop};
ghost use Rattle.std.specs.Str.{IsAscii};
ghost use Rattle.std.specs.Fmt.{decimal};
ghost use Rattle.item_tree.specs.Datum.{IsUnits};
ghost use Rattle.item_tree.specs.Digits.{without_last_zeros};
ghost use Rattle.item_tree.specs.ItemText.{decimal_text, units_text, fraction_text};
ghost use Rattle.item_tree.specs.inside.Written.{Stands, sign_text};

use crate::Units;
use itoa::write_digits;
use std::str;

/// A sign, 20 digits, a point and 6 places.
const MAX_LEN: usize = 28;

/// Room for the text of one decimal, so that no memory is asked for to print it.
#[derive(Clone, Copy)]
pub struct DecimalBuffer {
    bytes: [u8; MAX_LEN],
}

impl DecimalBuffer {
    pub fn new() -> DecimalBuffer {
        DecimalBuffer {
            bytes: [0; MAX_LEN],
        }
    }

    /// The text of a decimal, without trailing zeros, and without a point where it is whole.
    pub fn format(&mut self, m: Units) -> &str
        ensures text { result.now ≡ decimal_text m }
        ensures ascii { IsAscii result.now }
    {
        let (negative, units) = magnitude(m.get());
        let (whole, rest) = split(units);
        let (point, end) = write_fraction(rest, &mut self.bytes);
        let first = write_whole(whole, &mut self.bytes, point);
        let start = write_sign(negative, &mut self.bytes, first);
        unsafe { str::from_utf8_unchecked(&self.bytes[start..end]) }
    }
}

// Whether a number of units of 10^-6 is negative, and the number without its sign.
fn magnitude(m: i128) -> (bool, u128)
    requires { IsUnits m }
    ensures text { sign_text result.0 ++ units_text result.1 ≡ decimal_text m }
    ensures within { result.1 < 10 ^ 26 }
{
    if m < 0 {
        (true, m.unsigned_abs())
    } else {
        (false, m.unsigned_abs())
    }
}

// The whole part of a number of units of 10^-6, and the units behind the point.
fn split(units: u128) -> (u128, u32)
    requires { units < 10 ^ 26 }
    ensures whole { result.0 ≡ units / 1000000 }
    ensures units { result.1 ≡ units % 1000000 }
{
    // Most numbers are small, and a division of 64 bits is much faster.
    if units <= u128::from(u64::MAX) {
        let units = units as u64;
        return (u128::from(units / 1_000_000), (units % 1_000_000) as u32);
    }
    (units / 1_000_000, (units % 1_000_000) as u32)
}

// Writes the point and the places behind it, of a number of units below one, and returns where they
// start and end.
fn write_fraction(units: u32, bytes: &mut [u8; MAX_LEN]) -> (usize, usize)
    requires { units < 1000000 }
    ensures room { 21 ≤ result.0 }
    ensures text { Stands (fraction_text units) bytes.new result.0 result.1 }
{
    if units == 0 {
        return (MAX_LEN, MAX_LEN);
    }
    let point = write_places(units, bytes);
    bytes[point] = b'.';
    let places = point + 1;
    (point, places + kept_len(&bytes[places..]))
}

// Writes the six places behind a 1, and returns where that stands. It keeps the zeros that the
// places begin with, and the point takes its place.
fn write_places(units: u32, bytes: &mut [u8; MAX_LEN]) -> usize
    requires { units < 1000000 }
    ensures room { 21 ≤ result }
    ensures inside { result < 28 }
    ensures written { drop result bytes.new ≡ decimal (1000000 + units) }
{
    write_digits((1_000_000 + units) as u64, bytes, MAX_LEN)
}

// How many digits stand before the zeros at the end.
pub(crate) fn kept_len(digits: &[u8]) -> usize
    ensures within { result ≤ length digits.now }
    ensures kept { take result digits.now ≡ without_last_zeros digits.now }
{
    let mut end = digits.len();
    while end > 0 && digits[end - 1] == b'0' {
        end -= 1;
    }
    end
}

// Writes the digits so that they end at `end`, and returns where they start.
fn write_whole(n: u128, bytes: &mut [u8; MAX_LEN], end: usize) -> usize
    requires small { n < 10 ^ 20 }
    requires room { 21 ≤ end }
    requires inside { end ≤ 28 }
    ensures start { result + length (decimal n) ≡ end }
    ensures first { 0 < result }
    ensures written { drop result bytes.new ≡ decimal n ++ drop end bytes.old }
{
    if n <= u128::from(u64::MAX) {
        return write_digits(n as u64, bytes, end);
    }
    bytes[end - 1] = b'0' + (n % 10) as u8;
    write_digits((n / 10) as u64, bytes, end - 1)
}

// Writes the sign of a negative number before the digits, and returns where the number starts.
fn write_sign(negative: bool, bytes: &mut [u8; MAX_LEN], first: usize) -> usize
    requires room { 0 < first }
    requires inside { first ≤ 28 }
    ensures start { result + length (sign_text negative) ≡ first }
    ensures written { drop result bytes.new ≡ sign_text negative ++ drop first bytes.old }
{
    if !negative {
        return first;
    }
    bytes[first - 1] = b'-';
    first - 1
}
