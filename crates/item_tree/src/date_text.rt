//! The texts of dates and date-times.

ghost use Rattle.std.specs.Prelude.{◌≡◌, ◌+◌, ◌≤◌, ◌<◌, ◌/◌, ◌%◌, ◌^◌, ◌++◌, ◌∷◌, [], length, take, drop};
ghost use Rattle.std.specs.Str.{IsAscii, chars};
ghost use Rattle.item_tree.specs.Dates.{IsDate, date_text, date_time_text, clock_text, nanos_text};
ghost use Rattle.item_tree.specs.Digits.{last_digits, without_last_zeros};

use crate::decimal::kept_len;
use crate::{Day, Moment};
use std::marker::Model;
use std::str;

/// The text of a date or of a moment. It takes no memory.
#[derive(Debug, Drop)]
pub struct DateText {
    bytes: [u8; 30],
    len: usize,
}

impl Model for DateText {
    ghost use Rattle.std.specs.Prelude.{◌≤◌, ℕ, List, take};
    ghost use Rattle.std.specs.Str.{IsAscii};

    ghost Value = { List ℕ };

    ghost view = { λ t. take t.len t.bytes };

    ghost invariant = { λ t. (t.len ≤ 30) × IsAscii (take t.len t.bytes) };
}

impl DateText {
    /// The text.
    pub fn as_str(&self) -> &str
        ensures value { result.now ≡ self.now }
        ensures chars { chars result.now ≡ self.now }
    {
        ascii_str(&self.bytes[..self.len])
    }
}

fn ascii_str(bytes: &[u8]) -> &str
    requires { IsAscii bytes.now }
    ensures value { result.now ≡ bytes.now }
    ensures chars { chars result.now ≡ bytes.now }
{
    unsafe { str::from_utf8_unchecked(bytes) }
}

impl DateText {
    fn empty() -> DateText
        ensures { result ≡ [] }
    {
        DateText {
            bytes: [0; 30],
            len: 0,
        }
    }

    fn push(&mut self, more: &[u8])
        requires room { length self.old + length more.now ≤ 30 }
        requires ascii { IsAscii more.now }
        ensures { self.new ≡ self.old ++ more.now }
    {
        let end = self.len + more.len();
        self.bytes[self.len..end].copy_from_slice(more);
        self.len = end;
    }
}

impl Day {
    /// The text: `YYYY-MM-DD`.
    pub fn text(&self) -> DateText
        ensures { result ≡ date_text self.now }
    {
        let mut text = DateText::empty();
        text.push(&date_bytes(*self));
        text
    }
}

impl Moment {
    /// The text: the date, `T`, `HH:MM:SS`, the fraction of the second without zeros at its end,
    /// behind a point, if it is not 0, and `Z`.
    pub fn text(&self) -> DateText
        ensures { result ≡ date_time_text self.now }
    {
        let nanos = self.nanos();
        let mut text = self.day().text();
        text.push(b"T");
        text.push(&clock_bytes((nanos / 1_000_000_000) as u32));
        push_fraction(&mut text, (nanos % 1_000_000_000) as u32);
        text.push(b"Z");
        text
    }
}

// The point and the fraction of a second.
fn push_fraction(text: &mut DateText, nanos: u32)
    requires fraction { nanos < 10 ^ 9 }
    requires room { length text.old ≤ 20 }
    ensures text { text.new ≡ text.old ++ nanos_text nanos }
    ensures within { length text.new ≤ length text.old + 10 }
{
    if nanos > 0 {
        let digits = nano_digits(nanos);
        text.push(b".");
        text.push(&digits[..kept_len(&digits)]);
    }
}

// The last digit of a number.
fn digit(n: u32) -> u8
    ensures { result ≡ 48 + n % 10 }
{
    b'0' + (n % 10) as u8
}

fn date_bytes(day: Day) -> [u8; 10]
    ensures { result ≡ date_text day }
{
    let y = u32::from(day.year());
    let m = u32::from(day.month());
    let d = u32::from(day.day());
    [
        digit(y / 10 / 10 / 10),
        digit(y / 10 / 10),
        digit(y / 10),
        digit(y),
        b'-',
        digit(m / 10),
        digit(m),
        b'-',
        digit(d / 10),
        digit(d),
    ]
}

// The hours, minutes and seconds of so many seconds since midnight.
fn clock_bytes(seconds: u32) -> [u8; 8]
    ensures { result ≡ clock_text seconds }
{
    let h = seconds / 3600;
    let m = seconds / 60 % 60;
    let s = seconds % 60;
    [
        digit(h / 10),
        digit(h),
        b':',
        digit(m / 10),
        digit(m),
        b':',
        digit(s / 10),
        digit(s),
    ]
}

// Nine digits.
fn nano_digits(n: u32) -> [u8; 9]
    ensures { result ≡ last_digits 9 n }
{
    let n1 = n / 10;
    let n2 = n1 / 10;
    let n3 = n2 / 10;
    let n4 = n3 / 10;
    let n5 = n4 / 10;
    let n6 = n5 / 10;
    let n7 = n6 / 10;
    let n8 = n7 / 10;
    [
        digit(n8),
        digit(n7),
        digit(n6),
        digit(n5),
        digit(n4),
        digit(n3),
        digit(n2),
        digit(n1),
        digit(n),
    ]
}
