//! Numbers in texts that are cast.

ghost use Rattle.std.specs.Prelude.{◌≡◌, ◌≤◌, length, IfOk};
ghost use Rattle.std.specs.Char.{is_ascii_digit};
ghost use Rattle.std.specs.List.{list_all, prefix_len, suffix_len};
ghost use Rattle.num_fixed.specs.Bounds.{NumberInBounds};
ghost use Rattle.num_fixed.specs.Scan.{behind_sign, digits_len};
ghost use Rattle.atom_ops.specs.Casts.{trimmed, without_last_blanks, is_fraction, ends_number, is_plain_number, number_in};
ghost use Rattle.value_rules.specs.Strings.{is_blank};

use item_tree::Code;
use num_fixed::{Number, read_number};

fn is_blank(b: u8) -> bool
    ensures { result ≡ is_blank b }
{
    b == b' ' || b == b'\t' || b == b'\r' || b == b'\n'
}

fn first_blanks(text: &[u8]) -> usize
    ensures value { result ≡ prefix_len is_blank text.now }
    ensures within { result ≤ length text.now }
{
    text.iter().take_while(|b| is_blank(**b)).count()
}

fn last_blanks(text: &[u8]) -> usize
    ensures value { result ≡ suffix_len is_blank text.now }
    ensures within { result ≤ length text.now }
{
    text.iter().rev().take_while(|b| is_blank(**b)).count()
}

fn without_last_blanks(text: &[u8]) -> &[u8]
    ensures { result.now ≡ without_last_blanks text.now }
{
    &text[..text.len() - last_blanks(text)]
}

/// The text without the blanks round it.
pub(crate) fn trimmed(text: &[u8]) -> &[u8]
    ensures { result.now ≡ trimmed text.now }
{
    without_last_blanks(&text[first_blanks(text)..])
}

fn behind_sign(text: &[u8]) -> &[u8]
    ensures { result.now ≡ behind_sign text.now }
{
    match text {
        [b'-' | b'+', rest @ ..] => rest,
        _ => text,
    }
}

fn digits_len(text: &[u8]) -> usize
    ensures value { result ≡ digits_len text.now }
    ensures within { result ≤ length text.now }
{
    text.iter().take_while(|b| b.is_ascii_digit()).count()
}

fn all_digits(text: &[u8]) -> bool
    ensures { result ≡ list_all is_ascii_digit text.now }
{
    text.iter().all(|b| b.is_ascii_digit())
}

fn is_fraction(some: bool, digits: &[u8]) -> bool
    ensures { result ≡ is_fraction some digits.now }
{
    all_digits(digits) && (some || !digits.is_empty())
}

fn ends_number(point: bool, some: bool, rest: &[u8]) -> bool
    ensures { result ≡ ends_number point some rest.now }
{
    match rest {
        [] => some,
        [b'.', digits @ ..] => point && is_fraction(some, digits),
        _ => false,
    }
}

fn is_plain_number(point: bool, text: &[u8]) -> bool
    ensures { result ≡ is_plain_number point text.now }
{
    let unsigned = behind_sign(text);
    let digits = digits_len(unsigned);
    ends_number(point, digits > 0, &unsigned[digits..])
}

/// The number that a text is: a sign or none and digits, and where there may be a point one with
/// digits before or behind it.
pub(crate) fn number_in(point: bool, text: &[u8]) -> Result<Number, Code>
    ensures value { result ≡ number_in point text.now }
    ensures within { IfOk result NumberInBounds }
{
    if !is_plain_number(point, text) {
        return Err(Code::FORG0001);
    }
    match read_number(text) {
        Ok(number) => Ok(number),
        Err(_fault) => Err(Code::FOAR0002),
    }
}
