//! The escapes in a string.

ghost use Rattle.std.specs.Prelude.{◌≡◌, ◌<◌, ◌≤◌, ◌++◌, true, suc, length, ◌∷◌, Some, None, IfSome, IfNone, OnOk, OnErr, option_map, if◌then◌else◌};
ghost use Rattle.std.specs.Char.{IsScalar, digit_value, is_digit, encode_utf8};
ghost use Rattle.item_tree.specs.JsonString.{is_raw, short_escape, code_unit, is_high_half, is_low_half, lone_character, paired_character};
ghost use Rattle.json_text.specs.inside.Scan.{string_at};
ghost use Rattle.json_text.specs.Escapes.{bytes_of, IsSound, Begins, digits_unit, low_half_at, other_half, unit_at, long_escape, escape_of};

use std::alloc::AllocError;

/// What a byte or an escape in a string stands for.
#[derive(Clone, Copy, Debug, PartialEq, Eq)]
pub enum Spelled {
    /// A byte of UTF-8.
    Byte(u8),
    /// A code point.
    Char(u32),
}

/// Whether a byte stands for itself: it is no control character, no quote and no backslash.
pub fn is_raw(b: u8) -> bool
    ensures { result ≡ is_raw b }
{
    b >= 32 && b != b'"' && b != b'\\'
}

/// What a backslash and this byte stand for.
fn short_escape(b: u8) -> Option<u8>
    ensures { result ≡ short_escape b }
{
    match b {
        b'"' | b'\\' | b'/' => Some(b),
        b'b' => Some(8),
        b'f' => Some(12),
        b'n' => Some(10),
        b'r' => Some(13),
        b't' => Some(9),
        _ => None,
    }
}

fn hex(b: u8) -> Option<u32>
    ensures value { result ≡ (if is_digit b 16 then Some (digit_value b) else None) }
    ensures small { IfSome result (λ d. d < 16) }
{
    char::from(b).to_digit(16)
}

#[tactic(auto, unfolding(item_tree::specs::JsonString::code_unit))]
fn code_unit(a: u8, b: u8, c: u8, d: u8) -> Option<u32>
    ensures value { result ≡ code_unit a b c d }
    ensures small { IfSome result (λ u. u < 65536) }
{
    match (hex(a), hex(b), hex(c), hex(d)) {
        (Some(a), Some(b), Some(c), Some(d)) => Some(a * 4096 + b * 256 + c * 16 + d),
        _ => None,
    }
}

/// The code unit of four hexadecimal digits at the front, and what is behind them.
fn digits_unit(text: &[u8]) -> Option<(u32, &[u8])>
    ensures value { option_map (λ x. (x.0, x.1.now)) result ≡ digits_unit text.now }
    ensures within { IfSome result (λ x. (x.0 < 65536) × (length x.1.now < length text.now)) }
{
    match text {
        [a, b, c, d, rest @ ..] => match code_unit(*a, *b, *c, *d) {
            Some(unit) => Some((unit, rest)),
            None => None,
        },
        _ => None,
    }
}

fn is_high_half(unit: u32) -> bool
    ensures { result ≡ is_high_half unit }
{
    unit >= 0xd800 && unit < 0xdc00
}

fn is_low_half(unit: u32) -> bool
    ensures { result ≡ is_low_half unit }
{
    unit >= 0xdc00 && unit < 0xe000
}

/// The escape of a low half at the front, and what is behind it.
fn low_half_at(text: &[u8]) -> Option<(u32, &[u8])>
    ensures value { option_map (λ x. (x.0, x.1.now)) result ≡ low_half_at text.now }
    ensures low { IfSome result (λ x. is_low_half x.0 ≡ true) }
    ensures within { IfSome result (λ x. length x.1.now < length text.now) }
{
    let [b'\\', b'u', digits @ ..] = text else {
        return None
    };
    match digits_unit(digits) {
        Some((unit, rest)) if is_low_half(unit) => Some((unit, rest)),
        _ => None,
    }
}

/// The character of a unit that is in no pair.
fn lone_character(unit: u32) -> Spelled
    requires { unit < 65536 }
    ensures value { result ≡ Spelled.Char (lone_character unit) }
    ensures sound { IsSound result }
{
    if is_high_half(unit) || is_low_half(unit) {
        Spelled::Char(0xfffd)
    } else {
        Spelled::Char(unit)
    }
}

/// The character of a pair of halves.
fn paired_character(high: u32, low: u32) -> Spelled
    requires high { is_high_half high ≡ true }
    requires low { is_low_half low ≡ true }
    ensures value { result ≡ Spelled.Char (paired_character high low) }
    ensures sound { IsSound result }
{
    Spelled::Char(0x10000 + high.saturating_sub(0xd800) * 1024 + low.saturating_sub(0xdc00))
}

/// The low half of a pair, where the unit before it is a high half.
fn other_half(unit: u32, rest: &[u8]) -> Option<(u32, &[u8])>
    ensures value { option_map (λ x. (x.0, x.1.now)) result ≡ other_half unit rest.now }
    ensures high { IfSome result (λ x. is_high_half unit ≡ true) }
    ensures low { IfSome result (λ x. is_low_half x.0 ≡ true) }
    ensures within { IfSome result (λ x. length x.1.now < length rest.now) }
{
    if is_high_half(unit) {
        low_half_at(rest)
    } else {
        None
    }
}

/// The character of a unit, and what is behind it.
fn unit_character(unit: u32, rest: &[u8]) -> (Spelled, &[u8])
    requires { unit < 65536 }
    ensures value { Some (result.0, result.1.now) ≡ unit_at unit rest.now }
    ensures within { length result.1.now ≤ length rest.now }
    ensures sound { IsSound result.0 }
{
    match other_half(unit, rest) {
        Some((low, behind)) => (paired_character(unit, low), behind),
        None => (lone_character(unit), rest),
    }
}

/// What an escape with these digits stands for, and what is behind it.
fn long_escape(digits: &[u8]) -> Option<(Spelled, &[u8])>
    ensures value { option_map (λ x. (x.0, x.1.now)) result ≡ long_escape (digits_unit digits.now) }
    ensures within { IfSome result (λ x. length x.1.now < length digits.now) }
    ensures sound { IfSome result (λ x. IsSound x.0) }
{
    match digits_unit(digits) {
        Some((unit, rest)) => Some(unit_character(unit, rest)),
        None => None,
    }
}

/// What a backslash and this byte stand for, and what is behind them.
fn escape_from(first: u8, rest: &[u8]) -> Option<(Spelled, &[u8])>
    ensures value { option_map (λ x. (x.0, x.1.now)) result ≡ escape_of (first ∷ rest.now) }
    ensures within { IfSome result (λ x. length x.1.now ≤ suc (length rest.now)) }
    ensures sound { IfSome result (λ x. IsSound x.0) }
{
    if first == b'u' {
        return long_escape(rest);
    }
    match short_escape(first) {
        Some(b) => Some((Spelled::Byte(b), rest)),
        None => None,
    }
}

/// What an escape stands for, and what is behind it, from what is behind its backslash; none where
/// no escape is there. Half a surrogate pair without the other half is U+FFFD.
pub fn escape_at(text: &[u8]) -> Option<(Spelled, &[u8])>
    ensures value { option_map (λ x. (x.0, x.1.now)) result ≡ escape_of text.now }
    // So in a string: what is behind is shorter, and what is spelled is a byte or a character.
    ensures some { IfSome result (λ x. Begins (92 ∷ text.now) x.0 x.1.now) }
    ensures none { IfNone result (string_at (92 ∷ text.now) ≡ None) }
{
    match text {
        [first, rest @ ..] => escape_from(*first, rest),
        [] => None,
    }
}

/// Appends a character, or nothing.
fn push_char(out: &mut Vec<u8>, code: u32) -> Result<(), AllocError>
    requires { IsScalar code }
    ensures ok { OnOk result (out.new.items ≡ out.old.items ++ encode_utf8 code) }
    ensures err { OnErr result (out.new.items ≡ out.old.items) }
{
    if let Some(c) = char::from_u32(code) {
        let mut room = [0u8; 4];
        let text = c.encode_utf8(&mut room);
        out.extend_from_slice(text.as_bytes())?;
    }
    Ok(())
}

/// Appends what is spelled, in UTF-8; for want of memory nothing of it.
pub fn push_spelled(out: &mut Vec<u8>, spelled: Spelled) -> Result<(), AllocError>
    requires { IsSound spelled }
    ensures ok { OnOk result (out.new.items ≡ out.old.items ++ bytes_of spelled) }
    ensures err { OnErr result (out.new.items ≡ out.old.items) }
{
    match spelled {
        Spelled::Byte(b) => {
            out.push(b)?;
            Ok(())
        }
        Spelled::Char(code) => push_char(out, code),
    }
}
