//! Strings, taken from the front of a text.

ghost use Rattle.std.specs.Prelude.{◌≡◌, true, IfOk, IfSome, IfNone, option_map};
ghost use Rattle.std.specs.Str.{IsUtf8};
ghost use Rattle.item_reader.specs.Strings.{IsText, FindsText, Spells, IsPastEscape, IsShorter, StaysText, IsStretch};

use crate::token::uncons;
use byte_lanes::string_front;
use item_tree::{NoMemory, Str};
use json_text::{escape_at, push_spelled};
use std::alloc::Global;
use std::str;

// Appends what an escape spells, whose backslash is before the line, and gives what is behind it.
fn push_escape<'a>(bytes: &mut Vec<u8>, line: &'a [u8]) -> Result<Option<&'a [u8]>, NoMemory>
    ensures value { IfOk result (IsPastEscape line.now bytes.old.items bytes.new.items) }
    ensures shorter { IfOk result (IsShorter line.now) }
    ensures text { IfOk result (StaysText bytes.old.items bytes.new.items) }
{
    let Some((spelled, rest)) = escape_at(line) else {
        return Ok(None);
    };
    push_spelled(bytes, spelled)?;
    Ok(Some(rest))
}

// The content up to the closing quote goes into the bytes, in place of what they were. This is what
// is behind it, and whether the content is known to be UTF-8.
fn string<'a>(
    bytes: &mut Vec<u8>,
    line: &'a [u8],
    len: usize,
    ascii: bool,
) -> Result<Option<(&'a [u8], bool)>, NoMemory>
    requires { IsStretch line.now len ascii }
    ensures value { IfOk result (λ o. Spells line.now bytes.new.items (option_map (λ p. p.0) o)) }
    ensures text { IfOk result (λ o. IfSome o (λ p. p.1 ≡ true → IsUtf8 bytes.new.items)) }
{
    bytes.clear();
    let mut left = line;
    let mut len = len;
    let mut is_text = ascii;
    'stretches: loop {
        let (raw, behind) = left.split_at(len);
        bytes.extend_from_slice(raw)?;
        let Some((mark, rest)) = uncons(behind) else {
            return Ok(None);
        };
        if mark == b'"' {
            return Ok(Some((rest, is_text)));
        }
        if mark != b'\\' {
            return Ok(None);
        }
        let Some(after) = push_escape(bytes, rest)? else {
            return Ok(None);
        };
        left = after;
        let (next, ascii) = string_front(left);
        len = next;
        is_text = is_text && ascii;
    }
}

// The text of some bytes, which may be known to be UTF-8.
fn text_of(bytes: &[u8], is_text: bool) -> Option<&str>
    requires { is_text ≡ true → IsUtf8 bytes.now }
    ensures some { IfSome result (λ t. (t.now ≡ bytes.now) × IsUtf8 bytes.now) }
    ensures none { IfNone result (¬ IsUtf8 bytes.now) }
{
    if is_text {
        return Some(unsafe { str::from_utf8_unchecked(bytes) });
    }
    match str::from_utf8(bytes) {
        Ok(text) => Some(text),
        Err(_) => None,
    }
}

/// The text of a string without escapes whose opening quote is before the line, and what is behind
/// it. So many bytes in front stand for themselves.
#[inline(always)]
pub fn plain_text<'a>(
    alloc: Global,
    line: &'a [u8],
    len: usize,
    ascii: bool,
) -> Result<Option<(Str, &'a [u8])>, NoMemory>
    requires { IsStretch line.now len ascii }
    ensures { IfOk result (λ o. IfSome o (λ p. IsText line.now p.0 p.1.now)) }
{
    let (raw, behind) = line.split_at(len);
    let Some((mark, rest)) = uncons(behind) else {
        return Ok(None);
    };
    if mark != b'"' {
        return Ok(None);
    }
    if ascii && len <= 14 && line.len() >= 16 {
        return Ok(Some((Str::of_front(line, len), rest)));
    }
    match text_of(raw, ascii) {
        Some(text) => Ok(Some((Str::of(alloc, text)?, rest))),
        None => Ok(None),
    }
}

/// The text of a string whose opening quote is before the line, and what is behind it, or nothing
/// where no string in UTF-8 is there. So many bytes in front stand for themselves. What it spells
/// is gathered in the bytes.
pub fn escaped_text<'a>(
    alloc: Global,
    bytes: &mut Vec<u8>,
    line: &'a [u8],
    len: usize,
    ascii: bool,
) -> Result<Option<(Str, &'a [u8])>, NoMemory>
    requires { IsStretch line.now len ascii }
    ensures { IfOk result (FindsText line.now) }
{
    let Some((rest, is_text)) = string(bytes, line, len, ascii)? else {
        return Ok(None);
    };
    match text_of(bytes.as_slice(), is_text) {
        Some(text) => Ok(Some((Str::of(alloc, text)?, rest))),
        None => Ok(None),
    }
}
