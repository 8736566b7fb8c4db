//! Functions that count characters.

ghost use Rattle.std.specs.Prelude.{◌≡◌, pos, int_le, int_lt, length, map, Ok, IfOk, IfErr};
ghost use Rattle.std.specs.Str.{chars, encode_utf8_all};
ghost use Rattle.item_tree.specs.Datum.{integer};
ghost use Rattle.item_tree.specs.Item.{datums};
ghost use Rattle.value_rules.specs.Operands.{FailsWith};
ghost use Rattle.value_rules.specs.Strings.{string_length, substring, substring_3, string_to_codepoints};
ghost use Rattle.fn_strings.specs.inside.Positions.{at_positions};

use crate::results::{one_item, one_str};
use item_tree::{Item, NoMemory, OpFault, Whole};
use std::alloc::Global;
use value_rules::{one_integer, optional_string};

/// The number of characters.
pub fn string_length(alloc: Global, text: &[Item]) -> Result<Vec<Item>, OpFault>
    ensures value { IfOk result
        (λ xs. string_length (datums text.now) ≡ Ok (datums xs.items)) }
    ensures fault { IfErr result (FailsWith (string_length (datums text.now))) }
{
    let count = char_count(optional_string(text)?);
    Ok(one_item(alloc, Item::Int(count))?)
}

/// The characters at `start` and behind it.
pub fn substring(alloc: Global, text: &[Item], start: &[Item]) -> Result<Vec<Item>, OpFault>
    ensures value { IfOk result
        (λ xs. substring (datums text.now) (datums start.now) ≡ Ok (datums xs.items)) }
    ensures fault { IfErr result (FailsWith (substring (datums text.now) (datums start.now))) }
{
    let text = optional_string(text)?;
    let start = one_integer(start)?;
    let (_, rest) = cut(text, 1, start);
    Ok(one_str(alloc, rest)?)
}

/// The characters at `start` and behind it, and before `start + len`.
pub fn substring_3(
    alloc: Global,
    text: &[Item],
    start: &[Item],
    len: &[Item],
) -> Result<Vec<Item>, OpFault>
    ensures value { IfOk result
        (λ xs. substring_3 (datums text.now) (datums start.now) (datums len.now)
        ≡ Ok (datums xs.items)) }
    ensures fault { IfErr result
        (FailsWith (substring_3 (datums text.now) (datums start.now) (datums len.now))) }
{
    let text = optional_string(text)?;
    let start = one_integer(start)?;
    let len = one_integer(len)?;
    let (_, rest) = cut(text, 1, start);
    let (between, _) = cut(rest, start.max(1), start + len);
    Ok(one_str(alloc, between)?)
}

/// The code points of the characters.
pub fn string_to_codepoints(alloc: Global, text: &[Item]) -> Result<Vec<Item>, OpFault>
    ensures value { IfOk result
        (λ xs. string_to_codepoints (datums text.now) ≡ Ok (datums xs.items)) }
    ensures fault { IfErr result (FailsWith (string_to_codepoints (datums text.now))) }
{
    Ok(code_points(alloc, optional_string(text)?)?)
}

fn char_count(text: &str) -> Whole
    ensures { result ≡ pos (length (chars text.now)) }
{
    Whole::new(text.chars().count() as i128)
}

fn code_points(alloc: Global, text: &str) -> Result<Vec<Item>, NoMemory>
    ensures { IfOk result
        (λ xs. datums xs.items ≡ map (λ c. integer (pos c)) (chars text.now)) }
{
    let mut items = Vec::new(alloc);
    for c in text.chars() {
        items.push(Item::Int(Whole::new(i128::from(u32::from(c)))))?;
    }
    Ok(items)
}

// The characters before a position, and the others. The first one stands at position `first`.
fn cut(text: &str, first: i128, end: i128) -> (&str, &str)
    ensures front { chars result.0.now ≡ at_positions (λ p. int_lt p end) first (chars text.now) }
    ensures back { chars result.1.now ≡ at_positions (λ p. int_le end p) first (chars text.now) }
{
    text.split_at(front_len(text, first, end))
}

// The number of bytes of the characters before a position.
fn front_len(text: &str, first: i128, end: i128) -> usize
    ensures { result
        ≡ length (encode_utf8_all (at_positions (λ p. int_lt p end) first (chars text.now))) }
{
    let mut len = 0;
    let mut position = first;
    for c in text.chars() {
        if position >= end {
            return len;
        }
        len += c.len_utf8();
        position += 1;
    }
    len
}
