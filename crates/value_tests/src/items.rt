//! Items and results as the tables of parts write them.

use item_tree::{Code, Item, OpFault, Str, Units, Whole, array_of, text_of};
use num_fixed::{Number, is_number, read_number};
use std::alloc::Global;
use std::test::Fail;

fn number(text: &str) -> Result<Item, Fail> {
    if !is_number(text.as_bytes()) {
        return Err(Fail::new("no number"));
    }
    match read_number(text.as_bytes())? {
        Number::Int(n) if n.unsigned_abs() < 100_000_000_000_000_000_000 => {
            Ok(Item::Int(Whole::new(n)))
        }
        Number::Dec(m) if m.unsigned_abs() < 100_000_000_000_000_000_000_000_000 => {
            Ok(Item::Dec(Units::new(m)))
        }
        _ => Err(Fail::new("out of bounds")),
    }
}

/// The items that words write: a letter is a string, and a number with a point a decimal.
pub fn items(alloc: Global, words: &str) -> Result<Vec<Item>, Fail> {
    let mut items = Vec::new(alloc);
    for word in words.split_whitespace() {
        items.push(match word {
            "null" => Item::Null,
            "a" | "b" => Item::Text(Str::of(alloc, word)?),
            "[]" => array_of(alloc, Vec::new(alloc))?,
            _ => number(word)?,
        })?;
    }
    Ok(items)
}

fn code_cell(code: Code) -> &'static str {
    match code {
        Code::FOAR0002 => "FOAR2",
        Code::FORG0006 => "FORG6",
        _ => "other",
    }
}

// An atomic's text, and behind a decimal a `d`.
fn cell(alloc: Global, item: &Item) -> Result<String, Fail> {
    match item {
        Item::Dec(_) => {
            let text = text_of(alloc, item)?;
            Ok(format!(in alloc; "{}d", text.as_str())?)
        }
        Item::Array(_) | Item::Object(_) => Ok(String::from_str(alloc, "no atomic")?),
        _ => Ok(String::from_str(alloc, text_of(alloc, item)?.as_str())?),
    }
}

/// The result of a call: `()`, an item, or a code.
pub fn shown(alloc: Global, given: Result<Vec<Item>, OpFault>) -> Result<String, Fail> {
    let items = match given {
        Ok(items) => items,
        Err(OpFault::Raised(code)) => return Ok(String::from_str(alloc, code_cell(code))?),
        Err(OpFault::NoMemory) => return Err(Fail::new("no memory")),
    };
    match items.as_slice() {
        [] => Ok(String::from_str(alloc, "()")?),
        [item] => cell(alloc, item),
        _ => Err(Fail::new("more than one item")),
    }
}
