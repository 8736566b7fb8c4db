//! `translate`.

ghost use Rattle.std.specs.Prelude.{◌≡◌, ◌==◌, ◌++◌, ℕ, if◌then◌else◌, Ok, IfOk, IfErr, OnOk, Some, None, option_map, unwrap_or};
ghost use Rattle.std.specs.List.{flat_map};
ghost use Rattle.std.specs.Option.{option_or, option_to_list};
ghost use Rattle.std.specs.Ordering.{nat_cmp};
ghost use Rattle.std.specs.BTreeMap.{get};
ghost use Rattle.std.specs.Str.{chars};
ghost use Rattle.std.specs.String.{string_bytes};
ghost use Rattle.item_tree.specs.Item.{datums};
ghost use Rattle.value_rules.specs.Operands.{FailsWith};
ghost use Rattle.value_rules.specs.Strings.{replacement, translated, translate};

use crate::results::one_string;
use item_tree::{Item, NoMemory, OpFault};
use std::alloc::Global;
use std::collections::BTreeMap;
use value_rules::optional_string;

/// What is put for each character that does not stay: another one, or nothing. Strangers choose the
/// characters, so they are ordered and not hashed.
type Table = BTreeMap<char, Option<char>>;

/// Each character by its first position in the second text: for it the third text's character
/// there, or none where there is none. Others stay.
pub fn translate(
    alloc: Global,
    text: &[Item],
    characters: &[Item],
    images: &[Item],
) -> Result<Vec<Item>, OpFault>
    ensures value { IfOk result
        (λ xs. translate (datums text.now) (datums characters.now) (datums images.now)
        ≡ Ok (datums xs.items)) }
    ensures fault { IfErr result (FailsWith
        (translate (datums text.now) (datums characters.now) (datums images.now))) }
{
    let text = optional_string(text)?;
    let characters = optional_string(characters)?;
    let images = optional_string(images)?;
    Ok(one_string(alloc, translated(alloc, text, characters, images)?)?)
}

fn translated(alloc: Global, text: &str, characters: &str, images: &str) -> Result<String, NoMemory>
    ensures { IfOk result
        (λ s. chars (string_bytes s)
        ≡ flat_map (translated (chars characters.now) (chars images.now)) (chars text.now)) }
{
    let table = table_of(alloc, characters, images)?;
    let mut line = String::with_capacity(alloc, text.len())?;
    for c in text.chars() {
        put_image(&mut line, image_of(&table, c))?;
    }
    Ok(line)
}

fn put_image(line: &mut String, image: Option<char>) -> Result<(), NoMemory>
    ensures { OnOk result
        (chars (string_bytes line.new) ≡ chars (string_bytes line.old) ++ option_to_list image) }
{
    if let Some(c) = image {
        line.push(c)?;
    }
    Ok(())
}

// What is put for a character.
fn image_of(table: &Table, c: char) -> Option<char>
    ensures { result ≡ unwrap_or (get nat_cmp table.now c) (Some c) }
{
    table.get(&c).copied().unwrap_or(Some(c))
}

// The table of the characters' images. A character that comes again changes nothing.
fn table_of(alloc: Global, characters: &str, images: &str) -> Result<Table, NoMemory>
    ensures { IfOk result
        (λ t. (c : ℕ) → option_map option_to_list (get nat_cmp t c)
        ≡ replacement (chars characters.now) (chars images.now) c) }
{
    let mut table = Table::new(alloc);
    let mut rest = images.chars();
    for c in characters.chars() {
        put_first(&mut table, c, rest.next())?;
    }
    Ok(table)
}

fn put_first(table: &mut Table, c: char, image: Option<char>) -> Result<(), NoMemory>
    ensures { OnOk result
        ((d : ℕ) → get nat_cmp table.new d
        ≡ option_or (get nat_cmp table.old d) (if d == c then Some image else None)) }
{
    if !table.contains_key(&c) {
        table.insert(c, image)?;
    }
    Ok(())
}
