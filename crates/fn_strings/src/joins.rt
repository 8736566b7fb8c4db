//! Functions that put texts together.

ghost use Rattle.std.specs.Prelude.{◌≡◌, ◌++◌, Ok, Err, map, MatchResult, IfOk, IfErr, OnOk};
ghost use Rattle.std.specs.List.{flat_map};
ghost use Rattle.std.specs.Str.{chars};
ghost use Rattle.std.specs.String.{string_bytes};
ghost use Rattle.item_tree.specs.Item.{datums};
ghost use Rattle.item_tree.specs.ItemText.{atom_text};
ghost use Rattle.value_rules.specs.Arguments.{argument_values};
ghost use Rattle.value_rules.specs.Operands.{FailsWith};
ghost use Rattle.value_rules.specs.Strings.{one_text, joined_by, argument_texts, atomic_texts, string, concat, string_join, string_join_2};
ghost use Rattle.fn_strings.specs.inside.Atomics.{AreAtomic, ArgumentsAreAtomic, text_of_all};

use crate::atom_texts::{push_text, push_texts, text_len};
use crate::results::{one_item, one_str, one_string};
use item_tree::{Code, Item, NoMemory, OpFault, text_of};
use std::alloc::Global;
use value_rules::{atomic, optional_atomic, optional_string};

/// The text of one atomic; of nothing, the empty string.
pub fn string(alloc: Global, s: &[Item]) -> Result<Vec<Item>, OpFault>
    ensures value { IfOk result (λ xs. string (datums s.now) ≡ Ok (datums xs.items)) }
    ensures fault { IfErr result (FailsWith (string (datums s.now))) }
{
    match optional_atomic(s)? {
        None => Ok(one_str(alloc, "")?),
        Some(atom) => Ok(one_item(alloc, Item::Text(text_of(alloc, atom)?))?),
    }
}

/// The texts of the arguments, put together. Each is empty, which has the empty text, or one
/// atomic. Memory for the text is taken once.
pub fn concat(alloc: Global, arguments: &[Vec<Item>]) -> Result<Vec<Item>, OpFault>
    ensures value { IfOk result
        (λ xs. concat (argument_values arguments.now) ≡ Ok (datums xs.items)) }
    ensures fault { IfErr result (FailsWith (concat (argument_values arguments.now))) }
{
    let room = arguments_room(arguments)?;
    Ok(joined_arguments(alloc, arguments, room)?)
}

/// The texts of the items, put together. Memory for the text is taken once.
pub fn string_join(alloc: Global, s: &[Item]) -> Result<Vec<Item>, OpFault>
    ensures value { IfOk result (λ xs. string_join (datums s.now) ≡ Ok (datums xs.items)) }
    ensures fault { IfErr result (FailsWith (string_join (datums s.now))) }
{
    let room = items_room(s)?;
    Ok(joined_items(alloc, s, "", room)?)
}

/// The texts of the items with a separator between. All items are checked before the separator.
/// Memory for the text is taken once.
pub fn string_join_2(alloc: Global, s: &[Item], separator: &[Item]) -> Result<Vec<Item>, OpFault>
    ensures value { IfOk result
        (λ xs. string_join_2 (datums s.now) (datums separator.now)
        ≡ Ok (datums xs.items)) }
    ensures fault { IfErr result
        (FailsWith (string_join_2 (datums s.now) (datums separator.now))) }
{
    let texts = items_room(s)?;
    let separator = optional_string(separator)?;
    let room = texts.saturating_add(separator.len().saturating_mul(s.len()));
    Ok(joined_items(alloc, s, separator, room)?)
}

// How much room the texts of the arguments take. It only says how much memory to ask for.
fn arguments_room(arguments: &[Vec<Item>]) -> Result<usize, Code>
    ensures { MatchResult result
        (λ _. ArgumentsAreAtomic (argument_values arguments.now)
        × (argument_texts (argument_values arguments.now)
        ≡ Ok (map text_of_all (argument_values arguments.now))))
        (λ e. argument_texts (argument_values arguments.now) ≡ Err e) }
{
    let mut room = 0usize;
    for argument in arguments {
        if let Some(atom) = optional_atomic(argument)? {
            room = room.saturating_add(text_len(atom));
        }
    }
    Ok(room)
}

// How much room the texts of the items take. It only says how much memory to ask for.
fn items_room(items: &[Item]) -> Result<usize, Code>
    ensures { MatchResult result
        (λ _. AreAtomic (datums items.now)
        × (atomic_texts (datums items.now) ≡ Ok (map atom_text (datums items.now))))
        (λ e. atomic_texts (datums items.now) ≡ Err e) }
{
    let mut room = 0usize;
    for item in items {
        room = room.saturating_add(text_len(atomic(item)?));
    }
    Ok(room)
}

fn joined_items(
    alloc: Global,
    items: &[Item],
    separator: &str,
    room: usize,
) -> Result<Vec<Item>, NoMemory>
    requires { AreAtomic (datums items.now) }
    ensures { IfOk result
        (λ xs. datums xs.items
        ≡ one_text (joined_by (chars separator.now) (map atom_text (datums items.now)))) }
{
    let mut text = String::with_capacity(alloc, room)?;
    push_joined(&mut text, separator, items)?;
    one_string(alloc, text)
}

fn push_joined(text: &mut String, separator: &str, atoms: &[Item]) -> Result<(), NoMemory>
    requires { AreAtomic (datums atoms.now) }
    ensures { OnOk result
        (chars (string_bytes text.new)
        ≡ chars (string_bytes text.old)
        ++ joined_by (chars separator.now) (map atom_text (datums atoms.now))) }
{
    match atoms {
        [] => Ok(()),
        [first, rest @ ..] => {
            push_text(text, first)?;
            push_texts(text, separator, rest)
        }
    }
}

fn joined_arguments(
    alloc: Global,
    arguments: &[Vec<Item>],
    room: usize,
) -> Result<Vec<Item>, NoMemory>
    requires { ArgumentsAreAtomic (argument_values arguments.now) }
    ensures { IfOk result
        (λ xs. datums xs.items
        ≡ one_text (flat_map text_of_all (argument_values arguments.now))) }
{
    let mut text = String::with_capacity(alloc, room)?;
    for argument in arguments {
        push_texts(&mut text, "", argument)?;
    }
    one_string(alloc, text)
}
