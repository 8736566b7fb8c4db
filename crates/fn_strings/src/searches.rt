//! Functions that look for a text in another.

ghost use Rattle.std.specs.Prelude.{◌≡◌, nat_eq, Ok, None, MatchOption, IfOk, IfErr};
ghost use Rattle.std.specs.List.{starts_with as list_starts, ends_with as list_ends};
ghost use Rattle.std.specs.Str.{chars};
ghost use Rattle.item_tree.specs.Item.{datums};
ghost use Rattle.value_rules.specs.Operands.{FailsWith};
ghost use Rattle.value_rules.specs.Strings.{first_place, contains, starts_with, ends_with, substring_before, substring_after};
ghost use Rattle.fn_strings.specs.inside.Around.{IsAround};

use crate::results::{one_item, one_str};
use item_tree::{Item, OpFault};
use memchr::memmem;
use std::alloc::Global;
use value_rules::optional_string;

/// Whether the second text stands in the first one. The empty text stands in every text.
pub fn contains(alloc: Global, text: &[Item], part: &[Item]) -> Result<Vec<Item>, OpFault>
    ensures value { IfOk result
        (λ xs. contains (datums text.now) (datums part.now) ≡ Ok (datums xs.items)) }
    ensures fault { IfErr result (FailsWith (contains (datums text.now) (datums part.now))) }
{
    let text = optional_string(text)?;
    let part = optional_string(part)?;
    let found = around(text, part).is_some();
    Ok(one_item(alloc, Item::Bool(found))?)
}

/// Whether the second text begins the first one.
pub fn starts_with(alloc: Global, text: &[Item], part: &[Item]) -> Result<Vec<Item>, OpFault>
    ensures value { IfOk result
        (λ xs. starts_with (datums text.now) (datums part.now) ≡ Ok (datums xs.items)) }
    ensures fault { IfErr result
        (FailsWith (starts_with (datums text.now) (datums part.now))) }
{
    let text = optional_string(text)?;
    let part = optional_string(part)?;
    Ok(one_item(alloc, Item::Bool(begins(text, part)))?)
}

/// Whether the second text ends the first one.
pub fn ends_with(alloc: Global, text: &[Item], part: &[Item]) -> Result<Vec<Item>, OpFault>
    ensures value { IfOk result
        (λ xs. ends_with (datums text.now) (datums part.now) ≡ Ok (datums xs.items)) }
    ensures fault { IfErr result
        (FailsWith (ends_with (datums text.now) (datums part.now))) }
{
    let text = optional_string(text)?;
    let part = optional_string(part)?;
    Ok(one_item(alloc, Item::Bool(ends(text, part)))?)
}

/// What stands before the first place at which the second text stands in the first one; the empty
/// string where there is none.
pub fn substring_before(alloc: Global, text: &[Item], part: &[Item]) -> Result<Vec<Item>, OpFault>
    ensures value { IfOk result
        (λ xs. substring_before (datums text.now) (datums part.now)
        ≡ Ok (datums xs.items)) }
    ensures fault { IfErr result
        (FailsWith (substring_before (datums text.now) (datums part.now))) }
{
    let text = optional_string(text)?;
    let part = optional_string(part)?;
    let Some((before, _)) = around(text, part) else {
        return Ok(one_str(alloc, "")?);
    };
    Ok(one_str(alloc, before)?)
}

/// What stands after the first place at which the second text stands in the first one; the empty
/// string where there is none.
pub fn substring_after(alloc: Global, text: &[Item], part: &[Item]) -> Result<Vec<Item>, OpFault>
    ensures value { IfOk result
        (λ xs. substring_after (datums text.now) (datums part.now) ≡ Ok (datums xs.items)) }
    ensures fault { IfErr result
        (FailsWith (substring_after (datums text.now) (datums part.now))) }
{
    let text = optional_string(text)?;
    let part = optional_string(part)?;
    let Some((_, after)) = around(text, part) else {
        return Ok(one_str(alloc, "")?);
    };
    Ok(one_str(alloc, after)?)
}

fn begins(text: &str, part: &str) -> bool
    ensures { result ≡ list_starts nat_eq (chars text.now) (chars part.now) }
{
    text.as_bytes().starts_with(part.as_bytes())
}

fn ends(text: &str, part: &str) -> bool
    ensures { result ≡ list_ends nat_eq (chars text.now) (chars part.now) }
{
    text.as_bytes().ends_with(part.as_bytes())
}

// What stands before and after the first place of a text in another. Bytes are searched: no
// character's bytes stand inside others.
fn around<'a>(text: &'a str, part: &str) -> Option<(&'a str, &'a str)>
    ensures { MatchOption result
        (first_place (chars part.now) (chars text.now) ≡ None)
        (λ p. IsAround (chars part.now) (chars text.now) (chars p.0.now) (chars p.1.now)) }
{
    let at = memmem::find(text.as_bytes(), part.as_bytes())?;
    let (before, rest) = text.split_at(at);
    let (_, after) = rest.split_at(part.len());
    Some((before, after))
}
