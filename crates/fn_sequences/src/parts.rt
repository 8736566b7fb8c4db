//! Functions that give some of the items, or put others among them.

ghost use Rattle.std.specs.Prelude.{◌≡◌, Ok, min, IfOk, IfErr, take, drop};
ghost use Rattle.item_tree.specs.Item.{datums};
ghost use Rattle.value_rules.specs.Operands.{FailsWith};
ghost use Rattle.value_rules.specs.Sequences as sequences;
ghost use Rattle.fn_sequences.specs.inside.Places.{places_before};

use crate::copies::{alone, append, copied};
use item_tree::{Item, OpFault};
use std::alloc::Global;
use value_rules::one_integer;

// How many of so many items stand before this position.
fn count_before(len: usize, position: i128) -> usize
    ensures { result ≡ min (places_before position) len }
{
    if position < 1 {
        return 0;
    }
    let before = position.unsigned_abs() - 1;
    if before < len as u128 {
        before as usize
    } else {
        len
    }
}

// The items before this position.
fn items_before(s: &[Item], position: i128) -> &[Item]
    ensures { result.now ≡ take (places_before position) s.now }
{
    &s[..count_before(s.len(), position)]
}

// The items from this position on.
fn items_from(s: &[Item], position: i128) -> &[Item]
    ensures { result.now ≡ drop (places_before position) s.now }
{
    &s[count_before(s.len(), position)..]
}

/// The first item, if there is any.
pub fn head(alloc: Global, s: &[Item]) -> Result<Vec<Item>, OpFault>
    ensures value { IfOk result (λ xs. sequences.head (datums s.now) ≡ Ok (datums xs.items)) }
    ensures fault { IfErr result (FailsWith (sequences.head (datums s.now))) }
{
    match s {
        [] => Ok(Vec::new(alloc)),
        [x, ..] => Ok(alone(alloc, x.copy()?)?),
    }
}

/// The items but the first.
pub fn tail(alloc: Global, s: &[Item]) -> Result<Vec<Item>, OpFault>
    ensures value { IfOk result (λ xs. sequences.tail (datums s.now) ≡ Ok (datums xs.items)) }
    ensures fault { IfErr result (FailsWith (sequences.tail (datums s.now))) }
{
    match s {
        [] => Ok(Vec::new(alloc)),
        [_, rest @ ..] => Ok(copied(alloc, rest)?),
    }
}

/// The items from the last to the first.
pub fn reverse(alloc: Global, s: &[Item]) -> Result<Vec<Item>, OpFault>
    ensures value { IfOk result (λ xs. sequences.reverse (datums s.now) ≡ Ok (datums xs.items)) }
    ensures fault { IfErr result (FailsWith (sequences.reverse (datums s.now))) }
{
    let mut items = copied(alloc, s)?;
    items.reverse();
    Ok(items)
}

/// The items from this position on.
pub fn subsequence(alloc: Global, s: &[Item], start: &[Item]) -> Result<Vec<Item>, OpFault>
    ensures value { IfOk result
        (λ xs. sequences.subsequence (datums s.now) (datums start.now) ≡ Ok (datums xs.items)) }
    ensures fault { IfErr result
        (FailsWith (sequences.subsequence (datums s.now) (datums start.now))) }
{
    let start = one_integer(start)?;
    Ok(copied(alloc, items_from(s, start))?)
}

/// The items from this position on, before the one that lies so far behind it.
pub fn subsequence_3(
    alloc: Global,
    s: &[Item],
    start: &[Item],
    size: &[Item],
) -> Result<Vec<Item>, OpFault>
    ensures value { IfOk result
        (λ xs. sequences.subsequence_3 (datums s.now) (datums start.now) (datums size.now)
        ≡ Ok (datums xs.items)) }
    ensures fault { IfErr result (FailsWith
        (sequences.subsequence_3 (datums s.now) (datums start.now) (datums size.now))) }
{
    let start = one_integer(start)?;
    let size = one_integer(size)?;
    let front = items_before(s, start + size);
    Ok(copied(alloc, items_from(front, start))?)
}

/// The items with others before the one at this position; below 1 those go first, and past the end
/// they go last.
pub fn insert_before(
    alloc: Global,
    s: &[Item],
    position: &[Item],
    others: &[Item],
) -> Result<Vec<Item>, OpFault>
    ensures value { IfOk result
        (λ xs. sequences.insert_before (datums s.now) (datums position.now) (datums others.now)
        ≡ Ok (datums xs.items)) }
    ensures fault { IfErr result (FailsWith
        (sequences.insert_before (datums s.now) (datums position.now) (datums others.now))) }
{
    let position = one_integer(position)?;
    let mut items = copied(alloc, items_before(s, position))?;
    append(&mut items, others)?;
    append(&mut items, items_from(s, position))?;
    Ok(items)
}

/// The items without the one at this position, if there is one.
pub fn remove(alloc: Global, s: &[Item], position: &[Item]) -> Result<Vec<Item>, OpFault>
    ensures value { IfOk result
        (λ xs. sequences.remove (datums s.now) (datums position.now) ≡ Ok (datums xs.items)) }
    ensures fault { IfErr result
        (FailsWith (sequences.remove (datums s.now) (datums position.now))) }
{
    let position = one_integer(position)?;
    let mut items = copied(alloc, items_before(s, position))?;
    append(&mut items, items_from(s, position + 1))?;
    Ok(items)
}
