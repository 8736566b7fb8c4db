//! Functions that ask how many items there are, and the truth value.

ghost use Rattle.std.specs.Prelude.{◌≡◌, Ok, IfOk, IfErr};
ghost use Rattle.item_tree.specs.Item.{datums};
ghost use Rattle.value_rules.specs.Operands.{FailsWith};
ghost use Rattle.value_rules.specs.Sequences as sequences;

use crate::copies::{alone, copied};
use item_tree::{Code, Item, OpFault, Whole, ebv};
use std::alloc::Global;

/// How many items there are.
pub fn count(alloc: Global, s: &[Item]) -> Result<Vec<Item>, OpFault>
    ensures value { IfOk result (λ xs. sequences.count (datums s.now) ≡ Ok (datums xs.items)) }
    ensures fault { IfErr result (FailsWith (sequences.count (datums s.now))) }
{
    Ok(alone(alloc, Item::Int(Whole::new(s.len() as i128)))?)
}

/// Whether there is no item.
pub fn empty(alloc: Global, s: &[Item]) -> Result<Vec<Item>, OpFault>
    ensures value { IfOk result (λ xs. sequences.empty (datums s.now) ≡ Ok (datums xs.items)) }
    ensures fault { IfErr result (FailsWith (sequences.empty (datums s.now))) }
{
    Ok(alone(alloc, Item::Bool(s.is_empty()))?)
}

/// Whether there is some item.
pub fn exists(alloc: Global, s: &[Item]) -> Result<Vec<Item>, OpFault>
    ensures value { IfOk result (λ xs. sequences.exists (datums s.now) ≡ Ok (datums xs.items)) }
    ensures fault { IfErr result (FailsWith (sequences.exists (datums s.now))) }
{
    Ok(alone(alloc, Item::Bool(!s.is_empty()))?)
}

/// The effective boolean value. Two or more items, and one date or date-time, have none, which is
/// `FORG0006`.
pub fn boolean(alloc: Global, s: &[Item]) -> Result<Vec<Item>, OpFault>
    ensures value { IfOk result
        (λ xs. sequences.boolean_of (datums s.now) ≡ Ok (datums xs.items)) }
    ensures fault { IfErr result (FailsWith (sequences.boolean_of (datums s.now))) }
{
    let truth = ebv(s)?;
    Ok(alone(alloc, Item::Bool(truth))?)
}

/// The items, which are at most one; more are `FORG0003`.
pub fn zero_or_one(alloc: Global, s: &[Item]) -> Result<Vec<Item>, OpFault>
    ensures value { IfOk result
        (λ xs. sequences.zero_or_one (datums s.now) ≡ Ok (datums xs.items)) }
    ensures fault { IfErr result (FailsWith (sequences.zero_or_one (datums s.now))) }
{
    match s {
        [] | [_] => Ok(copied(alloc, s)?),
        [_, _, ..] => Err(OpFault::Raised(Code::FORG0003)),
    }
}

/// The items, of which there is one at least; none is `FORG0004`.
pub fn one_or_more(alloc: Global, s: &[Item]) -> Result<Vec<Item>, OpFault>
    ensures value { IfOk result
        (λ xs. sequences.one_or_more (datums s.now) ≡ Ok (datums xs.items)) }
    ensures fault { IfErr result (FailsWith (sequences.one_or_more (datums s.now))) }
{
    match s {
        [] => Err(OpFault::Raised(Code::FORG0004)),
        [_, ..] => Ok(copied(alloc, s)?),
    }
}

/// The one item that there is; none, or more, is `FORG0005`.
pub fn exactly_one(alloc: Global, s: &[Item]) -> Result<Vec<Item>, OpFault>
    ensures value { IfOk result
        (λ xs. sequences.exactly_one (datums s.now) ≡ Ok (datums xs.items)) }
    ensures fault { IfErr result (FailsWith (sequences.exactly_one (datums s.now))) }
{
    match s {
        [_] => Ok(copied(alloc, s)?),
        _ => Err(OpFault::Raised(Code::FORG0005)),
    }
}
