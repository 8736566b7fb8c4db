//! Ranges of integers.

ghost use Rattle.std.specs.Prelude.{◌≡◌, ◌^◌, pos, ◌+ℤ◌, ◌≤ℤ◌, Ok, IfOk, IfErr};
ghost use Rattle.item_tree.specs.Datum.{IsWhole};
ghost use Rattle.item_tree.specs.Item.{datums};
ghost use Rattle.value_rules.specs.Operands.{FailsWith};
ghost use Rattle.atom_ops.specs.Ranges.{counted, between, range_values};

use item_tree::{Code, Item, NoMemory, OpFault, Whole};
use std::alloc::Global;
use value_rules::one_integer;

/// A range has no more items.
const MOST_ITEMS: u128 = 10_000_000;

/// The integers from the left operand to the right one; none where the left one is greater, and
/// none where an operand is empty, whatever the other one is. Memory for all is taken at once.
pub fn range(alloc: Global, a: &[Item], b: &[Item]) -> Result<Vec<Item>, OpFault>
    ensures value { IfOk result
        (λ xs. range_values (datums a.now) (datums b.now) ≡ Ok (datums xs.items)) }
    ensures fault { IfErr result (FailsWith (range_values (datums a.now) (datums b.now))) }
{
    if a.is_empty() || b.is_empty() {
        return Ok(Vec::new(alloc));
    }
    let first = one_integer(a)?;
    let last = one_integer(b)?;
    integers_between(alloc, first, last)
}

fn integers_between(alloc: Global, first: i128, last: i128) -> Result<Vec<Item>, OpFault>
    requires first { IsWhole first }
    requires last { IsWhole last }
    ensures value { IfOk result (λ xs. between first last ≡ Ok (datums xs.items)) }
    ensures fault { IfErr result (FailsWith (between first last)) }
{
    if last < first {
        return Ok(Vec::new(alloc));
    }
    let count = (last - first).unsigned_abs() + 1;
    if count > MOST_ITEMS {
        return Err(OpFault::Raised(Code::PJDY0003));
    }
    Ok(counted(alloc, first, count as u32)?)
}

fn counted(alloc: Global, first: i128, count: u32) -> Result<Vec<Item>, NoMemory>
    requires first { IsWhole first }
    requires last { (first +ℤ pos count) ≤ℤ pos (10 ^ 20) }
    ensures { IfOk result (λ xs. datums xs.items ≡ counted first count) }
{
    let mut items = Vec::with_capacity(alloc, count as usize)?;
    for i in 0..count {
        items.push_reserved(Item::Int(Whole::new(first + i128::from(i))));
    }
    Ok(items)
}
