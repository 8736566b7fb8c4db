//! The items of a stage, as a part of a function's value.

ghost use Rattle.std.specs.Prelude.{◌≡◌, ◌+◌, ◌^◌, ◌<◌, ◌++◌, List, Ok, IfOk, IfErr, OnOk, IsTrue};
ghost use Rattle.item_tree.specs.Datum.{Datum};
ghost use Rattle.item_tree.specs.Item.{datums};
ghost use Rattle.value_rules.specs.Operands.{FailsWith};

use crate::kept::ItemsKept;
use fn_numbers::Partial;
use item_tree::{Item, NoMemory, OpFault};
use std::alloc::Global;

/// A part counts fewer items.
const COUNT_BOUND: u64 = 1_099_511_627_776;

/// Items of which a function's value is wanted, as a part of that value. Where a part would count
/// 2^40 items, memory is wanting.
#[derive(Drop)]
pub struct Folded<P> {
    /// The part.
    pub part: P,
}

impl<P: Partial> Folded<P> {
    /// The function's value of the items, or its error.
    pub fn finish(self, alloc: Global) -> Result<Vec<Item>, OpFault>
        ensures value { IfOk result (λ xs. (ds : List Datum) → P.stands self.part ds
            → P.value_of ds ≡ Ok (datums xs.items)) }
        ensures fault { IfErr result (λ e. (ds : List Datum) → P.stands self.part ds
            → FailsWith (P.value_of ds) e) }
    {
        let Folded { part } = self;
        part.finish(alloc)
    }
}

// Whether a part may count so many items and so many more.
fn has_room(count: u64, more: u64) -> bool
    ensures { IsTrue result → count + more < 2 ^ 40 }
{
    match count.checked_add(more) {
        Some(n) => n < COUNT_BOUND,
        None => false,
    }
}

// Adds items one after the other.
fn add_items<P: Partial>(part: &mut P, items: &[Item]) -> Result<(), NoMemory>
    ensures { OnOk result ((ds : List Datum) → P.stands part.old ds
        → P.stands part.new (ds ++ datums items.now)) }
{
    for item in items {
        if !has_room(part.how_many(), 1) {
            return Err(NoMemory);
        }
        part.add(item)?;
    }
    Ok(())
}

// A part, and after it a later one.
fn merged<P: Partial>(part: P, later: P) -> Result<P, NoMemory>
    ensures { IfOk result (λ r. (a b : List Datum) → P.stands part a → P.stands later b
        → P.stands r (a ++ b)) }
{
    if !has_room(part.how_many(), later.how_many()) {
        return Err(NoMemory);
    }
    let mut part = part;
    part.merge(later)?;
    Ok(part)
}

impl<P: Partial> ItemsKept for Folded<P> {
    ghost stands = { λ f ds. P.stands f.part ds };

    fn nothing(_alloc: Global) -> Folded<P> {
        Folded { part: P::empty() }
    }

    fn add(&mut self, items: &[Item]) -> Result<(), NoMemory> {
        add_items(&mut self.part, items)
    }

    fn follow(self, later: Folded<P>) -> Result<Folded<P>, NoMemory> {
        let Folded { part } = self;
        let Folded { part: next } = later;
        let part = merged(part, next)?;
        Ok(Folded { part })
    }
}
