//! `count`, part by part.

use crate::Partial;
use crate::results::one_item;
use item_tree::{Item, NoMemory, OpFault, Whole};
use std::alloc::Global;

/// A part of the value of `count`.
#[derive(Debug, Drop)]
pub struct CountPart {
    count: u64,
}

impl Partial for CountPart {
    ghost use Rattle.std.specs.Prelude.{◌≡◌, length};
    ghost use Rattle.std.proofs.Common.{arith};
    ghost use Rattle.value_rules.specs.Sequences.{count};

    ghost stands = { λ p vs. p.count ≡ length vs };

    ghost value_of = { count };

    ghost count = { λ p. p.count };

    fn empty() -> CountPart {
        CountPart { count: 0 }
    }

    fn add(&mut self, _item: &Item) -> Result<(), NoMemory> {
        self.count += 1;
        Ok(())
    }

    fn merge(&mut self, later: CountPart) -> Result<(), NoMemory> {
        self.count += later.count;
        Ok(())
    }

    fn finish(self, alloc: Global) -> Result<Vec<Item>, OpFault> {
        let count = Whole::new(i128::from(self.count));
        Ok(one_item(alloc, Item::Int(count))?)
    }

    fn how_many(&self) -> u64 {
        self.count
    }

    ghost counted = { λ p vs h. Prim.omega (arith, h) };
}
