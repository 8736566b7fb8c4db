//! `empty` and `exists`, part by part.

ghost use Rattle.std.specs.Prelude.{◌≡◌, ◌∷◌, [], IfOk};
ghost use Rattle.item_tree.specs.Datum.{boolean};
ghost use Rattle.item_tree.specs.Item.{datums};

use fn_numbers::Partial;
use item_tree::{Item, NoMemory, OpFault};
use std::alloc::Global;

/// A part of the value of `empty`.
#[derive(Debug, Drop)]
pub struct EmptyPart {
    found: bool,
}

/// A part of the value of `exists`.
#[derive(Debug, Drop)]
pub struct ExistsPart {
    found: bool,
}

// One boolean.
fn one_boolean(alloc: Global, value: bool) -> Result<Vec<Item>, NoMemory>
    ensures { IfOk result (λ xs. datums xs.items ≡ boolean value ∷ []) }
{
    let mut items = Vec::new(alloc);
    items.push(Item::Bool(value))?;
    Ok(items)
}

impl Partial for EmptyPart {
    ghost use Rattle.std.specs.Prelude.{◌≡◌};
    ghost use Rattle.std.proofs.Common.{arith};
    ghost use Rattle.value_rules.specs.Sequences.{empty};
    ghost use Rattle.piece_seats.specs.inside.Found.{has_some};

    ghost stands = { λ p vs. p.found ≡ has_some vs };

    ghost value_of = { empty };

    ghost count = { λ _. 0 };

    fn empty() -> EmptyPart {
        EmptyPart { found: false }
    }

    fn add(&mut self, _item: &Item) -> Result<(), NoMemory> {
        self.found = true;
        Ok(())
    }

    fn merge(&mut self, later: EmptyPart) -> Result<(), NoMemory> {
        self.found = self.found || later.found;
        Ok(())
    }

    fn finish(self, alloc: Global) -> Result<Vec<Item>, OpFault> {
        Ok(one_boolean(alloc, !self.found)?)
    }

    fn how_many(&self) -> u64 {
        0
    }

    ghost counted = { λ p vs h. Prim.omega arith };
}

impl Partial for ExistsPart {
    ghost use Rattle.std.specs.Prelude.{◌≡◌};
    ghost use Rattle.std.proofs.Common.{arith};
    ghost use Rattle.value_rules.specs.Sequences.{exists};
    ghost use Rattle.piece_seats.specs.inside.Found.{has_some};

    ghost stands = { λ p vs. p.found ≡ has_some vs };

    ghost value_of = { exists };

    ghost count = { λ _. 0 };

    fn empty() -> ExistsPart {
        ExistsPart { found: false }
    }

    fn add(&mut self, _item: &Item) -> Result<(), NoMemory> {
        self.found = true;
        Ok(())
    }

    fn merge(&mut self, later: ExistsPart) -> Result<(), NoMemory> {
        self.found = self.found || later.found;
        Ok(())
    }

    fn finish(self, alloc: Global) -> Result<Vec<Item>, OpFault> {
        Ok(one_boolean(alloc, self.found)?)
    }

    fn how_many(&self) -> u64 {
        0
    }

    ghost counted = { λ p vs h. Prim.omega arith };
}
