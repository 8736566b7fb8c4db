//! `min` and `max`, whole and part by part.

ghost use Rattle.std.specs.Prelude.{◌≡◌, false, Ok, IfOk, IfErr, option_map};
ghost use Rattle.item_tree.specs.Item.{datum, datums};
ghost use Rattle.value_rules.specs.Operands.{FailsWith};
ghost use Rattle.value_rules.specs.Numbers.{kin, best, best_values, min_values, max_values};
ghost use Rattle.fn_numbers.specs.inside.Candidates.{is_mixed, goes_before};

use crate::Partial;
use crate::candidates::{Candidate, Extreme, better};
use crate::kinds::{is_mixed, kin_of_all};
use crate::results::one_item;
use item_tree::{Code, Item, NoMemory, OpFault};
use std::alloc::Global;

/// The first of the least items. Nothing where the argument is empty; FORG0006 where an item is an
/// array or an object, or two items other than null are of different classes.
pub fn min(alloc: Global, s: &[Item]) -> Result<Vec<Item>, OpFault>
    ensures value { IfOk result (λ xs. min_values (datums s.now) ≡ Ok (datums xs.items)) }
    ensures fault { IfErr result (FailsWith (min_values (datums s.now))) }
{
    extreme_of(alloc, Extreme::Least, s)
}

/// The first of the greatest items. See [`min`].
pub fn max(alloc: Global, s: &[Item]) -> Result<Vec<Item>, OpFault>
    ensures value { IfOk result (λ xs. max_values (datums s.now) ≡ Ok (datums xs.items)) }
    ensures fault { IfErr result (FailsWith (max_values (datums s.now))) }
{
    extreme_of(alloc, Extreme::Greatest, s)
}

fn extreme_of(alloc: Global, extreme: Extreme, s: &[Item]) -> Result<Vec<Item>, OpFault>
    ensures value { IfOk result
        (λ xs. best_values (goes_before extreme) (datums s.now) ≡ Ok (datums xs.items)) }
    ensures fault { IfErr result (FailsWith (best_values (goes_before extreme) (datums s.now))) }
{
    if is_mixed(kin_of_all(s)) {
        return Err(OpFault::Raised(Code::FORG0006));
    }
    match best(extreme, s) {
        None => Ok(Vec::new(alloc)),
        Some(x) => Ok(one_item(alloc, x.copy()?)?),
    }
}

/// The first of the best items, where all of them compare.
fn best(extreme: Extreme, s: &[Item]) -> Option<&Item>
    ensures { is_mixed (kin (datums s.now)) ≡ false
        → option_map (λ x. datum x.now) result ≡ best (goes_before extreme) (datums s.now) }
{
    let mut found = None;
    for x in s {
        found = Some(better(extreme, found, x));
    }
    found
}

/// A part of the value of `min`.
#[derive(Debug, Drop)]
pub struct MinPart {
    candidate: Candidate,
}

impl Partial for MinPart {
    ghost use Rattle.std.specs.Prelude.{option_map};
    ghost use Rattle.std.proofs.Common.{arith};
    ghost use Rattle.item_tree.specs.Item.{datum};
    ghost use Rattle.value_rules.specs.Numbers.{is_less, min_values};
    ghost use Rattle.fn_numbers.specs.inside.Candidates.{kin_value, Keeps};

    ghost stands = { λ p vs.
        Keeps is_less (kin_value p.candidate.kin) (option_map datum p.candidate.found) vs };

    ghost value_of = { min_values };

    ghost count = { λ _. 0 };

    fn empty() -> MinPart {
        MinPart {
            candidate: Candidate::empty(),
        }
    }

    fn add(&mut self, item: &Item) -> Result<(), NoMemory> {
        self.candidate.add(Extreme::Least, item)
    }

    fn merge(&mut self, later: MinPart) -> Result<(), NoMemory> {
        let MinPart { candidate } = later;
        self.candidate.merge(Extreme::Least, candidate);
        Ok(())
    }

    fn finish(self, alloc: Global) -> Result<Vec<Item>, OpFault> {
        let MinPart { candidate } = self;
        candidate.finish(alloc)
    }

    fn how_many(&self) -> u64 {
        0
    }

    ghost counted = { λ p vs h. Prim.omega arith };
}

/// A part of the value of `max`.
#[derive(Debug, Drop)]
pub struct MaxPart {
    candidate: Candidate,
}

impl Partial for MaxPart {
    ghost use Rattle.std.specs.Prelude.{option_map};
    ghost use Rattle.std.proofs.Common.{arith};
    ghost use Rattle.item_tree.specs.Item.{datum};
    ghost use Rattle.value_rules.specs.Numbers.{is_greater, max_values};
    ghost use Rattle.fn_numbers.specs.inside.Candidates.{kin_value, Keeps};

    ghost stands = { λ p vs.
        Keeps is_greater (kin_value p.candidate.kin) (option_map datum p.candidate.found) vs };

    ghost value_of = { max_values };

    ghost count = { λ _. 0 };

    fn empty() -> MaxPart {
        MaxPart {
            candidate: Candidate::empty(),
        }
    }

    fn add(&mut self, item: &Item) -> Result<(), NoMemory> {
        self.candidate.add(Extreme::Greatest, item)
    }

    fn merge(&mut self, later: MaxPart) -> Result<(), NoMemory> {
        let MaxPart { candidate } = later;
        self.candidate.merge(Extreme::Greatest, candidate);
        Ok(())
    }

    fn finish(self, alloc: Global) -> Result<Vec<Item>, OpFault> {
        let MaxPart { candidate } = self;
        candidate.finish(alloc)
    }

    fn how_many(&self) -> u64 {
        0
    }

    ghost counted = { λ p vs h. Prim.omega arith };
}
