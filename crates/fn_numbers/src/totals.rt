//! `sum` and `avg`, whole and part by part.

ghost use Rattle.std.specs.Prelude.{◌≡◌, ◌^◌, ◌<◌, List, Ok, IfOk, IfErr, length};
ghost use Rattle.item_tree.specs.Datum.{Datum};
ghost use Rattle.item_tree.specs.Item.{datums};
ghost use Rattle.value_rules.specs.Operands.{FailsWith};
ghost use Rattle.value_rules.specs.Numbers.{sum_values, avg_values};
ghost use Rattle.fn_numbers.specs.inside.Tallies.{tally_kept, tally};

use crate::Partial;
use crate::results::one_item;
use crate::tallies::{Tallied, both, how_many, one_more, sum_of};
use crate::wide_totals::wide_total;
use item_tree::{Code, Item, NoMemory, OpFault, Units};
use num_fixed::Total;
use std::alloc::Global;
use value_rules::item_of;

/// A `Total` counts fewer numbers.
const COUNT_BOUND: usize = 1_099_511_627_776;

/// The exact sum: 0 of nothing, an integer where all items are, and else a decimal. FORG0006 where
/// an item is no number, FOAR0002 where the sum of all is out of bounds; that of some may be.
pub fn sum(alloc: Global, s: &[Item]) -> Result<Vec<Item>, OpFault>
    ensures value { IfOk result (λ xs. sum_values (datums s.now) ≡ Ok (datums xs.items)) }
    ensures fault { IfErr result (FailsWith (sum_values (datums s.now))) }
{
    let number = wide_total(s)?.value()?;
    Ok(one_item(alloc, item_of(number))?)
}

/// The exact sum divided by the number of items, to the nearest unit, a decimal; nothing where the
/// argument is empty. FORG0006 where an item is no number. No more than 2^40 - 1 items can be
/// counted: for more, memory is wanting.
pub fn avg(alloc: Global, s: &[Item]) -> Result<Vec<Item>, OpFault>
    ensures value { IfOk result (λ xs. avg_values (datums s.now) ≡ Ok (datums xs.items)) }
    ensures fault { IfErr result (FailsWith (avg_values (datums s.now))) }
{
    if s.len() >= COUNT_BOUND {
        let _total = wide_total(s)?;
        return Err(OpFault::NoMemory);
    }
    mean_of(alloc, tallied(s))
}

/// What is kept of a list that is summed.
fn tallied(s: &[Item]) -> Tallied
    requires { length s.now < 2 ^ 40 }
    ensures { tally_kept result ≡ tally (datums s.now) }
{
    let mut all = Tallied::Numbers(Total::new());
    for x in s {
        all = one_more(all, x);
    }
    all
}

fn total_of(alloc: Global, all: Tallied) -> Result<Vec<Item>, OpFault>
    ensures value { IfOk result (λ xs. (vs : List Datum) → tally_kept all ≡ tally vs
        → sum_values vs ≡ Ok (datums xs.items)) }
    ensures fault { IfErr result (λ e. (vs : List Datum) → tally_kept all ≡ tally vs
        → FailsWith (sum_values vs) e) }
{
    match all {
        Tallied::NoNumber => Err(OpFault::Raised(Code::FORG0006)),
        Tallied::Numbers(total) => Ok(one_item(alloc, item_of(sum_of(&total)?))?),
    }
}

fn mean_of(alloc: Global, all: Tallied) -> Result<Vec<Item>, OpFault>
    ensures value { IfOk result (λ xs. (vs : List Datum) → tally_kept all ≡ tally vs
        → avg_values vs ≡ Ok (datums xs.items)) }
    ensures fault { IfErr result (λ e. (vs : List Datum) → tally_kept all ≡ tally vs
        → FailsWith (avg_values vs) e) }
{
    let Tallied::Numbers(total) = all else {
        return Err(OpFault::Raised(Code::FORG0006));
    };
    match total.mean() {
        Ok(m) => Ok(one_item(alloc, Item::Dec(Units::new(m)))?),
        Err(_nothing) => Ok(Vec::new(alloc)),
    }
}

/// A part of the value of `sum`.
#[derive(Debug, Drop)]
pub struct SumPart {
    all: Tallied,
}

impl Partial for SumPart {
    ghost use Rattle.std.specs.Prelude.{◌≡◌};
    ghost use Rattle.value_rules.specs.Numbers.{sum_values};
    ghost use Rattle.fn_numbers.specs.inside.Tallies.{tally_kept, tally, numbers_kept};
    ghost use Rattle.fn_numbers.specs.inside.Counted.{numbers_counted};

    ghost stands = { λ p vs. tally_kept p.all ≡ tally vs };

    ghost value_of = { sum_values };

    ghost count = { λ p. numbers_kept p.all };

    fn empty() -> SumPart {
        SumPart {
            all: Tallied::Numbers(Total::new()),
        }
    }

    fn add(&mut self, item: &Item) -> Result<(), NoMemory> {
        self.all = one_more(self.all, item);
        Ok(())
    }

    fn merge(&mut self, later: SumPart) -> Result<(), NoMemory> {
        self.all = both(self.all, later.all);
        Ok(())
    }

    fn finish(self, alloc: Global) -> Result<Vec<Item>, OpFault> {
        total_of(alloc, self.all)
    }

    fn how_many(&self) -> u64 {
        how_many(&self.all)
    }

    ghost counted = { λ p vs h. numbers_counted p.all vs h };
}

/// A part of the value of `avg`.
#[derive(Debug, Drop)]
pub struct AvgPart {
    all: Tallied,
}

impl Partial for AvgPart {
    ghost use Rattle.std.specs.Prelude.{◌≡◌};
    ghost use Rattle.value_rules.specs.Numbers.{avg_values};
    ghost use Rattle.fn_numbers.specs.inside.Tallies.{tally_kept, tally, numbers_kept};
    ghost use Rattle.fn_numbers.specs.inside.Counted.{numbers_counted};

    ghost stands = { λ p vs. tally_kept p.all ≡ tally vs };

    ghost value_of = { avg_values };

    ghost count = { λ p. numbers_kept p.all };

    fn empty() -> AvgPart {
        AvgPart {
            all: Tallied::Numbers(Total::new()),
        }
    }

    fn add(&mut self, item: &Item) -> Result<(), NoMemory> {
        self.all = one_more(self.all, item);
        Ok(())
    }

    fn merge(&mut self, later: AvgPart) -> Result<(), NoMemory> {
        self.all = both(self.all, later.all);
        Ok(())
    }

    fn finish(self, alloc: Global) -> Result<Vec<Item>, OpFault> {
        mean_of(alloc, self.all)
    }

    fn how_many(&self) -> u64 {
        how_many(&self.all)
    }

    ghost counted = { λ p vs h. numbers_counted p.all vs h };
}
