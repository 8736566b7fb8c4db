//! Exact totals of any number of addends.

ghost use Rattle.std.specs.Prelude.{◌≡◌, ◌+◌, ◌*◌, ◌^◌, ◌<◌, ◌≤◌, ℤ, pos, ◌+ℤ◌, ◌*ℤ◌, unsigned_abs, IfOk};
ghost use Rattle.item_tree.specs.Item.{datums};
ghost use Rattle.num_fixed.specs.Bounds.{InBounds, NumberInBounds};
ghost use Rattle.num_fixed.specs.Totals.{number_units, is_int, nothing, one, joined};
ghost use Rattle.num_fixed.specs.declared.number.Kind.TheVariants.{Units};
ghost use Rattle.value_rules.specs.Numbers.{total};
ghost use Rattle.value_rules.specs.Results.{bounded};
ghost use Rattle.fn_numbers.specs.inside.Tallies.{tally};

use crate::tallies::addend;
use item_tree::{Code, Item};
use num_fixed::{Kind, Number, to_units};
use std::marker::Model;

/// More units than a sum in bounds has, in size.
const STEP: i128 = 1_000_000_000_000_000_000_000_000_000;

/// The exact total of numbers, however many a slice has. A `Total` counts below 2^40.
#[derive(Debug, Drop)]
pub(crate) struct WideTotal {
    high: i128,
    low: i128,
    count: u64,
    whole: bool,
}

impl Model for WideTotal {
    ghost use Rattle.std.specs.Prelude.{◌^◌, ◌<◌, ◌≤◌, pos, ◌+ℤ◌, ◌*ℤ◌, unsigned_abs};
    ghost use Rattle.num_fixed.specs.Totals.{Tally};

    ghost Value = { Tally };

    ghost view = { λ w. record {
      units = w.high *ℤ pos (10 ^ 27) +ℤ w.low;
      count = w.count;
      whole = w.whole;
    } };

    ghost invariant = { λ w. (unsigned_abs w.low < 10 ^ 27) × (unsigned_abs w.high ≤ w.count) };
}

/// The units of a number.
fn units_of(x: Number) -> i128
    requires { NumberInBounds x }
    ensures value { result ≡ number_units x }
    ensures within { InBounds Units result }
{
    match x {
        Number::Int(n) => to_units(n),
        Number::Dec(m) => m,
    }
}

fn is_int(x: Number) -> bool
    ensures { result ≡ is_int x }
{
    matches!(x, Number::Int(_))
}

/// Steps and units that are so many more, with the units fewer than one step.
fn carried(high: i128, low: i128, units: i128) -> (i128, i128)
    requires steps { unsigned_abs high < 2 ^ 64 }
    requires small { unsigned_abs low < 10 ^ 27 }
    requires more { InBounds Units units }
    ensures sum { result.0 *ℤ pos (10 ^ 27) +ℤ result.1
        ≡ (high *ℤ pos (10 ^ 27) +ℤ low) +ℤ units }
    ensures steps { unsigned_abs result.0 ≤ unsigned_abs high + 1 }
    ensures small { unsigned_abs result.1 < 10 ^ 27 }
{
    let sum = low + units;
    if sum >= STEP {
        (high + 1, sum - STEP)
    } else if sum <= -STEP {
        (high - 1, sum + STEP)
    } else {
        (high, sum)
    }
}

/// A number of this kind, which must be in bounds.
fn bounded(kind: Kind, n: i128) -> Result<Number, Code>
    ensures value { result ≡ bounded kind n }
    ensures within { IfOk result NumberInBounds }
{
    match kind {
        Kind::Whole if n.unsigned_abs() < 100_000_000_000_000_000_000 => Ok(Number::Int(n)),
        Kind::Units if n.unsigned_abs() < 100_000_000_000_000_000_000_000_000 => {
            Ok(Number::Dec(n))
        }
        _ => Err(Code::FOAR0002),
    }
}

impl WideTotal {
    /// The total of nothing.
    fn new() -> WideTotal
        ensures { result ≡ nothing }
    {
        WideTotal {
            high: 0,
            low: 0,
            count: 0,
            whole: true,
        }
    }

    /// Adds one number.
    fn add(&mut self, x: Number)
        requires number { NumberInBounds x }
        requires room { self.old.count + 1 < 2 ^ 64 }
        ensures { self.new ≡ joined self.old (one x) }
    {
        let (high, low) = carried(self.high, self.low, units_of(x));
        let whole = self.whole && is_int(x);
        *self = WideTotal {
            high,
            low,
            count: self.count + 1,
            whole,
        };
    }

    /// The sum, where it is in bounds: an integer where all that was added are.
    pub(crate) fn value(&self) -> Result<Number, Code>
        ensures value { result ≡ total self.now }
        ensures within { IfOk result NumberInBounds }
    {
        if self.high.unsigned_abs() > 1 {
            return Err(Code::FOAR0002);
        }
        let units = self.high * STEP + self.low;
        if self.whole {
            bounded(Kind::Whole, units / 1_000_000)
        } else {
            bounded(Kind::Units, units)
        }
    }
}

/// The exact total of a list, or the error of an item that is no number.
pub(crate) fn wide_total(s: &[Item]) -> Result<WideTotal, Code>
    ensures { result ≡ tally (datums s.now) }
{
    let mut all = WideTotal::new();
    for x in s {
        all.add(addend(x)?);
    }
    Ok(all)
}
