//! Exact totals of numbers.

ghost use Rattle.std.specs.Prelude.{◌≡◌, ◌≢◌, ◌+◌, ◌<◌, ◌^◌, ℤ, pos, IsTrue, IfOk, IfErr};
ghost use Rattle.num_fixed.specs.Bounds.{InBounds, NumberInBounds, IsOver};
ghost use Rattle.num_fixed.specs.Totals.{number_units, is_int, nothing, one, joined, IsSum, IsMean};
ghost use Rattle.num_fixed.specs.declared.number.Kind.TheVariants.{Whole, Units};
ghost use Rattle.num_fixed.specs.declared.number.NumFault.TheVariants.{ZeroDivisor, Overflow};

use crate::bounds::bounded;
use crate::nearest::nearest;
use crate::number::UNITS_IN_ONE;
use crate::{Kind, NumFault, Number};
use std::marker::Model;

/// The exact sum and number of the numbers that were added, fewer than 2^40.
///
/// The sum itself may be out of bounds; it is below 2^40 * 10^26 units in size.
#[derive(Clone, Copy, Debug)]
pub struct Total {
    units: i128,
    count: u64,
    whole: bool,
}

impl Model for Total {
    ghost use Rattle.num_fixed.specs.Totals.{Tally, IsKept};

    ghost Value = { Tally };

    ghost view = { λ t. record { units = t.units; count = t.count; whole = t.whole } };

    ghost invariant = { λ t.
        IsKept (record { units = t.units; count = t.count; whole = t.whole }) };

    ghost inverse = { λ t. record { units = t.units; count = t.count; whole = t.whole } };
}

/// The units of a number.
fn number_units(x: &Number) -> i128
    requires { NumberInBounds x.now }
    ensures { result ≡ number_units x.now }
{
    match *x {
        Number::Int(n) => n * UNITS_IN_ONE,
        Number::Dec(m) => m,
    }
}

/// Whether a number is an integer.
fn is_int(x: &Number) -> bool
    ensures { result ≡ is_int x.now }
{
    match *x {
        Number::Int(_) => true,
        Number::Dec(_) => false,
    }
}

impl Total {
    /// The total of nothing.
    pub fn new() -> Total
        ensures { result ≡ nothing }
    {
        Total {
            units: 0,
            count: 0,
            whole: true,
        }
    }

    /// Adds one number.
    pub fn add(&mut self, x: &Number)
        requires number { NumberInBounds x.now }
        requires room { self.old.count + 1 < 2 ^ 40 }
        ensures { self.new ≡ joined self.old (one x.now) }
    {
        let units = number_units(x);
        let whole = self.whole && is_int(x);
        *self = Total {
            units: self.units + units,
            count: self.count + 1,
            whole,
        };
    }

    /// Adds all that was added to a later total.
    pub fn merge(&mut self, later: &Total)
        requires { self.old.count + later.now.count < 2 ^ 40 }
        ensures { self.new ≡ joined self.old later.now }
    {
        let whole = self.whole && later.whole;
        *self = Total {
            units: self.units + later.units,
            count: self.count + later.count,
            whole,
        };
    }

    /// The sum, in ones where all that was added are integers, or in units.
    pub fn value(&self, kind: Kind) -> Result<i128, NumFault>
        requires { kind ≡ Whole → IsTrue self.now.whole }
        ensures value { IfOk result (λ m. IsSum kind self.now m × InBounds kind m) }
        ensures overflow { IfErr result (λ e. (e ≡ Overflow) × IsOver kind (IsSum kind self.now)) }
    {
        match kind {
            Kind::Whole => bounded(self.units / UNITS_IN_ONE, kind),
            Kind::Units => bounded(self.units, kind),
        }
    }

    /// The units nearest to the sum divided by the number. They are never out of bounds.
    pub fn mean(&self) -> Result<i128, NumFault>
        ensures value { IfOk result (λ m. IsMean self.now m × InBounds Units m) }
        ensures zero { IfErr result (λ e. (e ≡ ZeroDivisor) × (self.now.count ≡ 0)) }
    {
        if self.count == 0 {
            return Err(NumFault::ZeroDivisor);
        }
        Ok(nearest(self.units, i128::from(self.count)))
    }

    /// Whether all that was added are integers: then [`Total::value`] counts in ones too.
    pub fn is_whole(&self) -> bool
        ensures { result ≡ self.now.whole }
    {
        self.whole
    }

    /// How many numbers were added.
    pub fn count(&self) -> u64
        ensures value { result ≡ self.now.count }
        ensures few { result < 2 ^ 40 }
    {
        self.count
    }
}
