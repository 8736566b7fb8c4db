//! Numbers as units, and rounded.

ghost use Rattle.std.specs.Prelude.{◌≡◌, ℤ, pos, ◌^◌, ◌<◌, unsigned_abs, IfOk, IfErr};
ghost use Rattle.num_fixed.specs.Bounds.{InBounds, IsOver};
ghost use Rattle.num_fixed.specs.Quotients.{IsTruncated};
ghost use Rattle.num_fixed.specs.Rounding.{units_of, IsFloor, IsCeiling, IsRoundedUp, IsRoundedEven};
ghost use Rattle.num_fixed.specs.declared.number.Kind.TheVariants.{Whole, Units};
ghost use Rattle.num_fixed.specs.declared.number.NumFault.TheVariants.{Overflow};

use crate::bounds::bounded;
use crate::nearest::nearest;
use crate::number::UNITS_IN_ONE;
use crate::{Kind, NumFault};

/// The units of a whole number.
pub fn to_units(n: i128) -> i128
    requires { InBounds Whole n }
    ensures value { result ≡ units_of n }
    ensures within { InBounds Units result }
{
    n * UNITS_IN_ONE
}

/// The whole number that is left of units without their part behind the point.
pub fn whole_part(m: i128) -> i128
    requires { InBounds Units m }
    ensures value { IsTruncated m (pos 1000000) result }
    ensures within { InBounds Whole result }
{
    m / UNITS_IN_ONE
}

/// The greatest units of a whole number that aren't above these.
fn floor_of(m: i128) -> i128
    requires { unsigned_abs m < 10 ^ 27 }
    ensures { IsFloor m result }
{
    m - m.rem_euclid(UNITS_IN_ONE)
}

/// The greatest units of a whole number that aren't above these.
pub fn floor(m: i128) -> Result<i128, NumFault>
    requires { InBounds Units m }
    ensures value { IfOk result (λ r. IsFloor m r × InBounds Units r) }
    ensures overflow { IfErr result (λ e. (e ≡ Overflow) × IsOver Units (IsFloor m)) }
{
    bounded(floor_of(m), Kind::Units)
}

/// The least units of a whole number that aren't below these.
pub fn ceiling(m: i128) -> Result<i128, NumFault>
    requires { InBounds Units m }
    ensures value { IfOk result (λ r. IsCeiling m r × InBounds Units r) }
    ensures overflow { IfErr result (λ e. (e ≡ Overflow) × IsOver Units (IsCeiling m)) }
{
    bounded(floor_of(m + (UNITS_IN_ONE - 1)), Kind::Units)
}

/// The units of a whole number nearest to these, the greater one where two are.
pub fn round(m: i128) -> Result<i128, NumFault>
    requires { InBounds Units m }
    ensures value { IfOk result (λ r. IsRoundedUp m r × InBounds Units r) }
    ensures overflow { IfErr result (λ e. (e ≡ Overflow) × IsOver Units (IsRoundedUp m)) }
{
    bounded(floor_of(m + UNITS_IN_ONE / 2), Kind::Units)
}

/// The units of a whole number nearest to these, the even one where two are.
pub fn round_even(m: i128) -> Result<i128, NumFault>
    requires { InBounds Units m }
    ensures value { IfOk result (λ r. IsRoundedEven m r × InBounds Units r) }
    ensures overflow { IfErr result (λ e. (e ≡ Overflow) × IsOver Units (IsRoundedEven m)) }
{
    bounded(nearest(m, UNITS_IN_ONE) * UNITS_IN_ONE, Kind::Units)
}
