//! Products and quotients.

ghost use Rattle.std.specs.Prelude.{◌≡◌, ◌≢◌, ℤ, pos, IfOk, IfErr};
ghost use Rattle.num_fixed.specs.Bounds.{InBounds, IsOver};
ghost use Rattle.num_fixed.specs.Nearest.{IsNearestUnit};
ghost use Rattle.num_fixed.specs.Quotients.{IsProduct, IsTruncated, IsFault};
ghost use Rattle.num_fixed.specs.declared.number.Kind.TheVariants.{Whole, Units};
ghost use Rattle.num_fixed.specs.declared.number.NumFault.TheVariants.{Overflow};

use crate::bounds::bounded;
use crate::nearest::nearest;
use crate::number::UNITS_IN_ONE;
use crate::{Kind, NumFault};

/// The product of two numbers of a kind; of units it is the nearest unit.
pub fn mul(a: i128, b: i128, kind: Kind) -> Result<i128, NumFault>
    requires left { InBounds kind a }
    requires right { InBounds kind b }
    ensures value { IfOk result (λ m. IsProduct kind a b m × InBounds kind m) }
    ensures overflow { IfErr result (λ e. (e ≡ Overflow) × IsOver kind (IsProduct kind a b)) }
{
    // A product that doesn't fit is 2^127 or more in size. Even a millionth of it is then above
    // 10^32, and so out of the bounds of both kinds.
    let Some(product) = a.checked_mul(b) else {
        return Err(NumFault::Overflow);
    };
    match kind {
        Kind::Whole => bounded(product, kind),
        Kind::Units => bounded(nearest(product, UNITS_IN_ONE), kind),
    }
}

/// The units nearest to the quotient of units.
pub fn div(a: i128, b: i128) -> Result<i128, NumFault>
    requires left { InBounds Units a }
    requires right { InBounds Units b }
    ensures value { IfOk result (λ m. (b ≢ pos 0) × IsNearestUnit a b m × InBounds Units m) }
    ensures fault { IfErr result (IsFault b (IsOver Units (IsNearestUnit a b))) }
{
    if b == 0 {
        return Err(NumFault::ZeroDivisor);
    }
    bounded(nearest(a * UNITS_IN_ONE, b), Kind::Units)
}

/// The whole number that is left of the quotient of units without its part behind the point.
pub fn idiv(a: i128, b: i128) -> Result<i128, NumFault>
    requires left { InBounds Units a }
    requires right { InBounds Units b }
    ensures value { IfOk result (λ q. (b ≢ pos 0) × IsTruncated a b q × InBounds Whole q) }
    ensures fault { IfErr result (IsFault b (IsOver Whole (IsTruncated a b))) }
{
    if b == 0 {
        return Err(NumFault::ZeroDivisor);
    }
    bounded(a / b, Kind::Whole)
}
