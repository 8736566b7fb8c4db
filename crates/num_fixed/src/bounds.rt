//! The bounds of numbers.

ghost use Rattle.std.specs.Prelude.{◌≡◌, ◌↔◌, ◌<◌, ℤ, unsigned_abs, IsTrue, IfOk, IfErr};
ghost use Rattle.num_fixed.specs.Bounds.{bound, InBounds};
ghost use Rattle.num_fixed.specs.declared.number.NumFault.TheVariants.{Overflow};

use crate::{Kind, NumFault};

/// Integers are below this in size.
pub(crate) const WHOLE_BOUND: u128 = 100_000_000_000_000_000_000;

/// Units are below this in size.
pub(crate) const UNITS_BOUND: u128 = 100_000_000_000_000_000_000_000_000;

/// What numbers of a kind are below in size.
pub(crate) fn bound(kind: Kind) -> u128
    ensures { result ≡ bound kind }
{
    match kind {
        Kind::Whole => WHOLE_BOUND,
        Kind::Units => UNITS_BOUND,
    }
}

/// The number itself, where it is in bounds.
pub(crate) fn bounded(n: i128, kind: Kind) -> Result<i128, NumFault>
    ensures value { IfOk result (λ m. (m ≡ n) × InBounds kind m) }
    ensures overflow { IfErr result (λ e. (e ≡ Overflow) × (¬ InBounds kind n)) }
{
    if n.unsigned_abs() < bound(kind) {
        Ok(n)
    } else {
        Err(NumFault::Overflow)
    }
}
