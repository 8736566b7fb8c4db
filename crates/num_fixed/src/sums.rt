//! Sums, differences and remainders.

ghost use Rattle.std.specs.Prelude.{◌≡◌, ◌≢◌, ◌↔◌, ℤ, pos, ◌+ℤ◌, ◌-ℤ◌, IfOk, IfErr};
ghost use Rattle.num_fixed.specs.Bounds.{InBounds};
ghost use Rattle.num_fixed.specs.Quotients.{IsRemainder};
ghost use Rattle.num_fixed.specs.declared.number.NumFault.TheVariants.{Overflow, ZeroDivisor};

use crate::bounds::bounded;
use crate::{Kind, NumFault};

/// The sum of two numbers of a kind.
pub fn add(a: i128, b: i128, kind: Kind) -> Result<i128, NumFault>
    requires left { InBounds kind a }
    requires right { InBounds kind b }
    ensures value { IfOk result (λ m. (m ≡ a +ℤ b) × InBounds kind m) }
    ensures overflow { IfErr result (λ e. (e ≡ Overflow) × (¬ InBounds kind (a +ℤ b))) }
{
    bounded(a + b, kind)
}

/// The first number less the second, both of a kind.
pub fn sub(a: i128, b: i128, kind: Kind) -> Result<i128, NumFault>
    requires left { InBounds kind a }
    requires right { InBounds kind b }
    ensures value { IfOk result (λ m. (m ≡ a -ℤ b) × InBounds kind m) }
    ensures overflow { IfErr result (λ e. (e ≡ Overflow) × (¬ InBounds kind (a -ℤ b))) }
{
    bounded(a - b, kind)
}

/// What is left of the first number when it is divided by the second, with the first one's sign.
/// It is exact, and never an overflow.
pub fn rem(a: i128, b: i128, kind: Kind) -> Result<i128, NumFault>
    requires left { InBounds kind a }
    requires right { InBounds kind b }
    ensures value { IfOk result (λ r. IsRemainder a b r × InBounds kind r) }
    ensures zero { IfErr result (λ e. (e ≡ ZeroDivisor) × (b ≡ pos 0)) }
{
    if b == 0 {
        return Err(NumFault::ZeroDivisor);
    }
    Ok(a % b)
}
