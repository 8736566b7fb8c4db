//! From arithmetic on numbers to items and codes.

ghost use Rattle.std.specs.Prelude.{◌≡◌};
ghost use Rattle.item_tree.specs.Item.{datum};
ghost use Rattle.num_fixed.specs.Bounds.{NumberInBounds};
ghost use Rattle.value_rules.specs.Results.{number_datum, told};

use item_tree::{Code, Item, Units, Whole};
use num_fixed::{Kind, NumFault, Number};

/// The item that a number is.
pub fn item_of(number: Number) -> Item
    requires { NumberInBounds number }
    ensures { datum result ≡ number_datum number }
{
    match number {
        Number::Int(n) => Item::Int(Whole::new(n)),
        Number::Dec(m) => Item::Dec(Units::new(m)),
    }
}

/// What arithmetic on fixed numbers tells, as a number of this kind or an error of a query.
pub fn told(kind: Kind, number: Result<i128, NumFault>) -> Result<Number, Code>
    ensures { result ≡ told kind number }
{
    match number {
        Ok(n) => Ok(match kind {
            Kind::Whole => Number::Int(n),
            Kind::Units => Number::Dec(n),
        }),
        Err(NumFault::ZeroDivisor) => Err(Code::FOAR0001),
        Err(NumFault::Overflow) => Err(Code::FOAR0002),
    }
}
