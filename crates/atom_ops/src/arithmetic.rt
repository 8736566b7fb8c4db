//! Arithmetic on two operands, each empty or one number.

ghost use Rattle.std.specs.Prelude.{◌≡◌, IfOk};
ghost use Rattle.item_tree.specs.Item.{datums};
ghost use Rattle.num_fixed.specs.Bounds.{InBounds, NumberInBounds};
ghost use Rattle.atom_ops.specs.Arithmetic.{calculation, calculated, arithmetic, negation, value_given};

use item_tree::{Code, Item};
use num_fixed::{Kind, Number, add, div, idiv, mul, rem, sub, to_units};
use value_rules::{item_of, one_number, told};

/// An operation on two numbers.
#[derive(Clone, Copy, Debug, PartialEq, Eq)]
pub enum Arith {
    Add,
    Sub,
    Mul,
    /// The quotient, which is a decimal.
    Div,
    /// The quotient without its part behind the point, which is an integer.
    Idiv,
    /// What a division by `Idiv` leaves, with the sign of what is divided.
    Mod,
}

/// Calculates with two numbers. `None` exactly where an operand is empty, whatever the other one
/// is. Else the left one is checked whole before the right one. Two integers give an integer, but a
/// quotient by `Div` is a decimal; an integer and a decimal are taken as decimals.
#[tactic(auto, using(crate::proofs::OperandLemmas::arithmetic_of))]
pub fn arith_op(op: Arith, a: &[Item], b: &[Item]) -> Result<Option<Item>, Code>
    ensures { value_given result ≡ arithmetic op (datums a.now) (datums b.now) }
{
    if a.is_empty() || b.is_empty() {
        return Ok(None);
    }
    let x = one_number(a)?;
    let y = one_number(b)?;
    match calculate(op, x, y) {
        Ok(number) => Ok(Some(item_of(number))),
        Err(code) => Err(code),
    }
}

/// The number with the other sign. `None` exactly where the operand is empty.
pub fn negate(a: &[Item]) -> Result<Option<Item>, Code>
    ensures { value_given result ≡ negation (datums a.now) }
{
    if a.is_empty() {
        return Ok(None);
    }
    let number = match one_number(a)? {
        Number::Int(n) => Number::Int(-n),
        Number::Dec(m) => Number::Dec(-m),
    };
    Ok(Some(item_of(number)))
}

fn calculate(op: Arith, x: Number, y: Number) -> Result<Number, Code>
    requires left { NumberInBounds x }
    requires right { NumberInBounds y }
    ensures value { result ≡ calculated op x y }
    ensures within { IfOk result NumberInBounds }
{
    match (x, y) {
        (Number::Int(a), Number::Int(b)) => of_kind(op, Kind::Whole, a, b),
        (Number::Int(a), Number::Dec(b)) => of_kind(op, Kind::Units, to_units(a), b),
        (Number::Dec(a), Number::Int(b)) => of_kind(op, Kind::Units, a, to_units(b)),
        (Number::Dec(a), Number::Dec(b)) => of_kind(op, Kind::Units, a, b),
    }
}

// Integers are within the bounds of decimals too, and a quotient is the same whether both count
// ones or both count units.
fn of_kind(op: Arith, kind: Kind, a: i128, b: i128) -> Result<Number, Code>
    requires left { InBounds kind a }
    requires right { InBounds kind b }
    ensures value { result ≡ calculation op kind a b }
    ensures within { IfOk result NumberInBounds }
{
    match op {
        Arith::Add => told(kind, add(a, b, kind)),
        Arith::Sub => told(kind, sub(a, b, kind)),
        Arith::Mul => told(kind, mul(a, b, kind)),
        Arith::Div => told(Kind::Units, div(a, b)),
        Arith::Idiv => told(Kind::Whole, idiv(a, b)),
        Arith::Mod => told(kind, rem(a, b, kind)),
    }
}
