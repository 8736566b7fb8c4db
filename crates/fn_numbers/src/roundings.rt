//! Functions that round one number.

ghost use Rattle.std.specs.Prelude.{◌≡◌, Ok, IfOk, IfErr};
ghost use Rattle.item_tree.specs.Item.{datums};
ghost use Rattle.num_fixed.specs.Bounds.{InBounds, NumberInBounds};
ghost use Rattle.num_fixed.specs.declared.number.Kind.TheVariants.{Units};
ghost use Rattle.num_fixed.specs.declared.number.Number.TheVariants.{Dec};
ghost use Rattle.value_rules.specs.Operands.{FailsWith};
ghost use Rattle.value_rules.specs.Numbers.{of_number, abs_values, floor_values, ceiling_values, round_values, round_half_to_even_values};
ghost use Rattle.fn_numbers.specs.inside.Steps.{stepped};

use crate::results::one_item;
use item_tree::{Code, Item, OpFault};
use num_fixed::{Kind, Number, round_even};
use std::alloc::Global;
use value_rules::{item_of, optional_number, told};

/// What a function makes of a number.
#[derive(Clone, Copy, Debug)]
enum Step {
    Abs,
    Floor,
    Ceiling,
    Round,
    RoundHalfToEven,
}

/// The number without its sign. Nothing where the argument is empty.
pub fn abs(alloc: Global, s: &[Item]) -> Result<Vec<Item>, OpFault>
    ensures value { IfOk result (λ xs. abs_values (datums s.now) ≡ Ok (datums xs.items)) }
    ensures fault { IfErr result (FailsWith (abs_values (datums s.now))) }
{
    of_number(alloc, Step::Abs, s)
}

/// The greatest number without a fraction that is not above the number. An integer stays one, and a
/// decimal too. Nothing where the argument is empty; FOAR0002 where the result is out of bounds.
pub fn floor(alloc: Global, s: &[Item]) -> Result<Vec<Item>, OpFault>
    ensures value { IfOk result (λ xs. floor_values (datums s.now) ≡ Ok (datums xs.items)) }
    ensures fault { IfErr result (FailsWith (floor_values (datums s.now))) }
{
    of_number(alloc, Step::Floor, s)
}

/// The least number without a fraction that is not below the number. See [`floor`].
pub fn ceiling(alloc: Global, s: &[Item]) -> Result<Vec<Item>, OpFault>
    ensures value { IfOk result (λ xs. ceiling_values (datums s.now) ≡ Ok (datums xs.items)) }
    ensures fault { IfErr result (FailsWith (ceiling_values (datums s.now))) }
{
    of_number(alloc, Step::Ceiling, s)
}

/// The nearest number without a fraction, the greater one where two are. See [`floor`].
pub fn round(alloc: Global, s: &[Item]) -> Result<Vec<Item>, OpFault>
    ensures value { IfOk result (λ xs. round_values (datums s.now) ≡ Ok (datums xs.items)) }
    ensures fault { IfErr result (FailsWith (round_values (datums s.now))) }
{
    of_number(alloc, Step::Round, s)
}

/// The nearest number without a fraction, the even one where two are. See [`floor`].
pub fn round_half_to_even(alloc: Global, s: &[Item]) -> Result<Vec<Item>, OpFault>
    ensures value { IfOk result
        (λ xs. round_half_to_even_values (datums s.now) ≡ Ok (datums xs.items)) }
    ensures fault { IfErr result (FailsWith (round_half_to_even_values (datums s.now))) }
{
    of_number(alloc, Step::RoundHalfToEven, s)
}

fn of_number(alloc: Global, step: Step, s: &[Item]) -> Result<Vec<Item>, OpFault>
    ensures value { IfOk result
        (λ xs. of_number (stepped step) (datums s.now) ≡ Ok (datums xs.items)) }
    ensures fault { IfErr result (FailsWith (of_number (stepped step) (datums s.now))) }
{
    match optional_number(s)? {
        None => Ok(Vec::new(alloc)),
        Some(x) => Ok(one_item(alloc, item_of(stepped(step, x)?))?),
    }
}

fn stepped(step: Step, x: Number) -> Result<Number, Code>
    requires { NumberInBounds x }
    ensures value { result ≡ stepped step x }
    ensures within { IfOk result NumberInBounds }
{
    match x {
        Number::Int(n) => Ok(Number::Int(match step {
            Step::Abs => n.abs(),
            _ => n,
        })),
        Number::Dec(m) => decimal_stepped(step, m),
    }
}

fn decimal_stepped(step: Step, m: i128) -> Result<Number, Code>
    requires { InBounds Units m }
    ensures value { result ≡ stepped step (Dec m) }
    ensures within { IfOk result NumberInBounds }
{
    match step {
        Step::Abs => Ok(Number::Dec(m.abs())),
        Step::Floor => told(Kind::Units, num_fixed::floor(m)),
        Step::Ceiling => told(Kind::Units, num_fixed::ceiling(m)),
        Step::Round => told(Kind::Units, num_fixed::round(m)),
        Step::RoundHalfToEven => told(Kind::Units, round_even(m)),
    }
}
