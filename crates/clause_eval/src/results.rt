//! The results of operators as values, and their errors at places.

ghost use Rattle.std.specs.Prelude.{◌≡◌, []};
ghost use Rattle.atom_ops.specs.Arithmetic.{value_given};
ghost use Rattle.query_meaning.specs.Outcome.{at_place};
ghost use Rattle.query_meaning.specs.Operators.{of_truth, sequence_if, truth_if, truth_or_code};
ghost use Rattle.query_meaning.specs.inside.Gives.{Gives};
ghost use Rattle.query_meaning.specs.inside.Views.{items_of};

use item_tree::{Code, Item};
use query_meaning::{EvalFault, Value};

/// The empty sequence.
pub fn nothing<'a>() -> Value<'a>
    ensures { items_of result ≡ [] }
{
    Value::Lent(&[])
}

/// A truth value.
pub fn truth_value<'a>(holds: bool) -> Value<'a>
    ensures { items_of result ≡ of_truth holds }
{
    Value::One(Item::Bool(holds))
}

/// What an operator gives, or its error at its place.
pub fn optional_item<'a>(
    place: u32,
    given: Result<Option<Item>, Code>,
) -> Result<Value<'a>, EvalFault>
    ensures { Gives items_of result (at_place place (sequence_if (value_given given))) }
{
    match given {
        Ok(Some(item)) => Ok(Value::One(item)),
        Ok(None) => Ok(nothing()),
        Err(code) => Err(EvalFault::raised(code, place)),
    }
}

/// A truth value or nothing, or the error at its place.
pub fn optional_truth<'a>(
    place: u32,
    holds: Result<Option<bool>, Code>,
) -> Result<Value<'a>, EvalFault>
    ensures { Gives items_of result (at_place place (truth_if holds)) }
{
    match holds {
        Ok(Some(b)) => Ok(truth_value(b)),
        Ok(None) => Ok(nothing()),
        Err(code) => Err(EvalFault::raised(code, place)),
    }
}

/// A truth value, or the error at its place.
pub fn one_truth<'a>(place: u32, holds: Result<bool, Code>) -> Result<Value<'a>, EvalFault>
    ensures { Gives items_of result (at_place place (truth_or_code holds)) }
{
    match holds {
        Ok(b) => Ok(truth_value(b)),
        Err(code) => Err(EvalFault::raised(code, place)),
    }
}
