//! The values of variables.

ghost use Rattle.std.specs.Prelude.{◌≡◌, Ok};
ghost use Rattle.query_meaning.specs.Environment.{value_in, value_of};
ghost use Rattle.query_meaning.specs.inside.Gives.{Gives};
ghost use Rattle.query_meaning.specs.inside.Views.{items_of, tuple_of, lists_of, environment_of};

use crate::results::nothing;
use item_tree::Item;
use query_meaning::{Env, EvalFault, Value};
use query_tree::Slot;
use std::alloc::Global;

/// `$x`
#[tactic(auto, unfolding(query_meaning::specs::inside::Views::environment_of))]
pub fn var<'a>(alloc: Global, slot: Slot, env: &Env<'_, 'a>) -> Result<Value<'a>, EvalFault>
    ensures { Gives items_of result (Ok (value_of (environment_of env.now) slot)) }
{
    match slot {
        Slot::Local(n) => bound_value(alloc, env.frame, n as usize),
        Slot::Global(n) => Ok(declared_value(env.globals, n as usize)),
    }
}

/// The value of a slot.
fn bound_value<'a>(alloc: Global, frame: &[Value<'a>], at: usize) -> Result<Value<'a>, EvalFault>
    ensures { Gives items_of result (Ok (value_in (tuple_of frame.now) at)) }
{
    match frame.get(at) {
        None => Ok(nothing()),
        Some(value) => value.again(alloc),
    }
}

/// The value of a declared variable, which outlives what reads it.
fn declared_value<'a>(globals: &'a [Vec<Item>], at: usize) -> Value<'a>
    ensures { items_of result ≡ value_in (lists_of globals.now) at }
{
    match globals.get(at) {
        None => nothing(),
        Some(items) => Value::Lent(items.as_slice()),
    }
}
