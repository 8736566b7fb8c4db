//! Frames with one more binding.

ghost use Rattle.std.specs.Prelude.{◌≡◌, [], Ok, replicate};
ghost use Rattle.std.specs.List.{slice_set};
ghost use Rattle.query_meaning.specs.Environment.{with_value};
ghost use Rattle.query_meaning.specs.inside.Gives.{Gives};
ghost use Rattle.query_meaning.specs.inside.Views.{items_of, tuple_of};

use crate::results::nothing;
use query_meaning::{EvalFault, Value};
use query_tree::Slot;
use std::alloc::Global;

/// The same slots. No item is copied but those that one slot alone has.
pub fn again<'a>(alloc: Global, frame: &[Value<'a>]) -> Result<Vec<Value<'a>>, EvalFault>
    ensures { Gives (λ v. tuple_of v.items) result (Ok (tuple_of frame.now)) }
{
    let mut slots = Vec::with_capacity(alloc, frame.len())?;
    for value in frame {
        slots.push(value.again(alloc)?)?;
    }
    Ok(slots)
}

/// Puts a value at a position of a list, if the list has it. It is generic, so that a check needs
/// no proof of its own for each kind of value that is dropped.
#[tactic(auto, using(crate::proofs::Members::sets))]
pub(crate) fn put<T: Drop>(list: &mut Vec<T>, at: usize, value: T)
    ensures { list.new.items ≡ slice_set list.old.items at value }
{
    if at < list.len() {
        list[at] = value;
    }
}

/// A frame in which a slot has this value.
#[tactic(auto, using(crate::proofs::Members::sets))]
pub fn written<'a>(
    alloc: Global,
    frame: Vec<Value<'a>>,
    slot: Slot,
    value: Value<'a>,
) -> Result<Vec<Value<'a>>, EvalFault>
    ensures { Gives (λ v. tuple_of v.items) result
        (Ok (with_value (tuple_of frame.entry.items) slot (items_of value.entry))) }
{
    let value = value.settled(alloc)?;
    let mut slots = frame;
    match slot {
        Slot::Local(n) => put(&mut slots, n as usize, value),
        Slot::Global(_) => {}
    }
    Ok(slots)
}

/// A copy of a frame in which a slot has this value.
pub(crate) fn bound<'a>(
    alloc: Global,
    frame: &[Value<'a>],
    slot: Slot,
    value: Value<'a>,
) -> Result<Vec<Value<'a>>, EvalFault>
    ensures { Gives (λ v. tuple_of v.items) result
        (Ok (with_value (tuple_of frame.now) slot (items_of value.entry))) }
{
    let slots = again(alloc, frame)?;
    written(alloc, slots, slot, value)
}

/// A frame of this width in which nothing is bound yet.
pub fn new_frame<'a>(alloc: Global, width: usize) -> Result<Vec<Value<'a>>, EvalFault>
    ensures { Gives (λ v. tuple_of v.items) result (Ok (replicate width [])) }
{
    let mut slots = Vec::with_capacity(alloc, width)?;
    for slot in 0..width {
        slots.push(nothing())?;
    }
    Ok(slots)
}
