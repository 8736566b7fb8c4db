//! The tuples of a FLWOR, each a frame of its own.

ghost use Rattle.std.specs.Prelude.{◌≡◌, [], ◌∷◌, Ok};
ghost use Rattle.query_meaning.specs.Clauses.{of_number};
ghost use Rattle.query_meaning.specs.Environment.{with_value};
ghost use Rattle.query_meaning.specs.Outcome.{with_front};
ghost use Rattle.query_meaning.specs.inside.Gives.{Gives};
ghost use Rattle.query_meaning.specs.inside.Views.{items_of, tuple_of};
ghost use Rattle.stage_laws.specs.Ends.{numbered_from};
ghost use Rattle.clause_eval.specs.Frames.{frame_tuple, tuples_of};
ghost use Rattle.clause_eval.specs.OneByOne.{with_number};

use crate::frames::{again, written};
use item_tree::{Item, Whole};
use query_meaning::{EvalFault, Value};
use query_tree::{Placed, Slot};
use std::alloc::Global;

/// A tuple: the values of the slots.
#[derive(Drop)]
pub struct Frame<'a> {
    /// The value of each slot, by its number.
    pub slots: Vec<Value<'a>>,
}

/// The same tuple again.
pub fn frame_again<'a>(alloc: Global, frame: &[Value<'a>]) -> Result<Frame<'a>, EvalFault>
    ensures { Gives frame_tuple result (Ok (tuple_of frame.now)) }
{
    let slots = again(alloc, frame)?;
    Ok(Frame { slots })
}

/// The same tuple, whose values are lent: nothing is copied, and no count of what is shared grows.
pub fn frame_lent<'a>(alloc: Global, frame: &'a [Value<'a>]) -> Result<Frame<'a>, EvalFault>
    ensures { Gives frame_tuple result (Ok (tuple_of frame.now)) }
{
    let mut slots = Vec::with_capacity(alloc, frame.len())?;
    for value in frame {
        slots.push(Value::Lent(value.items()))?;
    }
    Ok(Frame { slots })
}

/// The tuple in which a slot has this value.
pub fn with_slot<'a>(
    alloc: Global,
    frame: Frame<'a>,
    slot: Slot,
    value: Value<'a>,
) -> Result<Frame<'a>, EvalFault>
    ensures { Gives frame_tuple result
        (Ok (with_value (frame_tuple frame.entry) slot (items_of value.entry))) }
{
    let slots = written(alloc, frame.slots, slot, value)?;
    Ok(Frame { slots })
}

/// One more tuple.
pub(crate) fn pushed<'a>(
    frames: Vec<Frame<'a>>,
    frame: Frame<'a>,
) -> Result<Vec<Frame<'a>>, EvalFault>
    ensures { Gives tuples_of result
        (with_front (tuples_of frames.entry) (Ok (frame_tuple frame.entry ∷ []))) }
{
    let mut frames = frames;
    frames.push(frame)?;
    Ok(frames)
}

/// A position as a value.
pub fn number_value<'a>(n: u64) -> Value<'a>
    ensures { items_of result ≡ of_number n }
{
    Value::One(Item::Int(Whole::new(i128::from(n))))
}

/// `count`: each tuple with its number, from 1, in its variable.
pub fn numbered_rows<'a>(
    alloc: Global,
    variable: &Placed<Slot>,
    frames: Vec<Frame<'a>>,
) -> Result<Vec<Frame<'a>>, EvalFault>
    ensures { Gives tuples_of result
        (Ok (numbered_from (with_number variable.now) 1 (tuples_of frames.entry))) }
{
    let count = frames.len();
    let mut out = Vec::with_capacity(alloc, count)?;
    let mut n = 0;
    for frame in frames {
        n += 1;
        out.push(with_slot(alloc, frame, variable.name, number_value(n))?)?;
    }
    Ok(out)
}
