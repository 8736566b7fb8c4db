//! The tuples that a `for` makes of one tuple.

ghost use Rattle.std.specs.Prelude.{◌≡◌, ◌++◌, [], ◌∷◌, Ok};
ghost use Rattle.item_tree.specs.Item.{datum, datums};
ghost use Rattle.query_meaning.specs.Clauses.{with_position, bound_tuple, bound_tuples};
ghost use Rattle.query_meaning.specs.Outcome.{with_front, each_from};
ghost use Rattle.query_meaning.specs.inside.Gives.{Gives};
ghost use Rattle.query_meaning.specs.inside.Views.{items_of, tuple_of, values_of};
ghost use Rattle.clause_eval.specs.Frames.{frame_tuple, tuples_of};
ghost use Rattle.clause_eval.specs.OneByOne.{bound_item};

use crate::checks::typed;
use crate::results::nothing;
use crate::tuples::{Frame, frame_again, frame_lent, number_value, pushed, with_slot};
use item_tree::Item;
use query_meaning::{EvalFault, Value};
use query_tree::{Placed, Slot};
use seq_types::SeqType;
use std::alloc::Global;

/// What a `for` binds.
#[derive(Clone, Copy)]
pub struct Binding<'q> {
    /// Its variable.
    pub variable: &'q Placed<Slot>,
    /// The type that is declared of the variable.
    pub of: &'q Option<Placed<SeqType>>,
    /// The variable of the position.
    pub at: &'q Option<Placed<Slot>>,
}

// The tuple in which the variable of the position, if there is one, has this number.
fn positioned<'a>(
    alloc: Global,
    at: &Option<Placed<Slot>>,
    n: u64,
    frame: Frame<'a>,
) -> Result<Frame<'a>, EvalFault>
    ensures { Gives frame_tuple result (Ok (with_position (frame_tuple frame.entry) at.now n)) }
{
    match at {
        None => Ok(frame),
        Some(variable) => with_slot(alloc, frame, variable.name, number_value(n)),
    }
}

// The tuple of a value.
#[tactic(auto, unfolding(query_meaning::specs::Clauses::bound_tuple))]
fn bound_value<'a>(
    alloc: Global,
    by: &Binding<'_>,
    n: u64,
    value: Value<'a>,
    frame: Frame<'a>,
    out: Vec<Frame<'a>>,
) -> Result<Vec<Frame<'a>>, EvalFault>
    ensures { Gives tuples_of result (with_front (tuples_of out.entry)
        (bound_tuple by.now.variable.now
        by.now.of.now by.now.at.now (frame_tuple frame.entry) n (items_of value.entry))) }
{
    let checked = typed(by.variable.place, by.of, value)?;
    let bound = with_slot(alloc, frame, by.variable.name, checked)?;
    let bound = positioned(alloc, by.at, n, bound)?;
    pushed(out, bound)
}

// The tuple of an item.
#[tactic(auto, unfolding(crate::specs::OneByOne::bound_item))]
fn bound_item<'a>(
    alloc: Global,
    by: &Binding<'_>,
    n: u64,
    x: Item,
    frame: Frame<'a>,
    out: Vec<Frame<'a>>,
) -> Result<Vec<Frame<'a>>, EvalFault>
    ensures { Gives tuples_of result (with_front (tuples_of out.entry)
        (bound_item by.now.variable.now by.now.of.now by.now.at.now (frame_tuple frame.entry) n
        (datum x))) }
{
    bound_value(alloc, by, n, Value::One(x), frame, out)
}

// The same, where the tuple is needed again.
fn bound_copy<'a>(
    alloc: Global,
    by: &Binding<'_>,
    n: u64,
    x: &Item,
    frame: &Frame<'a>,
    out: Vec<Frame<'a>>,
) -> Result<Vec<Frame<'a>>, EvalFault>
    ensures { Gives tuples_of result (with_front (tuples_of out.entry)
        (bound_item
        by.now.variable.now by.now.of.now by.now.at.now (frame_tuple frame.now) n (datum x.now))) }
{
    let copy = frame_again(alloc, &frame.slots)?;
    bound_item(alloc, by, n, x.copy()?, copy, out)
}

// The tuples of these items, from the position 1.
fn bound_items<'a>(
    alloc: Global,
    by: &Binding<'_>,
    items: &[Item],
    frame: &Frame<'a>,
    out: Vec<Frame<'a>>,
) -> Result<Vec<Frame<'a>>, EvalFault>
    ensures { Gives tuples_of result (with_front (tuples_of out.entry)
        (each_from (bound_item by.now.variable.now by.now.of.now by.now.at.now
        (frame_tuple frame.now)) 1 (datums items.now))) }
{
    let mut out = out;
    let mut n = 0;
    for x in items {
        n += 1;
        out = bound_copy(alloc, by, n, x, frame, out)?;
    }
    Ok(out)
}

// The tuples of these items and of a last one, which takes the tuple itself.
#[tactic(auto, using(crate::proofs::Fronts::items_last))]
fn bound_all<'a>(
    alloc: Global,
    by: &Binding<'_>,
    others: &[Item],
    last: &Item,
    frame: Frame<'a>,
    out: Vec<Frame<'a>>,
) -> Result<Vec<Frame<'a>>, EvalFault>
    ensures { Gives tuples_of result (with_front (tuples_of out.entry)
        (each_from (bound_item by.now.variable.now by.now.of.now by.now.at.now
        (frame_tuple frame.entry)) 1 (datums others.now ++ datum last.now ∷ []))) }
{
    let n = others.len() as u64 + 1;
    let out = bound_items(alloc, by, others, &frame, out)?;
    bound_item(alloc, by, n, last.copy()?, frame, out)
}

// The tuple of no items.
fn bound_nothing<'a>(
    alloc: Global,
    by: &Binding<'_>,
    allowing_empty: bool,
    frame: Frame<'a>,
    out: Vec<Frame<'a>>,
) -> Result<Vec<Frame<'a>>, EvalFault>
    ensures { Gives tuples_of result (with_front (tuples_of out.entry)
        (bound_tuples by.now.variable.now
        by.now.of.now allowing_empty by.now.at.now (frame_tuple frame.entry) [])) }
{
    if allowing_empty {
        bound_value(alloc, by, 0, nothing(), frame, out)
    } else {
        Ok(out)
    }
}

/// The tuples that a `for` over these items makes of a tuple, behind others. No tuple is copied for
/// the last item.
#[inline(never)]
pub(crate) fn bound_tuples<'a>(
    alloc: Global,
    by: &Binding<'_>,
    allowing_empty: bool,
    items: &[Item],
    frame: Frame<'a>,
    out: Vec<Frame<'a>>,
) -> Result<Vec<Frame<'a>>, EvalFault>
    ensures { Gives tuples_of result (with_front (tuples_of out.entry)
        (bound_tuples by.now.variable.now
        by.now.of.now allowing_empty by.now.at.now (frame_tuple frame.entry) (datums items.now))) }
{
    match items.split_last() {
        None => bound_nothing(alloc, by, allowing_empty, frame, out),
        Some((last, others)) => bound_all(alloc, by, others, last, frame, out),
    }
}

/// The tuples that a `for` makes of items, the first of which has this position. The items are
/// moved into their tuples, and the other slots are lent from the leading tuple. Where a position
/// does not fit, memory would not do either.
pub fn bind_items<'a>(
    alloc: Global,
    by: &Binding<'_>,
    first: u64,
    items: Vec<Item>,
    leading: &'a [Value<'a>],
) -> Result<Vec<Frame<'a>>, EvalFault>
    ensures { Gives tuples_of result
        (each_from (bound_item by.now.variable.now by.now.of.now by.now.at.now
        (tuple_of leading.now)) first (values_of items)) }
{
    let count = items.len();
    let Some(_past) = first.checked_add(count as u64) else {
        return Err(EvalFault::NoMemory);
    };
    let mut out = Vec::with_capacity(alloc, count)?;
    let mut n = first;
    for x in items {
        out = bound_item(alloc, by, n, x, frame_lent(alloc, leading)?, out)?;
        n += 1;
    }
    Ok(out)
}
