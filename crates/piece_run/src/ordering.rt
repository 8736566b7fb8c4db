//! `order by` as the end of a stage: the keys of each tuple, compared with those before it.

ghost use Rattle.std.specs.Prelude.{◌≡◌, ◌∷◌, [], length, get_or, Ok, IfOk};
ghost use Rattle.query_tree.specs.BoundViews.{bound_order_keys};
ghost use Rattle.tuple_rows.specs.Keys.{key_list};
ghost use Rattle.query_meaning.specs.Orders.{column_places};
ghost use Rattle.query_meaning.specs.inside.Evaluates.{Evaluates};
ghost use Rattle.query_meaning.specs.inside.Views.{environment_of, eval_in};
ghost use Rattle.stage_laws.specs.Runs.{keyed_from, unless_clash};
ghost use Rattle.stage_laws.specs.Ends.{in_front, keys_of};
ghost use Rattle.clause_stages.specs.Ends.{tuple_keys, column_fault, order_clash};
ghost use Rattle.clause_eval.specs.Frames.{frame_tuple, tuples_of, keyed_list};
ghost use Rattle.piece_run.specs.Ordering.{IsOrdered, OrderingIs, AllOrderedBy};

use clause_eval::{Evaluator, Frame, clash, column_places};
use item_tree::{Code, Fault, Item, NoMemory};
use order_runs::ClassSeen;
use piece_outcomes::MetFault;
use query_meaning::{Env, EvalFault, Value};
use query_tree::{BoundExpr, OrderKey};
use std::alloc::Global;

// Tuples with their keys, and the classes of the keys.
#[derive(Drop)]
pub(crate) struct OrderedTuples<'a> {
    pub entries: Vec<(Vec<Option<Item>>, Frame<'a>)>,
    pub seen: ClassSeen,
}

// All tuples with their keys; or the first fault, and the classes of the keys up to there.
#[derive(Drop)]
pub(crate) enum Ordering<'a> {
    All(OrderedTuples<'a>),
    Met(MetFault, ClassSeen),
}

// The place of a column.
fn place_of(places: &[u32], column: u32) -> u32
    ensures { result ≡ get_or places.now column 0 }
{
    match places.get(column as usize) {
        Some(place) => *place,
        None => 0,
    }
}

// One more tuple, whose keys go with those before it; or its keys clash in a column.
fn placed<'a>(
    at: u32,
    position: u64,
    places: &[u32],
    column: Option<u32>,
    found: Vec<Option<Item>>,
    frame: Frame<'a>,
    ordered: OrderedTuples<'a>,
) -> Result<Ordering<'a>, NoMemory>
    requires stands { IsOrdered (length found.items) ordered }
    ensures value { IfOk result (OrderingIs (in_front (keyed_list ordered.entry.entries.items)
        (unless_clash at position (frame_tuple frame.entry) (key_list found)
        (column_fault places.now column) (Ok [])))) }
    ensures stands { IfOk result (AllOrderedBy (length found.items)) }
{
    let OrderedTuples {
        mut entries,
        mut seen,
    } = ordered;
    if seen.tuples() + 1 >= ClassSeen::MOST_TUPLES {
        return Err(NoMemory);
    }
    seen.note(found.as_slice());
    match column {
        None => {
            entries.push((found, frame))?;
            Ok(Ordering::All(OrderedTuples { entries, seen }))
        }
        Some(column) => {
            let fault = Fault::at(Code::XPTY0004, place_of(places, column));
            let met = MetFault {
                step: at,
                tuple: position,
                fault,
            };
            Ok(Ordering::Met(met, seen))
        }
    }
}

// One more tuple with its keys, at this position.
fn next_ordered<
    'a,
    F: for<'s, 'b> Fn(Global, &BoundExpr, &Env<'s, 'b>) -> Result<Value<'b>, EvalFault>,
>(
    evaluator: &Evaluator<F>,
    at: u32,
    position: u64,
    keys: &[OrderKey<BoundExpr>],
    places: &[u32],
    frame: Frame<'a>,
    ordered: OrderedTuples<'a>,
    env: &Env<'_, 'a>,
) -> Result<Ordering<'a>, NoMemory>
    requires places { places.now ≡ column_places (bound_order_keys keys.now) }
    requires stands { IsOrdered (length keys.now) ordered }
    requires evaluates { Evaluates env.now.depth (F.pre evaluator.now.inner)
        (F.post evaluator.now.inner) }
    ensures value { IfOk result (OrderingIs (in_front (keyed_list ordered.entry.entries.items)
        (keyed_from at (tuple_keys (eval_in env.now) (bound_order_keys keys.now)
        (environment_of env.now)) (order_clash (bound_order_keys keys.now))
        (keys_of (keyed_list ordered.entry.entries.items)) position
        (frame_tuple frame.entry ∷ [])))) }
    ensures stands { IfOk result (AllOrderedBy (length keys.now)) }
{
    match evaluator.order_keys(keys, &frame, env) {
        Ok(found) => match clash(evaluator.alloc, found.as_slice(), &ordered.seen) {
            Ok(column) => placed(at, position, places, column, found, frame, ordered),
            Err(_) => Err(NoMemory),
        },
        Err(EvalFault::Raised(fault)) => {
            let met = MetFault {
                step: at,
                tuple: position,
                fault,
            };
            Ok(Ordering::Met(met, ordered.seen))
        }
        Err(EvalFault::NoMemory) => Err(NoMemory),
    }
}

// The tuples with their keys, where these are found in the step of this number.
#[tactic(auto, using(crate::proofs::OrderedNext::next_kept, crate::proofs::OrderedNext::nothing_front))]
pub(crate) fn ordered_tuples<
    'a,
    F: for<'s, 'b> Fn(Global, &BoundExpr, &Env<'s, 'b>) -> Result<Value<'b>, EvalFault>,
>(
    evaluator: &Evaluator<F>,
    at: u32,
    keys: &[OrderKey<BoundExpr>],
    places: &[u32],
    frames: Vec<Frame<'a>>,
    env: &Env<'_, 'a>,
) -> Result<Ordering<'a>, NoMemory>
    requires places { places.now ≡ column_places (bound_order_keys keys.now) }
    requires evaluates { Evaluates env.now.depth (F.pre evaluator.now.inner)
        (F.post evaluator.now.inner) }
    ensures value { IfOk result (OrderingIs (keyed_from at (tuple_keys (eval_in env.now)
        (bound_order_keys keys.now) (environment_of env.now))
        (order_clash (bound_order_keys keys.now)) [] 1 (tuples_of frames.entry))) }
    ensures stands { IfOk result (AllOrderedBy (length keys.now)) }
{
    let count = frames.len();
    let mut ordered = OrderedTuples {
        entries: Vec::with_capacity(evaluator.alloc, count)?,
        seen: ClassSeen::new(evaluator.alloc, keys.len())?,
    };
    let mut position = 0;
    for frame in frames {
        position += 1;
        match next_ordered(evaluator, at, position, keys, places, frame, ordered, env)? {
            Ordering::All(more) => ordered = more,
            Ordering::Met(m, seen) => return Ok(Ordering::Met(m, seen)),
        }
    }
    Ok(Ordering::All(ordered))
}
