//! `group by` as the end of a stage: the keys of each tuple.

ghost use Rattle.std.specs.Prelude.{◌≡◌, ◌++◌, ◌∷◌, [], length, IfOk};
ghost use Rattle.query_tree.specs.BoundViews.{bound_group_vars};
ghost use Rattle.query_meaning.specs.inside.Evaluates.{Evaluates};
ghost use Rattle.query_meaning.specs.inside.Views.{environment_of, eval_in};
ghost use Rattle.stage_laws.specs.Runs.{with_front, met_at, each_from};
ghost use Rattle.clause_stages.specs.Ends.{group_keyed};
ghost use Rattle.clause_eval.specs.Frames.{frame_tuple, tuples_of, keyed_of, entries_of};
ghost use Rattle.clause_eval.specs.Grouping.{HasKeys, AllHaveKeys};
ghost use Rattle.piece_run.specs.Keying.{KeyedIs, AllKeyedBy};

use clause_eval::{Evaluator, Frame};
use item_tree::{Item, NoMemory};
use piece_outcomes::MetFault;
use query_meaning::{Env, EvalFault, Value};
use query_tree::{BoundExpr, GroupVar, Slot};
use std::alloc::Global;

// All tuples with their keys, or the first fault.
#[derive(Drop)]
pub(crate) enum KeyedTuples<'a> {
    All(Vec<(Vec<Option<Item>>, Frame<'a>)>),
    Met(MetFault),
}

// One more tuple with so many keys.
#[tactic(auto, using(crate::proofs::KeysNext::have_keys_behind))]
fn with_entry<'a>(
    count: usize,
    entry: (Vec<Option<Item>>, Frame<'a>),
    out: Vec<(Vec<Option<Item>>, Frame<'a>)>,
) -> Result<Vec<(Vec<Option<Item>>, Frame<'a>)>, NoMemory>
    requires entry { HasKeys count entry }
    requires out { AllHaveKeys count out.items }
    ensures value { IfOk result (λ v. entries_of v
        ≡ entries_of out.entry ++ keyed_of entry.entry ∷ []) }
    ensures keys { IfOk result (λ v. AllHaveKeys count v.items) }
{
    let _count = count;
    let mut out = out;
    out.push(entry)?;
    Ok(out)
}

// One more tuple with its keys, at this position.
fn next_keyed<
    'a,
    F: for<'s, 'b> Fn(Global, &BoundExpr, &Env<'s, 'b>) -> Result<Value<'b>, EvalFault>,
>(
    evaluator: &Evaluator<F>,
    at: u32,
    position: u64,
    keys: &[GroupVar<Slot, BoundExpr>],
    frame: Frame<'a>,
    out: Vec<(Vec<Option<Item>>, Frame<'a>)>,
    env: &Env<'_, 'a>,
) -> Result<KeyedTuples<'a>, NoMemory>
    requires out { AllHaveKeys (length keys.now) out.items }
    requires evaluates { Evaluates env.now.depth (F.pre evaluator.now.inner)
        (F.post evaluator.now.inner) }
    ensures value { IfOk result (KeyedIs (with_front (entries_of out.entry) (met_at at position
        (group_keyed (eval_in env.now) (bound_group_vars keys.now) (environment_of env.now)
        (frame_tuple frame.entry))))) }
    ensures keys { IfOk result (AllKeyedBy (length keys.now)) }
{
    match evaluator.group_keys(keys, frame, env) {
        Ok(entry) => {
            let out = with_entry(keys.len(), entry, out)?;
            Ok(KeyedTuples::All(out))
        }
        Err(EvalFault::Raised(fault)) => Ok(KeyedTuples::Met(MetFault {
            step: at,
            tuple: position,
            fault,
        })),
        Err(EvalFault::NoMemory) => Err(NoMemory),
    }
}

// The tuples with their keys, where these are found in the step of this number.
#[tactic(auto, using(crate::proofs::KeysNext::front_next))]
pub(crate) fn keyed_tuples<
    'a,
    F: for<'s, 'b> Fn(Global, &BoundExpr, &Env<'s, 'b>) -> Result<Value<'b>, EvalFault>,
>(
    evaluator: &Evaluator<F>,
    at: u32,
    keys: &[GroupVar<Slot, BoundExpr>],
    frames: Vec<Frame<'a>>,
    env: &Env<'_, 'a>,
) -> Result<KeyedTuples<'a>, NoMemory>
    requires { Evaluates env.now.depth (F.pre evaluator.now.inner) (F.post evaluator.now.inner) }
    ensures value { IfOk result (KeyedIs (each_from at (group_keyed (eval_in env.now)
        (bound_group_vars keys.now) (environment_of env.now)) 1 (tuples_of frames.entry))) }
    ensures keys { IfOk result (AllKeyedBy (length keys.now)) }
{
    let count = frames.len();
    let mut out = Vec::with_capacity(evaluator.alloc, count)?;
    let mut position = 0;
    for frame in frames {
        position += 1;
        match next_keyed(evaluator, at, position, keys, frame, out, env)? {
            KeyedTuples::All(more) => out = more,
            KeyedTuples::Met(m) => return Ok(KeyedTuples::Met(m)),
        }
    }
    Ok(KeyedTuples::All(out))
}
