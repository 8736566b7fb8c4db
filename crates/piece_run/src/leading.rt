//! The `let`s before a driver, which are evaluated once.

ghost use Rattle.std.specs.Prelude.{◌≡◌, ◌<◌, ◌+◌, ◌^◌, [], ◌∷◌, length, IfOk};
ghost use Rattle.query_tree.specs.BoundViews.{bound_clauses};
ghost use Rattle.query_meaning.specs.inside.Evaluates.{Evaluates};
ghost use Rattle.query_meaning.specs.inside.Gives.{Gives};
ghost use Rattle.query_meaning.specs.inside.Views.{environment_of, eval_in};
ghost use Rattle.clause_eval.specs.Frames.{frame_tuple, tuples_of};
ghost use Rattle.clause_eval.specs.NarrowRuns.{clauses_value};
ghost use Rattle.piece_run.specs.Leading.{AreLets, one_tuple};

use clause_eval::{BoundClause, Evaluator, Frame};
use item_tree::NoMemory;
use query_meaning::{Env, EvalFault, Value};
use query_tree::BoundExpr;
use std::alloc::Global;

// One tuple.
fn one_frame<'a>(alloc: Global, frame: Frame<'a>) -> Result<Vec<Frame<'a>>, NoMemory>
    ensures { IfOk result (λ v. tuples_of v ≡ frame_tuple frame.entry ∷ []) }
{
    let mut frames = Vec::with_capacity(alloc, 1)?;
    frames.push(frame)?;
    Ok(frames)
}

// The one tuple that there is.
fn only_frame<'a>(frames: Vec<Frame<'a>>) -> Frame<'a>
    requires { length frames.items ≡ 1 }
    ensures { tuples_of frames.entry ≡ frame_tuple result ∷ [] }
{
    let mut frames = frames;
    match frames.pop() {
        Some(frame) => frame,
        None => unreachable!(),
    }
}

// The tuples that the first clauses of a FLWOR give, one clause after the other.
fn passed<'a, F: for<'s, 'b> Fn(Global, &BoundExpr, &Env<'s, 'b>) -> Result<Value<'b>, EvalFault>>(
    evaluator: &Evaluator<F>,
    clauses: &[BoundClause],
    first: Vec<Frame<'a>>,
    env: &Env<'_, 'a>,
) -> Result<Vec<Frame<'a>>, EvalFault>
    requires few { length clauses.now < 2 ^ 32 }
    requires evaluates { Evaluates env.now.depth (F.pre evaluator.now.inner)
        (F.post evaluator.now.inner) }
    ensures { Gives tuples_of result (clauses_value (eval_in env.now) 1 []
        (bound_clauses clauses.now) (environment_of env.now) (tuples_of first.entry)) }
{
    let mut frames = first;
    'passing: for (index, clause) in clauses.iter().enumerate() {
        let before = &clauses[..index];
        frames = match evaluator.clause(index as u32 + 1, before, clause, frames, env) {
            Ok(next) => next,
            Err(fault) => return Err(fault),
        };
    }
    Ok(frames)
}

/// The tuple that `let`s make of this one, which are the first clauses of a FLWOR.
pub(crate) fn leading_frame<
    'a,
    F: for<'s, 'b> Fn(Global, &BoundExpr, &Env<'s, 'b>) -> Result<Value<'b>, EvalFault>,
>(
    evaluator: &Evaluator<F>,
    lets: &[BoundClause],
    first: Frame<'a>,
    env: &Env<'_, 'a>,
) -> Result<Frame<'a>, EvalFault>
    requires few { length lets.now < 2 ^ 32 }
    requires lets { AreLets lets.now }
    requires evaluates { Evaluates env.now.depth (F.pre evaluator.now.inner)
        (F.post evaluator.now.inner) }
    ensures { Gives one_tuple result (clauses_value (eval_in env.now) 1 []
        (bound_clauses lets.now) (environment_of env.now) (frame_tuple first.entry ∷ [])) }
{
    let first = one_frame(evaluator.alloc, first)?;
    let frames = passed(evaluator, lets, first, env)?;
    Ok(only_frame(frames))
}
