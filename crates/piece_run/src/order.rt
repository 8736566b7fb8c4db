//! The clauses of a stage on tuples, below a limit, and `order by` at its end.

ghost use Rattle.std.specs.Prelude.{◌≡◌, ◌+◌, ◌<◌, ◌≤◌, length, IfOk};
ghost use Rattle.query_tree.specs.BoundViews.{bound_clauses, bound_order_keys};
ghost use Rattle.query_meaning.specs.Orders.{column_places};
ghost use Rattle.query_meaning.specs.inside.Evaluates.{Evaluates};
ghost use Rattle.query_meaning.specs.inside.Views.{environment_of, eval_in};
ghost use Rattle.stage_laws.specs.Pieces.{told_below};
ghost use Rattle.clause_stages.specs.Steps.{clauses_stage};
ghost use Rattle.clause_stages.specs.Ends.{orders_step};
ghost use Rattle.clause_eval.specs.Frames.{tuples_of};
ghost use Rattle.piece_outcomes.specs.Orders.{IsWide};
ghost use Rattle.piece_run.specs.Outcomes.{CameIs, passed};
ghost use Rattle.piece_run.specs.Ordering.{OrderOutcomeIs, IsOrderOutcomeOf, OrderEndsAs};

use crate::came::CameOut;
use crate::counts::with_count;
use crate::ordering::{OrderedTuples, Ordering, ordered_tuples};
use crate::stage::NarrowSteps;
use clause_eval::{Evaluator, Frame, Progress, Told, column_places};
use item_tree::NoMemory;
use order_runs::ClassSeen;
use piece_outcomes::{OrderCounted, OrderOutcome};
use piece_seats::ItemsKept;
use query_meaning::{Env, EvalFault, Value};
use query_tree::{BoundExpr, OrderKey};
use std::alloc::Global;

/// The places of the keys, in order.
pub(crate) fn places_of(alloc: Global, keys: &[OrderKey<BoundExpr>]) -> Result<Vec<u32>, NoMemory>
    ensures { IfOk result (λ v. v.items ≡ column_places (bound_order_keys keys.now)) }
{
    match column_places(alloc, keys) {
        Ok(places) => Ok(places),
        Err(_) => Err(NoMemory),
    }
}

// Tuples that all came through, with their keys, where these are found at this limit.
fn orders_at<
    'a,
    I: ItemsKept,
    F: for<'s, 'b> Fn(Global, &BoundExpr, &Env<'s, 'b>) -> Result<Value<'b>, EvalFault>,
>(
    evaluator: &Evaluator<F>,
    at: u32,
    limit: u32,
    keys: &[OrderKey<BoundExpr>],
    tuples: Vec<Frame<'a>>,
    env: &Env<'_, 'a>,
) -> Result<OrderOutcome<CameOut<'a, I>>, NoMemory>
    requires below { limit ≤ at + 1 }
    requires evaluates { Evaluates env.now.depth (F.pre evaluator.now.inner)
        (F.post evaluator.now.inner) }
    ensures outcome { IfOk result (λ o. OrderOutcomeIs (CameIs I.stands) o (told_below (at + 1)
        limit ((orders_step (eval_in env.now) (bound_order_keys keys.now) (environment_of env.now)
        at).run (tuples_of tuples.entry)))) }
    ensures wide { IfOk result (IsWide (length keys.now)) }
{
    if limit <= at {
        return Ok(OrderOutcome::Clean);
    }
    let places = places_of(evaluator.alloc, keys)?;
    match ordered_tuples(evaluator, at, keys, places.as_slice(), tuples, env)? {
        Ordering::All(OrderedTuples { entries, seen }) => {
            let came = CameOut {
                tuples: Vec::new(evaluator.alloc),
                keyed: entries,
                items: I::nothing(evaluator.alloc),
            };
            Ok(OrderOutcome::Whole(came, seen))
        }
        Ordering::Met(m, seen) => Ok(OrderOutcome::Met(m, seen)),
    }
}

// What `order by` makes of what was told of the clauses before it.
fn orders_told<
    'a,
    I: ItemsKept,
    F: for<'s, 'b> Fn(Global, &BoundExpr, &Env<'s, 'b>) -> Result<Value<'b>, EvalFault>,
>(
    evaluator: &Evaluator<F>,
    at: u32,
    limit: u32,
    keys: &[OrderKey<BoundExpr>],
    progress: Progress<'a>,
    env: &Env<'_, 'a>,
) -> Result<OrderCounted<CameOut<'a, I>>, NoMemory>
    requires below { limit ≤ at + 1 }
    requires first { progress.into.first ≤ at }
    requires fits { at < progress.into.first + length progress.into.taken.items }
    requires evaluates { Evaluates env.now.depth (F.pre evaluator.now.inner)
        (F.post evaluator.now.inner) }
    ensures ends { IfOk result (OrderEndsAs (CameIs I.stands) at limit (orders_step
        (eval_in env.now) (bound_order_keys keys.now) (environment_of env.now) at)
        (passed progress.entry)) }
    ensures wide { IfOk result (λ out. IsWide (length keys.now) out.outcome) }
    ensures first { IfOk result (λ out. out.into.first ≡ progress.entry.into.first) }
{
    let Progress { what, into } = progress;
    match what {
        Told::Whole(tuples, _value) => {
            let into = with_count(into, at, tuples.len());
            let outcome = orders_at(evaluator, at, limit, keys, tuples, env)?;
            Ok(OrderCounted { outcome, into })
        }
        Told::Met(m) => {
            let seen = ClassSeen::new(evaluator.alloc, keys.len())?;
            Ok(OrderCounted {
                outcome: OrderOutcome::Met(m, seen),
                into,
            })
        }
        Told::Clear(_) => Ok(OrderCounted {
            outcome: OrderOutcome::Clean,
            into,
        }),
    }
}

impl<'q> NarrowSteps<'q> {
    /// What the clauses and `order by` make of tuples below a limit: the tuples with their keys and
    /// the classes of these, which are not sorted yet.
    pub fn carry_ordered<
        'a,
        I: ItemsKept,
        F: for<'s, 'b> Fn(Global, &BoundExpr, &Env<'s, 'b>) -> Result<Value<'b>, EvalFault>,
    >(
        &self,
        evaluator: &Evaluator<F>,
        keys: &[OrderKey<BoundExpr>],
        frames: Vec<Frame<'a>>,
        limit: u32,
        env: &Env<'_, 'a>,
    ) -> Result<OrderCounted<CameOut<'a, I>>, NoMemory>
        requires below { limit ≤ self.now.first + length self.now.clauses.now + 1 }
        requires evaluates { Evaluates env.now.depth (F.pre evaluator.now.inner)
            (F.post evaluator.now.inner) }
        ensures outcome { IfOk result (IsOrderOutcomeOf (CameIs I.stands) self.now.first
            (self.now.first + length self.now.clauses.now) (clauses_stage (eval_in env.now)
            self.now.first (bound_clauses self.now.clauses.now) (environment_of env.now)
            (orders_step (eval_in env.now) (bound_order_keys keys.now) (environment_of env.now)))
            (tuples_of frames.entry) limit) }
        ensures wide { IfOk result (λ out. IsWide (length keys.now) out.outcome) }
        ensures first { IfOk result (λ out. out.into.first ≡ self.now.first) }
    {
        let progress = self.through(evaluator, frames, limit, env)?;
        let out = orders_told(evaluator, self.last(), limit, keys, progress, env)?;
        Ok(out)
    }
}
