//! Narrow clauses, which make of each tuple the same wherever it stands: `for`, `let` and `where`.

ghost use Rattle.std.specs.Prelude.{◌≡◌, ◌+◌, ◌<◌, ◌≤◌, ◌^◌, ℕ, List, true, length, take, IfOk};
ghost use Rattle.query_tree.specs.BoundViews.{bound_tree, bound_clause, bound_clauses};
ghost use Rattle.query_tree.specs.declared.bound.Slot.{Slot};
ghost use Rattle.query_meaning.specs.Flwors.{flwor_from};
ghost use Rattle.query_meaning.specs.Pieces.{is_narrow, are_narrow};
ghost use Rattle.query_meaning.specs.inside.Evaluates.{Evaluates};
ghost use Rattle.query_meaning.specs.inside.Gives.{Gives};
ghost use Rattle.query_meaning.specs.inside.Views.{items_of, environment_of, eval_in};
ghost use Rattle.clause_eval.specs.Frames.{tuples_of};
ghost use Rattle.stage_laws.specs.Laws.{IsCarry};
ghost use Rattle.stage_laws.specs.Tuples.{as_told};
ghost use Rattle.clause_eval.specs.Carrying.{body_tree, stage_from, steps_of, so_far, IsLast};
ghost use Rattle.clause_eval.specs.NarrowRuns.{came_of, came_value, clauses_value, Runs};

use crate::clauses::BoundClause;
use crate::evaluator::Evaluator;
use crate::progress::{Progress, Told, opening};
use crate::tuples::Frame;
use item_tree::NoMemory;
use query_meaning::{Env, EvalFault, Value};
use query_tree::{BoundExpr, Clause};
use std::alloc::Global;

/// Whether a clause makes of each tuple the same wherever the tuple stands.
#[tactic(auto, using(query_tree::proofs::Layers::layers))]
fn is_narrow(clause: &BoundClause) -> bool
    ensures { result ≡ is_narrow (bound_clause clause.now) }
{
    match clause {
        Clause::For { .. } => true,
        Clause::Let { .. } => true,
        Clause::Where { .. } => true,
        Clause::Count { .. } => false,
        Clause::Group { .. } => false,
        Clause::Order { .. } => false,
    }
}

/// How many narrow clauses stand first.
pub(crate) fn narrow_count(clauses: &[BoundClause]) -> usize
    ensures within { result ≤ length clauses.now }
    ensures are_narrow { are_narrow (bound_clauses (take result clauses.now)) ≡ true }
{
    let mut count = 0;
    for clause in clauses {
        if is_narrow(clause) {
            count += 1;
        } else {
            return count;
        }
    }
    count
}

// The number behind that of the last step, where clauses from this number on and `return`, if it is
// there, are the steps.
fn past(number: u32, clauses: &[BoundClause], body: Option<&BoundExpr>) -> u32
    requires { number + length clauses.now + 1 < 2 ^ 32 }
    ensures { result ≡ number + length clauses.now + steps_of (body_tree body.entry) }
{
    let count = clauses.len() as u32;
    match body {
        None => number + count,
        Some(_) => number + count + 1,
    }
}

impl<F: for<'s, 'a> Fn(Global, &BoundExpr, &Env<'s, 'a>) -> Result<Value<'a>, EvalFault>> Evaluator<
    F,
> {
    /// Runs narrow clauses on tuples, and after them `return`, if it is there, as steps numbered
    /// from this one on. Only steps below the limit are run, and all where it is one past the last
    /// step. After a fault only the steps before it go on, since their faults go first. It answers
    /// only want of memory as an error.
    pub fn run_narrow<'a>(
        &self,
        number: u32,
        clauses: &[BoundClause],
        body: Option<&BoundExpr>,
        limit: u32,
        frames: Vec<Frame<'a>>,
        env: &Env<'_, 'a>,
    ) -> Result<Progress<'a>, NoMemory>
        requires count { number + length clauses.now + 1 < 2 ^ 32 }
        requires below { limit ≤ number + length clauses.now + steps_of (body_tree body) }
        requires are_narrow { are_narrow (bound_clauses clauses.now) ≡ true }
        requires evaluates { Evaluates env.now.depth (F.pre self.now.inner)
            (F.post self.now.inner) }
        ensures runs { IfOk result (λ p. (last : ℕ)
            → IsLast number clauses.now (body_tree body.entry) last
            → (stream : List Slot) → Runs (eval_in env.now) number stream
            (bound_clauses clauses.now) (body_tree body.entry) (environment_of env.now) last limit
            (tuples_of frames.entry) p) }
        ensures carry { IfOk result (λ p. (last : ℕ)
            → IsLast number clauses.now (body_tree body.entry) last
            → IsCarry number last (stage_from (eval_in env.now) number (bound_clauses clauses.now)
            (body_tree body.entry) (environment_of env.now)) (tuples_of frames.entry) limit
            (as_told (so_far p))) }
        ensures first { IfOk result (λ p. p.into.first ≡ number) }
        ensures counts { IfOk result (λ p. length p.into.taken.items
            ≡ length clauses.now + steps_of (body_tree body.entry) + 1) }
    {
        let full = past(number, clauses, body);
        let mut progress = opening(self.alloc, number, full, limit)?;
        self.carry_all(number, clauses, body, frames, &mut progress, env)?;
        Ok(progress)
    }

    // Runs all clauses on tuples.
    fn narrow_value<'a>(
        &self,
        number: u32,
        clauses: &[BoundClause],
        body: Option<&BoundExpr>,
        frames: Vec<Frame<'a>>,
        env: &Env<'_, 'a>,
    ) -> Result<(Vec<Frame<'a>>, Value<'a>), EvalFault>
        requires first { 0 < number }
        requires count { number + length clauses.now + 1 < 2 ^ 32 }
        requires are_narrow { are_narrow (bound_clauses clauses.now) ≡ true }
        requires evaluates { Evaluates env.now.depth (F.pre self.now.inner)
            (F.post self.now.inner) }
        ensures { (stream : List Slot) → Gives came_of result (came_value (eval_in env.now) number
            stream (bound_clauses clauses.now) (body_tree body.entry) (environment_of env.now)
            (tuples_of frames.entry)) }
    {
        let full = past(number, clauses, body);
        let progress = self.run_narrow(number, clauses, body, full, frames, env)?;
        let Progress { what, into: _into } = progress;
        match what {
            Told::Whole(tuples, items) => Ok((tuples, items)),
            Told::Met(met) => Err(EvalFault::Raised(met.fault).at_tuple(met.step, met.tuple)),
            Told::Clear(_) => Err(EvalFault::NoMemory),
        }
    }

    /// The tuples that narrow clauses give.
    #[tactic(auto, using(crate::proofs::NarrowRuns::tuples_of_came))]
    #[inline(never)]
    pub(crate) fn narrow_tuples<'a>(
        &self,
        number: u32,
        clauses: &[BoundClause],
        frames: Vec<Frame<'a>>,
        env: &Env<'_, 'a>,
    ) -> Result<Vec<Frame<'a>>, EvalFault>
        requires first { 0 < number }
        requires count { number + length clauses.now + 1 < 2 ^ 32 }
        requires are_narrow { are_narrow (bound_clauses clauses.now) ≡ true }
        requires evaluates { Evaluates env.now.depth (F.pre self.now.inner)
            (F.post self.now.inner) }
        ensures { (stream : List Slot) → Gives tuples_of result (clauses_value (eval_in env.now)
            number stream (bound_clauses clauses.now) (environment_of env.now)
            (tuples_of frames.entry)) }
    {
        let (tuples, _items) = self.narrow_value(number, clauses, None, frames, env)?;
        Ok(tuples)
    }

    /// The items of `return` behind narrow clauses.
    #[tactic(auto, using(crate::proofs::NarrowRuns::items_of_came))]
    pub(crate) fn narrow_items<'a>(
        &self,
        number: u32,
        clauses: &[BoundClause],
        body: &BoundExpr,
        frames: Vec<Frame<'a>>,
        env: &Env<'_, 'a>,
    ) -> Result<Value<'a>, EvalFault>
        requires first { 0 < number }
        requires count { number + length clauses.now + 1 < 2 ^ 32 }
        requires are_narrow { are_narrow (bound_clauses clauses.now) ≡ true }
        requires evaluates { Evaluates env.now.depth (F.pre self.now.inner)
            (F.post self.now.inner) }
        ensures { (stream : List Slot) → Gives items_of result (flwor_from (eval_in env.now)
            number stream (bound_clauses clauses.now) (bound_tree body.now)
            (environment_of env.now) (tuples_of frames.entry)) }
    {
        let (_tuples, items) = self.narrow_value(number, clauses, Some(body), frames, env)?;
        Ok(items)
    }
}
