//! FLWOR expressions: tuples go one by one through narrow clauses, and each other clause takes the
//! whole list.

ghost use Rattle.std.specs.Prelude.{◌≡◌, ◌+◌, ◌≤◌, length, take, drop};
ghost use Rattle.query_tree.specs.BoundViews.{bound_tree, bound_clause, bound_clauses};
ghost use Rattle.query_tree.specs.Scoped.{clause_slots};
ghost use Rattle.query_meaning.specs.Clauses.{clause_value};
ghost use Rattle.query_meaning.specs.Flwors.{flwor_from, flwor_value};
ghost use Rattle.query_meaning.specs.inside.Evaluates.{Evaluates};
ghost use Rattle.query_meaning.specs.inside.Gives.{Gives};
ghost use Rattle.query_meaning.specs.inside.Views.{items_of, environment_of, eval_in};
ghost use Rattle.clause_eval.specs.Frames.{tuples_of};

use crate::clauses::BoundClause;
use crate::evaluator::Evaluator;
use crate::narrow::narrow_count;
use crate::tuples::{Frame, frame_again, pushed};
use query_meaning::{Env, EvalFault, Value};
use query_tree::{BoundExpr, Clause};
use std::alloc::Global;

impl<F: for<'s, 'a> Fn(Global, &BoundExpr, &Env<'s, 'a>) -> Result<Value<'a>, EvalFault>> Evaluator<
    F,
> {
    /// A clause of this number behind others.
    #[tactic(auto, using(query_tree::proofs::Layers::layers))]
    #[inline(never)]
    pub fn clause<'a>(
        &self,
        number: u32,
        before: &[BoundClause],
        clause: &BoundClause,
        frames: Vec<Frame<'a>>,
        env: &Env<'_, 'a>,
    ) -> Result<Vec<Frame<'a>>, EvalFault>
        requires { Evaluates env.now.depth (F.pre self.now.inner) (F.post self.now.inner) }
        ensures { Gives tuples_of result (clause_value (eval_in env.now) number
            (clause_slots (bound_clauses before.now)) (bound_clause clause.now)
            (environment_of env.now) (tuples_of frames.entry)) }
    {
        match clause {
            Clause::Group { keys, .. } => self.group(number, before, keys, frames, env),
            Clause::Order { keys, .. } => self.order(number, keys, frames, env),
            Clause::For { .. } => self.one_by_one(number, clause, frames, env),
            Clause::Let { .. } => self.one_by_one(number, clause, frames, env),
            Clause::Where { .. } => self.one_by_one(number, clause, frames, env),
            Clause::Count { .. } => self.one_by_one(number, clause, frames, env),
        }
    }

    /// The clauses after the first ones, which these tuples have passed, and `return`: narrow ones
    /// tuple by tuple, and each other one on the whole list.
    pub fn flwor_rest<'a>(
        &self,
        passed: usize,
        clauses: &[BoundClause],
        body: &BoundExpr,
        first: Vec<Frame<'a>>,
        env: &Env<'_, 'a>,
    ) -> Result<Value<'a>, EvalFault>
        requires within { passed ≤ length clauses.now }
        requires evaluates { Evaluates env.now.depth (F.pre self.now.inner)
            (F.post self.now.inner) }
        ensures { Gives items_of result (flwor_from (eval_in env.now) (passed + 1)
            (clause_slots (bound_clauses (take passed clauses.now)))
            (bound_clauses (drop passed clauses.now)) (bound_tree body.now)
            (environment_of env.now) (tuples_of first.entry)) }
    {
        if clauses.len() + 1 >= u32::MAX as usize {
            return Err(EvalFault::NoMemory);
        }
        let mut frames = first;
        let mut index = passed;
        loop {
            let rest = &clauses[index..];
            let count = narrow_count(rest);
            if count == rest.len() {
                return self.narrow_items(index as u32 + 1, rest, body, frames, env);
            }
            let narrow = &rest[..count];
            let end = index + count;
            let next = match self.narrow_tuples(index as u32 + 1, narrow, frames, env) {
                Ok(next) => next,
                Err(fault) => return Err(fault),
            };
            let before = &clauses[..end];
            let clause = &clauses[end];
            frames = match self.clause(end as u32 + 1, before, clause, next, env) {
                Ok(gathered) => gathered,
                Err(fault) => return Err(fault),
            };
            index = end + 1;
        }
    }

    /// A FLWOR expression.
    #[tactic(auto, unfolding(query_meaning::specs::Flwors::flwor_value, query_meaning::specs::inside::Views::environment_of))]
    pub fn flwor<'a>(
        &self,
        clauses: &[BoundClause],
        body: &BoundExpr,
        env: &Env<'_, 'a>,
    ) -> Result<Value<'a>, EvalFault>
        requires { Evaluates env.now.depth (F.pre self.now.inner) (F.post self.now.inner) }
        ensures { Gives items_of result (flwor_value (eval_in env.now)
            (bound_clauses clauses.now) (bound_tree body.now) (environment_of env.now)) }
    {
        let frame = frame_again(self.alloc, env.frame)?;
        let first = pushed(Vec::new(self.alloc), frame)?;
        self.flwor_rest(0, clauses, body, first, env)
    }
}
