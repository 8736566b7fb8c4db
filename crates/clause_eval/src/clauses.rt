//! The clauses of a FLWOR that look at one tuple at a time.

ghost use Rattle.std.specs.Prelude.{◌≡◌, List, ◌∷◌, [], Ok, if◌then◌else◌};
ghost use Rattle.query_tree.specs.declared.bound.Slot.{Slot};
ghost use Rattle.query_tree.specs.BoundViews.{bound_tree, bound_clause};
ghost use Rattle.query_meaning.specs.Checks.{truth_of};
ghost use Rattle.query_meaning.specs.Clauses.{for_tuples, let_tuples, where_tuples, count_tuples, clause_value};
ghost use Rattle.query_meaning.specs.Environment.{in_tuple};
ghost use Rattle.query_meaning.specs.Outcome.{with_front, each_from};
ghost use Rattle.query_meaning.specs.inside.Evaluates.{Evaluates};
ghost use Rattle.query_meaning.specs.inside.Gives.{Gives};
ghost use Rattle.query_meaning.specs.inside.Views.{items_of, environment_of, eval_in};
ghost use Rattle.clause_eval.specs.Frames.{frame_tuple, tuples_of};
ghost use Rattle.clause_eval.specs.OneByOne.{IsSingle, tuples_at, left_at};

use crate::bindings::{Binding, bound_tuples};
use crate::checks::typed;
use crate::evaluator::Evaluator;
use crate::tuples::{Frame, number_value, pushed, with_slot};
use query_meaning::{Env, EvalFault, Value};
use query_tree::{BoundExpr, Clause, Placed, Slot, Target};
use seq_types::SeqType;
use std::alloc::Global;

/// A clause of a compiled query.
pub type BoundClause = Clause<Slot, Target, SeqType>;

/// The environment of a tuple.
#[tactic(auto, unfolding(query_meaning::specs::inside::Views::eval_in, query_meaning::specs::inside::Views::program_of, query_meaning::specs::inside::Views::environment_of))]
pub(crate) fn at_frame<'t, 'a>(env: &Env<'t, 'a>, frame: &'t Frame<'a>) -> Env<'t, 'a>
    ensures depth { result.depth ≡ env.now.depth }
    ensures inner { eval_in result ≡ eval_in env.now }
    ensures value { environment_of result
        ≡ in_tuple (environment_of env.now) (frame_tuple frame.now) }
{
    env.with_frame(&frame.slots, env.context)
}

// A tuple behind others, if it is kept.
fn pushed_if<'a>(
    holds: bool,
    frame: Frame<'a>,
    out: Vec<Frame<'a>>,
) -> Result<Vec<Frame<'a>>, EvalFault>
    ensures { Gives tuples_of result (with_front (tuples_of out.entry)
        (Ok (if holds then frame_tuple frame.entry ∷ [] else []))) }
{
    if holds { pushed(out, frame) } else { Ok(out) }
}

#[tactic(auto, unfolding(query_meaning::specs::Clauses::count_tuples))]
fn count_tuples<'a>(
    alloc: Global,
    variable: &Placed<Slot>,
    position: u64,
    frame: Frame<'a>,
    out: Vec<Frame<'a>>,
) -> Result<Vec<Frame<'a>>, EvalFault>
    ensures { Gives tuples_of result (with_front (tuples_of out.entry)
        (count_tuples variable.now position (frame_tuple frame.entry))) }
{
    let bound = with_slot(alloc, frame, variable.name, number_value(position))?;
    pushed(out, bound)
}

impl<F: for<'s, 'a> Fn(Global, &BoundExpr, &Env<'s, 'a>) -> Result<Value<'a>, EvalFault>> Evaluator<
    F,
> {
    /// An expression of a tuple. The value outlives the tuple, so it may go into another one.
    pub(crate) fn in_frame<'a>(
        &self,
        e: &BoundExpr,
        frame: &Frame<'a>,
        env: &Env<'_, 'a>,
    ) -> Result<Value<'a>, EvalFault>
        requires { Evaluates env.now.depth (F.pre self.now.inner) (F.post self.now.inner) }
        ensures { Gives items_of result (eval_in env.now (bound_tree e.now)
            (in_tuple (environment_of env.now) (frame_tuple frame.now))) }
    {
        self.of(e, &at_frame(env, frame))
    }

    /// The effective boolean value of an expression of a tuple.
    pub(crate) fn truth_in_frame(
        &self,
        e: &BoundExpr,
        frame: &Frame<'_>,
        env: &Env<'_, '_>,
    ) -> Result<bool, EvalFault>
        requires { Evaluates env.now.depth (F.pre self.now.inner) (F.post self.now.inner) }
        ensures { Gives (λ b. b) result (truth_of (eval_in env.now) (bound_tree e.now)
            (in_tuple (environment_of env.now) (frame_tuple frame.now))) }
    {
        self.truth(e, &at_frame(env, frame))
    }

    #[tactic(auto, unfolding(query_meaning::specs::Clauses::for_tuples))]
    fn for_tuples<'a>(
        &self,
        by: &Binding<'_>,
        allowing_empty: bool,
        source: &BoundExpr,
        frame: Frame<'a>,
        out: Vec<Frame<'a>>,
        env: &Env<'_, 'a>,
    ) -> Result<Vec<Frame<'a>>, EvalFault>
        requires { Evaluates env.now.depth (F.pre self.now.inner) (F.post self.now.inner) }
        ensures { Gives tuples_of result (with_front (tuples_of out.entry) (for_tuples
            (eval_in env.now)
            by.now.variable.now by.now.of.now allowing_empty by.now.at.now (bound_tree source.now)
            (environment_of env.now) (frame_tuple frame.entry))) }
    {
        let found = self.in_frame(source, &frame, env)?;
        bound_tuples(self.alloc, by, allowing_empty, found.items(), frame, out)
    }

    #[tactic(auto, unfolding(query_meaning::specs::Clauses::let_tuples))]
    #[inline(never)]
    fn let_tuples<'a>(
        &self,
        variable: &Placed<Slot>,
        of: &Option<Placed<SeqType>>,
        e: &BoundExpr,
        frame: Frame<'a>,
        out: Vec<Frame<'a>>,
        env: &Env<'_, 'a>,
    ) -> Result<Vec<Frame<'a>>, EvalFault>
        requires { Evaluates env.now.depth (F.pre self.now.inner) (F.post self.now.inner) }
        ensures { Gives tuples_of result (with_front (tuples_of out.entry) (let_tuples
            (eval_in env.now)
            variable.now of.now (bound_tree e.now) (environment_of env.now)
            (frame_tuple frame.entry))) }
    {
        let value = self.in_frame(e, &frame, env)?;
        let checked = typed(variable.place, of, value)?;
        let bound = with_slot(self.alloc, frame, variable.name, checked)?;
        pushed(out, bound)
    }

    #[tactic(auto, unfolding(query_meaning::specs::Clauses::where_tuples))]
    #[inline(never)]
    fn where_tuples<'a>(
        &self,
        test: &BoundExpr,
        frame: Frame<'a>,
        out: Vec<Frame<'a>>,
        env: &Env<'_, 'a>,
    ) -> Result<Vec<Frame<'a>>, EvalFault>
        requires { Evaluates env.now.depth (F.pre self.now.inner) (F.post self.now.inner) }
        ensures { Gives tuples_of result (with_front (tuples_of out.entry) (where_tuples
            (eval_in env.now)
            (bound_tree test.now) (environment_of env.now) (frame_tuple frame.entry))) }
    {
        let holds = self.truth_in_frame(test, &frame, env)?;
        pushed_if(holds, frame, out)
    }

    /// The tuples that a tuple gives at a clause, behind others.
    #[tactic(auto, using(query_tree::proofs::Layers::layers, crate::proofs::Fronts::nothing_behind))]
    pub(crate) fn tuples_at<'a>(
        &self,
        clause: &BoundClause,
        position: u64,
        frame: Frame<'a>,
        out: Vec<Frame<'a>>,
        env: &Env<'_, 'a>,
    ) -> Result<Vec<Frame<'a>>, EvalFault>
        requires { Evaluates env.now.depth (F.pre self.now.inner) (F.post self.now.inner) }
        ensures { Gives tuples_of result (with_front (tuples_of out.entry) (tuples_at
            (eval_in env.now)
            (bound_clause clause.now) (environment_of env.now) position
            (frame_tuple frame.entry))) }
    {
        match clause {
            Clause::For {
                variable,
                of,
                allowing_empty,
                at,
                source,
            } => {
                let by = Binding { variable, of, at };
                self.for_tuples(&by, *allowing_empty, source, frame, out, env)
            }
            Clause::Let {
                variable,
                of,
                value,
            } => { self.let_tuples(variable, of, value, frame, out, env) }
            Clause::Where { test, .. } => self.where_tuples(test, frame, out, env),
            Clause::Count { variable, .. } => {
                count_tuples(self.alloc, variable, position, frame, out)
            }
            Clause::Group { .. } => pushed_if(false, frame, out),
            Clause::Order { .. } => pushed_if(false, frame, out),
        }
    }

    // The same, where a fault has the clause's number and the tuple's position.
    #[tactic(auto, unfolding(crate::specs::OneByOne::left_at))]
    fn left_at<'a>(
        &self,
        number: u32,
        clause: &BoundClause,
        position: u64,
        frame: Frame<'a>,
        out: Vec<Frame<'a>>,
        env: &Env<'_, 'a>,
    ) -> Result<Vec<Frame<'a>>, EvalFault>
        requires { Evaluates env.now.depth (F.pre self.now.inner) (F.post self.now.inner) }
        ensures { Gives tuples_of result (with_front (tuples_of out.entry) (left_at number
            (eval_in env.now) (bound_clause clause.now) (environment_of env.now) position
            (frame_tuple frame.entry))) }
    {
        match self.tuples_at(clause, position, frame, out, env) {
            Ok(frames) => Ok(frames),
            Err(fault) => Err(fault.at_tuple(number, position)),
        }
    }

    // The tuples that all tuples give at a clause, one after the other.
    fn each_left<'a>(
        &self,
        number: u32,
        clause: &BoundClause,
        frames: Vec<Frame<'a>>,
        env: &Env<'_, 'a>,
    ) -> Result<Vec<Frame<'a>>, EvalFault>
        requires { Evaluates env.now.depth (F.pre self.now.inner) (F.post self.now.inner) }
        ensures { Gives tuples_of result (each_from (left_at number (eval_in env.now)
            (bound_clause clause.now) (environment_of env.now)) 1 (tuples_of frames.entry)) }
    {
        let count = frames.len();
        let mut out = Vec::with_capacity(self.alloc, count)?;
        let mut position = 0;
        for frame in frames {
            position += 1;
            out = self.left_at(number, clause, position, frame, out, env)?;
        }
        Ok(out)
    }

    /// What a clause that looks at one tuple at a time gives for all of them.
    #[tactic(auto, using(crate::proofs::Stages::single_is))]
    pub(crate) fn one_by_one<'a>(
        &self,
        number: u32,
        clause: &BoundClause,
        frames: Vec<Frame<'a>>,
        env: &Env<'_, 'a>,
    ) -> Result<Vec<Frame<'a>>, EvalFault>
        requires single { IsSingle (bound_clause clause.now) }
        requires evaluates { Evaluates env.now.depth (F.pre self.now.inner)
            (F.post self.now.inner) }
        ensures { (stream : List Slot) → Gives tuples_of result (clause_value (eval_in env.now)
            number stream (bound_clause clause.now) (environment_of env.now)
            (tuples_of frames.entry)) }
    {
        self.each_left(number, clause, frames, env)
    }
}
