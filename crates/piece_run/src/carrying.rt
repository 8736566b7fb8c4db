//! The tuples of a driver, through the clauses of its stage and the end.

ghost use Rattle.std.specs.Prelude.{◌≡◌, ◌+◌, ◌≤◌, length, IfOk};
ghost use Rattle.query_tree.specs.BoundViews.{bound_order_keys};
ghost use Rattle.query_meaning.specs.inside.Evaluates.{Evaluates};
ghost use Rattle.query_meaning.specs.inside.Views.{environment_of, eval_in};
ghost use Rattle.clause_eval.specs.Frames.{tuples_of};
ghost use Rattle.piece_run.specs.Outcomes.{CameIs, IsOutcomeOf};
ghost use Rattle.piece_outcomes.specs.Orders.{IsWide};
ghost use Rattle.piece_run.specs.Ordering.{IsOrderOutcomeOf};
ghost use Rattle.piece_run.specs.Staged.{EndKeyedBy, stage_inner, stage_environment, last_step, tuples_stage, ordered_stage};

use crate::came::CameOut;
use crate::stage::{DrivenStage, NarrowSteps, StageEnd};
use clause_eval::Frame;
use item_tree::NoMemory;
use piece_outcomes::{Counted, OrderCounted};
use piece_seats::ItemsKept;
use query_meaning::{Env, EvalFault, Value};
use query_tree::{BoundExpr, OrderKey};
use std::alloc::Global;

impl<'a, F> DrivenStage<'a, F> {
    // What the stage is evaluated in.
    #[tactic(auto, unfolding(query_meaning::specs::inside::Views::eval_in, query_meaning::specs::inside::Views::program_of, query_meaning::specs::inside::Views::environment_of, crate::specs::Staged::stage_program, crate::specs::Staged::stage_inner, crate::specs::Staged::stage_environment))]
    pub(crate) fn env(&self) -> Env<'a, 'a>
        ensures depth { result.depth ≡ self.now.depth }
        ensures inner { eval_in result ≡ stage_inner self.now }
        ensures value { environment_of result ≡ stage_environment self.now }
    {
        Env::new(
            self.query,
            self.library,
            self.globals,
            self.leading,
            self.depth,
        )
    }

    // The clauses after the `for`.
    pub(crate) fn steps(&self) -> NarrowSteps<'a>
        ensures first { result.first ≡ self.now.reading + 2 }
        ensures clauses { result.clauses.now ≡ self.now.clauses.now }
    {
        NarrowSteps {
            first: self.reading + 2,
            clauses: self.clauses,
        }
    }
}

impl<
    'a,
    F: for<'s, 'b> Fn(Global, &BoundExpr, &Env<'s, 'b>) -> Result<Value<'b>, EvalFault>,
> DrivenStage<'a, F> {
    /// What the clauses of the stage and its end make of the tuples of its `for`, below a limit.
    pub fn carry_tuples<I: ItemsKept>(
        &self,
        frames: Vec<Frame<'a>>,
        limit: u32,
    ) -> Result<Counted<CameOut<'a, I>>, NoMemory>
        requires below { limit ≤ last_step self.now + 1 }
        requires evaluates { Evaluates self.now.depth (F.pre self.now.evaluator.inner)
            (F.post self.now.evaluator.inner) }
        ensures outcome { IfOk result (IsOutcomeOf (CameIs I.stands) (self.now.reading + 2)
            (last_step self.now) (tuples_stage self.now) (tuples_of frames.entry) limit) }
        ensures keys { IfOk result (λ out. EndKeyedBy self.now.end out.outcome) }
        ensures first { IfOk result (λ out. out.into.first ≡ self.now.reading + 2) }
    {
        let env = self.env();
        let steps = self.steps();
        match self.end {
            StageEnd::Items(body) => {
                let out = steps.carry_items(&self.evaluator, body, frames, limit, &env)?;
                Ok(out)
            }
            StageEnd::Numbers => {
                let out = steps.carry_numbers(&self.evaluator, frames, limit, &env)?;
                Ok(out)
            }
            StageEnd::Groups(keys) => {
                let out = steps.carry_groups(&self.evaluator, keys, frames, limit, &env)?;
                Ok(out)
            }
        }
    }

    /// The same, where the stage ends in `order by`: the tuples with their keys and the classes of
    /// these, which are not sorted yet.
    pub fn carry_ordered<I: ItemsKept>(
        &self,
        keys: &[OrderKey<BoundExpr>],
        frames: Vec<Frame<'a>>,
        limit: u32,
    ) -> Result<OrderCounted<CameOut<'a, I>>, NoMemory>
        requires below { limit ≤ last_step self.now + 1 }
        requires evaluates { Evaluates self.now.depth (F.pre self.now.evaluator.inner)
            (F.post self.now.evaluator.inner) }
        ensures outcome { IfOk result (IsOrderOutcomeOf (CameIs I.stands) (self.now.reading + 2)
            (last_step self.now) (ordered_stage self.now (bound_order_keys keys.now))
            (tuples_of frames.entry) limit) }
        ensures wide { IfOk result (λ out. IsWide (length keys.now) out.outcome) }
        ensures first { IfOk result (λ out. out.into.first ≡ self.now.reading + 2) }
    {
        let env = self.env();
        let steps = self.steps();
        let out = steps.carry_ordered(&self.evaluator, keys, frames, limit, &env)?;
        Ok(out)
    }
}
