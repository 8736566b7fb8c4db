//! The function value that evaluates the parts of a node, with what each part may see.

ghost use Rattle.std.specs.Prelude.{◌≡◌};
ghost use Rattle.query_tree.specs.BoundViews.{bound_tree};
ghost use Rattle.query_meaning.specs.Checks.{truth_of};
ghost use Rattle.query_meaning.specs.Choices.{binding_any};
ghost use Rattle.query_meaning.specs.Environment.{binding};
ghost use Rattle.query_meaning.specs.inside.Evaluates.{Evaluates};
ghost use Rattle.query_meaning.specs.inside.Gives.{Gives};
ghost use Rattle.query_meaning.specs.inside.Views.{items_of, values_of, environment_of, eval_in};

use crate::frames::bound;
use item_tree::{Item, ebv};
use query_meaning::{Env, EvalFault, Value};
use query_tree::{BoundExpr, Placed, Slot};
use std::alloc::Global;

/// What evaluates the parts of a node.
#[derive(Clone, Copy)]
pub struct Evaluator<F> {
    /// The memory.
    pub alloc: Global,
    /// Evaluates an expression.
    pub inner: F,
}

impl<F: for<'s, 'a> Fn(Global, &BoundExpr, &Env<'s, 'a>) -> Result<Value<'a>, EvalFault>> Evaluator<
    F,
> {
    /// A part of a node.
    pub fn of<'a>(&self, e: &BoundExpr, env: &Env<'_, 'a>) -> Result<Value<'a>, EvalFault>
        requires { Evaluates env.now.depth (F.pre self.now.inner) (F.post self.now.inner) }
        ensures { Gives items_of result
            (eval_in env.now (bound_tree e.now) (environment_of env.now)) }
    {
        (self.inner)(self.alloc, e, env)
    }

    /// A part of a node, as a list of one's own.
    pub fn own(&self, e: &BoundExpr, env: &Env<'_, '_>) -> Result<Vec<Item>, EvalFault>
        requires { Evaluates env.now.depth (F.pre self.now.inner) (F.post self.now.inner) }
        ensures { Gives values_of result
            (eval_in env.now (bound_tree e.now) (environment_of env.now)) }
    {
        let value = self.of(e, env)?;
        value.owned(self.alloc)
    }

    /// The effective boolean value of a part.
    #[tactic(auto, using(query_tree::proofs::Layers::layers))]
    pub fn truth(&self, e: &BoundExpr, env: &Env<'_, '_>) -> Result<bool, EvalFault>
        requires { Evaluates env.now.depth (F.pre self.now.inner) (F.post self.now.inner) }
        ensures { Gives (λ b. b) result
            (truth_of (eval_in env.now) (bound_tree e.now) (environment_of env.now)) }
    {
        let value = self.of(e, env)?;
        match ebv(value.items()) {
            Ok(holds) => Ok(holds),
            Err(code) => Err(EvalFault::raised(code, e.place)),
        }
    }

    /// A part in which a slot has this value.
    #[tactic(auto, unfolding(query_meaning::specs::inside::Views::eval_in, query_meaning::specs::inside::Views::program_of, query_meaning::specs::inside::Views::environment_of))]
    pub fn of_bound<'a>(
        &self,
        e: &BoundExpr,
        slot: Slot,
        value: Value<'a>,
        env: &Env<'_, 'a>,
    ) -> Result<Value<'a>, EvalFault>
        requires { Evaluates env.now.depth (F.pre self.now.inner) (F.post self.now.inner) }
        ensures { Gives items_of result (eval_in env.now (bound_tree e.now)
            (binding (environment_of env.now) slot (items_of value.entry))) }
    {
        let frame = bound(self.alloc, env.frame, slot, value)?;
        let at = env.with_frame(&frame, env.context);
        self.of(e, &at)
    }

    /// A part in which this variable, if there is one, has this value.
    pub fn of_bound_any<'a>(
        &self,
        e: &BoundExpr,
        variable: &Option<Placed<Slot>>,
        value: Value<'a>,
        env: &Env<'_, 'a>,
    ) -> Result<Value<'a>, EvalFault>
        requires { Evaluates env.now.depth (F.pre self.now.inner) (F.post self.now.inner) }
        ensures { Gives items_of result (eval_in env.now (bound_tree e.now)
            (binding_any (environment_of env.now) variable.now (items_of value.entry))) }
    {
        match variable {
            None => self.of(e, env),
            Some(variable) => self.of_bound(e, variable.name, value, env),
        }
    }
}
