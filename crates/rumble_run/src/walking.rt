//! The walk over the spine of a body, along its plan.

ghost use Rattle.std.specs.Prelude.{◌≡◌, ◌≤◌, ◌+◌, ◌∷◌, [], IfSome, IfOk, Some, None, false, option_map};
ghost use Rattle.query_tree.specs.BoundViews.{bound_tree, bound_catches};
ghost use Rattle.query_tree.specs.Spines.{spine};
ghost use Rattle.mode_planner.specs.Spine.{is_passed};
ghost use Rattle.mode_planner.specs.inside.Views.{driver_of};
ghost use Rattle.query_meaning.specs.Choices.{or_handled};
ghost use Rattle.query_meaning.specs.Meaning.{eval};
ghost use Rattle.query_meaning.specs.Outcome.{Outcome};
ghost use Rattle.rumble_run.specs.inside.LeafCounts.{LeavesOfLeaf};
ghost use Rattle.query_meaning.specs.inside.Gives.{Gives};
ghost use Rattle.query_meaning.specs.inside.Views.{items_of};
ghost use Rattle.piece_run.specs.Kept.{KeptIs, IsUnread};
ghost use Rattle.rumble_run.specs.inside.Caught.{CaughtFrom};
ghost use Rattle.rumble_run.specs.inside.Walked.{Prints, setting_of, leaf_driver, Walked};

use crate::walk::Walk;
use expr_eval::evaluation::{handle, value};
use item_tree::NoMemory;
use mode_planner::{Driver, plan_leaf};
use outside::{Gate, Inputs};
use piece_run::LeafFault;
use piece_seats::{ItemsKept, Text};
use query_meaning::{Env, EvalFault, Value};
use query_tree::{BoundExpr, Catch, Kind, Slot};
use std::alloc::Global;
use std::sync::Wait;
use std::thread::Threads;

// The text of a value.
fn text_of(alloc: Global, value: Result<Value<'_>, EvalFault>) -> Result<Text, LeafFault>
    ensures value { (meant : Outcome) → Gives items_of value.entry meant
        → KeptIs Prints result meant }
    ensures read { ¬ (IsUnread result) }
{
    match value {
        Ok(value) => {
            let mut text = Text::nothing(alloc);
            text.add(value.items())?;
            Ok(text)
        }
        Err(fault) => Err(LeafFault::from(fault)),
    }
}

// What drives a leaf.
fn planned_driver<'q>(alloc: Global, tree: &'q BoundExpr) -> Result<Option<Driver<'q>>, NoMemory>
    ensures { IfOk result (λ d. option_map driver_of d ≡ leaf_driver (bound_tree tree.now)) }
{
    let planned = plan_leaf(alloc, tree, false)?;
    Ok(planned.driver)
}

impl<'a, 'r, R: Threads + Wait + Sync, G: Gate> Walk<'a, 'r, R, G> {
    // Where an expression on the spine is evaluated at this depth.
    fn env(&self, depth: u32) -> Env<'a, 'a>
        ensures module { result.module.now ≡ self.now.query.now }
        ensures library { result.library.now ≡ self.now.library.now }
        ensures globals { result.globals.now ≡ self.now.globals.now }
        ensures frame { result.frame.now ≡ self.now.frame.now }
        ensures context { result.context ≡ None }
        ensures depth { result.depth ≡ depth }
    {
        Env::new(self.query, self.library, self.globals, self.frame, depth)
    }

    // What is printed of a leaf that is evaluated in one place.
    fn whole(&self, tree: &'a BoundExpr, depth: u32) -> Result<Text, LeafFault>
        ensures value { KeptIs Prints result (eval (setting_of self.now).own depth
            (bound_tree tree.now) (setting_of self.now).env) }
        ensures read { ¬ (IsUnread result) }
    {
        let env = self.env(depth);
        text_of(self.alloc, value(self.alloc, tree, &env))
    }

    // What is printed of a `try`, whose body came to this.
    fn caught(
        &self,
        tried: Result<Text, LeafFault>,
        catches: &'a [Catch<Slot, BoundExpr>],
        depth: u32,
    ) -> Result<Text, LeafFault>
        ensures value { (meant : Outcome) → KeptIs Prints tried meant
            → KeptIs Prints result (or_handled (eval (setting_of self.now).own depth)
            (bound_catches catches.now) (setting_of self.now).env meant) }
        ensures others { CaughtFrom tried result }
    {
        match tried {
            Err(LeafFault::Raised(fault)) => {
                let env = self.env(depth);
                text_of(self.alloc, handle(self.alloc, catches, fault, &env))
            }
            tried => tried,
        }
    }

    // What is printed of a leaf.
    fn leaf<I: Inputs>(
        &self,
        tree: &'a BoundExpr,
        depth: u32,
        inputs: &mut I,
    ) -> Result<Text, LeafFault>
        requires room { 5 ≤ depth }
        ensures world { I.world inputs.new ≡ I.world inputs.old }
        ensures counts { LeavesOfLeaf result (I.counts inputs.old) (I.counts inputs.new) }
        ensures walked { is_passed (bound_tree tree.now) ≡ false → IfSome (I.world inputs.old) (λ w.
            Walked Prints (setting_of self.now) w depth (bound_tree tree.now ∷ []) result
            (I.counts inputs.old) (I.counts inputs.new)) }
    {
        match planned_driver(self.alloc, tree)? {
            Some(driver) => self.driven(tree, &driver, depth, inputs),
            None => self.whole(tree, depth),
        }
    }

    /// What is printed of an expression that stands on the spine.
    pub fn along<I: Inputs>(
        &self,
        tree: &'a BoundExpr,
        depth: u32,
        inputs: &mut I,
    ) -> Result<Text, LeafFault>
        requires room { spine (bound_tree tree.now) + 5 ≤ depth }
        ensures world { I.world inputs.new ≡ I.world inputs.old }
        ensures counts { LeavesOfLeaf result (I.counts inputs.old) (I.counts inputs.new) }
        ensures walked { IfSome (I.world inputs.old) (λ w. Walked Prints (setting_of self.now)
            w depth (bound_tree tree.now ∷ []) result (I.counts inputs.old)
            (I.counts inputs.new)) }
    {
        match &tree.kind {
            Kind::Comma { first, rest } => {
                let mut text = self.along(first, depth - 1, inputs)?;
                for operand in rest {
                    let next = self.along(&operand.value, depth - 1, inputs)?;
                    text = text.follow(next)?;
                }
                Ok(text)
            }
            Kind::Paren { content } => match content {
                Some(content) => self.along(content, depth - 1, inputs),
                None => Ok(Text::nothing(self.alloc)),
            },
            Kind::Try { body, catches } => {
                let tried = self.along(body, depth - 1, inputs);
                self.caught(tried, catches, depth - 1)
            }
            _ => self.leaf(tree, depth, inputs),
        }
    }
}
