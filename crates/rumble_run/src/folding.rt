//! Calls of functions over a driver.

ghost use Rattle.std.specs.Prelude.{◌≡◌, ◌≤◌, ◌∷◌, [], IfSome, Some, true};
ghost use Rattle.query_tree.specs.BoundViews.{bound_tree};
ghost use Rattle.fn_table.specs.Table.{function_value};
ghost use Rattle.mode_planner.specs.Drivers.{folds};
ghost use Rattle.mode_planner.specs.inside.Views.{driver_of};
ghost use Rattle.query_meaning.specs.Meaning.{eval};
ghost use Rattle.query_meaning.specs.Outcome.{Outcome};
ghost use Rattle.rumble_run.specs.inside.LeafCounts.{LeavesOfLeaf};
ghost use Rattle.rumble_run.specs.inside.Driving.{driver_in};
ghost use Rattle.piece_run.specs.Kept.{KeptIs};
ghost use Rattle.rumble_run.specs.inside.Caught.{MadeFrom};
ghost use Rattle.rumble_run.specs.inside.Walked.{Prints, value_over, setting_of, leaf_driver, Walked, Drives};

use crate::driving::{Driving, driving_of, over_of};
use crate::walk::Walk;
use clause_eval::Evaluator;
use expr_eval::evaluation::value;
use fn_numbers::{AvgPart, CountPart, MaxPart, MinPart, Partial, SumPart};
use item_tree::{FnId, Item};
use mode_planner::Driver;
use outside::{Gate, Inputs};
use piece_run::{LeafFault, LeafRun};
use piece_seats::{EmptyPart, ExistsPart, Folded, ItemsKept, Text};
use query_meaning::EvalFault;
use query_tree::BoundExpr;
use std::alloc::Global;
use std::sync::Wait;
use std::thread::Threads;

// The text of the value of a call, whose parts were put together to this.
fn folded_text<P: Partial>(
    alloc: Global,
    place: u32,
    folded: Result<Folded<P>, LeafFault>,
) -> Result<Text, LeafFault>
    ensures value { (meant : Outcome) → KeptIs (λ f ds. P.stands f.part ds) folded meant
        → KeptIs Prints result (value_over place P.value_of meant) }
    ensures read { MadeFrom folded result }
{
    match folded {
        Err(fault) => Err(fault),
        Ok(folded) => match folded.finish(alloc) {
            Ok(items) => {
                let mut text = Text::nothing(alloc);
                text.add(&items)?;
                Ok(text)
            }
            Err(fault) => Err(LeafFault::from(EvalFault::of_operation(fault, place))),
        },
    }
}

impl<'a, 'r, R: Threads + Wait + Sync, G: Gate> Walk<'a, 'r, R, G> {
    // What is kept of an expression that a driver drives.
    fn own<I: Inputs, K: ItemsKept + Send + Sync>(
        &self,
        tree: &'a BoundExpr,
        driver: &Driver<'_>,
        depth: u32,
        inputs: &mut I,
    ) -> Result<K, LeafFault>
        requires driver { driver_in (bound_tree tree.now) ≡ Some (driver_of driver.now) }
        requires room { 3 ≤ depth }
        ensures world { I.world inputs.new ≡ I.world inputs.old }
        ensures counts { LeavesOfLeaf result (I.counts inputs.old) (I.counts inputs.new) }
        ensures drives { IfSome (I.world inputs.old) (λ w. Drives K.stands (setting_of self.now) w
            (bound_tree tree.now) (driver_of driver.now)
            (λ full. eval full depth (bound_tree tree.now) (setting_of self.now).env) result
            (I.counts inputs.old) (I.counts inputs.new)) }
    {
        let run = LeafRun {
            rt: self.rt,
            gate: self.gate,
            evaluator: Evaluator {
                alloc: self.alloc,
                inner: value,
            },
            query: self.query,
            library: self.library,
            globals: self.globals,
            frame: self.frame,
            workers: self.workers,
            size: self.size,
        };
        match driving_of(tree) {
            Some(Driving::Flwor(clauses, result)) => {
                run.flwor(clauses, result, driver, depth - 1, inputs)
            }
            Some(Driving::Lines(names)) => run.lines(tree.place, names, inputs),
            None => unreachable!(),
        }
    }

    // What is printed of a call whose value is put together from what pieces give.
    fn folded<I: Inputs, P: Partial + Send + Sync>(
        &self,
        place: u32,
        argument: &'a BoundExpr,
        driver: &Driver<'_>,
        depth: u32,
        inputs: &mut I,
    ) -> Result<Text, LeafFault>
        requires driver { driver_in (bound_tree argument.now) ≡ Some (driver_of driver.now) }
        requires room { 3 ≤ depth }
        ensures world { I.world inputs.new ≡ I.world inputs.old }
        ensures counts { LeavesOfLeaf result (I.counts inputs.old) (I.counts inputs.new) }
        ensures drives { IfSome (I.world inputs.old) (λ w. Drives Prints (setting_of self.now)
            w (bound_tree argument.now) (driver_of driver.now)
            (λ full. value_over place P.value_of
            (eval full depth (bound_tree argument.now) (setting_of self.now).env)) result
            (I.counts inputs.old) (I.counts inputs.new)) }
    {
        let folded = self.own::<I, Folded<P>>(argument, driver, depth, inputs);
        folded_text(self.alloc, place, folded)
    }

    // What is printed of a call of a function over an expression that a driver drives.
    fn call<I: Inputs>(
        &self,
        place: u32,
        id: FnId,
        argument: &'a BoundExpr,
        driver: &Driver<'_>,
        depth: u32,
        inputs: &mut I,
    ) -> Result<Text, LeafFault>
        requires driver { driver_in (bound_tree argument.now) ≡ Some (driver_of driver.now) }
        requires folds { folds id ≡ true }
        requires room { 3 ≤ depth }
        ensures world { I.world inputs.new ≡ I.world inputs.old }
        ensures counts { LeavesOfLeaf result (I.counts inputs.old) (I.counts inputs.new) }
        ensures drives { IfSome (I.world inputs.old) (λ w. Drives Prints (setting_of self.now)
            w (bound_tree argument.now) (driver_of driver.now)
            (λ full. value_over place (λ vs. function_value id (vs ∷ []))
            (eval full depth (bound_tree argument.now) (setting_of self.now).env)) result
            (I.counts inputs.old) (I.counts inputs.new)) }
    {
        match id {
            FnId::Count => self.folded::<I, CountPart>(place, argument, driver, depth, inputs),
            FnId::Sum => self.folded::<I, SumPart>(place, argument, driver, depth, inputs),
            FnId::Avg => self.folded::<I, AvgPart>(place, argument, driver, depth, inputs),
            FnId::Min => self.folded::<I, MinPart>(place, argument, driver, depth, inputs),
            FnId::Max => self.folded::<I, MaxPart>(place, argument, driver, depth, inputs),
            FnId::Empty => self.folded::<I, EmptyPart>(place, argument, driver, depth, inputs),
            FnId::Exists => self.folded::<I, ExistsPart>(place, argument, driver, depth, inputs),
            _ => unreachable!(),
        }
    }

    /// What is printed of a leaf that has this driver.
    pub(crate) fn driven<I: Inputs>(
        &self,
        tree: &'a BoundExpr,
        driver: &Driver<'_>,
        depth: u32,
        inputs: &mut I,
    ) -> Result<Text, LeafFault>
        requires driver { leaf_driver (bound_tree tree.now) ≡ Some (driver_of driver.now) }
        requires room { 5 ≤ depth }
        ensures world { I.world inputs.new ≡ I.world inputs.old }
        ensures counts { LeavesOfLeaf result (I.counts inputs.old) (I.counts inputs.new) }
        ensures walked { IfSome (I.world inputs.old) (λ w. Walked Prints (setting_of self.now)
            w depth (bound_tree tree.now ∷ []) result (I.counts inputs.old)
            (I.counts inputs.new)) }
    {
        match over_of(tree) {
            Some((id, argument)) => {
                self.call(tree.place, id, argument, driver, depth - 1, inputs)
            }
            None => self.own(tree, driver, depth, inputs),
        }
    }
}
