//! Runs a FLWOR over the lines of an input: its first stage on workers, and what comes after that
//! in one place.

ghost use Rattle.std.specs.Prelude.{◌≡◌, ◌<◌, ◌≤◌, ◌+◌, ◌^◌, length, take, map, All, IfOk, IsOk, List, Ok, Result};
ghost use Rattle.item_tree.specs.declared.fault.Fault.{Fault};
ghost use Rattle.tuple_rows.specs.Keys.{KeyList, Keyed};
ghost use Rattle.query_tree.specs.BoundViews.{bound_clauses, bound_group_vars, bound_order_keys};
ghost use Rattle.query_tree.specs.Scoped.{clause_slots};
ghost use Rattle.query_meaning.specs.inside.Evaluates.{Evaluates};
ghost use Rattle.stage_laws.specs.Runs.{Met};
ghost use Rattle.stage_laws.specs.Ends.{ended_by};
ghost use Rattle.clause_stages.specs.Drivers.{driver_marked};
ghost use Rattle.clause_stages.specs.Ends.{numbered, grouped, in_key_order};
ghost use Rattle.clause_eval.specs.Frames.{tuples_of};
ghost use Rattle.piece_board.specs.Faults.{IsJob};
ghost use Rattle.piece_board.specs.Trouble.{AllRise, SomeRose};
ghost use Rattle.piece_outcomes.specs.Came.{Came, Seen};
ghost use Rattle.piece_outcomes.specs.Outcomes.{ResultIs};
ghost use Rattle.piece_outcomes.specs.Orders as order;
ghost use Rattle.piece_seats.specs.Seats.{all_faults, HoldsFiles};
ghost use Rattle.piece_run.specs.Flwors.{ForOver, GoesOn, flwor_environment, MeansLines, rest_meant, then_rest};
ghost use Rattle.piece_run.specs.Keying.{GatheredKeyedBy};
ghost use Rattle.piece_run.specs.Kept.{KeptIs, IsAnswer, IsUnread};
ghost use Rattle.piece_run.specs.Outcomes.{CameIs};

use crate::came::CameOut;
use crate::driven_flwor::DrivenFlwor;
use crate::finish::{finish_groups, finish_items, finish_numbers, finish_order};
use crate::first_end::FirstEnd;
use crate::leaf_fault::LeafFault;
use crate::stage::StageEnd;
use clause_eval::Frame;
use outside::{Failed, Gate, InputFile};
use piece_board::JobFault;
use piece_outcomes::Gathered;
use piece_seats::{FilesTold, ItemsKept, Seat};
use query_meaning::{Env, EvalFault, Value};
use query_tree::{BoundExpr, GroupVar, OrderKey, Placed, Slot};
use std::alloc::Global;
use std::sync::Wait;
use std::thread::Threads;

impl<
    'a,
    F: for<'s, 'b> Fn(Global, &BoundExpr, &Env<'s, 'b>) -> Result<Value<'b>, EvalFault>,
> DrivenFlwor<'a, F> {
    // What is kept of the items of tuples that have passed the first clauses.
    fn rest<K: ItemsKept>(&self, passed: usize, tuples: Vec<Frame<'a>>) -> Result<K, LeafFault>
        requires passed { passed ≤ length self.now.clauses.now }
        requires evaluates { Evaluates self.now.depth (F.pre self.now.evaluator.inner)
            (F.post self.now.evaluator.inner) }
        ensures value { KeptIs K.stands result
            (rest_meant self.now passed (tuples_of tuples.entry)) }
        ensures cause { IsUnread result → ⊥ }
    {
        let alloc = self.evaluator.alloc;
        let env = self.env();
        let value = self
            .evaluator
            .flwor_rest(passed, self.clauses, self.body, tuples, &env)?;
        let mut kept = K::nothing(alloc);
        kept.add(value.items())?;
        Ok(kept)
    }

    // What is kept of the items of `return`.
    fn after_items<K: ItemsKept>(
        &self,
        ran: Result<Gathered<CameOut<'a, K>>, JobFault<Failed>>,
    ) -> Result<K, LeafFault>
        requires { self.now.lets + 1 < 2 ^ 32 }
        ensures value { (r : Result Came (Met Seen Fault))
            → IfOk ran.entry (λ g. ResultIs (CameIs K.stands) g r)
            → KeptIs K.stands result
            (ended_by (driver_marked (self.now.lets + 1)) (λ w. Ok w.items) r) }
        ensures calm { IsAnswer result → IsOk ran.entry }
        ensures cause { IsUnread result → IsJob ran.entry }
    {
        finish_items(self.lets + 1, ran?)
    }

    // What is kept of the items that come after `count`, with which so many clauses are passed.
    fn after_numbers<K: ItemsKept>(
        &self,
        passed: usize,
        variable: &Placed<Slot>,
        ran: Result<Gathered<CameOut<'a, K>>, JobFault<Failed>>,
    ) -> Result<K, LeafFault>
        requires lets { self.now.lets + 1 < 2 ^ 32 }
        requires passed { passed ≤ length self.now.clauses.now }
        requires evaluates { Evaluates self.now.depth (F.pre self.now.evaluator.inner)
            (F.post self.now.evaluator.inner) }
        ensures value { (r : Result Came (Met Seen Fault))
            → IfOk ran.entry (λ g. ResultIs (CameIs K.stands) g r)
            → KeptIs K.stands result
            (then_rest self.now passed (ended_by (driver_marked (self.now.lets + 1))
            (λ w. Ok (numbered variable.now w.tuples)) r)) }
        ensures calm { IsAnswer result → IsOk ran.entry }
        ensures cause { IsUnread result → IsJob ran.entry }
    {
        let first = self.lets + 1;
        let tuples = finish_numbers(self.evaluator.alloc, first, variable, ran?)?;
        self.rest(passed, tuples)
    }

    // What is kept of the items that come after `group by`, which is the clause at this index.
    fn after_groups<K: ItemsKept>(
        &self,
        at: usize,
        keys: &[GroupVar<Slot, BoundExpr>],
        ran: Result<Gathered<CameOut<'a, K>>, JobFault<Failed>>,
    ) -> Result<K, LeafFault>
        requires lets { self.now.lets + 1 < 2 ^ 32 }
        requires at { at < length self.now.clauses.now }
        requires keys { IfOk ran (GatheredKeyedBy (length keys.now)) }
        requires evaluates { Evaluates self.now.depth (F.pre self.now.evaluator.inner)
            (F.post self.now.evaluator.inner) }
        ensures value { (r : Result Came (Met Seen Fault))
            → IfOk ran.entry (λ g. ResultIs (CameIs K.stands) g r)
            → KeptIs K.stands result
            (then_rest self.now (at + 1) (ended_by (driver_marked (self.now.lets + 1))
            (λ w. Ok (grouped (bound_group_vars keys.now) (flwor_environment self.now)
            (clause_slots (bound_clauses (take at self.now.clauses.now))) w.keyed)) r)) }
        ensures calm { IsAnswer result → IsOk ran.entry }
        ensures cause { IsUnread result → IsJob ran.entry }
    {
        let first = self.lets + 1;
        let env = self.env();
        let before = &self.clauses[..at];
        let tuples = finish_groups(&self.evaluator, first, before, keys, ran?, &env)?;
        self.rest(at + 1, tuples)
    }

    // What is kept of the items that come after `order by`, with which so many clauses are passed.
    fn after_order<K: ItemsKept>(
        &self,
        passed: usize,
        keys: &[OrderKey<BoundExpr>],
        ran: Result<Gathered<CameOut<'a, K>>, JobFault<Failed>>,
    ) -> Result<K, LeafFault>
        requires lets { self.now.lets + 1 < 2 ^ 32 }
        requires passed { passed ≤ length self.now.clauses.now }
        requires evaluates { Evaluates self.now.depth (F.pre self.now.evaluator.inner)
            (F.post self.now.evaluator.inner) }
        ensures value { (r : Result (List Keyed) (Met KeyList Fault))
            → IfOk ran.entry (λ g. order.ResultIs (CameIs K.stands) g r)
            → KeptIs K.stands result
            (then_rest self.now passed (ended_by (driver_marked (self.now.lets + 1))
            (λ ks. Ok (in_key_order (bound_order_keys keys.now) ks)) r)) }
        ensures calm { IsAnswer result → IsOk ran.entry }
        ensures cause { IsUnread result → IsJob ran.entry }
    {
        let first = self.lets + 1;
        let tuples = finish_order(self.evaluator.alloc, first, keys, ran?)?;
        self.rest(passed, tuples)
    }
}

/// Runs a FLWOR over the lines of an input, by as many workers as there are seats, and keeps its
/// items. Where the files tell their bytes, that is what is meant. All seats come back, at every
/// answer.
pub fn run_flwor<
    'a,
    R: Threads + Wait + Sync,
    F: for<'s, 'b> Fn(Global, &BoundExpr, &Env<'s, 'b>) -> Result<Value<'b>, EvalFault>
        + Sync
        + Copy,
    T: FilesTold,
    S: InputFile + Send + Sync + Drop,
    K: ItemsKept + Send + Sync,
    G: Gate,
>(
    rt: &R,
    flwor: &DrivenFlwor<'a, F>,
    told: &T,
    seats: Vec<Seat<S>>,
    gate: &G,
) -> (Vec<Seat<S>>, Result<K, LeafFault>)
    requires driven { (w : ForOver) × GoesOn flwor.now w }
    requires some { 0 < length seats.items }
    requires files { All (HoldsFiles S.held flwor.now.cut.now (T.told told.now)) seats.items }
    requires evaluates { Evaluates flwor.now.depth (F.pre flwor.now.evaluator.inner)
        (F.post flwor.now.evaluator.inner) }
    ensures files { All (HoldsFiles S.held flwor.now.cut.now (T.told told.now)) result.0.items }
    ensures many { length result.0.items ≡ length seats.items }
    ensures value { MeansLines K.stands flwor.now (T.told told.now) result.1 }
    ensures calm { IsAnswer result.1
        → map (λ s. all_faults S.faults s.files.items) result.0.items
        ≡ map (λ s. all_faults S.faults s.files.items) seats.items }
    ensures rises { AllRise (map (λ s. all_faults S.faults s.files.items) seats.items)
        (map (λ s. all_faults S.faults s.files.items) result.0.items) }
    ensures cause { IsUnread result.1
        → SomeRose (map (λ s. all_faults S.faults s.files.items) seats.items)
        (map (λ s. all_faults S.faults s.files.items) result.0.items) }
{
    if flwor.clauses.len() + 3 >= u32::MAX as usize {
        return (seats, Err(LeafFault::NoMemory));
    }
    let (binding, count, end) = flwor.first_stage();
    let at = flwor.lets as usize + 1 + count;
    match end {
        FirstEnd::Return => {
            let last = StageEnd::Items(flwor.body);
            let (seats, ran) = flwor.run_stage(rt, told, binding, count, last, seats, gate);
            (seats, flwor.after_items(ran))
        }
        FirstEnd::Count(variable) => {
            let last = StageEnd::Numbers;
            let (seats, ran) = flwor.run_stage(rt, told, binding, count, last, seats, gate);
            (seats, flwor.after_numbers(at + 1, variable, ran))
        }
        FirstEnd::Group(keys) => {
            let last = StageEnd::Groups(keys);
            let (seats, ran) = flwor.run_stage(rt, told, binding, count, last, seats, gate);
            (seats, flwor.after_groups(at, keys, ran))
        }
        FirstEnd::Order(keys) => {
            let (seats, ran) = flwor.run_orders(rt, told, binding, count, keys, seats, gate);
            (seats, flwor.after_order(at + 1, keys, ran))
        }
    }
}
