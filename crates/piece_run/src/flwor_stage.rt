//! The first stage of a FLWOR over the lines of an input, on all pieces of the input.

ghost use Rattle.std.specs.Prelude.{◌≡◌, ◌<◌, ◌≤◌, ◌+◌, ◌^◌, true, length, take, map, All, IfOk, IsOk, List};
ghost use Rattle.tuple_rows.specs.Keys.{KeyList, Keyed};
ghost use Rattle.query_tree.specs.BoundViews.{bound_clauses, bound_order_keys};
ghost use Rattle.query_meaning.specs.Orders.{column_places};
ghost use Rattle.query_meaning.specs.Pieces.{are_narrow};
ghost use Rattle.query_meaning.specs.inside.Evaluates.{Evaluates};
ghost use Rattle.piece_board.specs.Faults.{IsJob};
ghost use Rattle.piece_board.specs.Trouble.{AllRise, SomeRose};
ghost use Rattle.piece_outcomes.specs.Came.{Came, Seen, nothing_came};
ghost use Rattle.piece_outcomes.specs.Outcomes.{ResultIs};
ghost use Rattle.piece_outcomes.specs.Orders as order;
ghost use Rattle.piece_seats.specs.Seats.{all_faults, HoldsFiles};
ghost use Rattle.piece_run.specs.Flwors.{after_for, IsFirstStage, GatheredLines, GatheredOrder, EndGathered};
ghost use Rattle.piece_run.specs.Gathering.{OnPieces, IsWholeRun, IsWholeOrder, whole_run};
ghost use Rattle.piece_run.specs.Outcomes.{CameIs};
ghost use Rattle.piece_run.specs.Staged.{end_of};

use crate::came::CameOut;
use crate::driven_flwor::DrivenFlwor;
use crate::gathering::{gather_whole, gather_whole_orders};
use crate::job::DrivenJob;
use crate::order::places_of;
use crate::order_job::DrivenOrderJob;
use crate::run::{run_driven, run_driven_orders};
use crate::stage::{DrivenStage, StageEnd};
use clause_eval::Binding;
use line_pieces::laws::{pieces_are_told, pieces_are_whole};
use outside::{Failed, Gate, InputFile};
use piece_board::{JobFault, Pieces};
use piece_outcomes::{Counted, Gathered, OrderCounted};
use piece_seats::{FilesTold, ItemsKept, Seat};
use query_meaning::{Env, EvalFault, Value};
use query_tree::{BoundExpr, OrderKey};
use std::alloc::Global;
use std::marker::PhantomData;
use std::sync::Wait;
use std::thread::Threads;

// What is kept of nothing.
fn nothing_out<'a, I: ItemsKept>(alloc: Global) -> CameOut<'a, I>
    ensures { CameIs I.stands result nothing_came }
{
    CameOut {
        tuples: Vec::new(alloc),
        keyed: Vec::new(alloc),
        items: I::nothing(alloc),
    }
}

// What all pieces of a stage give together.
fn gather_ran<'a, I: ItemsKept>(
    alloc: Global,
    ran: Result<Pieces<Counted<CameOut<'a, I>>>, JobFault<Failed>>,
) -> Result<Gathered<CameOut<'a, I>>, JobFault<Failed>>
    requires whole { IfOk ran
        (λ p. (o : OnPieces Came Seen) × IsWholeRun (CameIs I.stands) o p) }
    ensures given { (o : OnPieces Came Seen)
        → IfOk ran.entry (IsWholeRun (CameIs I.stands) o)
        → IfOk result (λ g. ResultIs (CameIs I.stands) g (whole_run o)) }
    ensures calm { IsOk result → IsOk ran.entry }
    ensures cause { IsJob result → IsJob ran.entry }
{
    let pieces = ran?;
    let gathered = gather_whole(alloc, nothing_out(alloc), pieces)?;
    Ok(gathered)
}

// The same where the stage ends in `order by` these keys, which is the step of this number.
fn gather_orders_ran<'a, I: ItemsKept>(
    alloc: Global,
    step: u32,
    keys: &[OrderKey<BoundExpr>],
    ran: Result<Pieces<OrderCounted<CameOut<'a, I>>>, JobFault<Failed>>,
) -> Result<Gathered<CameOut<'a, I>>, JobFault<Failed>>
    requires whole { IfOk ran
        (λ p. (o : OnPieces (List Keyed) KeyList) × (o.last ≡ step)
        × IsWholeOrder (CameIs I.stands) (column_places (bound_order_keys keys.now)) o p) }
    ensures given { (o : OnPieces (List Keyed) KeyList) → o.last ≡ step
        → IfOk ran.entry
        (IsWholeOrder (CameIs I.stands) (column_places (bound_order_keys keys.now)) o)
        → IfOk result (λ g. order.ResultIs (CameIs I.stands) g (whole_run o)) }
    ensures calm { IsOk result → IsOk ran.entry }
    ensures cause { IsJob result → IsJob ran.entry }
{
    let pieces = ran?;
    let places = places_of(alloc, keys)?;
    let empty = nothing_out(alloc);
    let gathered = gather_whole_orders(alloc, step, places.as_slice(), empty, pieces)?;
    Ok(gathered)
}

impl<
    'a,
    F: for<'s, 'b> Fn(Global, &BoundExpr, &Env<'s, 'b>) -> Result<Value<'b>, EvalFault>
        + Sync
        + Copy,
> DrivenFlwor<'a, F> {
    // The stage of the `for`, of that many narrow clauses after it and of this end.
    #[tactic(auto, unfolding(crate::specs::Flwors::flwor_program, crate::specs::Flwors::flwor_inner, crate::specs::Flwors::flwor_environment, crate::specs::Staged::stage_program, crate::specs::Staged::stage_inner, crate::specs::Staged::stage_environment))]
    fn stage(&self, binding: Binding<'a>, count: usize, end: StageEnd<'a>) -> DrivenStage<'a, F>
        requires few { length self.now.clauses.now + 3 < 2 ^ 32 }
        requires count { self.now.lets + 1 + count ≤ length self.now.clauses.now }
        requires narrow { are_narrow (bound_clauses (take count (after_for self.now))) ≡ true }
        ensures evaluator { result.evaluator ≡ self.now.evaluator }
        ensures depth { result.depth ≡ self.now.depth }
        ensures cut { result.cut.now ≡ self.now.cut.now }
        ensures end { result.end ≡ end.entry }
        ensures first { IsFirstStage self.now binding.entry count result }
    {
        let first = self.lets as usize + 1;
        DrivenStage {
            evaluator: self.evaluator,
            query: self.query,
            library: self.library,
            globals: self.globals,
            leading: self.leading,
            depth: self.depth,
            reading: self.lets,
            place: self.place,
            binding,
            clauses: &self.clauses[first..first + count],
            end,
            cut: self.cut,
            before: self.before,
        }
    }

    // Runs the stage of the `for`, of that many narrow clauses after it and of this end.
    pub(crate) fn run_stage<
        't,
        R: Threads + Wait + Sync,
        T: FilesTold,
        S: InputFile + Send + Sync + Drop,
        I: ItemsKept + Send + Sync,
        G: Gate,
    >(
        &self,
        rt: &R,
        told: &'t T,
        binding: Binding<'a>,
        count: usize,
        end: StageEnd<'a>,
        seats: Vec<Seat<S>>,
        gate: &G,
    ) -> (
        Vec<Seat<S>>,
        Result<Gathered<CameOut<'a, I>>, JobFault<Failed>>,
    )
        requires some { 0 < length seats.items }
        requires files { All (HoldsFiles S.held self.now.cut.now (T.told told.now)) seats.items }
        requires few { length self.now.clauses.now + 3 < 2 ^ 32 }
        requires count { self.now.lets + 1 + count ≤ length self.now.clauses.now }
        requires narrow { are_narrow (bound_clauses (take count (after_for self.now))) ≡ true }
        requires evaluates { Evaluates self.now.depth (F.pre self.now.evaluator.inner)
            (F.post self.now.evaluator.inner) }
        ensures files { All (HoldsFiles S.held self.now.cut.now (T.told told.now))
            result.0.items }
        ensures many { length result.0.items ≡ length seats.items }
        ensures lines { IfOk result.1 (GatheredLines I.stands self.now binding.entry count
            (end_of end.entry) (T.told told.now)) }
        ensures keys { IfOk result.1 (EndGathered end.entry) }
        ensures calm { IsOk result.1 → map (λ s. all_faults S.faults s.files.items) result.0.items
            ≡ map (λ s. all_faults S.faults s.files.items) seats.items }
        ensures rises { AllRise (map (λ s. all_faults S.faults s.files.items) seats.items)
            (map (λ s. all_faults S.faults s.files.items) result.0.items) }
        ensures cause { IsJob result.1
            → SomeRose (map (λ s. all_faults S.faults s.files.items) seats.items)
            (map (λ s. all_faults S.faults s.files.items) result.0.items) }
    {
        let stage = self.stage(binding, count, end);
        let job = DrivenJob {
            stage,
            told,
            files: PhantomData,
            kept: PhantomData,
        };
        let (seats, ran) = run_driven(rt, self.evaluator.alloc, &job, seats, gate);
        let gathered = gather_ran(self.evaluator.alloc, ran);
        let _some = self.cut.size();
        pieces_are_whole();
        pieces_are_told();
        (seats, gathered)
    }

    // The same where the stage ends in `order by` these keys.
    pub(crate) fn run_orders<
        't,
        R: Threads + Wait + Sync,
        T: FilesTold,
        S: InputFile + Send + Sync + Drop,
        I: ItemsKept + Send + Sync,
        G: Gate,
    >(
        &self,
        rt: &R,
        told: &'t T,
        binding: Binding<'a>,
        count: usize,
        keys: &'a [OrderKey<BoundExpr>],
        seats: Vec<Seat<S>>,
        gate: &G,
    ) -> (
        Vec<Seat<S>>,
        Result<Gathered<CameOut<'a, I>>, JobFault<Failed>>,
    )
        requires some { 0 < length seats.items }
        requires files { All (HoldsFiles S.held self.now.cut.now (T.told told.now)) seats.items }
        requires few { length self.now.clauses.now + 3 < 2 ^ 32 }
        requires count { self.now.lets + 1 + count ≤ length self.now.clauses.now }
        requires narrow { are_narrow (bound_clauses (take count (after_for self.now))) ≡ true }
        requires evaluates { Evaluates self.now.depth (F.pre self.now.evaluator.inner)
            (F.post self.now.evaluator.inner) }
        ensures files { All (HoldsFiles S.held self.now.cut.now (T.told told.now))
            result.0.items }
        ensures many { length result.0.items ≡ length seats.items }
        ensures lines { IfOk result.1 (GatheredOrder I.stands self.now binding.entry count
            (bound_order_keys keys.now) (T.told told.now)) }
        ensures calm { IsOk result.1 → map (λ s. all_faults S.faults s.files.items) result.0.items
            ≡ map (λ s. all_faults S.faults s.files.items) seats.items }
        ensures rises { AllRise (map (λ s. all_faults S.faults s.files.items) seats.items)
            (map (λ s. all_faults S.faults s.files.items) result.0.items) }
        ensures cause { IsJob result.1
            → SomeRose (map (λ s. all_faults S.faults s.files.items) seats.items)
            (map (λ s. all_faults S.faults s.files.items) result.0.items) }
    {
        let stage = self.stage(binding, count, StageEnd::Numbers);
        let job = DrivenOrderJob {
            stage,
            keys,
            told,
            files: PhantomData,
            kept: PhantomData,
        };
        let (seats, ran) = run_driven_orders(rt, self.evaluator.alloc, &job, seats, gate);
        let step = self.lets + 2 + count as u32;
        let gathered = gather_orders_ran(self.evaluator.alloc, step, keys, ran);
        let _some = self.cut.size();
        pieces_are_whole();
        pieces_are_told();
        (seats, gathered)
    }
}
