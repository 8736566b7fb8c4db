//! Runs a stage on all pieces of its input.

ghost use Rattle.std.specs.Prelude.{◌≡◌, ◌<◌, ◌+◌, length, map, All, IfOk, OnOk};
ghost use Rattle.fault_merge.specs.Enough.{AllEnough};
ghost use Rattle.line_pieces.specs.Cuts.{pieces_of};
ghost use Rattle.query_tree.specs.BoundViews.{bound_order_keys};
ghost use Rattle.query_meaning.specs.inside.Evaluates.{Evaluates};
ghost use Rattle.piece_board.specs.Faults.{IsJob};
ghost use Rattle.piece_board.specs.Trouble.{AllRise, SomeRose};
ghost use Rattle.piece_board.specs.Whole.{IsWhole};
ghost use Rattle.piece_outcomes.specs.Counting.{told_step, order_told_step};
ghost use Rattle.piece_seats.specs.Seats.{all_faults, HoldsFiles};
ghost use Rattle.piece_run.specs.Seats.{IsKeyedPiece, IsWidePiece};
ghost use Rattle.piece_run.specs.Staged.{last_step};

use crate::came::CameOut;
use crate::job::DrivenJob;
use crate::order_job::DrivenOrderJob;
use crate::stage::DrivenStage;
use outside::{Failed, Gate, InputFile};
use piece_board::{JobFault, Pieces, run_pieces};
use piece_outcomes::{Counted, OrderCounted};
use piece_seats::{FilesTold, ItemsKept, Seat};
use query_meaning::{Env, EvalFault, Value};
use query_tree::BoundExpr;
use std::alloc::Global;
use std::sync::Wait;
use std::thread::Threads;

// The number after that of the last step.
fn whole_limit<F>(stage: &DrivenStage<'_, F>) -> u32
    ensures { result ≡ last_step stage.now + 1 }
{
    stage.reading + 3 + stage.clauses.len() as u32
}

/// Runs the stage on all pieces of its input, by as many workers as there are seats.
pub fn run_driven<
    'a,
    't,
    R: Threads + Wait + Sync,
    F: for<'s, 'b> Fn(Global, &BoundExpr, &Env<'s, 'b>) -> Result<Value<'b>, EvalFault> + Sync,
    T: FilesTold,
    S: InputFile + Send + Sync + Drop,
    I: ItemsKept + Send + Sync,
    G: Gate,
>(
    rt: &R,
    alloc: Global,
    job: &DrivenJob<'a, 't, F, T, S, I>,
    seats: Vec<Seat<S>>,
    gate: &G,
) -> (
    Vec<Seat<S>>,
    Result<Pieces<Counted<CameOut<'a, I>>>, JobFault<Failed>>,
)
    requires some { 0 < length seats.items }
    requires files { All (HoldsFiles S.held job.now.stage.cut.now (T.told job.now.told.now))
        seats.items }
    requires evaluates { Evaluates job.now.stage.depth (F.pre job.now.stage.evaluator.inner)
        (F.post job.now.stage.evaluator.inner) }
    ensures files { All (HoldsFiles S.held job.now.stage.cut.now (T.told job.now.told.now))
        result.0.items }
    ensures many { length result.0.items ≡ length seats.items }
    ensures whole { IfOk result.1 (λ p. IsWhole told_step
        (IsKeyedPiece I.stands job.now.stage (T.told job.now.told.now))
        (pieces_of job.now.stage.cut.now.size job.now.stage.cut.now.lengths)
        (last_step job.now.stage + 1) p.done.items p.events.items) }
    ensures enough { IfOk result.1
        (λ p. AllEnough told_step (last_step job.now.stage + 1) p.done.items) }
    ensures calm { OnOk result.1 (map (λ s. all_faults S.faults s.files.items) result.0.items
        ≡ map (λ s. all_faults S.faults s.files.items) seats.items) }
    ensures rises { AllRise (map (λ s. all_faults S.faults s.files.items) seats.items)
        (map (λ s. all_faults S.faults s.files.items) result.0.items) }
    ensures cause { IsJob result.1
        → SomeRose (map (λ s. all_faults S.faults s.files.items) seats.items)
        (map (λ s. all_faults S.faults s.files.items) result.0.items) }
{
    let full = whole_limit(&job.stage);
    run_pieces(rt, alloc, job, job.stage.cut.pieces(), full, seats, gate)
}

/// The same for a stage that ends in `order by`.
pub fn run_driven_orders<
    'a,
    't,
    R: Threads + Wait + Sync,
    F: for<'s, 'b> Fn(Global, &BoundExpr, &Env<'s, 'b>) -> Result<Value<'b>, EvalFault> + Sync,
    T: FilesTold,
    S: InputFile + Send + Sync + Drop,
    I: ItemsKept + Send + Sync,
    G: Gate,
>(
    rt: &R,
    alloc: Global,
    job: &DrivenOrderJob<'a, 't, F, T, S, I>,
    seats: Vec<Seat<S>>,
    gate: &G,
) -> (
    Vec<Seat<S>>,
    Result<Pieces<OrderCounted<CameOut<'a, I>>>, JobFault<Failed>>,
)
    requires some { 0 < length seats.items }
    requires files { All (HoldsFiles S.held job.now.stage.cut.now (T.told job.now.told.now))
        seats.items }
    requires evaluates { Evaluates job.now.stage.depth (F.pre job.now.stage.evaluator.inner)
        (F.post job.now.stage.evaluator.inner) }
    ensures files { All (HoldsFiles S.held job.now.stage.cut.now (T.told job.now.told.now))
        result.0.items }
    ensures many { length result.0.items ≡ length seats.items }
    ensures whole { IfOk result.1 (λ p. IsWhole order_told_step
        (IsWidePiece I.stands job.now.stage (bound_order_keys job.now.keys.now)
        (T.told job.now.told.now))
        (pieces_of job.now.stage.cut.now.size job.now.stage.cut.now.lengths)
        (last_step job.now.stage + 1) p.done.items p.events.items) }
    ensures enough { IfOk result.1
        (λ p. AllEnough order_told_step (last_step job.now.stage + 1) p.done.items) }
    ensures calm { OnOk result.1 (map (λ s. all_faults S.faults s.files.items) result.0.items
        ≡ map (λ s. all_faults S.faults s.files.items) seats.items) }
    ensures rises { AllRise (map (λ s. all_faults S.faults s.files.items) seats.items)
        (map (λ s. all_faults S.faults s.files.items) result.0.items) }
    ensures cause { IsJob result.1
        → SomeRose (map (λ s. all_faults S.faults s.files.items) seats.items)
        (map (λ s. all_faults S.faults s.files.items) result.0.items) }
{
    let full = whole_limit(&job.stage);
    run_pieces(rt, alloc, job, job.stage.cut.pieces(), full, seats, gate)
}
