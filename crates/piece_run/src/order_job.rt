//! A stage that ends in `order by` over the pieces of an input, as a job that workers run.

ghost use Rattle.std.specs.Prelude.{◌+◌};

use crate::came::CameOut;
use crate::stage::DrivenStage;
use outside::{Failed, InputFile};
use piece_board::{Job, JobFault};
use piece_outcomes::OrderCounted;
use piece_seats::{FilesTold, ItemsKept, Seat};
use query_meaning::{Env, EvalFault, Value};
use query_tree::{BoundExpr, OrderKey};
use std::alloc::Global;
use std::marker::PhantomData;

/// A stage that ends in `order by` these keys, and not in its own end, and is run on the pieces of
/// an input. Each worker has the input's files open.
#[derive(Drop)]
pub struct DrivenOrderJob<'a, 't, F, T, S, I> {
    /// The stage, up to its end.
    pub stage: DrivenStage<'a, F>,
    /// The keys of the order.
    pub keys: &'a [OrderKey<BoundExpr>],
    /// What the files of the input tell.
    pub told: &'t T,
    /// The files that a worker has open.
    pub files: PhantomData<S>,
    /// What is kept of items.
    pub kept: PhantomData<I>,
}

impl<
    'a,
    't,
    F: for<'s, 'b> Fn(Global, &BoundExpr, &Env<'s, 'b>) -> Result<Value<'b>, EvalFault> + Sync,
    T: FilesTold,
    S: InputFile + Send + Sync,
    I: ItemsKept + Send + Sync,
> Job for DrivenOrderJob<'a, 't, F, T, S, I> {
    ghost use Rattle.line_pieces.specs.Cuts.{pieces_of};
    ghost use Rattle.query_tree.specs.BoundViews.{bound_order_keys};
    ghost use Rattle.query_meaning.specs.inside.Evaluates.{Evaluates};
    ghost use Rattle.piece_outcomes.specs.Counting.{order_told_step};
    ghost use Rattle.piece_seats.specs.Seats.{all_faults, HoldsFiles};
    ghost use Rattle.piece_run.specs.Seats.{IsWidePiece};
    ghost use Rattle.piece_run.specs.Staged.{last_step};

    type Seat = Seat<S>;

    type Out = OrderCounted<CameOut<'a, I>>;

    type Fault = Failed;

    ghost total = { λ j. pieces_of j.stage.cut.now.size j.stage.cut.now.lengths };

    ghost full = { λ j. last_step j.stage + 1 };

    ghost fits = { λ j s. HoldsFiles S.held j.stage.cut.now (T.told j.told.now) s
        × Evaluates j.stage.depth (F.pre j.stage.evaluator.inner)
        (F.post j.stage.evaluator.inner) };

    ghost good = { λ j piece limit out. IsWidePiece I.stands j.stage
        (bound_order_keys j.keys.now) (T.told j.told.now) piece limit out };

    ghost trouble = { λ s. all_faults S.faults s.files.items };

    ghost tells = { order_told_step };

    fn run(
        &self,
        seat: &mut Seat<S>,
        piece: u64,
        limit: u32,
    ) -> Result<OrderCounted<CameOut<'a, I>>, JobFault<Failed>> {
        self.stage.of_piece_ordered(self.keys, seat, piece, limit)
    }

    fn told(out: &OrderCounted<CameOut<'a, I>>) -> Option<u32> {
        out.told()
    }
}
