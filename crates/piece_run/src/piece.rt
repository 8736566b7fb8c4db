//! A stage over a piece of an input, which a worker reads.

ghost use Rattle.std.specs.Prelude.{◌≡◌, ◌≤◌, ◌<◌, ◌+◌, length, map, get_or, IfOk, OnOk, IfSome};
ghost use Rattle.outside.specs.Counted.{Rose};
ghost use Rattle.line_pieces.specs.Cuts.{pieces_of, HaveLengths};
ghost use Rattle.query_tree.specs.BoundViews.{bound_order_keys};
ghost use Rattle.query_meaning.specs.Orders.{column_places};
ghost use Rattle.query_meaning.specs.inside.Evaluates.{Evaluates};
ghost use Rattle.piece_board.specs.Faults.{IsJob};
ghost use Rattle.piece_outcomes.specs.Counting.{told_step, order_told_step};
ghost use Rattle.piece_outcomes.specs.Orders.{IsWide};
ghost use Rattle.piece_seats.specs.Seats.{all_faults, first_line};
ghost use Rattle.piece_run.specs.Seats.{IsOfPiece, IsOrderOfPiece};
ghost use Rattle.piece_run.specs.Staged.{EndKeyedBy, last_step};

use crate::came::CameOut;
use crate::stage::DrivenStage;
use item_reader::Reader;
use item_tree::NoMemory;
use outside::{Failed, InputFile};
use piece_board::JobFault;
use piece_outcomes::{Counted, OrderCounted};
use piece_seats::{ItemsKept, Seat};
use query_meaning::{Env, EvalFault, Value};
use query_tree::{BoundExpr, OrderKey};
use std::alloc::Global;

impl<
    'a,
    F: for<'s, 'b> Fn(Global, &BoundExpr, &Env<'s, 'b>) -> Result<Value<'b>, EvalFault>,
> DrivenStage<'a, F> {
    // The number of the first line of a piece among all lines.
    fn first_of(&self, piece: u64) -> Result<u64, NoMemory>
        ensures { IfOk result (λ n. n ≡ first_line self.now.before.now piece) }
    {
        let before = match self.before.get(piece as usize) {
            Some(n) => *n,
            None => 0,
        };
        match before.checked_add(1) {
            Some(n) => Ok(n),
            None => Err(NoMemory),
        }
    }

    /// What the stage makes of a piece below a limit.
    pub fn of_piece<S: InputFile, I: ItemsKept>(
        &self,
        seat: &mut Seat<S>,
        piece: u64,
        limit: u32,
    ) -> Result<Counted<CameOut<'a, I>>, JobFault<Failed>>
        requires piece { piece < pieces_of self.now.cut.now.size self.now.cut.now.lengths }
        requires lengths { HaveLengths self.now.cut.now.lengths (map S.held seat.old.files.items) }
        requires below { limit ≤ last_step self.now + 1 }
        requires evaluates { Evaluates self.now.depth (F.pre self.now.evaluator.inner)
            (F.post self.now.evaluator.inner) }
        ensures outcome { IfOk result (IsOfPiece I.stands self.now
            (map S.held seat.old.files.items) piece limit) }
        ensures keys { IfOk result (λ out. EndKeyedBy self.now.end out.outcome) }
        ensures below { IfOk result (λ out. IfSome (told_step out) (λ step. step < limit)) }
        ensures same { map S.held seat.new.files.items ≡ map S.held seat.old.files.items }
        ensures calm { OnOk result (all_faults S.faults seat.new.files.items
            ≡ all_faults S.faults seat.old.files.items) }
        ensures rises { all_faults S.faults seat.old.files.items
            ≤ all_faults S.faults seat.new.files.items }
        ensures cause { IsJob result → Rose (all_faults S.faults seat.old.files.items)
            (all_faults S.faults seat.new.files.items) }
    {
        seat.read_piece(self.cut, piece)?;
        let first = self.first_of(piece)?;
        let mut reader = Reader::new(self.evaluator.alloc);
        let out = self.of_lines(&mut reader, seat.pieces.lines(), first, limit)?;
        Ok(out)
    }

    /// The same, where the stage ends in `order by` these keys, and not in its own end.
    pub fn of_piece_ordered<S: InputFile, I: ItemsKept>(
        &self,
        keys: &[OrderKey<BoundExpr>],
        seat: &mut Seat<S>,
        piece: u64,
        limit: u32,
    ) -> Result<OrderCounted<CameOut<'a, I>>, JobFault<Failed>>
        requires piece { piece < pieces_of self.now.cut.now.size self.now.cut.now.lengths }
        requires lengths { HaveLengths self.now.cut.now.lengths (map S.held seat.old.files.items) }
        requires below { limit ≤ last_step self.now + 1 }
        requires evaluates { Evaluates self.now.depth (F.pre self.now.evaluator.inner)
            (F.post self.now.evaluator.inner) }
        ensures outcome { IfOk result (IsOrderOfPiece I.stands self.now
            (bound_order_keys keys.now) (map S.held seat.old.files.items) piece limit) }
        ensures wide { IfOk result
            (λ out. IsWide (length (column_places (bound_order_keys keys.now))) out.outcome) }
        ensures below { IfOk result (λ out. IfSome (order_told_step out) (λ step. step < limit)) }
        ensures same { map S.held seat.new.files.items ≡ map S.held seat.old.files.items }
        ensures calm { OnOk result (all_faults S.faults seat.new.files.items
            ≡ all_faults S.faults seat.old.files.items) }
        ensures rises { all_faults S.faults seat.old.files.items
            ≤ all_faults S.faults seat.new.files.items }
        ensures cause { IsJob result → Rose (all_faults S.faults seat.old.files.items)
            (all_faults S.faults seat.new.files.items) }
    {
        seat.read_piece(self.cut, piece)?;
        let first = self.first_of(piece)?;
        let mut reader = Reader::new(self.evaluator.alloc);
        let out = self.of_lines_ordered(keys, &mut reader, seat.pieces.lines(), first, limit)?;
        Ok(out)
    }
}
