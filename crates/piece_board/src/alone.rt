//! Runs all pieces of a job in order, on the thread of the caller.

ghost use Rattle.std.specs.Prelude.{◌≡◌, ◌<◌, ◌≤◌, ◌^◌, IfOk, OnOk};
ghost use Rattle.outside.specs.Counted.{Rose};
ghost use Rattle.piece_board.specs.Boards.{reported};
ghost use Rattle.piece_board.specs.Faults.{IsJob};
ghost use Rattle.piece_board.specs.Whole.{IsWhole};

use crate::board::Board;
use crate::job::{Job, JobFault, Pieces};
use fault_merge::Done;
use outside::Gate;
use std::alloc::Global;

// Tells the board of a piece's fault, where it has one.
fn report(board: &mut Board, told: Option<u32>, piece: u64)
    ensures { board.new ≡ reported board.old told piece }
{
    if let Some(clause) = told {
        board.tell(clause, piece);
    }
}

pub(crate) fn run_alone<J: Job, G: Gate>(
    alloc: Global,
    job: &J,
    total: u64,
    full: u32,
    seat: &mut J::Seat,
    gate: &G,
) -> Result<Pieces<J::Out>, JobFault<J::Fault>>
    requires total { total ≡ J.total job.now }
    requires full { full ≡ J.full job.now }
    requires small { total < 2 ^ 62 }
    requires fits { J.fits job.now seat.old }
    ensures fits { J.fits job.now seat.new }
    ensures whole { IfOk result
        (λ p. IsWhole J.tells (J.good job.now) total full p.done.items p.events.items) }
    ensures calm { OnOk result (J.trouble seat.new ≡ J.trouble seat.old) }
    ensures rises { J.trouble seat.old ≤ J.trouble seat.new }
    ensures cause { IsJob result → Rose (J.trouble seat.old) (J.trouble seat.new) }
{
    let mut board = Board::new(alloc, total, full)?;
    let mut done = Vec::new(alloc);
    for piece in 0..total {
        let Some(ticket) = board.take() else {
            unreachable!()
        };
        gate.before(piece);
        let answer = job.run(seat, piece, ticket.limit);
        gate.after(piece);
        let out = answer?;
        report(&mut board, J::told(&out), piece);
        done.push(Done {
            piece,
            limit: ticket.limit,
            out,
        })?;
    }
    let (_state, events) = board.into_log();
    Ok(Pieces { done, events })
}
