//! How many lines stand before each piece of an input, which workers count.

ghost use Rattle.std.specs.Prelude.{◌≡◌, ◌<◌, length, map, All, IfOk, OnOk};
ghost use Rattle.line_pieces.specs.Cuts.{pieces_of};
ghost use Rattle.piece_board.specs.Faults.{IsJob};
ghost use Rattle.piece_board.specs.Trouble.{AllRise, SomeRose};
ghost use Rattle.piece_seats.specs.Counting.{AreLinesBefore};
ghost use Rattle.piece_seats.specs.Seats.{all_faults, HoldsFiles};
ghost use Rattle.piece_seats.specs.inside.Sums.{sums_from};

use crate::counts::counted;
use crate::seat::Seat;
use crate::told::FilesTold;
use fault_merge::Done;
use item_tree::NoMemory;
use line_pieces::Cut;
use outside::{Failed, Gate, InputFile};
use piece_board::{Job, JobFault, run_pieces};
use std::alloc::Global;
use std::marker::PhantomData;
use std::sync::Wait;
use std::thread::Threads;

// Counts the lines of each piece of an input. Each worker has the input's files open.
#[derive(Drop)]
pub(crate) struct CountJob<'c, 't, T, S> {
    cut: &'c Cut,
    told: &'t T,
    files: PhantomData<S>,
}

impl<'c, 't, T: FilesTold, S: InputFile + Send + Sync> Job for CountJob<'c, 't, T, S> {
    ghost use Rattle.std.specs.Prelude.{◌≡◌, None};
    ghost use Rattle.line_pieces.specs.Cuts.{pieces_of};
    ghost use Rattle.piece_seats.specs.Seats.{all_faults, HoldsFiles};
    ghost use Rattle.piece_seats.specs.inside.Sums.{IsCountOf};

    type Seat = Seat<S>;

    type Out = u64;

    type Fault = Failed;

    ghost total = { λ j. pieces_of j.cut.now.size j.cut.now.lengths };

    ghost full = { λ j. 0 };

    ghost fits = { λ j s. HoldsFiles S.held j.cut.now (T.told j.told.now) s };

    ghost good = { λ j piece limit out. IsCountOf j.cut.now (T.told j.told.now) piece out };

    ghost trouble = { λ s. all_faults S.faults s.files.items };

    ghost tells = { λ out. None };

    fn run(&self, seat: &mut Seat<S>, piece: u64, _limit: u32) -> Result<u64, JobFault<Failed>> {
        seat.read_piece(self.cut, piece)?;
        Ok(seat.pieces.count())
    }

    fn told(_out: &u64) -> Option<u32>
        ensures { result ≡ None }
    {
        None
    }
}

// For each output the sum of those before it.
fn sums_before(alloc: Global, done: &[Done<u64>]) -> Result<Vec<u64>, NoMemory>
    ensures { IfOk result (λ v. v.items ≡ sums_from 0 (map (λ d. d.out) done.now)) }
{
    let mut before = Vec::new(alloc);
    let mut sum = 0;
    for piece in done {
        before.push(sum)?;
        sum = counted(sum, piece.out)?;
    }
    Ok(before)
}

/// How many lines stand before each piece of an input, one number for each piece, which as many
/// workers count as there are seats. All seats come back, at every answer. `Job` comes only where a
/// file of a seat failed, and `NoMemory` for want of memory alone.
#[tactic(auto, using(crate::proofs::SeatsStay::as_many))]
pub fn lines_before<
    R: Threads + Wait + Sync,
    T: FilesTold,
    S: InputFile + Send + Sync + Drop,
    G: Gate,
>(
    rt: &R,
    alloc: Global,
    cut: &Cut,
    told: &T,
    seats: Vec<Seat<S>>,
    gate: &G,
) -> (Vec<Seat<S>>, Result<Vec<u64>, JobFault<Failed>>)
    requires some { 0 < length seats.items }
    requires files { All (HoldsFiles S.held cut.now (T.told told.now)) seats.items }
    ensures before { IfOk result.1
        (λ before. AreLinesBefore cut.now (T.told told.now) before.items) }
    ensures files { All (HoldsFiles S.held cut.now (T.told told.now)) result.0.items }
    ensures many { length result.0.items ≡ length seats.items }
    ensures calm { OnOk result.1 (map (λ s. all_faults S.faults s.files.items) result.0.items
        ≡ map (λ s. all_faults S.faults s.files.items) seats.items) }
    ensures rises { AllRise (map (λ s. all_faults S.faults s.files.items) seats.items)
        (map (λ s. all_faults S.faults s.files.items) result.0.items) }
    ensures cause { IsJob result.1
        → SomeRose (map (λ s. all_faults S.faults s.files.items) seats.items)
        (map (λ s. all_faults S.faults s.files.items) result.0.items) }
{
    let job = CountJob {
        cut,
        told,
        files: PhantomData,
    };
    let (seats, answer) = run_pieces(rt, alloc, &job, cut.pieces(), 0, seats, gate);
    match answer {
        Ok(pieces) => match sums_before(alloc, &pieces.done) {
            Ok(before) => (seats, Ok(before)),
            Err(NoMemory) => (seats, Err(JobFault::NoMemory)),
        },
        Err(fault) => (seats, Err(fault)),
    }
}
