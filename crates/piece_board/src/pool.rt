//! Runs all pieces of a job on workers.

ghost use Rattle.std.specs.Prelude.{◌≡◌, ◌<◌, ◌^◌, length, All, IfOk, OnOk, IfSome, map};
ghost use Rattle.fault_merge.specs.Enough.{AllEnough};
ghost use Rattle.piece_board.specs.Faults.{IsJob};
ghost use Rattle.piece_board.specs.Trouble.{AllRise, SomeRose};
ghost use Rattle.piece_board.specs.Whole.{IsWhole};

use crate::alone::run_alone;
use crate::board::Board;
use crate::job::{Job, JobFault, Pieces};
use crate::settle::settle;
use crate::slots::{from_slots, into_slots};
use crate::worker::work_on;
use outside::Gate;
use std::alloc::Global;
use std::sync::{Mutex, Wait};
use std::thread::Threads;

// Runs all pieces in threads. None where what they did does not agree with the log.
fn run_workers<R: Threads + Wait + Sync, J: Job, G: Gate>(
    rt: &R,
    alloc: Global,
    job: &J,
    total: u64,
    full: u32,
    seats: &mut Vec<J::Seat>,
    gate: &G,
) -> Result<Option<Pieces<J::Out>>, JobFault<J::Fault>>
    requires total { total ≡ J.total job.now }
    requires full { full ≡ J.full job.now }
    requires small { total < 2 ^ 62 }
    requires some { 0 < length seats.old.items }
    requires fits { All (J.fits job.now) seats.old.items }
    ensures fits { All (J.fits job.now) seats.new.items }
    ensures whole { IfOk result (λ o. IfSome o
        (λ p. IsWhole J.tells (J.good job.now) total full p.done.items p.events.items)) }
    ensures calm { OnOk result
        (map J.trouble seats.new.items ≡ map J.trouble seats.old.items) }
    ensures rises { AllRise (map J.trouble seats.old.items) (map J.trouble seats.new.items) }
    ensures cause { IsJob result
        → SomeRose (map J.trouble seats.old.items) (map J.trouble seats.new.items) }
{
    let board = Board::new(alloc, total, full)?;
    let mut slots = into_slots(alloc, seats)?;
    let board = Mutex::new(board);
    work_on(rt, job, total, full, &board, gate, &mut slots);
    let done = from_slots(alloc, job, slots, seats)?;
    Ok(settle(alloc, job, total, full, board.into_inner(), done)?)
}

// Runs all pieces on the first seat.
fn run_first<J: Job, G: Gate>(
    alloc: Global,
    job: &J,
    total: u64,
    full: u32,
    seats: &mut Vec<J::Seat>,
    gate: &G,
) -> Result<Pieces<J::Out>, JobFault<J::Fault>>
    requires total { total ≡ J.total job.now }
    requires full { full ≡ J.full job.now }
    requires small { total < 2 ^ 62 }
    requires some { 0 < length seats.old.items }
    requires fits { All (J.fits job.now) seats.old.items }
    ensures fits { All (J.fits job.now) seats.new.items }
    ensures whole { IfOk result
        (λ p. IsWhole J.tells (J.good job.now) total full p.done.items p.events.items) }
    ensures calm { OnOk result
        (map J.trouble seats.new.items ≡ map J.trouble seats.old.items) }
    ensures rises { AllRise (map J.trouble seats.old.items) (map J.trouble seats.new.items) }
    ensures cause { IsJob result
        → SomeRose (map J.trouble seats.old.items) (map J.trouble seats.new.items) }
{
    run_alone(alloc, job, total, full, &mut seats[0], gate)
}

/// Runs all pieces of a job, each once, by as many workers as there are seats. All seats come back,
/// at every answer. `Job` comes only where a seat had trouble. The gate is called before and after
/// each piece, on the thread that runs it.
pub fn run_pieces<R: Threads + Wait + Sync, J: Job, G: Gate>(
    rt: &R,
    alloc: Global,
    job: &J,
    total: u64,
    full: u32,
    mut seats: Vec<J::Seat>,
    gate: &G,
) -> (Vec<J::Seat>, Result<Pieces<J::Out>, JobFault<J::Fault>>)
    requires total { total ≡ J.total job.now }
    requires full { full ≡ J.full job.now }
    requires small { total < 2 ^ 62 }
    requires some { 0 < length seats.items }
    requires fits { All (J.fits job.now) seats.items }
    ensures fits { All (J.fits job.now) result.0.items }
    ensures whole { IfOk result.1
        (λ p. IsWhole J.tells (J.good job.now) total full p.done.items p.events.items) }
    ensures enough { IfOk result.1 (λ p. AllEnough J.tells full p.done.items) }
    ensures calm { OnOk result.1 (map J.trouble result.0.items ≡ map J.trouble seats.items) }
    ensures rises { AllRise (map J.trouble seats.items) (map J.trouble result.0.items) }
    ensures cause { IsJob result.1
        → SomeRose (map J.trouble seats.items) (map J.trouble result.0.items) }
{
    match run_workers(rt, alloc, job, total, full, &mut seats, gate) {
        Ok(Some(pieces)) => (seats, Ok(pieces)),
        Ok(None) => {
            let answer = run_first(alloc, job, total, full, &mut seats, gate);
            (seats, answer)
        }
        Err(fault) => (seats, Err(fault)),
    }
}
