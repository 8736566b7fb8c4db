//! What the workers do: each runs pieces from the board on its own seat, until there is none.

ghost use Rattle.std.specs.Prelude.{◌≡◌, ◌<◌, ◌≤◌, ℕ, length, slice_index_or, All, OnOk};
ghost use Rattle.outside.specs.Counted.{Rose};
ghost use Rattle.piece_board.specs.Faults.{IsJob};
ghost use Rattle.piece_board.specs.inside.Slots.{IsGood, IsReady, IsWorked, WorkedAll};

use crate::board::Board;
use crate::job::{Job, JobFault};
use fault_merge::Done;
use outside::Gate;
use std::sync::{Mutex, Wait};
use std::thread;
use std::thread::Threads;

// A worker's seat, and what it has done.
pub struct Slot<S, O, F> {
    pub seat: S,
    pub done: Vec<Done<O>>,
    pub fault: Option<JobFault<F>>,
}

// Runs pieces until there is none, or until one has no output. Nothing is known of a board that is
// locked but that its log replays, so the numbers of each ticket are tested.
fn run_seat<R: Wait, J: Job, G: Gate>(
    rt: &R,
    job: &J,
    total: u64,
    full: u32,
    board: &Mutex<Board>,
    gate: &G,
    seat: &mut J::Seat,
    done: &mut Vec<Done<J::Out>>,
) -> Result<(), JobFault<J::Fault>>
    requires total { total ≡ J.total job.now }
    requires full { full ≡ J.full job.now }
    requires fits { J.fits job.now seat.old }
    requires good { All (IsGood (J.good job.now)) done.old.items }
    ensures fits { J.fits job.now seat.new }
    ensures good { All (IsGood (J.good job.now)) done.new.items }
    ensures calm { OnOk result (J.trouble seat.new ≡ J.trouble seat.old) }
    ensures rises { J.trouble seat.old ≤ J.trouble seat.new }
    ensures cause { IsJob result → Rose (J.trouble seat.old) (J.trouble seat.new) }
{
    for _turn in 0..total {
        let taken = board.lock(rt).take();
        let Some(ticket) = taken else {
            break;
        };
        if ticket.piece >= total || ticket.limit > full {
            break;
        }
        gate.before(ticket.piece);
        let answer = job.run(seat, ticket.piece, ticket.limit);
        gate.after(ticket.piece);
        let out = answer?;
        let told = J::told(&out);
        done.push(Done {
            piece: ticket.piece,
            limit: ticket.limit,
            out,
        })?;
        if let Some(clause) = told {
            board.lock(rt).tell(clause, ticket.piece);
        }
    }
    Ok(())
}

// One worker, who stops the board where a piece has no output.
fn work<R: Wait, J: Job, G: Gate>(
    rt: &R,
    job: &J,
    total: u64,
    full: u32,
    board: &Mutex<Board>,
    gate: &G,
    slot: &mut Slot<J::Seat, J::Out, J::Fault>,
)
    requires total { total ≡ J.total job.now }
    requires full { full ≡ J.full job.now }
    requires ready { IsReady (J.fits job.now) slot.old }
    ensures { IsWorked (J.fits job.now) J.trouble (J.good job.now) slot.old slot.new }
{
    let ended = run_seat(
        rt,
        job,
        total,
        full,
        board,
        gate,
        &mut slot.seat,
        &mut slot.done,
    );
    if let Err(fault) = ended {
        board.lock(rt).stop();
        slot.fault = Some(fault);
    }
}

// All workers, each in a thread of its own where one can be made.
fn work_all<R: Threads + Wait + Sync, J: Job, G: Gate>(
    rt: &R,
    job: &J,
    total: u64,
    full: u32,
    board: &Mutex<Board>,
    gate: &G,
    slots: &mut [Slot<J::Seat, J::Out, J::Fault>],
)
    requires total { total ≡ J.total job.now }
    requires full { full ≡ J.full job.now }
    requires some { 0 < length slots.old }
    requires ready { All (IsReady (J.fits job.now)) slots.old }
    ensures { (i : ℕ) (d : _) → i < length slots.old
        → IsWorked (J.fits job.now) J.trouble (J.good job.now)
        (slice_index_or slots.old i d) (slice_index_or slots.new i d) }
{
    let count = slots.len();
    let one = |_place: usize, slot: &mut Slot<J::Seat, J::Out, J::Fault>|
        requires { (total ≡ J.total job.now) × (full ≡ J.full job.now)
            × IsReady (J.fits job.now) slot.now }
        ensures { IsWorked (J.fits job.entry.now) J.trouble (J.good job.entry.now)
            slot.entry.now slot.exit.now }
    { work(rt, job, total, full, board, gate, slot) };
    thread::for_each_mut(rt, slots, count, &one);
}

// All workers of a list of slots.
pub(crate) fn work_on<R: Threads + Wait + Sync, J: Job, G: Gate>(
    rt: &R,
    job: &J,
    total: u64,
    full: u32,
    board: &Mutex<Board>,
    gate: &G,
    slots: &mut Vec<Slot<J::Seat, J::Out, J::Fault>>,
)
    requires total { total ≡ J.total job.now }
    requires full { full ≡ J.full job.now }
    requires some { 0 < length slots.old.items }
    requires ready { All (IsReady (J.fits job.now)) slots.old.items }
    ensures { WorkedAll (J.fits job.now) J.trouble (J.good job.now)
        slots.old.items slots.new.items }
{
    work_all(rt, job, total, full, board, gate, slots.as_mut_slice());
}
