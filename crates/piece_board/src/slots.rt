//! Moves the seats into slots for the workers, and back again.

ghost use Rattle.std.specs.Prelude.{◌≡◌, ◌<◌, ◌≤◌, ◌+◌, ◌∷◌, ◌++◌, [], length, All, Some, None, IfOk, IfErr, OnOk, OnErr, vec_capacity};
ghost use Rattle.piece_board.specs.inside.Slots.{IsGood, AllGood, IsFresh, NoFaults, SomeFault, seats_of};
ghost use Rattle.piece_board.specs.Faults.{IsJobFault};

use crate::job::{Job, JobFault};
use crate::worker::Slot;
use fault_merge::Done;
use item_tree::NoMemory;
use std::alloc::Global;

// Adds an element to a list that has room for it.
fn add<T>(list: &mut Vec<T>, value: T)
    requires { length list.old.items < vec_capacity list.old }
    ensures items { list.new.items ≡ list.old.items ++ value ∷ [] }
    ensures capacity { vec_capacity list.old ≤ vec_capacity list.new }
{
    match list.push(value) {
        Ok(()) => {}
        Err(_failed) => unreachable!(),
    }
}

// Moves the seats into slots. Where memory is short they stay.
pub(crate) fn into_slots<S, O, F>(
    alloc: Global,
    seats: &mut Vec<S>,
) -> Result<Vec<Slot<S, O, F>>, NoMemory>
    ensures moved { IfOk result (λ v. seats_of v.items ≡ seats.old.items) }
    ensures fresh { IfOk result (λ v. All IsFresh v.items) }
    ensures emptied { OnOk result (seats.new.items ≡ []) }
    ensures room { vec_capacity seats.new ≡ vec_capacity seats.old }
    ensures err { OnErr result (seats.new.items ≡ seats.old.items) }
{
    let mut slots = Vec::with_capacity(alloc, seats.len())?;
    'moving: while !seats.is_empty() {
        let slot = Slot {
            seat: seats.remove(0),
            done: Vec::new(alloc),
            fault: None,
        };
        add(&mut slots, slot);
    }
    Ok(slots)
}

// Adds what one worker has done, where it had no fault.
fn gather<O: Drop, F: Drop>(
    all: &mut Vec<Done<O>>,
    mut done: Vec<Done<O>>,
    fault: Option<JobFault<F>>,
) -> Result<(), JobFault<F>>
    ensures added { OnOk result (all.new.items ≡ all.old.items ++ done.items) }
    ensures ok { OnOk result (fault ≡ None) }
    ensures err { IfErr result (λ e. IsJobFault e → fault ≡ Some e) }
    ensures same { OnErr result (all.new.items ≡ all.old.items) }
{
    if let Some(fault) = fault {
        return Err(fault);
    }
    all.append(&mut done)?;
    Ok(())
}

// Moves the seats back, and gathers what was done.
pub(crate) fn from_slots<J: Job>(
    alloc: Global,
    job: &J,
    mut slots: Vec<Slot<J::Seat, J::Out, J::Fault>>,
    seats: &mut Vec<J::Seat>,
) -> Result<Vec<Done<J::Out>>, JobFault<J::Fault>>
    requires room { length seats.old.items + length slots.items ≤ vec_capacity seats.old }
    requires good { AllGood (J.good job.now) slots.items }
    ensures seats { seats.new.items ≡ seats.old.items ++ seats_of slots.items }
    ensures good { IfOk result (λ v. All (IsGood (J.good job.now)) v.items) }
    ensures ok { OnOk result (NoFaults slots.items) }
    ensures err { IfErr result (λ e. IsJobFault e → SomeFault e slots.items) }
{
    let mut all = Vec::new(alloc);
    let mut ended = Ok(());
    'back: while !slots.is_empty() {
        let Slot { seat, done, fault } = slots.remove(0);
        add(seats, seat);
        if ended.is_ok() {
            ended = gather(&mut all, done, fault);
        }
    }
    slots.destroy_empty();
    ended?;
    Ok(all)
}
