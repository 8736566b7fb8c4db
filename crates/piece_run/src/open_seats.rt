//! The open files of a driver as the seats of workers.

ghost use Rattle.std.specs.Prelude.{◌≡◌, ◌<◌, ◌≤◌, ◌+◌, ◌++◌, ◌∷◌, [], map, length, vec_capacity, IfOk, IfErr, Result, Ok, Err};
ghost use Rattle.driver_files.specs.Counts.{ClosesFiles};
ghost use Rattle.piece_run.specs.Leaf.{seat_files, files_of_seats, faults_of_seats};

use driver_files::close_set;
use outside::Inputs;
use piece_seats::Seat;
use std::alloc::Global;

// Adds a seat with these files to seats that have room for it, and takes no memory.
fn add_seat<S: Drop>(alloc: Global, seats: &mut Vec<Seat<S>>, files: Vec<S>)
    requires { length seats.old.items < vec_capacity seats.old }
    ensures seats { map seat_files seats.new.items
        ≡ map seat_files seats.old.items ++ files ∷ [] }
    ensures capacity { vec_capacity seats.old ≤ vec_capacity seats.new }
{
    if seats.push(Seat::new(alloc, files)).is_err() {
        unreachable!()
    }
}

// A seat for each of these sets, in a list that has room for them all.
fn fill_seats<S: Drop>(alloc: Global, seats: Vec<Seat<S>>, sets: Vec<Vec<S>>) -> Vec<Seat<S>>
    requires none { seats.items ≡ [] }
    requires room { length sets.items ≤ vec_capacity seats }
    ensures { map seat_files result.items ≡ sets.items }
{
    let mut seats = seats;
    'filling: for files in sets {
        add_seat(alloc, &mut seats, files);
    }
    seats
}

/// A seat for each of these sets of files; or the sets again, where there is no memory for seats.
pub(crate) fn seats_of<S: Drop>(
    alloc: Global,
    sets: Vec<Vec<S>>,
) -> Result<Vec<Seat<S>>, Vec<Vec<S>>>
    ensures seats { IfOk result (λ seats. map seat_files seats.items ≡ sets.items) }
    ensures back { IfErr result (λ back. back ≡ sets) }
{
    match Vec::with_capacity(alloc, sets.len()) {
        Ok(seats) => Ok(fill_seats(alloc, seats, sets)),
        Err(_) => Err(sets),
    }
}

/// Closes all files of these workers. Their faults go into the count of the inputs.
pub(crate) fn close_seats<I: Inputs>(inputs: &mut I, seats: Vec<Seat<I::File>>)
    ensures world { I.world inputs.new ≡ I.world inputs.old }
    ensures counts { ClosesFiles (files_of_seats seats.items)
        (faults_of_seats I.File.faults seats.items) (I.counts inputs.old) (I.counts inputs.new) }
{
    'closing: for seat in seats {
        close_set(inputs, seat.files);
    }
}
