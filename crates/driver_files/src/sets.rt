//! Opens a set of files for each worker.

ghost use Rattle.std.specs.Prelude.{◌≡◌, ◌<◌, ◌≤◌, ℕ, ◌+◌, ◌∷◌, [], All, IfOk, IfSome, OnErr, is_some, length, vec_len};
ghost use Rattle.std.specs.Vec.{vec_capacity};
ghost use Rattle.driver_files.specs.Counts.{ClosesFiles};
ghost use Rattle.driver_files.specs.Driver.{IsSet, told_files, failures};
ghost use Rattle.driver_files.specs.Seats.{found_before};
ghost use Rattle.driver_files.specs.inside.Sets.{CountsMore};

use crate::close::close_set;
use crate::set::open_set;
use item_tree::{NoMemory, Str};
use line_pieces::PieceFault;
use outside::{Inputs, OpenFault};
use std::alloc::Global;

// This set, with room for so many. Where there is none, its files are closed.
pub(crate) fn begin_sets<I: Inputs>(
    alloc: Global,
    inputs: &mut I,
    first: Vec<I::File>,
    count: usize,
) -> Result<Vec<Vec<I::File>>, NoMemory>
    requires { 0 < count }
    ensures world { I.world inputs.new ≡ I.world inputs.old }
    ensures sets { IfOk result (λ v. (v.items ≡ first ∷ []) × (count ≤ vec_capacity v)
        × (I.counts inputs.new ≡ I.counts inputs.old)) }
    ensures closed { OnErr result (ClosesFiles (vec_len first)
        (failures I.File.faults first.items) (I.counts inputs.old) (I.counts inputs.new)) }
{
    let Ok(mut sets) = Vec::with_capacity(alloc, count) else {
        close_set(inputs, first);
        return Err(NoMemory);
    };
    match sets.push(first) {
        Ok(()) => Ok(sets),
        Err(_failed) => unreachable!(),
    }
}

/// Opens more sets of files of these names, up to this many. There is room for all. Where a name is
/// missing that had been there, there are fewer.
pub(crate) fn open_more<I: Inputs>(
    alloc: Global,
    inputs: &mut I,
    names: &[Str],
    sets: &mut Vec<Vec<I::File>>,
    more: usize,
) -> Result<(), PieceFault>
    requires room { vec_len sets.old + more ≤ vec_capacity sets.old }
    requires there { IfSome (I.world inputs.old) (λ w.
        found_before w names.now ≡ length names.now) }
    requires sets { All (λ s. IsSet I.File.held I.File.faults
        (told_files (I.world inputs.old) names.now) s.items) sets.old.items }
    ensures world { I.world inputs.new ≡ I.world inputs.old }
    ensures sets { All (λ s. IsSet I.File.held I.File.faults
        (told_files (I.world inputs.old) names.now) s.items) sets.new.items }
    ensures counts { (added : ℕ) × (vec_len sets.new ≡ vec_len sets.old + added)
        × CountsMore (is_some (I.world inputs.old)) (length names.now) more added result
        (I.counts inputs.old) (I.counts inputs.new) }
{
    for _ in 0..more {
        let files = match open_set(alloc, inputs, names) {
            Ok(files) => files,
            Err(OpenFault::Missing) => return Ok(()),
            Err(OpenFault::Failed) => return Err(PieceFault::ReadFault),
            Err(OpenFault::NoMemory) => return Err(PieceFault::NoMemory),
        };
        match sets.push(files) {
            Ok(()) => {}
            Err(_failed) => unreachable!(),
        }
    }
    Ok(())
}
