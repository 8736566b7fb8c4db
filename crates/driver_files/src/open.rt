//! Opens the files of a driver.

ghost use Rattle.std.specs.Prelude.{◌≡◌, ◌<◌, ◌≤◌, IfOk, IfSome, length};
ghost use Rattle.line_pieces.specs.Cuts.{HaveLengths};
ghost use Rattle.driver_files.specs.Driver.{CountsDriver, IsDriver, IsOpening, IsSet, IsToldDriver, IsToldOpening, told_files};
ghost use Rattle.driver_files.specs.Seats.{found_before};
ghost use Rattle.driver_files.specs.inside.Sets.{CountsRest};

use crate::close::{close_driver, close_set};
use crate::driver::{DriverFiles, Opening};
use crate::seats::seats_of;
use crate::set::{lengths_of, open_set};
use crate::sets::{begin_sets, open_more};
use item_tree::Str;
use line_pieces::{Cut, PieceFault};
use outside::{Inputs, OpenFault};
use std::alloc::Global;

// Opens a set of files for each worker, of which the first is open, and whose files
// have these lengths.
fn open_cut<I: Inputs>(
    alloc: Global,
    inputs: &mut I,
    names: &[Str],
    workers: u32,
    lengths: Vec<u64>,
    size: u64,
    first: Vec<I::File>,
) -> Result<DriverFiles<I::File>, PieceFault>
    requires workers { 0 < workers }
    requires few { length names.now ≤ 64 }
    requires there { IfSome (I.world inputs.old) (λ w.
        found_before w names.now ≡ length names.now) }
    requires first { IsSet I.File.held I.File.faults
        (told_files (I.world inputs.old) names.now) first.items }
    requires lengths { HaveLengths lengths.items
        (told_files (I.world inputs.old) names.now) }
    requires size { 0 < size }
    ensures world { I.world inputs.new ≡ I.world inputs.old }
    ensures files { IfOk result (λ d. IsDriver I.File.held I.File.faults
        (I.world inputs.old) names.now workers size d) }
    ensures told { IfSome (I.world inputs.old) (λ w. IfOk result (λ d.
        IsToldDriver w names.now workers size d)) }
    ensures counts { CountsRest (I.world inputs.old) names.now workers size result
        (I.counts inputs.old) (I.counts inputs.new) }
{
    let cut = Cut::new(lengths, size);
    let count = seats_of(workers, cut.pieces(), names.len());
    let Ok(mut sets) = begin_sets(alloc, inputs, first, count) else {
        return Err(PieceFault::NoMemory);
    };
    match open_more(alloc, inputs, names, &mut sets, count - 1) {
        Ok(()) => Ok(DriverFiles { cut, sets }),
        Err(fault) => {
            close_driver(inputs, sets);
            Err(fault)
        }
    }
}

// Opens the files of a driver, of which the first set is open.
fn open_rest<I: Inputs>(
    alloc: Global,
    inputs: &mut I,
    names: &[Str],
    workers: u32,
    size: u64,
    mut first: Vec<I::File>,
) -> Result<DriverFiles<I::File>, PieceFault>
    requires workers { 0 < workers }
    requires few { length names.now ≤ 64 }
    requires there { IfSome (I.world inputs.old) (λ w.
        found_before w names.now ≡ length names.now) }
    requires first { IsSet I.File.held I.File.faults
        (told_files (I.world inputs.old) names.now) first.items }
    requires size { 0 < size }
    ensures world { I.world inputs.new ≡ I.world inputs.old }
    ensures files { IfOk result (λ d. IsDriver I.File.held I.File.faults
        (I.world inputs.old) names.now workers size d) }
    ensures told { IfSome (I.world inputs.old) (λ w. IfOk result (λ d.
        IsToldDriver w names.now workers size d)) }
    ensures counts { CountsRest (I.world inputs.old) names.now workers size result
        (I.counts inputs.old) (I.counts inputs.new) }
{
    match lengths_of(alloc, &mut first) {
        Ok(lengths) => open_cut(alloc, inputs, names, workers, lengths, size, first),
        Err(fault) => {
            close_set(inputs, first);
            Err(fault)
        }
    }
}

/// Opens the files of these names, one set for each of so many workers, and cuts their bytes into
/// pieces of the wanted size, as `Cut::new` does. A name that stands twice is opened twice. There
/// are no more sets than pieces, one at least, and 512 files at most stand open. Where the answer
/// is another one than `Open`, all files that were opened are closed. More than 64 names are
/// `NoMemory`.
pub fn open_driver<I: Inputs>(
    alloc: Global,
    inputs: &mut I,
    names: &[Str],
    workers: u32,
    size: u64,
) -> Result<Opening<I::File>, PieceFault>
    requires some_workers { 0 < workers }
    requires some_size { 0 < size }
    ensures world { I.world inputs.new ≡ I.world inputs.old }
    ensures opening { IfOk result (λ o.
        IsOpening I.File.held I.File.faults (I.world inputs.old) names.now workers size o) }
    ensures told { IfSome (I.world inputs.old) (λ w. IfOk result (λ o.
        IsToldOpening w names.now workers size o)) }
    ensures counts { CountsDriver (I.world inputs.old) names.now workers size result
        (I.counts inputs.old) (I.counts inputs.new) }
{
    if names.len() > 64 {
        return Err(PieceFault::NoMemory);
    }
    match open_set(alloc, inputs, names) {
        Ok(first) => match open_rest(alloc, inputs, names, workers, size, first) {
            Ok(files) => Ok(Opening::Open(files)),
            Err(fault) => Err(fault),
        },
        Err(OpenFault::Missing) => Ok(Opening::Missing),
        Err(OpenFault::Failed) => Err(PieceFault::ReadFault),
        Err(OpenFault::NoMemory) => Err(PieceFault::NoMemory),
    }
}
