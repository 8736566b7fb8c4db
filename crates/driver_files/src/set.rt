//! Opens one set of files.

ghost use Rattle.std.specs.Prelude.{◌≡◌, ◌≤◌, [], map, IfOk, IfSome, OnOk, All, is_some, length, vec_len};
ghost use Rattle.std.specs.Vec.{vec_capacity};
ghost use Rattle.line_pieces.specs.Cuts.{HaveLengths};
ghost use Rattle.driver_files.specs.Driver.{IsSet, told_files, failures};
ghost use Rattle.driver_files.specs.inside.Sets.{CountsSet, LeavesSet, LengthsFaults};

use crate::close::close_set;
use item_tree::Str;
use line_pieces::PieceFault;
use outside::{InputFile, Inputs, OpenFault};
use std::alloc::Global;

// Opens the files of these names, up to one that is not opened. There is room for all.
fn open_files<I: Inputs>(
    inputs: &mut I,
    names: &[Str],
    files: &mut Vec<I::File>,
) -> Result<(), OpenFault>
    requires none { files.old.items ≡ [] }
    requires room { length names.now ≤ vec_capacity files.old }
    ensures world { I.world inputs.new ≡ I.world inputs.old }
    ensures held { OnOk result
        (map I.File.held files.new.items ≡ told_files (I.world inputs.old) names.now) }
    ensures calm { All (λ f. I.File.faults f ≡ 0) files.new.items }
    ensures counts { CountsSet (I.world inputs.old) names.now result (vec_len files.new) 0
        (I.counts inputs.old) (I.counts inputs.new) }
{
    for name in names {
        let file = inputs.open_file(name.as_str())?;
        match files.push(file) {
            Ok(()) => {}
            Err(_failed) => unreachable!(),
        }
    }
    Ok(())
}

/// Opens the files of these names in order. Where one is not opened, those before it are closed.
pub(crate) fn open_set<I: Inputs>(
    alloc: Global,
    inputs: &mut I,
    names: &[Str],
) -> Result<Vec<I::File>, OpenFault>
    ensures world { I.world inputs.new ≡ I.world inputs.old }
    ensures set { IfOk result (λ v. IsSet I.File.held I.File.faults
        (told_files (I.world inputs.old) names.now) v.items) }
    ensures counts { LeavesSet (I.world inputs.old) names.now result
        (I.counts inputs.old) (I.counts inputs.new) }
{
    let mut files = Vec::with_capacity(alloc, names.len())?;
    match open_files(inputs, names, &mut files) {
        Ok(()) => Ok(files),
        Err(fault) => {
            close_set(inputs, files);
            Err(fault)
        }
    }
}

/// The lengths of these files, in order.
pub(crate) fn lengths_of<S: InputFile>(
    alloc: Global,
    files: &mut [S],
) -> Result<Vec<u64>, PieceFault>
    ensures same { map S.held files.new ≡ map S.held files.old }
    ensures lengths { IfOk result (λ v. HaveLengths v.items (map S.held files.old)) }
    ensures faults { LengthsFaults result
        (failures S.faults files.old) (failures S.faults files.new) }
{
    let mut lengths = Vec::new(alloc);
    for file in files.iter_mut() {
        match file.len() {
            Ok(length) => lengths.push(length)?,
            Err(_failed) => return Err(PieceFault::ReadFault),
        }
    }
    Ok(lengths)
}
