//! The lines of a piece of some files.

ghost use Rattle.std.specs.Prelude.{◌≡◌, ◌≤◌, ◌<◌, ◌+◌, ◌^◌, map, length, position, option_map, Some, None, IfOk, IfSome};
ghost use Rattle.line_pieces.specs.Cuts.{pieces_in, pieces_of, HaveLengths, file_of_piece};
ghost use Rattle.line_pieces.specs.Pieces.{line_of, lines_in, told_piece};
ghost use Rattle.line_pieces.specs.Faults.{CausedBy, CausedByFile, NoneFalls};
ghost use Rattle.line_pieces.specs.inside.Contents.{is_end};
ghost use Rattle.line_pieces.specs.inside.Parts.{IsPartOf, part_lines};

use crate::lines::Line;
use crate::part::Part;
use crate::read::{read_line_behind, read_range, reserve, to_ask};
use crate::{Cut, PieceFault, PieceReader};
use byte_lanes::first_newline;
use outside::InputFile;
use std::alloc::Global;

// How many of the bytes that are read for the piece of this number stand before the first line that
// begins in it, if one does. They begin with the byte before the piece, unless the piece is the
// file's first one.
fn first_begin(bytes: &[u8], number: u64) -> Option<usize>
    ensures first { number ≡ 0 → result ≡ Some 0 }
    ensures inside { IfSome result (λ i. i ≤ length bytes.now) }
    ensures later { 0 < number → result ≡ option_map (λ i. i + 1) (position is_end bytes.now) }
{
    if number == 0 {
        return Some(0);
    }
    match first_newline(bytes) {
        Some(end) => Some(end + 1),
        None => None,
    }
}

/// Reads the part of a file of this length whose lines are those that begin in the piece of this
/// number, into the vector.
pub(crate) fn read_part<F: InputFile>(
    file: &mut F,
    bytes: &mut Vec<u8>,
    file_length: u64,
    size: u64,
    number: u64,
) -> Result<Part, PieceFault>
    requires some { 0 < size }
    requires piece { number < pieces_in size file_length }
    requires length { IfSome (F.held file.old) (λ b. file_length ≡ length b) }
    ensures part { IfOk result (λ part. IsPartOf bytes.new.items part) }
    ensures lines { IfOk result (λ part. IfSome (F.held file.old) (λ b.
        part_lines bytes.new.items part ≡ lines_in size number b)) }
    ensures same { F.held file.new ≡ F.held file.old }
    ensures cause { CausedBy result (F.faults file.old) (F.faults file.new) }
    ensures rises { F.faults file.old ≤ F.faults file.new }
{
    let start = number * size;
    let from = start.saturating_sub(1);
    let end = start.saturating_add(size - 1).min(file_length);
    let more = to_ask(end - from, file_length - end) as u64;
    reserve(bytes, (end - from).saturating_add(more))?;
    let range = read_range(file, bytes, from, end)?;
    let Some(skipped) = first_begin(&bytes[..range], number) else {
        return Ok(Part::none());
    };
    let filled = read_line_behind(file, bytes, range, from, end, file_length)?;
    Ok(Part {
        at: from + skipped as u64,
        skipped,
        filled,
    })
}

/// The lines of a piece, without the blank ones: those that begin in it, the last of which is read
/// past the piece's end. The files are those whose lengths the cut has, in the same order.
///
/// Only the file of the piece is read, and `ReadFault` comes only where a call on it failed. A read
/// that gives nothing before the file's length ends the file there.
pub fn piece_lines<F: InputFile>(
    alloc: Global,
    files: &mut [F],
    cut: &Cut,
    piece: u64,
) -> Result<Vec<Line>, PieceFault>
    requires piece { piece < pieces_of cut.now.size cut.now.lengths }
    requires lengths { HaveLengths cut.now.lengths (map F.held files.old) }
    ensures lines { IfOk result (λ v.
        IfSome (told_piece cut.now (map F.held files.old) piece) (λ ls. map line_of v.items ≡ ls)) }
    ensures same { map F.held files.new ≡ map F.held files.old }
    ensures cause { CausedByFile result (file_of_piece cut.now piece)
        (map F.faults files.old) (map F.faults files.new) }
    ensures rises { NoneFalls (map F.faults files.old) (map F.faults files.new) }
{
    let mut reader = PieceReader::new(alloc);
    reader.read(files, cut, piece)?;
    Ok(reader.to_lines(alloc)?)
}

/// How many lines a piece has, without the blank ones. Otherwise as `piece_lines`.
pub fn count_lines<F: InputFile>(
    alloc: Global,
    files: &mut [F],
    cut: &Cut,
    piece: u64,
) -> Result<u64, PieceFault>
    requires piece { piece < pieces_of cut.now.size cut.now.lengths }
    requires lengths { HaveLengths cut.now.lengths (map F.held files.old) }
    ensures lines { IfOk result (λ n.
        IfSome (told_piece cut.now (map F.held files.old) piece) (λ ls. n ≡ length ls)) }
    ensures same { map F.held files.new ≡ map F.held files.old }
    ensures cause { CausedByFile result (file_of_piece cut.now piece)
        (map F.faults files.old) (map F.faults files.new) }
    ensures rises { NoneFalls (map F.faults files.old) (map F.faults files.new) }
{
    let mut reader = PieceReader::new(alloc);
    reader.read(files, cut, piece)?;
    Ok(reader.count())
}
