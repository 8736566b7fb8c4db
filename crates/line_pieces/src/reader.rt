//! Reads pieces one after the other, and lends their lines.

ghost use Rattle.std.specs.Prelude.{◌≡◌, ◌≤◌, ◌<◌, List, [], map, length, get_or, None, IfOk, OnOk, OnErr, IfSome};
ghost use Rattle.line_pieces.specs.Cuts.{pieces_of, place_of, file_of_piece, HaveLengths};
ghost use Rattle.line_pieces.specs.Pieces.{line_of, lines_in, told_piece, bytes_sum};
ghost use Rattle.line_pieces.specs.Faults.{CausedBy, CausedByFile, NoneFalls};

use crate::lines::{Line, Lines, count_at, own_lines, sum_of_lines};
use crate::part::Part;
use crate::piece::read_part;
use crate::{Cut, PieceFault};
use item_tree::NoMemory;
use outside::InputFile;
use std::alloc::Global;
use std::marker::Model;

/// Reads pieces of files, one after the other, and lends the lines of the last one. All are read
/// into one buffer, which keeps the room that the greatest piece took.
#[derive(Drop)]
pub struct PieceReader {
    bytes: Vec<u8>,
    part: Part,
}

impl Model for PieceReader {
    ghost use Rattle.std.specs.Prelude.{List};
    ghost use Rattle.item_reader.specs.Lines.{Line};
    ghost use Rattle.line_pieces.specs.inside.Parts.{IsPartOf, part_lines};

    ghost Value = { List Line };

    ghost view = { λ r. part_lines r.bytes.items r.part };

    ghost invariant = { λ r. IsPartOf r.bytes.items r.part };
}

impl PieceReader {
    /// A reader that has read nothing. Takes no memory.
    pub fn new(alloc: Global) -> PieceReader
        ensures { result ≡ [] }
    {
        PieceReader {
            bytes: Vec::new(alloc),
            part: Part::none(),
        }
    }

    /// Reads a piece of this file, which has the place among the cut's files that the piece has.
    /// What was read before changes nothing, and goes; after a fault there is no line.
    pub fn read_of<F: InputFile>(
        &mut self,
        file: &mut F,
        cut: &Cut,
        piece: u64,
    ) -> Result<(), PieceFault>
        requires piece { piece < pieces_of cut.now.size cut.now.lengths }
        requires length { IfSome (F.held file.old) (λ b.
            get_or cut.now.lengths (file_of_piece cut.now piece) 0 ≡ length b) }
        ensures lines { OnOk result (IfSome (F.held file.old) (λ b.
            self.new ≡ lines_in cut.now.size (place_of cut.now.size cut.now.lengths piece).1 b)) }
        ensures failed { OnErr result (self.new ≡ []) }
        ensures same { F.held file.new ≡ F.held file.old }
        ensures cause { CausedBy result (F.faults file.old) (F.faults file.new) }
        ensures rises { F.faults file.old ≤ F.faults file.new }
    {
        let (position, number) = cut.place(piece);
        self.part = Part::none();
        self.part = read_part(
            file,
            &mut self.bytes,
            cut.length(position),
            cut.size(),
            number,
        )?;
        Ok(())
    }

    /// Reads a piece. The files are those whose lengths the cut has, in the same order, and only
    /// the piece's file is read. Otherwise as `read_of`.
    pub fn read<F: InputFile>(
        &mut self,
        files: &mut [F],
        cut: &Cut,
        piece: u64,
    ) -> Result<(), PieceFault>
        requires piece { piece < pieces_of cut.now.size cut.now.lengths }
        requires lengths { HaveLengths cut.now.lengths (map F.held files.old) }
        ensures lines { OnOk result
            (IfSome (told_piece cut.now (map F.held files.old) piece) (λ ls. self.new ≡ ls)) }
        ensures failed { OnErr result (self.new ≡ []) }
        ensures same { map F.held files.new ≡ map F.held files.old }
        ensures cause { CausedByFile result (file_of_piece cut.now piece)
            (map F.faults files.old) (map F.faults files.new) }
        ensures rises { NoneFalls (map F.faults files.old) (map F.faults files.new) }
    {
        let (position, _) = cut.place(piece);
        self.read_at(files, position, cut, piece)
    }

    // As `read`, of the file at this position.
    fn read_at<F: InputFile>(
        &mut self,
        files: &mut [F],
        position: usize,
        cut: &Cut,
        piece: u64,
    ) -> Result<(), PieceFault>
        requires inside { position < length files.old }
        requires place { position ≡ file_of_piece cut.now piece }
        requires piece { piece < pieces_of cut.now.size cut.now.lengths }
        requires lengths { HaveLengths cut.now.lengths (map F.held files.old) }
        ensures lines { OnOk result
            (IfSome (told_piece cut.now (map F.held files.old) piece) (λ ls. self.new ≡ ls)) }
        ensures failed { OnErr result (self.new ≡ []) }
        ensures same { map F.held files.new ≡ map F.held files.old }
        ensures cause { CausedByFile result (file_of_piece cut.now piece)
            (map F.faults files.old) (map F.faults files.new) }
        ensures rises { NoneFalls (map F.faults files.old) (map F.faults files.new) }
    {
        self.read_of(&mut files[position], cut, piece)
    }

    /// The lines of the piece that was read last, without the blank ones.
    pub fn lines(&self) -> Lines<'_>
        ensures { result ≡ self.now }
    {
        Lines::of(self.part.at, self.part.bytes(&self.bytes))
    }

    /// How many lines that piece has, without the blank ones.
    pub fn count(&self) -> u64
        ensures { result ≡ length self.now }
    {
        count_at(self.part.at, self.part.bytes(&self.bytes))
    }

    /// The sum of all bytes of these lines, of which 64 bits are kept. It may seed hashes: the sums
    /// of all pieces make the sum of all lines, however the files are cut.
    pub fn sum(&self) -> u64
        ensures { result ≡ bytes_sum self.now }
    {
        sum_of_lines(self.lines())
    }

    /// A copy of these lines.
    pub fn to_lines(&self, alloc: Global) -> Result<Vec<Line>, NoMemory>
        ensures { IfOk result (λ v. map line_of v.items ≡ self.now) }
    {
        own_lines(alloc, self.lines())
    }
}
