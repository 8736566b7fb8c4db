//! What a worker holds while it runs pieces.

ghost use Rattle.std.specs.Prelude.{◌≡◌, ◌≤◌, ◌<◌, map, OnOk, IfSome};
ghost use Rattle.outside.specs.Counted.{Rose};
ghost use Rattle.line_pieces.specs.Cuts.{pieces_of, HaveLengths};
ghost use Rattle.line_pieces.specs.Pieces.{told_piece};
ghost use Rattle.piece_board.specs.Faults.{IsJob};
ghost use Rattle.piece_seats.specs.Seats.{all_faults};

use line_pieces::{Cut, PieceFault, PieceReader};
use outside::{Failed, InputFile};
use piece_board::JobFault;
use std::alloc::Global;

/// The open files of a worker, one for each file of the input, and what it reads them with.
#[derive(Drop)]
pub struct Seat<S> {
    /// The files.
    pub files: Vec<S>,
    /// What reads pieces of them, and lends the lines of the last one.
    pub pieces: PieceReader,
}

impl<S> Seat<S> {
    /// A worker with these files, which has read nothing. Takes no memory.
    pub fn new(alloc: Global, files: Vec<S>) -> Seat<S>
        ensures { result.files ≡ files }
    {
        Seat {
            files,
            pieces: PieceReader::new(alloc),
        }
    }
}

// Reads a piece of these files.
fn read_files<S: InputFile>(
    pieces: &mut PieceReader,
    files: &mut [S],
    cut: &Cut,
    piece: u64,
) -> Result<(), JobFault<Failed>>
    requires piece { piece < pieces_of cut.now.size cut.now.lengths }
    requires lengths { HaveLengths cut.now.lengths (map S.held files.old) }
    ensures lines { OnOk result (IfSome (told_piece cut.now (map S.held files.old) piece)
        (λ ls. pieces.new ≡ ls)) }
    ensures same { map S.held files.new ≡ map S.held files.old }
    ensures calm { OnOk result (all_faults S.faults files.new ≡ all_faults S.faults files.old) }
    ensures rises { all_faults S.faults files.old ≤ all_faults S.faults files.new }
    ensures cause { IsJob result
        → Rose (all_faults S.faults files.old) (all_faults S.faults files.new) }
{
    match pieces.read(files, cut, piece) {
        Ok(()) => Ok(()),
        Err(PieceFault::ReadFault) => Err(JobFault::Job(Failed)),
        Err(PieceFault::NoMemory) => Err(JobFault::NoMemory),
    }
}

impl<S: InputFile> Seat<S> {
    /// Reads a piece of the files that are cut so, whose lines `pieces` lends from then on. `Job`
    /// comes where reading failed, which the file has counted.
    pub fn read_piece(&mut self, cut: &Cut, piece: u64) -> Result<(), JobFault<Failed>>
        requires piece { piece < pieces_of cut.now.size cut.now.lengths }
        requires lengths { HaveLengths cut.now.lengths (map S.held self.old.files.items) }
        ensures lines { OnOk result (IfSome
            (told_piece cut.now (map S.held self.old.files.items) piece)
            (λ ls. self.new.pieces ≡ ls)) }
        ensures same { map S.held self.new.files.items ≡ map S.held self.old.files.items }
        ensures calm { OnOk result (all_faults S.faults self.new.files.items
            ≡ all_faults S.faults self.old.files.items) }
        ensures rises { all_faults S.faults self.old.files.items
            ≤ all_faults S.faults self.new.files.items }
        ensures cause { IsJob result → Rose (all_faults S.faults self.old.files.items)
            (all_faults S.faults self.new.files.items) }
    {
        read_files(&mut self.pieces, self.files.as_mut_slice(), cut, piece)
    }
}
