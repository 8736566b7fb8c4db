//! Laws of the definitions, each the contract of a function that does nothing. Each holds of all
//! values: a call brings it to a proof, and does nothing when it runs.

ghost use Rattle.line_pieces.specs.Laws.{PiecesAreWhole, PiecesAreTold, SumsAreWhole};

/// The lines of all pieces in order are the lines of the files in order, whatever the size.
pub fn pieces_are_whole()
    ensures { PiecesAreWhole }
{}

/// What the contracts tell of a piece where all files tell their bytes is the piece.
pub fn pieces_are_told()
    ensures { PiecesAreTold }
{}

/// The sums of all pieces make the sum of all lines, whatever the size.
pub fn sums_are_whole()
    ensures { SumsAreWhole }
{}
