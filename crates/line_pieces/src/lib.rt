//! Pieces of inputs by ranges of bytes: the lines that begin in a range, read without the rest of
//! the input. A worker that reads one piece reads no other, and all pieces in order are the lines
//! of the files in order.
#![tactic(auto)]

mod cut;
mod fault;
pub mod laws;
mod lines;
mod mark;
mod part;
mod piece;
mod read;
mod reader;

pub use cut::Cut;
pub use fault::PieceFault;
pub use lines::{LentLine, Line, Lines};
pub use piece::{count_lines, piece_lines};
pub use read::{read_start, read_whole};
pub use reader::PieceReader;
