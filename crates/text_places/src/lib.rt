//! Places in a text as they are printed: the line and the column of a byte.
#![tactic(auto)]

mod moving;
mod place;

pub use moving::{Known, onward};
pub use place::{LineColumn, line_column};
