//! What workers need to run pieces of an input: the files and the reader that each holds, what is
//! kept of the items that come out of a piece, and the count of the lines before each piece.
#![tactic(auto)]

mod before;
mod counts;
mod folded;
mod found;
mod kept;
mod seat;
mod text;
mod told;

pub use before::lines_before;
pub use folded::Folded;
pub use found::{EmptyPart, ExistsPart};
pub use kept::ItemsKept;
pub use seat::Seat;
pub use text::Text;
pub use told::{FilesTold, OpenFiles};
