//! Where the faults of pieces of work stand, which of them is the least, and how far a piece must
//! have run to tell it.
#![tactic(auto)]

mod at;
mod done;
pub mod laws;

pub use at::{At, enough, least};
pub use done::Done;
