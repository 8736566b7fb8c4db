//! The types of sequences, their names in a query, and which sequences they fit.
#![tactic(auto)]

pub mod laws;
mod matching;
mod names;
mod types;

pub use matching::matches;
pub use names::find_type;
pub use types::{ItemType, SeqType, Times};
