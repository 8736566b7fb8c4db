//! Groups of the tuples of a stream by their keys.
#![tactic(auto)]

mod finish;
mod group;
mod group_key;
pub mod laws;
mod places;
mod seeded;
mod table;

pub use table::GroupTable;
