//! An index over a list of keys, which finds where the keys that are equal to a given one stand.
#![tactic(auto)]

mod clashes;
mod join_index;
pub mod laws;
mod pair_fault;
mod places;
mod seeded;

pub use join_index::JoinIndex;
pub use pair_fault::PairFault;
