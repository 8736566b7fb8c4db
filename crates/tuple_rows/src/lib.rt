//! Tuples of the stream of a query, and tables of tuples of one width.
#![tactic(auto)]

pub mod laws;
mod rows;
mod tuple;

pub use rows::Rows;
pub use tuple::Tuple;
