//! The functions of the language on sequences. Each takes its arguments as they are, checks them
//! from left to right, and answers with the items of its value.
//!
//! A position and a size are exactly one integer each: in its place one array or object is
//! `JNTY0004`, and anything else `XPTY0004`. Positions count from 1. Where memory ran out, there
//! was no error to tell.
#![tactic(auto)]

mod copies;
mod counts;
mod parts;
mod sameness;

pub use counts::{boolean, count, empty, exactly_one, exists, one_or_more, zero_or_one};
pub use parts::{head, insert_before, remove, reverse, subsequence, subsequence_3, tail};
pub use sameness::{deep_equal, distinct_values, index_of};
