//! The functions on numbers, and the parts of which the values of `count`, `sum`, `avg`, `min` and
//! `max` are put together.
#![tactic(auto)]

mod candidates;
mod counts;
mod extremes;
mod kinds;
pub mod laws;
mod partial;
mod results;
mod roundings;
mod tallies;
mod totals;
mod wide_totals;

pub use counts::CountPart;
pub use extremes::{MaxPart, MinPart, max, min};
pub use partial::Partial;
pub use roundings::{abs, ceiling, floor, round, round_half_to_even};
pub use totals::{AvgPart, SumPart, avg, sum};
