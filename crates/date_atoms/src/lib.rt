//! Dates and date-times from text, day numbers, and sums of a date and a number of days. Nothing
//! here takes memory.
#![tactic(auto)]

mod days;
mod digits;
mod fronts;
pub mod laws;
mod read;
mod tails;

pub use days::{add_days, day_number};
pub use read::{read_date, read_date_time};
