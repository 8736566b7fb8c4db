//! Exact arithmetic on whole numbers and on decimals of six places.
//!
//! A whole number n has |n| < 10^20. A decimal is a whole number m of units of 10^-6, with
//! |m| < 10^26. A result that isn't a whole number of units is the nearest unit, and the even one
//! where two are nearest. A result out of bounds is an overflow. Nothing here takes memory, and no
//! number has more than 128 bits.
#![tactic(auto)]

mod bounds;
mod digits;
mod front;
pub mod laws;
mod nearest;
mod number;
mod products;
mod read;
mod rounding;
mod scale;
mod sums;
mod total;

pub use front::{NumberFront, number_front, short_whole};
pub use number::{Kind, NumFault, Number};
pub use products::{div, idiv, mul};
pub use read::{is_number, read_number};
pub use rounding::{ceiling, floor, round, round_even, to_units, whole_part};
pub use sums::{add, rem, sub};
pub use total::Total;
