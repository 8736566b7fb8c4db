//! The operators on values: comparisons, arithmetic, ranges, the joining of texts, and casts.
#![tactic(auto)]

mod arithmetic;
mod cast_rows;
mod casts;
mod comparison;
mod date_texts;
pub mod laws;
mod number_texts;
mod ranges;
mod texts;

pub use arithmetic::{Arith, arith_op, negate};
pub use casts::cast;
pub use comparison::{Cmp, general_cmp, value_cmp};
pub use ranges::range;
pub use texts::concat_text;
