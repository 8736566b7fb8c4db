//! What operators and functions take of a sequence that is handed to them, and with which error
//! they refuse another: one atomic, one number, one integer, one string, or nothing. And the
//! numbers that they give.
#![tactic(auto)]

mod operand;
mod results;

pub use operand::{
    atomic, integer_of, number, one_atomic, one_integer, one_number, optional_atomic,
    optional_number, optional_string, string_of,
};
pub use results::{item_of, told};
