//! Searches of bytes by vectors: ends of lines, blank lines, and the plain fronts of strings.
//!
//! Each function gives what its plain definition gives, for a slice of every length. Nothing here
//! takes memory.
#![tactic(auto)]

mod lanes;
mod lines;
mod strings;

pub use lines::{count_newlines, first_newline, is_blank};
pub use strings::{first_string_stop, string_front};
