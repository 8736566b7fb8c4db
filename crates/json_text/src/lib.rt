//! Texts of JSON: what they are, what a line of them reads as, and the laws of both; and the
//! escapes in their strings.
#![tactic(auto)]

mod escapes;
pub mod laws;

pub use escapes::{Spelled, escape_at, is_raw, push_spelled};
