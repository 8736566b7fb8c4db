//! What a plan says of a query, as text: a line for each part, with its place, its word and its
//! mode.
#![tactic(auto)]

mod explain;

pub use explain::explain_text;
