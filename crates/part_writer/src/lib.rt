//! Cuts a text into parts of whole lines, and writes the parts to numbered outputs.
#![tactic(auto)]

pub mod laws;
mod split;
mod write;

pub use split::split_lines;
pub use write::write_parts;
