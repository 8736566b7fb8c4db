//! Reads the lines of an input as items.
#![tactic(auto)]

mod build;
mod fault;
pub mod laws;
mod levels;
mod number;
mod read;
mod row;
mod string;
mod token;
mod turn;

pub use fault::LineFault;
pub use read::{Reader, read_item};
