//! The words of a command line, and the task that they ask for.
//!
//! The words are tested by the rules of one table, and then read by one command of `clap` for each
//! first word, which takes every list of words that the test lets through.
#![tactic(auto)]

mod command;
mod given;
pub mod laws;
mod parts;
mod read;
mod table;
mod task;

pub use parts::{begins_parts, read_parts};
pub use read::read_words;
pub use task::{PartsTask, Task, WordFault};
