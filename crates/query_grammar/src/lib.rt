//! The grammar of queries, as definitions, and its laws.
#![tactic(auto)]

mod class;
pub mod laws;
mod part;
mod word;
mod words;

pub use class::Class;
pub use part::Part;
pub use word::{Kind, Value, Word};
pub use words::words_of;
