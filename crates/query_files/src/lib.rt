//! The files of queries: from the name of a query to its tree. Its file and those of its libraries
//! are read by a parser and put together; or the first refusal is given with the file in which it
//! stands.
#![tactic(auto)]

mod file_reading;
mod finding;
pub mod laws;
mod merging;
mod parser;
mod texts;

pub use finding::{Together, Unfound, find_query};
pub use parser::{Parser, Underived};
pub use texts::{Located, Texts};
