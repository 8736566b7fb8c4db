//! The parser of queries: clauses, statements and modules, over the operators of
//! `expression_parser`. Each production of the grammar is a function of its own.
#![tactic(auto)]

mod clauses;
mod gather;
mod modules;
mod nodes;
mod reading;
mod statements;
mod values;

pub use reading::{ParseFault, parse, parse_at};
