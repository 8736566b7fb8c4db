//! Calls a function of the query language by its identity, and has those functions that are in no
//! other crate: between items and their texts, and on dates.
#![tactic(auto)]

mod calls;
mod dates;
mod item_texts;
mod results;

pub use calls::call;
