//! The evaluator: an expression of a compiled query comes to exactly what the definitions of
//! `query_meaning` say. Each kind of node is a function outside any recursion, over a function
//! value that evaluates the parts of the node; one small function is recursive.
#![tactic(auto)]

mod arrays;
mod calls;
mod choices;
pub mod evaluation;
mod fixed;
mod kinds;
mod leaves;
mod lines;
mod lookups;
mod makes;
mod node;
mod objects;
mod operators;
mod paths;
mod positions;
mod quantified;
mod searches;
mod sequences;
mod tries;
mod types;
mod typeswitch;

pub use evaluation::{eval, eval_globals, eval_query, handle, value};
