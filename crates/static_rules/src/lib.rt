//! The static rules of queries, and how a query that keeps them is compiled.
#![tactic(auto)]

mod calls;
mod choices;
mod compiling;
mod declarations;
mod exprs;
mod flwor;
mod gather;
pub mod laws;
mod leaves;
mod operators;
mod primaries;
mod quantifiers;
mod rules;
mod steps;
mod types;
mod walk;

pub use compiling::{CompileFault, compile};
pub use rules::{Refusal, Rule};
