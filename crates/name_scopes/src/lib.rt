//! Names that are bound and unbound in turn, and declared functions, each found by its name.
#![tactic(auto)]

mod functions;
mod scope;
mod stacks;

pub use functions::Functions;
pub use scope::Scope;
