//! The trees of queries.
#![tactic(auto)]

mod bound;
mod children;
mod clause;
mod compiled;
mod distinct_names;
mod drops;
mod expr;
mod inputs;
pub mod laws;
mod module;
mod names;
mod operator;
mod part;
mod slots;
mod step;
mod text_order;
mod walk;

pub use bound::{BoundExpr, BoundModule, InputNames, Slot, Target};
pub use clause::{Clause, GroupVar, OrderKey};
pub use compiled::Compiled;
pub use distinct_names::DistinctNames;
pub use drops::discard;
pub use expr::{Expr, Kind};
pub use inputs::input_names;
pub use module::{Function, Module, Param, Variable};
pub use names::{NamedExpr, Placed, Query, TypeName};
pub use operator::{CompareOp, ProductOp, Quantifier, SumOp};
pub use part::{Bind, Case, Catch, Factor, Operand, Pair, Term, TypeCase};
pub use slots::clause_slots;
pub use step::{Lookup, Step};
pub use walk::expressions;
