//! The plan of a query: which parts of its body run over pieces of inputs, and how.
#![tactic(auto)]

mod beside;
mod clauses;
mod driven;
mod driver_table;
mod drivers;
pub mod laws;
mod leaf;
mod plan;
mod planning;
mod spine;
mod words;

pub use beside::{drivers_stand_once, names_beside_drivers};
pub use leaf::plan_leaf;
pub use plan::{Driver, End, Label, Leaf, Line, Mode, Plan, Stage};
pub use planning::make_plan;
