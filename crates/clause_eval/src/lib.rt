//! The clauses of a FLWOR over lists of tuples, and what all kinds of nodes share: each comes to
//! exactly what the definitions of `query_meaning` say, over a function value that evaluates the
//! expressions that stand in it.
#![tactic(auto)]

mod bindings;
mod checks;
mod clauses;
mod depth_first;
mod evaluator;
mod flwor;
mod frames;
mod group;
mod groups;
mod items;
mod keys;
mod narrow;
mod order;
mod progress;
mod results;
mod sorting;
mod tuples;
mod variables;
mod waiting;

pub use bindings::{Binding, bind_items};
pub use checks::typed;
pub use clauses::BoundClause;
pub use evaluator::Evaluator;
pub use frames::{again, new_frame, written};
pub use items::{added, pushed, with_copies};
pub use order::{clash, column_places};
pub use progress::{Progress, Told};
pub use results::{nothing, one_truth, optional_item, optional_truth, truth_value};
pub use sorting::ordered_rows;
pub use tuples::{Frame, frame_again, frame_lent, number_value, numbered_rows, with_slot};
pub use variables::var;
