//! The functions of the language on objects and arrays. Each takes its arguments as they are,
//! checks them from left to right, and answers with the items of its value. Items that are no
//! objects have no keys and no values. But for `accumulate`, there was no error to tell where
//! memory ran out.
#![tactic(auto)]

mod choices;
mod contents;
mod copies;
mod gathering;
mod key_sets;
mod nesting;

pub use choices::{project, remove_keys};
pub use contents::{members, size, values};
pub use gathering::accumulate;
pub use key_sets::keys;
pub use nesting::{descendant_arrays, descendant_objects, flatten};
