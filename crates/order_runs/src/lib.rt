//! Tuples of a stream in the order of their keys: sorted runs, their merge, and the keys whose
//! classes clash.
#![tactic(auto)]

mod class_seen;
mod column;
mod column_seen;
mod compare;
pub mod laws;
mod merge;
mod run;

pub use class_seen::ClassSeen;
pub use column::Column;
pub use merge::{MergeFault, merge_runs};
pub use run::{Run, SortFault, sort_keyed};
