//! The core of the pool of workers: which pieces were taken at which limits, which faults were
//! told, and which event may come next.
#![tactic(auto)]

mod event;
pub mod laws;
mod state;

pub use event::CoreEvent;
pub use state::{CoreState, step};
