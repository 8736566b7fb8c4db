//! What pieces of a stage tell, and what is gathered of them: all that comes out behind the last
//! step, the first fault, or that no step below a limit faults.
#![tactic(auto)]

mod counts;
mod items;
mod kept;
mod met;
mod orders;
mod outcome;

pub use counts::Counts;
pub use items::gather;
pub use kept::Kept;
pub use met::MetFault;
pub use orders::gather_orders;
pub use outcome::{Counted, Gathered, OrderCounted, OrderOutcome, Outcome};
