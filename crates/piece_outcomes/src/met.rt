//! Faults, and where they were met.

ghost use Rattle.std.specs.Prelude.{◌≡◌, IfOk};
ghost use Rattle.piece_outcomes.specs.Counting.{marked_fault, taken_by, moved_on};

use crate::counts::Counts;
use item_tree::{Fault, NoMemory, Spot};

/// A fault as it was raised, the step that it leaves, and the tuple there, from 1.
#[derive(Clone, Copy, Debug, PartialEq, Eq)]
pub struct MetFault {
    pub step: u32,
    pub tuple: u64,
    pub fault: Fault,
}

impl MetFault {
    /// The fault, which names the step that it left, as a clause, and the tuple.
    pub fn marked(self) -> Fault
        ensures { result ≡ marked_fault self }
    {
        let spot = Spot {
            clause: self.step,
            tuple: self.tuple,
        };
        Fault {
            spot: Some(spot),
            ..self.fault
        }
    }

    /// The same fault, where its step takes in so many tuples more before its own.
    pub(crate) fn behind(self, before: &Counts) -> Result<MetFault, NoMemory>
        ensures { IfOk result (λ m. m ≡ moved_on (taken_by before.now) self) }
    {
        match before.at(self.step).checked_add(self.tuple) {
            Some(tuple) => Ok(MetFault { tuple, ..self }),
            None => Err(NoMemory),
        }
    }
}
