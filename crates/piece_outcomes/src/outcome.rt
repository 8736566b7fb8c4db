//! What the steps below a limit tell of a piece.

ghost use Rattle.std.specs.Prelude.{◌≡◌};
ghost use Rattle.piece_outcomes.specs.Counting.{told_step, order_told_step};

use crate::counts::Counts;
use crate::met::MetFault;
use order_runs::ClassSeen;

/// What the steps below a limit make of a piece: all that comes out, where these are all steps; the
/// first fault; or neither, where not all steps were run and none of them faults.
#[derive(Debug, Drop)]
pub enum Outcome<W> {
    Whole(W),
    Met(MetFault),
    Clean,
}

/// An outcome, and how many tuples each step took in.
#[derive(Debug, Drop)]
pub struct Counted<W> {
    pub outcome: Outcome<W>,
    pub into: Counts,
}

impl<W> Counted<W> {
    /// The step that faulted, where one did.
    pub fn told(&self) -> Option<u32>
        ensures { result ≡ told_step self.now }
    {
        match &self.outcome {
            Outcome::Met(met) => Some(met.step),
            _ => None,
        }
    }
}

/// What the steps below a limit make of a piece, where the last one finds the keys of an order:
/// with the classes of the keys that it has seen.
#[derive(Debug, Drop)]
pub enum OrderOutcome<W> {
    Whole(W, ClassSeen),
    Met(MetFault, ClassSeen),
    Clean,
}

/// An outcome at an order, and how many tuples each step took in.
#[derive(Debug, Drop)]
pub struct OrderCounted<W> {
    pub outcome: OrderOutcome<W>,
    pub into: Counts,
}

impl<W> OrderCounted<W> {
    /// The step that faulted, where one did.
    pub fn told(&self) -> Option<u32>
        ensures { result ≡ order_told_step self.now }
    {
        match &self.outcome {
            OrderOutcome::Met(met, _) => Some(met.step),
            _ => None,
        }
    }
}

/// What pieces give together: all that comes out, or the first fault.
#[derive(Debug, Drop)]
pub enum Gathered<W> {
    Whole(W),
    Met(MetFault),
}
