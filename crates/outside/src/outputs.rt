//! Outputs by their numbers.

ghost use Rattle.std.specs.Prelude.{◌≡◌, ◌<◌, ◌≤◌, ◌+◌, ◌^◌, ◌-◌, ℕ, List, Option, IfOk, IsErrOf};
ghost use Rattle.outside.specs.Outputs.{Made, BeginsEmpty, finished_with, CreateFaultsBy, CreatedBy, FinishFaults};

use crate::Sink;
use std::alloc::AllocError;

/// Why a numbered output was not made.
#[derive(Clone, Copy, Debug, PartialEq, Eq)]
pub enum CreateFault {
    /// It cannot be made.
    Failed,
    /// Memory ran out.
    NoMemory,
}

impl From<AllocError> for CreateFault {
    ghost use Rattle.outside.specs.declared.outputs.CreateFault.TheVariants as create_fault;

    ghost from_gives = { λ _ e. e ≡ create_fault.NoMemory };

    fn from(_e: AllocError) -> CreateFault {
        CreateFault::NoMemory
    }
}

/// Outputs by their numbers, each of which is a sink of its own.
pub trait Outputs {
    type Out: Sink;

    /// Which outputs were finished, in this order, where this is told.
    ghost made: { Self → Option Made };

    /// How often an output was not made, or was finished after a write to it had failed.
    ghost faults: { Self → ℕ };

    /// How many sinks were given out.
    ghost created: { Self → ℕ };

    /// How many sinks were taken back.
    ghost finished: { Self → ℕ };

    /// Begins the output of this number. Whoever is given a sink gives it back by `finish`.
    fn create(&mut self, number: u32) -> Result<Self::Out, CreateFault>
        ensures made { made self.new ≡ made self.old }
        ensures label { IfOk result (λ out. Self.Out.label out ≡ number) }
        ensures empty { IfOk result (λ out. BeginsEmpty (made self.old) (Self.Out.wrote out)) }
        ensures fresh { IfOk result (λ out. Self.Out.faults out ≡ 0) }

        ensures faults { CreateFaultsBy result (faults self.old) (faults self.new) }
        ensures created { CreatedBy result (created self.old) (created self.new) }
        ensures finished { finished self.new ≡ finished self.old }
        ensures last { 2 ^ 64 - 1 ≤ created self.old → IsErrOf result CreateFault.Failed };

    /// Ends an output, and takes its faults into the count of these outputs.
    fn finish(&mut self, out: Self::Out)
        requires { finished self.old < created self.old }
        ensures made { made self.new ≡
            finished_with (made self.old) (Self.Out.label out) (Self.Out.wrote out) }

        ensures faults { FinishFaults (Self.Out.faults out) (faults self.old) (faults self.new) }
        ensures created { created self.new ≡ created self.old }
        ensures finished { finished self.new ≡ finished self.old + 1 };

    /// No more sinks were taken back than were given out.
    ghost within: { (outputs : Self) → finished outputs ≤ created outputs };
}
