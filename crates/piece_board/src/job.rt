//! The work that a pool does, piece by piece.

ghost use Rattle.std.specs.Prelude.{◌≡◌, ◌<◌, ◌≤◌, ℕ, Option, IfOk, OnOk, IfSome};
ghost use Rattle.outside.specs.Counted.{Rose};
ghost use Rattle.piece_board.specs.Faults.{IsJob};

use board_core::CoreEvent;
use fault_merge::Done;
use item_tree::NoMemory;
use std::alloc::{AllocError, AllocFailed};

/// Why a piece has no output.
#[derive(Debug, Drop)]
pub enum JobFault<T> {
    /// The job's own fault.
    Job(T),
    /// Memory ran out.
    NoMemory,
}

impl<T> From<NoMemory> for JobFault<T> {
    ghost use Rattle.piece_board.specs.declared.job.JobFault.TheVariants as job_fault;

    ghost from_gives = { λ _ e. e ≡ job_fault.NoMemory };

    fn from(_e: NoMemory) -> JobFault<T> {
        JobFault::NoMemory
    }
}

impl<T> From<AllocError> for JobFault<T> {
    ghost use Rattle.piece_board.specs.declared.job.JobFault.TheVariants as job_fault;

    ghost from_gives = { λ _ e. e ≡ job_fault.NoMemory };

    fn from(_e: AllocError) -> JobFault<T> {
        JobFault::NoMemory
    }
}

impl<T, X: Drop> From<AllocFailed<X>> for JobFault<T> {
    ghost use Rattle.piece_board.specs.declared.job.JobFault.TheVariants as job_fault;

    ghost from_gives = { λ _ e. e ≡ job_fault.NoMemory };

    fn from(_e: AllocFailed<X>) -> JobFault<T> {
        JobFault::NoMemory
    }
}

/// The outputs of all pieces in order, and the schedule by which they were run.
#[derive(Debug, Drop)]
pub struct Pieces<O> {
    pub done: Vec<Done<O>>,
    pub events: Vec<CoreEvent>,
}

/// Work in numbered pieces, each of which runs clauses from 0 up to a limit.
pub trait Job: Sync {
    /// What a worker holds while it runs pieces, as open files.
    type Seat: Send;

    /// What a piece gives.
    type Out: Send + Drop;

    /// Why a seat could give nothing.
    type Fault: Send + Drop;

    /// How many pieces there are.
    ghost total: { Self → ℕ };

    /// The limit at which a piece is run whole.
    ghost full: { Self → ℕ };

    /// Whether this job can be run on a seat.
    ghost fits: { Self → Self.Seat → Type 0 };

    /// What is true of the output of a piece at a limit.
    ghost good: { Self → ℕ → ℕ → Self.Out → Type 0 };

    /// How much trouble a seat has had.
    ghost trouble: { Self.Seat → ℕ };

    /// The clause in which an output faulted, where it did.
    ghost tells: { Self.Out → Option ℕ };

    /// Runs the clauses of this piece, from 0, that are below the limit.
    fn run(
        &self,
        seat: &mut Self::Seat,
        piece: u64,
        limit: u32,
    ) -> Result<Self::Out, JobFault<Self::Fault>>
        requires fits { fits self.now seat.old }
        requires piece { piece < total self.now }
        requires limit { limit ≤ full self.now }
        ensures fits { fits self.now seat.new }
        ensures good { IfOk result (λ out. good self.now piece limit out) }
        ensures below { IfOk result (λ out. IfSome (tells out) (λ clause. clause < limit)) }
        ensures calm { OnOk result (trouble seat.new ≡ trouble seat.old) }
        ensures rises { trouble seat.old ≤ trouble seat.new }
        ensures cause { IsJob result → Rose (trouble seat.old) (trouble seat.new) };

    /// The clause in which this output faulted, where it did.
    fn told(out: &Self::Out) -> Option<u32>
        ensures { result ≡ tells out.now };
}
