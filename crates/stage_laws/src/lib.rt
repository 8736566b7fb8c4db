//! Stages of steps over lists that are cut into pieces: what a stage makes of a whole list is what
//! its outcomes on the pieces, or its tuples one at a time, tell together.
//!
//! A *stage* is a run of steps over a whole list, each over all that the one before it gives. A
//! *limit* is a number of a step: only the steps below it are run. Each law is the contract of a
//! function that does nothing. It holds for tuples, keys and faults of any kind, by the types of the
//! call: `A` is what the stage takes in, `M` what its first step gives, `W` what comes out, `K` the
//! keys of an order, and `F` the faults.
#![tactic(auto)]

ghost use Rattle.stage_laws.specs.Tuples.{TuplesTell};
ghost use Rattle.stage_laws.specs.Limits.{LimitsAreEnough};
ghost use Rattle.stage_laws.specs.Laws.{StagesFallIntoPieces, OutcomesTell, ResultsAreOne, StepsBelowTell, NumbersGoOn};

/// Stages of steps that look at one tuple at a time fall into pieces, also those that an order step
/// ends, and those of which something else is kept, as a sum.
pub fn stages_fall_into_pieces<A, M, B, W, K, F>()
    ensures { StagesFallIntoPieces A M B W K F }
{}

/// What falls into pieces is gathered from the outcomes of the pieces, one after the other, whatever
/// their limits; and where these are enough, all of it.
pub fn outcomes_tell<A, W, K, F>()
    ensures { OutcomesTell A W K F }
{}

/// At limits that are enough, the result on pieces is the result on the whole list.
pub fn results_are_one<A, W, C, K, F>()
    ensures { ResultsAreOne A W C K F }
{}

/// What is told at a limit is what the steps below it tell, one after the other.
pub fn steps_below_tell<A, M, W, K, F>()
    ensures { StepsBelowTell A M W K F }
{}

/// Numbers go on from one list to the next.
pub fn numbers_go_on<A, B>()
    ensures { NumbersGoOn A B }
{}

/// What is known where each tuple goes through all steps before the next one does, and from the
/// first fault on only through the steps below it, tells of the whole list.
pub fn tuples_tell<A, M, W, K, F>()
    ensures { TuplesTell A M W K F }
{}

/// Limits that are enough for the faults that outputs of pieces tell are enough for the outcomes
/// that these outputs stand for.
pub fn limits_are_enough<O, W, K, F>()
    ensures { LimitsAreEnough O W K F }
{}
