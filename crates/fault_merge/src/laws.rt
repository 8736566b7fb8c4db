//! Laws of the definitions. Each holds of all values: a call brings it to a proof, and does nothing
//! when it runs.

ghost use Rattle.fault_merge.specs.Laws.{EnoughReaches, LeastFaultStands, LeastFaultIsOne};

/// A limit is enough for a piece exactly where it lies above each clause in which a fault of the
/// piece would not come after the least one.
pub fn enough_reaches()
    ensures { EnoughReaches }
{}

/// What is found in a list of outputs is the least of the faults that they tell.
pub fn least_fault_stands<O>()
    ensures { LeastFaultStands O }
{}

/// There is one least fault, or none.
#[tactic(auto, using(crate::proofs::Lesser::least_fault_is_one_lem))]
pub fn least_fault_is_one()
    ensures { LeastFaultIsOne }
{}
