//! Faults, with their places and what they leave, and want of memory.

ghost use Rattle.std.specs.Prelude.{◌≡◌};
ghost use Rattle.item_tree.specs.Faults.{fault_at};

use crate::Code;
use std::alloc::{AllocError, AllocFailed};

/// Memory that was asked for was not there. A counter that is full, such as that of the copies of
/// a shared value, answers it too.
#[derive(Clone, Copy, Debug, PartialEq, Eq)]
pub struct NoMemory;

/// Where in a FLWOR expression an error arose.
#[derive(Clone, Copy, Debug, PartialEq, Eq)]
pub struct Spot {
    /// The clause, counted from 1.
    pub clause: u32,
    /// The tuple in the list that the clause takes in, counted from 1.
    pub tuple: u64,
}

/// An error of a query, with the place in the query's text that it belongs to.
#[derive(Clone, Copy, Debug, PartialEq, Eq)]
pub struct Fault {
    pub code: Code,
    /// The offset of a byte of the query's text, behind a byte order mark.
    pub place: u32,
    /// Where it left a FLWOR expression: the outermost one, where they are nested. `None` for an
    /// error that left none.
    pub spot: Option<Spot>,
}

impl Fault {
    /// The error of this code at this place, which has left no FLWOR expression.
    pub fn at(code: Code, place: u32) -> Fault
        ensures { result ≡ fault_at code place }
    {
        Fault {
            code,
            place,
            spot: None,
        }
    }
}

/// Why an operation has no value.
#[derive(Clone, Copy, Debug, PartialEq, Eq)]
pub enum OpFault {
    /// The operation is an error of the query, whose place its caller knows.
    Raised(Code),
    /// Memory ran out.
    NoMemory,
}

/// Why an array or an object cannot be made.
#[derive(Clone, Copy, Debug, PartialEq, Eq)]
pub enum MakeFault {
    /// The pair at this position, from 0, is the first whose key an earlier pair has.
    KeyTwice { at: usize },
    /// The array or object would be more than 128 deep.
    TooDeep,
    /// Memory ran out.
    NoMemory,
}

impl From<AllocError> for NoMemory {
    ghost use Rattle.std.specs.Prelude.{◌≡◌};

    ghost from_gives = { λ _ e. e ≡ record {} };

    fn from(_e: AllocError) -> NoMemory {
        NoMemory
    }
}

impl<T: Drop> From<AllocFailed<T>> for NoMemory {
    ghost use Rattle.std.specs.Prelude.{◌≡◌};

    ghost from_gives = { λ _ e. e ≡ record {} };

    fn from(_e: AllocFailed<T>) -> NoMemory {
        NoMemory
    }
}

impl From<AllocError> for OpFault {
    ghost use Rattle.std.specs.Prelude.{◌≡◌};
    ghost use Rattle.item_tree.specs.declared.fault.OpFault.TheVariants.{NoMemory};

    ghost from_gives = { λ _ e. e ≡ NoMemory };

    fn from(_e: AllocError) -> OpFault {
        OpFault::NoMemory
    }
}

impl<T: Drop> From<AllocFailed<T>> for OpFault {
    ghost use Rattle.std.specs.Prelude.{◌≡◌};
    ghost use Rattle.item_tree.specs.declared.fault.OpFault.TheVariants.{NoMemory};

    ghost from_gives = { λ _ e. e ≡ NoMemory };

    fn from(_e: AllocFailed<T>) -> OpFault {
        OpFault::NoMemory
    }
}

impl From<NoMemory> for OpFault {
    ghost use Rattle.std.specs.Prelude.{◌≡◌};
    ghost use Rattle.item_tree.specs.declared.fault.OpFault.TheVariants as op;

    ghost from_gives = { λ _ e. e ≡ op.NoMemory };

    fn from(_e: NoMemory) -> OpFault {
        OpFault::NoMemory
    }
}

impl From<Code> for OpFault {
    ghost use Rattle.std.specs.Prelude.{◌≡◌};
    ghost use Rattle.item_tree.specs.declared.fault.OpFault.TheVariants.{Raised};

    ghost from_gives = { λ c e. e ≡ Raised c };

    fn from(code: Code) -> OpFault {
        OpFault::Raised(code)
    }
}

impl From<AllocError> for MakeFault {
    ghost use Rattle.std.specs.Prelude.{◌≡◌};
    ghost use Rattle.item_tree.specs.declared.fault.MakeFault.TheVariants.{NoMemory};

    ghost from_gives = { λ _ e. e ≡ NoMemory };

    fn from(_e: AllocError) -> MakeFault {
        MakeFault::NoMemory
    }
}

impl<T: Drop> From<AllocFailed<T>> for MakeFault {
    ghost use Rattle.std.specs.Prelude.{◌≡◌};
    ghost use Rattle.item_tree.specs.declared.fault.MakeFault.TheVariants.{NoMemory};

    ghost from_gives = { λ _ e. e ≡ NoMemory };

    fn from(_e: AllocFailed<T>) -> MakeFault {
        MakeFault::NoMemory
    }
}

impl From<NoMemory> for MakeFault {
    ghost use Rattle.std.specs.Prelude.{◌≡◌};
    ghost use Rattle.item_tree.specs.declared.fault.MakeFault.TheVariants as make;

    ghost from_gives = { λ _ e. e ≡ make.NoMemory };

    fn from(_e: NoMemory) -> MakeFault {
        MakeFault::NoMemory
    }
}
