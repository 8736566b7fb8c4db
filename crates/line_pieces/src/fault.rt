//! Why a piece was not read.

ghost use Rattle.std.specs.Prelude.{◌≡◌};

use item_tree::NoMemory;
use std::alloc::{AllocError, AllocFailed};

/// Why a piece or a file was not read.
#[derive(Clone, Copy, Debug, PartialEq, Eq)]
pub enum PieceFault {
    /// A call on a file failed.
    ReadFault,
    /// Memory ran out.
    NoMemory,
}

impl From<AllocError> for PieceFault {
    ghost use Rattle.line_pieces.specs.declared.fault.PieceFault.TheVariants as piece_fault;

    ghost from_gives = { λ _ e. e ≡ piece_fault.NoMemory };

    fn from(_e: AllocError) -> PieceFault {
        PieceFault::NoMemory
    }
}

impl<T: Drop> From<AllocFailed<T>> for PieceFault {
    ghost use Rattle.line_pieces.specs.declared.fault.PieceFault.TheVariants as piece_fault;

    ghost from_gives = { λ _ e. e ≡ piece_fault.NoMemory };

    fn from(_e: AllocFailed<T>) -> PieceFault {
        PieceFault::NoMemory
    }
}

impl From<NoMemory> for PieceFault {
    ghost use Rattle.line_pieces.specs.declared.fault.PieceFault.TheVariants as piece_fault;

    ghost from_gives = { λ _ e. e ≡ piece_fault.NoMemory };

    fn from(_e: NoMemory) -> PieceFault {
        PieceFault::NoMemory
    }
}
