//! Why a line has no item.

ghost use Rattle.std.specs.Prelude.{◌≡◌};
ghost use Rattle.item_reader.specs.Faults.{code_of};

use item_tree::{Code, NoMemory};
use std::alloc::{AllocError, AllocFailed};

/// Why a line gave no item.
#[derive(Clone, Copy, Debug, PartialEq, Eq)]
pub enum LineFault {
    /// The line is no text of JSON.
    NotJson,
    /// An integer n with |n| >= 10^20, or a decimal whose nearest number of units of 10^-6 is m
    /// with |m| >= 10^26.
    NumberOut,
    /// A bracket opens inside 128 open ones.
    TooDeep,
    /// There was no memory to read the line. It says nothing of the line.
    NoMemory,
}

impl LineFault {
    /// The code that the line raises; want of memory has none.
    pub fn code(&self) -> Option<Code>
        ensures { result ≡ code_of self.now }
    {
        match self {
            LineFault::NotJson => Some(Code::JNDY0021),
            LineFault::NumberOut => Some(Code::PJDY0004),
            LineFault::TooDeep => Some(Code::PJDY0002),
            LineFault::NoMemory => None,
        }
    }
}

impl From<AllocError> for LineFault {
    ghost use Rattle.std.specs.Prelude.{◌≡◌};
    ghost use Rattle.item_reader.specs.declared.fault.LineFault.TheVariants as line;

    ghost from_gives = { λ _ e. e ≡ line.NoMemory };

    fn from(_e: AllocError) -> LineFault {
        LineFault::NoMemory
    }
}

impl<T: Drop> From<AllocFailed<T>> for LineFault {
    ghost use Rattle.std.specs.Prelude.{◌≡◌};
    ghost use Rattle.item_reader.specs.declared.fault.LineFault.TheVariants as line;

    ghost from_gives = { λ _ e. e ≡ line.NoMemory };

    fn from(_e: AllocFailed<T>) -> LineFault {
        LineFault::NoMemory
    }
}

impl From<NoMemory> for LineFault {
    ghost use Rattle.std.specs.Prelude.{◌≡◌};
    ghost use Rattle.item_reader.specs.declared.fault.LineFault.TheVariants as line;

    ghost from_gives = { λ _ e. e ≡ line.NoMemory };

    fn from(_e: NoMemory) -> LineFault {
        LineFault::NoMemory
    }
}
