//! Files that are read, and the inputs that open them.

ghost use Rattle.std.specs.Prelude.{◌≡◌, ◌≤◌, ℕ, List, Option, length, IfOk, OnOk, OnErr, IfSome, IsErrOf};
ghost use Rattle.std.specs.Str.{chars};
ghost use Rattle.outside.specs.Counted.{Rose};
ghost use Rattle.outside.specs.Opens.{InputCounts, CountsOpen, CountsClose};
ghost use Rattle.outside.specs.World.{World, LacksName, ReadsOf, HoldsOf};

use crate::Failed;
use item_tree::NoMemory;
use std::alloc::{AllocError, AllocFailed};

/// Why a file was not opened.
#[derive(Clone, Copy, Debug, PartialEq, Eq)]
pub enum OpenFault {
    /// There is no file of this name.
    Missing,
    /// The open failed, whether or not there is such a file.
    Failed,
    /// Memory ran out.
    NoMemory,
}

impl From<AllocError> for OpenFault {
    ghost use Rattle.outside.specs.declared.input.OpenFault.TheVariants as open_fault;

    ghost from_gives = { λ _ e. e ≡ open_fault.NoMemory };

    fn from(_e: AllocError) -> OpenFault {
        OpenFault::NoMemory
    }
}

impl<T: Drop> From<AllocFailed<T>> for OpenFault {
    ghost use Rattle.outside.specs.declared.input.OpenFault.TheVariants as open_fault;

    ghost from_gives = { λ _ e. e ≡ open_fault.NoMemory };

    fn from(_e: AllocFailed<T>) -> OpenFault {
        OpenFault::NoMemory
    }
}

impl From<NoMemory> for OpenFault {
    ghost use Rattle.outside.specs.declared.input.OpenFault.TheVariants as open_fault;

    ghost from_gives = { λ _ e. e ≡ open_fault.NoMemory };

    fn from(_e: NoMemory) -> OpenFault {
        OpenFault::NoMemory
    }
}

/// A file that is open. Its bytes are counted from 0.
pub trait InputFile {
    /// The file's bytes, where it tells them.
    ghost held: { Self → Option (List ℕ) };

    /// How often a call has failed.
    ghost faults: { Self → ℕ };

    /// How many bytes the file has.
    fn len(&mut self) -> Result<u64, Failed>
        ensures same { held self.new ≡ held self.old }
        ensures value { IfOk result (λ n. IfSome (held self.old) (λ b. n ≡ length b)) }

        ensures steady { OnOk result (faults self.new ≡ faults self.old) }
        ensures cause { OnErr result (Rose (faults self.old) (faults self.new)) }
        ensures rises { faults self.old ≤ faults self.new };

    /// Reads some of the bytes from this place on into the slice's front, and answers how many.
    /// 0 means that none are left, or that the slice is empty.
    fn read_at(&mut self, at: u64, into: &mut [u8]) -> Result<usize, Failed>
        ensures same { held self.new ≡ held self.old }
        ensures within { IfOk result (λ n. n ≤ length into.old) }
        ensures bytes { IfOk result (λ n. ReadsOf (held self.old) at n into.old into.new) }

        ensures steady { OnOk result (faults self.new ≡ faults self.old) }
        ensures cause { OnErr result (Rose (faults self.old) (faults self.new)) }
        ensures rises { faults self.old ≤ faults self.new };
}

/// Files by their names.
pub trait Inputs: Sync {
    type File: InputFile + Send + Sync + Drop;

    /// Which files there are, where this is told.
    ghost world: { Self → Option World };

    /// What was counted: faults, misses, and files that were given out and taken back.
    ghost counts: { Self → InputCounts };

    /// Opens the file of this name. Whoever is given a file gives it back by `close_file`.
    fn open_file(&mut self, name: &str) -> Result<Self::File, OpenFault>
        ensures world { world self.new ≡ world self.old }
        ensures fresh { IfOk result (λ f. Self.File.faults f ≡ 0) }
        ensures holds { IfOk result (λ f.
            HoldsOf (world self.old) (chars name.now) (Self.File.held f)) }
        ensures missing { IsErrOf result OpenFault.Missing →
            IfSome (world self.old) (λ w. LacksName w (chars name.now)) }
        ensures counts { CountsOpen result (counts self.old) (counts self.new) };

    /// Takes the file back, and its faults into the count of these inputs.
    fn close_file(&mut self, file: Self::File)
        ensures world { world self.new ≡ world self.old }
        ensures counts { CountsClose (Self.File.faults file) (counts self.old) (counts self.new) };
}
