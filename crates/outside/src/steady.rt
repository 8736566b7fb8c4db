//! Files in memory that never fail.

ghost use Rattle.std.specs.Prelude.{◌≡◌, IfOk, Ok, IsErrOf, Some, length};
ghost use Rattle.std.specs.Str.{chars};
ghost use Rattle.outside.specs.World.{file_of, LacksName, readable, filled};
ghost use Rattle.outside.specs.InMemory.{counts_of};
ghost use Rattle.outside.specs.AfterCalls.{after_open, after_close};

use crate::file_table::FileTable;
use crate::shared_bytes::SharedBytes;
use crate::{Failed, InputFile, Inputs, OpenFault};
use std::marker::Model;

/// Files in memory that never fail.
#[derive(Drop)]
pub struct SteadyInputs {
    table: FileTable,
}

impl Model for SteadyInputs {
    ghost use Rattle.outside.specs.InMemory.{CountedFiles};

    ghost Value = { CountedFiles };

    ghost view = { λ s. s.table };
}

/// An open file of these, seen as its bytes.
#[derive(Drop)]
pub struct SteadyFile {
    bytes: SharedBytes,
}

impl Model for SteadyFile {
    ghost use Rattle.std.specs.Prelude.{ℕ, List};

    ghost Value = { List ℕ };

    ghost view = { λ f. f.bytes };
}

impl SteadyInputs {
    pub(crate) fn new(table: FileTable) -> SteadyInputs
        ensures { result ≡ table }
    {
        SteadyInputs { table }
    }
}

impl InputFile for SteadyFile {
    ghost held = { λ f. Some f };

    ghost faults = { λ f. 0 };

    fn len(&mut self) -> Result<u64, Failed>
        ensures value { result ≡ Ok (length self.old) }
        ensures same { self.new ≡ self.old }
    {
        Ok(self.bytes.len())
    }

    fn read_at(&mut self, at: u64, into: &mut [u8]) -> Result<usize, Failed>
        ensures count { result ≡ Ok (readable self.old at (length into.old)) }
        ensures bytes { IfOk result (λ n. into.new ≡ filled self.old at n into.old) }
        ensures same { self.new ≡ self.old }
    {
        Ok(self.bytes.read_at(at, into))
    }
}

impl Inputs for SteadyInputs {
    type File = SteadyFile;

    ghost world = { λ s. Some s.files };

    ghost counts = { counts_of 0 };

    fn open_file(&mut self, name: &str) -> Result<SteadyFile, OpenFault>
        ensures bytes { IfOk result (λ f. file_of self.old.files (chars name.now) ≡ Some f) }
        ensures missing { IsErrOf result OpenFault.Missing →
            LacksName self.old.files (chars name.now) }
        ensures never_fails { IsErrOf result OpenFault.Failed → ⊥ }
        ensures after { self.new ≡ after_open self.old result }
    {
        let bytes = self.table.open(name)?;
        Ok(SteadyFile { bytes })
    }

    fn close_file(&mut self, file: SteadyFile)
        ensures { self.new ≡ after_close self.old }
    {
        self.table.close();
        drop(file);
    }
}
