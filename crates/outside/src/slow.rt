//! Files in memory whose reads give few bytes.

ghost use Rattle.std.specs.Prelude.{◌≡◌, ◌<◌, IfOk, Ok, IsErrOf, Some, length, min};
ghost use Rattle.std.specs.Str.{chars};
ghost use Rattle.outside.specs.World.{file_of, LacksName, readable, filled};
ghost use Rattle.outside.specs.InMemory.{counts_of};
ghost use Rattle.outside.specs.AfterCalls.{after_slow_open, after_slow_close};

use crate::file_table::FileTable;
use crate::shared_bytes::SharedBytes;
use crate::{Failed, InputFile, Inputs, OpenFault};
use std::marker::Model;

/// Files in memory that never fail, and whose reads give few bytes at once.
#[derive(Drop)]
pub struct SlowInputs {
    table: FileTable,
    most: usize,
}

impl Model for SlowInputs {
    ghost use Rattle.std.specs.Prelude.{◌<◌};
    ghost use Rattle.outside.specs.InMemory.{SlowFiles};

    ghost Value = { SlowFiles };

    ghost view = { λ s. record { table = s.table; most = s.most } };

    ghost invariant = { λ s. 0 < s.most };
}

/// An open file of these.
#[derive(Drop)]
pub struct SlowFile {
    bytes: SharedBytes,
    most: usize,
}

impl Model for SlowFile {
    ghost use Rattle.std.specs.Prelude.{◌<◌};
    ghost use Rattle.outside.specs.InMemory.{SlowBytes};

    ghost Value = { SlowBytes };

    ghost view = { λ f. record { held = f.bytes; most = f.most } };

    ghost invariant = { λ f. 0 < f.most };
}

impl SlowInputs {
    pub(crate) fn new(table: FileTable, most: usize) -> SlowInputs
        requires { 0 < most }
        ensures { result ≡ record { table = table; most = most } }
    {
        SlowInputs { table, most }
    }
}

impl InputFile for SlowFile {
    ghost held = { λ f. Some f.held };

    ghost faults = { λ f. 0 };

    fn len(&mut self) -> Result<u64, Failed>
        ensures value { result ≡ Ok (length self.old.held) }
        ensures same { self.new ≡ self.old }
    {
        Ok(self.bytes.len())
    }

    fn read_at(&mut self, at: u64, into: &mut [u8]) -> Result<usize, Failed>
        ensures at_least_one { 0 < self.old.most }
        ensures count { result ≡
            Ok (min self.old.most (readable self.old.held at (length into.old))) }
        ensures bytes { IfOk result (λ n. into.new ≡ filled self.old.held at n into.old) }
        ensures same { self.new ≡ self.old }
    {
        let room = self.most.min(into.len());
        Ok(self.bytes.read_at(at, &mut into[..room]))
    }
}

impl Inputs for SlowInputs {
    type File = SlowFile;

    ghost world = { λ s. Some s.table.files };

    ghost counts = { λ s. counts_of 0 s.table };

    fn open_file(&mut self, name: &str) -> Result<SlowFile, OpenFault>
        ensures bytes { IfOk result (λ f.
            file_of self.old.table.files (chars name.now) ≡ Some f.held) }
        ensures most { IfOk result (λ f. f.most ≡ self.old.most) }
        ensures missing { IsErrOf result OpenFault.Missing →
            LacksName self.old.table.files (chars name.now) }
        ensures never_fails { IsErrOf result OpenFault.Failed → ⊥ }
        ensures after { self.new ≡ after_slow_open self.old result }
    {
        let bytes = self.table.open(name)?;
        Ok(SlowFile {
            bytes,
            most: self.most,
        })
    }

    fn close_file(&mut self, file: SlowFile)
        ensures { self.new ≡ after_slow_close self.old }
    {
        self.table.close();
        drop(file);
    }
}
