//! Files in memory of which some calls fail.

ghost use Rattle.std.specs.Prelude.{◌≡◌, ◌<◌, ◌↔◌, IsTrue, Contains, IfOk, OnErr, IsErr, IsErrOf, is_err, Some, length};
ghost use Rattle.std.specs.Str.{chars};
ghost use Rattle.outside.specs.World.{file_of, LacksName, NamesDiffer, readable, filled};
ghost use Rattle.outside.specs.InMemory.{world_of, counts_of, NextOpenFails, NextCallFails};
ghost use Rattle.outside.specs.AfterCalls.{new_files, new_slow, new_failing, after_failing_open, after_failing_close, fresh_file, after_call};
ghost use Rattle.outside.specs.inside.Parts.{after_ask};

use crate::count::count_up;
use crate::file_table::FileTable;
use crate::shared_bytes::SharedBytes;
use crate::{Failed, InputFile, Inputs, OpenFault, SlowInputs, SteadyInputs};
use item_tree::{NoMemory, Str};
use std::alloc::Global;
use std::marker::Model;
use std::sync::Arc;

/// Which opens fail, and which calls on the file that an open gave. All are numbered from 1 by
/// counters of 64 bits, whose last value stands for each open or call from there on.
#[derive(Drop)]
pub struct Fails {
    /// The numbers of opens. An open counts whether it gives a file or not.
    pub opens: Vec<u64>,
    /// The number of an open, and that of a call on its file. `len` and `read_at` both count.
    pub calls: Vec<(u64, u64)>,
}

/// Files in memory, whose opens and calls fail as they were told.
#[derive(Drop)]
pub struct MemInputs {
    table: FileTable,
    fails: Arc<Fails, Global>,
    opens: u64,
    faults: u64,
}

impl Model for MemInputs {
    ghost use Rattle.std.specs.Arc.{arc_value};
    ghost use Rattle.outside.specs.InMemory.{FailingFiles};

    ghost Value = { FailingFiles };

    ghost view = { λ s. record {
      table = s.table;
      failing_opens = (arc_value s.fails).opens.items;
      failing_calls = (arc_value s.fails).calls.items;
      opens = s.opens;
      faults = s.faults;
    } };
}

/// An open file of these.
#[derive(Drop)]
pub struct FailingFile {
    bytes: SharedBytes,
    fails: Arc<Fails, Global>,
    number: u64,
    calls: u64,
    faults: u64,
}

impl Model for FailingFile {
    ghost use Rattle.std.specs.Arc.{arc_value};
    ghost use Rattle.outside.specs.InMemory.{FailingBytes};

    ghost Value = { FailingBytes };

    ghost view = { λ f. record {
      held = f.bytes;
      number = f.number;
      failing_calls = (arc_value f.fails).calls.items;
      calls = f.calls;
      faults = f.faults;
    } };
}

impl Fails {
    fn names_open(&self, number: u64) -> bool
        ensures { IsTrue result ↔ Contains self.now.opens.items number }
    {
        self.opens.contains(&number)
    }

    fn names_call(&self, number: u64, call: u64) -> bool
        ensures { IsTrue result ↔ Contains self.now.calls.items (number, call) }
    {
        self.calls.contains(&(number, call))
    }
}

impl MemInputs {
    /// Files whose names differ. All counts begin at 0.
    pub fn new(
        alloc: Global,
        files: Vec<(Str, Vec<u8>)>,
        fails: Fails,
    ) -> Result<MemInputs, NoMemory>
        requires { NamesDiffer (world_of files.items) }
        ensures { IfOk result (λ s.
            s ≡ new_failing (world_of files.items) fails.opens.items fails.calls.items) }
    {
        let table = FileTable::new(alloc, files)?;
        let fails = Arc::new(alloc, fails)?;
        Ok(MemInputs {
            table,
            fails,
            opens: 0,
            faults: 0,
        })
    }

    /// Files that never fail, whose names differ. All counts begin at 0.
    pub fn steady(alloc: Global, files: Vec<(Str, Vec<u8>)>) -> Result<SteadyInputs, NoMemory>
        requires { NamesDiffer (world_of files.items) }
        ensures { IfOk result (λ s. s ≡ new_files (world_of files.items)) }
    {
        let table = FileTable::new(alloc, files)?;
        Ok(SteadyInputs::new(table))
    }

    /// Files that never fail, whose names differ, and whose reads give at most so many bytes at
    /// once, which is at least one. All counts begin at 0.
    pub fn slow(
        alloc: Global,
        files: Vec<(Str, Vec<u8>)>,
        most: usize,
    ) -> Result<SlowInputs, NoMemory>
        requires names { NamesDiffer (world_of files.items) }
        requires some { 0 < most }
        ensures { IfOk result (λ s. s ≡ new_slow (world_of files.items) most) }
    {
        let table = FileTable::new(alloc, files)?;
        Ok(SlowInputs::new(table, most))
    }

    // Counts an open, and a fault where it is one that fails.
    fn fails_now(&mut self) -> bool
        ensures named { IsTrue result ↔ NextOpenFails self.old }
        ensures after { self.new ≡ after_ask self.old result }
    {
        self.opens = count_up(self.opens);
        let fails = self.fails.names_open(self.opens);
        if fails {
            self.faults = count_up(self.faults);
        }
        fails
    }
}

impl FailingFile {
    // Counts a call, and a fault where it is one that fails.
    fn fails_now(&mut self) -> bool
        ensures named { IsTrue result ↔ NextCallFails self.old }
        ensures after { self.new ≡ after_call self.old result }
    {
        self.calls = count_up(self.calls);
        let fails = self.fails.names_call(self.number, self.calls);
        if fails {
            self.faults = count_up(self.faults);
        }
        fails
    }
}

impl InputFile for FailingFile {
    ghost held = { λ f. Some f.held };

    ghost faults = { λ f. f.faults };

    fn len(&mut self) -> Result<u64, Failed>
        ensures fails { IsErr result ↔ NextCallFails self.old }
        ensures value { IfOk result (λ n. n ≡ length self.old.held) }
        ensures after { self.new ≡ after_call self.old (is_err result) }
    {
        if self.fails_now() {
            return Err(Failed);
        }
        Ok(self.bytes.len())
    }

    fn read_at(&mut self, at: u64, into: &mut [u8]) -> Result<usize, Failed>
        ensures fails { IsErr result ↔ NextCallFails self.old }
        ensures count { IfOk result (λ n. n ≡ readable self.old.held at (length into.old)) }
        ensures bytes { IfOk result (λ n. into.new ≡ filled self.old.held at n into.old) }
        ensures untouched { OnErr result (into.new ≡ into.old) }
        ensures after { self.new ≡ after_call self.old (is_err result) }
    {
        if self.fails_now() {
            return Err(Failed);
        }
        Ok(self.bytes.read_at(at, into))
    }
}

impl Inputs for MemInputs {
    type File = FailingFile;

    ghost world = { λ s. Some s.table.files };

    ghost counts = { λ s. counts_of s.faults s.table };

    fn open_file(&mut self, name: &str) -> Result<FailingFile, OpenFault>
        ensures fails { IsErrOf result OpenFault.Failed ↔ NextOpenFails self.old }
        ensures missing { IsErrOf result OpenFault.Missing →
            LacksName self.old.table.files (chars name.now) }
        ensures bytes { IfOk result (λ f.
            file_of self.old.table.files (chars name.now) ≡ Some f.held) }
        ensures fresh { IfOk result (λ f. f ≡ fresh_file self.new f.held) }
        ensures after { self.new ≡ after_failing_open self.old result }
    {
        if self.fails_now() {
            return Err(OpenFault::Failed);
        }
        let fails = self.fails.clone()?;
        let bytes = self.table.open(name)?;
        Ok(FailingFile {
            bytes,
            fails,
            number: self.opens,
            calls: 0,
            faults: 0,
        })
    }

    fn close_file(&mut self, file: FailingFile)
        ensures { self.new ≡ after_failing_close self.old file }
    {
        self.table.close();
        if file.faults > 0 {
            self.faults = count_up(self.faults);
        }
    }
}
