//! A table of files in memory, by their names.

ghost use Rattle.std.specs.Prelude.{◌≡◌, IfOk};
ghost use Rattle.std.specs.Option.{option_copied};
ghost use Rattle.std.specs.Str.{chars};
ghost use Rattle.outside.specs.World.{file_of};
ghost use Rattle.outside.specs.InMemory.{world_of};
ghost use Rattle.outside.specs.AfterCalls.{new_files, after_open, after_close};
ghost use Rattle.outside.specs.inside.Parts.{Gives};

use crate::OpenFault;
use crate::count::count_up;
use crate::names::is_named;
use crate::shared_bytes::SharedBytes;
use item_tree::{NoMemory, Str};
use std::alloc::Global;
use std::marker::Model;

/// Files in memory by their names, with the counts that all kinds of inputs in memory have.
#[derive(Drop)]
pub(crate) struct FileTable {
    files: Vec<(Str, SharedBytes)>,
    misses: u64,
    opened: u64,
    closed: u64,
}

impl Model for FileTable {
    ghost use Rattle.outside.specs.InMemory.{CountedFiles};

    ghost Value = { CountedFiles };

    ghost view = { λ s. record {
      files = s.files.items;
      misses = s.misses;
      opened = s.opened;
      closed = s.closed;
    } };
}

// The bytes of the first file of this name.
fn find<'a>(files: &'a [(Str, SharedBytes)], name: &str) -> Option<&'a SharedBytes>
    ensures { option_copied result ≡ file_of files.now (chars name.now) }
{
    for file in files {
        if is_named(&file.0, name) {
            return Some(&file.1);
        }
    }
    None
}

// The same files, whose bytes can now be shared.
fn shared(alloc: Global, files: Vec<(Str, Vec<u8>)>) -> Result<Vec<(Str, SharedBytes)>, NoMemory>
    ensures { IfOk result (λ s. s.items ≡ world_of files.items) }
{
    let mut made = Vec::new(alloc);
    for (name, bytes) in files {
        let bytes = SharedBytes::new(alloc, bytes)?;
        made.push((name, bytes))?;
    }
    Ok(made)
}

impl FileTable {
    /// All counts begin at 0.
    pub(crate) fn new(alloc: Global, files: Vec<(Str, Vec<u8>)>) -> Result<FileTable, NoMemory>
        ensures { IfOk result (λ s. s ≡ new_files (world_of files.items)) }
    {
        let files = shared(alloc, files)?;
        Ok(FileTable {
            files,
            misses: 0,
            opened: 0,
            closed: 0,
        })
    }

    /// Gives out the bytes of the file of this name, and counts it, or a miss.
    pub(crate) fn open(&mut self, name: &str) -> Result<SharedBytes, OpenFault>
        ensures gives { Gives (file_of self.old.files (chars name.now)) result }
        ensures after { self.new ≡ after_open self.old result }
    {
        let Some(bytes) = find(&self.files, name) else {
            self.misses = count_up(self.misses);
            return Err(OpenFault::Missing);
        };
        let bytes = bytes.share()?;
        self.opened = count_up(self.opened);
        Ok(bytes)
    }

    /// Counts a file that is taken back.
    pub(crate) fn close(&mut self)
        ensures { self.new ≡ after_close self.old }
    {
        self.closed = count_up(self.closed);
    }
}
