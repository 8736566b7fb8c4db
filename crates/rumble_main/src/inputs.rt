//! The files of the system as inputs.

ghost use Rattle.std.specs.Prelude.{◌≤◌, None, IfOk, length};

use crate::kept::{Kept, KeptFile, read_whole};
use outside::{Failed, InputFile, Inputs, OpenFault};
use std::alloc::Global;
use std::fs::{File, Files};
use std::os::unix::fs::FileExt;
use std::{fs, io};

/// The files of the system. They count their faults and tell no bytes.
///
/// What tells no length, as a pipe or a device, can be read only once. So it is read whole where it
/// is first opened, and its bytes are kept for every later open of the same name.
#[derive(Drop)]
pub struct FileInputs<'a, R> {
    rt: &'a R,
    kept: Kept,
    faults: u64,
    misses: u64,
    opened: u64,
    closed: u64,
}

/// An open file of the system.
#[derive(Drop)]
pub struct FileInput {
    source: Source,
    // The length that was last told. Whoever asked for it counts on that many bytes.
    told: u64,
    faults: u64,
}

// Where the bytes of an open file come from.
#[derive(Drop)]
enum Source {
    System(File),
    Kept(KeptFile),
}

impl<'a, R> FileInputs<'a, R> {
    /// All counts begin at 0, and nothing is kept.
    pub fn new(rt: &'a R, alloc: Global) -> FileInputs<'a, R> {
        FileInputs {
            rt,
            kept: Kept::new(alloc),
            faults: 0,
            misses: 0,
            opened: 0,
            closed: 0,
        }
    }
}

// Whether there can be no file of a name, by what an open of it met: nothing, a file where a folder
// must be, a name that is too long or has a NUL, links in a circle.
fn is_no_file(kind: io::ErrorKind) -> bool {
    matches!(
        kind,
        io::ErrorKind::NotFound
            | io::ErrorKind::NotADirectory
            | io::ErrorKind::InvalidFilename
            | io::ErrorKind::InvalidInput
            | io::ErrorKind::FilesystemLoop
    )
}

// A file of the system that tells a length is read where it stands, and any other is read whole.
fn open_source<R: Files<File = File>>(
    rt: &R,
    kept: &mut Kept,
    name: &str,
) -> Result<Source, OpenFault> {
    if let Some(file) = kept.find(name)? {
        return Ok(Source::Kept(file));
    }
    let mut file = match fs::open(rt, name) {
        Ok(file) => file,
        Err(fault) if is_no_file(fault.kind()) => return Err(OpenFault::Missing),
        Err(_) => return Err(OpenFault::Failed),
    };
    let Ok(metadata) = file.metadata() else {
        return Err(OpenFault::Failed);
    };
    if metadata.is_file() && metadata.len() > 0 {
        return Ok(Source::System(file));
    }
    let bytes = read_whole(kept.alloc(), &mut file)?;
    let file = kept.keep(name, bytes)?;
    Ok(Source::Kept(file))
}

// A signal may interrupt a read, which is then made again.
fn read_again(file: &File, at: u64, into: &mut [u8]) -> Result<usize, Failed>
    ensures { IfOk result (λ n. n ≤ length into.old) }
{
    'reading: for _ in 0..u64::MAX {
        match file.read_at(into, at) {
            Err(fault) if fault.kind() == io::ErrorKind::Interrupted => {}
            Ok(count) => return Ok(count),
            Err(_) => break,
        }
    }
    Err(Failed)
}

// A file that gives nothing where it has told more bytes was shortened, which is a failed read.
fn read_told(file: &File, told: u64, at: u64, into: &mut [u8]) -> Result<usize, Failed>
    ensures { IfOk result (λ n. n ≤ length into.old) }
{
    let wanted = !into.is_empty() && at < told;
    match read_again(file, at, into)? {
        0 if wanted => Err(Failed),
        count => Ok(count),
    }
}

impl InputFile for FileInput {
    ghost held = { λ _. None };

    ghost faults = { λ f. f.faults };

    fn len(&mut self) -> Result<u64, Failed> {
        let length = match &mut self.source {
            Source::Kept(file) => file.len(),
            Source::System(file) => match file.metadata() {
                Ok(metadata) => Ok(metadata.len()),
                Err(_) => Err(Failed),
            },
        };
        match length {
            Ok(told) => self.told = told,
            Err(Failed) => self.faults = self.faults.saturating_add(1),
        }
        length
    }

    fn read_at(&mut self, at: u64, into: &mut [u8]) -> Result<usize, Failed> {
        let count = match &mut self.source {
            Source::Kept(file) => file.read_at(at, into),
            Source::System(file) => read_told(file, self.told, at, into),
        };
        if count.is_err() {
            self.faults = self.faults.saturating_add(1);
        }
        count
    }
}

impl<R: Files<File = File> + Sync> Inputs for FileInputs<'_, R> {
    type File = FileInput;

    ghost world = { λ _. None };

    ghost counts = { λ s. record {
      faults = s.faults;
      misses = s.misses;
      opened = s.opened;
      closed = s.closed;
    } };

    fn open_file(&mut self, name: &str) -> Result<FileInput, OpenFault> {
        match open_source(self.rt, &mut self.kept, name) {
            Ok(source) => {
                self.opened = self.opened.saturating_add(1);
                Ok(FileInput {
                    source,
                    told: 0,
                    faults: 0,
                })
            }
            Err(fault) => {
                match fault {
                    OpenFault::Missing => self.misses = self.misses.saturating_add(1),
                    OpenFault::Failed => self.faults = self.faults.saturating_add(1),
                    OpenFault::NoMemory => {}
                }
                Err(fault)
            }
        }
    }

    fn close_file(&mut self, file: FileInput) {
        self.closed = self.closed.saturating_add(1);
        if file.faults > 0 {
            self.faults = self.faults.saturating_add(1);
        }
    }
}
