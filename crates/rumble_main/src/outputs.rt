//! Numbered outputs as files of the working folder.

ghost use Rattle.std.specs.Prelude.{◌≡◌, ◌≤◌, None, IfOk};

use crate::sink::StdSink;
use outside::{CreateFault, Failed, Outputs, Sink};
use std::alloc::Global;
use std::fs;
use std::fs::{File, Files};

/// The files `part-0000`, `part-0001` and so on of the working folder. They count their faults and
/// tell no bytes.
///
/// A part is written to a file of another name, which gets the part's name when it is whole, in the
/// place of an old one. So a reader never sees half a part, and where a part cannot be finished no
/// file of its name is new.
#[derive(Drop)]
pub struct FileOutputs<'a, R> {
    rt: &'a R,
    alloc: Global,
    faults: u64,
    created: u64,
    finished: u64,
    late: bool,
    ghost within: { finished ≤ created },
}

/// A part that is being written.
#[derive(Drop)]
pub struct PartFile {
    label: u32,
    name: String,
    unfinished: String,
    file: StdSink<File>,
}

impl<'a, R> FileOutputs<'a, R> {
    /// All counts begin at 0.
    pub fn new(rt: &'a R, alloc: Global) -> FileOutputs<'a, R> {
        FileOutputs {
            rt,
            alloc,
            faults: 0,
            created: 0,
            finished: 0,
            late: false,
        }
    }

    /// Whether a part was written whole and then did not get its name. The next part fails for it;
    /// behind the last one this tells it.
    pub fn is_late(&self) -> bool {
        self.late
    }
}

// Begins the part of this number, under another name.
fn begin_part<R: Files<File = File>>(
    rt: &R,
    alloc: Global,
    number: u32,
) -> Result<PartFile, CreateFault>
    ensures label { IfOk result (λ part. part.label ≡ number) }
    ensures fresh { IfOk result (λ part. part.file.faults ≡ 0) }
{
    let name = format!(in alloc; "part-{number:04}")?;
    let unfinished = format!(in alloc; ".part-{number:04}.unfinished")?;
    match fs::create(rt, unfinished.as_str()) {
        Ok(file) => Ok(PartFile {
            label: number,
            name,
            unfinished,
            file: StdSink::new(file),
        }),
        Err(_) => Err(CreateFault::Failed),
    }
}

// Gives the part its name where it is whole, and else takes away what was written. Answers whether
// that is done.
fn end_part<R: Files<File = File>>(rt: &R, part: PartFile, whole: bool) -> bool {
    let PartFile {
        name,
        unfinished,
        file,
        ..
    } = part;
    drop(file);
    let named = whole && fs::rename(rt, unfinished.as_str(), name.as_str()).is_ok();
    if !named {
        let _removed = fs::remove_file(rt, unfinished.as_str());
    }
    named
}

impl Sink for PartFile {
    ghost label = { λ s. s.label };

    ghost wrote = { λ _. None };

    ghost faults = { λ s. s.file.faults };

    fn write(&mut self, bytes: &[u8]) -> Result<usize, Failed> {
        self.file.write(bytes)
    }
}

impl<R: Files<File = File>> Outputs for FileOutputs<'_, R> {
    type Out = PartFile;

    ghost made = { λ _. None };

    ghost faults = { λ s. s.faults };

    ghost created = { λ s. s.created };

    ghost finished = { λ s. s.finished };

    fn create(&mut self, number: u32) -> Result<PartFile, CreateFault> {
        let part = if self.late || self.created == u64::MAX {
            Err(CreateFault::Failed)
        } else {
            begin_part(self.rt, self.alloc, number)
        };
        match part {
            Ok(part) => {
                self.created += 1;
                Ok(part)
            }
            Err(fault) => {
                if fault == CreateFault::Failed {
                    self.faults = self.faults.saturating_add(1);
                }
                Err(fault)
            }
        }
    }

    fn finish(&mut self, out: PartFile) {
        self.finished += 1;
        if out.file.has_failed() {
            self.faults = self.faults.saturating_add(1);
            let _ended = end_part(self.rt, out, false);
        } else if !end_part(self.rt, out, true) {
            self.late = true;
        }
    }

    ghost within = { λ s. s.within };
}
