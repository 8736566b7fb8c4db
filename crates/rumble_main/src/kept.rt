//! What can be read only once, kept for later opens.

ghost use Rattle.std.specs.Prelude.{◌≡◌, IfOk, IfSome};

use item_tree::Str;
use outside::{Inputs, MemInputs, OpenFault, SteadyInputs};
use std::alloc::Global;
use std::io;
use std::io::Read;

/// An open file in memory.
pub(crate) type KeptFile = <SteadyInputs as Inputs>::File;

/// What was read whole, for every later open of the same name. Each name has inputs of its own.
#[derive(Drop)]
pub(crate) struct Kept {
    alloc: Global,
    files: Vec<SteadyInputs>,
}

impl Kept {
    /// Nothing is kept yet.
    pub(crate) fn new(alloc: Global) -> Kept {
        Kept {
            alloc,
            files: Vec::new(alloc),
        }
    }

    /// Where the bytes that are kept take their memory.
    pub(crate) fn alloc(&self) -> Global {
        self.alloc
    }

    /// Opens what is kept of this name, where something is.
    pub(crate) fn find(&mut self, name: &str) -> Result<Option<KeptFile>, OpenFault> {
        for files in &mut self.files {
            match files.open_file(name) {
                Ok(file) => return Ok(Some(file)),
                Err(OpenFault::Missing) => {}
                Err(fault) => return Err(fault),
            }
        }
        Ok(None)
    }

    /// Keeps these bytes under this name, and opens them.
    pub(crate) fn keep(&mut self, name: &str, bytes: Vec<u8>) -> Result<KeptFile, OpenFault> {
        let mut files = one_file(self.alloc, name, bytes)?;
        let file = files.open_file(name)?;
        self.files.push(files)?;
        Ok(file)
    }
}

fn one_file(alloc: Global, name: &str, bytes: Vec<u8>) -> Result<SteadyInputs, OpenFault> {
    let name = Str::of(alloc, name)?;
    let files = vec![in alloc; (name, bytes)]?;
    Ok(MemInputs::steady(alloc, files)?)
}

/// All bytes that are still to come.
pub(crate) fn read_whole<R: Read>(alloc: Global, source: &mut R) -> Result<Vec<u8>, OpenFault>
    ensures { IfOk result (λ v. IfSome (R.remaining source.old) (λ bytes. v.items ≡ bytes)) }
{
    let mut bytes = Vec::new(alloc);
    match source.read_to_end(&mut bytes) {
        Ok(_count) => Ok(bytes),
        Err(fault) if fault.kind() == io::ErrorKind::OutOfMemory => Err(OpenFault::NoMemory),
        Err(_) => Err(OpenFault::Failed),
    }
}
