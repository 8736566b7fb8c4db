//! The words of the command line.

use item_tree::{NoMemory, Str};
use std::alloc::Global;
use std::env::{Args, Env};
use std::{env, io};

/// Why the words of the command line were not read.
#[derive(Clone, Copy, Debug, PartialEq, Eq)]
pub enum WordFault {
    /// A word is not UTF-8.
    NoText,
    NoMemory,
}

impl From<NoMemory> for WordFault {
    fn from(_e: NoMemory) -> WordFault {
        WordFault::NoMemory
    }
}

// The words behind the first.
fn words_of(alloc: Global, arguments: Args<Global>) -> Result<Vec<Str>, NoMemory> {
    let mut words = Vec::new(alloc);
    for argument in arguments.skip(1) {
        let word = Str::of(alloc, argument.as_str())?;
        words.push(word)?;
    }
    Ok(words)
}

/// The words of the command line, behind the program's own name.
pub fn words<R: Env + AllocGlobal>(rt: &R, alloc: Global) -> Result<Vec<Str>, WordFault> {
    let arguments = match env::args(rt) {
        Ok(arguments) => arguments,
        Err(fault) if fault.kind() == io::ErrorKind::OutOfMemory => return Err(WordFault::NoMemory),
        Err(_) => return Err(WordFault::NoText),
    };
    let words = words_of(alloc, arguments)?;
    Ok(words)
}
