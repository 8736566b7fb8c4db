//! The program: `rumble` over real files and the standard streams.
#![tactic(auto)]

mod exits;
mod inputs;
mod kept;
mod outputs;
mod sink;
#[cfg(test)]
mod tests;
mod words;

use crate::exits::exit_code;
use crate::inputs::FileInputs;
use crate::outputs::FileOutputs;
use crate::sink::StdSink;
use crate::words::{WordFault, words};
use outside::{FreeGate, write_all};
use rumble_run::{Status, rumble_parts};
use std::process::ExitCode;

fn main(rt: HostRuntime) -> ExitCode {
    let alloc = rt.alloc();
    let mut inputs = FileInputs::new(&rt, alloc);
    let mut outputs = FileOutputs::new(&rt, alloc);
    let mut out = StdSink::new(rt.stdout());
    let mut err = StdSink::new(rt.stderr());
    let words = match words(&rt, alloc) {
        Ok(words) => words,
        // Words that are no text are words outside the table, as no words are.
        Err(WordFault::NoText) => Vec::new(alloc),
        Err(WordFault::NoMemory) => {
            let _told = write_all(&mut err, b"no memory\n");
            return exit_code(Status::NoMemory);
        }
    };
    let status = rumble_parts(
        &rt,
        alloc,
        &words,
        &mut inputs,
        &mut outputs,
        &mut out,
        &mut err,
        &FreeGate,
    );
    if status == Status::Done && outputs.is_late() {
        let _told = write_all(&mut err, b"write fault\n");
        return exit_code(Status::WriteFault);
    }
    exit_code(status)
}
