//! The standard streams and files as sinks.

ghost use Rattle.std.specs.Prelude.{◌≡◌, nat_lt, None};

use outside::{Failed, Sink};
use std::io;
use std::io::Write;

/// A standard stream of the program, or a file. It counts its faults and tells no bytes, and its
/// label is 0.
#[derive(Drop)]
pub struct StdSink<W> {
    stream: W,
    faults: u64,
}

impl<W> StdSink<W> {
    /// The count begins at 0.
    pub fn new(stream: W) -> StdSink<W>
        ensures { result.faults ≡ 0 }
    {
        StdSink { stream, faults: 0 }
    }

    /// Whether a write has failed.
    pub fn has_failed(&self) -> bool
        ensures { result ≡ nat_lt 0 self.now.faults }
    {
        self.faults > 0
    }
}

impl<W: Write> Sink for StdSink<W> {
    ghost label = { λ _. 0 };

    ghost wrote = { λ _. None };

    ghost faults = { λ s. s.faults };

    fn write(&mut self, bytes: &[u8]) -> Result<usize, Failed> {
        // A signal may interrupt a write, which is then made again.
        'writing: for _ in 0..u64::MAX {
            match self.stream.write(bytes) {
                Err(fault) if fault.kind() == io::ErrorKind::Interrupted => {}
                Ok(count) if count > 0 || bytes.is_empty() => return Ok(count),
                _ => break,
            }
        }
        self.faults = self.faults.saturating_add(1);
        Err(Failed)
    }
}
