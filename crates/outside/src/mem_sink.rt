//! A sink in memory.

ghost use Rattle.std.specs.Prelude.{◌≡◌, ◌<◌, ◌≤◌, ◌↔◌, length, nat_lt, IfOk, IsErr};
ghost use Rattle.outside.specs.InMemory.{takes_of, IsStuck};
ghost use Rattle.outside.specs.AfterCalls.{new_sink, after_write};

use crate::count::count_up;
use crate::{Failed, Sink};
use item_tree::NoMemory;
use std::alloc::Global;
use std::marker::Model;

/// A sink in memory with a fixed room, which takes at most so many bytes at once. It fails only
/// where its room is used up, or where it takes nothing at all.
#[derive(Drop)]
pub struct MemSink {
    label: u32,
    bytes: Vec<u8>,
    room: usize,
    most: usize,
    faults: u64,
}

impl Model for MemSink {
    ghost use Rattle.std.specs.Prelude.{length, vec_capacity};
    ghost use Rattle.outside.specs.InMemory.{BoundedSink};
    ghost use Rattle.outside.specs.inside.Parts.{KeepsRoom};

    ghost Value = { BoundedSink };

    ghost view = { λ s. record {
      label = s.label;
      written = s.bytes.items;
      room = s.room;
      most = s.most;
      faults = s.faults;
    } };

    ghost invariant = { λ s.
        KeepsRoom (length s.bytes.items) (vec_capacity s.bytes) s.room s.most s.faults };
}

impl MemSink {
    /// An empty sink with the label 0, which takes the memory for all its room at once.
    pub fn new(alloc: Global, room: usize, most: usize) -> Result<MemSink, NoMemory>
        ensures { IfOk result (λ s. s ≡ new_sink room most) }
    {
        let bytes = Vec::with_capacity(alloc, room)?;
        Ok(MemSink {
            label: 0,
            bytes,
            room,
            most,
            faults: 0,
        })
    }

    /// The same sink with this label.
    pub fn labelled(self, label: u32) -> MemSink
        ensures { result ≡ record self { label = label } }
    {
        MemSink { label, ..self }
    }

    /// The number by which the sink is told from others.
    pub fn label(&self) -> u32
        ensures { result ≡ self.now.label }
    {
        self.label
    }

    /// What was written.
    pub fn bytes(&self) -> &[u8]
        ensures value { result.now ≡ self.now.written }
        ensures within { length self.now.written ≤ self.now.room }
        ensures stuck { 0 < self.now.faults → IsStuck self.now }
    {
        &self.bytes
    }

    /// Whether a write has failed.
    pub(crate) fn has_failed(&self) -> bool
        ensures { result ≡ nat_lt 0 self.now.faults }
    {
        self.faults > 0
    }
}

impl Sink for MemSink {
    ghost use Rattle.std.specs.Prelude.{Some};

    ghost label = { λ s. s.label };

    ghost wrote = { λ s. Some s.written };

    ghost faults = { λ s. s.faults };

    fn write(&mut self, bytes: &[u8]) -> Result<usize, Failed>
        ensures fails { IsErr result ↔ ((0 < length bytes.now) × IsStuck self.old) }
        ensures count { IfOk result (λ n. n ≡ takes_of self.old bytes.now) }
        ensures after { self.new ≡ after_write self.old bytes.now result }
    {
        let left = self.room - self.bytes.len();
        let count = self.most.min(left).min(bytes.len());
        if count == 0 && !bytes.is_empty() {
            self.faults = count_up(self.faults);
            return Err(Failed);
        }
        if self.bytes.extend_from_slice(&bytes[..count]).is_err() {
            unreachable!()
        }
        Ok(count)
    }
}
