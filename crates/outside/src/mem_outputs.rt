//! Numbered outputs in memory.

ghost use Rattle.std.specs.Prelude.{◌≡◌, ◌↔◌, ◌<◌, ◌≤◌, ◌^◌, length, IfOk, IsErr, IsErrOf, Some};
ghost use Rattle.outside.specs.InMemory.{BoundedSink};
ghost use Rattle.outside.specs.MemOutputs.{new_outputs, made_of, created_of, empty_sink, CreateFails, after_create, after_finish};
ghost use Rattle.outside.specs.inside.Parts.{AllSpare};

use crate::count::count_up;
use crate::{CreateFault, MemSink, Outputs};
use item_tree::NoMemory;
use std::alloc::Global;
use std::marker::Model;

/// Numbered sinks in memory, of which some fail. They take no memory after they were made.
#[derive(Drop)]
pub struct MemOutputs {
    count: u32,
    room: usize,
    fails: Vec<u32>,
    spare: Vec<MemSink>,
    pending: u32,
    done: Vec<MemSink>,
    faults: u64,
}

impl Model for MemOutputs {
    ghost use Rattle.std.specs.Prelude.{length, vec_capacity};
    ghost use Rattle.outside.specs.MemOutputs.{NumberedSinks};
    ghost use Rattle.outside.specs.inside.Parts.{KeepsSinks};

    ghost Value = { NumberedSinks };

    ghost view = { λ s. record {
      count = s.count;
      room = s.room;
      fails = s.fails.items;
      pending = s.pending;
      done = s.done.items;
      faults = s.faults;
    } };

    ghost invariant = { λ s.
        KeepsSinks s.spare.items s.room s.pending (length s.done.items) (vec_capacity s.done)
        s.count };
}

// So many empty sinks of this room.
fn spare_sinks(alloc: Global, count: u32, room: usize) -> Result<Vec<MemSink>, NoMemory>
    ensures length { IfOk result (λ v. length v.items ≡ count) }
    ensures spare { IfOk result (λ v. AllSpare room v.items) }
{
    let mut spare = Vec::new(alloc);
    for _ in 0..count {
        let sink = MemSink::new(alloc, room, usize::MAX)?;
        spare.push(sink)?;
    }
    Ok(spare)
}

impl MemOutputs {
    /// So many sinks of this room, which take all their memory now. The numbers that fail never get
    /// one.
    pub fn new(
        alloc: Global,
        count: u32,
        room: usize,
        fails: Vec<u32>,
    ) -> Result<MemOutputs, NoMemory>
        ensures { IfOk result (λ s. s ≡ new_outputs count room fails.items) }
    {
        let done = Vec::with_capacity(alloc, count as usize)?;
        let spare = spare_sinks(alloc, count, room)?;
        Ok(MemOutputs {
            count,
            room,
            fails,
            spare,
            pending: 0,
            done,
            faults: 0,
        })
    }

    /// The sinks that were finished, in this order.
    pub fn done(&self) -> &[MemSink]
        ensures { result.now ≡ self.now.done }
    {
        &self.done
    }
}

impl Outputs for MemOutputs {
    type Out = MemSink;

    ghost made = { λ s. Some (made_of s) };

    ghost faults = { λ s. s.faults };

    ghost created = { created_of };

    ghost finished = { λ s. length s.done };

    fn create(&mut self, number: u32) -> Result<MemSink, CreateFault>
        ensures fails { IsErr result ↔ CreateFails self.old number }
        ensures never { IsErrOf result CreateFault.NoMemory → ⊥ }
        ensures within { created_of self.old ≤ self.old.count }
        ensures few { self.old.count < 2 ^ 32 }
        ensures empty { IfOk result (λ out. out ≡ empty_sink self.old.room number) }
        ensures after { self.new ≡ after_create self.old result }
    {
        if !self.fails.contains(&number) {
            if let Some(sink) = self.spare.pop() {
                self.pending += 1;
                return Ok(sink.labelled(number));
            }
        }
        self.faults = count_up(self.faults);
        Err(CreateFault::Failed)
    }

    fn finish(&mut self, out: MemSink)
        requires { length self.old.done < created_of self.old }
        ensures { self.new ≡ after_finish self.old out }
    {
        if out.has_failed() {
            self.faults = count_up(self.faults);
        }
        self.pending -= 1;
        match self.done.push(out) {
            Ok(()) => {}
            Err(_failed) => unreachable!(),
        }
    }

    ghost use Rattle.std.proofs.Common.{arith};

    ghost within = { λ s. Prim.omega arith };
}
