//! Sinks, and how all of some bytes is written.

ghost use Rattle.std.specs.Prelude.{◌≡◌, ◌<◌, ◌≤◌, ◌⊎◌, ℕ, List, Option, length, take, IfOk, OnOk, OnErr};
ghost use Rattle.outside.specs.Counted.{Rose, appended, CutShort};

/// An object of the outside failed in this call.
#[derive(Clone, Copy, Debug, PartialEq, Eq)]
pub struct Failed;

/// Where bytes are written.
pub trait Sink {
    /// A number that the sink was given, by which it is told from others. No write changes it.
    ghost label: { Self → ℕ };

    /// What was written so far, where the sink tells it.
    ghost wrote: { Self → Option (List ℕ) };

    /// How often a write has failed, or took nothing of a piece that isn't empty.
    ghost faults: { Self → ℕ };

    /// Takes the first bytes of a piece, as many as it answers. If it fails, it has taken none.
    fn write(&mut self, bytes: &[u8]) -> Result<usize, Failed>
        ensures label { label self.new ≡ label self.old }
        ensures within { IfOk result (λ n. n ≤ length bytes.now) }
        ensures taken { IfOk result (λ n.
            wrote self.new ≡ appended (wrote self.old) (take n bytes.now)) }
        ensures err { OnErr result (wrote self.new ≡ wrote self.old) }

        ensures steady { IfOk result (λ n.
            (0 < n) ⊎ (length bytes.now ≡ 0) → faults self.new ≡ faults self.old) }
        ensures idle { IfOk result (λ n.
            n ≡ 0 → 0 < length bytes.now → Rose (faults self.old) (faults self.new)) }
        ensures cause { OnErr result (Rose (faults self.old) (faults self.new)) }
        ensures rises { faults self.old ≤ faults self.new };
}

/// Writes all the bytes, or fails after a part of them, which is never the whole.
pub fn write_all<S: Sink>(sink: &mut S, bytes: &[u8]) -> Result<(), Failed>
    ensures label { S.label sink.new ≡ S.label sink.old }
    ensures all { OnOk result (S.wrote sink.new ≡ appended (S.wrote sink.old) bytes.now) }
    ensures prefix { OnErr result (CutShort bytes.now (S.wrote sink.old) (S.wrote sink.new)) }

    ensures steady { OnOk result (S.faults sink.new ≡ S.faults sink.old) }
    ensures cause { OnErr result (Rose (S.faults sink.old) (S.faults sink.new)) }
    ensures rises { S.faults sink.old ≤ S.faults sink.new }
{
    let mut done = 0;
    while done < bytes.len() {
        let taken = sink.write(&bytes[done..])?;
        if taken == 0 {
            return Err(Failed);
        }
        done += taken;
    }
    Ok(())
}
