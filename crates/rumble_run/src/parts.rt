//! Runs whose result is written as numbered parts.

ghost use Rattle.std.specs.Prelude.{◌≡◌, ◌≢◌, ◌≤◌, ◌+◌, All, None, length, IfOk, IfSome, IsErrOf, string_bytes};
ghost use Rattle.part_list.specs.Lists.{list_of};
ghost use Rattle.part_writer.specs.Parts.{parts_from, parts_of, IsRangeOf};
ghost use Rattle.rumble_run.specs.Ends.{err_by, Wrote, OpensBy};
ghost use Rattle.rumble_run.specs.Headline.{RunsParts, looked, told};
ghost use Rattle.rumble_run.specs.Opens.{OfSearch};
ghost use Rattle.rumble_run.specs.Parts.{parts_task, parts_count, parts_usage, run_of_parts, written, PartsBy};
ghost use Rattle.rumble_run.specs.inside.Parted.{IsPartsShaped, IsToldParts, IsWriting, PartsEnd, parted_status};
ghost use Rattle.run_words.specs.Asked.{WorksWithin};
ghost use Rattle.rumble_run.specs.inside.Decided.{SearchedBy};
ghost use Rattle.rumble_run.specs.inside.Reads.{Leaves};
ghost use Rattle.rumble_run.specs.inside.Seen.{answer_of, IsSilent};

use crate::command::{Action, Running};
use crate::decide::of_file;
use crate::ending::Ending;
use crate::finish::{stopped, tell, text_by};
use crate::status::{Status, Stop};
use crate::telling::tells_parts_usage;
use item_tree::{NoMemory, Str};
use outside::{CreateFault, Gate, Inputs, Outputs, Sink, write_all};
use part_list::list_parts;
use part_writer::{split_lines, write_parts};
use run_words::{PartsTask, WordFault, read_parts};
use std::alloc::Global;
use std::sync::Wait;
use std::thread::Threads;

/// What a run comes to, with how many parts its output is written as.
#[derive(Debug, Drop)]
pub(crate) struct Parted {
    pub ending: Ending,
    pub count: u32,
}

// What the words ask for.
fn task_asked(alloc: Global, words: &[Str]) -> Result<Option<PartsTask>, NoMemory>
    ensures task { IfOk result (λ task. task ≡ parts_task words.now) }
    ensures some { IfOk result (λ task. IfSome task (λ t. 1 ≤ t.count)) }
    ensures most { IfOk result (λ task. IfSome task (λ t. t.count ≤ 1000)) }
    ensures works { IfOk result (λ task. IfSome task (λ t. WorksWithin t.workers t.size)) }
{
    match read_parts(alloc, words) {
        Ok(task) => Ok(Some(task)),
        Err(WordFault::Usage) => Ok(None),
        Err(WordFault::NoMemory) => Err(NoMemory),
    }
}

/// What the words come to. All of it is made in memory before anything is written.
pub(crate) fn decide_parts<R: Threads + Wait + Sync, I: Inputs, G: Gate>(
    rt: &R,
    alloc: Global,
    words: &[Str],
    inputs: &mut I,
    gate: &G,
) -> Result<Parted, Stop>
    ensures world { I.world inputs.new ≡ I.world inputs.old }
    ensures value { IfOk result
        (λ p. IsToldParts (I.world inputs.old) words.now (answer_of p.ending)) }
    ensures count { IfOk result (λ p. p.count ≡ parts_count (parts_task words.now)) }
    ensures some { IfOk result (λ p. 1 ≤ p.count) }
    ensures most { IfOk result (λ p. p.count ≤ 1000) }
    ensures shape { IfOk result (λ p.
        IsPartsShaped (parts_task words.now) (answer_of p.ending)) }
    ensures unread { IsErrOf result Stop.ReadFault → parts_task words.now ≢ None }
    ensures usage { parts_task words.now ≡ None →
        IfOk result (λ p. answer_of p.ending ≡ parts_usage) }
    ensures counts { Leaves result (I.counts inputs.old) (I.counts inputs.new) }
    ensures opens { OpensBy (run_of_parts (parts_task words.now)) (parted_status result)
        (I.counts inputs.old) (I.counts inputs.new) }
    ensures searched { OfSearch (I.world inputs.old) (run_of_parts (parts_task words.now))
        (λ search. SearchedBy search (parted_status result) (I.counts inputs.old)
        (I.counts inputs.new)) }
{
    match task_asked(alloc, words)? {
        None => {
            let ending = tells_parts_usage(alloc)?;
            Ok(Parted { ending, count: 1 })
        }
        Some(task) => {
            let action = Action::Run(Running {
                stats: false,
                workers: task.workers,
                size: task.size,
                local: false,
            });
            match of_file(rt, alloc, action, &task.query, inputs, gate) {
                Ok(ending) => Ok(Parted {
                    ending,
                    count: task.count,
                }),
                Err(stop) => Err(stop),
            }
        }
    }
}

// Writes the parts, and then the list of them, without taking memory but for the outputs.
fn write_listed<P: Outputs, O: Sink>(
    text: &[u8],
    ranges: &[(usize, usize)],
    list: &[u8],
    outputs: &mut P,
    out: &mut O,
) -> Status
    requires few { length ranges.now ≤ 1000 }
    requires within { All (IsRangeOf text.now) ranges.now }
    requires list { list.now ≡ list_of (parts_from 0 text.now ranges.now) }
    ensures parts { PartsBy (parts_from 0 text.now ranges.now) result
        (written (P.made outputs.old) (P.faults outputs.old) (O.wrote out.old) (O.faults out.old))
        (written (P.made outputs.new) (P.faults outputs.new) (O.wrote out.new) (O.faults out.new)) }
    ensures writing { IsWriting result }
    ensures balanced { P.created outputs.new + P.finished outputs.old
        ≡ P.created outputs.old + P.finished outputs.new }
{
    match write_parts(text, ranges, outputs) {
        Err(CreateFault::Failed) => Status::WriteFault,
        Err(CreateFault::NoMemory) => Status::NoMemory,
        Ok(()) => match write_all(out, list) {
            Ok(()) => Status::Done,
            Err(_) => Status::WriteFault,
        },
    }
}

// Where the parts of an output stand, and the list of them.
fn cut_and_list(
    alloc: Global,
    text: &[u8],
    count: u32,
) -> Result<(Vec<(usize, usize)>, Vec<u8>), NoMemory>
    requires some { 1 ≤ count }
    requires most { count ≤ 1000 }
    ensures few { IfOk result (λ r. length r.0.items ≤ 1000) }
    ensures within { IfOk result (λ r. All (IsRangeOf text.now) r.0.items) }
    ensures parts { IfOk result (λ r. parts_from 0 text.now r.0.items ≡ parts_of count text.now) }
    ensures list { IfOk result (λ r. r.1.items ≡ list_of (parts_from 0 text.now r.0.items)) }
{
    let ranges = split_lines(alloc, text, count)?;
    let list = list_parts(alloc, text, &ranges)?;
    Ok((ranges, list))
}

// Writes an output as parts.
fn write_output<P: Outputs, O: Sink>(
    alloc: Global,
    text: &[u8],
    count: u32,
    outputs: &mut P,
    out: &mut O,
) -> Status
    requires some { 1 ≤ count }
    requires most { count ≤ 1000 }
    ensures parts { PartsBy (parts_of count text.now) result
        (written (P.made outputs.old) (P.faults outputs.old) (O.wrote out.old) (O.faults out.old))
        (written (P.made outputs.new) (P.faults outputs.new) (O.wrote out.new) (O.faults out.new)) }
    ensures writing { IsWriting result }
    ensures balanced { P.created outputs.new + P.finished outputs.old
        ≡ P.created outputs.old + P.finished outputs.new }
{
    match cut_and_list(alloc, text, count) {
        Ok((ranges, list)) => write_listed(text, &ranges, &list, outputs, out),
        Err(NoMemory) => Status::NoMemory,
    }
}

/// Writes what was decided, and answers the status that it comes to.
pub(crate) fn finish_parts<P: Outputs, O: Sink, E: Sink>(
    alloc: Global,
    parted: &Parted,
    outputs: &mut P,
    out: &mut O,
    err: &mut E,
) -> Status
    requires some { 1 ≤ parted.now.count }
    requires most { parted.now.count ≤ 1000 }
    requires silent { IsSilent parted.now.ending.out.items parted.now.ending.status }
    ensures status { PartsEnd parted.now.ending.status result }
    ensures parts { PartsBy (parts_of parted.now.count parted.now.ending.out.items) result
        (written (P.made outputs.old) (P.faults outputs.old) (O.wrote out.old) (O.faults out.old))
        (written (P.made outputs.new) (P.faults outputs.new) (O.wrote out.new) (O.faults out.new)) }
    ensures text { Wrote (err_by (string_bytes parted.now.ending.err) result) (E.wrote err.old)
        (E.wrote err.new) (E.faults err.old) (E.faults err.new) }
    ensures balanced { P.created outputs.new + P.finished outputs.old
        ≡ P.created outputs.old + P.finished outputs.new }
{
    let status = match parted.ending.status {
        Status::Done => write_output(alloc, &parted.ending.out, parted.count, outputs, out),
        status => status,
    };
    tell(err, text_by(parted.ending.err.as_str(), status));
    status
}

/// Does what words ask whose first is `parts`.
pub(crate) fn run_parts<R: Threads + Wait + Sync, I: Inputs, P: Outputs, O: Sink, E: Sink, G: Gate>(
    rt: &R,
    alloc: Global,
    words: &[Str],
    inputs: &mut I,
    outputs: &mut P,
    out: &mut O,
    err: &mut E,
    gate: &G,
) -> Status
    ensures parts { RunsParts words.now result
        (looked (I.world inputs.old) (I.counts inputs.old))
        (looked (I.world inputs.new) (I.counts inputs.new))
        (written (P.made outputs.old) (P.faults outputs.old) (O.wrote out.old) (O.faults out.old))
        (written (P.made outputs.new) (P.faults outputs.new) (O.wrote out.new) (O.faults out.new))
        (told (E.wrote err.old) (E.faults err.old)) (told (E.wrote err.new) (E.faults err.new)) }
    ensures balanced { P.created outputs.new + P.finished outputs.old
        ≡ P.created outputs.old + P.finished outputs.new }
{
    match decide_parts(rt, alloc, words, inputs, gate) {
        Ok(parted) => finish_parts(alloc, &parted, outputs, out, err),
        Err(stop) => stopped(stop, err),
    }
}
