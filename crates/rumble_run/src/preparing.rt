//! The output of a command line, before any of it is written.

ghost use Rattle.std.specs.Prelude.{◌≡◌, ◌≢◌, ◌<◌, ◌⊎◌, ℕ, List, None, length, IfOk, IfErr, OnOk, string_bytes};
ghost use Rattle.rumble_run.specs.Answer.{OfAnswer, usage};
ghost use Rattle.rumble_run.specs.Commands.{command_of};
ghost use Rattle.rumble_run.specs.Ends.{StatusBy, err_by, HasText, Wrote, Calm, Completes, FaultsRose, MissesRose, OpensBy, OpenedBy, MissedBy, ChecksAlone, IsBalanced, NoCountFalls};
ghost use Rattle.rumble_run.specs.Opens.{OfSearch};
ghost use Rattle.rumble_run.specs.Prepared.{status_of};
ghost use Rattle.rumble_run.specs.inside.Decided.{ended, IsStop, FaultsBy, SearchedBy};
ghost use Rattle.rumble_run.specs.inside.Seen.{answer_of, IsShaped, IsToldAnswer};

use crate::decide::decide;
use crate::ending::Ending;
use crate::finish::{stopped, tell};
use crate::status::Status;
use item_tree::Str;
use outside::{Gate, Inputs, Sink};
use std::alloc::Global;
use std::sync::Wait;
use std::thread::Threads;

/// What the words come to, decided before anything is written; or, where that stopped, the status
/// of the stop, with its text on `err`.
pub(crate) fn prepared<R: Threads + Wait + Sync, I: Inputs, E: Sink, G: Gate>(
    rt: &R,
    alloc: Global,
    words: &[Str],
    inputs: &mut I,
    err: &mut E,
    gate: &G,
) -> Result<Ending, Status>
    ensures world { I.world inputs.new ≡ I.world inputs.old }
    ensures value { IfOk result
        (λ e. IsToldAnswer (I.world inputs.old) words.now (answer_of e)) }
    ensures shape { IfOk result (λ e. IsShaped (command_of words.now) (answer_of e)) }
    ensures usage { command_of words.now ≡ None → IfOk result (λ e. answer_of e ≡ usage) }
    ensures only { command_of words.now ≡ None → IfErr result (λ s. s ≡ Status.NoMemory) }
    ensures stop { IfErr result IsStop }
    ensures told { IfErr result (λ s. (text : List ℕ) → Wrote (err_by text s) (E.wrote err.old)
        (E.wrote err.new) (E.faults err.old) (E.faults err.new)) }
    ensures untold { OnOk result ((E.wrote err.new ≡ E.wrote err.old)
        × (E.faults err.new ≡ E.faults err.old)) }
    ensures cause { FaultsBy result (I.counts inputs.old).faults (I.counts inputs.new).faults }
    ensures opens { OpensBy (command_of words.now) (ended result) (I.counts inputs.old)
        (I.counts inputs.new) }
    ensures alone { ChecksAlone (command_of words.now) (ended result) (I.counts inputs.old)
        (I.counts inputs.new) }
    ensures searched { OfSearch (I.world inputs.old) (command_of words.now) (λ search.
        SearchedBy search (ended result) (I.counts inputs.old) (I.counts inputs.new)) }
    ensures closed { IsBalanced (I.counts inputs.old) (I.counts inputs.new) }
    ensures rises { NoCountFalls (I.counts inputs.old) (I.counts inputs.new) }
{
    match decide(rt, alloc, words, inputs, gate) {
        Ok(ending) => Ok(ending),
        Err(stop) => Err(stopped(stop, err)),
    }
}

// Hands out the output of an ending that is done, and tells any other.
fn settle<E: Sink>(ending: Ending, err: &mut E) -> Result<Vec<u8>, Status>
    ensures done { IfOk result (λ out. (ending.status ≡ Status.Done)
        × (out.items ≡ ending.out.items)) }
    ensures other { IfErr result (λ status. (status ≡ ending.status) × (status ≢ Status.Done)) }
    ensures untold { OnOk result ((E.wrote err.new ≡ E.wrote err.old)
        × (E.faults err.new ≡ E.faults err.old)) }
    ensures told { IfErr result (λ status. Wrote (string_bytes ending.err) (E.wrote err.old)
        (E.wrote err.new) (E.faults err.old) (E.faults err.new)) }
{
    let Ending {
        status,
        out,
        err: text,
    } = ending;
    if status == Status::Done {
        return Ok(out);
    }
    tell(err, text.as_str());
    Err(status)
}

/// Does what the words ask but for writing the result, which is the answer. Where there is none the
/// status is, with its text on `err`.
pub fn prepare<R: Threads + Wait + Sync, I: Inputs, E: Sink, G: Gate>(
    rt: &R,
    alloc: Global,
    words: &[Str],
    inputs: &mut I,
    err: &mut E,
    gate: &G,
) -> Result<Vec<u8>, Status>
    ensures status { OfAnswer (I.world inputs.old) words.now (λ answer.
        StatusBy answer (status_of result)) }
    ensures output { OfAnswer (I.world inputs.old) words.now (λ answer.
        IfOk result (λ out. out.items ≡ answer.out)) }
    ensures text { OfAnswer (I.world inputs.old) words.now (λ answer. IfErr result (λ status.
        Wrote (err_by answer.err status) (E.wrote err.old) (E.wrote err.new)
        (E.faults err.old) (E.faults err.new))) }
    ensures completes { Calm (I.counts inputs.old).faults (I.counts inputs.new).faults
        → OfAnswer (I.world inputs.old) words.now (λ answer.
        Completes answer (status_of result)) }
    ensures untold { OnOk result ((E.wrote err.new ≡ E.wrote err.old)
        × (E.faults err.new ≡ E.faults err.old)) }
    ensures untold_text { IfErr result (λ status. (text : List ℕ)
        × HasText (command_of words.now) text status
        × Wrote text (E.wrote err.old) (E.wrote err.new) (E.faults err.old) (E.faults err.new)) }

    ensures never { IfErr result (λ status. (status ≢ Status.Done)
        × (status ≢ Status.WriteFault)) }
    ensures usage { status_of result ≡ Status.Usage → command_of words.now ≡ None }
    ensures only_usage { command_of words.now ≡ None →
        (status_of result ≡ Status.Usage) ⊎ (status_of result ≡ Status.NoMemory) }
    ensures no_query { status_of result ≡ Status.NoQuery →
        MissesRose (I.counts inputs.old) (I.counts inputs.new) }
    ensures read_fault { status_of result ≡ Status.ReadFault →
        FaultsRose (I.counts inputs.old) (I.counts inputs.new) }
    ensures read_first { (I.counts inputs.old).faults < (I.counts inputs.new).faults →
        (status_of result ≡ Status.ReadFault) ⊎ (status_of result ≡ Status.NoMemory) }

    ensures opened { OfSearch (I.world inputs.old) (command_of words.now) (λ search.
        OpenedBy search (status_of result) (I.counts inputs.old)
        (I.counts inputs.new)) }
    ensures missed { OfSearch (I.world inputs.old) (command_of words.now) (λ search.
        MissedBy search (status_of result) (I.counts inputs.old)
        (I.counts inputs.new)) }
    ensures opens { OpensBy (command_of words.now) (status_of result) (I.counts inputs.old)
        (I.counts inputs.new) }
    ensures alone { ChecksAlone (command_of words.now) (status_of result) (I.counts inputs.old)
        (I.counts inputs.new) }
    ensures closed { IsBalanced (I.counts inputs.old) (I.counts inputs.new) }
    ensures rises { NoCountFalls (I.counts inputs.old) (I.counts inputs.new) }
    ensures world { I.world inputs.new ≡ I.world inputs.old }
{
    match prepared(rt, alloc, words, inputs, err, gate) {
        Ok(ending) => settle(ending, err),
        Err(status) => Err(status),
    }
}
