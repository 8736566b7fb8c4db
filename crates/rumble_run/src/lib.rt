//! The program as one call: the words of a command line and the objects that it may touch go in,
//! and a status comes out.
#![tactic(auto)]

ghost use Rattle.std.specs.Prelude.{◌≡◌, ◌≢◌, ◌≤◌, ◌<◌, ◌+◌, ◌⊎◌, ℕ, List, None, false, length, map};
ghost use Rattle.std.specs.Str.{encode_utf8_all};
ghost use Rattle.outside.specs.Counted.{Rose};
ghost use Rattle.rumble_run.specs.Answer.{OfAnswer};
ghost use Rattle.rumble_run.specs.Commands.{command_of};
ghost use Rattle.rumble_run.specs.Ends.{StatusBy, OutBy, err_by, HasText, Wrote, Calm, Completes, FaultsRose, MissesRose, OpensBy, OpenedBy, MissedBy, ChecksAlone, IsBalanced, NoCountFalls};
ghost use Rattle.run_words.specs.PartsAsked.{begins_parts};
ghost use Rattle.rumble_run.specs.Headline.{RunsAsRumble, RunsParts, looked, told};
ghost use Rattle.rumble_run.specs.Parts.{AsksParts, written};
ghost use Rattle.rumble_run.specs.Opens.{OfSearch};

mod along;
mod command;
mod decide;
mod driving;
mod ending;
mod finish;
mod folding;
mod front;
mod inputs;
mod items;
pub mod laws;
mod local;
mod lone_input;
mod mark;
mod parts;
mod preparing;
mod print;
mod read;
mod spine;
mod status;
mod telling;
mod trial;
mod walk;
mod walking;

use crate::finish::finish;
use crate::parts::run_parts;
use crate::preparing::prepared;
use item_tree::Str;
use outside::{Gate, Inputs, Outputs, Sink};
pub use preparing::prepare;
use run_words::begins_parts;
pub use status::Status;
use std::alloc::Global;
use std::sync::Wait;
use std::thread::Threads;

/// Does what the words ask, and answers how it ended.
///
/// The words do not include the program's own name. The result is written to `out`, whole or, where
/// a write fails, a part of it; what there is to tell is written to `err`. The answer is that of
/// the definition, whatever the sizes of reads and writes.
pub fn rumble<R: Threads + Wait + Sync, I: Inputs, O: Sink, E: Sink, G: Gate>(
    rt: &R,
    alloc: Global,
    words: &[Str],
    inputs: &mut I,
    out: &mut O,
    err: &mut E,
    gate: &G,
) -> Status
    // Over inputs that tell their bytes, and for a trial over all, the run ends with the
    // definition's answer.
    ensures status { OfAnswer (I.world inputs.old) words.now (λ answer. StatusBy answer result) }
    ensures output { OfAnswer (I.world inputs.old) words.now (λ answer.
        OutBy answer.out result (O.wrote out.old) (O.wrote out.new)) }
    ensures text { OfAnswer (I.world inputs.old) words.now (λ answer.
        Wrote (err_by answer.err result) (E.wrote err.old) (E.wrote err.new)
        (E.faults err.old) (E.faults err.new)) }
    ensures completes { Calm (I.counts inputs.old).faults (I.counts inputs.new).faults
        → Calm (O.faults out.old) (O.faults out.new)
        → OfAnswer (I.world inputs.old) words.now (λ answer. Completes answer result) }

    // Over any others, what is written has the status's form.
    ensures untold_output { (bytes : List ℕ)
        × OutBy bytes result (O.wrote out.old) (O.wrote out.new) }
    ensures untold_text { (text : List ℕ) × HasText (command_of words.now) text result
        × Wrote text (E.wrote err.old) (E.wrote err.new) (E.faults err.old) (E.faults err.new) }

    // When each fault is answered.
    ensures usage { result ≡ Status.Usage → command_of words.now ≡ None }
    ensures only_usage { command_of words.now ≡ None →
        (result ≡ Status.Usage) ⊎ (result ≡ Status.NoMemory) }
    ensures no_query { result ≡ Status.NoQuery →
        MissesRose (I.counts inputs.old) (I.counts inputs.new) }
    ensures read_fault { result ≡ Status.ReadFault →
        FaultsRose (I.counts inputs.old) (I.counts inputs.new) }
    ensures read_first { (I.counts inputs.old).faults < (I.counts inputs.new).faults →
        (result ≡ Status.ReadFault) ⊎ (result ≡ Status.NoMemory) }
    ensures write_fault { result ≡ Status.WriteFault → Rose (O.faults out.old) (O.faults out.new) }
    ensures out_calm { result ≢ Status.WriteFault → O.faults out.new ≡ O.faults out.old }

    // How many files were opened, how many were missing, and that each that was opened was closed:
    // over inputs that tell their bytes the query's, once; of the inputs of its calls of
    // `json-lines` each different one once that no driver reads, and those of a driver once for
    // each set of them that its workers share. With `--mode local` no call is a driver.
    ensures opened { OfSearch (I.world inputs.old) (command_of words.now) (λ search.
        OpenedBy search result (I.counts inputs.old) (I.counts inputs.new)) }
    ensures missed { OfSearch (I.world inputs.old) (command_of words.now) (λ search.
        MissedBy search result (I.counts inputs.old) (I.counts inputs.new)) }
    ensures opens { OpensBy (command_of words.now) result (I.counts inputs.old)
        (I.counts inputs.new) }
    ensures alone { ChecksAlone (command_of words.now) result (I.counts inputs.old)
        (I.counts inputs.new) }
    ensures closed { IsBalanced (I.counts inputs.old) (I.counts inputs.new) }
    ensures rises { NoCountFalls (I.counts inputs.old) (I.counts inputs.new) }
    ensures world { I.world inputs.new ≡ I.world inputs.old }
{
    match prepared(rt, alloc, words, inputs, err, gate) {
        Ok(ending) => finish(&ending, out, err),
        Err(status) => status,
    }
}

/// Does what the words ask, and answers how it ended. Where the first word is `parts`, the result of
/// a query is written to numbered outputs, each of whole lines, and then the list of them to `out`.
/// All other words are done as `rumble` does them.
pub fn rumble_parts<R: Threads + Wait + Sync, I: Inputs, P: Outputs, O: Sink, E: Sink, G: Gate>(
    rt: &R,
    alloc: Global,
    words: &[Str],
    inputs: &mut I,
    outputs: &mut P,
    out: &mut O,
    err: &mut E,
    gate: &G,
) -> Status
    // Words of any other command: all clauses of `rumble`, and no part is made.
    ensures others { begins_parts (map encode_utf8_all words.now) ≡ false →
        RunsAsRumble words.now result
        (looked (I.world inputs.old) (I.counts inputs.old))
        (looked (I.world inputs.new) (I.counts inputs.new))
        (told (O.wrote out.old) (O.faults out.old)) (told (O.wrote out.new) (O.faults out.new))
        (told (E.wrote err.old) (E.faults err.old)) (told (E.wrote err.new) (E.faults err.new)) }
    ensures unmade { begins_parts (map encode_utf8_all words.now) ≡ false →
        outputs.new ≡ outputs.old }

    // A run with parts: the answer is that of the run, and its output stands in the parts.
    ensures parts { AsksParts words.now → RunsParts words.now result
        (looked (I.world inputs.old) (I.counts inputs.old))
        (looked (I.world inputs.new) (I.counts inputs.new))
        (written (P.made outputs.old) (P.faults outputs.old) (O.wrote out.old) (O.faults out.old))
        (written (P.made outputs.new) (P.faults outputs.new) (O.wrote out.new) (O.faults out.new))
        (told (E.wrote err.old) (E.faults err.old)) (told (E.wrote err.new) (E.faults err.new)) }
    ensures balanced { P.created outputs.new + P.finished outputs.old
        ≡ P.created outputs.old + P.finished outputs.new }
{
    if begins_parts(words) {
        run_parts(rt, alloc, words, inputs, outputs, out, err, gate)
    } else {
        rumble(rt, alloc, words, inputs, out, err, gate)
    }
}
