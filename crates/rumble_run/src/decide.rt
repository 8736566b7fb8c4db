//! What a command line evaluates to, before anything is written.

ghost use Rattle.std.specs.Prelude.{◌≡◌, ◌≢◌, None, Some, Ok, IfOk, IfErr, IfSome, string_bytes, IsErrOf};
ghost use Rattle.query_tree.specs.Compiled.{bound_trees};
ghost use Rattle.outside.specs.World.{file_of};
ghost use Rattle.run_words.specs.Asked.{WorksWithin};
ghost use Rattle.rumble_run.specs.Answer.{IsOfFile, IsOfQuery, IsOfTrial, usage};
ghost use Rattle.rumble_run.specs.Commands.{command_of, stats_of, ReadsNone, ActionWithin};
ghost use Rattle.rumble_run.specs.Ends.{OpensBy, OpensByStatus, ChecksAlone};
ghost use Rattle.rumble_run.specs.Front.{Front, IsFront};
ghost use Rattle.rumble_run.specs.Opens.{Search, run_search, inputs_search, SearchOfFile, OfSearch};
ghost use Rattle.rumble_run.specs.inside.Computed.{of_run, of_executable};
ghost use Rattle.rumble_run.specs.inside.Decided.{SearchedBy};
ghost use Rattle.rumble_run.specs.inside.Reads.{Leaves};
ghost use Rattle.rumble_run.specs.inside.Seen.{answer_of, decided_status, IsShaped, IsToldAnswer, IsOfStatus, LeavesRun, executable_of};

use crate::along::{names_along, of_planned};
use crate::command::{Action, Command, Running, command_of};
use crate::ending::Ending;
use crate::front::{FrontFault, front};
use crate::local::of_local;
use crate::mark::without_mark;
use crate::read::read_named;
use crate::status::Stop;
use crate::telling::{accepts, explains, tells_no_query, tells_refusal, tells_usage};
use crate::trial::{trial_inputs, trial_query};
use item_tree::Str;
use outside::{Gate, Inputs};
use query_tree::{Compiled, discard};
use std::alloc::Global;
use std::sync::Wait;
use std::thread::Threads;

// What a query comes to that is run over its inputs.
fn of_run<R: Threads + Wait + Sync, I: Inputs, G: Gate>(
    rt: &R,
    alloc: Global,
    running: Running,
    text: &[u8],
    query: &Compiled,
    inputs: &mut I,
    gate: &G,
) -> Result<Ending, Stop>
    requires works { WorksWithin running.workers running.size }
    ensures world { I.world inputs.new ≡ I.world inputs.old }
    ensures value { IfOk result (λ e. IfSome (I.world inputs.old) (λ w.
        answer_of e ≡ of_run running.stats text.now w (executable_of query.now))) }
    ensures shape { IfOk result (λ e.
        IsOfStatus running.stats e.out.items (string_bytes e.err) e.status) }
    ensures counts { LeavesRun result (I.counts inputs.old) (I.counts inputs.new) }
    ensures searched { IfSome (I.world inputs.old) (λ w. SearchedBy
        (run_search running w (bound_trees query.now.tree)) (decided_status result)
        (I.counts inputs.old) (I.counts inputs.new)) }
{
    if running.local {
        return of_local(alloc, running.stats, text, query, inputs);
    }
    match names_along(alloc, query.module())? {
        Some(names) => of_planned(rt, alloc, running, text, query, &names, inputs, gate),
        None => of_local(alloc, running.stats, text, query, inputs),
    }
}

// What a compiled query comes to: the action is done.
fn of_executable<R: Threads + Wait + Sync, I: Inputs, G: Gate>(
    rt: &R,
    alloc: Global,
    action: Action,
    text: &[u8],
    query: &Compiled,
    inputs: &mut I,
    gate: &G,
) -> Result<Ending, Stop>
    requires within { ActionWithin action }
    ensures world { I.world inputs.new ≡ I.world inputs.old }
    ensures value { IfOk result (λ e. IfSome (I.world inputs.old) (λ w.
        answer_of e ≡ of_executable action text.now w (executable_of query.now))) }
    ensures shape { IfOk result (λ e.
        IsOfStatus (stats_of action) e.out.items (string_bytes e.err) e.status) }
    ensures counts { LeavesRun result (I.counts inputs.old) (I.counts inputs.new) }
    ensures searched { IfSome (I.world inputs.old) (λ w. SearchedBy
        (inputs_search action w (Ok (executable_of query.now))) (decided_status result)
        (I.counts inputs.old) (I.counts inputs.new)) }
    ensures alone { ReadsNone action → I.counts inputs.new ≡ I.counts inputs.old }
{
    match action {
        Action::Run(running) => of_run(rt, alloc, running, text, query, inputs, gate),
        Action::Check => Ok(accepts(alloc)?),
        Action::Explain => Ok(explains(alloc, text, query)?),
    }
}

// What a query of these bytes comes to.
fn of_query<R: Threads + Wait + Sync, I: Inputs, G: Gate>(
    rt: &R,
    alloc: Global,
    action: Action,
    query: &[u8],
    inputs: &mut I,
    gate: &G,
) -> Result<Ending, Stop>
    requires within { ActionWithin action }
    ensures world { I.world inputs.new ≡ I.world inputs.old }
    ensures value { IfOk result
        (λ e. IfSome (I.world inputs.old) (λ w. IsOfQuery action w query.now (answer_of e))) }
    ensures shape { IfOk result (λ e.
        IsOfStatus (stats_of action) e.out.items (string_bytes e.err) e.status) }
    ensures counts { LeavesRun result (I.counts inputs.old) (I.counts inputs.new) }
    ensures searched { IfSome (I.world inputs.old) (λ w. (front : Front)
        → IsFront query.now front → SearchedBy (inputs_search action w front)
        (decided_status result) (I.counts inputs.old) (I.counts inputs.new)) }
    ensures alone { ReadsNone action → I.counts inputs.new ≡ I.counts inputs.old }
{
    let text = without_mark(query);
    match front(alloc, query) {
        Ok(compiled) => {
            let ending = of_executable(rt, alloc, action, text, &compiled, inputs, gate);
            discard(compiled);
            ending
        }
        Err(FrontFault::Refused(fault)) => Ok(tells_refusal(alloc, text, &fault)?),
        Err(FrontFault::NoMemory) => Err(Stop::NoMemory),
    }
}

/// What the query of this name comes to.
pub(crate) fn of_file<R: Threads + Wait + Sync, I: Inputs, G: Gate>(
    rt: &R,
    alloc: Global,
    action: Action,
    name: &Str,
    inputs: &mut I,
    gate: &G,
) -> Result<Ending, Stop>
    requires within { ActionWithin action }
    ensures world { I.world inputs.new ≡ I.world inputs.old }
    ensures value { IfOk result (λ e. IfSome (I.world inputs.old) (λ w.
        IsOfFile action name.now w (file_of w name.now) (answer_of e))) }
    ensures shape { IfOk result (λ e.
        IsShaped (Some (Command.Query action name.now)) (answer_of e)) }
    ensures counts { Leaves result (I.counts inputs.old) (I.counts inputs.new) }
    ensures opens { IfOk result (λ e.
        OpensByStatus e.status (I.counts inputs.old) (I.counts inputs.new)) }
    ensures searched { IfSome (I.world inputs.old) (λ w. (search : Search)
        → SearchOfFile action name.now w (file_of w name.now) search
        → SearchedBy search (decided_status result) (I.counts inputs.old)
        (I.counts inputs.new)) }
    ensures alone { ChecksAlone (Some (Command.Query action name.now)) (decided_status result)
        (I.counts inputs.old) (I.counts inputs.new) }
{
    match read_named(alloc, inputs, name.as_str()) {
        Err(stop) => Err(stop),
        Ok(None) => Ok(tells_no_query(alloc, name)?),
        Ok(Some(query)) => of_query(rt, alloc, action, &query, inputs, gate),
    }
}

// What a trial comes to. Its lines stand in memory, so reading them never fails.
fn of_trial<R: Threads + Wait + Sync, G: Gate>(
    rt: &R,
    alloc: Global,
    number: u32,
    lines: u32,
    running: Running,
    gate: &G,
) -> Result<Ending, Stop>
    requires works { WorksWithin running.workers running.size }
    ensures value { IfOk result (λ e. IsOfTrial number lines running (answer_of e)) }
    ensures shape { IfOk result (λ e.
        IsShaped (Some (Command.Trial number lines running)) (answer_of e)) }
    ensures calm { IfErr result (λ stop. stop ≡ Stop.NoMemory) }
{
    let mut inputs = trial_inputs(alloc, number, lines)?;
    of_query(
        rt,
        alloc,
        Action::Run(running),
        trial_query(),
        &mut inputs,
        gate,
    )
}

/// What a command line comes to. All of it is made in memory before anything is written.
pub(crate) fn decide<R: Threads + Wait + Sync, I: Inputs, G: Gate>(
    rt: &R,
    alloc: Global,
    words: &[Str],
    inputs: &mut I,
    gate: &G,
) -> Result<Ending, Stop>
    ensures world { I.world inputs.new ≡ I.world inputs.old }
    ensures value { IfOk result
        (λ e. IsToldAnswer (I.world inputs.old) words.now (answer_of e)) }
    ensures shape { IfOk result (λ e. IsShaped (command_of words.now) (answer_of e)) }
    ensures unread { IsErrOf result Stop.ReadFault → command_of words.now ≢ None }
    ensures usage { command_of words.now ≡ None → IfOk result (λ e. answer_of e ≡ usage) }
    ensures counts { Leaves result (I.counts inputs.old) (I.counts inputs.new) }
    ensures opens { OpensBy (command_of words.now) (decided_status result)
        (I.counts inputs.old) (I.counts inputs.new) }
    ensures searched { OfSearch (I.world inputs.old) (command_of words.now) (λ search.
        SearchedBy search (decided_status result) (I.counts inputs.old) (I.counts inputs.new)) }
    ensures alone { ChecksAlone (command_of words.now) (decided_status result)
        (I.counts inputs.old) (I.counts inputs.new) }
{
    match command_of(alloc, words)? {
        None => Ok(tells_usage(alloc)?),
        Some(Command::Query { action, name }) => of_file(rt, alloc, action, &name, inputs, gate),
        Some(
            Command::Trial {
                number,
                lines,
                running,
            },
        ) => of_trial(rt, alloc, number, lines, running, gate),
    }
}
