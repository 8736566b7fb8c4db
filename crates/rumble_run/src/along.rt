//! Queries that are run along their plan.

ghost use Rattle.std.specs.Prelude.{◌≡◌, ◌≤◌, Some, option_map, IfOk, IfSome, string_bytes};
ghost use Rattle.query_meaning.specs.Outcome.{Outcome};
ghost use Rattle.query_meaning.specs.inside.Views.{library_of};
ghost use Rattle.query_tree.specs.Compiled.{bound_trees};
ghost use Rattle.query_tree.specs.Spines.{spine};
ghost use Rattle.run_words.specs.Asked.{WorksWithin};
ghost use Rattle.rumble_run.specs.Answer.{of_outcome};
ghost use Rattle.rumble_run.specs.Opens.{along_search, most_spine};
ghost use Rattle.rumble_run.specs.inside.Along.{names_along, EndedFrom, PrintsAlong};
ghost use Rattle.rumble_run.specs.inside.Computed.{of_run};
ghost use Rattle.rumble_run.specs.inside.Decided.{SearchedBy};
ghost use Rattle.rumble_run.specs.inside.LeafCounts.{LeavesOfLeaf};
ghost use Rattle.rumble_run.specs.inside.Seen.{answer_of, decided_status, IsOfStatus, LeavesRun, executable_of};
ghost use Rattle.piece_run.specs.Kept.{KeptIs};
ghost use Rattle.rumble_run.specs.inside.Walked.{Prints};

use crate::command::Running;
use crate::ending::Ending;
use crate::inputs::read_inputs;
use crate::print::Printed;
use crate::spine::spine_fits;
use crate::status::Stop;
use crate::telling::{tells_error, writes_items};
use crate::walk::Walk;
use clause_eval::new_frame;
use expr_eval::eval_globals;
use item_tree::{NoMemory, Str};
use mode_planner::{drivers_stand_once, make_plan, names_beside_drivers};
use outside::{Gate, Inputs};
use piece_run::LeafFault;
use piece_seats::Text;
use query_meaning::{EvalFault, Library};
use query_tree::{BoundModule, Compiled};
use std::alloc::Global;
use std::sync::Wait;
use std::thread::Threads;

/// The depth with which the body begins.
const WHOLE_DEPTH: u32 = 1000;

/// How many parentheses, commas and `try`s may stand one in another on the spine.
const MOST_SPINE: u32 = 995;

/// The names beside the drivers of a query, where it can be run along its plan.
pub(crate) fn names_along(alloc: Global, query: &BoundModule) -> Result<Option<Vec<Str>>, NoMemory>
    ensures { IfOk result (λ o. option_map (λ v. v.items) o ≡ names_along (bound_trees query.now)) }
{
    let plan = make_plan(alloc, query, false)?;
    let once = drivers_stand_once(alloc, query, &plan)?;
    if !once || !spine_fits(&query.body, MOST_SPINE) {
        return Ok(None);
    }
    let names = names_beside_drivers(alloc, query, &plan)?;
    Ok(Some(names))
}

// What is printed of the body of a query, whose library has the inputs beside the drivers.
fn printed_along<R: Threads + Wait + Sync, I: Inputs, G: Gate>(
    rt: &R,
    alloc: Global,
    running: Running,
    query: &Compiled,
    library: &Library,
    inputs: &mut I,
    gate: &G,
) -> Result<Text, LeafFault>
    requires works { WorksWithin running.workers running.size }
    requires room { spine (bound_trees query.now.tree).body ≤ most_spine }
    ensures world { I.world inputs.new ≡ I.world inputs.old }
    ensures counts { LeavesOfLeaf result (I.counts inputs.old) (I.counts inputs.new) }
    ensures prints { IfSome (I.world inputs.old) (λ w. PrintsAlong running query.now.width
        (bound_trees query.now.tree) (library_of library.now) w result
        (I.counts inputs.old) (I.counts inputs.new)) }
{
    let globals = match eval_globals(alloc, query, library) {
        Ok(globals) => globals,
        Err(EvalFault::Raised(fault)) => return Err(LeafFault::Raised(fault)),
        Err(EvalFault::NoMemory) => return Err(LeafFault::NoMemory),
    };
    let Ok(frame) = new_frame(alloc, query.width()) else {
        return Err(LeafFault::NoMemory);
    };
    let walk = Walk {
        rt,
        gate,
        alloc,
        query,
        library,
        globals: globals.as_slice(),
        frame: frame.as_slice(),
        workers: running.workers,
        size: running.size,
    };
    walk.along(&query.module().body, WHOLE_DEPTH, inputs)
}

// What a query comes to of whose body this was printed.
fn of_printed(
    alloc: Global,
    stats: bool,
    text: &[u8],
    printed: Result<Text, LeafFault>,
) -> Result<Ending, Stop>
    ensures value { IfOk result (λ e. (outcome : Outcome) → KeptIs Prints printed outcome
        → answer_of e ≡ of_outcome stats text.now outcome) }
    ensures shape { IfOk result (λ e.
        IsOfStatus stats e.out.items (string_bytes e.err) e.status) }
    ensures ended { EndedFrom printed result }
{
    match printed {
        Ok(Text { bytes, items }) => Ok(writes_items(
            alloc,
            stats,
            Printed {
                items: items as usize,
                out: bytes,
            },
        )?),
        Err(LeafFault::Raised(fault)) => Ok(tells_error(alloc, text, &fault)?),
        Err(LeafFault::ReadFault) => Err(Stop::ReadFault),
        Err(LeafFault::NoMemory) => Err(Stop::NoMemory),
    }
}

/// What a query comes to that is run along its plan. These names are read whole, before anything is
/// evaluated.
pub(crate) fn of_planned<R: Threads + Wait + Sync, I: Inputs, G: Gate>(
    rt: &R,
    alloc: Global,
    running: Running,
    text: &[u8],
    query: &Compiled,
    names: &[Str],
    inputs: &mut I,
    gate: &G,
) -> Result<Ending, Stop>
    requires works { WorksWithin running.workers running.size }
    requires names { names_along (bound_trees query.now.tree) ≡ Some names.now }
    ensures world { I.world inputs.new ≡ I.world inputs.old }
    ensures value { IfOk result (λ e. IfSome (I.world inputs.old) (λ w.
        answer_of e ≡ of_run running.stats text.now w (executable_of query.now))) }
    ensures shape { IfOk result (λ e.
        IsOfStatus running.stats e.out.items (string_bytes e.err) e.status) }
    ensures counts { LeavesRun result (I.counts inputs.old) (I.counts inputs.new) }
    ensures searched { IfSome (I.world inputs.old) (λ w. SearchedBy
        (along_search running w (bound_trees query.now.tree)) (decided_status result)
        (I.counts inputs.old) (I.counts inputs.new)) }
{
    meaning_laws::laws::libraries_agree();
    meaning_laws::laws::plans_read_beside();
    meaning_laws::laws::queries_read_names();
    let library = read_inputs(alloc, inputs, names)?;
    let printed = printed_along(rt, alloc, running, query, &library, inputs, gate);
    of_printed(alloc, running.stats, text, printed)
}
