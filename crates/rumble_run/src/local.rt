//! Queries that are evaluated in one place.

ghost use Rattle.std.specs.Prelude.{◌≡◌, IfOk, IfErr, IfSome, string_bytes};
ghost use Rattle.query_meaning.specs.Outcome.{Outcome};
ghost use Rattle.query_meaning.specs.Queries.{query_value};
ghost use Rattle.query_meaning.specs.inside.Gives.{Gives};
ghost use Rattle.query_meaning.specs.inside.Views.{library_of, values_of};
ghost use Rattle.query_tree.specs.Compiled.{bound_trees};
ghost use Rattle.query_tree.specs.Inputs.{input_names};
ghost use Rattle.rumble_run.specs.Answer.{of_outcome};
ghost use Rattle.rumble_run.specs.Opens.{search_among};
ghost use Rattle.rumble_run.specs.inside.Computed.{of_run};
ghost use Rattle.rumble_run.specs.inside.Decided.{SearchedBy};
ghost use Rattle.rumble_run.specs.inside.Seen.{answer_of, decided_status, IsOfStatus, LeavesRun, executable_of};

use crate::ending::Ending;
use crate::inputs::read_inputs;
use crate::lone_input::{lone_input, of_lone_input};
use crate::status::Stop;
use crate::telling::{prints, tells_error};
use expr_eval::eval_query;
use item_tree::Item;
use outside::Inputs;
use query_meaning::{EvalFault, Library};
use query_tree::{Compiled, input_names};
use std::alloc::Global;

// What a query comes to that has this value, or this fault.
fn of_outcome(
    alloc: Global,
    stats: bool,
    text: &[u8],
    given: Result<Vec<Item>, EvalFault>,
) -> Result<Ending, Stop>
    ensures value { IfOk result (λ e. (outcome : Outcome) → Gives values_of given outcome
        → answer_of e ≡ of_outcome stats text.now outcome) }
    ensures memory { IfErr result (λ stop. stop ≡ Stop.NoMemory) }
{
    match given {
        Ok(items) => Ok(prints(alloc, stats, &items)?),
        Err(EvalFault::Raised(fault)) => Ok(tells_error(alloc, text, &fault)?),
        Err(EvalFault::NoMemory) => Err(Stop::NoMemory),
    }
}

// What a query comes to whose inputs are read.
fn of_library(
    alloc: Global,
    stats: bool,
    text: &[u8],
    query: &Compiled,
    library: &Library,
) -> Result<Ending, Stop>
    ensures value { IfOk result (λ e. answer_of e ≡ of_outcome stats text.now
        (query_value query.now.width (bound_trees query.now.tree) (library_of library.now))) }
    ensures memory { IfErr result (λ stop. stop ≡ Stop.NoMemory) }
{
    of_outcome(alloc, stats, text, eval_query(alloc, query, library))
}

/// What a query comes to that is evaluated in one place, over all its inputs.
pub(crate) fn of_local<I: Inputs>(
    alloc: Global,
    stats: bool,
    text: &[u8],
    query: &Compiled,
    inputs: &mut I,
) -> Result<Ending, Stop>
    ensures world { I.world inputs.new ≡ I.world inputs.old }
    ensures value { IfOk result (λ e. IfSome (I.world inputs.old) (λ w.
        answer_of e ≡ of_run stats text.now w (executable_of query.now))) }
    ensures shape { IfOk result (λ e.
        IsOfStatus stats e.out.items (string_bytes e.err) e.status) }
    ensures counts { LeavesRun result (I.counts inputs.old) (I.counts inputs.new) }
    ensures searched { IfSome (I.world inputs.old) (λ w. SearchedBy
        (search_among w (input_names (bound_trees query.now.tree))) (decided_status result)
        (I.counts inputs.old) (I.counts inputs.new)) }
{
    let names = input_names(alloc, query.module())?;
    if let Some((name, place)) = lone_input(query.module(), &names) {
        let ending = of_lone_input(alloc, stats, text, name, place, inputs)?;
        return Ok(ending);
    }
    let library = read_inputs(alloc, inputs, &names)?;
    let ending = of_library(alloc, stats, text, query, &library)?;
    Ok(ending)
}
