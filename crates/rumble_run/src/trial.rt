//! The query and the inputs of a trial.

ghost use Rattle.std.specs.Prelude.{◌≡◌, [], ◌∷◌, IfOk};
ghost use Rattle.outside.specs.AfterCalls.{new_files};
ghost use Rattle.rumble_run.specs.Trial.{trial_query, trial_world};

use item_tree::{NoMemory, Str};
use line_maker::made_lines;
use outside::{MemInputs, SteadyInputs};
use std::alloc::Global;

// The query of a trial, over the input `trial`.
const QUERY: &[u8] = b"for $x in json-lines(\"trial\") where $x instance of object \
group by $k := $x.k order by $k return {\"k\":$k,\"n\":count($x),\"sum\":sum($x.v)}";

/// The query of a trial.
pub(crate) fn trial_query() -> &'static [u8]
    ensures { result.now ≡ trial_query }
{
    QUERY
}

// A file alone.
fn one_file(alloc: Global, name: Str, bytes: Vec<u8>) -> Result<Vec<(Str, Vec<u8>)>, NoMemory>
    ensures { IfOk result (λ v. v.items ≡ (name, bytes) ∷ []) }
{
    let mut files = Vec::with_capacity(alloc, 1)?;
    files.push((name, bytes))?;
    Ok(files)
}

/// The inputs of a trial: so many lines that are made from this number, in memory.
pub(crate) fn trial_inputs(alloc: Global, number: u32, lines: u32) -> Result<SteadyInputs, NoMemory>
    ensures { IfOk result (λ s. s ≡ new_files (trial_world number lines)) }
{
    let name = Str::of(alloc, "trial")?;
    let bytes = made_lines(alloc, number, lines)?;
    MemInputs::steady(alloc, one_file(alloc, name, bytes)?)
}
