//! Merges sorted runs.

ghost use Rattle.std.specs.Prelude.{◌≡◌, ◌++◌, None, List, length, map, OnOk, IfOk, IfErr};
ghost use Rattle.tuple_rows.specs.Tuples.{row_list};
ghost use Rattle.tuple_rows.specs.Keys.{KeyList, Keyed};
ghost use Rattle.order_runs.specs.Clashes.{first_clash};
ghost use Rattle.order_runs.specs.Orders.{sorted, rows};
ghost use Rattle.order_runs.specs.Seen.{SeenStandsFor};
ghost use Rattle.order_runs.specs.Runs.{entries_of, concat, all_key_lists, AllRunsStand, AllFit, AllSeen, AllCounted, ConflictIs, MergeFailsWith, run_entries};

use crate::run::{Run, sorted};
use crate::{ClassSeen, Column};
use item_tree::laws::keys_agree;
use item_tree::{Item, NoMemory};
use std::alloc::Global;
use tuple_rows::{Rows, Tuple};

/// Why runs cannot be merged.
#[derive(Clone, Copy, Debug, PartialEq, Eq)]
pub enum MergeFault {
    /// In the concatenation of the runs, each in the order in which it was taken, the keys of this
    /// tuple, from 1, of this run, from 0, are the first that clash with keys before them, in this
    /// column, from 0.
    Conflict { run: u64, tuple: u64, column: u32 },
    /// Memory ran out.
    NoMemory,
}

impl From<NoMemory> for MergeFault {
    ghost use Rattle.std.specs.Prelude.{◌≡◌};
    ghost use Rattle.order_runs.specs.declared.merge.MergeFault.TheVariants as merge;

    ghost from_gives = { λ _ e. e ≡ merge.NoMemory };

    fn from(_e: NoMemory) -> MergeFault {
        MergeFault::NoMemory
    }
}

/// The tuples of all runs by these columns, by which each run was sorted. Tuples whose keys tie
/// stand in the order of the runs, and within a run as they were taken.
pub fn merge_runs(
    alloc: Global,
    width: usize,
    columns: &[Column],
    runs: Vec<Run>,
) -> Result<Rows, MergeFault>
    requires { AllFit width (length columns.now) runs.items }
    ensures value { IfOk result
        (λ r. (XS : List (List Keyed)) → AllRunsStand columns.now runs.items XS
        → r ≡ record { width = width; tuples = rows (sorted columns.now (concat XS)) }) }
    ensures no_clash { IfOk result
        (λ r. (XS : List (List Keyed)) → AllRunsStand columns.now runs.items XS
        → first_clash (concat (all_key_lists XS)) ≡ None) }
    ensures fault { IfErr result
        (λ e. (XS : List (List Keyed)) → AllRunsStand columns.now runs.items XS
        → MergeFailsWith XS e) }
{
    keys_agree();
    if let Err(fault) = find_conflict(alloc, columns.len(), runs.as_slice()) {
        return Err(fault);
    }
    let entries = sorted(columns, joined(alloc, runs)?)?;
    Ok(Rows::of(width, tuples_of(alloc, entries)?))
}

// Where the keys of the concatenated runs clash first, if they do.
fn find_conflict(alloc: Global, columns: usize, runs: &[Run]) -> Result<(), MergeFault>
    requires { AllCounted columns runs.now }
    ensures none { OnOk result ((KS : List (List KeyList)) → AllSeen runs.now KS
        → first_clash (concat KS) ≡ None) }
    ensures fault { IfErr result (λ e. (KS : List (List KeyList)) → AllSeen runs.now KS
        → ConflictIs KS e) }
{
    let mut before = ClassSeen::new(alloc, columns)?;
    for i in 0..runs.len() {
        let seen = runs[i].seen();
        match seen.clash_after(&before) {
            Some((tuple, column)) => {
                let run = i as u64;
                return Err(MergeFault::Conflict { run, tuple, column });
            }
            None => follow(&mut before, seen)?,
        }
    }
    Ok(())
}

// The keys of a run behind those before it, where so many can be counted.
fn follow(before: &mut ClassSeen, seen: &ClassSeen) -> Result<(), NoMemory>
    requires { length seen.now.columns ≡ length before.old.columns }
    ensures count { OnOk result (length before.new.columns ≡ length before.old.columns) }
    ensures stands { OnOk result ((K L : List KeyList) → SeenStandsFor before.old K
        → SeenStandsFor seen.now L → SeenStandsFor before.new (K ++ L)) }
{
    if seen.tuples() >= ClassSeen::MOST_TUPLES - before.tuples() {
        return Err(NoMemory);
    }
    before.follow(seen);
    Ok(())
}

// The tuples of all runs, one run behind the other.
fn joined(alloc: Global, runs: Vec<Run>) -> Result<Vec<(Vec<Option<Item>>, Tuple)>, NoMemory>
    ensures { IfOk result (λ v. v.items ≡ concat (map run_entries runs.items)) }
{
    let mut all = Vec::new(alloc);
    for run in runs {
        let Run {
            mut entries,
            seen: _,
        } = run;
        all.append(&mut entries)?;
    }
    Ok(all)
}

// The tuples without their keys.
fn tuples_of(
    alloc: Global,
    entries: Vec<(Vec<Option<Item>>, Tuple)>,
) -> Result<Vec<Tuple>, NoMemory>
    ensures { IfOk result (λ v. row_list v.items ≡ rows (entries_of entries.items)) }
{
    let mut tuples = Vec::with_capacity(alloc, entries.len())?;
    for entry in entries {
        let (_, tuple) = entry;
        tuples.push(tuple)?;
    }
    Ok(tuples)
}
