//! Sorted runs of tuples with their keys.

ghost use Rattle.std.specs.Prelude.{◌≡◌, ◌<◌, ◌^◌, ◌≤◌, None, List, length, IfOk, IfErr};
ghost use Rattle.order_runs.specs.Clashes.{first_clash};
ghost use Rattle.order_runs.specs.Orders.{key_lists, below, ordered, sorted};
ghost use Rattle.order_runs.specs.Seen.{SeenStandsFor, AllCount};
ghost use Rattle.order_runs.specs.Runs.{keyed_below, entries_of};

use crate::compare::compare_keys;
use crate::{ClassSeen, Column};
use item_tree::laws::keys_agree;
use item_tree::{Item, NoMemory};
use std::alloc::Global;
use tuple_rows::Tuple;

/// A sorted run: tuples with their keys in order, and the classes of the keys in the order in which
/// they were taken.
#[derive(Debug, Drop)]
pub struct Run {
    pub(crate) entries: Vec<(Vec<Option<Item>>, Tuple)>,
    pub(crate) seen: ClassSeen,
}

/// Why tuples cannot be sorted.
#[derive(Debug, Drop)]
pub enum SortFault {
    /// The keys of the tuple, from 1, are the first that clash with keys before them, in this
    /// column, from 0. `seen` stands for the tuples up to this one.
    Clash {
        tuple: u64,
        column: u32,
        seen: ClassSeen,
    },
    /// Memory ran out.
    NoMemory,
}

impl From<NoMemory> for SortFault {
    ghost use Rattle.std.specs.Prelude.{◌≡◌};
    ghost use Rattle.order_runs.specs.declared.run.SortFault.TheVariants as sort;

    ghost from_gives = { λ _ e. e ≡ sort.NoMemory };

    fn from(_e: NoMemory) -> SortFault {
        SortFault::NoMemory
    }
}

impl Run {
    ghost use Rattle.std.specs.Prelude.{◌≡◌, ℕ, None, length, IfOk, IfErr};
    ghost use Rattle.tuple_rows.specs.Tuples.{AllOfWidth};
    ghost use Rattle.order_runs.specs.Clashes.{first_clash};
    ghost use Rattle.order_runs.specs.Orders.{key_lists, rows};
    ghost use Rattle.order_runs.specs.Seen.{AllCount};
    ghost use Rattle.order_runs.specs.Runs.{entries_of, RunStandsFor, RunFits, SortFailsWith};

    /// The tuples sorted by the columns of their keys. Each has one key for each column, absent or
    /// one atomic. Tuples whose keys tie stay in order.
    pub fn sort(
        alloc: Global,
        columns: &[Column],
        entries: Vec<(Vec<Option<Item>>, Tuple)>,
    ) -> Result<Run, SortFault>
        requires { AllCount (length columns.now) (key_lists (entries_of entries.items)) }
        ensures value { IfOk result
            (λ r. RunStandsFor columns.now r (entries_of entries.items)) }
        ensures fits { IfOk result
            (λ r. (width : ℕ) → AllOfWidth width (rows (entries_of entries.items))
            → RunFits width (length columns.now) r) }
        ensures no_clash { IfOk result
            (λ r. first_clash (key_lists (entries_of entries.items)) ≡ None) }
        ensures fault { IfErr result (SortFailsWith (entries_of entries.items)) }
    {
        let seen = seen_of(alloc, columns.len(), entries.as_slice())?;
        let none = ClassSeen::new(alloc, columns.len())?;
        match seen.clash_after(&none) {
            None => {
                let entries = sorted(columns, entries)?;
                Ok(Run { entries, seen })
            }
            Some((tuple, column)) => {
                let seen = seen_of(alloc, columns.len(), &entries[..tuple as usize])?;
                Err(SortFault::Clash {
                    tuple,
                    column,
                    seen,
                })
            }
        }
    }

    /// The classes of the keys, in the order in which the tuples were taken.
    pub fn seen(&self) -> &ClassSeen
        ensures { result.now ≡ self.now.seen }
    {
        &self.seen
    }
}

// The classes of the keys of these tuples.
fn seen_of(
    alloc: Global,
    columns: usize,
    entries: &[(Vec<Option<Item>>, Tuple)],
) -> Result<ClassSeen, NoMemory>
    requires { AllCount columns (key_lists (entries_of entries.now)) }
    ensures count { IfOk result (λ s. length s.columns ≡ columns) }
    ensures stands { IfOk result (λ s. SeenStandsFor s (key_lists (entries_of entries.now))) }
{
    if entries.len() as u64 >= ClassSeen::MOST_TUPLES {
        return Err(NoMemory);
    }
    let mut seen = ClassSeen::new(alloc, columns)?;
    for entry in entries {
        seen.note(entry.0.as_slice());
    }
    Ok(seen)
}

/// What has keys, sorted by the columns of the keys, with ties in place. Nothing is copied.
pub fn sort_keyed<T: Drop>(
    columns: &[Column],
    entries: Vec<(Vec<Option<Item>>, T)>,
) -> Result<Vec<(Vec<Option<Item>>, T)>, NoMemory>
    ensures { IfOk result (λ v. v.items ≡ ordered (keyed_below columns.now) entries.items) }
{
    keys_agree();
    let mut entries = entries;
    entries.sort_by(|a, b| compare_keys(columns, a.0.as_slice(), b.0.as_slice()))?;
    Ok(entries)
}

// The tuples by the columns of their keys, with ties in place.
#[tactic(auto, using(crate::proofs::TotalKeys::entries_ordered))]
pub(crate) fn sorted(
    columns: &[Column],
    entries: Vec<(Vec<Option<Item>>, Tuple)>,
) -> Result<Vec<(Vec<Option<Item>>, Tuple)>, NoMemory>
    ensures { IfOk result
        (λ v. entries_of v.items ≡ sorted columns.now (entries_of entries.items)) }
{
    sort_keyed(columns, entries)
}
