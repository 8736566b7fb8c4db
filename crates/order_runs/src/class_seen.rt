//! The classes of the keys of a list of tuples.

ghost use Rattle.std.specs.Prelude.{◌≡◌, ◌<◌, ◌^◌, length, None};
ghost use Rattle.tuple_rows.specs.Keys.{key_data, key_datum};
ghost use Rattle.order_runs.specs.inside.Follow.{followed_columns, clash_list, AllWithin, IsPlaced};
ghost use Rattle.order_runs.specs.inside.Columns.{earliest, better, in_column};
ghost use Rattle.order_runs.specs.inside.Notes.{key_columns};

use crate::column_seen::ColumnSeen;
use item_tree::{Item, NoMemory};
use std::alloc::Global;
use std::marker::Model;

/// The classes of the keys of tuples, column by column. It stands for the list of the tuples' keys,
/// and takes constant memory for each column.
#[derive(Debug, Drop)]
pub struct ClassSeen {
    tuples: u64,
    columns: Vec<ColumnSeen>,
}

impl Model for ClassSeen {
    ghost use Rattle.order_runs.specs.Seen.{Seen};
    ghost use Rattle.order_runs.specs.inside.Kept.{IsKept};

    ghost Value = { Seen };

    ghost view = { λ a. record { tuples = a.tuples; columns = a.columns.items } };

    ghost invariant = { λ a. IsKept a.tuples a.columns.items };
}

impl ClassSeen {
    ghost use Rattle.std.specs.Prelude.{◌≡◌, ◌+◌, ◌<◌, ◌^◌, ◌++◌, ◌∷◌, [], length, List, IfOk};
    ghost use Rattle.tuple_rows.specs.Keys.{KeyList, key_data};
    ghost use Rattle.order_runs.specs.Clashes.{clash_after};
    ghost use Rattle.order_runs.specs.Seen.{SeenStandsFor};

    /// No tuple has fewer, and a list of tuples fewer in all.
    pub const MOST_TUPLES: u64 = 1_152_921_504_606_846_976;

    /// No tuples, with so many keys each.
    pub fn new(alloc: Global, columns: usize) -> Result<ClassSeen, NoMemory>
        ensures count { IfOk result (λ s. length s.columns ≡ columns) }
        ensures stands { IfOk result (λ s. SeenStandsFor s []) }
    {
        if columns > u32::MAX as usize {
            return Err(NoMemory);
        }
        let columns = vec![in alloc; ColumnSeen::NONE; columns]?;
        Ok(ClassSeen { tuples: 0, columns })
    }

    /// How many tuples were seen.
    pub fn tuples(&self) -> u64
        ensures value { result ≡ self.now.tuples }
        ensures most { result < 2 ^ 60 }
    {
        self.tuples
    }

    /// One more tuple, behind those that were seen, with one key for each column.
    pub fn note(&mut self, keys: &[Option<Item>])
        requires count { length keys.now ≡ length self.old.columns }
        requires room { self.old.tuples + 1 < 2 ^ 60 }
        ensures tuples { self.new.tuples ≡ self.old.tuples + 1 }
        ensures count { length self.new.columns ≡ length self.old.columns }
        ensures stands { (K : List KeyList) → SeenStandsFor self.old K
            → SeenStandsFor self.new (K ++ key_data keys.now ∷ []) }
    {
        note_columns(self.tuples, &mut self.columns, keys);
        self.tuples += 1;
    }

    /// The tuples of a later list, with as many keys each, behind those that were seen.
    pub fn follow(&mut self, later: &ClassSeen)
        requires count { length later.now.columns ≡ length self.old.columns }
        requires room { self.old.tuples + later.now.tuples < 2 ^ 60 }
        ensures tuples { self.new.tuples ≡ self.old.tuples + later.now.tuples }
        ensures count { length self.new.columns ≡ length self.old.columns }
        ensures stands { (K L : List KeyList) → SeenStandsFor self.old K → SeenStandsFor later.now L
            → SeenStandsFor self.new (K ++ L) }
    {
        follow_columns(self.tuples, &mut self.columns, later.columns.as_slice());
        self.tuples += later.tuples;
    }

    /// The earliest of these tuples, from 1, whose keys clash with keys before them, here or among
    /// the tuples that stand `before`, and the first such column, from 0.
    pub fn clash_after(&self, before: &ClassSeen) -> Option<(u64, u32)>
        requires { length before.now.columns ≡ length self.now.columns }
        ensures { (B K : List KeyList) → SeenStandsFor before.now B → SeenStandsFor self.now K
            → result ≡ clash_after B K }
    {
        earliest_clash(self.columns.as_slice(), before.columns.as_slice())
    }
}

fn note_columns(count: u64, columns: &mut Vec<ColumnSeen>, keys: &[Option<Item>])
    requires count { count < 2 ^ 60 }
    requires keys { length keys.now ≡ length columns.old.items }
    ensures { columns.new.items
        ≡ followed_columns count columns.old.items (key_columns (key_data keys.now)) }
{
    for i in 0..keys.len() {
        let seen = columns[i].followed(count, &ColumnSeen::of(&keys[i]));
        columns[i] = seen;
    }
}

fn follow_columns(count: u64, columns: &mut Vec<ColumnSeen>, later: &[ColumnSeen])
    requires count { count < 2 ^ 60 }
    requires within { AllWithin (2 ^ 60) later.now }
    requires later { length later.now ≡ length columns.old.items }
    ensures { columns.new.items ≡ followed_columns count columns.old.items later.now }
{
    for i in 0..later.len() {
        let seen = columns[i].followed(count, &later[i]);
        columns[i] = seen;
    }
}

fn earliest_clash(own: &[ColumnSeen], before: &[ColumnSeen]) -> Option<(u64, u32)>
    requires count { length before.now ≡ length own.now }
    requires most { length own.now < 2 ^ 32 }
    requires within { AllWithin (2 ^ 60) own.now }
    ensures { result ≡ earliest None 0 (clash_list own.now before.now) }
{
    let mut best = None;
    for i in 0..own.len() {
        best = earlier(best, i as u32, own[i].clash_after(&before[i]));
    }
    best
}

// The earlier of the best clash so far and one in this column, behind so many tuples.
fn earlier(best: Option<(u64, u32)>, column: u32, clash: Option<u64>) -> Option<(u64, u32)>
    requires { IsPlaced (2 ^ 60) clash }
    ensures { result ≡ better best (in_column column clash) }
{
    let Some(before) = clash else {
        return best;
    };
    let found = (before + 1, column);
    match best {
        None => Some(found),
        Some(best) => {
            if found.0 < best.0 {
                Some(found)
            } else {
                Some(best)
            }
        }
    }
}
