//! The table of groups, in order of first appearance.

use crate::finish::rows;
use crate::group::{Group, join_at};
use crate::group_key::{GroupKey, group_key};
use crate::places::place_of;
use crate::seeded::Seeded;
use indexmap::IndexSet;
use item_tree::laws::keys_agree;
use item_tree::{Item, NoMemory};
use std::alloc::Global;
use std::marker::Model;
use tuple_rows::{Rows, Tuple};

/// A table of groups stands for a list of tuples with their keys. Contracts see it as what it
/// keeps: for each group the keys of its first tuple, and its row. The order in which the groups
/// stand is that of their first tuples.
///
/// A group is found by a hash of its keys, which depends on the seed of the table. For keys that
/// were chosen with regard to the seed, the time to add a tuple can grow with the number of groups.
#[derive(Debug, Drop)]
pub struct GroupTable {
    alloc: Global,
    width: usize,
    keys: Vec<u32>,
    joined: Vec<u32>,
    // The keys of each group, at its position.
    places: IndexSet<GroupKey, Seeded>,
    groups: Vec<Group>,
}

impl Model for GroupTable {
    ghost use Rattle.std.specs.Prelude.{length};
    ghost use Rattle.group_table.specs.Grouping.{Grouping, grouping_code};

    ghost Value = { Grouping };

    ghost coded = { grouping_code };

    ghost use Rattle.indexmap.specs.IndexSet.{hasher_of};
    ghost use Rattle.group_table.specs.inside.Views.{keyed_list};
    ghost use Rattle.group_table.specs.inside.Places.{ArePlaces};
    ghost use Rattle.group_table.specs.inside.Joins.{IsKept};

    ghost view = { λ a. record {
      width = a.width;
      keys = a.keys.items;
      joined = a.joined.items;
      seed = (hasher_of a.places).seed;
      groups = keyed_list a.groups.items;
    } };

    ghost invariant = { λ a.
        IsKept a.width a.keys.items a.joined.items (keyed_list a.groups.items)
        × ArePlaces a.places.keys (keyed_list a.groups.items) };
}

impl GroupTable {
    ghost use Rattle.std.specs.Prelude.{◌≡◌, ◌++◌, ◌∷◌, [], length, map, List, OnOk, IfOk};
    ghost use Rattle.tuple_rows.specs.Tuples.{sequences};
    ghost use Rattle.tuple_rows.specs.Keys.{Keyed, AllKeys, key_list};
    ghost use Rattle.group_table.specs.Groups.{group_rows};
    ghost use Rattle.group_table.specs.Grouping.{Grouping, no_groups, StandsFor, IsLike, AllBelow, finished};
    ghost use Rattle.group_table.specs.inside.Joins.{put, put_all, IsGroup};
    ghost use Rattle.group_table.specs.inside.Views.{entry_of};

    /// The groups of no tuples. The tuples will have this width; `keys` are the slots of the key
    /// variables, from left to right, and `joined` those of the other variables of the stream.
    pub fn new(alloc: Global, width: usize, keys: Vec<u32>, joined: Vec<u32>) -> GroupTable
        requires keys { AllBelow width keys.items }
        requires joined { AllBelow width joined.items }
        ensures empty { result ≡ no_groups width keys.items joined.items 0 }
        ensures stands { StandsFor result [] }
    {
        GroupTable::seeded(alloc, width, keys, joined, 0)
    }

    /// The same with this seed, on which the hashes of keys depend. Where strangers choose the keys
    /// it is to be a number that they do not know.
    pub fn seeded(
        alloc: Global,
        width: usize,
        keys: Vec<u32>,
        joined: Vec<u32>,
        seed: u64,
    ) -> GroupTable
        requires keys { AllBelow width keys.items }
        requires joined { AllBelow width joined.items }
        ensures empty { result ≡ no_groups width keys.items joined.items seed }
        ensures stands { StandsFor result [] }
    {
        GroupTable {
            alloc,
            width,
            keys,
            joined,
            places: IndexSet::with_hasher(alloc, Seeded { seed }),
            groups: Vec::new(alloc),
        }
    }

    /// One more tuple, behind those that the table stands for: one key for each of the key slots,
    /// each absent or one atomic. Its sequences are moved, and not copied. Where memory is short,
    /// nothing is said of the groups.
    pub fn add(&mut self, keys: Vec<Option<Item>>, tuple: Tuple) -> Result<(), NoMemory>
        requires count { length keys.items ≡ length self.old.keys }
        requires atomics { AllKeys (key_list keys) }
        requires width { length (sequences tuple) ≡ self.old.width }
        ensures like { IsLike self.old self.new }
        ensures stands { OnOk result ((X : List Keyed) → StandsFor self.old X
            → StandsFor self.new (X ++ (key_list keys, sequences tuple) ∷ [])) }
    {
        self.put(Group { keys, row: tuple })
    }

    // One more row.
    fn put(&mut self, group: Group) -> Result<(), NoMemory>
        requires { IsGroup self.old.width (length self.old.keys) (entry_of group) }
        ensures like { IsLike self.old self.new }
        ensures groups { OnOk result
            (self.new.groups ≡ put self.old.joined self.old.groups (entry_of group)) }
    {
        keys_agree();
        let key = group_key(self.alloc, group.keys.as_slice())?;
        self.groups.reserve(1)?;
        let at = place_of(&mut self.places, key)?;
        if at < self.groups.len() {
            join_at(&mut self.groups, at, self.joined.as_slice(), group.row)
        } else {
            self.groups.push_reserved(group);
            Ok(())
        }
    }

    /// What a later table of the same width and slots stands for, behind what this one does. Where
    /// memory is short, nothing is said of the groups.
    pub fn merge(&mut self, later: GroupTable) -> Result<(), NoMemory>
        requires { IsLike self.old later }
        ensures like { IsLike self.old self.new }
        ensures stands { OnOk result ((X Y : List Keyed) → StandsFor self.old X
            → StandsFor later Y → StandsFor self.new (X ++ Y)) }
    {
        let GroupTable {
            alloc: _,
            width: _,
            keys: _,
            joined: _,
            places: _,
            groups,
        } = later;
        for group in groups {
            self.put(group)?;
        }
        Ok(())
    }

    /// The rows of the groups, in the order of their first tuples. A key slot has the key of the
    /// first tuple, a joined slot has the sequences of all tuples in order, and another slot has
    /// that of the first tuple.
    pub fn into_rows(self) -> Result<Rows, NoMemory>
        ensures rows { IfOk result (λ r. r ≡ finished self) }
        ensures stands { IfOk result (λ r. (X : List Keyed) → StandsFor self X → r ≡ record {
          width = self.width;
          tuples = group_rows self.width self.keys self.joined X;
        }) }
    {
        let GroupTable {
            alloc,
            width,
            keys,
            joined: _,
            places: _,
            groups,
        } = self;
        Ok(Rows::of(width, rows(alloc, width, keys.as_slice(), groups)?))
    }
}
