//! The rows that a table of groups makes.

ghost use Rattle.std.specs.Prelude.{◌≡◌, IfOk, length, map};
ghost use Rattle.tuple_rows.specs.Tuples.{sequence, sequences, row_list};
ghost use Rattle.tuple_rows.specs.Keys.{key_datum};
ghost use Rattle.group_table.specs.Groups.{with_keys, key_value};
ghost use Rattle.group_table.specs.Grouping.{AllBelow};
ghost use Rattle.group_table.specs.inside.Joins.{AllGroups, IsGroup};
ghost use Rattle.group_table.specs.inside.Views.{keyed_list, entry_of, finished_row};

use crate::group::Group;
use item_tree::{Item, NoMemory};
use std::alloc::Global;
use tuple_rows::Tuple;

/// The rows of these groups, with their keys in these slots.
pub(crate) fn rows(
    alloc: Global,
    width: usize,
    keys: &[u32],
    groups: Vec<Group>,
) -> Result<Vec<Tuple>, NoMemory>
    requires slots { AllBelow width keys.now }
    requires groups { AllGroups width (length keys.now) (keyed_list groups.items) }
    ensures { IfOk result
        (λ v. row_list v.items ≡ map (finished_row keys.now) (keyed_list groups.items)) }
{
    let mut rows = Vec::with_capacity(alloc, groups.len())?;
    for group in groups {
        rows.push(row(alloc, width, keys, group)?)?;
    }
    Ok(rows)
}

fn row(alloc: Global, width: usize, keys: &[u32], group: Group) -> Result<Tuple, NoMemory>
    requires slots { AllBelow width keys.now }
    requires group { IsGroup width (length keys.now) (entry_of group) }
    ensures { IfOk result (λ t. sequences t ≡ finished_row keys.now (entry_of group)) }
{
    let Group { keys: found, row } = group;
    let mut slots = row.slots;
    let mut at = 0;
    for key in found {
        let slot = keys[at] as usize;
        slots[slot] = key_items(alloc, key)?;
        at += 1;
    }
    Ok(Tuple { slots })
}

fn key_items(alloc: Global, key: Option<Item>) -> Result<Vec<Item>, NoMemory>
    ensures { IfOk result (λ v. sequence v ≡ key_value (key_datum key)) }
{
    match key {
        None => Ok(Vec::new(alloc)),
        Some(item) => Ok(vec![in alloc; item]?),
    }
}
