//! A group, and how a tuple joins it.

ghost use Rattle.std.specs.Prelude.{◌≡◌, ◌<◌, ◌++◌, [], length, map, OnOk};
ghost use Rattle.std.specs.List.{slice_set};
ghost use Rattle.tuple_rows.specs.Tuples.{sequence, sequences};
ghost use Rattle.group_table.specs.Groups.{slot};
ghost use Rattle.group_table.specs.inside.Views.{keyed_list, shapes, joined_at, RowsAreWide};
ghost use Rattle.group_table.specs.Grouping.{AllBelow};
ghost use Rattle.group_table.specs.inside.Joins.{join_rows};

use item_tree::{Item, NoMemory};
use tuple_rows::Tuple;

/// A group: the keys of its first tuple, and its tuples as one row, in which the keys do not stand
/// yet.
#[derive(Debug, Drop)]
pub(crate) struct Group {
    pub keys: Vec<Option<Item>>,
    pub row: Tuple,
}

/// Moves what stands in these slots of a tuple behind what stands there in a row. No item is
/// copied. Where memory is short, the row keeps its width.
pub(crate) fn join(
    joined: &[u32],
    row: &mut Vec<Vec<Item>>,
    tuple: Vec<Vec<Item>>,
) -> Result<(), NoMemory>
    requires row { AllBelow (length row.old.items) joined.now }
    requires tuple { AllBelow (length tuple.items) joined.now }
    ensures ok { OnOk result
        (map sequence row.new.items
        ≡ join_rows joined.now (map sequence row.old.items) (map sequence tuple.items)) }
    ensures width { length row.new.items ≡ length row.old.items }
{
    let mut tuple = tuple;
    for slot in joined {
        join_slot(row, &mut tuple, *slot as usize)?;
    }
    Ok(())
}

// The same of one slot.
fn join_slot(
    row: &mut Vec<Vec<Item>>,
    tuple: &mut Vec<Vec<Item>>,
    at: usize,
) -> Result<(), NoMemory>
    requires row { at < length row.old.items }
    requires tuple { at < length tuple.old.items }
    ensures row { OnOk result
        (map sequence row.new.items
        ≡ slice_set (map sequence row.old.items) at
        (slot at (map sequence row.old.items) ++ slot at (map sequence tuple.old.items))) }
    ensures tuple { OnOk result
        (map sequence tuple.new.items ≡ slice_set (map sequence tuple.old.items) at []) }
    ensures row_width { length row.new.items ≡ length row.old.items }
    ensures tuple_width { length tuple.new.items ≡ length tuple.old.items }
{
    let more = &mut tuple[at];
    row[at].append(more)?;
    Ok(())
}

/// The same to the row of the group at this position.
pub(crate) fn join_at(
    groups: &mut Vec<Group>,
    at: usize,
    joined: &[u32],
    tuple: Tuple,
) -> Result<(), NoMemory>
    requires at { at < length groups.old.items }
    requires joined { AllBelow (length (sequences tuple)) joined.now }
    requires row { RowsAreWide (length (sequences tuple)) (keyed_list groups.old.items) }
    ensures ok { OnOk result (keyed_list groups.new.items
        ≡ joined_at joined.now at (sequences tuple) (keyed_list groups.old.items)) }
    ensures shapes { shapes (keyed_list groups.new.items) ≡ shapes (keyed_list groups.old.items) }
{
    let group = &mut groups[at];
    join(joined, &mut group.row.slots, tuple.slots)
}
