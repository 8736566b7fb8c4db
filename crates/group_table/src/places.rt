//! The positions of keys in a table.

ghost use Rattle.std.specs.Prelude.{◌≡◌, IfOk, OnOk, OnErr};
ghost use Rattle.std.specs.List.{position_or_len};
ghost use Rattle.indexmap.specs.IndexSet.{insert_key, hasher_of};

use crate::group_key::GroupKey;
use crate::seeded::Seeded;
use indexmap::IndexSet;
use item_tree::NoMemory;

/// The position of this key, which goes behind the last one where it is new.
pub(crate) fn place_of(
    places: &mut IndexSet<GroupKey, Seeded>,
    key: GroupKey,
) -> Result<usize, NoMemory>
    ensures hasher { hasher_of places.new ≡ hasher_of places.old }
    ensures place { IfOk result
        (λ at. at ≡ position_or_len (⟦<GroupKey as PartialEq>⟧.eq key) places.old.keys) }
    ensures keys { OnOk result
        (places.new.keys ≡ insert_key ⟦<GroupKey as PartialEq>⟧.eq places.old.keys key) }
    ensures keys_stay { OnErr result (places.new.keys ≡ places.old.keys) }
{
    let (at, _) = places.insert_full(key)?;
    Ok(at)
}
