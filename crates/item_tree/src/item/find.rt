//! Where a key stands among pairs: few are compared one by one, and many have an index.

ghost use Rattle.std.specs.Prelude.{◌≡◌, ◌<◌, length, option_map, slice_get, None, IfOk};
ghost use Rattle.std.specs.Option.{ForSome};
ghost use Rattle.item_tree.specs.Datum.{KeysDiffer};
ghost use Rattle.item_tree.specs.Item.{pair_datums};
ghost use Rattle.item_tree.specs.Lookup.{place_of, Indexes, IndexesMore, IsIndexed};
ghost use Rattle.item_tree.specs.Made.{MakesIndex, FindsRepeat};

use super::Item;
use crate::{MakeFault, NoMemory, Str};
use std::alloc::Global;
use std::collections::BTreeMap;

// So many keys are sooner compared with each other than put into an index. It is an ordered one,
// since strangers choose the keys: no choice of keys makes a search in it slow.
pub(super) const FEW: usize = 64;

// The position of the first pair with this key.
pub(super) fn place_among(pairs: &[(Str, Item)], key: &Str) -> Option<usize>
    ensures { result ≡ place_of key.now (pair_datums pairs.now) }
{
    for i in 0..pairs.len() {
        if *key == pairs[i].0 {
            return Some(i);
        }
    }
    None
}

// The value of the pair at this position.
pub(super) fn value_at(pairs: &[(Str, Item)], at: usize) -> &Item
    requires { at < length pairs.now }
    ensures { option_map (λ p. p.1) (slice_get pairs.now at) ≡ Some result.now }
{
    &pairs[at].1
}

// The position of the first key that an earlier pair has.
pub(super) fn first_repeat(pairs: &[(Str, Item)]) -> Option<usize>
    ensures { FindsRepeat (pair_datums pairs.now) result }
{
    for i in 0..pairs.len() {
        let p = &pairs[i];
        if place_among(&pairs[..i], &p.0).is_some() {
            return Some(i);
        }
    }
    None
}

// The position of each key, or the first that an earlier pair has.
pub(super) fn index_of(
    alloc: Global,
    pairs: &[(Str, Item)],
) -> Result<BTreeMap<Str, usize>, MakeFault>
    ensures { MakesIndex (pair_datums pairs.now) result }
{
    let mut places = BTreeMap::new(alloc);
    for i in 0..pairs.len() {
        let p = &pairs[i];
        let key = p.0.copy()?;
        if places.insert(key, i)?.is_some() {
            return Err(MakeFault::KeyTwice { at: i });
        }
    }
    Ok(places)
}

// The index of pairs whose keys differ. It is made where they are many and have none.
fn ready_index(
    alloc: Global,
    places: Option<BTreeMap<Str, usize>>,
    pairs: &[(Str, Item)],
) -> Result<Option<BTreeMap<Str, usize>>, NoMemory>
    requires { IsIndexed places (pair_datums pairs.now) }
    ensures { IfOk result (λ o. Indexes o (pair_datums pairs.now)) }
{
    if places.is_some() || pairs.len() < FEW {
        return Ok(places);
    }
    match index_of(alloc, pairs) {
        Ok(places) => Ok(Some(places)),
        Err(MakeFault::NoMemory) => Err(NoMemory),
        Err(MakeFault::KeyTwice { .. }) => unreachable!(),
        Err(MakeFault::TooDeep) => unreachable!(),
    }
}

// The index of these pairs and one more that goes last, whose key is new.
pub(super) fn index_with(
    alloc: Global,
    places: Option<BTreeMap<Str, usize>>,
    pairs: &[(Str, Item)],
    key: &Str,
) -> Result<Option<BTreeMap<Str, usize>>, NoMemory>
    requires indexed { IsIndexed places (pair_datums pairs.now) }
    requires new { place_of key.now (pair_datums pairs.now) ≡ None }
    ensures { IfOk result (λ o. IndexesMore o key.now (pair_datums pairs.now)) }
{
    match ready_index(alloc, places, pairs)? {
        None => Ok(None),
        Some(mut places) => {
            let key = key.copy()?;
            places.insert(key, pairs.len())?;
            Ok(Some(places))
        }
    }
}
