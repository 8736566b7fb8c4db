//! Makes arrays and objects.

ghost use Rattle.std.specs.Prelude.{◌≡◌, ◌<◌, ◌++◌, ◌∷◌, [], IfOk, length, option_map};
ghost use Rattle.std.specs.Arc.{arc_value};
ghost use Rattle.item_tree.specs.Datum.{AllSound, MembersSound, values, members, array_of_list, object_of_pairs, depth as depth_of};
ghost use Rattle.item_tree.specs.Item.{datums, pair_datums};
ghost use Rattle.item_tree.specs.Lookup.{Indexes};
ghost use Rattle.item_tree.specs.inside.Held.{items_in, depth_in};
ghost use Rattle.item_tree.specs.inside.HeldPairs.{pairs_in, pairs_depth_in, places_in};
ghost use Rattle.item_tree.specs.Made.{MakesArray, MakesObject, MakesDistinct};

use super::pair_list::PairList;
use super::{Held, HeldPairs, Item, Items, Pairs, Shared};
use crate::shared::in_block;
use crate::{MakeFault, NoMemory, Str};
use std::alloc::Global;
use std::collections::BTreeMap;
use std::sync::Arc;

/// The array of these items.
///
/// It is refused as too deep exactly where an item has depth 128.
pub fn array_of(alloc: Global, items: Vec<Item>) -> Result<Item, MakeFault>
    ensures { MakesArray (datums items.items) result }
{
    let mut items = items;
    array_from(alloc, &mut items)
}

/// The array of these items. None of them are left in the list, whatever the answer; its room is
/// kept.
///
/// It is refused as too deep exactly where an item has depth 128.
#[inline(always)]
pub fn array_from(alloc: Global, items: &mut Vec<Item>) -> Result<Item, MakeFault>
    ensures made { MakesArray (datums items.old.items) result }
    ensures left { items.new.items ≡ [] }
{
    let depth = array_depth(items.as_slice());
    if depth > 128 {
        items.clear();
        return Err(MakeFault::TooDeep);
    }
    let held = held_from(alloc, depth, items)?;
    Ok(Item::Array(Items { held }))
}

// Takes the items of a list, which keeps its room.
fn held_from(alloc: Global, depth: u8, items: &mut Vec<Item>) -> Result<Held, NoMemory>
    ensures held { IfOk result (λ h. (items_in h ≡ items.old.items) × (depth_in h ≡ depth)) }
    ensures left { items.new.items ≡ [] }
{
    match items.len() {
        1 => Ok(Held::One(depth, one(alloc, items)?)),
        2 => Ok(Held::Two(depth, two(alloc, items)?)),
        3 => Ok(Held::Three(depth, three(alloc, items)?)),
        4 => Ok(Held::Four(depth, four(alloc, items)?)),
        _ => Ok(Held::Many(depth, in_block(alloc, take_all(items)?)?)),
    }
}

// A few of anything, in a block of their own. Each number has a function, which is inlined: what a
// function has on the stack is set to zero where it begins, and so only for the one that is called.
#[inline(always)]
fn one<T: Drop>(alloc: Global, list: &mut Vec<T>) -> Result<Arc<[T; 1], Global>, NoMemory>
    requires { length list.old.items ≡ 1 }
    ensures taken { IfOk result (λ b. arc_value b ≡ list.old.items) }
    ensures left { list.new.items ≡ [] }
{
    let only = take_last(list);
    in_block(alloc, [only])
}

#[inline(always)]
fn two<T: Drop>(alloc: Global, list: &mut Vec<T>) -> Result<Arc<[T; 2], Global>, NoMemory>
    requires { length list.old.items ≡ 2 }
    ensures taken { IfOk result (λ b. arc_value b ≡ list.old.items) }
    ensures left { list.new.items ≡ [] }
{
    let second = take_last(list);
    let first = take_last(list);
    in_block(alloc, [first, second])
}

#[inline(always)]
fn three<T: Drop>(alloc: Global, list: &mut Vec<T>) -> Result<Arc<[T; 3], Global>, NoMemory>
    requires { length list.old.items ≡ 3 }
    ensures taken { IfOk result (λ b. arc_value b ≡ list.old.items) }
    ensures left { list.new.items ≡ [] }
{
    let third = take_last(list);
    let second = take_last(list);
    let first = take_last(list);
    in_block(alloc, [first, second, third])
}

#[inline(always)]
fn four<T: Drop>(alloc: Global, list: &mut Vec<T>) -> Result<Arc<[T; 4], Global>, NoMemory>
    requires { length list.old.items ≡ 4 }
    ensures taken { IfOk result (λ b. arc_value b ≡ list.old.items) }
    ensures left { list.new.items ≡ [] }
{
    let fourth = take_last(list);
    let third = take_last(list);
    let second = take_last(list);
    let first = take_last(list);
    in_block(alloc, [first, second, third, fourth])
}

// All of a list, as a list of their own without spare room.
fn take_all<T: Drop>(list: &mut Vec<T>) -> Result<Vec<T>, NoMemory>
    ensures taken { IfOk result (λ v. v.items ≡ list.old.items) }
    ensures left { list.new.items ≡ [] }
{
    match list.split_off(0) {
        Ok(all) => Ok(all),
        Err(_) => {
            list.clear();
            Err(NoMemory)
        }
    }
}

// The last of a list, which is there.
#[inline(always)]
fn take_last<T>(list: &mut Vec<T>) -> T
    requires { 0 < length list.old.items }
    ensures { list.old.items ≡ list.new.items ++ result ∷ [] }
{
    match list.pop() {
        Some(last) => last,
        None => unreachable!(),
    }
}

/// The object of these pairs.
///
/// The first key that repeats an earlier one refuses it; else it is refused as too deep exactly
/// where a value has depth 128.
pub fn object_of(alloc: Global, pairs: Vec<(Str, Item)>) -> Result<Item, MakeFault>
    ensures { MakesObject (pair_datums pairs.items) result }
{
    object_of_distinct(alloc, PairList::of(alloc, pairs)?)
}

/// The object of the pairs of a list, whose keys differ. They are neither compared nor copied
/// again.
///
/// It is refused as too deep exactly where a value has depth 128.
pub fn object_of_distinct(alloc: Global, list: PairList) -> Result<Item, MakeFault>
    ensures { MakesDistinct list result }
{
    let mut list = list;
    object_from(alloc, &mut list)
}

/// The object of the pairs of a list. None of them are left in the list, whatever the answer; its
/// room is kept.
///
/// It is refused as too deep exactly where a value has depth 128.
#[inline(always)]
pub fn object_from(alloc: Global, list: &mut PairList) -> Result<Item, MakeFault>
    ensures made { MakesDistinct list.old result }
    ensures left { list.new ≡ [] }
{
    let depth = object_depth(list.as_slice());
    let places = list.places.take();
    if depth > 128 {
        list.pairs.clear();
        return Err(MakeFault::TooDeep);
    }
    let held = held_pairs_from(alloc, depth, &mut list.pairs, places)?;
    Ok(Item::Object(Pairs { held, alloc }))
}

// Takes the pairs of a list, which keeps its room. A few have no index.
fn held_pairs_from(
    alloc: Global,
    depth: u8,
    list: &mut Vec<(Str, Item)>,
    places: Option<BTreeMap<Str, usize>>,
) -> Result<HeldPairs, NoMemory>
    requires { Indexes places (pair_datums list.old.items) }
    ensures pairs { IfOk result (λ h. pairs_in h ≡ list.old.items) }
    ensures depth { IfOk result (λ h. pairs_depth_in h ≡ depth) }
    ensures places { IfOk result (λ h. Indexes (places_in h) (pair_datums list.old.items)) }
    ensures left { list.new.items ≡ [] }
{
    match list.len() {
        1 => Ok(HeldPairs::One(depth, one(alloc, list)?)),
        2 => Ok(HeldPairs::Two(depth, two(alloc, list)?)),
        3 => Ok(HeldPairs::Three(depth, three(alloc, list)?)),
        4 => Ok(HeldPairs::Four(depth, four(alloc, list)?)),
        _ => {
            let pairs = take_all(list)?;
            let places = shared_index(alloc, places)?;
            Ok(HeldPairs::Many(depth, in_block(alloc, Shared { pairs, places })?))
        }
    }
}

// The same index, to be shared by the copies of an object.
fn shared_index(
    alloc: Global,
    places: Option<BTreeMap<Str, usize>>,
) -> Result<Option<Arc<BTreeMap<Str, usize>, Global>>, NoMemory>
    ensures { IfOk result (λ o. option_map arc_value o ≡ places) }
{
    match places {
        None => Ok(None),
        Some(places) => Ok(Some(in_block(alloc, places)?)),
    }
}

// The depth of the array of these items.
fn array_depth(items: &[Item]) -> u8
    ensures value { result ≡ depth_of (array_of_list (datums items.now)) }
    ensures sound { AllSound (values (datums items.now)) }
{
    let mut depth = 1;
    for x in items {
        let inside = x.depth();
        if depth < inside + 1 {
            depth = inside + 1;
        }
    }
    depth
}

// The depth of the object of these pairs.
fn object_depth(pairs: &[(Str, Item)]) -> u8
    ensures value { result ≡ depth_of (object_of_pairs (pair_datums pairs.now)) }
    ensures sound { MembersSound (members (pair_datums pairs.now)) }
{
    let mut depth = 1;
    for p in pairs {
        // It tells the proof that the key's characters are sound.
        let _key = p.0.as_str();
        let inside = p.1.depth();
        if depth < inside + 1 {
            depth = inside + 1;
        }
    }
    depth
}
