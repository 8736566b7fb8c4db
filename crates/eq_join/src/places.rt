//! The different keys of a list, each with its positions.

ghost use Rattle.std.specs.Prelude.{◌≡◌, ◌++◌, ◌∷◌, [], length, Some, IfOk, OnOk, position};
ghost use Rattle.std.specs.List.{position_or_len};
ghost use Rattle.item_tree.specs.Item.{datum};
ghost use Rattle.indexmap.specs.IndexSet.{insert_key};
ghost use Rattle.tuple_rows.specs.Keys.{KeyList, key_datum, key_data};
ghost use Rattle.eq_join.specs.inside.Places.{is_of, found, put_position, position_lists, ArePlaces};

use crate::seeded::Seeded;
use indexmap::IndexSet;
use item_tree::laws::keys_agree;
use item_tree::{Item, Key, NoMemory, key_of};
use std::alloc::Global;
use std::cmp::Ordering;

/// The different keys of a list, and for each of them, at its position, where it stands.
#[derive(Debug, Drop)]
pub(crate) struct Places {
    pub keys: IndexSet<Key, Seeded>,
    pub positions: Vec<Vec<u64>>,
}

/// The places of these keys.
pub(crate) fn places_of(alloc: Global, keys: &[Option<Item>], seed: u64) -> Result<Places, NoMemory>
    ensures { IfOk result (λ places. ArePlaces places (key_data keys.now)) }
{
    let mut places = Places {
        keys: IndexSet::with_hasher(alloc, Seeded { seed }),
        positions: Vec::new(alloc),
    };
    for (at, key) in keys.iter().enumerate() {
        add(alloc, &mut places, key, at as u64)?;
    }
    Ok(places)
}

// One more key behind so many.
fn add(alloc: Global, places: &mut Places, key: &Option<Item>, at: u64) -> Result<(), NoMemory>
    ensures { OnOk result ((ls : KeyList) → length ls ≡ at → ArePlaces places.old ls
        → ArePlaces places.new (ls ++ key_datum key.now ∷ [])) }
{
    match key {
        None => Ok(()),
        Some(item) => add_item(alloc, places, item, at),
    }
}

// The same of an item. An array or object is equal to none, so it needs no place.
fn add_item(alloc: Global, places: &mut Places, item: &Item, at: u64) -> Result<(), NoMemory>
    ensures { OnOk result ((ls : KeyList) → length ls ≡ at → ArePlaces places.old ls
        → ArePlaces places.new (ls ++ Some (datum item.now) ∷ [])) }
{
    if item.class().is_none() {
        return Ok(());
    }
    keys_agree();
    let key = key_of(item)?;
    let place = insert(&mut places.keys, key)?;
    put(alloc, &mut places.positions, place, at)
}

// The position of this key, which goes behind the last one where it is new.
fn insert(keys: &mut IndexSet<Key, Seeded>, key: Key) -> Result<usize, NoMemory>
    ensures place { IfOk result
        (λ place. place ≡ position_or_len (⟦<Key as PartialEq>⟧.eq key) keys.old.keys) }
    ensures keys { OnOk result
        (keys.new.keys ≡ insert_key ⟦<Key as PartialEq>⟧.eq keys.old.keys key) }
{
    let (place, _) = keys.insert_full(key)?;
    Ok(place)
}

// A position goes behind those that stand at this place, or else into a list that goes last.
fn put(alloc: Global, positions: &mut Vec<Vec<u64>>, place: usize, at: u64) -> Result<(), NoMemory>
    ensures { OnOk result (position_lists positions.new.items
        ≡ put_position place at (position_lists positions.old.items)) }
{
    if place < positions.len() {
        let list = &mut positions[place];
        list.push(at)?;
    } else {
        positions.push(vec![in alloc; at]?)?;
    }
    Ok(())
}

/// The positions of the keys that are equal to this item.
pub(crate) fn positions_of<'a>(places: &'a Places, item: &Item) -> &'a [u64]
    ensures { result.now ≡ found (is_of (datum item.now)) places.now.keys.keys
        (position_lists places.now.positions.items) }
{
    let Some(place) = place_of(&places.keys, item) else {
        return &[];
    };
    if place < places.positions.len() {
        places.positions[place].as_slice()
    } else {
        &[]
    }
}

fn place_of(keys: &IndexSet<Key, Seeded>, item: &Item) -> Option<usize>
    ensures { result ≡ position (is_of (datum item.now)) keys.now.keys }
{
    if item.class().is_none() {
        return None;
    }
    keys_agree();
    match key_of(item) {
        Ok(key) => keys.get_index_of(&key),
        Err(_) => search(keys.as_slice(), item),
    }
}

// Where no further copy of a string can be counted, it is sought without one.
#[cold]
fn search(keys: &[Key], item: &Item) -> Option<usize>
    ensures { result ≡ position (is_of (datum item.now)) keys.now }
{
    keys.iter().position(|key| is_of(item, key))
}

fn is_of(item: &Item, key: &Key) -> bool
    ensures { result ≡ is_of (datum item.now) key.now }
{
    match key {
        Key::Null => matches!(item, Item::Null),
        Key::Boolean(b) => matches!(item, Item::Bool(c) if c == b),
        Key::Number(m) => match item {
            Item::Int(n) => n.units() == *m,
            Item::Dec(n) => n.get() == *m,
            _ => false,
        },
        Key::Text(t) => match item {
            Item::Text(u) => matches!(u.cmp(t), Ordering::Equal),
            _ => false,
        },
        Key::Date(d) => match item {
            Item::Date(e) => matches!(e.cmp(d), Ordering::Equal),
            _ => false,
        },
        Key::DateTime(t) => match item {
            Item::DateTime(u) => matches!(u.cmp(t), Ordering::Equal),
            _ => false,
        },
    }
}
