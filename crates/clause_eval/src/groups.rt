//! Tuples put into groups: the table of groups is told their positions, and the tuples stay where
//! they are.

ghost use Rattle.std.specs.Prelude.{◌≡◌, ◌++◌, List, [], ◌∷◌, Ok, map, IfOk};
ghost use Rattle.std.specs.List.{range_with_len, flat_map};
ghost use Rattle.item_tree.specs.Item.{datum, datums};
ghost use Rattle.tuple_rows.specs.Keys.{Keyed, key_list};
ghost use Rattle.tuple_rows.specs.Tuples.{sequence, sequences, row_list};
ghost use Rattle.group_table.specs.Groups.{slot, first_slot, has_slot, group_rows};
ghost use Rattle.group_table.specs.Grouping.{StandsFor};
ghost use Rattle.order_runs.specs.Orders.{rows};
ghost use Rattle.query_tree.specs.Bindings.{numbers_of};
ghost use Rattle.query_meaning.specs.inside.Gives.{Gives};
ghost use Rattle.query_meaning.specs.inside.Views.{items_of, tuple_of, values_of};
ghost use Rattle.clause_eval.specs.Frames.{frame_tuple, frame_tuples, tuples_of, keyed_list};
ghost use Rattle.clause_eval.specs.Grouping.{HasKeys, AllHaveKeys, IsShaped, IsTable};
ghost use Rattle.clause_eval.specs.Positions.{behind, position, numbers_from, blanks, position_row, numbered, tuple_at, with_values, first_written, values_written, slot_of_all, slots_from, read_group};

use crate::frames::{put, written};
use crate::results::nothing;
use crate::tuples::Frame;
use group_table::GroupTable;
use item_tree::{Item, NoMemory, Whole};
use query_meaning::{EvalFault, Value, copied};
use query_tree::Slot;
use std::alloc::Global;
use tuple_rows::Tuple;

/// The numbers of local slots.
pub(crate) fn numbers_of(alloc: Global, slots: &[Slot]) -> Result<Vec<u32>, EvalFault>
    ensures { Gives (λ v. v.items) result (Ok (numbers_of slots.now)) }
{
    let mut numbers = Vec::with_capacity(alloc, slots.len())?;
    for slot in slots {
        if let Slot::Local(n) = *slot {
            numbers.push(n)?;
        }
    }
    Ok(numbers)
}

// So many slots, none of which is joined.
fn no_flags(alloc: Global, width: usize) -> Result<Vec<bool>, EvalFault>
    ensures { Gives (λ v. v.items) result
        (Ok (map (has_slot []) (range_with_len 0 width))) }
{
    let mut flags = Vec::with_capacity(alloc, width)?;
    for slot in 0..width {
        flags.push(false)?;
    }
    Ok(flags)
}

/// Of each of so many slots, whether it is joined.
pub(crate) fn joined_flags(
    alloc: Global,
    width: usize,
    joined: &[u32],
) -> Result<Vec<bool>, EvalFault>
    ensures { Gives (λ v. v.items) result
        (Ok (map (has_slot joined.now) (range_with_len 0 width))) }
{
    let mut flags = no_flags(alloc, width)?;
    for slot in joined {
        put(&mut flags, *slot as usize, true);
    }
    Ok(flags)
}

// The numbers of so many slots of keys in the table, from 1.
#[tactic(auto, using(crate::proofs::Ranges::numbers_next))]
fn key_slots(alloc: Global, count: usize) -> Result<Vec<u32>, NoMemory>
    ensures { IfOk result (λ v. v.items ≡ numbers_from 1 count) }
{
    if count >= u32::MAX as usize {
        return Err(NoMemory);
    }
    let mut slots = Vec::with_capacity(alloc, count)?;
    for n in 0..count {
        slots.push(n as u32 + 1)?;
    }
    Ok(slots)
}

// So many empty lists behind others.
#[tactic(auto, using(crate::proofs::Ranges::blanks_pushed))]
fn with_blanks(
    alloc: Global,
    count: usize,
    slots: Vec<Vec<Item>>,
) -> Result<Vec<Vec<Item>>, NoMemory>
    ensures { IfOk result
        (λ v. map sequence v.items ≡ map sequence slots.items ++ blanks count) }
{
    let mut slots = slots;
    for slot in 0..count {
        slots.push(Vec::new(alloc))?;
    }
    Ok(slots)
}

// What the table is told of a tuple at a position.
fn position_tuple(alloc: Global, count: usize, n: u64) -> Result<Tuple, NoMemory>
    ensures { IfOk result (λ t. sequences t ≡ position_row count n) }
{
    let place = vec![in alloc; Item::Int(Whole::new(i128::from(n)))]?;
    let slots = with_blanks(alloc, count, vec![in alloc; place]?)?;
    Ok(Tuple { slots })
}

// A position that the table tells.
fn position_of(item: &Item) -> Result<usize, EvalFault>
    ensures { Gives (λ n. n) result (Ok (position (datum item.now))) }
{
    match item {
        Item::Int(n) => {
            let n = n.get();
            if 0 <= n && n <= usize::MAX as i128 {
                Ok(n as usize)
            } else {
                Err(EvalFault::NoMemory)
            }
        }
        _ => Err(EvalFault::NoMemory),
    }
}

fn positions_of(alloc: Global, items: &[Item]) -> Result<Vec<usize>, EvalFault>
    ensures { Gives (λ v. v.items) result (Ok (map position (datums items.now))) }
{
    let mut places = Vec::with_capacity(alloc, items.len())?;
    for item in items {
        places.push(position_of(item)?)?;
    }
    Ok(places)
}

// A slot of a tuple; one that is not there is empty.
fn slot_items<'f>(frame: &'f Frame<'_>, i: usize) -> &'f [Item]
    ensures { datums result.now ≡ slot i (frame_tuple frame.now) }
{
    match frame.slots.get(i) {
        None => &[],
        Some(value) => value.items(),
    }
}

// The same of the tuple at a position.
fn items_at<'f>(frames: &'f [Frame<'_>], place: usize, i: usize) -> &'f [Item]
    ensures { datums result.now ≡ slot i (tuple_at (frame_tuples frames.now) place) }
{
    match frames.get(place) {
        None => &[],
        Some(frame) => slot_items(frame, i),
    }
}

// The items of a slot of all these tuples.
fn joined_items(
    alloc: Global,
    frames: &[Frame<'_>],
    places: &[usize],
    i: usize,
) -> Result<Vec<Item>, EvalFault>
    ensures { Gives values_of result
        (Ok (flat_map (slot i) (map (tuple_at (frame_tuples frames.now)) places.now))) }
{
    let mut out = Vec::new(alloc);
    for place in places {
        let mut more = copied(alloc, items_at(frames, *place, i))?;
        out.append(&mut more)?;
    }
    Ok(out)
}

// A slot of a tuple, as it is kept in another.
fn slot_again<'a>(alloc: Global, frame: &Frame<'a>, i: usize) -> Result<Value<'a>, EvalFault>
    ensures { Gives items_of result (Ok (slot i (frame_tuple frame.now))) }
{
    match frame.slots.get(i) {
        None => Ok(nothing()),
        Some(value) => value.again(alloc),
    }
}

fn value_at<'a>(
    alloc: Global,
    frames: &[Frame<'a>],
    place: usize,
    i: usize,
) -> Result<Value<'a>, EvalFault>
    ensures { Gives items_of result (Ok (slot i (tuple_at (frame_tuples frames.now) place))) }
{
    match frames.get(place) {
        None => Ok(nothing()),
        Some(frame) => slot_again(alloc, frame, i),
    }
}

// A slot of the first of these tuples.
fn first_value<'a>(
    alloc: Global,
    frames: &[Frame<'a>],
    places: &[usize],
    i: usize,
) -> Result<Value<'a>, EvalFault>
    ensures { Gives items_of result
        (Ok (first_slot i (map (tuple_at (frame_tuples frames.now)) places.now))) }
{
    match places {
        [] => Ok(nothing()),
        [place, ..] => value_at(alloc, frames, *place, i),
    }
}

// A slot of a group.
fn group_value<'a>(
    alloc: Global,
    joined: bool,
    frames: &[Frame<'a>],
    places: &[usize],
    i: usize,
) -> Result<Value<'a>, EvalFault>
    ensures { Gives items_of result
        (Ok (slot_of_all joined i (map (tuple_at (frame_tuples frames.now)) places.now))) }
{
    if !joined {
        return first_value(alloc, frames, places, i);
    }
    let items = joined_items(alloc, frames, places, i)?;
    Value::Made(items).settled(alloc)
}

// The slots of a group.
fn group_slots<'a>(
    alloc: Global,
    flags: &[bool],
    frames: &[Frame<'a>],
    places: &[usize],
) -> Result<Vec<Value<'a>>, EvalFault>
    ensures { Gives (λ v. tuple_of v.items) result
        (Ok (slots_from 0 flags.now (map (tuple_at (frame_tuples frames.now)) places.now))) }
{
    let mut slots = Vec::with_capacity(alloc, flags.len())?;
    let mut i = 0;
    for joined in flags {
        slots.push(group_value(alloc, *joined, frames, places, i)?)?;
        i += 1;
    }
    Ok(slots)
}

// The same with a value in the first of these slots.
fn with_first<'a>(
    alloc: Global,
    numbers: &[u32],
    items: Vec<Item>,
    slots: Vec<Value<'a>>,
) -> Result<Vec<Value<'a>>, EvalFault>
    ensures { Gives (λ v. tuple_of v.items) result
        (Ok (first_written numbers.now (sequence items) (tuple_of slots.entry.items))) }
{
    match numbers {
        [] => Ok(slots),
        [number, ..] => written(alloc, slots, Slot::Local(*number), Value::Made(items)),
    }
}

// The numbers behind the first.
fn behind(numbers: &[u32]) -> &[u32]
    ensures { result.now ≡ behind numbers.now }
{
    match numbers {
        [] => numbers,
        [_, rest @ ..] => rest,
    }
}

// The same with these values in their slots, value by value.
fn values_written<'a>(
    alloc: Global,
    numbers: &[u32],
    values: Vec<Vec<Item>>,
    slots: Vec<Value<'a>>,
) -> Result<Vec<Value<'a>>, EvalFault>
    ensures { Gives (λ v. tuple_of v.items) result
        (Ok (values_written numbers.now (map sequence values.items) (tuple_of slots.entry.items))) }
{
    let mut slots = slots;
    let mut left = numbers;
    for items in values {
        slots = with_first(alloc, left, items, slots)?;
        left = behind(left);
    }
    Ok(slots)
}

// The same with the values of the keys in their slots.
#[tactic(auto, using(crate::proofs::ValueSteps::all_written))]
fn with_values<'a>(
    alloc: Global,
    numbers: &[u32],
    values: Vec<Vec<Item>>,
    slots: Vec<Value<'a>>,
) -> Result<Vec<Value<'a>>, EvalFault>
    ensures { Gives (λ v. tuple_of v.items) result
        (Ok (with_values numbers.now (map sequence values.items) (tuple_of slots.entry.items))) }
{
    values_written(alloc, numbers, values, slots)
}

// The first list, and the others.
fn split(slots: Vec<Vec<Item>>) -> Result<(Vec<Item>, Vec<Vec<Item>>), NoMemory>
    ensures { IfOk result
        (λ p. map sequence slots.items ≡ sequence p.0 ∷ map sequence p.1.items) }
{
    let mut slots = slots;
    if slots.is_empty() {
        return Err(NoMemory);
    }
    let first = slots.remove(0);
    Ok((first, slots))
}

// The tuple of a group, from what the table tells of it.
fn read_group<'a>(
    alloc: Global,
    flags: &[bool],
    numbers: &[u32],
    frames: &[Frame<'a>],
    row: Tuple,
) -> Result<Frame<'a>, EvalFault>
    ensures { Gives frame_tuple result (Ok (read_group flags.now numbers.now
        (frame_tuples frames.now) (sequences row))) }
{
    let (first, values) = split(row.slots)?;
    let places = positions_of(alloc, first.as_slice())?;
    let slots = group_slots(alloc, flags, frames, places.as_slice())?;
    let slots = with_values(alloc, numbers, values, slots)?;
    Ok(Frame { slots })
}

fn read_groups<'a>(
    alloc: Global,
    flags: &[bool],
    numbers: &[u32],
    frames: &[Frame<'a>],
    rows: Vec<Tuple>,
) -> Result<Vec<Frame<'a>>, EvalFault>
    ensures { Gives tuples_of result (Ok (map (read_group flags.now numbers.now
        (frame_tuples frames.now)) (row_list rows.items))) }
{
    let mut out = Vec::with_capacity(alloc, rows.len())?;
    for row in rows {
        out.push(read_group(alloc, flags, numbers, frames, row)?)?;
    }
    Ok(out)
}

/// The groups so far, and the tuples in order.
#[derive(Drop)]
struct Table<'a> {
    groups: GroupTable,
    frames: Vec<Frame<'a>>,
}

// No tuples with so many keys.
#[tactic(auto, using(crate::proofs::Keyed::slots_below))]
fn empty_table<'a>(alloc: Global, seed: u64, count: usize) -> Result<Table<'a>, NoMemory>
    ensures groups { IfOk result (λ t. IsTable count [] t) }
{
    let mut joined = Vec::with_capacity(alloc, 1)?;
    joined.push(0)?;
    let keys = key_slots(alloc, count)?;
    let width = match count.checked_add(1) {
        None => return Err(NoMemory),
        Some(width) => width,
    };
    Ok(Table {
        groups: GroupTable::seeded(alloc, width, keys, joined, seed),
        frames: Vec::new(alloc),
    })
}

// One more tuple.
#[tactic(auto, using(crate::proofs::Ranges::numbers_length, crate::proofs::Ranges::blanks_length))]
fn with_entry<'a>(
    alloc: Global,
    count: usize,
    position: u64,
    entry: (Vec<Option<Item>>, Frame<'a>),
    table: Table<'a>,
) -> Result<Table<'a>, NoMemory>
    requires keys { HasKeys count entry }
    requires shape { IsShaped count table.groups }
    ensures shape { IfOk result (λ t. IsShaped count t.groups) }
    ensures stands { IfOk result (λ t. (X : List Keyed) → StandsFor table.entry.groups X
        → StandsFor t.groups (X ++ (key_list entry.entry.0, position_row count position) ∷ [])) }
    ensures frames { IfOk result
        (λ t. tuples_of t.frames ≡ tuples_of table.entry.frames ++ frame_tuple entry.entry.1 ∷ []) }
{
    let Table {
        mut groups,
        mut frames,
    } = table;
    let (keys, frame) = entry;
    let tuple = position_tuple(alloc, count, position)?;
    groups.add(keys, tuple)?;
    frames.push(frame)?;
    Ok(Table { groups, frames })
}

// The groups of all these tuples.
fn table_of<'a>(
    alloc: Global,
    seed: u64,
    count: usize,
    entries: Vec<(Vec<Option<Item>>, Frame<'a>)>,
) -> Result<Table<'a>, NoMemory>
    requires { AllHaveKeys count entries.items }
    ensures { IfOk result (λ t. IsTable count entries.entry.items t) }
{
    let total = entries.len();
    let mut table = empty_table(alloc, seed, count)?;
    let mut position = 0;
    for entry in entries {
        table = with_entry(alloc, count, position, entry, table)?;
        position += 1;
    }
    Ok(table)
}

/// The tuples of the groups of these, where of each slot it is known whether it is joined, and the
/// variables of the keys have these slots. The hashes of keys depend on the seed.
#[tactic(auto, using(crate::proofs::Grouped::groups_read))]
pub(crate) fn grouped<'a>(
    alloc: Global,
    seed: u64,
    count: usize,
    width: usize,
    joined: &[u32],
    numbers: &[u32],
    entries: Vec<(Vec<Option<Item>>, Frame<'a>)>,
) -> Result<Vec<Frame<'a>>, EvalFault>
    requires { AllHaveKeys count entries.items }
    ensures { Gives tuples_of result
        (Ok (group_rows width numbers.now joined.now (keyed_list entries.entry.items))) }
{
    let flags = joined_flags(alloc, width, joined)?;
    let Table { groups, frames } = table_of(alloc, seed, count, entries)?;
    let rows = groups.into_rows()?.into_tuples();
    read_groups(alloc, flags.as_slice(), numbers, frames.as_slice(), rows)
}
