//! What items hold at any depth. An item is at most 128 deep, so these recursions are too.

ghost use Rattle.std.specs.Prelude.{◌≡◌, ◌++◌, ◌∷◌, [], Ok, IfOk, IfErr, OnOk};
ghost use Rattle.std.specs.List.{filter};
ghost use Rattle.item_tree.specs.Datum.{values, members};
ghost use Rattle.item_tree.specs.Item.{datum, datums, pair_datums};
ghost use Rattle.value_rules.specs.Operands.{FailsWith};
ghost use Rattle.value_rules.specs.Objects as objects;
ghost use Rattle.fn_objects.specs.inside.Nesting.{is_wanted};

use item_tree::{Item, NoMemory, OpFault, Str};
use std::alloc::Global;

/// The items with the members of each array in its place, at every depth of arrays.
pub fn flatten(alloc: Global, s: &[Item]) -> Result<Vec<Item>, OpFault>
    ensures value { IfOk result (λ xs. objects.flatten (datums s.now) ≡ Ok (datums xs.items)) }
    ensures fault { IfErr result (FailsWith (objects.flatten (datums s.now))) }
{
    let mut found = Vec::new(alloc);
    flatten_items(&mut found, s)?;
    Ok(found)
}

#[cycle(flat)]
fn flatten_items(out: &mut Vec<Item>, items: &[Item]) -> Result<(), NoMemory>
    ensures { OnOk result (datums out.new.items
        ≡ datums out.old.items ++ objects.flat_data (values (datums items.now))) }
{
    for x in items {
        flatten_item(out, x)?;
    }
    Ok(())
}

#[cycle(flat)]
fn flatten_item(out: &mut Vec<Item>, x: &Item) -> Result<(), NoMemory>
    ensures { OnOk result
        (datums out.new.items ≡ datums out.old.items ++ objects.flat (datum x.now)) }
{
    match x {
        Item::Array(items) => flatten_items(out, items.as_slice()),
        Item::Null
        | Item::Bool(_)
        | Item::Int(_)
        | Item::Dec(_)
        | Item::Text(_)
        | Item::Date(_)
        | Item::DateTime(_)
        | Item::Object(_) => {
            out.push(x.copy()?)?;
            Ok(())
        }
    }
}

/// All objects among the items and inside them, an outer one before what is inside it.
pub fn descendant_objects(alloc: Global, s: &[Item]) -> Result<Vec<Item>, OpFault>
    ensures value { IfOk result
        (λ xs. objects.descendant_objects (datums s.now) ≡ Ok (datums xs.items)) }
    ensures fault { IfErr result (FailsWith (objects.descendant_objects (datums s.now))) }
{
    let mut found = Vec::new(alloc);
    find_in_items(&mut found, Wanted::Objects, s)?;
    Ok(found)
}

/// All arrays among the items and inside them, an outer one before what is inside it.
pub fn descendant_arrays(alloc: Global, s: &[Item]) -> Result<Vec<Item>, OpFault>
    ensures value { IfOk result
        (λ xs. objects.descendant_arrays (datums s.now) ≡ Ok (datums xs.items)) }
    ensures fault { IfErr result (FailsWith (objects.descendant_arrays (datums s.now))) }
{
    let mut found = Vec::new(alloc);
    find_in_items(&mut found, Wanted::Arrays, s)?;
    Ok(found)
}

/// What is looked for.
#[derive(Clone, Copy)]
enum Wanted {
    Objects,
    Arrays,
}

fn is_wanted(wanted: Wanted, x: &Item) -> bool
    ensures { result ≡ is_wanted wanted (datum x.now) }
{
    match wanted {
        Wanted::Objects => matches!(x, Item::Object(_)),
        Wanted::Arrays => matches!(x, Item::Array(_)),
    }
}

// The item itself, where it is wanted.
fn find_here(out: &mut Vec<Item>, wanted: Wanted, x: &Item) -> Result<(), NoMemory>
    ensures { OnOk result (datums out.new.items
        ≡ datums out.old.items ++ filter (is_wanted wanted) (datum x.now ∷ [])) }
{
    if is_wanted(wanted, x) {
        out.push(x.copy()?)?;
    }
    Ok(())
}

#[cycle(found)]
fn find_in_items(out: &mut Vec<Item>, wanted: Wanted, items: &[Item]) -> Result<(), NoMemory>
    ensures { OnOk result (datums out.new.items ≡ datums out.old.items
        ++ filter (is_wanted wanted) (objects.parts_of_data (values (datums items.now)))) }
{
    for x in items {
        find_in_item(out, wanted, x)?;
    }
    Ok(())
}

#[cycle(found)]
fn find_in_pairs(out: &mut Vec<Item>, wanted: Wanted, pairs: &[(Str, Item)]) -> Result<(), NoMemory>
    ensures { OnOk result (datums out.new.items ≡ datums out.old.items
        ++ filter (is_wanted wanted) (objects.parts_of_members (members (pair_datums pairs.now)))) }
{
    for p in pairs {
        find_in_item(out, wanted, &p.1)?;
    }
    Ok(())
}

#[cycle(found)]
fn find_in_item(out: &mut Vec<Item>, wanted: Wanted, x: &Item) -> Result<(), NoMemory>
    ensures { OnOk result (datums out.new.items
        ≡ datums out.old.items ++ filter (is_wanted wanted) (objects.parts (datum x.now))) }
{
    find_here(out, wanted, x)?;
    match x {
        Item::Array(items) => find_in_items(out, wanted, items.as_slice()),
        Item::Object(pairs) => find_in_pairs(out, wanted, pairs.as_slice()),
        Item::Null
        | Item::Bool(_)
        | Item::Int(_)
        | Item::Dec(_)
        | Item::Text(_)
        | Item::Date(_)
        | Item::DateTime(_) => Ok(()),
    }
}
