//! Objects with some of their pairs.

ghost use Rattle.std.specs.Prelude.{◌≡◌, ◌||◌, ℕ, List, Ok, Err, IfOk, IfErr, OnOk, MatchResult, map};
ghost use Rattle.std.specs.List.{filter};
ghost use Rattle.item_tree.specs.Datum.{object_of_pairs};
ghost use Rattle.item_tree.specs.Item.{datum, datums, pair_datums};
ghost use Rattle.value_rules.specs.Operands.{FailsWith, string_of};
ghost use Rattle.value_rules.specs.Sequences.{each};
ghost use Rattle.value_rules.specs.Objects as objects;
ghost use Rattle.fn_objects.specs.inside.KeySets.{has, HasNames};
ghost use Rattle.fn_objects.specs.inside.Choices.{string_in, strings_of, chosen};

use item_tree::{Code, Item, MakeFault, NoMemory, OpFault, Pairs, Str, object_of};
use std::alloc::Global;
use std::collections::BTreeSet;
use value_rules::string_of;

/// Which pairs of an object stay.
#[derive(Clone, Copy)]
enum Choice {
    /// Those whose keys are named.
    Named,
    /// The others.
    Others,
}

/// Each object with those pairs alone whose keys are among the names. Other items stay as they are.
///
/// The first name that is no string decides the error: `JNTY0004` for an array or an object, and
/// else `XPTY0004`.
pub fn project(alloc: Global, s: &[Item], names: &[Item]) -> Result<Vec<Item>, OpFault>
    ensures value { IfOk result
        (λ xs. objects.project (datums s.now) (datums names.now) ≡ Ok (datums xs.items)) }
    ensures fault { IfErr result
        (FailsWith (objects.project (datums s.now) (datums names.now))) }
{
    check_strings(names)?;
    let names = name_set(alloc, names)?;
    Ok(chosen_items(alloc, s, &names, Choice::Named)?)
}

/// Each object without the pairs whose keys are among the names. Other items stay as they are.
///
/// The names are checked as by `project`.
pub fn remove_keys(alloc: Global, s: &[Item], names: &[Item]) -> Result<Vec<Item>, OpFault>
    ensures value { IfOk result
        (λ xs. objects.remove_keys (datums s.now) (datums names.now) ≡ Ok (datums xs.items)) }
    ensures fault { IfErr result
        (FailsWith (objects.remove_keys (datums s.now) (datums names.now))) }
{
    check_strings(names)?;
    let names = name_set(alloc, names)?;
    Ok(chosen_items(alloc, s, &names, Choice::Others)?)
}

// Whether all items are strings.
fn check_strings(names: &[Item]) -> Result<(), Code>
    ensures { MatchResult result
        (λ _. each string_of (datums names.now) ≡ Ok (strings_of (datums names.now)))
        (λ e. each string_of (datums names.now) ≡ Err e) }
{
    for name in names {
        string_of(name)?;
    }
    Ok(())
}

// The strings among the items.
fn name_set(alloc: Global, names: &[Item]) -> Result<BTreeSet<Str>, NoMemory>
    ensures { IfOk result (λ set. HasNames set (strings_of (datums names.now))) }
{
    let mut set = BTreeSet::new(alloc);
    for name in names {
        add_name(&mut set, name)?;
    }
    Ok(set)
}

// A string goes into the set.
fn add_name(set: &mut BTreeSet<Str>, name: &Item) -> Result<(), NoMemory>
    ensures { OnOk result ((k : List ℕ)
        → has set.new k ≡ (objects.is_among (string_in (datum name.now)) k || has set.old k)) }
{
    match name {
        Item::Text(text) => {
            set.insert(text.copy()?)?;
            Ok(())
        }
        Item::Null
        | Item::Bool(_)
        | Item::Int(_)
        | Item::Dec(_)
        | Item::Date(_)
        | Item::DateTime(_)
        | Item::Array(_)
        | Item::Object(_) => Ok(()),
    }
}

fn chosen_items(
    alloc: Global,
    s: &[Item],
    names: &BTreeSet<Str>,
    choice: Choice,
) -> Result<Vec<Item>, NoMemory>
    ensures { IfOk result (λ xs. datums xs.items
        ≡ map (objects.with_keys (λ k. chosen choice (has names.now k))) (datums s.now)) }
{
    let mut items = Vec::with_capacity(alloc, s.len())?;
    for x in s {
        items.push(chosen_item(alloc, x, names, choice)?)?;
    }
    Ok(items)
}

fn chosen_item(
    alloc: Global,
    x: &Item,
    names: &BTreeSet<Str>,
    choice: Choice,
) -> Result<Item, NoMemory>
    ensures { IfOk result (λ y. datum y
        ≡ objects.with_keys (λ k. chosen choice (has names.now k)) (datum x.now)) }
{
    match x {
        Item::Object(pairs) => chosen_object(alloc, pairs, names, choice),
        Item::Null
        | Item::Bool(_)
        | Item::Int(_)
        | Item::Dec(_)
        | Item::Text(_)
        | Item::Date(_)
        | Item::DateTime(_)
        | Item::Array(_) => x.copy(),
    }
}

fn chosen_object(
    alloc: Global,
    pairs: &Pairs,
    names: &BTreeSet<Str>,
    choice: Choice,
) -> Result<Item, NoMemory>
    ensures { IfOk result (λ y. datum y ≡ object_of_pairs
        (filter (λ p. chosen choice (has names.now p.0)) pairs.now)) }
{
    match object_of(alloc, chosen_pairs(alloc, pairs.as_slice(), names, choice)?) {
        Ok(object) => Ok(object),
        Err(MakeFault::NoMemory) => Err(NoMemory),
        Err(MakeFault::KeyTwice { .. }) => unreachable!(),
        Err(MakeFault::TooDeep) => unreachable!(),
    }
}

fn chosen_pairs(
    alloc: Global,
    pairs: &[(Str, Item)],
    names: &BTreeSet<Str>,
    choice: Choice,
) -> Result<Vec<(Str, Item)>, NoMemory>
    ensures { IfOk result (λ ps. pair_datums ps.items
        ≡ filter (λ p. chosen choice (has names.now p.0)) (pair_datums pairs.now)) }
{
    let mut kept = Vec::new(alloc);
    for p in pairs {
        if is_chosen(names, choice, &p.0) {
            kept.push((p.0.copy()?, p.1.copy()?))?;
        }
    }
    Ok(kept)
}

fn is_chosen(names: &BTreeSet<Str>, choice: Choice, key: &Str) -> bool
    ensures { result ≡ chosen choice (has names.now key.now) }
{
    match choice {
        Choice::Named => names.contains(key),
        Choice::Others => !names.contains(key),
    }
}
