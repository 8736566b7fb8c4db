//! What objects and arrays hold, one level down.

ghost use Rattle.std.specs.Prelude.{◌≡◌, ◌++◌, ◌∷◌, [], Ok, IfOk, IfErr, OnOk, map};
ghost use Rattle.item_tree.specs.Item.{datum, datums, pair_datums};
ghost use Rattle.value_rules.specs.Operands.{FailsWith};
ghost use Rattle.value_rules.specs.Objects as objects;

use crate::copies::{alone, append};
use item_tree::{Code, Item, NoMemory, OpFault, Str, Whole};
use std::alloc::Global;

// The pairs of an object; none of another item.
pub(crate) fn pairs_of(x: &Item) -> &[(Str, Item)]
    ensures { pair_datums result.now ≡ objects.pairs_of (datum x.now) }
{
    match x {
        Item::Object(pairs) => pairs.as_slice(),
        Item::Null
        | Item::Bool(_)
        | Item::Int(_)
        | Item::Dec(_)
        | Item::Text(_)
        | Item::Date(_)
        | Item::DateTime(_)
        | Item::Array(_) => &[],
    }
}

// The members of an array; none of another item.
fn members_of(x: &Item) -> &[Item]
    ensures { datums result.now ≡ objects.members_of (datum x.now) }
{
    match x {
        Item::Array(items) => items.as_slice(),
        Item::Null
        | Item::Bool(_)
        | Item::Int(_)
        | Item::Dec(_)
        | Item::Text(_)
        | Item::Date(_)
        | Item::DateTime(_)
        | Item::Object(_) => &[],
    }
}

/// The values of all objects, in order.
pub fn values(alloc: Global, s: &[Item]) -> Result<Vec<Item>, OpFault>
    ensures value { IfOk result (λ xs. objects.values (datums s.now) ≡ Ok (datums xs.items)) }
    ensures fault { IfErr result (FailsWith (objects.values (datums s.now))) }
{
    let mut found = Vec::new(alloc);
    for x in s {
        append_values(&mut found, pairs_of(x))?;
    }
    Ok(found)
}

fn append_values(out: &mut Vec<Item>, pairs: &[(Str, Item)]) -> Result<(), NoMemory>
    ensures { OnOk result
        (datums out.new.items ≡ datums out.old.items ++ map (λ p. p.1) (pair_datums pairs.now)) }
{
    for p in pairs {
        out.push(p.1.copy()?)?;
    }
    Ok(())
}

/// The members of all arrays, in order.
pub fn members(alloc: Global, s: &[Item]) -> Result<Vec<Item>, OpFault>
    ensures value { IfOk result (λ xs. objects.members (datums s.now) ≡ Ok (datums xs.items)) }
    ensures fault { IfErr result (FailsWith (objects.members (datums s.now))) }
{
    let mut found = Vec::new(alloc);
    for x in s {
        append(&mut found, members_of(x))?;
    }
    Ok(found)
}

/// How many members the one array has; nothing where there is no item. Anything else is `XPTY0004`.
pub fn size(alloc: Global, s: &[Item]) -> Result<Vec<Item>, OpFault>
    ensures value { IfOk result (λ xs. objects.size (datums s.now) ≡ Ok (datums xs.items)) }
    ensures fault { IfErr result (FailsWith (objects.size (datums s.now))) }
{
    match s {
        [] => Ok(Vec::new(alloc)),
        [x] => size_of_one(alloc, x),
        [_, _, ..] => Err(OpFault::Raised(Code::XPTY0004)),
    }
}

fn size_of_one(alloc: Global, x: &Item) -> Result<Vec<Item>, OpFault>
    ensures value { IfOk result (λ xs. objects.size (datum x.now ∷ []) ≡ Ok (datums xs.items)) }
    ensures fault { IfErr result (FailsWith (objects.size (datum x.now ∷ []))) }
{
    match x {
        Item::Array(items) => {
            let size = items.as_slice().len();
            Ok(alone(alloc, Item::Int(Whole::new(size as i128)))?)
        }
        Item::Null
        | Item::Bool(_)
        | Item::Int(_)
        | Item::Dec(_)
        | Item::Text(_)
        | Item::Date(_)
        | Item::DateTime(_)
        | Item::Object(_) => Err(OpFault::Raised(Code::XPTY0004)),
    }
}
