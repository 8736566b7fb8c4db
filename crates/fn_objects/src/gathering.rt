//! One object of all objects.

ghost use Rattle.std.specs.Prelude.{◌≡◌, ◌≤◌, ℕ, List, ◌++◌, ◌∷◌, [], Ok, IfOk, IfErr, OnOk};
ghost use Rattle.item_tree.specs.Datum.{Datum, KeysDiffer, array_of_list, object_of_pairs, depth as depth_of};
ghost use Rattle.item_tree.specs.Item.{datum, datums, pair_datums};
ghost use Rattle.value_rules.specs.Objects as objects;
ghost use Rattle.fn_objects.specs.Faults.{MayFailWith};
ghost use Rattle.fn_objects.specs.inside.Groups.{IsGrouped, IsTaken, IsTooDeep, values_in, group_pairs};

use crate::contents::pairs_of;
use crate::copies::{alone, append};
use item_tree::{Code, Item, MakeFault, NoMemory, OpFault, Str, array_of, object_of};
use std::alloc::Global;
use std::collections::BTreeMap;

/// One object of all objects: each key where it stands first, with its value, or with the array of
/// its values where there are several. An object that would be more than 128 deep is `PJDY0002`.
///
/// Memory may run out before that error is found.
pub fn accumulate(alloc: Global, s: &[Item]) -> Result<Vec<Item>, OpFault>
    ensures value { IfOk result
        (λ xs. objects.accumulate (datums s.now) ≡ Ok (datums xs.items)) }
    ensures fault { IfErr result (MayFailWith (objects.accumulate (datums s.now))) }
{
    let groups = all_groups(alloc, s)?;
    let pairs = groups.pairs(alloc)?;
    let object = made(alloc, pairs)?;
    Ok(alone(alloc, object)?)
}

fn all_groups(alloc: Global, s: &[Item]) -> Result<Groups, NoMemory>
    ensures { IfOk result (λ groups. IsGrouped groups (objects.all_pairs (datums s.now))) }
{
    let mut groups = Groups::new(alloc);
    for x in s {
        groups.add_all(alloc, pairs_of(x))?;
    }
    Ok(groups)
}

// The value that stands for these, of which there is one at least.
fn gathered(alloc: Global, values: &[Item]) -> Result<Item, OpFault>
    ensures value { IfOk result (λ x. datum x ≡ objects.gathered (datums values.now)) }
    ensures fault { IfErr result (IsTooDeep (objects.gathered (datums values.now))) }
{
    match values {
        [x] => Ok(x.copy()?),
        [] | [_, _, ..] => gathered_array(alloc, values),
    }
}

fn gathered_array(alloc: Global, values: &[Item]) -> Result<Item, OpFault>
    ensures value { IfOk result (λ x. datum x ≡ array_of_list (datums values.now)) }
    ensures fault { IfErr result (IsTooDeep (array_of_list (datums values.now))) }
{
    let mut members = Vec::with_capacity(alloc, values.len())?;
    append(&mut members, values)?;
    match array_of(alloc, members) {
        Ok(array) => Ok(array),
        Err(MakeFault::TooDeep) => Err(OpFault::Raised(Code::PJDY0002)),
        Err(MakeFault::NoMemory) => Err(OpFault::NoMemory),
        Err(MakeFault::KeyTwice { .. }) => unreachable!(),
    }
}

// The object of these pairs, whose keys differ.
fn made(alloc: Global, pairs: Vec<(Str, Item)>) -> Result<Item, OpFault>
    requires { KeysDiffer (pair_datums pairs.items) }
    ensures value { IfOk result (λ x. datum x ≡ object_of_pairs (pair_datums pairs.items)) }
    ensures fault { IfErr result (IsTooDeep (object_of_pairs (pair_datums pairs.items))) }
    ensures depth { IfOk result (λ x. depth_of (datum x) ≤ 128) }
{
    match object_of(alloc, pairs) {
        Ok(object) => {
            // It tells the proof how deep an item may be.
            let _depth = object.depth();
            Ok(object)
        }
        Err(MakeFault::TooDeep) => Err(OpFault::Raised(Code::PJDY0002)),
        Err(MakeFault::NoMemory) => Err(OpFault::NoMemory),
        Err(MakeFault::KeyTwice { .. }) => unreachable!(),
    }
}

// The different keys in order of first appearance, and the values of each.
#[derive(Drop)]
struct Groups {
    keys: Vec<Str>,
    values: BTreeMap<Str, Vec<Item>>,
}

impl Groups {
    fn new(alloc: Global) -> Groups
        ensures { IsGrouped result [] }
    {
        Groups {
            keys: Vec::new(alloc),
            values: BTreeMap::new(alloc),
        }
    }

    fn add_all(&mut self, alloc: Global, pairs: &[(Str, Item)]) -> Result<(), NoMemory>
        ensures { (ps : List (List ℕ × Datum)) → IsGrouped self.old ps
            → OnOk result (IsGrouped self.new (ps ++ pair_datums pairs.now)) }
    {
        for p in pairs {
            self.add(alloc, &p.0, &p.1)?;
        }
        Ok(())
    }

    fn add(&mut self, alloc: Global, key: &Str, value: &Item) -> Result<(), NoMemory>
        ensures { (ps : List (List ℕ × Datum)) → IsGrouped self.old ps
            → OnOk result (IsGrouped self.new (ps ++ (key.now, datum value.now) ∷ [])) }
    {
        let mut values = self.take(alloc, key)?;
        values.push(value.copy()?)?;
        self.values.insert(key.copy()?, values)?;
        Ok(())
    }

    // The values of a key, to be put back with a further one. A new key goes last.
    fn take(&mut self, alloc: Global, key: &Str) -> Result<Vec<Item>, NoMemory>
        ensures { (ps : List (List ℕ × Datum)) → IsGrouped self.old ps
            → IfOk result (λ values. IsTaken self.new ps key.now values.items) }
    {
        match self.values.remove(key) {
            Some(values) => Ok(values),
            None => {
                self.keys.push(key.copy()?)?;
                Ok(Vec::new(alloc))
            }
        }
    }

    fn values_of(&self, key: &Str) -> &[Item]
        ensures { datums result.now ≡ values_in self.now key.now }
    {
        match self.values.get(key) {
            None => &[],
            Some(values) => values.as_slice(),
        }
    }

    // The pairs of the object, or an error where a value is too deep for any object.
    fn pairs(&self, alloc: Global) -> Result<Vec<(Str, Item)>, OpFault>
        ensures value { IfOk result (λ ps. pair_datums ps.items ≡ group_pairs self.now) }
        ensures fault { IfErr result (IsTooDeep (object_of_pairs (group_pairs self.now))) }
    {
        let mut pairs = Vec::with_capacity(alloc, self.keys.len())?;
        for key in &self.keys {
            let value = gathered(alloc, self.values_of(key))?;
            pairs.push((key.copy()?, value))?;
        }
        Ok(pairs)
    }
}
