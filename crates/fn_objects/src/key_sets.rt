//! Sets of keys. They are ordered ones, since strangers choose the keys: no choice of keys makes a
//! search in them slow.

ghost use Rattle.std.specs.Prelude.{◌≡◌, ℕ, ◌++◌, ◌∷◌, [], List, Ok, IfOk, IfErr, OnOk, map};
ghost use Rattle.item_tree.specs.Item.{datums, pair_datums};
ghost use Rattle.value_rules.specs.Operands.{FailsWith};
ghost use Rattle.value_rules.specs.Objects as objects;
ghost use Rattle.fn_objects.specs.inside.KeySets.{HasKeys};

use crate::contents::pairs_of;
use item_tree::{Item, NoMemory, OpFault, Str};
use std::alloc::Global;
use std::collections::BTreeSet;

/// The different keys of all objects, each where it stands first.
pub fn keys(alloc: Global, s: &[Item]) -> Result<Vec<Item>, OpFault>
    ensures value { IfOk result (λ xs. objects.keys (datums s.now) ≡ Ok (datums xs.items)) }
    ensures fault { IfErr result (FailsWith (objects.keys (datums s.now))) }
{
    let mut seen = BTreeSet::new(alloc);
    let mut found = Vec::new(alloc);
    for x in s {
        add_keys(&mut seen, &mut found, pairs_of(x))?;
    }
    Ok(found)
}

fn add_keys(
    seen: &mut BTreeSet<Str>,
    found: &mut Vec<Item>,
    pairs: &[(Str, Item)],
) -> Result<(), NoMemory>
    ensures { (ks : List (List ℕ)) → HasKeys seen.old found.old.items ks → OnOk result
        (HasKeys seen.new found.new.items (ks ++ map (λ p. p.0) (pair_datums pairs.now))) }
{
    for p in pairs {
        add_key(seen, found, &p.0)?;
    }
    Ok(())
}

fn add_key(seen: &mut BTreeSet<Str>, found: &mut Vec<Item>, key: &Str) -> Result<(), NoMemory>
    ensures { (ks : List (List ℕ)) → HasKeys seen.old found.old.items ks
        → OnOk result (HasKeys seen.new found.new.items (ks ++ key.now ∷ [])) }
{
    if seen.insert(key.copy()?)? {
        found.push(Item::Text(key.copy()?))?;
    }
    Ok(())
}
