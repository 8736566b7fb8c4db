//! Functions that ask whether items are the same.

ghost use Rattle.std.specs.Prelude.{◌≡◌, Ok, Err, IfOk, IfErr, OnOk, MatchResult};
ghost use Rattle.std.specs.List.{All};
ghost use Rattle.item_tree.specs.Datum.{IsAtomic};
ghost use Rattle.item_tree.specs.Item.{datum, datums};
ghost use Rattle.value_rules.specs.Operands.{FailsWith, atomic};
ghost use Rattle.value_rules.specs.Sequences as sequences;
ghost use Rattle.fn_sequences.specs.inside.Places.{position_values};

use crate::copies::alone;
use item_tree::{Code, Item, NoMemory, OpFault, Whole, key_of, laws, same_key};
use std::alloc::Global;
use std::collections::BTreeSet;
use value_rules::{atomic, one_atomic};

// Whether all items are atomics.
fn check_atomics(s: &[Item]) -> Result<(), Code>
    ensures value { MatchResult result
        (λ _. sequences.each atomic (datums s.now) ≡ Ok (datums s.now))
        (λ e. sequences.each atomic (datums s.now) ≡ Err e) }
    ensures atomics { OnOk result (All (λ x. IsAtomic (datum x)) s.now) }
{
    for x in s {
        atomic(x)?;
    }
    Ok(())
}

/// The first of each of the atomics that are the same. An array or an object among them is
/// `JNTY0004`.
///
/// The different ones stand in an ordered set, since strangers choose them: no choice makes a
/// search in it slow.
pub fn distinct_values(alloc: Global, s: &[Item]) -> Result<Vec<Item>, OpFault>
    ensures value { IfOk result
        (λ xs. sequences.distinct_values (datums s.now) ≡ Ok (datums xs.items)) }
    ensures fault { IfErr result (FailsWith (sequences.distinct_values (datums s.now))) }
{
    check_atomics(s)?;
    Ok(first_of_each(alloc, s)?)
}

fn first_of_each(alloc: Global, s: &[Item]) -> Result<Vec<Item>, NoMemory>
    requires { All (λ x. IsAtomic (datum x)) s.now }
    ensures { IfOk result
        (λ xs. datums xs.items ≡ sequences.firsts sequences.same_atomics (datums s.now)) }
{
    // It tells the proof when keys are equal.
    laws::keys_agree();
    let mut keys = BTreeSet::new(alloc);
    let mut firsts = Vec::new(alloc);
    for x in s {
        let key = key_of(x)?;
        if keys.insert(key)? {
            firsts.push(x.copy()?)?;
        }
    }
    Ok(firsts)
}

/// The positions of the atomics that are the same as one atomic. An array or an object among them
/// is `JNTY0004`, and is looked for before what is wanted is looked at.
pub fn index_of(alloc: Global, s: &[Item], wanted: &[Item]) -> Result<Vec<Item>, OpFault>
    ensures value { IfOk result
        (λ xs. sequences.index_of (datums s.now) (datums wanted.now) ≡ Ok (datums xs.items)) }
    ensures fault { IfErr result
        (FailsWith (sequences.index_of (datums s.now) (datums wanted.now))) }
{
    check_atomics(s)?;
    let atom = one_atomic(wanted)?;
    Ok(positions(alloc, s, atom)?)
}

fn positions(alloc: Global, s: &[Item], atom: &Item) -> Result<Vec<Item>, NoMemory>
    ensures { IfOk result
        (λ xs. datums xs.items ≡ position_values (datum atom.now) (datums s.now)) }
{
    let mut found = Vec::new(alloc);
    for i in 0..s.len() {
        if same_key(Some(&s[i]), Some(atom)) {
            found.push(Item::Int(Whole::new(i as i128 + 1)))?;
        }
    }
    Ok(found)
}

/// Whether two sequences have equal items in order.
pub fn deep_equal(alloc: Global, s: &[Item], t: &[Item]) -> Result<Vec<Item>, OpFault>
    ensures value { IfOk result
        (λ xs. sequences.deep_equal (datums s.now) (datums t.now) ≡ Ok (datums xs.items)) }
    ensures fault { IfErr result
        (FailsWith (sequences.deep_equal (datums s.now) (datums t.now))) }
{
    Ok(alone(alloc, Item::Bool(item_tree::deep_equal(s, t)))?)
}
