//! Compares atomics, and items at every depth.

ghost use Rattle.std.specs.Prelude.{◌≡◌, Some, option_map};
ghost use Rattle.item_tree.specs.Datum.{object_of_pairs};
ghost use Rattle.item_tree.specs.Item.{datum, datums, pair_datums};
ghost use Rattle.item_tree.specs.Compare.{order_if, atom, nothing, truth, number, string, day, moment, compare_atoms, same_keys, is_equal, equal, equal_lists};

use crate::{Day, Item, Moment, Pairs, Str};
use std::cmp::Ordering;

/// How two atomics compare: numbers by their value, strings by code points, dates and date-times by
/// time, false before true, and null before all else. `None` exactly where one is no atomic, or
/// where their classes (string, number, boolean, date, date-time) differ and neither is null.
pub fn cmp_atoms(a: &Item, b: &Item) -> Option<Ordering>
    ensures { result ≡ compare_atoms (datum a.now) (datum b.now) }
{
    match a {
        Item::Null => null_cmp(b),
        Item::Bool(x) => bool_cmp(*x, b),
        Item::Int(n) => number_cmp(n.units(), b),
        Item::Dec(n) => number_cmp(n.get(), b),
        Item::Text(x) => text_cmp(x, b),
        Item::Date(x) => date_cmp(x, b),
        Item::DateTime(x) => date_time_cmp(x, b),
        Item::Array(_) | Item::Object(_) => None,
    }
}

/// Whether two keys of a grouping, each one atomic or absent, are the same: both absent, or both
/// present and equal.
pub fn same_key(a: Option<&Item>, b: Option<&Item>) -> bool
    ensures { result
        ≡ same_keys (option_map (λ x. datum x.now) a.entry)
        (option_map (λ x. datum x.now) b.entry) }
{
    match a {
        None => b.is_none(),
        Some(x) => match b {
            None => false,
            Some(y) => equal_atoms(x, y),
        },
    }
}

/// Whether two sequences have equal items in order: numbers by their value, arrays member by
/// member, and objects by equal keys with equal values in any order.
#[cycle(equal)]
pub fn deep_equal(a: &[Item], b: &[Item]) -> bool
    ensures { result ≡ equal_lists (datums a.now) (datums b.now) }
{
    if a.len() != b.len() {
        return false;
    }
    for i in 0..a.len() {
        if !equal_items(&a[i], &b[i]) {
            return false;
        }
    }
    true
}

#[cycle(equal)]
fn equal_items(a: &Item, b: &Item) -> bool
    ensures { result ≡ equal (datum a.now) (datum b.now) }
{
    match a {
        Item::Array(xs) => match b {
            Item::Array(ys) => deep_equal(xs.as_slice(), ys.as_slice()),
            _ => false,
        },
        Item::Object(ps) => match b {
            Item::Object(qs) => equal_pairs(ps.as_slice(), qs),
            _ => false,
        },
        Item::Null
        | Item::Bool(_)
        | Item::Int(_)
        | Item::Dec(_)
        | Item::Text(_)
        | Item::Date(_)
        | Item::DateTime(_) => equal_atoms(a, b),
    }
}

#[cycle(equal)]
fn equal_pairs(a: &[(Str, Item)], b: &Pairs) -> bool
    ensures { result ≡ equal (object_of_pairs (pair_datums a.now)) (object_of_pairs b.now) }
{
    if a.len() != b.as_slice().len() {
        return false;
    }
    for p in a {
        match b.get(&p.0) {
            None => return false,
            Some(y) => {
                if !equal_items(&p.1, y) {
                    return false;
                }
            }
        }
    }
    true
}

fn equal_atoms(a: &Item, b: &Item) -> bool
    ensures { result ≡ is_equal (compare_atoms (datum a.now) (datum b.now)) }
{
    matches!(cmp_atoms(a, b), Some(Ordering::Equal))
}

fn null_cmp(b: &Item) -> Option<Ordering>
    ensures { result ≡ order_if (Some nothing) (atom (datum b.now)) }
{
    match b {
        Item::Null => Some(Ordering::Equal),
        Item::Array(_) | Item::Object(_) => None,
        _ => Some(Ordering::Less),
    }
}

fn bool_cmp(x: bool, b: &Item) -> Option<Ordering>
    ensures { result ≡ order_if (Some (truth x)) (atom (datum b.now)) }
{
    match b {
        Item::Null => Some(Ordering::Greater),
        Item::Bool(y) => Some(x.cmp(y)),
        _ => None,
    }
}

// A number of units of 10^-6.
fn number_cmp(m: i128, b: &Item) -> Option<Ordering>
    ensures { result ≡ order_if (Some (number m)) (atom (datum b.now)) }
{
    match b {
        Item::Null => Some(Ordering::Greater),
        Item::Int(n) => Some(m.cmp(&n.units())),
        Item::Dec(n) => Some(m.cmp(&n.get())),
        _ => None,
    }
}

fn text_cmp(x: &Str, b: &Item) -> Option<Ordering>
    ensures { result ≡ order_if (Some (string x.now)) (atom (datum b.now)) }
{
    match b {
        Item::Null => Some(Ordering::Greater),
        Item::Text(y) => Some(x.cmp(y)),
        _ => None,
    }
}

fn date_cmp(x: &Day, b: &Item) -> Option<Ordering>
    ensures { result ≡ order_if (Some (day x.now)) (atom (datum b.now)) }
{
    match b {
        Item::Null => Some(Ordering::Greater),
        Item::Date(y) => Some(x.cmp(y)),
        _ => None,
    }
}

fn date_time_cmp(x: &Moment, b: &Item) -> Option<Ordering>
    ensures { result ≡ order_if (Some (moment x.now)) (atom (datum b.now)) }
{
    match b {
        Item::Null => Some(Ordering::Greater),
        Item::DateTime(y) => Some(x.cmp(y)),
        _ => None,
    }
}
