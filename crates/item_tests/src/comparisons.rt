//! Tests of the order of atomics.

use crate::made::{samples, whole};
use item_tree::{Item, Str, Units, Whole, cmp_atoms, laws, same_key};
use std::cmp::Ordering;
use std::collections::HashMap;
use std::test::Fail;

fn mark(order: Option<Ordering>) -> char {
    match order {
        None => '-',
        Some(Ordering::Less) => '<',
        Some(Ordering::Equal) => '=',
        Some(Ordering::Greater) => '>',
    }
}

#[test]
fn compares_all_pairs(rt: HostRuntime) -> Result<(), Fail> {
    let items = samples(rt.alloc())?;
    let rows = [
        "=<<<<<<<<<--",
        ">=<---------",
        ">>=---------",
        ">--=<<<-----",
        ">-->==<-----",
        ">-->==<-----",
        ">-->>>=-----",
        ">------=<<--",
        ">------>=<--",
        ">------>>=--",
        "------------",
        "------------",
    ];
    for (a, row) in items.iter().zip(rows.iter()) {
        for (b, want) in items.iter().zip(row.chars()) {
            assert_eq!(rt; mark(cmp_atoms(a, b)), want, "{a:?} {b:?}");
            assert_eq!(rt; same_key(Some(a), Some(b)), want == '=', "{a:?} {b:?}");
        }
        assert!(rt; !same_key(Some(a), None));
        assert!(rt; !same_key(None, Some(a)));
    }
    assert!(rt; same_key(None, None));
    Ok(())
}

#[test]
fn keeps_numbers(rt: HostRuntime) {
    assert!(rt; Whole::new(-2) == Whole::new(-2));
    assert!(rt; Units::new(1) != Units::new(-1));
    assert_eq!(rt; Whole::new(-2).get(), -2);
    assert_eq!(rt; Whole::new(2).units(), 2_000_000);
    assert_eq!(rt; Units::new(-1_500_000).get(), -1_500_000);
}

// Texts in the order of their code points, some of which stand in the string and some do not.
#[test]
fn orders_strings(rt: HostRuntime) -> Result<(), Fail> {
    let alloc = rt.alloc();
    let texts = [
        "",
        "\u{0}",
        "\u{0}\u{0}",
        "a",
        "a\u{0}",
        "abcdefgh",
        "abcdefghijklmn",
        "abcdefghijklmn\u{0}",
        "abcdefghijklmno",
        "abcdefghz",
        "b",
        "\u{ffff}",
        "\u{10000}",
    ];
    for (i, a) in texts.iter().enumerate() {
        let a = Str::of(alloc, a)?;
        for (j, b) in texts.iter().enumerate() {
            let b = Str::of(alloc, b)?;
            assert_eq!(rt; a == b, i == j, "{i} {j}");
            assert_eq!(rt; a.cmp(&b), i.cmp(&j), "{i} {j}");
            assert_eq!(rt; a < b, i < j, "{i} {j}");
        }
    }
    Ok(())
}

#[test]
fn finds_strings_in_a_table(rt: HostRuntime) -> Result<(), Fail> {
    let alloc = rt.alloc();
    let key = Str::of(alloc, "k")?;
    let mut table = HashMap::new(alloc);
    assert_eq!(rt; table.insert(key.copy()?, 1)?, None);
    assert_eq!(rt; table.insert(Str::of(alloc, "l")?, 2)?, None);
    assert_eq!(rt; table.get(&key).copied(), Some(1));
    Ok(())
}

#[test]
fn has_laws() {
    laws::keys_are_equivalent();
    laws::atomics_are_ordered();
    laws::atomics_compare();
}
