//! Indexes over keys, and the positions that they find.

use eq_join::{JoinIndex, laws};
use item_tree::{Day, Item, Moment, Str, Units, Whole, array_of};
use std::alloc::Global;
use std::test::Fail;

// The key that a letter stands for: none, one of each class, with a number of each kind, or an
// array.
fn key(alloc: Global, letter: char) -> Result<Option<Item>, Fail> {
    let Some(day) = Day::new(2024, 2, 29) else {
        return Err(Fail::new("no such day"));
    };
    match letter {
        'n' => Ok(Some(Item::Null)),
        't' => Ok(Some(Item::Bool(true))),
        'f' => Ok(Some(Item::Bool(false))),
        'i' => Ok(Some(Item::Int(Whole::new(1)))),
        'd' => Ok(Some(Item::Dec(Units::new(1_000_000)))),
        'j' => Ok(Some(Item::Int(Whole::new(2)))),
        's' => Ok(Some(Item::Text(Str::of(alloc, "1")?))),
        'D' => Ok(Some(Item::Date(day))),
        'M' => Ok(Some(Item::DateTime(Moment::new(day, 0)))),
        'a' => Ok(Some(array_of(alloc, Vec::new(alloc))?)),
        _ => Ok(None),
    }
}

fn keys(alloc: Global, letters: &str) -> Result<Vec<Option<Item>>, Fail> {
    let mut keys = Vec::new(alloc);
    for letter in letters.chars() {
        keys.push(key(alloc, letter)?)?;
    }
    Ok(keys)
}

// What the index finds for the key: each position with a blank behind it, or where which code is.
fn printed(alloc: Global, index: &JoinIndex, key: Option<&Item>) -> Result<String, Fail> {
    let mut text = String::new(alloc);
    match index.hits(key) {
        Ok(places) => {
            for place in places {
                text.push_str(format!(in alloc; "{place} ")?.as_str())?;
            }
        }
        Err(fault) => {
            let code = fault.code.text();
            let at = fault.at;
            text.push_str(format!(in alloc; "{code} at {at}")?.as_str())?;
        }
    }
    Ok(text)
}

fn found(alloc: Global, letters: &str, letter: char) -> Result<String, Fail> {
    let index = JoinIndex::seeded(alloc, keys(alloc, letters)?, 20130819)?;
    let key = key(alloc, letter)?;
    printed(alloc, &index, key.as_ref())
}

#[test]
fn finds_equal_keys(rt: HostRuntime) -> Result<(), Fail> {
    let alloc = rt.alloc();
    let rows = [
        ("", 'i', ""),
        ("jiin-dj", 'i', "1 2 5 "),
        ("jiin-dj", 'd', "1 2 5 "),
        ("jiin-dj", 'j', "0 6 "),
        ("jiin-dj", 'n', "3 "),
        ("jiin-dj", '-', ""),
        ("jiin-dj", 's', "XPTY0004 at 0"),
        ("jiin-dj", 'a', "JNTY0004 at 0"),
        ("-n-", 's', ""),
        ("-n-", 'a', "JNTY0004 at 1"),
        ("--", 'a', ""),
        ("s-ns", 's', "0 3 "),
        ("idsn-tD", 'i', "XPTY0004 at 2"),
        ("idsn-tD", 'n', "3 "),
        ("tft", 't', "0 2 "),
        ("tt", 'f', ""),
        ("DnD", 'D', "0 2 "),
        ("DMD", 'D', "XPTY0004 at 1"),
        ("MDM", 'D', "XPTY0004 at 0"),
        ("M-M", 'M', "0 2 "),
        ("iai", 'i', "JNTY0004 at 1"),
        ("nan", 'n', "JNTY0004 at 1"),
        ("sai", 'i', "XPTY0004 at 0"),
        ("ais", 's', "JNTY0004 at 0"),
    ];
    for (letters, letter, want) in rows {
        assert_eq!(rt;
            found(alloc, letters, letter)?.as_str(),
            want,
            "{letter} in {letters}"
        );
    }
    Ok(())
}

#[test]
fn finds_without_a_seed(rt: HostRuntime) -> Result<(), Fail> {
    let alloc = rt.alloc();
    let index = JoinIndex::new(alloc, keys(alloc, "sns")?)?;
    let key = key(alloc, 's')?;
    assert_eq!(rt; printed(alloc, &index, key.as_ref())?.as_str(), "0 2 ");
    laws::operands_turn_round();
    Ok(())
}
