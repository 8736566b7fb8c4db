//! Tables of groups, and what they give.

ghost use Rattle.std.specs.Prelude.{◌≡◌, ◌∷◌, [], length, IfOk};
ghost use Rattle.item_tree.specs.Laws.{IsKey};
ghost use Rattle.tuple_rows.specs.Tuples.{sequences};
ghost use Rattle.tuple_rows.specs.Keys.{AllKeys, key_list, key_datum};

use group_table::{GroupTable, laws};
use item_tree::{Day, Item, Moment, Str, Units, Whole, text_of};
use std::alloc::Global;
use std::test::Fail;
use tuple_rows::{Rows, Tuple};

// The key that a letter stands for: none, or one of each class, with a number of each kind.
fn key(alloc: Global, letter: char) -> Result<Option<Item>, Fail>
    ensures { IfOk result (λ k. IsKey (key_datum k)) }
{
    let Some(day) = Day::new(2024, 2, 29) else {
        return Err(Fail::new("no such day"));
    };
    match letter {
        'n' => Ok(Some(Item::Null)),
        't' => Ok(Some(Item::Bool(true))),
        'i' => Ok(Some(Item::Int(Whole::new(1)))),
        'd' => Ok(Some(Item::Dec(Units::new(1_000_000)))),
        's' => Ok(Some(Item::Text(Str::of(alloc, "1")?))),
        'D' => Ok(Some(Item::Date(day))),
        'M' => Ok(Some(Item::DateTime(Moment::new(day, 0)))),
        _ => Ok(None),
    }
}

fn number(alloc: Global, n: u8) -> Result<Vec<Item>, Fail> {
    Ok(vec![in alloc; Item::Int(Whole::new(i128::from(n)))]?)
}

// The number in a variable of an outer scope, in the slot of a key, and in one of the stream.
fn tuple(alloc: Global, n: u8) -> Result<Tuple, Fail>
    ensures { IfOk result (λ t. length (sequences t) ≡ 3) }
{
    let outer = number(alloc, n)?;
    let keyed = number(alloc, n)?;
    let joined = number(alloc, n)?;
    Ok(Tuple {
        slots: vec![in alloc; outer, keyed, joined]?,
    })
}

// No groups of tuples with a key in slot 1, whose slot 2 is joined.
fn empty(alloc: Global) -> Result<GroupTable, Fail>
    ensures { IfOk result (λ t. t
        ≡ record { width = 3; keys = 1 ∷ []; joined = 2 ∷ []; seed = 0; groups = t.groups }) }
{
    let keys = vec![in alloc; 1]?;
    let joined = vec![in alloc; 2]?;
    Ok(GroupTable::new(alloc, 3, keys, joined))
}

// The groups of tuples numbered from 1, with the keys that the letters stand for.
fn grouped(alloc: Global, letters: &str) -> Result<GroupTable, Fail>
    ensures { IfOk result (λ t. t
        ≡ record { width = 3; keys = 1 ∷ []; joined = 2 ∷ []; seed = 0; groups = t.groups }) }
{
    let mut table = empty(alloc)?;
    let mut n = 0u8;
    for letter in letters.chars() {
        n = n.saturating_add(1);
        let keys = vec![in alloc; key(alloc, letter)?]?;
        table.add(keys, tuple(alloc, n)?)?;
    }
    Ok(table)
}

// The groups of tuples numbered from 1, whose slots 0 and 1 have the keys that the two letters of
// each word stand for, and whose slot 2 is joined.
fn grouped_by_two(alloc: Global, words: &str) -> Result<GroupTable, Fail> {
    let slots = vec![in alloc; 0, 1]?;
    let joined = vec![in alloc; 2]?;
    let mut table = GroupTable::seeded(alloc, 3, slots, joined, 20130819);
    let mut n = 0u8;
    for word in words.split_whitespace() {
        n = n.saturating_add(1);
        let mut letters = word.chars();
        let first = key(alloc, letters.next().unwrap_or('-'))?;
        let second = key(alloc, letters.next().unwrap_or('-'))?;
        let keys = vec![in alloc; first, second]?;
        table.add(keys, tuple(alloc, n)?)?;
    }
    Ok(table)
}

// The rows, with `/` behind each, `|` behind each slot, a blank behind each item, and `d` behind a
// decimal.
fn printed(alloc: Global, rows: Rows) -> Result<String, Fail> {
    let mut text = String::new(alloc);
    for tuple in &rows.into_tuples() {
        for slot in &tuple.slots {
            for item in slot {
                print(alloc, &mut text, item)?;
            }
            text.push_str("|")?;
        }
        text.push_str("/")?;
    }
    Ok(text)
}

fn print(alloc: Global, text: &mut String, item: &Item) -> Result<(), Fail> {
    if matches!(item, Item::Array(_) | Item::Object(_)) {
        return Err(Fail::new("no atomic"));
    }
    text.push_str(text_of(alloc, item)?.as_str())?;
    text.push_str(if matches!(item, Item::Dec(_)) {
        "d "
    } else {
        " "
    })?;
    Ok(())
}

#[test]
fn groups_by_first_appearance(rt: HostRuntime) -> Result<(), Fail> {
    let alloc = rt.alloc();
    let rows = [
        ("", ""),
        ("idsn-i", "1 |1 |1 2 6 |/3 |1 |3 |/4 |null |4 |/5 ||5 |/"),
        ("di", "1 |1d |1 2 |/"),
        (
            "ntsDM-tn",
            "1 |null |1 8 |/2 |true |2 7 |/3 |1 |3 |/4 |2024-02-29 |4 |/\
             5 |2024-02-29T00:00:00Z |5 |/6 ||6 |/",
        ),
    ];
    for (letters, want) in rows {
        let found = printed(alloc, grouped(alloc, letters)?.into_rows()?)?;
        assert_eq!(rt; found.as_str(), want, "{letters}");
    }
    Ok(())
}

#[test]
fn groups_by_two_columns(rt: HostRuntime) -> Result<(), Fail> {
    let alloc = rt.alloc();
    let table = grouped_by_two(alloc, "is ds i- -i s- di id -d is -- n- dn")?;
    let found = printed(alloc, table.into_rows()?)?;
    assert_eq!(rt;
        found.as_str(),
        "1 |1 |1 2 9 |/1 ||3 |/|1 |4 8 |/1 ||5 |/1d |1 |6 7 |/||10 |/null ||11 |/1d |null |12 |/"
    );
    Ok(())
}

#[test]
fn merges_tables(rt: HostRuntime) -> Result<(), Fail> {
    let alloc = rt.alloc();
    let mut table = grouped(alloc, "s-d")?;
    table.merge(grouped(alloc, "nis")?)?;
    let found = printed(alloc, table.into_rows()?)?;
    assert_eq!(rt;
        found.as_str(),
        "1 |1 |1 3 |/2 ||2 |/3 |1d |3 2 |/1 |null |1 |/"
    );
    laws::groups_merge();
    Ok(())
}
