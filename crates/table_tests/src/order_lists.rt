//! Lists that are sorted and merged, and clashes of their keys.

ghost use Rattle.std.specs.Prelude.{◌≡◌, length, IfOk};
ghost use Rattle.tuple_rows.specs.Tuples.{AllOfWidth};
ghost use Rattle.order_runs.specs.Orders.{key_lists, rows};
ghost use Rattle.order_runs.specs.Seen.{AllCount};
ghost use Rattle.order_runs.specs.Runs.{entry_of, entries_of};

use item_tree::{Day, Item, Moment, Str, Units, Whole};
use order_runs::{ClassSeen, Column, MergeFault, Run, SortFault, laws, merge_runs};
use std::alloc::Global;
use std::test::Fail;
use tuple_rows::{Rows, Tuple};

const UP: Column = Column {
    descending: false,
    empty_greatest: false,
};

const DOWN: Column = Column {
    descending: true,
    empty_greatest: false,
};

// The key that a character stands for: none, or one of each class. A digit is an integer, and `h`
// is the decimal 2.5.
fn key(alloc: Global, letter: char) -> Result<Option<Item>, Fail> {
    let Some(day) = Day::new(2024, 2, 29) else {
        return Err(Fail::new("no such day"));
    };
    match letter {
        'n' => Ok(Some(Item::Null)),
        'f' => Ok(Some(Item::Bool(false))),
        't' => Ok(Some(Item::Bool(true))),
        'h' => Ok(Some(Item::Dec(Units::new(2_500_000)))),
        'a'..='c' => {
            let text = format!(in alloc; "{letter}")?;
            Ok(Some(Item::Text(Str::of(alloc, text.as_str())?)))
        }
        'D' => Ok(Some(Item::Date(day))),
        'M' => Ok(Some(Item::DateTime(Moment::new(day, 0)))),
        '0'..='9' => Ok(Some(Item::Int(Whole::new(i128::from(letter as u32 - 48))))),
        _ => Ok(None),
    }
}

// A tuple with these two keys, of one slot with a number.
fn entry(alloc: Global, a: char, b: char, n: u8) -> Result<(Vec<Option<Item>>, Tuple), Fail>
    ensures keys { IfOk result (λ e. length (entry_of e).0 ≡ 2) }
    ensures width { IfOk result (λ e. length (entry_of e).1 ≡ 1) }
{
    let keys = vec![in alloc; key(alloc, a)?, key(alloc, b)?]?;
    let number = vec![in alloc; Item::Int(Whole::new(i128::from(n)))]?;
    let slots = vec![in alloc; number]?;
    Ok((keys, Tuple { slots }))
}

// Entries by words of two characters, numbered from `first`.
fn entries(alloc: Global, words: &str, first: u8) -> Result<Vec<(Vec<Option<Item>>, Tuple)>, Fail>
    ensures counts { IfOk result (λ v. AllCount 2 (key_lists (entries_of v.items))) }
    ensures widths { IfOk result (λ v. AllOfWidth 1 (rows (entries_of v.items))) }
{
    let mut entries = Vec::new(alloc);
    let mut n = first;
    for word in words.split_whitespace() {
        let mut letters = word.chars();
        let a = letters.next().unwrap_or('-');
        let b = letters.next().unwrap_or('-');
        entries.push(entry(alloc, a, b, n)?)?;
        n = n.saturating_add(1);
    }
    Ok(entries)
}

// The numbers of the tuples in order.
fn numbers(alloc: Global, rows: Rows) -> Result<String, Fail> {
    let mut text = String::new(alloc);
    for tuple in &rows.into_tuples() {
        for slot in &tuple.slots {
            for item in slot {
                if let Item::Int(n) = item {
                    text.push_str(format!(in alloc; "{} ", n.get())?.as_str())?;
                }
            }
        }
    }
    Ok(text)
}

// What comes of runs by these columns, of which a `/` stands between two.
fn merged(alloc: Global, columns: &[Column], words: &str) -> Result<String, Fail>
    requires { length columns.now ≡ 2 }
{
    let mut runs = Vec::new(alloc);
    let mut first = 1u8;
    for part in words.split('/') {
        let entries = entries(alloc, part, first)?;
        first = first.saturating_add(10);
        match Run::sort(alloc, columns, entries) {
            Ok(run) => runs.push(run)?,
            Err(
                SortFault::Clash {
                    tuple,
                    column,
                    seen,
                },
            ) => {
                let count = seen.tuples();
                return Ok(format!(in alloc; "clash {tuple}.{column} of {count}")?);
            }
            Err(SortFault::NoMemory) => return Err(Fail::new("no memory")),
        }
    }
    match merge_runs(alloc, 1, columns, runs) {
        Ok(rows) => numbers(alloc, rows),
        Err(MergeFault::Conflict { run, tuple, column }) => {
            Ok(format!(in alloc; "conflict {run}.{tuple}.{column}")?)
        }
        Err(MergeFault::NoMemory) => Err(Fail::new("no memory")),
    }
}

#[test]
fn sorts_and_merges(rt: HostRuntime) -> Result<(), Fail> {
    let alloc = rt.alloc();
    let rows = [
        ("", ""),
        ("3- 1- h- 2- n- -- 1-", "6 5 2 7 4 3 1 "),
        ("b- a- c- a-", "2 4 1 3 "),
        ("t- f- n-", "3 2 1 "),
        ("1b 1a 0c 1b", "3 2 1 4 "),
        ("1- 2- a- 3-", "clash 3.0 of 3"),
        ("1a 11 a1", "clash 2.1 of 2"),
        ("n- -- 1- n- D-", "clash 5.0 of 5"),
        ("2- 1-/1- 3-", "2 11 1 12 "),
        ("1-/n- --/a-", "conflict 2.1.0"),
        ("1-/na/11", "conflict 2.1.1"),
        ("M-/D-", "conflict 1.1.0"),
    ];
    for (words, want) in rows {
        let found = merged(alloc, &[UP, UP], words)?;
        assert_eq!(rt; found.as_str(), want, "{words}");
    }
    laws::orders_are_one();
    laws::clashes_are_earliest();
    Ok(())
}

#[test]
fn turns_columns_round(rt: HostRuntime) -> Result<(), Fail> {
    let alloc = rt.alloc();
    let greatest = Column {
        descending: false,
        empty_greatest: true,
    };
    let both = Column {
        descending: true,
        empty_greatest: true,
    };
    let words = "1- -- n- 2- 1-";
    let rows = [
        (UP, "2 3 1 5 4 "),
        (DOWN, "4 1 5 3 2 "),
        (greatest, "3 1 5 4 2 "),
        (both, "2 4 1 5 3 "),
    ];
    for (column, want) in rows {
        let found = merged(alloc, &[column, UP], words)?;
        assert_eq!(rt; found.as_str(), want, "{column:?}");
    }
    Ok(())
}

#[test]
fn follows_lists(rt: HostRuntime) -> Result<(), Fail> {
    let alloc = rt.alloc();
    let mut seen = ClassSeen::new(alloc, 1)?;
    let mut later = ClassSeen::new(alloc, 1)?;
    let number = [key(alloc, '1')?];
    let text = [key(alloc, 'a')?];
    let empty = [key(alloc, '-')?];
    seen.note(&number);
    later.note(&empty);
    later.note(&number);
    later.note(&text);
    assert_eq!(rt; seen.clash_after(&later), Some((1, 0)));
    assert_eq!(rt; later.clash_after(&seen), Some((3, 0)));
    seen.follow(&later);
    assert_eq!(rt; seen.tuples(), 4);
    assert_eq!(rt; later.clash_after(&seen), Some((2, 0)));
    Ok(())
}
