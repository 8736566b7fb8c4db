//! Tests of what atomics are compared by.

ghost use Rattle.item_tree.specs.Datum.{IsAtomic};
ghost use Rattle.item_tree.specs.Item.{datum};

use crate::made::samples;
use item_tree::{
    Class, Day, Item, Key, Moment, Str, Units, Whole, cmp_atoms, key_of, laws, same_key,
};
use std::alloc::Global;
use std::collections::HashMap;
use std::process::Abort;
use std::test::Fail;

// An atomic with its key, and its rank in the order of keys, which equal ones share.
#[derive(Drop)]
struct Row {
    item: Item,
    key: Key,
    class: Class,
    rank: u8,
}

fn keyed(item: Item, class: Class, rank: u8) -> Result<Row, Fail>
    requires { IsAtomic (datum item) }
{
    let key = key_of(&item)?;
    Ok(Row {
        item,
        key,
        class,
        rank,
    })
}

fn add(rows: &mut Vec<Row>, item: Item, class: Class, rank: u8) -> Result<(), Fail>
    requires { IsAtomic (datum item) }
{
    rows.push(keyed(item, class, rank)?)?;
    Ok(())
}

fn add_constants(rows: &mut Vec<Row>) -> Result<(), Fail> {
    add(rows, Item::Null, Class::Null, 0)?;
    add(rows, Item::Bool(false), Class::Boolean, 1)?;
    add(rows, Item::Bool(true), Class::Boolean, 2)
}

fn add_numbers(rows: &mut Vec<Row>) -> Result<(), Fail> {
    add(rows, Item::Int(Whole::new(-1)), Class::Number, 3)?;
    add(rows, Item::Dec(Units::new(-1)), Class::Number, 4)?;
    add(rows, Item::Int(Whole::new(1)), Class::Number, 5)?;
    add(rows, Item::Dec(Units::new(1_000_000)), Class::Number, 5)?;
    add(rows, Item::Dec(Units::new(1_000_001)), Class::Number, 6)
}

fn add_texts(alloc: Global, rows: &mut Vec<Row>) -> Result<(), Fail> {
    add(rows, Item::Text(Str::of(alloc, "")?), Class::Text, 7)?;
    add(rows, Item::Text(Str::of(alloc, "1")?), Class::Text, 8)?;
    add(
        rows,
        Item::Text(Str::of(alloc, "2000-02-29 and more")?),
        Class::Text,
        9,
    )?;
    add(rows, Item::Text(Str::of(alloc, "true")?), Class::Text, 10)
}

fn add_dates(rows: &mut Vec<Row>, days: (Day, Day)) -> Result<(), Fail> {
    add(rows, Item::Date(days.0), Class::Date, 11)?;
    add(rows, Item::Date(days.1), Class::Date, 12)?;
    add(
        rows,
        Item::DateTime(Moment::new(days.0, 0)),
        Class::DateTime,
        13,
    )?;
    add(
        rows,
        Item::DateTime(Moment::new(days.0, 1)),
        Class::DateTime,
        14,
    )?;
    add(
        rows,
        Item::DateTime(Moment::new(days.1, 0)),
        Class::DateTime,
        15,
    )
}

// One or more atomics of each class.
fn rows(alloc: Global, days: (Day, Day)) -> Result<Vec<Row>, Fail> {
    let mut rows = Vec::new(alloc);
    add_constants(&mut rows)?;
    add_numbers(&mut rows)?;
    add_texts(alloc, &mut rows)?;
    add_dates(&mut rows, days)?;
    Ok(rows)
}

fn dated_rows<R: Abort>(rt: &R, alloc: Global) -> Result<Vec<Row>, Fail> {
    let first = Day::new(2000, 2, 29).expect(rt, "a leap day");
    let second = Day::new(2000, 3, 1).expect(rt, "a day");
    rows(alloc, (first, second))
}

#[test]
fn keys_of_all_pairs(rt: HostRuntime) -> Result<(), Fail> {
    let rows = dated_rows(&rt, rt.alloc())?;
    for a in &rows {
        assert_eq!(rt; a.item.class(), Some(a.class));
        assert!(rt; a.key.clone()? == a.key);
        for b in &rows {
            let order = a.rank.cmp(&b.rank);
            assert_eq!(rt; a.key == b.key, a.rank == b.rank, "{} {}", a.rank, b.rank);
            assert_eq!(rt; a.key.cmp(&b.key), order, "{} {}", a.rank, b.rank);
            assert_eq!(rt; same_key(Some(&a.item), Some(&b.item)), a.rank == b.rank);
            let compared = a.class == b.class || a.rank == 0 || b.rank == 0;
            let want = if compared { Some(order) } else { None };
            assert_eq!(rt; cmp_atoms(&a.item, &b.item), want, "{} {}", a.rank, b.rank);
        }
    }
    laws::keys_agree();
    Ok(())
}

// Numbers of two kinds that are equal have one entry.
#[test]
fn groups_by_keys(rt: HostRuntime) -> Result<(), Fail> {
    let mut table = HashMap::new(rt.alloc());
    for row in dated_rows(&rt, rt.alloc())? {
        let rank = row.rank;
        match table.insert(row.key, rank)? {
            None => {}
            Some(before) => assert_eq!(rt; before, rank),
        }
    }
    assert_eq!(rt; table.len(), 16);
    Ok(())
}

#[test]
fn has_no_class_of_arrays_and_objects(rt: HostRuntime) -> Result<(), Fail> {
    let items = samples(rt.alloc())?;
    for item in &items {
        let whole = matches!(item, Item::Array(_) | Item::Object(_));
        assert_eq!(rt; item.class().is_none(), whole);
    }
    Ok(())
}
