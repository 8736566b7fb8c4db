//! Tests of dates and date-times.

use crate::made::one;
use item_tree::{
    Code, Day, Item, Moment, Str, Units, Whole, array_of, cmp_atoms, deep_equal, ebv, laws,
    object_of, same_key, text_of,
};
use std::alloc::Global;
use std::cmp::Ordering;
use std::test::Fail;

const LENGTHS: [u8; 12] = [31, 28, 31, 30, 31, 30, 31, 31, 30, 31, 30, 31];

const NANOS_OF_DAY: u64 = 86_400_000_000_000;

fn exists(year: u16, month: u8, day: u8) -> bool {
    Day::new(year, month, day).is_some()
}

#[test]
fn months_end(rt: HostRuntime) {
    for (m, days) in (1u8..13).zip(LENGTHS) {
        assert!(rt; exists(2023, m, 1) && exists(2023, m, days), "{m}");
        assert!(rt; !exists(2023, m, 0), "{m}");
        assert!(rt; !exists(2023, m, days.saturating_add(1)), "{m}");
    }
    for (year, leap) in [
        (1, false),
        (4, true),
        (1900, false),
        (2000, true),
        (2023, false),
        (2024, true),
        (2100, false),
        (9996, true),
        (9999, false),
    ] {
        assert!(rt; exists(year, 2, 28), "{year}");
        assert_eq!(rt; exists(year, 2, 29), leap, "{year}");
        assert!(rt; !exists(year, 2, 30), "{year}");
    }
    for (year, month, day, want) in [
        (0, 12, 31, false),
        (1, 1, 1, true),
        (9999, 12, 31, true),
        (10_000, 1, 1, false),
        (2024, 0, 1, false),
        (2024, 13, 1, false),
        (2024, 255, 255, false),
    ] {
        assert_eq!(rt; exists(year, month, day), want, "{year} {month} {day}");
    }
}

fn moment_of(day: Day, nanos: u64) -> Option<Moment> {
    if nanos < NANOS_OF_DAY {
        Some(Moment::new(day, nanos))
    } else {
        None
    }
}

#[test]
fn gives_texts_of_dates(rt: HostRuntime) -> Result<(), Fail> {
    let alloc = rt.alloc();
    let rows = [
        (1, 1, 1, 0, "0001-01-01T00:00:00Z"),
        (1970, 1, 1, 1_000_000_000, "1970-01-01T00:00:01Z"),
        (2024, 2, 29, 5_400_500_000_000, "2024-02-29T01:30:00.5Z"),
        (1987, 11, 30, 1, "1987-11-30T00:00:00.000000001Z"),
        (612, 10, 9, 43_200_120_000_000, "0612-10-09T12:00:00.12Z"),
        (
            9999,
            12,
            31,
            86_399_999_999_999,
            "9999-12-31T23:59:59.999999999Z",
        ),
    ];
    for (year, month, day, nanos, text) in rows {
        let day = Day::new(year, month, day).expect(&rt, "a date");
        let moment = moment_of(day, nanos).expect(&rt, "a time of day");
        assert_eq!(rt; text_of(alloc, &Item::DateTime(moment))?.as_str(), text);
        let date = text_of(alloc, &Item::Date(day))?;
        assert_eq!(rt; date.as_str().len(), 10);
        assert!(rt; text.as_bytes().starts_with(date.as_str().as_bytes()));
        assert_eq!(rt; moment.day(), day);
        assert_eq!(rt; moment.nanos(), nanos);
        assert_eq!(rt; Day::new(day.year(), day.month(), day.day()), Some(day));
    }
    Ok(())
}

// One or two of each class.
fn samples(alloc: Global, first: Day, second: Day) -> Result<Vec<Item>, Fail> {
    let mut items = Vec::new(alloc);
    items.push(Item::Null)?;
    items.push(Item::Bool(true))?;
    items.push(Item::Int(Whole::new(1)))?;
    items.push(Item::Dec(Units::new(1_500_000)))?;
    items.push(Item::Text(Str::of(alloc, "2024-02-29")?))?;
    items.push(Item::Date(first))?;
    items.push(Item::Date(second))?;
    items.push(Item::DateTime(Moment::new(first, 0)))?;
    items.push(Item::DateTime(Moment::new(first, 1)))?;
    items.push(Item::DateTime(Moment::new(second, 0)))?;
    items.push(array_of(alloc, Vec::new(alloc))?)?;
    items.push(object_of(alloc, Vec::new(alloc))?)?;
    Ok(items)
}

fn mark(order: Option<Ordering>) -> char {
    match order {
        None => '-',
        Some(Ordering::Less) => '<',
        Some(Ordering::Equal) => '=',
        Some(Ordering::Greater) => '>',
    }
}

#[test]
fn compares_dates(rt: HostRuntime) -> Result<(), Fail> {
    let alloc = rt.alloc();
    let (Some(first), Some(second)) = (Day::new(2024, 2, 29), Day::new(2024, 3, 1)) else {
        assert!(rt; false);
        return Ok(());
    };
    let rows = [
        "=<<<<<<<<<--",
        ">=----------",
        ">-=<--------",
        ">->=--------",
        ">---=-------",
        ">----=<-----",
        ">---->=-----",
        ">------=<<--",
        ">------>=<--",
        ">------>>=--",
        "------------",
        "------------",
    ];
    let items = samples(alloc, first, second)?;
    assert_eq!(rt; items.len(), rows.len());
    for (a, row) in items.iter().zip(rows) {
        for (b, want) in items.iter().zip(row.chars()) {
            assert_eq!(rt; mark(cmp_atoms(a, b)), want, "{a:?} {b:?}");
            assert_eq!(rt; same_key(Some(a), Some(b)), want == '=', "{a:?} {b:?}");
        }
        let sequence = one(a, alloc)?;
        assert!(rt;
            deep_equal(sequence.as_slice(), sequence.as_slice()),
            "{a:?}"
        );
        let dated = matches!(a, Item::Date(_) | Item::DateTime(_));
        let raised = ebv(sequence.as_slice()) == Err(Code::FORG0006);
        assert_eq!(rt; raised, dated, "{a:?}");
    }
    for (a, b, want) in [
        ((1999, 12, 31), (2000, 1, 1), Ordering::Less),
        ((2000, 2, 1), (2000, 1, 31), Ordering::Greater),
        ((2000, 2, 2), (2000, 2, 10), Ordering::Less),
        ((2000, 2, 2), (2000, 2, 2), Ordering::Equal),
    ] {
        let (a, b) = (Day::new(a.0, a.1, a.2), Day::new(b.0, b.1, b.2));
        assert_eq!(rt; a.cmp(&b), want, "{a:?} {b:?}");
    }
    laws::days_are_numbered();
    Ok(())
}
