//! Parts of the values of `count`, `sum`, `avg`, `min` and `max`, merged in order.

ghost use Rattle.std.specs.Prelude.{◌+◌, ◌<◌, ◌≤◌, length, IfOk};
ghost use Rattle.item_tree.specs.Item.{datums};

use crate::items::{items, shown};
use fn_numbers::{AvgPart, CountPart, MaxPart, MinPart, Partial, SumPart};
use item_tree::{Item, NoMemory, OpFault};
use std::alloc::Global;
use std::process::Abort;
use std::test::Fail;

/// The part that stands for these items.
fn part_of<P: Partial>(s: &[Item]) -> Result<P, NoMemory>
    requires { length s.now < 1000 }
    ensures { IfOk result (λ p. P.stands p (datums s.now)) }
{
    let mut part = P::empty();
    for x in s {
        part.add(x)?;
    }
    Ok(part)
}

/// The value of three lists one behind another, merged from the left or from the right.
fn merged<P: Partial>(
    alloc: Global,
    left: bool,
    a: &[Item],
    b: &[Item],
    c: &[Item],
) -> Result<Vec<Item>, OpFault>
    requires { length a.now + length b.now + length c.now < 1000 }
{
    let mut first = part_of::<P>(a)?;
    let mut second = part_of::<P>(b)?;
    let third = part_of::<P>(c)?;
    if left {
        first.merge(second)?;
        first.merge(third)?;
    } else {
        second.merge(third)?;
        first.merge(second)?;
    }
    first.finish(alloc)
}

/// Cuts the items into three lists in each way, and compares the value.
fn check<P: Partial>(rt: &impl Abort, alloc: Global, s: &[Item], want: &str) -> Result<(), Fail>
    requires { length s.now < 100 }
{
    for i in 0..s.len() + 1 {
        let (a, rest) = s.split_at(i);
        for j in 0..rest.len() + 1 {
            let (b, c) = rest.split_at(j);
            for left in [true, false] {
                let found = shown(alloc, merged::<P>(alloc, left, a, b, c))?;
                assert_eq!(rt; found.as_str(), want, "{i} and {j}");
            }
        }
    }
    Ok(())
}

#[test]
fn parts_are_merged(rt: HostRuntime) -> Result<(), Fail> {
    let rows = [
        // seven items                  count sum avg min max
        ("1 2 3 4 5 6 8", "7 29 4.142857d 1 8"),
        ("2 1.0 1 3 2.5 3.0 0.5", "7 13d 1.857143d 0.5d 3"),
        ("1 1.0 1 2.0 2 2 1", "7 10d 1.428571d 1 2d"),
        (
            "99999999999999999999 1 1 1 -1 -1 -1",
            "7 99999999999999999999 14285714285714285714.142857d -1 99999999999999999999",
        ),
        (
            "99999999999999999999 1 0 0 0 0 0",
            "7 FOAR2 14285714285714285714.285714d 0 99999999999999999999",
        ),
        ("1 2 a 3 4 b 5", "7 FORG6 FORG6 FORG6 FORG6"),
        ("b null a null null b a", "7 FORG6 FORG6 null b"),
        ("1 null 2 null null 1 2", "7 FORG6 FORG6 null 2"),
        (
            "null null null null null null []",
            "7 FORG6 FORG6 FORG6 FORG6",
        ),
    ];
    let alloc = rt.alloc();
    for (words, wants) in rows {
        let s = items(alloc, words)?;
        if s.len() != 7 {
            return Err(Fail::new("not seven items"));
        }
        let mut wants = wants.split_whitespace();
        check::<CountPart>(&rt, alloc, &s, wants.next().unwrap_or(""))?;
        check::<SumPart>(&rt, alloc, &s, wants.next().unwrap_or(""))?;
        check::<AvgPart>(&rt, alloc, &s, wants.next().unwrap_or(""))?;
        check::<MinPart>(&rt, alloc, &s, wants.next().unwrap_or(""))?;
        check::<MaxPart>(&rt, alloc, &s, wants.next().unwrap_or(""))?;
    }
    Ok(())
}

/// How many of these items a part counts.
fn counted<P: Partial>(s: &[Item]) -> Result<u64, NoMemory>
    requires { length s.now < 1000 }
{
    let part = part_of::<P>(s)?;
    Ok(part.how_many())
}

#[test]
fn parts_tell_how_many_they_count(rt: HostRuntime) -> Result<(), Fail> {
    let alloc = rt.alloc();
    let s = items(alloc, "1 2 3 a 5")?;
    if s.len() != 5 {
        return Err(Fail::new("not five items"));
    }
    assert_eq!(rt; counted::<CountPart>(&s)?, 5);
    assert_eq!(rt; counted::<SumPart>(&s)?, 0);
    assert_eq!(rt; counted::<SumPart>(&s[..3])?, 3);
    assert_eq!(rt; counted::<AvgPart>(&s[..3])?, 3);
    assert_eq!(rt; counted::<MinPart>(&s)?, 0);
    assert_eq!(rt; counted::<MaxPart>(&s)?, 0);
    Ok(())
}

#[test]
fn parts_of_nothing(rt: HostRuntime) -> Result<(), Fail> {
    let alloc = rt.alloc();
    check::<CountPart>(&rt, alloc, &[], "0")?;
    check::<SumPart>(&rt, alloc, &[], "0")?;
    check::<AvgPart>(&rt, alloc, &[], "()")?;
    check::<MinPart>(&rt, alloc, &[], "()")?;
    check::<MaxPart>(&rt, alloc, &[], "()")
}
