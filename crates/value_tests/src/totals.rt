//! Totals of numbers and of later numbers.

use crate::items::items;
use num_fixed::{Kind, Total};
use std::alloc::Global;
use std::test::Fail;
use value_rules::number;

/// The total of the numbers that words write.
fn total_of(alloc: Global, words: &str) -> Result<Total, Fail> {
    let mut total = Total::new();
    for item in &items(alloc, words)? {
        match number(item) {
            Ok(x) if total.count() < 1000 => total.add(&x),
            _ => return Err(Fail::new("no few numbers")),
        }
    }
    Ok(total)
}

/// How many numbers were added, their sum in ones or in units, and their mean.
fn told(alloc: Global, total: &Total) -> Result<String, Fail> {
    let count = total.count();
    let mean = total.mean();
    if total.is_whole() {
        let sum = total.value(Kind::Whole);
        return Ok(format!(in alloc; "{count} whole {sum:?} {mean:?}")?);
    }
    let sum = total.value(Kind::Units);
    Ok(format!(in alloc; "{count} units {sum:?} {mean:?}")?)
}

// Numbers, and behind a bar later ones; and what is told of them all.
#[test]
fn joins_totals(rt: HostRuntime) -> Result<(), Fail> {
    let alloc = rt.alloc();
    for (row, want) in [
        ("|", "0 whole Ok(0) Err(ZeroDivisor)"),
        ("|1 2", "2 whole Ok(3) Ok(1500000)"),
        ("1 2|", "2 whole Ok(3) Ok(1500000)"),
        (
            "99999999999999999999|2",
            "2 whole Err(Overflow) Ok(50000000000000000000500000)",
        ),
        (
            "99999999999999999999 2|-3",
            "3 whole Ok(99999999999999999998) Ok(33333333333333333332666667)",
        ),
        ("0.000001|0 0.000005 0", "4 units Ok(6) Ok(2)"),
        (
            "0.000001 0 0.000005 0|99999999999999999999 2 -3",
            "7 units Ok(99999999999999999998000006) Ok(14285714285714285714000001)",
        ),
        (
            "99999999999999999999.999999|99999999999999999999.999999",
            "2 units Err(Overflow) Ok(99999999999999999999999999)",
        ),
    ] {
        let Some((first, later)) = row.split_once('|') else {
            return Err(Fail::new("no row"));
        };
        let mut total = total_of(alloc, first)?;
        let later = total_of(alloc, later)?;
        if total.count() < 1000 && later.count() < 1000 {
            total.merge(&later);
        }
        let found = told(alloc, &total)?;
        assert_eq!(rt; found.as_str(), want, "{row}");
    }
    Ok(())
}
