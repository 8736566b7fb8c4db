//! Tests of the texts of atomics.

use item_tree::{DecimalBuffer, Item, Str, Units, Whole, text_of};
use std::test::Fail;

#[test]
fn gives_texts_of_integers(rt: HostRuntime) -> Result<(), Fail> {
    let alloc = rt.alloc();
    let wholes = [
        (0, "0"),
        (-7, "-7"),
        (99_999_999_999_999_999_999, "99999999999999999999"),
        (-99_999_999_999_999_999_999, "-99999999999999999999"),
    ];
    for (n, want) in wholes {
        assert!(rt; -WHOLE_LIMIT < n && n < WHOLE_LIMIT);
        let text = text_of(alloc, &Item::Int(Whole::new(n)))?;
        assert_eq!(rt; text.as_str(), want);
    }
    Ok(())
}

#[test]
fn gives_texts_of_decimals(rt: HostRuntime) -> Result<(), Fail> {
    let alloc = rt.alloc();
    let mut buffer = DecimalBuffer::new();
    let decimals = [
        (0, "0"),
        (1, "0.000001"),
        (-1, "-0.000001"),
        (999_999, "0.999999"),
        (-500_000, "-0.5"),
        (1_000_000, "1"),
        (1_500_000, "1.5"),
        (1_000_010, "1.00001"),
        (-12_050_000, "-12.05"),
        (100_000_000, "100"),
        (18_446_744_073_709_551_615, "18446744073709.551615"),
        (18_446_744_073_709_551_616, "18446744073709.551616"),
        (18_446_744_073_709_551_615_000_000, "18446744073709551615"),
        (18_446_744_073_709_551_616_000_000, "18446744073709551616"),
        (
            99_999_999_999_999_999_999_999_999,
            "99999999999999999999.999999",
        ),
        (
            -99_999_999_999_999_999_999_999_999,
            "-99999999999999999999.999999",
        ),
    ];
    for (m, want) in decimals {
        assert!(rt; -UNITS_LIMIT < m && m < UNITS_LIMIT);
        assert_eq!(rt; buffer.format(Units::new(m)), want);
        let text = text_of(alloc, &Item::Dec(Units::new(m)))?;
        assert_eq!(rt; text.as_str(), want);
    }
    Ok(())
}

const WHOLE_LIMIT: i128 = 100_000_000_000_000_000_000;

const UNITS_LIMIT: i128 = 100_000_000_000_000_000_000_000_000;

#[test]
fn gives_other_texts(rt: HostRuntime) -> Result<(), Fail> {
    let alloc = rt.alloc();
    assert_eq!(rt; text_of(alloc, &Item::Null)?.as_str(), "null");
    assert_eq!(rt; text_of(alloc, &Item::Bool(true))?.as_str(), "true");
    assert_eq!(rt; text_of(alloc, &Item::Bool(false))?.as_str(), "false");
    let string = Item::Text(Str::of(alloc, "m\u{fc}\"\n")?);
    assert_eq!(rt; text_of(alloc, &string)?.as_str(), "m\u{fc}\"\n");
    Ok(())
}
