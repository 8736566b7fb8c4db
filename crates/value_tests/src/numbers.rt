//! Numbers at the front of bytes, and texts that are no numbers.

use num_fixed::{is_number, number_front, short_whole};
use std::test::Fail;

// Behind a bar: the number at the front, and where its digits, its fraction and itself end.
#[test]
fn finds_numbers_at_the_front(rt: HostRuntime) -> Result<(), Fail> {
    let alloc = rt.alloc();
    for row in [
        "-0.5,|Ok(Dec(-500000)) 2 4 4",
        "12]|Ok(Int(12)) 2 2 2",
        "7|Ok(Int(7)) 1 1 1",
        ".25.5|Ok(Dec(250000)) 0 3 3",
        "1.e5|Ok(Int(1)) 1 1 1",
        "1.5e|Ok(Dec(1500000)) 1 3 3",
        "1e+2e|Ok(Dec(100000000)) 1 1 4",
        "-12.3456785 |Ok(Dec(-12345678)) 3 11 11",
        "999999999999999999x|Ok(Int(999999999999999999)) 18 18 18",
        "18446744073709551617|Ok(Int(18446744073709551617)) 20 20 20",
        "999999999999.999999|Ok(Dec(999999999999999999)) 12 19 19",
        "0000000000000.999999|Ok(Dec(999999)) 13 20 20",
        "100000000000000000000;|Err(Overflow) 21 21 21",
        "|none",
        "-|none",
        "+1|none",
        ".|none",
        "-.e1|none",
        "e5|none",
        " 1|none",
    ] {
        let Some((text, want)) = row.split_once('|') else {
            return Err(Fail::new("no row"));
        };
        let found = match number_front(text.as_bytes()) {
            Some(front) => format!(in alloc;
                "{:?} {} {} {}",
                front.value, front.whole_end, front.fraction_end, front.end
            )?,
            None => String::from_str(alloc, "none")?,
        };
        assert_eq!(rt; found.as_str(), want, "{row}");
    }
    Ok(())
}

// Behind a bar: the whole number at the front, and how many digits it has.
#[test]
fn finds_short_whole_numbers(rt: HostRuntime) -> Result<(), Fail> {
    let alloc = rt.alloc();
    for row in [
        "0|0 1",
        "7,|7 1",
        "00]|0 2",
        "120 .|120 3",
        "12a|12 2",
        "999999999999999999|999999999999999999 18",
        "1000000000000000000|none",
        "99999999999999999999999999|none",
        "1.5|none",
        "1.|none",
        "2e|none",
        "2E3|none",
        "-1|none",
        "+1|none",
        ".5|none",
        "x|none",
        "|none",
    ] {
        let Some((text, want)) = row.split_once('|') else {
            return Err(Fail::new("no row"));
        };
        let found = match short_whole(text.as_bytes()) {
            Some((n, len)) => format!(in alloc; "{n} {len}")?,
            None => String::from_str(alloc, "none")?,
        };
        assert_eq!(rt; found.as_str(), want, "{row}");
    }
    Ok(())
}

#[test]
fn tells_what_is_no_number(rt: HostRuntime) {
    for text in [
        "", "-", ".", "+.", "e5", ".e5", "1e", "1e+", "1e+-2", "--1", "1.2.3", "1e2.5", " 1", "1 ",
        "0x1", "1e2e3", "NaN", "1_000",
    ] {
        assert!(rt; !is_number(text.as_bytes()), "{text}");
    }
    for text in ["007", "+12", ".5", "5.", "-0", "25e-7", "1E2", "1e+2"] {
        assert!(rt; is_number(text.as_bytes()), "{text}");
    }
}
