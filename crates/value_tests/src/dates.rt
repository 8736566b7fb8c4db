//! Texts of dates with blanks, which a cast drops, and numbers of days beyond all integers.

use date_atoms::{add_days, read_date, read_date_time};

#[test]
fn reads_no_blanks(rt: HostRuntime) {
    for text in [
        " 2024-05-01",
        "2024-05-01 ",
        " 2024-05-01T01:30:00Z",
        "2024-05-01T01:30:00Z ",
    ] {
        assert!(rt; read_date(text).is_none(), "{text}");
        assert!(rt; read_date_time(text).is_none(), "{text}");
    }
}

#[test]
fn adds_days_of_any_number(rt: HostRuntime) {
    let start = read_date("1970-01-01");
    assert!(rt; start.is_some());
    if let Some(start) = start {
        for days in [i128::MAX, i128::MIN] {
            assert!(rt; add_days(&start, days).is_none(), "{days}");
        }
    }
}
