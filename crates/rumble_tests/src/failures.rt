//! Reads and writes that fail, and what a run makes of them.

use crate::runs::{assert_left, failing, files_of, run_failing, run_files};
use rumble_run::Status;
use std::test::Fail;

const ONE_QUERY: &[u8] = b"json-lines(\"a\")";

// Each open that fails, and on each of the two files each call in turn, until a run meets no
// failure.
#[test]
fn tells_failed_reads(rt: HostRuntime) -> Result<(), Fail> {
    let alloc = rt.alloc();
    let mut faults = Vec::new(alloc);
    for open in 1..3u64 {
        faults.push(failing(alloc, &[open], &[])?)?;
        for call in 1..3u64 {
            faults.push(failing(alloc, &[], &[(open, call)])?)?;
        }
    }
    assert_eq!(rt; faults.len(), 6);
    for fails in faults {
        let files = files_of(alloc, ONE_QUERY, b"12\n")?;
        let left = run_failing(&rt, alloc, &["run", "q"], files, fails)?;
        assert_left(
            &rt,
            &left,
            Status::ReadFault,
            b"",
            b"read fault\n",
            "a failure",
        );
    }
    Ok(())
}

// Calls past the last one that a run makes fail for nobody.
#[test]
fn meets_no_failure(rt: HostRuntime) -> Result<(), Fail> {
    let alloc = rt.alloc();
    let files = files_of(alloc, ONE_QUERY, b"12\n")?;
    let fails = failing(alloc, &[3], &[(1, 3), (2, 3), (3, 1)])?;
    let left = run_failing(&rt, alloc, &["run", "q"], files, fails)?;
    assert_left(&rt, &left, Status::Done, b"12\n", b"", "no failure");
    Ok(())
}

// Sinks without room: a prefix of the output, and of the text for the errors.
#[test]
fn tells_failed_writes(rt: HostRuntime) -> Result<(), Fail> {
    let alloc = rt.alloc();
    let cases = [
        ("12\n", (1, 100), Status::WriteFault, "1", "write fault\n"),
        ("12\n", (0, 100), Status::WriteFault, "", "write fault\n"),
        ("12\n", (3, 0), Status::Done, "12\n", ""),
        ("12\n", (2, 5), Status::WriteFault, "12", "write"),
        ("", (0, 0), Status::Done, "", ""),
        ("01\n", (0, 0), Status::Raised, "", ""),
        ("01\n", (0, 6), Status::Raised, "", "raised"),
    ];
    for (input, room, status, out, err) in cases {
        let files = files_of(alloc, ONE_QUERY, input.as_bytes())?;
        let left = run_files(&rt, alloc, &["run", "q"], files, room)?;
        assert_left(&rt, &left, status, out.as_bytes(), err.as_bytes(), input);
    }
    Ok(())
}

// What `check` writes may fail too.
#[test]
fn tells_failed_acceptance(rt: HostRuntime) -> Result<(), Fail> {
    let alloc = rt.alloc();
    let files = files_of(alloc, ONE_QUERY, b"")?;
    let left = run_files(&rt, alloc, &["check", "q"], files, (3, 100))?;
    assert_left(
        &rt,
        &left,
        Status::WriteFault,
        b"acc",
        b"write fault\n",
        "check",
    );
    Ok(())
}
