//! Files that fail at each call in turn, sinks that fill up, files that are cut, and slow reads.

use crate::queries::{SALES, STORES, TOTALS};
use crate::runs::{Files, add, assert_left, failing, run_failing, run_files, run_into, run_over};
use outside::{Fails, MemInputs, MemSink, names_differ};
use rumble_run::Status;
use std::alloc::Global;
use std::process::Abort;
use std::sync::Wait;
use std::test::Fail;
use std::thread::Threads;

// A query `q` over the lines `a`.
fn files(alloc: Global, query: &str, input: &[u8]) -> Result<Files, Fail> {
    let mut files = Vec::new(alloc);
    add(alloc, &mut files, "q", query.as_bytes())?;
    add(alloc, &mut files, "a", input)?;
    Ok(files)
}

// Whether a run over the sales meets one of these failures. It leaves a read fault and no output
// then, and else the totals.
fn fails<R: Threads + Wait + Sync + Abort>(
    rt: &R,
    alloc: Global,
    fails: Fails,
) -> Result<bool, Fail> {
    let files = files(alloc, TOTALS, SALES.as_bytes())?;
    let words = ["run", "--workers", "1", "q"];
    let left = run_failing(rt, alloc, &words, files, fails)?;
    if left.status == Status::Done {
        assert_left(rt, &left, Status::Done, STORES.as_bytes(), b"", "none");
        return Ok(false);
    }
    assert_left(rt, &left, Status::ReadFault, b"", b"read fault\n", "one");
    Ok(true)
}

// Each open fails in turn, until a run meets no failure.
#[test]
fn tells_each_open_that_fails(rt: HostRuntime) -> Result<(), Fail> {
    let alloc = rt.alloc();
    let mut met = 0usize;
    for open in 1..10u64 {
        if !fails(&rt, alloc, failing(alloc, &[open], &[])?)? {
            break;
        }
        met = met.saturating_add(1);
    }
    assert_eq!(rt; met, 2);
    Ok(())
}

// Each call on the query, and then each on its input, fails in turn, until a run meets no failure.
// A file is asked for its length, and read at least once.
#[test]
fn tells_each_call_that_fails(rt: HostRuntime) -> Result<(), Fail> {
    let alloc = rt.alloc();
    for open in 1..3u64 {
        let mut met = 0usize;
        for call in 1..50u64 {
            if !fails(&rt, alloc, failing(alloc, &[], &[(open, call)])?)? {
                break;
            }
            met = met.saturating_add(1);
        }
        assert!(rt; 2 <= met && met < 49, "{open}: {met}");
    }
    Ok(())
}

// A sink with room for less than all bytes holds as many as it has room for.
#[test]
fn fills_a_sink(rt: HostRuntime) -> Result<(), Fail> {
    let alloc = rt.alloc();
    let whole = STORES.as_bytes();
    for room in 0..whole.len() {
        let files = files(alloc, TOTALS, SALES.as_bytes())?;
        let left = run_files(&rt, alloc, &["run", "q"], files, (room, 100))?;
        let held = &whole[..room];
        assert_left(
            &rt,
            &left,
            Status::WriteFault,
            held,
            b"write fault\n",
            "a full sink",
        );
    }
    Ok(())
}

// A sink that takes nothing, though it has room.
#[test]
fn writes_to_a_sink_that_takes_nothing(rt: HostRuntime) -> Result<(), Fail> {
    let alloc = rt.alloc();
    let files = files(alloc, TOTALS, SALES.as_bytes())?;
    assert!(rt; names_differ(&files));
    let inputs = MemInputs::steady(alloc, files)?;
    let out = MemSink::new(alloc, 1000, 0)?;
    let err = MemSink::new(alloc, 100, 7)?;
    let left = run_into(&rt, alloc, &["run", "q"], inputs, out, err)?;
    assert_left(
        &rt,
        &left,
        Status::WriteFault,
        b"",
        b"write fault\n",
        "no bytes",
    );
    Ok(())
}

// What a run leaves of the sales up to a byte does not depend on the mode, the size of a piece and
// the number of workers.
fn assert_cut<R: Threads + Wait + Sync + Abort>(
    rt: &R,
    alloc: Global,
    lines: &[u8],
) -> Result<(), Fail> {
    let local = ["run", "--mode", "local", "q"];
    let pieces = ["run", "--partition", "1", "--workers", "64", "q"];
    let first = run_files(rt, alloc, &local, files(alloc, TOTALS, lines)?, (1000, 100))?;
    let left = run_files(
        rt,
        alloc,
        &pieces,
        files(alloc, TOTALS, lines)?,
        (1000, 100),
    )?;
    let (out, err) = (first.out.bytes(), first.err.bytes());
    assert_left(rt, &left, first.status, out, err, "a cut file");
    Ok(())
}

#[test]
fn reads_sales_cut_anywhere(rt: HostRuntime) -> Result<(), Fail> {
    let alloc = rt.alloc();
    let lines = SALES.as_bytes();
    for end in 0..lines.len() {
        assert_cut(&rt, alloc, &lines[..end])?;
    }
    Ok(())
}

// Without its last bracket the last line is no JSON, wherever the lines before it are grouped.
#[test]
fn refuses_a_last_line_that_is_cut(rt: HostRuntime) -> Result<(), Fail> {
    let alloc = rt.alloc();
    let Some((lines, _)) = SALES.trim_end().rsplit_once('}') else {
        panic!(rt; "no bracket");
    };
    let files = files(alloc, TOTALS, lines.as_bytes())?;
    let left = run_files(&rt, alloc, &["run", "q"], files, (1000, 100))?;
    let err = b"raised JNDY0021 at 1:11 clause 1 tuple 1\n";
    assert_left(&rt, &left, Status::Raised, b"", err, "a cut line");
    Ok(())
}

/// A line that is longer than many a piece, between two short ones.
pub(crate) const LONG_STRING: &str = "1
\"xxxxxxxxxxxxxxxxxxxxxxxxxxxxxxxxxxxxxx\"
3
";

const DIVISION: &str =
    "for $x in json-lines(\"a\") let $y := $x.a div $x.b where $x.c + 1 gt 0 return $y";

const DIVISORS: &str = "{\"a\":1,\"b\":1,\"c\":\"s\"}
{\"a\":1,\"b\":0,\"c\":1}
";

// Files that give one byte at a time.
#[test]
fn reads_byte_by_byte(rt: HostRuntime) -> Result<(), Fail> {
    let alloc = rt.alloc();
    let lines = "json-lines(\"a\")";
    let zero = "raised FOAR0001 at 1:42 clause 2 tuple 2\n";
    let cases = [
        (lines, "\u{feff}1\r\n \n2", Status::Done, "1\n2\n", ""),
        (DIVISION, DIVISORS, Status::Raised, "", zero),
        (lines, LONG_STRING, Status::Done, LONG_STRING, ""),
        (TOTALS, SALES, Status::Done, STORES, ""),
    ];
    for (query, input, status, out, err) in cases {
        let files = files(alloc, query, input.as_bytes())?;
        assert!(rt; names_differ(&files));
        let inputs = MemInputs::slow(alloc, files, 1)?;
        let left = run_over(&rt, alloc, &["run", "q"], inputs, (1000, 100))?;
        assert_left(&rt, &left, status, out.as_bytes(), err.as_bytes(), query);
    }
    Ok(())
}

// A sink for errors without room leaves each status as it is.
#[test]
fn tells_a_status_without_its_text(rt: HostRuntime) -> Result<(), Fail> {
    let alloc = rt.alloc();
    let cases = [
        (["run", "q"], "1 to 3", 1000, Status::Done, "1\n2\n3\n"),
        (["run", "q"], "1 div 0", 1000, Status::Raised, ""),
        (["run", "q"], "$x", 1000, Status::Refused, ""),
        (["run", "--no"], "1", 1000, Status::Usage, ""),
        (["run", "q"], "12", 1, Status::WriteFault, "1"),
        (["run", "none"], "1", 1000, Status::NoQuery, ""),
    ];
    for (words, query, room, status, out) in cases {
        let files = files(alloc, query, b"")?;
        let left = run_files(&rt, alloc, &words, files, (room, 0))?;
        assert_left(&rt, &left, status, out.as_bytes(), b"", query);
    }
    Ok(())
}
