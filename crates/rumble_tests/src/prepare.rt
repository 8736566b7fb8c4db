//! What `prepare` hands out in place of writing it, and what it tells.

use crate::runs::{failing, files_of};
use item_tree::Str;
use outside::{Fails, FreeGate, MemInputs, MemSink, names_differ};
use rumble_run::{Status, prepare};
use std::alloc::Global;
use std::process::Abort;
use std::sync::Wait;
use std::test::Fail;
use std::thread::Threads;

fn texts(alloc: Global, words: &str) -> Result<Vec<Str>, Fail> {
    let mut texts = Vec::new(alloc);
    for word in words.split(' ') {
        texts.push(Str::of(alloc, word)?)?;
    }
    Ok(texts)
}

// That these words over the query `q` come to this output or status, with this text for the errors.
// The sink for the errors has room for 40 bytes.
fn assert_prepared<R: Threads + Wait + Sync + Abort>(
    rt: &R,
    alloc: Global,
    words: &str,
    query: &str,
    fails: Fails,
    want: (Result<&str, Status>, &str),
) -> Result<(), Fail> {
    let files = files_of(alloc, query.as_bytes(), b"1\n")?;
    assert!(rt; names_differ(&files));
    let mut inputs = MemInputs::new(alloc, files, fails)?;
    let mut err = MemSink::new(alloc, 40, 7)?;
    let asked = texts(alloc, words)?;
    let (status, out) = match prepare(rt, alloc, &asked, &mut inputs, &mut err, &FreeGate) {
        Ok(out) => (Status::Done, out),
        Err(status) => (status, Vec::new(alloc)),
    };
    let (wanted, text) = match want.0 {
        Ok(text) => (Status::Done, text),
        Err(status) => (status, ""),
    };
    assert_eq!(rt; err.bytes(), want.1.as_bytes(), "at {words}, {query}");
    assert_eq!(rt; out.as_slice(), text.as_bytes(), "at {words}, {query}");
    assert_eq!(rt; status, wanted, "at {words}, {query}");
    Ok(())
}

// An output is handed out, and nothing is told, with `--stats` neither. Else nothing is handed out,
// and what is told is cut short where the sink has no room.
#[test]
fn hands_out_or_tells(rt: HostRuntime) -> Result<(), Fail> {
    let alloc = rt.alloc();
    let usage = "usage: rumble run QUERY | check QUERY | ";
    let cases: [(&str, &str, Result<&str, Status>, &str); 12] = [
        ("run q", "1, 2 to 3", Ok("1\n2\n3\n"), ""),
        ("run q", "()", Ok(""), ""),
        (
            "run q",
            "json-lines(\"a\"), json-lines(\"b\")",
            Ok("1\n2\n"),
            "",
        ),
        ("run q --stats", "1 to 3", Ok("1\n2\n3\n"), ""),
        ("check q", "1", Ok("accepted\n"), ""),
        ("trial 1 0", "1", Ok(""), ""),
        (
            "run q",
            "1, 1 div 0",
            Err(Status::Raised),
            "raised FOAR0001 at 1:6\n",
        ),
        (
            "run q",
            "1 +",
            Err(Status::Refused),
            "refused XPST0003 at 1:4\n",
        ),
        (
            "check q",
            "$x",
            Err(Status::Refused),
            "refused XPST0008 at 1:1\n",
        ),
        ("run r", "1", Err(Status::NoQuery), "no query r\n"),
        ("write q", "1", Err(Status::Usage), usage),
        ("parts q 2", "1", Err(Status::Usage), usage),
    ];
    for (words, query, out, told) in cases {
        let fails = failing(alloc, &[], &[])?;
        assert_prepared(&rt, alloc, words, query, fails, (out, told))?;
    }
    Ok(())
}

// The query's file and an input, of which an open or a call fails.
#[test]
fn tells_failed_reads_too(rt: HostRuntime) -> Result<(), Fail> {
    let alloc = rt.alloc();
    let mut faults = Vec::new(alloc);
    for open in 1..3u64 {
        faults.push(failing(alloc, &[open], &[])?)?;
        faults.push(failing(alloc, &[], &[(open, 1)])?)?;
    }
    for fails in faults {
        let want = (Err(Status::ReadFault), "read fault\n");
        assert_prepared(&rt, alloc, "run q", "json-lines(\"a\")", fails, want)?;
    }
    Ok(())
}

// A name of which there is no file is looked for once, however often it is named: the query's file
// is the first open, and the fourth would fail.
#[test]
fn looks_for_a_missing_name_once(rt: HostRuntime) -> Result<(), Fail> {
    let alloc = rt.alloc();
    let query = "if (true) then json-lines(\"a\") else (json-lines(\"c\"), json-lines(\"c\"))";
    let fails = failing(alloc, &[4], &[])?;
    assert_prepared(&rt, alloc, "run q", query, fails, (Ok("1\n"), ""))?;
    let fails = failing(alloc, &[2], &[])?;
    assert_prepared(&rt, alloc, "check q", query, fails, (Ok("accepted\n"), ""))
}
