//! Runs whose result is written as numbered parts.

use crate::runs::{add, assert_left, run_parts_over};
use item_tree::Str;
use outside::{MemInputs, MemOutputs, MemSink, names_differ};
use rumble_run::Status;
use std::alloc::Global;
use std::process::Abort;
use std::sync::Wait;
use std::test::Fail;
use std::thread::Threads;

// Each part's number with its bytes, whose line feeds are written as bars, and a blank behind it.
fn text_of(alloc: Global, parts: &[MemSink]) -> Result<Vec<u8>, Fail> {
    let mut text = Vec::new(alloc);
    for part in parts {
        let number = format!(in alloc; "{}:", part.label())?;
        text.extend_from_slice(number.as_bytes())?;
        for byte in part.bytes() {
            text.push(if *byte == b'\n' { b'/' } else { *byte })?;
        }
        text.push(b' ')?;
    }
    Ok(text)
}

// The numbered outputs of a row, and the room of the sink for the list.
#[derive(Drop)]
struct Room<'a> {
    count: u32,
    part: usize,
    fails: &'a [u32],
    list: usize,
}

// What a row leaves.
#[derive(Drop)]
struct Left<'a> {
    status: Status,
    parts: &'a [u8],
    out: &'a [u8],
    err: &'a [u8],
}

fn assert_parts<R: Threads + Wait + Sync + Abort>(
    rt: &R,
    alloc: Global,
    words: &[&str],
    query: &[u8],
    room: &Room<'_>,
    want: &Left<'_>,
) -> Result<(), Fail> {
    let mut files: Vec<(Str, Vec<u8>)> = Vec::new(alloc);
    add(alloc, &mut files, "q", query)?;
    assert!(rt; names_differ(&files));
    let inputs = MemInputs::steady(alloc, files)?;
    let fails = room.fails.to_vec(alloc)?;
    let mut outputs = MemOutputs::new(alloc, room.count, room.part, fails)?;
    let left = run_parts_over(rt, alloc, words, inputs, &mut outputs, (room.list, 100))?;
    assert_left(rt, &left, want.status, want.out, want.err, "a row");
    let parts = text_of(alloc, outputs.done())?;
    assert_eq!(rt; parts.as_slice(), want.parts);
    Ok(())
}

const PLENTY: Room<'_> = Room {
    count: 5,
    part: 99,
    fails: &[],
    list: 999,
};

// Runs that succeed: the words, the query, the parts and the list of them.
#[test]
fn writes_parts_and_their_list(rt: HostRuntime) -> Result<(), Fail> {
    let two = "part-0000 4\npart-0001 2\n";
    let five = "part-0000 2\npart-0001 2\npart-0002 2\npart-0003 0\npart-0004 0\n";
    let cases: [(&[&str], &str, &str, &str); 8] = [
        (&["parts", "q", "2"], "1 to 3", "0:1/2/ 1:3/ ", two),
        (&["parts", "q", "+02"], "1 to 3", "0:1/2/ 1:3/ ", two),
        (
            &["parts", "--workers", "2", "q", "--partition=4", "2"],
            "1 to 3",
            "0:1/2/ 1:3/ ",
            two,
        ),
        (&["parts", "--", "q", "2"], "1 to 3", "0:1/2/ 1:3/ ", two),
        (
            &["parts", "q", "2"],
            "()",
            "0: 1: ",
            "part-0000 0\npart-0001 0\n",
        ),
        (&["parts", "q", "1"], "1 to 3", "0:1/2/3/ ", "part-0000 6\n"),
        (
            &["parts", "q", "5"],
            "1 to 3",
            "0:1/ 1:2/ 2:3/ 3: 4: ",
            five,
        ),
        (&["run", "q"], "1 to 3", "", "1\n2\n3\n"),
    ];
    for (words, query, parts, out) in cases {
        let want = Left {
            status: Status::Done,
            parts: parts.as_bytes(),
            out: out.as_bytes(),
            err: b"",
        };
        assert_parts(&rt, rt.alloc(), words, query.as_bytes(), &PLENTY, &want)?;
    }
    Ok(())
}

// Runs that come to nothing: no part is made.
#[test]
fn makes_no_part_without_a_result(rt: HostRuntime) -> Result<(), Fail> {
    let usage = "usage: rumble parts QUERY COUNT\n";
    let cases: [(&[&str], &str, Status, &str); 10] = [
        (&["parts", "q", "0"], "1", Status::Usage, usage),
        (&["parts", "q", "1001"], "1", Status::Usage, usage),
        (&["parts", "q"], "1", Status::Usage, usage),
        (&["parts", "2", "q"], "1", Status::Usage, usage),
        (&["parts", "q", "2", "3"], "1", Status::Usage, usage),
        (&["parts", "q", "2", "--stats"], "1", Status::Usage, usage),
        (&["parts", "q", "2", "--workers"], "1", Status::Usage, usage),
        (
            &["parts", "none", "2"],
            "1",
            Status::NoQuery,
            "no query none\n",
        ),
        (
            &["parts", "q", "2"],
            "1 div 0",
            Status::Raised,
            "raised FOAR0001 at 1:3\n",
        ),
        (
            &["parts", "q", "2"],
            "$x",
            Status::Refused,
            "refused XPST0008 at 1:1\n",
        ),
    ];
    for (words, query, status, err) in cases {
        let want = Left {
            status,
            parts: b"",
            out: b"",
            err: err.as_bytes(),
        };
        assert_parts(&rt, rt.alloc(), words, query.as_bytes(), &PLENTY, &want)?;
    }
    Ok(())
}

// Outputs that fail: the query, the number of parts, the room of each, the numbers that fail, the
// room for the list, and what stands of both.
#[test]
fn stops_where_a_part_fails(rt: HostRuntime) -> Result<(), Fail> {
    let cases: [(&str, &str, usize, &[u32], usize, &str, &str); 6] = [
        ("1 to 3", "2", 99, &[1], 999, "0:1/2/ ", ""),
        ("1 to 3", "2", 99, &[0], 999, "", ""),
        ("1 to 9", "5", 99, &[2], 999, "0:1/2/ 1:3/4/ ", ""),
        ("\"a\", \"bcd\"", "2", 4, &[], 999, "0:\"a\"/ 1:\"bcd ", ""),
        ("1 to 3", "2", 99, &[], 5, "0:1/2/ 1:3/ ", "part-"),
        ("()", "1", 99, &[], 0, "0: ", ""),
    ];
    for (query, count, part, fails, list, parts, out) in cases {
        let room = Room {
            count: 5,
            part,
            fails,
            list,
        };
        let want = Left {
            status: Status::WriteFault,
            parts: parts.as_bytes(),
            out: out.as_bytes(),
            err: b"write fault\n",
        };
        let words = ["parts", "q", count];
        assert_parts(&rt, rt.alloc(), &words, query.as_bytes(), &room, &want)?;
    }
    Ok(())
}

// The most parts that there may be: three have a line, and the others nothing.
#[test]
fn writes_a_thousand_parts(rt: HostRuntime) -> Result<(), Fail> {
    let alloc = rt.alloc();
    let mut files: Vec<(Str, Vec<u8>)> = Vec::new(alloc);
    add(alloc, &mut files, "q", b"1 to 3")?;
    assert!(rt; names_differ(&files));
    let inputs = MemInputs::steady(alloc, files)?;
    let mut outputs = MemOutputs::new(alloc, 1000, 2, Vec::new(alloc))?;
    let words = ["parts", "q", "1000"];
    let left = run_parts_over(&rt, alloc, &words, inputs, &mut outputs, (12_000, 0))?;
    assert_eq!(rt; left.status, Status::Done);
    assert_eq!(rt; outputs.done().len(), 1000);
    let line = b"part-0999 0\n".as_slice();
    assert_eq!(rt; left.out.bytes().len(), 12_000);
    assert!(rt; left.out.bytes().ends_with(line));
    Ok(())
}
