//! Runs along the plan: faults in later pieces, how often the files of drivers are opened, and that
//! workers share the pieces.

use crate::hostile::LONG_STRING;
use crate::runs::{add, assert_rows, failing, files_of, run_failing, texts};
use outside::{Gate, MemInputs, MemSink, names_differ};
use rumble_run::{Status, rumble};
use std::alloc::Global;
use std::process::Abort;
use std::sync::Wait;
use std::sync::atomic::{AtomicBool, AtomicU64, Ordering};
use std::test::Fail;
use std::thread::Threads;

// Faults behind the first piece, and what of them a `try` catches that holds a whole run over
// pieces; several runs over pieces in one query; and several files in one run.
const DRIVEN: &str = "
json-lines('a')
< 1 / 2 / 03
! JNDY0021 at 1:1

count(json-lines('a'))
< 1 / 2 / 03
! JNDY0021 at 1:7

for $x in json-lines('a') let $y := 6 div $x return $y
< 1 / 2 / 0 / 03
! JNDY0021 at 1:11 clause 1 tuple 1

for $x in json-lines('a') let $y := 6 div $x return $y
< 1 / 2 / 0 / 'x'
! FOAR0001 at 1:39 clause 2 tuple 3

try { json-lines('a') } catch JNDY0021 { 'c' }, json-lines('b')
< 1 / 2 / 03
> 'c' / 2

try { json-lines('a') } catch FOAR0001 { 'c' }
< 1 / 03
! JNDY0021 at 1:7

try { 0, for $x in json-lines('a') return 6 div $x } catch * { $err:code, count(json-lines('a')) }
< 1 / 2 / 0
> 'FOAR0001' / 3

try { json-lines('a'), json-lines('none') } catch FODC0002 { 'none' }, 1
< 1 / 2
> 'none' / 1

json-lines('a', 'none')
< 1
! FODC0002 at 1:1

for $x in json-lines('a', 'b') order by $x descending return $x
< 1 / 3
> 3 / 2 / 1

(json-lines('a'), (), (json-lines('b'))), count(json-lines('a')), sum(json-lines('b', 'a', 'b'))
< 5 / 6
> 5 / 6 / 2 / 2 / 15
";

#[test]
fn runs_along_plans(rt: HostRuntime) -> Result<(), Fail> {
    assert_rows(&rt, rt.alloc(), DRIVEN, 11)
}

// That a run opens so many files, those counted that are not there: the last open fails the run,
// and the one behind it would, but there is none.
fn assert_opens<R: Threads + Wait + Sync + Abort>(
    rt: &R,
    alloc: Global,
    options: (&str, &str),
    query: &str,
    left: (u64, Status),
) -> Result<(), Fail> {
    let words = ["run", "q", "--partition=2", options.0, options.1];
    let (opens, status) = left;
    for (failing_open, wanted) in [
        (opens, Status::ReadFault),
        (opens.saturating_add(1), status),
    ] {
        let files = files_of(alloc, query.as_bytes(), b"1\n2\n3\n")?;
        let fails = failing(alloc, &[failing_open], &[])?;
        let found = run_failing(rt, alloc, &words, files, fails)?;
        assert_eq!(rt; found.status, wanted, "open {failing_open} of {query}");
    }
    Ok(())
}

// The query's file is opened once. Of the three pieces of `a` each worker takes some, over a file
// of its own; what no driver reads is opened once, wherever it stands. A driver stops at the first
// file that is missing.
#[test]
fn opens_for_each_worker(rt: HostRuntime) -> Result<(), Fail> {
    let alloc = rt.alloc();
    let local = ("--mode=local", "--workers=2");
    let one = ("--mode=auto", "--workers=1");
    let two = ("--mode=auto", "--workers=2");
    let many = ("--mode=auto", "--workers=64");
    let beside = "for $x in json-lines(\"a\") where $x = json-lines(\"b\") return $x";
    let twice = "json-lines(\"a\"), json-lines(\"a\")";
    let handler = "try { 1 div 0 } catch * { json-lines(\"b\") }, json-lines(\"a\")";
    let caught = "try { json-lines(\"none\"), json-lines(\"a\") } catch * { 1 }";
    let cases = [
        (local, "json-lines(\"a\")", (2, Status::Done)),
        (one, "json-lines(\"a\")", (2, Status::Done)),
        (two, "json-lines(\"a\")", (3, Status::Done)),
        (many, "json-lines(\"a\")", (4, Status::Done)),
        (local, twice, (2, Status::Done)),
        (two, twice, (5, Status::Done)),
        (two, "count(json-lines(\"a\", \"b\"))", (5, Status::Done)),
        (two, "count(json-lines(\"a\")) + 1", (2, Status::Done)),
        (two, beside, (4, Status::Done)),
        (two, handler, (4, Status::Done)),
        (two, caught, (2, Status::Done)),
        (two, "json-lines(\"none\")", (2, Status::Raised)),
        (
            two,
            "json-lines(\"a\", \"none\", \"b\")",
            (3, Status::Raised),
        ),
    ];
    for (options, query, left) in cases {
        assert_opens(&rt, alloc, options, query, left)?;
    }
    Ok(())
}

// A `try` catches no failure of a read. One worker reads all pieces, so that each call is made.
#[test]
fn catches_no_read_fault(rt: HostRuntime) -> Result<(), Fail> {
    let alloc = rt.alloc();
    for call in [1, 2, 3] {
        let query = b"try { json-lines(\"a\") } catch * { 1 }";
        let files = files_of(alloc, query, b"1\n2\n3\n")?;
        let fails = failing(alloc, &[], &[(2, call)])?;
        let words = ["run", "q", "--partition", "2", "--workers", "1"];
        let left = run_failing(&rt, alloc, &words, files, fails)?;
        assert_eq!(rt; left.status, Status::ReadFault, "call {call} on the input");
    }
    Ok(())
}

// A run of a query over the input `a`, in pieces of this size by two workers.
fn run_at<R: Threads + Wait + Sync + Abort, G: Gate>(
    rt: &R,
    alloc: Global,
    query: &str,
    input: &str,
    size: &str,
    gate: &G,
) -> Result<Status, Fail> {
    let mut files = Vec::new(alloc);
    add(alloc, &mut files, "q", query.as_bytes())?;
    add(alloc, &mut files, "a", input.as_bytes())?;
    assert!(rt; names_differ(&files));
    let mut inputs = MemInputs::steady(alloc, files)?;
    let mut out = MemSink::new(alloc, 1000, 100)?;
    let mut err = MemSink::new(alloc, 100, 100)?;
    let words = ["run", "q", "--workers", "2", "--partition", size];
    let words = texts(alloc, &words)?;
    let status = rumble(rt, alloc, &words, &mut inputs, &mut out, &mut err, gate);
    Ok(status)
}

// Piece 0 waits until piece 1 is done, up to a number of turns.
#[derive(Drop)]
struct Meeting {
    met: AtomicBool,
    saw: AtomicBool,
}

impl Gate for Meeting {
    fn before(&self, piece: u64) {
        if piece == 0 {
            for _turn in 0..300_000_000u64 {
                if self.met.load(Ordering::SeqCst) {
                    self.saw.store(true, Ordering::SeqCst);
                    break;
                }
            }
        }
    }

    fn after(&self, piece: u64) {
        if piece == 1 {
            self.met.store(true, Ordering::SeqCst);
        }
    }
}

#[test]
fn gate_two_workers(rt: HostRuntime) -> Result<(), Fail> {
    let alloc = rt.alloc();
    let gate = Meeting {
        met: AtomicBool::new(false),
        saw: AtomicBool::new(false),
    };
    let status = run_at(&rt, alloc, "json-lines(\"a\")", "1\n2\n", "2", &gate)?;
    assert_eq!(rt; status, Status::Done);
    assert!(rt; gate.saw.load(Ordering::SeqCst));
    Ok(())
}

// How often the gate was called before each piece and after it.
#[derive(Drop)]
struct Counting {
    before: Vec<AtomicU64>,
    after: Vec<AtomicU64>,
}

fn count(counts: &[AtomicU64], piece: u64) {
    for (place, count) in (0u64..).zip(counts) {
        if place == piece {
            count.fetch_add(1, Ordering::SeqCst);
        }
    }
}

impl Gate for Counting {
    fn before(&self, piece: u64) {
        count(&self.before, piece);
    }

    fn after(&self, piece: u64) {
        count(&self.after, piece);
    }
}

fn zeros(alloc: Global) -> Result<Vec<AtomicU64>, Fail> {
    let mut counts = Vec::new(alloc);
    for _piece in 0..12usize {
        counts.push(AtomicU64::new(0))?;
    }
    Ok(counts)
}

// That the gate was called once for each piece but the first, and for the first at least once: the
// pieces of what a run sorts or groups are numbered anew.
fn assert_once<R: Abort>(rt: &R, counts: &[AtomicU64], query: &str) {
    for (place, count) in (0u64..).zip(counts) {
        let times = count.load(Ordering::SeqCst);
        let right = if place == 0 { times >= 1 } else { times == 1 };
        assert!(rt; right, "{times} times at piece {place} of {query}");
    }
}

#[test]
fn gate_each_piece(rt: HostRuntime) -> Result<(), Fail> {
    let alloc = rt.alloc();
    for query in [
        "json-lines(\"a\")",
        "count(json-lines(\"a\"))",
        "for $x in json-lines(\"a\") group by $k := 1 return count($x)",
        "for $x in json-lines(\"a\") order by 1 return $x",
    ] {
        let gate = Counting {
            before: zeros(alloc)?,
            after: zeros(alloc)?,
        };
        let status = run_at(&rt, alloc, query, LONG_STRING, "4", &gate)?;
        assert_eq!(rt; status, Status::Done);
        assert_once(&rt, &gate.before, query);
        assert_once(&rt, &gate.after, query);
    }
    Ok(())
}
