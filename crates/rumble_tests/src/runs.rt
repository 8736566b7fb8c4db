//! Runs of the top call, and rows of tables that tell what a query leaves.

use item_tree::Str;
use outside::{Fails, FreeGate, Inputs, MemInputs, MemSink, Outputs, names_differ};
use rumble_run::{Status, rumble, rumble_parts};
use std::alloc::Global;
use std::process::Abort;
use std::sync::Wait;
use std::test::Fail;
use std::thread::Threads;

/// The ways to run the query `q`: all in one place; and in pieces of one byte, of four, and of the
/// size where none is asked for, by one worker and by two.
const WAYS: [&[&str]; 7] = [
    &["run", "q", "--mode", "local"],
    &["run", "q", "--partition", "1", "--workers", "1"],
    &["run", "q", "--partition", "1", "--workers", "2"],
    &["run", "q", "--partition", "4", "--workers", "1"],
    &["run", "q", "--partition", "4", "--workers", "2"],
    &["run", "q", "--workers", "1"],
    &["run", "q", "--workers", "2"],
];

/// What a run leaves.
#[derive(Drop)]
pub(crate) struct Outcome {
    pub status: Status,
    pub out: MemSink,
    pub err: MemSink,
}

pub(crate) type Files = Vec<(Str, Vec<u8>)>;

pub(crate) fn add(alloc: Global, files: &mut Files, name: &str, bytes: &[u8]) -> Result<(), Fail> {
    files.push((Str::of(alloc, name)?, bytes.to_vec(alloc)?))?;
    Ok(())
}

/// A query `q`, and the inputs `a` and `b`, of which `b` has the line 2.
pub(crate) fn files_of(alloc: Global, query: &[u8], input: &[u8]) -> Result<Files, Fail> {
    let mut files = Vec::new(alloc);
    add(alloc, &mut files, "q", query)?;
    add(alloc, &mut files, "a", input)?;
    add(alloc, &mut files, "b", b"2\n")?;
    Ok(files)
}

/// The opens and the calls that fail.
pub(crate) fn failing(alloc: Global, opens: &[u64], calls: &[(u64, u64)]) -> Result<Fails, Fail> {
    Ok(Fails {
        opens: opens.to_vec(alloc)?,
        calls: calls.to_vec(alloc)?,
    })
}

/// The words of a command line.
pub(crate) fn texts(alloc: Global, words: &[&str]) -> Result<Vec<Str>, Fail> {
    let mut texts = Vec::new(alloc);
    for word in words {
        texts.push(Str::of(alloc, word)?)?;
    }
    Ok(texts)
}

/// A run over these inputs, whose sinks have this room and take seven bytes at once.
pub(crate) fn run_over<R: Threads + Wait + Sync, I: Inputs + Drop>(
    rt: &R,
    alloc: Global,
    words: &[&str],
    inputs: I,
    room: (usize, usize),
) -> Result<Outcome, Fail> {
    let out = MemSink::new(alloc, room.0, 7)?;
    let err = MemSink::new(alloc, room.1, 7)?;
    run_into(rt, alloc, words, inputs, out, err)
}

/// A run over these inputs into these sinks.
pub(crate) fn run_into<R: Threads + Wait + Sync, I: Inputs + Drop>(
    rt: &R,
    alloc: Global,
    words: &[&str],
    mut inputs: I,
    mut out: MemSink,
    mut err: MemSink,
) -> Result<Outcome, Fail> {
    let words = texts(alloc, words)?;
    let status = rumble(
        rt,
        alloc,
        &words,
        &mut inputs,
        &mut out,
        &mut err,
        &FreeGate,
    );
    Ok(Outcome { status, out, err })
}

/// The same, where a result may be written as parts.
pub(crate) fn run_parts_over<R: Threads + Wait + Sync, I: Inputs + Drop, P: Outputs>(
    rt: &R,
    alloc: Global,
    words: &[&str],
    mut inputs: I,
    outputs: &mut P,
    room: (usize, usize),
) -> Result<Outcome, Fail> {
    let words = texts(alloc, words)?;
    let mut out = MemSink::new(alloc, room.0, 7)?;
    let mut err = MemSink::new(alloc, room.1, 7)?;
    let status = rumble_parts(
        rt,
        alloc,
        &words,
        &mut inputs,
        outputs,
        &mut out,
        &mut err,
        &FreeGate,
    );
    Ok(Outcome { status, out, err })
}

/// A run over these files, none of which fails.
pub(crate) fn run_files<R: Threads + Wait + Sync + Abort>(
    rt: &R,
    alloc: Global,
    words: &[&str],
    files: Files,
    room: (usize, usize),
) -> Result<Outcome, Fail> {
    assert!(rt; names_differ(&files));
    let inputs = MemInputs::steady(alloc, files)?;
    run_over(rt, alloc, words, inputs, room)
}

/// A run over these files, of which these fail.
pub(crate) fn run_failing<R: Threads + Wait + Sync + Abort>(
    rt: &R,
    alloc: Global,
    words: &[&str],
    files: Files,
    fails: Fails,
) -> Result<Outcome, Fail> {
    assert!(rt; names_differ(&files));
    let inputs = MemInputs::new(alloc, files, fails)?;
    run_over(rt, alloc, words, inputs, (300, 100))
}

/// That a run left this status, this output and this text for the errors.
pub(crate) fn assert_left<R: Abort>(
    rt: &R,
    left: &Outcome,
    status: Status,
    out: &[u8],
    err: &[u8],
    at: &str,
) {
    assert_eq!(rt; left.err.bytes(), err, "at {at}");
    assert_eq!(rt; left.out.bytes(), out, "at {at}");
    assert_eq!(rt; left.status, status, "at {at}");
}

/// That `check`, `explain` and `run` refuse a query so, and open no other file: a second open would
/// fail.
pub(crate) fn assert_refused<R: Threads + Wait + Sync + Abort>(
    rt: &R,
    alloc: Global,
    query: &[u8],
    at: &str,
) -> Result<(), Fail> {
    let text = format!(in alloc; "refused {at}\n")?;
    for command in ["check", "explain", "run"] {
        let files = files_of(alloc, query, b"1\n")?;
        let fails = failing(alloc, &[2], &[])?;
        let left = run_failing(rt, alloc, &[command, "q"], files, fails)?;
        assert_left(rt, &left, Status::Refused, b"", text.as_bytes(), at);
    }
    Ok(())
}

/// That `check` accepts a query, and opens no other file.
pub(crate) fn assert_accepted<R: Threads + Wait + Sync + Abort>(
    rt: &R,
    alloc: Global,
    query: &[u8],
) -> Result<(), Fail> {
    let files = files_of(alloc, query, b"1\n")?;
    let fails = failing(alloc, &[2], &[])?;
    let left = run_failing(rt, alloc, &["check", "q"], files, fails)?;
    assert_left(rt, &left, Status::Done, b"accepted\n", b"", "check");
    Ok(())
}

// That `explain` writes this of a query, and opens no other file.
fn assert_explained<R: Threads + Wait + Sync + Abort>(
    rt: &R,
    alloc: Global,
    query: &str,
    out: &str,
) -> Result<(), Fail> {
    let files = files_of(alloc, quoted(alloc, query)?.as_bytes(), b"1\n")?;
    let fails = failing(alloc, &[2], &[])?;
    let left = run_failing(rt, alloc, &["explain", "q"], files, fails)?;
    let out = lines(alloc, out)?;
    assert_left(rt, &left, Status::Done, out.as_bytes(), b"", query);
    Ok(())
}

// A text of a table, in which `'` stands for a quotation mark.
fn quoted(alloc: Global, text: &str) -> Result<String, Fail> {
    let mut out = String::new(alloc);
    for character in text.chars() {
        out.push(if character == '\'' { '"' } else { character })?;
    }
    Ok(out)
}

// The lines of a text of a table, between which stands ` / `.
fn lines(alloc: Global, text: &str) -> Result<String, Fail> {
    let mut out = String::new(alloc);
    if text.is_empty() {
        return Ok(out);
    }
    for line in text.split(" / ") {
        out.push_str(quoted(alloc, line)?.as_str())?;
        out.push('\n')?;
    }
    Ok(out)
}

// What a run of a query over the input `a` leaves, whichever way it is run.
fn assert_run<R: Threads + Wait + Sync + Abort>(
    rt: &R,
    alloc: Global,
    asked: &str,
    status: Status,
    out: &str,
    err: &str,
) -> Result<(), Fail> {
    let (query, input) = match asked.split_once("\n< ") {
        Some((query, input)) => (quoted(alloc, query)?, lines(alloc, input)?),
        None => (quoted(alloc, asked)?, String::new(alloc)),
    };
    for words in WAYS {
        let files = files_of(alloc, query.as_bytes(), input.as_bytes())?;
        let left = run_files(rt, alloc, words, files, (1000, 100))?;
        assert_left(rt, &left, status, out.as_bytes(), err.as_bytes(), asked);
    }
    Ok(())
}

fn assert_row<R: Threads + Wait + Sync + Abort>(
    rt: &R,
    alloc: Global,
    row: &str,
) -> Result<(), Fail> {
    if let Some((query, at)) = row.split_once("\n? ") {
        return assert_refused(rt, alloc, quoted(alloc, query)?.as_bytes(), at);
    }
    if let Some((query, _)) = row.split_once("\n= accepted") {
        return assert_accepted(rt, alloc, quoted(alloc, query)?.as_bytes());
    }
    if let Some((query, out)) = row.split_once("\n# ") {
        return assert_explained(rt, alloc, query, out);
    }
    if let Some((asked, at)) = row.split_once("\n! ") {
        let err = format!(in alloc; "raised {at}\n")?;
        return assert_run(rt, alloc, asked, Status::Raised, "", err.as_str());
    }
    let Some((asked, out)) = row.split_once("\n>") else {
        panic!(rt; "no end: {row}");
    };
    let out = lines(alloc, out.trim_start())?;
    assert_run(rt, alloc, asked, Status::Done, out.as_str(), "")
}

/// Goes through the rows of a table, between which stands an empty line, as many as it is to have.
/// In a row `'` stands for a quotation mark and ` / ` for the end of a line. It is a query; behind
/// `<` the lines of the input `a`, if it has any; and one of these: behind `>` the lines of the
/// output, behind `!` the error that is raised, behind `?` the refusal, behind `#` what `explain`
/// writes, or `= accepted`.
pub(crate) fn assert_rows<R: Threads + Wait + Sync + Abort>(
    rt: &R,
    alloc: Global,
    table: &str,
    count: usize,
) -> Result<(), Fail> {
    let mut found = 0usize;
    for row in table.trim().split("\n\n") {
        assert_row(rt, alloc, row)?;
        found = found.saturating_add(1);
    }
    assert_eq!(rt; found, count);
    Ok(())
}
