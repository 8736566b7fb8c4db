//! Words of a command line: the task that they ask for, and what a run of them leaves.

use crate::runs::{add, assert_left, run_files};
use item_tree::{NoMemory, Str};
use rumble_run::Status;
use run_words::{Task, WordFault, read_words};
use std::alloc::Global;
use std::process::Abort;
use std::sync::Wait;
use std::test::Fail;
use std::thread::Threads;

const USAGE: &str = "usage: rumble run QUERY | check QUERY | explain QUERY | trial NUMBER LINES\n";

// The words between single blanks; between two blanks stands an empty word.
fn words_of(alloc: Global, line: &str) -> Result<Vec<Str>, NoMemory> {
    let mut words = Vec::new(alloc);
    for word in line.split(' ') {
        words.push(Str::of(alloc, word)?)?;
    }
    Ok(words)
}

// A task as a line: the names and numbers of each command in the order of its fields.
fn told(alloc: Global, task: &Task) -> Result<String, NoMemory> {
    let line = match task {
        Task::Run {
            query,
            workers,
            size,
            local,
            stats,
        } => {
            let query = query.as_str();
            format!(in alloc; "run {query} {workers} {size} {local} {stats}")?
        }
        Task::Check { query } => {
            let query = query.as_str();
            format!(in alloc; "check {query}")?
        }
        Task::Explain { query } => {
            let query = query.as_str();
            format!(in alloc; "explain {query}")?
        }
        Task::Trial {
            number,
            lines,
            workers,
            size,
        } => format!(in alloc; "trial {number} {lines} {workers} {size}")?,
    };
    Ok(line)
}

// What the words of a line ask for, as a line.
fn read_line(alloc: Global, line: &str) -> Result<String, NoMemory> {
    let words = words_of(alloc, line)?;
    match read_words(alloc, &words) {
        Ok(task) => told(alloc, &task),
        Err(WordFault::Usage) => Ok(String::from_str(alloc, "usage")?),
        Err(WordFault::NoMemory) => Err(NoMemory),
    }
}

#[test]
fn words_ask_for_tasks(rt: HostRuntime) {
    let alloc = rt.alloc();
    for (line, task) in [
        ("run q", "run q 4 1048576 false false"),
        ("run --workers=064 q", "run q 64 1048576 false false"),
        ("run q --workers +2 --stats", "run q 2 1048576 false true"),
        (
            "run --mode local --partition 1 é.jq",
            "run é.jq 4 1 true false",
        ),
        (
            "run --mode=auto --partition=1073741824 --stats q --workers 1",
            "run q 1 1073741824 false true",
        ),
        ("run -- -q", "run -q 4 1048576 false false"),
        ("run --stats -- --stats", "run --stats 4 1048576 false true"),
        ("run q --", "run q 4 1048576 false false"),
        ("run ", "run  4 1048576 false false"),
        ("check q", "check q"),
        ("check -- --", "check --"),
        ("explain q", "explain q"),
        ("trial 1 4", "trial 1 4 4 1048576"),
        (
            "trial --workers 64 2147483647 --partition=+0004 1000000",
            "trial 2147483647 1000000 64 4",
        ),
        ("trial 0 -- 00", "trial 0 0 4 1048576"),
    ] {
        let read = read_line(alloc, line).expect(&rt, "memory");
        assert_eq!(rt; read.as_str(), task, "{line}");
    }
}

#[test]
fn other_words_ask_for_nothing(rt: HostRuntime) {
    let alloc = rt.alloc();
    assert!(rt; matches!(read_words(alloc, &[]), Err(WordFault::Usage)));
    for line in [
        "",
        "run",
        "Run q",
        "help",
        "--help",
        "run q r",
        "run q --workers 65",
        "run q --workers 0",
        "run q --workers=0",
        "run q --workers 2 --workers 2",
        "run q --workers",
        "run q --workers --stats",
        "run q --workers=",
        "run q --workers ++2",
        "run q --workers +",
        "run q --workers 18446744073709551617",
        "run q --work 2",
        "run q --partition -1",
        "run q --partition 0",
        "run q --partition 1073741825",
        "run q --mode Local",
        "run q --mode=local --mode local",
        "run q --stats --stats",
        "run q --stats=1",
        "run q --stats true",
        "run q --query q",
        "run q -",
        "run -q",
        "run --help",
        "run q --version",
        "run -- q --stats",
        "run --workers -- q",
        "check q --stats",
        "check q --workers 2",
        "explain",
        "explain q --mode auto",
        "trial 1",
        "trial 1 2 3",
        "trial 2147483648 1",
        "trial 1 1000001",
        "trial -1 1",
        "trial 1 4 --mode auto",
        "trial 1 4 --stats",
        "trial a 4",
    ] {
        let read = read_line(alloc, line).expect(&rt, "memory");
        assert_eq!(rt; read.as_str(), "usage", "{line}");
    }
}

// What words leave, over a query `q` and an input `a`.
fn assert_words<R: Threads + Wait + Sync + Abort>(
    rt: &R,
    alloc: Global,
    words: &[&str],
    query: &str,
    left: (Status, &str, &str),
) -> Result<(), Fail> {
    let mut files = Vec::new(alloc);
    add(alloc, &mut files, "q", query.as_bytes())?;
    add(alloc, &mut files, "-q", query.as_bytes())?;
    add(alloc, &mut files, "a", b"1\n{\"k\":\"\xc3\xbc\"}\n")?;
    let found = run_files(rt, alloc, words, files, (1000, 1000))?;
    let (status, out, err) = left;
    assert_left(rt, &found, status, out.as_bytes(), err.as_bytes(), query);
    Ok(())
}

// Options of a run; the statistics count what is on the output, and stand with no other status.
#[test]
fn takes_options(rt: HostRuntime) -> Result<(), Fail> {
    let alloc = rt.alloc();
    let query = "json-lines(\"a\")";
    let all = "1\n{\"k\":\"\u{fc}\"}\n";
    let cases: [(&[&str], &str, (Status, &str, &str)); 11] = [
        (
            &["run", "q", "--stats"],
            query,
            (Status::Done, all, "items 2 bytes 13\n"),
        ),
        (
            &["run", "--stats", "q"],
            "()",
            (Status::Done, "", "items 0 bytes 0\n"),
        ),
        (
            &["run", "--stats", "q"],
            "0",
            (Status::Done, "0\n", "items 1 bytes 2\n"),
        ),
        (
            &["run", "--stats", "q"],
            "1 div 0",
            (Status::Raised, "", "raised FOAR0001 at 1:3\n"),
        ),
        (
            &["run", "--stats", "q"],
            "$u",
            (Status::Refused, "", "refused XPST0008 at 1:1\n"),
        ),
        (
            &["run", "--stats", "none"],
            "0",
            (Status::NoQuery, "", "no query none\n"),
        ),
        (&["run", "--", "-q"], query, (Status::Done, all, "")),
        (
            &["run", "--workers=064", "q"],
            query,
            (Status::Done, all, ""),
        ),
        (
            &["run", "q", "--partition", "1"],
            query,
            (Status::Done, all, ""),
        ),
        (
            &["run", "--mode", "local", "q"],
            query,
            (Status::Done, all, ""),
        ),
        (
            &["check", "--", "q"],
            query,
            (Status::Done, "accepted\n", ""),
        ),
    ];
    for (words, query, left) in cases {
        assert_words(&rt, alloc, words, query, left)?;
    }
    Ok(())
}

// A query that is not there, and words that are of no command, or of one that is not there yet.
#[test]
fn refuses_other_words(rt: HostRuntime) -> Result<(), Fail> {
    let alloc = rt.alloc();
    for words in [&["check", "none"], &["explain", "none"], &["run", "none"]] {
        assert_words(
            &rt,
            alloc,
            words,
            "0",
            (Status::NoQuery, "", "no query none\n"),
        )?;
    }
    let zurich = (Status::NoQuery, "", "no query Z\u{fc}rich\n");
    assert_words(&rt, alloc, &["run", "Z\u{fc}rich"], "0", zurich)?;
    let cases: [&[&str]; 9] = [
        &[],
        &["run"],
        &["q"],
        &["Run", "q"],
        &["check", "-q"],
        &["run", "q", "q"],
        &["run", "q", "--workers", "65"],
        &["check", "q", "--stats"],
        &["explain", "q", "--mode=local"],
    ];
    for words in cases {
        assert_words(&rt, alloc, words, "0", (Status::Usage, "", USAGE))?;
    }
    Ok(())
}

// Trials, with what a plain loop over their lines counts and adds up.
#[test]
fn runs_trials(rt: HostRuntime) -> Result<(), Fail> {
    let alloc = rt.alloc();
    let cases: [(&[&str], &str); 4] = [
        (&["trial", "1", "0"], ""),
        (
            &["trial", "1", "4"],
            "{\"k\":\"g0\",\"n\":1,\"sum\":101.13}\n\
             {\"k\":\"g1\",\"n\":2,\"sum\":232.73}\n\
             {\"k\":\"g2\",\"n\":1,\"sum\":168.38}\n",
        ),
        (
            &["trial", "--workers", "2", "1", "5"],
            "{\"k\":\"g0\",\"n\":1,\"sum\":101.13}\n\
             {\"k\":\"g1\",\"n\":3,\"sum\":543.24}\n\
             {\"k\":\"g2\",\"n\":1,\"sum\":168.38}\n",
        ),
        (
            &["trial", "7", "3000"],
            "{\"k\":\"g0\",\"n\":827,\"sum\":137388.48}\n\
             {\"k\":\"g1\",\"n\":861,\"sum\":142966.83}\n\
             {\"k\":\"g2\",\"n\":867,\"sum\":143965.86}\n",
        ),
    ];
    for (words, out) in cases {
        assert_words(&rt, alloc, words, "0", (Status::Done, out, ""))?;
    }
    Ok(())
}
