//! Inputs, line by line: what is printed of them, and the first line that is at fault.

use crate::runs::{
    Outcome, add, assert_left, assert_refused, failing, files_of, run_failing, run_files,
};
use rumble_run::Status;
use std::alloc::Global;
use std::process::Abort;
use std::sync::Wait;
use std::test::Fail;
use std::thread::Threads;

// What a query that is one input leaves of it.
fn lines_of<R: Threads + Wait + Sync + Abort>(
    rt: &R,
    alloc: Global,
    input: &[u8],
) -> Result<Outcome, Fail> {
    let files = files_of(alloc, b"json-lines(\"a\")", input)?;
    run_files(rt, alloc, &["run", "q"], files, (1000, 100))
}

// Inputs, and what is printed.
#[test]
fn prints_the_items(rt: HostRuntime) -> Result<(), Fail> {
    let alloc = rt.alloc();
    let cases: [(&[u8], &str); 16] = [
        (b"12\n-0\n -7 ", "12\n0\n-7\n"),
        (b"", ""),
        (b"7", "7\n"),
        (b"\xef\xbb\xbf1\r\n \n2", "1\n2\n"),
        (
            b"99999999999999999999\n-99999999999999999999\n",
            "99999999999999999999\n-99999999999999999999\n",
        ),
        (b"1e-6\n1.50\n1E2\n", "0.000001\n1.5\n100\n"),
        (b"1e0\n-0.0\n1e-400\n-12.3456785e0", "1\n0\n0\n-12.345678\n"),
        (
            b"1\n\"xxxxxxxxxxxxxxxxxxxxxxxxxxxxxxxxxxxxxx\"\n3",
            "1\n\"xxxxxxxxxxxxxxxxxxxxxxxxxxxxxxxxxxxxxx\"\n3\n",
        ),
        (
            b"{\"k\":1,\"m\":2,\"k\":3}\n\"\\ud800\"",
            "{\"k\":3,\"m\":2}\n\"\u{fffd}\"\n",
        ),
        (b"null\ntrue\nfalse\n", "null\ntrue\nfalse\n"),
        (
            b" { \"a\" : [ 1 , 2.50 ] , \"b\" : { } }\t\n[ ]\r\n",
            "{\"a\":[1,2.5],\"b\":{}}\n[]\n",
        ),
        (
            b"\"\\u0041\\/\\\\\\\"\\b\\f\\n\\r\\t\\u001f\"",
            "\"A/\\\\\\\"\\b\\f\\n\\r\\t\\u001f\"\n",
        ),
        (b"\"\\ud83d\\ude00\\u00e9\"", "\"\u{1f600}\u{e9}\"\n"),
        (b"\"\\ude00\\ud83d\"", "\"\u{fffd}\u{fffd}\"\n"),
        (
            b"99999999999999999999.999999",
            "99999999999999999999.999999\n",
        ),
        (b"[\"M\xc3\xbcsli\"]", "[\"M\u{fc}sli\"]\n"),
    ];
    for (input, out) in cases {
        let left = lines_of(&rt, alloc, input)?;
        assert_left(&rt, &left, Status::Done, out.as_bytes(), b"", out);
        // What is printed reads back.
        let again = lines_of(&rt, alloc, out.as_bytes())?;
        assert_left(&rt, &again, Status::Done, out.as_bytes(), b"", out);
    }
    Ok(())
}

// The line of a string of this many bytes, of which the one at this place is an escaped quote.
fn push_quoted(input: &mut Vec<u8>, len: usize, place: usize) -> Result<(), Fail> {
    input.push(b'"')?;
    for i in 0..len {
        input.extend_from_slice(if i == place { b"\\\"" } else { b"x" })?;
    }
    input.extend_from_slice(b"\"\n")?;
    Ok(())
}

// Strings of each length up to 100, with an escaped quote at each place, are printed as they are
// read.
#[test]
fn prints_escaped_quotes(rt: HostRuntime) -> Result<(), Fail> {
    let alloc = rt.alloc();
    let mut input = Vec::new(alloc);
    for len in 0..101usize {
        for place in 0..len + 1 {
            push_quoted(&mut input, len, place)?;
        }
    }
    let files = files_of(alloc, b"json-lines(\"a\")", &input)?;
    let left = run_files(&rt, alloc, &["run", "q"], files, (input.len(), 100))?;
    assert_left(&rt, &left, Status::Done, &input, b"", "quotes");
    Ok(())
}

// Inputs with a faulty line, and the code of the first.
#[test]
fn raises_the_first_fault(rt: HostRuntime) -> Result<(), Fail> {
    let alloc = rt.alloc();
    let cases: [(&[u8], &str); 14] = [
        (b"1\n01", "JNDY0021"),
        (b"1\n\xef\xbb\xbf2\n", "JNDY0021"),
        (b"99999999999999999999\n100000000000000000000", "PJDY0004"),
        (b"1\n100000000000000000000\n01\n", "PJDY0004"),
        (b"1\n01\n100000000000000000000\n", "JNDY0021"),
        (b"1e-6\n1e20", "PJDY0004"),
        (b"[1e20,", "JNDY0021"),
        (b"[1e20]", "PJDY0004"),
        (b"{\"a\":1", "JNDY0021"),
        (b"1 2", "JNDY0021"),
        (b"\"\xff\"", "JNDY0021"),
        (b"\"\x01\"", "JNDY0021"),
        (b"nul", "JNDY0021"),
        (b"+1", "JNDY0021"),
    ];
    for (input, code) in cases {
        let left = lines_of(&rt, alloc, input)?;
        let text = format!(in alloc; "raised {code} at 1:1\n")?;
        assert_left(&rt, &left, Status::Raised, b"", text.as_bytes(), code);
    }
    Ok(())
}

// This many brackets that open, and as many that close.
fn brackets(alloc: Global, count: usize) -> Result<Vec<u8>, Fail> {
    let mut text = Vec::new(alloc);
    for _ in 0..count {
        text.push(b'[')?;
    }
    for _ in 0..count {
        text.push(b']')?;
    }
    Ok(text)
}

// The depth of 128 is read and printed, and one more is not.
#[test]
fn keeps_the_depth(rt: HostRuntime) -> Result<(), Fail> {
    let alloc = rt.alloc();
    let deepest = brackets(alloc, 128)?;
    let left = lines_of(&rt, alloc, &deepest)?;
    let mut printed = deepest.clone()?;
    printed.push(b'\n')?;
    assert_left(&rt, &left, Status::Done, &printed, b"", "128");
    let left = lines_of(&rt, alloc, &brackets(alloc, 129)?)?;
    let err = b"raised PJDY0002 at 1:1\n";
    assert_left(&rt, &left, Status::Raised, b"", err, "129");
    // A million brackets that open take no deeper stack.
    let left = lines_of(&rt, alloc, &vec![in alloc; b'['; 1_000_000]?)?;
    let err = b"raised JNDY0021 at 1:1\n";
    assert_left(&rt, &left, Status::Raised, b"", err, "a million");
    Ok(())
}

// What a run raises, at the place of `json-lines`, and what it prints.
#[test]
fn reads_the_named_input(rt: HostRuntime) -> Result<(), Fail> {
    let alloc = rt.alloc();
    let cases: [(&[u8], Status, &str, &str); 8] = [
        (b" (: c :) json-lines (  \"a\"  ) ", Status::Done, "1\n", ""),
        (
            b"\xef\xbb\xbfjson-lines(\"\\u0061\")",
            Status::Done,
            "1\n",
            "",
        ),
        (
            b"json-lines(\"none\")",
            Status::Raised,
            "",
            "raised FODC0002 at 1:1\n",
        ),
        (
            b"(: a (: b :) c :) json-lines( \"b\" )",
            Status::Raised,
            "",
            "raised FODC0002 at 1:19\n",
        ),
        (
            b"json-lines(\"\")",
            Status::Raised,
            "",
            "raised FODC0002 at 1:1\n",
        ),
        (
            b"json-lines(\"a b\")",
            Status::Raised,
            "",
            "raised FODC0002 at 1:1\n",
        ),
        (
            b"(: \xc3\xbc\n :)  json-lines(\"-a.b_C9\")",
            Status::Raised,
            "",
            "raised FODC0002 at 2:6\n",
        ),
        (
            b"\xef\xbb\xbf json-lines(\"\xc3\xbc\")",
            Status::Raised,
            "",
            "raised FODC0002 at 1:2\n",
        ),
    ];
    for (query, status, out, err) in cases {
        let mut files = Vec::new(alloc);
        add(alloc, &mut files, "q", query)?;
        add(alloc, &mut files, "a", b"1\n")?;
        let left = run_files(&rt, alloc, &["run", "q"], files, (100, 100))?;
        assert_left(&rt, &left, status, out.as_bytes(), err.as_bytes(), err);
    }
    Ok(())
}

// A call of `json-lines` with this many names of one input.
fn many_names(alloc: Global, count: usize) -> Result<String, Fail> {
    let mut query = String::from_str(alloc, "json-lines(\"a\"")?;
    for _ in 1..count {
        query.push_str(",\"a\"")?;
    }
    query.push_str(")")?;
    Ok(query)
}

// The inputs `a`, `b` and `c`, whose second line is no JSON, where all is evaluated in one place; a
// fourth open would fail.
fn three_inputs<R: Threads + Wait + Sync + Abort>(
    rt: &R,
    alloc: Global,
    query: &str,
) -> Result<Outcome, Fail> {
    let mut files = files_of(alloc, query.as_bytes(), b"1")?;
    add(alloc, &mut files, "c", b"3\n{\n")?;
    let fails = failing(alloc, &[4], &[])?;
    run_failing(rt, alloc, &["run", "q", "--mode", "local"], files, fails)
}

// Several inputs in one call: each is opened once, and a missing one goes before a faulty line.
#[test]
fn reads_several_inputs(rt: HostRuntime) -> Result<(), Fail> {
    let alloc = rt.alloc();
    let cases = [
        ("json-lines(\"a\", \"b\")", "1\n2\n", ""),
        ("json-lines(\"b\", \"a\", \"b\")", "2\n1\n2\n", ""),
        ("json-lines(\"a\", \"a\", \"a\", \"a\")", "1\n1\n1\n1\n", ""),
        ("json-lines(\"b\", \"c\")", "", "raised JNDY0021 at 1:1\n"),
        (
            " json-lines(\"c\", \"none\")",
            "",
            "raised FODC0002 at 1:2\n",
        ),
        (
            "json-lines(\"none\", \"a\")",
            "",
            "raised FODC0002 at 1:1\n",
        ),
    ];
    for (query, out, err) in cases {
        let left = three_inputs(&rt, alloc, query)?;
        assert_eq!(rt; left.err.bytes(), err.as_bytes(), "at {query}");
        assert_eq!(rt; left.out.bytes(), out.as_bytes(), "at {query}");
    }
    let left = three_inputs(&rt, alloc, many_names(alloc, 64)?.as_str())?;
    assert_eq!(rt; left.status, Status::Done);
    assert_eq!(rt; left.out.bytes().len(), 128);
    let most = many_names(alloc, 65)?;
    assert_refused(&rt, alloc, most.as_bytes(), "PJST0002 at 1:1")
}
