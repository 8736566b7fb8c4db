//! Queries that are put together from their files.

use crate::grammar::Grammar;
use item_tree::Str;
use outside::{Inputs, MemInputs, SteadyInputs, names_differ};
use query_files::laws::{finds_one, one_reading};
use query_files::{Texts, Together, Unfound, find_query};
use query_tree::discard;
use std::alloc::Global;
use std::test::Fail;

// Each file is a name and its bytes.
type Rows<'a> = &'a [(&'a str, &'a [u8])];

fn inputs_of(alloc: Global, rows: Rows<'_>) -> Result<SteadyInputs, Fail> {
    let mut files = Vec::new(alloc);
    for (name, bytes) in rows {
        files.push((Str::of(alloc, name)?, Vec::from_slice(alloc, bytes)?))?;
    }
    if !names_differ(&files) {
        return Err(Fail::from("one name twice"));
    }
    Ok(MemInputs::steady(alloc, files)?)
}

// The names of the functions that are declared, in their order, and where the query's text begins.
fn show_query(alloc: Global, found: Together) -> Result<String, Fail> {
    let Together { query, texts } = found;
    let mut shown = String::new(alloc);
    for function in &query.functions {
        shown.push_str(function.function.name.as_str())?;
        shown.push_str("/")?;
    }
    discard(query);
    let start = texts.query_start();
    let length = texts.query().len();
    shown.push_str(format!(in alloc; "{start}+{length}")?.as_str())?;
    Ok(shown)
}

// The declarations and the start of the query `q`; or why there is none, with the place and the
// file, and how many files were opened.
fn shown<I: Inputs>(alloc: Global, inputs: &mut I) -> Result<String, Fail> {
    one_reading();
    finds_one();
    let name = Str::of(alloc, "q")?;
    match find_query(alloc, &Grammar, &name, inputs) {
        Ok(found) => show_query(alloc, found),
        Err(Unfound::Refused(why, _contents)) => {
            let code = why.code.text();
            let place = why.place;
            let file = why.file.as_str();
            let opened = why.opened;
            Ok(format!(in alloc; "{code} {place} {file} of {opened}")?)
        }
        Err(Unfound::NoQuery) => Ok(format!(in alloc; "no query")?),
        Err(Unfound::ReadFault) => Ok(format!(in alloc; "read fault")?),
        Err(Unfound::NoMemory) => Ok(format!(in alloc; "no memory")?),
    }
}

const TWICE: &[u8] = b"declare function twice($n) { $n * 2 }; ()";

const THRICE: &[u8] = b"declare function thrice($n) { $n * 3 }; ()";

const OF_LIB: &[u8] = b"import module \"lib\"; twice(4)";

const OF_BOTH: &[u8] = b"import module \"lib\"; import module \"more\"; twice(thrice(4))";

#[test]
fn queries_are_put_together(rt: HostRuntime) -> Result<(), Fail> {
    let cases: [(Rows<'_>, &str); 12] = [
        (&[("q", b"1 + 1")], "0+5"),
        (&[("q", OF_LIB), ("lib", TWICE)], "twice/41+29"),
        // A byte order mark is no part of a text.
        (
            &[
                ("q", OF_LIB),
                (
                    "lib",
                    b"\xef\xbb\xbfdeclare function twice($n) { $n * 2 }; ()",
                ),
            ],
            "twice/41+29",
        ),
        (
            &[("q", OF_BOTH), ("lib", TWICE), ("more", THRICE)],
            "twice/thrice/83+59",
        ),
        // A library that imports another stands behind it.
        (
            &[
                ("q", OF_LIB),
                (
                    "lib",
                    b"import module \"more\"; declare function twice($n) { $n * 2 }; ()",
                ),
                ("more", THRICE),
            ],
            "thrice/twice/105+29",
        ),
        (&[("lib", TWICE)], "no query"),
        (&[("q", OF_LIB)], "PJST0007 14 q of 1"),
        (
            &[("q", OF_LIB), ("lib", b"import module \"lib\"; ()")],
            "PJST0006 14 lib of 2",
        ),
        (
            &[("q", OF_LIB), ("lib", b"import module \"q\"; ()")],
            "PJST0006 14 lib of 2",
        ),
        // A place counts in the text of the file that is refused.
        (
            &[
                ("q", OF_BOTH),
                ("lib", TWICE),
                ("more", b"declare function thrice($n) { $n * }; ()"),
            ],
            "XPST0003 35 more of 3",
        ),
        (&[("q", OF_LIB), ("lib", b"4")], "PJST0009 0 lib of 2"),
        (
            &[("q", b"import module \"lib\"; twice(")],
            "XPST0003 27 q of 1",
        ),
    ];
    for (row, (files, want)) in cases.into_iter().enumerate() {
        let mut inputs = inputs_of(rt.alloc(), files)?;
        let shown = shown(rt.alloc(), &mut inputs)?;
        assert_eq!(rt; shown.as_str(), want, "row {row}");
    }
    Ok(())
}

#[test]
fn libraries_have_so_many_bytes_at_most(rt: HostRuntime) -> Result<(), Fail> {
    for (length, want) in [
        (1_048_576, "twice/1048576+29"),
        (1_048_577, "PJST0005 0 lib of 2"),
    ] {
        let mut library = Vec::from_slice(rt.alloc(), TWICE)?;
        library.resize(length, b' ')?;
        let mut inputs = inputs_of(rt.alloc(), &[("q", OF_LIB), ("lib", &library)])?;
        let shown = shown(rt.alloc(), &mut inputs)?;
        assert_eq!(rt; shown.as_str(), want, "at {length}");
    }
    Ok(())
}

// The file in which a place of all texts stands, with the place in it and the text from there on.
fn show_place(alloc: Global, texts: &Texts, place: u32) -> Result<String, Fail> {
    let located = texts.located(alloc, place)?;
    let name = located.library.map_or("the query", |name| name.as_str());
    let place = located.place;
    let Ok(text) = std::str::from_utf8(located.text) else {
        return Err(Fail::from("no text"));
    };
    let rest = text.get(place as usize..).unwrap_or("nothing");
    Ok(format!(in alloc; "{name} {place} {rest}")?)
}

#[test]
fn places_are_told_in_their_files(rt: HostRuntime) -> Result<(), Fail> {
    let alloc = rt.alloc();
    let files: Rows<'_> = &[("q", OF_BOTH), ("lib", TWICE), ("more", THRICE)];
    let mut inputs = inputs_of(alloc, files)?;
    let name = Str::of(alloc, "q")?;
    let Ok(found) = find_query(alloc, &Grammar, &name, &mut inputs) else {
        return Err(Fail::from("no query"));
    };
    let Together { query, texts } = found;
    discard(query);
    for (place, want) in [
        (32, "lib 32 * 2 }; ()"),
        (40, "lib 40 )"),
        (41, "more 0 declare function thrice($n) { $n * 3 }; ()"),
        (82, "more 41 )"),
        (126, "the query 43 twice(thrice(4))"),
        (142, "the query 59 "),
    ] {
        let shown = show_place(alloc, &texts, place)?;
        assert_eq!(rt; shown.as_str(), want, "at {place}");
    }
    Ok(())
}
