//! Queries that are loaded with their libraries.

use crate::reading::read;
use item_tree::Str;
use module_names::laws::world_has_sources;
use module_names::{Contents, File, Kept, LoadFault, load};
use outside::{Fails, Inputs, MemInputs, names_differ};
use std::alloc::Global;
use std::test::Fail;

// Each file is a name and its bytes.
type Rows<'a> = &'a [(&'a str, &'a [u8])];

fn files_of(alloc: Global, rows: Rows<'_>) -> Result<Vec<(Str, Vec<u8>)>, Fail> {
    let mut files = Vec::new(alloc);
    for (name, bytes) in rows {
        files.push((Str::of(alloc, name)?, Vec::from_slice(alloc, bytes)?))?;
    }
    Ok(files)
}

// Whether a file of this name has these bytes.
fn holds(rows: Rows<'_>, name: &Str, contents: &Contents) -> bool {
    for (other, bytes) in rows {
        if name.as_str() == *other {
            return contents.bytes() == *bytes;
        }
    }
    false
}

fn show_files(alloc: Global, rows: Rows<'_>, files: &[File<Kept<usize>>]) -> Result<String, Fail> {
    let mut shown = String::new(alloc);
    for file in files {
        if !holds(rows, &file.name, &file.source.rest.contents) {
            shown.push_str("other bytes in ")?;
        }
        shown.push_str(file.name.as_str())?;
        shown.push_str("/")?;
    }
    Ok(shown)
}

// The names of the files in order; or why there are none, with the place and the file.
fn shown<I: Inputs>(alloc: Global, rows: Rows<'_>, inputs: &mut I) -> Result<String, Fail> {
    let query = Str::of(alloc, "q")?;
    let reader = |text: &str| read(alloc, text);
    world_has_sources(&reader);
    match load(alloc, &query, inputs, reader) {
        Ok(files) => show_files(alloc, rows, &files),
        Err(LoadFault::Refused(why, contents)) => {
            let code = why.code.text();
            let place = why.place;
            let file = why.file.as_str();
            let bytes = if holds(rows, &why.file, &contents) {
                ""
            } else {
                " with other bytes"
            };
            Ok(format!(in alloc; "{code} {place} {file}{bytes}")?)
        }
        Err(LoadFault::NoQuery) => Ok(format!(in alloc; "no query")?),
        Err(LoadFault::ReadFault) => Ok(format!(in alloc; "read fault")?),
        Err(LoadFault::NoMemory) => Ok(format!(in alloc; "no memory")?),
    }
}

fn loaded(alloc: Global, rows: Rows<'_>) -> Result<String, Fail> {
    let files = files_of(alloc, rows)?;
    if !names_differ(&files) {
        return Err(Fail::from("one name twice"));
    }
    let mut inputs = MemInputs::steady(alloc, files)?;
    shown(alloc, rows, &mut inputs)
}

// Files whose names are letters stand in a row as `NAME: TEXT`, with a line between two.
fn loaded_of(alloc: Global, text: &str) -> Result<String, Fail> {
    let mut rows = Vec::new(alloc);
    for line in text.split("\n") {
        let Some((name, file)) = line.split_once(": ") else {
            return Err(Fail::from("no file"));
        };
        rows.push((name, file.as_bytes()))?;
    }
    loaded(alloc, &rows)
}

#[test]
fn files_are_done_in_order(rt: HostRuntime) -> Result<(), Fail> {
    for (files, want) in [
        ("q: 1", "q/"),
        ("r: 1", "no query"),
        ("q: import module \"a\"; 1\na: ()", "a/q/"),
        // One file twice, in one head and by two files.
        (
            "q: import module \"a\"; import module \"a\"; 1\na: ()",
            "a/q/",
        ),
        (
            "q: import module \"a\"; import module \"b\"; 1\na: import module \"c\"; ()\n\
             b: import module \"c\"; ()\nc: ()",
            "c/a/b/q/",
        ),
        // A file that is loaded already, before its own import is reached.
        (
            "q: import module \"a\"; import module \"b\"; 1\na: import module \"b\"; ()\nb: ()",
            "b/a/q/",
        ),
        // Circles, at the import that closes them.
        ("q: import module \"q\"; 1", "PJST0006 14 q"),
        (
            "q: import module \"a\"; 1\na: import module \"a\"; ()",
            "PJST0006 14 a",
        ),
        (
            "q: import module \"a\"; 1\na: import module \"b\"; ()\nb:  import module \"q\"; ()",
            "PJST0006 15 b",
        ),
        (
            "q: import module \"a\"; 1\na: import module \"b\"; ()\nb: import module \"c\"; ()\n\
             c: import module \"d\"; import module \"a\"; ()\nd: ()",
            "PJST0006 33 c",
        ),
        // What is missing, before and after what is refused.
        ("q: import module \"a\"; 1", "PJST0007 14 q"),
        (
            "q: import module \"a\"; 1\na: import module \"b\"; ()",
            "PJST0007 14 a",
        ),
        (
            "q: import module \"a\"; import module \"b\"; 1\na: import module x",
            "XPST0003 14 a",
        ),
        (
            "q: import module \"b\"; import module \"a\"; 1\na: import module x",
            "PJST0007 14 q",
        ),
        // Of two files that are refused, the one that is met first.
        (
            "q: import module \"b\"; import module \"a\"; 1\na: import module x\n\
             b: import module y",
            "XPST0003 14 b",
        ),
        (
            "q: import module \"a\"; import module x\na: import module y",
            "XPST0003 33 q",
        ),
        // A library's body is told before its imports, and a query's is free.
        ("q: import module \"a\"; 1\na: 1", "PJST0009 0 a"),
        ("q: import module \"a\"; 1\na:  ", "PJST0009 1 a"),
        (
            "q: import module \"a\"; 1\na: import module \"b\"; (1)",
            "PJST0009 19 a",
        ),
        (
            "q: import module \"a\"; 1\na: import module \"a\"; ())",
            "PJST0009 19 a",
        ),
        // A byte order mark is no part of a text.
        ("q: import module \"a\"; 1\na: \u{feff}()", "a/q/"),
        (
            "q: \u{feff}import module \"a\"; 1\na: \u{feff}import module x",
            "XPST0003 14 a",
        ),
        (
            "q: \u{feff}import module \"a\"; 1\na: \u{feff}\u{feff}()",
            "XPST0003 0 a",
        ),
    ] {
        let shown = loaded_of(rt.alloc(), files)?;
        assert_eq!(rt; shown.as_str(), want, "at {files}");
    }
    Ok(())
}

// What comes of a query that imports a library of these bytes.
fn with_library(alloc: Global, bytes: &[u8]) -> Result<String, Fail> {
    loaded(alloc, &[("q", b"import module \"a\"; 1"), ("a", bytes)])
}

#[test]
fn bytes_are_refused_that_are_no_text(rt: HostRuntime) -> Result<(), Fail> {
    let alone = with_library(rt.alloc(), b"()\xff")?;
    assert_eq!(rt; alone.as_str(), "XPST0003 2 a");
    let marked = with_library(rt.alloc(), b"\xef\xbb\xbf()\xc3")?;
    assert_eq!(rt; marked.as_str(), "XPST0003 2 a");
    Ok(())
}

// What comes of a library of so many bytes, a byte order mark with them.
fn long(alloc: Global, length: usize) -> Result<String, Fail> {
    let mut bytes = Vec::from_slice(alloc, b"\xef\xbb\xbf()")?;
    bytes.resize(length, b' ')?;
    with_library(alloc, &bytes)
}

#[test]
fn files_have_so_many_bytes_at_most(rt: HostRuntime) -> Result<(), Fail> {
    for (length, want) in [
        (5, "a/q/"),
        (1_048_576, "a/q/"),
        (1_048_577, "PJST0005 0 a"),
    ] {
        let shown = long(rt.alloc(), length)?;
        assert_eq!(rt; shown.as_str(), want, "at {length}");
    }
    Ok(())
}

// How many files are loaded for a query that imports so many libraries, or why it is refused.
fn wide(alloc: Global, libraries: usize) -> Result<String, Fail> {
    let mut query = String::new(alloc);
    let mut names = Vec::new(alloc);
    for number in 0..libraries {
        let name = format!(in alloc; "l{:02}", number)?;
        query.push_str(format!(in alloc; "import module \"{name}\";")?.as_str())?;
        names.push(name)?;
    }
    query.push_str("1")?;
    let mut rows: Vec<(&str, &[u8])> = Vec::new(alloc);
    for name in &names {
        rows.push((name.as_str(), b"()"))?;
    }
    rows.push(("q", query.as_bytes()))?;
    let shown = loaded(alloc, &rows)?;
    let files = shown.split("/").count() - 1;
    if files > 0 {
        return Ok(format!(in alloc; "{files} files")?);
    }
    Ok(shown)
}

#[test]
fn files_are_64_at_most(rt: HostRuntime) -> Result<(), Fail> {
    // Each import has 20 bytes, and its string the last six but one.
    for (libraries, want) in [
        (0, "1 files"),
        (62, "63 files"),
        (63, "64 files"),
        (64, "PJST0008 1274 q"),
        (70, "PJST0008 1274 q"),
    ] {
        let shown = wide(rt.alloc(), libraries)?;
        assert_eq!(rt; shown.as_str(), want, "with {libraries}");
    }
    Ok(())
}

// Each row: the opens that fail, the calls that fail, and what comes of a query with two libraries,
// whose files have two calls each.
#[test]
fn faults_are_told(rt: HostRuntime) -> Result<(), Fail> {
    let alloc = rt.alloc();
    let files: Rows<'_> = &[
        ("q", b"import module \"a\"; import module \"b\"; 1"),
        ("a", b"()"),
        ("b", b"()"),
    ];
    let cases: [(&[u64], &[(u64, u64)], &str); 8] = [
        (&[], &[], "a/b/q/"),
        (&[1], &[], "read fault"),
        (&[2], &[], "read fault"),
        (&[3], &[], "read fault"),
        (&[4], &[(4, 1)], "a/b/q/"),
        (&[], &[(1, 1)], "read fault"),
        (&[], &[(3, 1)], "read fault"),
        (&[], &[(3, 2)], "read fault"),
    ];
    for (row, (opens, calls, want)) in cases.into_iter().enumerate() {
        let held = files_of(alloc, files)?;
        assert!(rt; names_differ(&held));
        let fails = Fails {
            opens: Vec::from_slice(alloc, opens)?,
            calls: Vec::from_slice(alloc, calls)?,
        };
        let mut inputs = MemInputs::new(alloc, held, fails)?;
        let shown = shown(alloc, files, &mut inputs)?;
        assert_eq!(rt; shown.as_str(), want, "row {row}");
    }
    Ok(())
}
