//! Queries that are parsed as if other texts stood before them.

use query_lexer::tokens;
use query_parser::{ParseFault, parse_at};
use query_tree::discard;
use std::alloc::Global;
use std::test::Fail;

/// The place of the body of a text after `start` other bytes, or why the text is no query.
fn shown(alloc: Global, text: &str, start: u32) -> Result<String, Fail> {
    let Ok(found) = tokens(alloc, text) else {
        return Err(Fail::from("no tokens"));
    };
    match parse_at(alloc, text, &found, start) {
        Ok(query) => {
            let place = query.body.place;
            discard(query);
            Ok(format!(in alloc; "body {place}")?)
        }
        Err(ParseFault::Refused { code, place }) => {
            let code = code.text();
            Ok(format!(in alloc; "{code} {place}")?)
        }
        Err(ParseFault::NoMemory) => Ok(String::from_str(alloc, "no memory")?),
    }
}

#[test]
fn texts_begin_anywhere(rt: HostRuntime) -> Result<(), Fail> {
    for (start, text, want) in [
        (0, " 1 - 2", "body 1"),
        (10, " 1 - 2", "body 11"),
        (10, "1 2", "XPST0003 12"),
        (10, "1 -", "XPST0003 13"),
        (4_294_967_292, "1 -", "XPST0003 4294967295"),
        (4_294_967_293, "1 -", "no memory"),
    ] {
        let shown = shown(rt.alloc(), text, start)?;
        assert_eq!(rt; shown.as_str(), want, "at {text}");
    }
    Ok(())
}
