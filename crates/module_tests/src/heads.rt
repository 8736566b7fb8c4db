//! Imports at the head of a text.

use module_names::{HeadFault, imports};
use query_lexer::tokens;
use std::alloc::Global;
use std::test::Fail;

// Each import with its place, and the number of tokens of the head; or why there is none.
fn shown(alloc: Global, text: &str) -> Result<String, Fail> {
    let Ok(found) = tokens(alloc, text) else {
        return Err(Fail::from("no tokens"));
    };
    let mut shown = String::new(alloc);
    match imports(alloc, text, &found) {
        Ok((imports, count)) => {
            for import in &imports {
                let name = import.name.as_str();
                let place = import.place;
                shown.push_str(format!(in alloc; "{name} {place}/")?.as_str())?;
            }
            shown.push_str(format!(in alloc; "{count}")?.as_str())?;
        }
        Err(HeadFault::Refused { code, place }) => {
            let code = code.text();
            shown.push_str(format!(in alloc; "{code} {place}")?.as_str())?;
        }
        Err(HeadFault::NoMemory) => shown.push_str("no memory")?,
    }
    Ok(shown)
}

#[test]
fn heads_have_imports(rt: HostRuntime) -> Result<(), Fail> {
    for (text, want) in [
        ("", "0"),
        ("()", "0"),
        ("import", "0"),
        ("import + 1", "0"),
        ("module import \"a\"; 1", "0"),
        ("import module \"a\"; 1", "a 14/4"),
        ("import module \"a\";import module \"b\";x", "a 14/b 32/8"),
        ("import module \"a\"; import x", "a 14/4"),
        ("import (: c :) module \"\\u0062\" ;()", "b 22/4"),
        ("\n import module \"\"; ()", " 16/4"),
        ("import module", "XPST0003 13"),
        ("import module  ", "XPST0003 15"),
        ("import module x", "XPST0003 14"),
        ("import module \"a\"", "XPST0003 17"),
        ("import module \"a\", 1", "XPST0003 17"),
        ("import module \"a\"; import module ;", "XPST0003 33"),
    ] {
        let shown = shown(rt.alloc(), text)?;
        assert_eq!(rt; shown.as_str(), want, "at {text}");
    }
    Ok(())
}
