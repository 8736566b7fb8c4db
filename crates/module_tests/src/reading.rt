//! A reader of files for the tests: it knows imports, and tells `()` from all other bodies.

use module_names::{HeadFault, Source, Unread, imports};
use query_lexer::{LexFault, Token, tokens};
use std::alloc::Global;

// The place of a body that is not `()`, where these tokens stand after the head.
fn body(text: &str, rest: &[Token]) -> Option<u32> {
    let Some(first) = rest.first() else {
        return u32::try_from(text.len()).ok();
    };
    let Some(last) = rest.get(1) else {
        return Some(first.from);
    };
    let opens = text.get(first.from as usize..first.to as usize) == Some("(");
    let closes = text.get(last.from as usize..last.to as usize) == Some(")");
    if opens && closes && rest.len() == 2 {
        return None;
    }
    Some(first.from)
}

/// Reads the text of a file, and keeps the number of its tokens.
pub fn read(alloc: Global, text: &str) -> Result<Source<usize>, Unread> {
    let found = match tokens(alloc, text) {
        Ok(found) => found,
        Err(LexFault::Refused { code, place }) => return Err(Unread::Refused { code, place }),
        Err(LexFault::NoMemory) => return Err(Unread::NoMemory),
    };
    match imports(alloc, text, &found) {
        Ok((imports, count)) => Ok(Source {
            imports,
            body: body(text, found.get(count..).unwrap_or(&[])),
            rest: found.len(),
        }),
        Err(HeadFault::Refused { code, place }) => Err(Unread::Refused { code, place }),
        Err(HeadFault::NoMemory) => Err(Unread::NoMemory),
    }
}
