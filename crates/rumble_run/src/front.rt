//! From the bytes of a query to a compiled query.

ghost use Rattle.std.specs.Prelude.{◌≡◌, IfSome};
ghost use Rattle.item_tree.specs.Faults.{fault_at};
ghost use Rattle.query_tree.specs.NamedViews.{named_query};
ghost use Rattle.rumble_run.specs.Front.{IsFront, IsFrontOfText, static_front};
ghost use Rattle.rumble_run.specs.inside.Seen.{front_of};

use crate::mark::without_mark;
use item_tree::{Code, Fault};
use query_lexer::{LexFault, tokens};
use query_parser::{ParseFault, parse};
use query_tree::{Compiled, Query, discard};
use static_rules::{CompileFault, compile};
use std::alloc::Global;

/// How many bytes a query may have, with a byte order mark.
const MAX_LENGTH: usize = 1_048_576;

/// Why a query is not compiled.
#[derive(Debug, Drop)]
pub(crate) enum FrontFault {
    /// The query is refused. The place counts behind a byte order mark.
    Refused(Fault),
    NoMemory,
}

fn refused(code: Code, place: u32) -> FrontFault
    ensures { result ≡ FrontFault.Refused (fault_at code place) }
{
    FrontFault::Refused(Fault::at(code, place))
}

// The compiled query, or its static refusal.
fn front_of_query(alloc: Global, query: &Query) -> Result<Compiled, FrontFault>
    ensures { IfSome (front_of result) (λ front. front ≡ static_front (named_query query.now)) }
{
    match compile(alloc, query) {
        Ok(compiled) => Ok(compiled),
        Err(CompileFault::Refused { code, place }) => Err(refused(code, place)),
        Err(CompileFault::NoMemory) => Err(FrontFault::NoMemory),
    }
}

// The compiled query of a text, or its first refusal.
fn front_of_text(alloc: Global, text: &str) -> Result<Compiled, FrontFault>
    ensures { IfSome (front_of result) (λ front. IsFrontOfText text.now front) }
{
    let tokens = match tokens(alloc, text) {
        Ok(tokens) => tokens,
        Err(LexFault::Refused { code, place }) => return Err(refused(code, place)),
        Err(LexFault::NoMemory) => return Err(FrontFault::NoMemory),
    };
    match parse(alloc, text, &tokens) {
        Ok(query) => {
            let front = front_of_query(alloc, &query);
            discard(query);
            front
        }
        Err(ParseFault::Refused { code, place }) => Err(refused(code, place)),
        Err(ParseFault::NoMemory) => Err(FrontFault::NoMemory),
    }
}

/// The compiled query of these bytes, or its first refusal.
pub(crate) fn front(alloc: Global, query: &[u8]) -> Result<Compiled, FrontFault>
    ensures { IfSome (front_of result) (λ front. IsFront query.now front) }
{
    if query.len() > MAX_LENGTH {
        return Err(refused(Code::PJST0005, 0));
    }
    match std::str::from_utf8(without_mark(query)) {
        Ok(text) => front_of_text(alloc, text),
        Err(fault) => Err(refused(Code::XPST0003, fault.valid_up_to() as u32)),
    }
}
