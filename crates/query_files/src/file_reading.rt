//! Reading a file alone, as a query or a library.

ghost use Rattle.std.specs.Prelude.{◌≡◌, IfSome};
ghost use Rattle.query_lexer.specs.Lexes.{AreTokens};
ghost use Rattle.query_files.specs.Files.{IsReadAfter, IsReadText};
ghost use Rattle.query_files.specs.Seen.{reading_of};

use crate::{Parser, Underived};
use module_names::{HeadFault, Import, Source, Unread, imports, other_body};
use query_lexer::{LexFault, Token, tokens};
use query_tree::discard;
use std::alloc::Global;

// What a file comes to that has these imports, and these tokens after them.
fn read_after<P: Parser>(
    alloc: Global,
    parser: &P,
    text: &str,
    imports: Vec<Import>,
    tokens: &[Token],
) -> Result<Source<()>, Unread>
    requires { AreTokens text.now tokens.now }
    ensures { IfSome (reading_of result) (λ reading.
        IsReadAfter text.now imports.items tokens.now reading) }
{
    match parser.parse_at(alloc, text, tokens, 0) {
        Ok(query) => {
            discard(query);
            Ok(Source {
                imports,
                body: other_body(text, tokens),
                rest: (),
            })
        }
        Err(Underived::Refused { code, place }) => Err(Unread::Refused { code, place }),
        Err(Underived::NoMemory) => Err(Unread::NoMemory),
    }
}

/// What a file comes to that has this text.
pub(crate) fn read_file<P: Parser>(
    alloc: Global,
    parser: &P,
    text: &str,
) -> Result<Source<()>, Unread>
    ensures { IfSome (reading_of result) (λ reading. IsReadText text.now reading) }
{
    let tokens = match tokens(alloc, text) {
        Ok(tokens) => tokens,
        Err(LexFault::Refused { code, place }) => return Err(Unread::Refused { code, place }),
        Err(LexFault::NoMemory) => return Err(Unread::NoMemory),
    };
    match imports(alloc, text, &tokens) {
        Ok((imports, count)) => read_after(alloc, parser, text, imports, &tokens[count..]),
        Err(HeadFault::Refused { code, place }) => Err(Unread::Refused { code, place }),
        Err(HeadFault::NoMemory) => Err(Unread::NoMemory),
    }
}
