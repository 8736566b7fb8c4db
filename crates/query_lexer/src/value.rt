//! The value of a string literal.

ghost use Rattle.std.specs.Prelude.{◌≡◌, [], IfOk, IfSome};
ghost use Rattle.item_tree.specs.JsonString.{IsString};
ghost use Rattle.json_text.specs.inside.Scan.{string_at};
ghost use Rattle.query_lexer.specs.Lexes.{IsTokenOf, spelling};
ghost use Rattle.query_lexer.specs.declared.token.TokenKind.TheVariants.{Text};

use crate::Token;
use crate::strings::character_at;
use item_tree::{NoMemory, Str};
use json_text::push_spelled;
use std::alloc::{AllocError, Global};

/// What a string spells, from the bytes behind its opening quote.
fn spelled_bytes(alloc: Global, text: &[u8]) -> Result<Vec<u8>, AllocError>
    ensures { IfOk result (λ v. IfSome (string_at text.now) (λ p. v.items ≡ p.0)) }
{
    let mut out = Vec::new(alloc);
    let mut rest = text;
    while let Some((spelled, next)) = character_at(rest) {
        push_spelled(&mut out, spelled)?;
        rest = next;
    }
    Ok(out)
}

/// The value of a string of a query, as JSON has it: an escape of half a surrogate pair without the
/// other half is U+FFFD.
pub fn text_value(alloc: Global, text: &str, token: &Token) -> Result<Str, NoMemory>
    // The token is one that `tokens` gives for this text.
    requires listed { IsTokenOf text.now token.now }
    requires kind { token.now.kind ≡ Text }
    ensures { IfOk result (λ v. IsString v (spelling text.now token.now) []) }
{
    let bytes = text.as_bytes();
    let value = spelled_bytes(alloc, &bytes[token.from as usize + 1..])?;
    Str::from_string(alloc, String::from_utf8(value).unwrap())
}
