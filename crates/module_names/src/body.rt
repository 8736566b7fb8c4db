//! The body of a file: what stands after its declarations.

ghost use Rattle.std.specs.Prelude.{◌≡◌};
ghost use Rattle.std.specs.List.{after_last};
ghost use Rattle.query_lexer.specs.Lexes.{AreTokens};
ghost use Rattle.module_names.specs.Bodies.{other_body, unless_unit};
ghost use Rattle.module_names.specs.Heads.{closes};

use crate::head::is_mark;
use query_lexer::Token;

// The tokens after the last `;`.
fn body_tokens<'a>(text: &str, tokens: &'a [Token]) -> &'a [Token]
    requires { AreTokens text.now tokens.now }
    ensures { result.now ≡ after_last (closes text.now) tokens.now }
{
    let mut start = tokens.len();
    'finding: while 0 < start {
        if is_mark(text, &tokens[start - 1], ";") {
            return &tokens[start..];
        }
        start -= 1;
    }
    tokens
}

/// Where the body of a file stands, unless it is `()`: the place of its first token. The tokens are
/// those after the file's head. A `;` ends each declaration, and none stands in the body.
pub fn other_body(text: &str, tokens: &[Token]) -> Option<u32>
    // The tokens are some that `query_lexer::tokens` gives for this text.
    requires { AreTokens text.now tokens.now }
    ensures { result ≡ other_body text.now tokens.now }
{
    unless_unit(text, body_tokens(text, tokens))
}

// The place of the first of these tokens, unless they are `()`.
fn unless_unit(text: &str, tokens: &[Token]) -> Option<u32>
    requires { AreTokens text.now tokens.now }
    ensures { result ≡ unless_unit text.now tokens.now }
{
    if tokens.len() == 2 && is_mark(text, &tokens[0], "(") && is_mark(text, &tokens[1], ")") {
        return None;
    }
    if tokens.is_empty() {
        return None;
    }
    Some(tokens[0].from)
}
