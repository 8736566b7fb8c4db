//! The tokens of a text.

ghost use Rattle.std.specs.Prelude.{◌≡◌, ◌<◌, ◌^◌, ℕ, length, List, IfOk, IfErr, MatchResult};
ghost use Rattle.item_tree.specs.declared.code.Code.{Code};
ghost use Rattle.query_lexer.specs.Lexes.{Tokens, Refused, IsFault, IsTold};
ghost use Rattle.query_lexer.specs.declared.token.LexFault.TheVariants.{NoMemory};
ghost use Rattle.query_lexer.specs.declared.token.Token.{Token};

use crate::steps::{Step, next_step};
use crate::{LexFault, Token};
use std::alloc::Global;

fn tokens_in(alloc: Global, text: &[u8]) -> Result<Vec<Token>, LexFault>
    requires { length text.now < 2 ^ 32 }
    ensures found { IfOk result (λ v. Tokens text.now v.items) }
    ensures refused { IfErr result (λ e. IsFault text.now e) }
{
    let mut tokens = Vec::new(alloc);
    let mut at = 0usize;
    while at < text.len() {
        match next_step(&text[at..]) {
            Step::Skip(n) => at += n,
            Step::Take(kind, n) => {
                tokens.push(Token {
                    kind,
                    from: at as u32,
                    to: (at + n) as u32,
                })?;
                at += n;
            }
            Step::Refuse(code) => return Err(LexFault::Refused {
                code,
                place: at as u32,
            }),
        }
    }
    Ok(tokens)
}

/// The tokens of a text in their order, or the first place at which it breaks the lexical rules, in
/// time linear in the text. Places are bytes from 0. A text of 2^32 bytes or more is `NoMemory`.
pub fn tokens(alloc: Global, text: &str) -> Result<Vec<Token>, LexFault>
    // The text has the tokens that are answered.
    ensures found { IfOk result (λ v. Tokens text.now v.items) }
    // A refusal is the first one in the text.
    ensures refused { IfErr result (λ e. IsFault text.now e) }
    // The tokens that the text has are answered, unless memory runs out.
    ensures only { (ts : List Token) → Tokens text.now ts
        → MatchResult result (λ v. v.items ≡ ts) (λ e. e ≡ NoMemory) }
    // And so is a refusal.
    ensures only_refusal { (code : Code) → (place : ℕ) → Refused text.now code place
        → MatchResult result (λ v. ⊥) (λ e. IsTold code place e) }
{
    let bytes = text.as_bytes();
    if bytes.len() > u32::MAX as usize {
        return Err(LexFault::NoMemory);
    }
    tokens_in(alloc, bytes)
}
