//! What stands at a place of a text.

ghost use Rattle.std.specs.Prelude.{◌≡◌, ◌<◌, ◌≤◌, length, Some, IfSome};
ghost use Rattle.query_lexer.specs.Lexes.{Stands, goes};
ghost use Rattle.query_lexer.specs.Scan.{token_at, step_at, word_step};

use crate::TokenKind;
use crate::bytes::next_is_blank;
use crate::comments::{begins_comment, comment_length};
use crate::numbers::{is_out, runs_on};
use crate::words::token_at;
use item_tree::Code;

/// What stands at a place of a text.
#[derive(Clone, Copy, Debug, PartialEq, Eq)]
pub(crate) enum Step {
    /// Whitespace or a comment of so many bytes.
    Skip(usize),
    /// A token of so many bytes.
    Take(TokenKind, usize),
    /// Neither of them.
    Refuse(Code),
}

/// What a token makes of its place.
fn word_step(text: &[u8], kind: TokenKind, n: usize) -> Step
    requires found { token_at text.now ≡ Some (kind, n) }
    requires within { n ≤ length text.now }
    ensures { result ≡ word_step text.now (Some (kind, n)) }
{
    if runs_on(kind, &text[n..]) {
        Step::Refuse(Code::XPST0003)
    } else if is_out(kind, &text[..n]) {
        Step::Refuse(Code::PJST0004)
    } else {
        Step::Take(kind, n)
    }
}

#[tactic(auto, unfolding(crate::specs::Scan::step_at))]
fn step_at(text: &[u8]) -> Step
    ensures { result ≡ step_at text.now }
{
    if next_is_blank(text) {
        return Step::Skip(1);
    }
    if begins_comment(text) {
        return match comment_length(&text[2..]) {
            Some(n) => Step::Skip(2 + n),
            None => Step::Refuse(Code::XPST0003),
        };
    }
    match token_at(text) {
        None => Step::Refuse(Code::XPST0003),
        Some((kind, n)) => word_step(text, kind, n),
    }
}

/// What stands at the front of a text that isn't empty.
pub(crate) fn next_step(text: &[u8]) -> Step
    requires { 0 < length text.now }
    ensures stands { Stands text.now result }
    ensures forward { IfSome (goes result) (λ n. (0 < n) × (n ≤ length text.now)) }
{
    step_at(text)
}
