//! Numbers in a query.

ghost use Rattle.std.specs.Prelude.{◌≡◌, ◌≤◌, length, IfSome, []};
ghost use Rattle.num_fixed.specs.Numeral.{IsNumeral};
ghost use Rattle.num_fixed.specs.Scan.{minus_at};
ghost use Rattle.query_lexer.specs.Lexes.{is_number, runs_on};
ghost use Rattle.query_lexer.specs.Scan.{number_at, number_kind, numeral_of, is_out_number, is_out};
ghost use Rattle.query_lexer.specs.Words.{Fits};

use crate::TokenKind;
use crate::bytes::next_is_letter;
use num_fixed::{number_front, read_number};

/// The kind of the number whose fraction and exponent have these lengths.
fn number_kind(fraction: usize, exponent: usize) -> TokenKind
    ensures { result ≡ number_kind fraction exponent }
{
    if exponent > 0 {
        TokenKind::Double
    } else if fraction > 0 {
        TokenKind::Dec
    } else {
        TokenKind::Int
    }
}

fn begins_with_minus(text: &[u8]) -> bool
    ensures { result ≡ minus_at text.now }
{
    match text {
        [b'-', ..] => true,
        _ => false,
    }
}

/// The number at the front, and its length.
#[tactic(auto, using(crate::proofs::FrontLemmas::front_steps))]
pub(crate) fn number_at(text: &[u8]) -> Option<(TokenKind, usize)>
    ensures value { result ≡ number_at text.now }
    ensures within { IfSome result (λ x. x.1 ≤ length text.now) }
{
    // A minus is a mark.
    if begins_with_minus(text) {
        return None;
    }
    let front = number_front(text)?;
    let fraction = front.fraction_end - front.whole_end;
    let exponent = front.end - front.fraction_end;
    Some((number_kind(fraction, exponent), front.end))
}

fn is_number(kind: TokenKind) -> bool
    ensures { result ≡ is_number kind }
{
    match kind {
        TokenKind::Int | TokenKind::Dec | TokenKind::Double => true,
        _ => false,
    }
}

/// Whether a number is directly followed by a letter or `_`.
#[tactic(auto, unfolding(crate::specs::Lexes::runs_on))]
pub(crate) fn runs_on(kind: TokenKind, rest: &[u8]) -> bool
    ensures { result ≡ runs_on kind rest.now }
{
    is_number(kind) && next_is_letter(rest)
}

fn is_out_number(word: &[u8]) -> bool
    requires { IsNumeral (numeral_of word.now) word.now [] }
    ensures { result ≡ is_out_number word.now }
{
    read_number(word).is_err()
}

/// Whether a literal is out of range.
#[tactic(auto, unfolding(crate::specs::Scan::is_out))]
pub(crate) fn is_out(kind: TokenKind, word: &[u8]) -> bool
    requires { Fits kind word.now [] }
    ensures { result ≡ is_out kind word.now }
{
    match kind {
        TokenKind::Int | TokenKind::Dec => is_out_number(word),
        _ => false,
    }
}
