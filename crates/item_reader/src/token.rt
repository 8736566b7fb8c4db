//! Tokens, all but strings.

ghost use Rattle.std.specs.Prelude.{◌≡◌, ◌≢◌, ◌∷◌, true, false, option_map, IfSome};
ghost use Rattle.json_text.specs.Json.{is_space};
ghost use Rattle.json_text.specs.inside.Machine.{token_at, token_from as token_from_of, word_at};
ghost use Rattle.json_text.specs.inside.Machine as m;
ghost use Rattle.item_reader.specs.Tokens.{IsPart, is_mark, begins, behind_n, behind_t, behind_f, uncons as uncons_of};

use crate::number::{number_token, short_number, whole};
use item_tree::Item;

#[derive(Drop)]
pub enum Token {
    OpenArray,
    CloseArray,
    OpenObject,
    CloseObject,
    Comma,
    Colon,
    /// Null, a boolean, or a number within its bounds.
    Atom(Item),
    NumberOut,
    End,
    Bad,
}

fn is_space(b: u8) -> bool
    ensures { result ≡ is_space b }
{
    b == b' ' || b == b'\t' || b == b'\n' || b == b'\r'
}

pub(crate) fn uncons(line: &[u8]) -> Option<(u8, &[u8])>
    ensures { option_map (λ p. (p.0, p.1.now)) result ≡ uncons_of line.now }
{
    match line.split_first() {
        None => None,
        Some((b, rest)) => Some((*b, rest)),
    }
}

// Out of line, since most tokens have no space before them.
#[inline(never)]
fn behind_spaces(line: &[u8]) -> &[u8]
    ensures skipped { token_at result.now ≡ token_at line.now }
    ensures stops { begins is_space result.now ≡ false }
{
    let mut left = line;
    while let Some((b, rest)) = uncons(left) {
        if !is_space(b) {
            break;
        }
        left = rest;
    }
    left
}

pub(crate) fn skip_spaces(line: &[u8]) -> &[u8]
    ensures skipped { token_at result.now ≡ token_at line.now }
    ensures stops { begins is_space result.now ≡ false }
{
    match uncons(line) {
        None => line,
        Some((b, _)) => {
            if is_space(b) {
                behind_spaces(line)
            } else {
                line
            }
        }
    }
}

fn null_token(line: &[u8]) -> (Token, &[u8])
    ensures { IsPart result.0 result.1.now (word_at behind_n m.null_word line.now) }
{
    if line.starts_with(b"ull") {
        (Token::Atom(Item::Null), &line[3..])
    } else {
        (Token::Bad, &[])
    }
}

fn true_token(line: &[u8]) -> (Token, &[u8])
    ensures { IsPart result.0 result.1.now (word_at behind_t (m.boolean_word true) line.now) }
{
    if line.starts_with(b"rue") {
        (Token::Atom(Item::Bool(true)), &line[3..])
    } else {
        (Token::Bad, &[])
    }
}

fn false_token(line: &[u8]) -> (Token, &[u8])
    ensures { IsPart result.0 result.1.now (word_at behind_f (m.boolean_word false) line.now) }
{
    if line.starts_with(b"alse") {
        (Token::Atom(Item::Bool(false)), &line[4..])
    } else {
        (Token::Bad, &[])
    }
}

// The token of a text that begins with this byte, where it is a short whole number.
#[inline(always)]
pub(crate) fn short_from<'a>(b: u8, rest: &'a [u8], line: &'a [u8]) -> Option<(Token, &'a [u8])>
    requires { line.now ≡ b ∷ rest.now }
    ensures { IfSome result (λ p. IsPart p.0 p.1.now (token_from_of b rest.now)) }
{
    if !b.is_ascii_digit() {
        return None;
    }
    match short_number(line) {
        None => None,
        Some((n, behind)) => Some((Token::Atom(Item::Int(whole(n))), behind)),
    }
}

// The token of a text that begins with this byte, which is no space, no mark and no quote.
#[tactic(auto, unfolding(json_text::specs::inside::Machine::token_from))]
pub(crate) fn value_from<'a>(b: u8, rest: &'a [u8], line: &'a [u8]) -> (Token, &'a [u8])
    requires line { line.now ≡ b ∷ rest.now }
    requires value { is_mark b ≡ false }
    requires no_quote { b ≢ 34 }
    ensures { IsPart result.0 result.1.now (token_from_of b rest.now) }
{
    if b == b'n' {
        return null_token(rest);
    }
    if b == b't' {
        return true_token(rest);
    }
    if b == b'f' {
        return false_token(rest);
    }
    number_token(line)
}
