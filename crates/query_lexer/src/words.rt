//! Names, variables and words.

ghost use Rattle.std.specs.Prelude.{◌≡◌, ◌≤◌, ◌+◌, ◌&&◌, not, length, drop, codes, IfSome, IsTrue};
ghost use Rattle.std.specs.List.{prefix_len};
ghost use Rattle.query_lexer.specs.Bytes.{is_name_byte, next_passes};
ghost use Rattle.query_lexer.specs.Scan.{name_length, starts_with, var_at, token_at};

use crate::TokenKind;
use crate::bytes::{is_letter, is_name_byte, next_is_name_byte};
use crate::marks::mark_at;
use crate::numbers::number_at;
use crate::strings::string_length;

fn name_bytes(text: &[u8]) -> usize
    ensures value { result ≡ prefix_len is_name_byte text.now }
    ensures within { result ≤ length text.now }
{
    text.iter().take_while(|b| is_name_byte(**b)).count()
}

/// The length of the name at the front, or 0.
#[tactic(auto, unfolding(crate::specs::Scan::name_length))]
fn name_length(text: &[u8]) -> usize
    ensures value { result ≡ name_length text.now }
    ensures within { result ≤ length text.now }
{
    match text {
        [first, rest @ ..] if is_letter(*first) => 1 + name_bytes(rest),
        _ => 0,
    }
}

/// Whether `err:code` is at the front and ends there.
fn is_error_code(text: &[u8]) -> bool
    ensures value { result
        ≡
        (starts_with (codes "err:code") text.now
        && not (next_passes is_name_byte (drop 8 text.now))) }
    ensures within { IsTrue result → 8 ≤ length text.now }
{
    match text {
        [b'e', b'r', b'r', b':', b'c', b'o', b'd', b'e', rest @ ..] => !next_is_name_byte(rest),
        _ => false,
    }
}

/// What a `$` begins, and its length, from what stands behind the `$`.
#[tactic(auto, unfolding(crate::specs::Scan::var_at))]
fn var_at(text: &[u8]) -> Option<(TokenKind, usize)>
    ensures value { result ≡ var_at text.now }
    ensures within { IfSome result (λ x. x.1 ≤ length text.now + 1) }
{
    if is_error_code(text) {
        return Some((TokenKind::Var, 9));
    }
    let n = name_length(text);
    if n > 0 {
        return Some((TokenKind::Var, 1 + n));
    }
    match text {
        [b'$', ..] => Some((TokenKind::Context, 2)),
        _ => None,
    }
}

/// The longest token at the front, and its length.
#[tactic(auto, unfolding(crate::specs::Scan::token_at))]
pub(crate) fn token_at(text: &[u8]) -> Option<(TokenKind, usize)>
    ensures value { result ≡ token_at text.now }
    ensures within { IfSome result (λ x. x.1 ≤ length text.now) }
{
    match text {
        [] => None,
        [first, ..] if is_letter(*first) => Some((TokenKind::Name, name_length(text))),
        [b'$', rest @ ..] => var_at(rest),
        [b'"', rest @ ..] => match string_length(rest) {
            Some(n) => Some((TokenKind::Text, 1 + n)),
            None => None,
        },
        [..] => match number_at(text) {
            Some(found) => Some(found),
            None => mark_at(text),
        },
    }
}
