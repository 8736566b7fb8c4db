//! Strings in a query.

ghost use Rattle.std.specs.Prelude.{◌≡◌, ◌<◌, ◌≤◌, length, [], ◌∷◌, Some, None, IfSome, IfNone, MatchOption};
ghost use Rattle.json_text.specs.inside.Scan.{string_at};
ghost use Rattle.json_text.specs.Escapes.{Begins};
ghost use Rattle.query_lexer.specs.Scan.{closed_at, string_length};

use json_text::{Spelled, escape_at, is_raw};

/// What this byte begins, and what is behind it.
fn character_from(first: u8, rest: &[u8]) -> Option<(Spelled, &[u8])>
    ensures some { IfSome result (λ x. Begins (first ∷ rest.now) x.0 x.1.now) }
    ensures none { IfNone result (string_at (first ∷ rest.now) ≡ closed_at (first ∷ rest.now)) }
{
    if first == b'\\' {
        escape_at(rest)
    } else if is_raw(first) {
        Some((Spelled::Byte(first), rest))
    } else {
        None
    }
}

/// What stands at the front of the inside of a string, and what is behind it. It is none at the
/// closing quote, and where no string is.
pub(crate) fn character_at(text: &[u8]) -> Option<(Spelled, &[u8])>
    ensures some { IfSome result (λ x. Begins text.now x.0 x.1.now) }
    ensures none { IfNone result (string_at text.now ≡ closed_at text.now) }
{
    match text {
        [first, rest @ ..] => character_from(*first, rest),
        [] => None,
    }
}

/// What is behind a closing quote at the front.
fn behind_quote(text: &[u8]) -> Option<&[u8]>
    ensures value { MatchOption result (closed_at text.now ≡ None)
        (λ r. closed_at text.now ≡ Some ([], r.now)) }
    ensures within { IfSome result (λ r. length r.now < length text.now) }
{
    match text {
        [b'"', behind @ ..] => Some(behind),
        _ => None,
    }
}

/// How many bytes there are until a string ends, its closing quote included.
#[tactic(auto, using(crate::proofs::StringLemmas::size_at_end, crate::proofs::StringLemmas::no_size))]
pub(crate) fn string_length(text: &[u8]) -> Option<usize>
    ensures value { result ≡ string_length text.now }
    ensures within { IfSome result (λ n. n ≤ length text.now) }
{
    let mut rest = text;
    while let Some((_, next)) = character_at(rest) {
        rest = next;
    }
    match behind_quote(rest) {
        Some(behind) => Some(text.len() - behind.len()),
        None => None,
    }
}
