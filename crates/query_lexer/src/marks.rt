//! Marks, such as brackets and operators.

ghost use Rattle.std.specs.Prelude.{◌≡◌, ◌≤◌, length, IfSome};
ghost use Rattle.query_lexer.specs.Bytes.{is_mark, is_double_mark};
ghost use Rattle.query_lexer.specs.Scan.{mark_at};

use crate::TokenKind;

#[tactic(auto, unfolding(crate::specs::Bytes::is_mark))]
fn is_mark(b: u8) -> bool
    ensures { result ≡ is_mark b }
{
    matches!(
        b,
        b'(' | b')'
            | b'['
            | b']'
            | b'{'
            | b'}'
            | b','
            | b';'
            | b':'
            | b'.'
            | b'!'
            | b'|'
            | b'+'
            | b'-'
            | b'*'
            | b'='
            | b'<'
            | b'>'
            | b'#'
            | b'?'
    )
}

#[tactic(auto, unfolding(crate::specs::Bytes::is_double_mark))]
fn is_double_mark(b: u8, c: u8) -> bool
    ensures { result ≡ is_double_mark b c }
{
    b == b'{' && c == b'|'
        || b == b'|' && (c == b'}' || c == b'|')
        || (b == b':' || b == b'!' || b == b'<' || b == b'>') && c == b'='
}

/// The mark at the front, and its length.
#[tactic(auto, unfolding(crate::specs::Scan::mark_at))]
pub(crate) fn mark_at(text: &[u8]) -> Option<(TokenKind, usize)>
    ensures value { result ≡ mark_at text.now }
    ensures within { IfSome result (λ x. x.1 ≤ length text.now) }
{
    match text {
        [first, second, ..] if is_double_mark(*first, *second) => Some((TokenKind::Mark, 2)),
        [first, ..] if is_mark(*first) => Some((TokenKind::Mark, 1)),
        _ => None,
    }
}
