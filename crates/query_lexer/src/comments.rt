//! Comments.

ghost use Rattle.std.specs.Prelude.{◌≡◌, ◌≤◌, length, IfSome, IsTrue};
ghost use Rattle.query_lexer.specs.Comments.{opens, closes, begins_comment, comment_rest};

#[tactic(auto, unfolding(crate::specs::Comments::opens))]
fn opens(first: u8, second: u8) -> bool
    ensures { result ≡ opens first second }
{
    first == b'(' && second == b':'
}

#[tactic(auto, unfolding(crate::specs::Comments::closes))]
fn closes(first: u8, second: u8) -> bool
    ensures { result ≡ closes first second }
{
    first == b':' && second == b')'
}

pub(crate) fn begins_comment(text: &[u8]) -> bool
    ensures value { result ≡ begins_comment text.now }
    ensures within { IsTrue result → 2 ≤ length text.now }
{
    match text {
        [first, second, ..] => opens(*first, *second),
        _ => false,
    }
}

/// How long the rest of a comment is, behind the mark that opens it, if it is closed.
#[tactic(auto, using(crate::proofs::CommentLemmas::comment_steps))]
pub(crate) fn comment_length(text: &[u8]) -> Option<usize>
    ensures value { result ≡ comment_rest 0 text.now }
    ensures within { IfSome result (λ n. n ≤ length text.now) }
{
    let mut depth = 0usize;
    let mut at = 0usize;
    while at + 1 < text.len() {
        if closes(text[at], text[at + 1]) {
            if depth == 0 {
                return Some(at + 2);
            }
            depth -= 1;
            at += 2;
        } else if opens(text[at], text[at + 1]) {
            depth += 1;
            at += 2;
        } else {
            at += 1;
        }
    }
    None
}
