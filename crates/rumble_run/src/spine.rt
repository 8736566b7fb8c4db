//! How deep the spine of a body is.

ghost use Rattle.std.specs.Prelude.{◌≡◌, ◌≤◌, ◌<◌, true, false};
ghost use Rattle.query_tree.specs.BoundViews.{bound_tree};
ghost use Rattle.query_tree.specs.Spines.{spine};

use query_tree::{BoundExpr, Kind};

/// Whether no more than that many parentheses, commas and `try`s stand one in another on the spine
/// of an expression.
#[tactic(auto, using(query_tree::proofs::Layers::layers))]
pub(crate) fn spine_fits(tree: &BoundExpr, room: u32) -> bool
    ensures fits { result ≡ true → spine (bound_tree tree.now) ≤ room }
    ensures not { result ≡ false → room < spine (bound_tree tree.now) }
{
    match &tree.kind {
        Kind::Comma { first, rest } => {
            if room == 0 || !spine_fits(first, room - 1) {
                return false;
            }
            for operand in rest {
                if !spine_fits(&operand.value, room - 1) {
                    return false;
                }
            }
            true
        }
        Kind::Paren { content } => {
            if room == 0 {
                return false;
            }
            match content {
                Some(content) => spine_fits(content, room - 1),
                None => true,
            }
        }
        Kind::Try { body, .. } => room > 0 && spine_fits(body, room - 1),
        _ => true,
    }
}
