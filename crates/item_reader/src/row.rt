//! Arrays of a few short whole numbers, without any space.

ghost use Rattle.std.specs.Prelude.{pos, IfSome};
ghost use Rattle.item_tree.specs.Datum.{integer};
ghost use Rattle.item_tree.specs.Few.{integers_in};
ghost use Rattle.item_reader.specs.Rows.{IsElement, IsRow, mark_of};

use crate::number::{short_number, whole};
use crate::token::uncons;
use item_tree::FewIntegers;

// The number at the front, whether a comma is right behind it, else a bracket, and what is behind
// that.
#[inline(always)]
fn element(line: &[u8]) -> Option<(u64, bool, &[u8])>
    ensures { IfSome result (λ p. IsElement (integer (pos p.0)) (mark_of p.1) line.now p.2.now) }
{
    let Some((first, _)) = uncons(line) else {
        return None;
    };
    if !first.is_ascii_digit() {
        return None;
    }
    let Some((n, rest)) = short_number(line) else {
        return None;
    };
    let Some((mark, behind)) = uncons(rest) else {
        return None;
    };
    if mark == b',' {
        return Some((n, true, behind));
    }
    if mark == b']' {
        return Some((n, false, behind));
    }
    None
}

/// The numbers of an array whose opening bracket is before the line, and what is behind it, where
/// it has nothing but one to four whole numbers of at most 18 digits without a sign.
#[inline(always)]
pub fn row_front(line: &[u8]) -> Option<(FewIntegers, &[u8])>
    ensures { IfSome result (λ p. IsRow (integers_in p.0) line.now p.1.now) }
{
    let Some((a, more, rest)) = element(line) else {
        return None;
    };
    if !more {
        return Some((FewIntegers::One(whole(a)), rest));
    }
    let Some((b, more, rest)) = element(rest) else {
        return None;
    };
    if !more {
        return Some((FewIntegers::Two(whole(a), whole(b)), rest));
    }
    let Some((c, more, rest)) = element(rest) else {
        return None;
    };
    if !more {
        return Some((FewIntegers::Three(whole(a), whole(b), whole(c)), rest));
    }
    let Some((d, more, rest)) = element(rest) else {
        return None;
    };
    if more {
        return None;
    }
    Some((
        FewIntegers::Four(whole(a), whole(b), whole(c), whole(d)),
        rest,
    ))
}
