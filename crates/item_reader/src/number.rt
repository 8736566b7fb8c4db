//! Numbers, taken from the front of a text.

ghost use Rattle.std.specs.Prelude.{◌≡◌, drop, pos, IfSome, IfOk, IfErr};
ghost use Rattle.num_fixed.specs.Bounds.{NumberInBounds};
ghost use Rattle.num_fixed.specs.Fronts.{minus_len, whole_end as whole_end_of};
ghost use Rattle.num_fixed.specs.Numeral.{Numeral, IsSaid, IsRefused};
ghost use Rattle.json_text.specs.inside.Scan.{numeral_at, is_int as is_int_of, is_json_front as is_json_front_of};
ghost use Rattle.json_text.specs.inside.Machine.{numeral_token as numeral_token_of};
ghost use Rattle.json_text.specs.inside.Machine as m;
ghost use Rattle.item_reader.specs.Tokens.{StandsFor, IsPart, IsInteger};

use crate::token::Token;
use item_tree::{Item, Units, Whole};
use num_fixed::{NumFault, Number, number_front, short_whole};

fn is_int(digits: &[u8]) -> bool
    ensures { result ≡ is_int_of digits.now }
{
    match digits {
        [] => false,
        [_] => true,
        [first, _, ..] => !(*first == b'0'),
    }
}

fn behind_minus(bytes: &[u8]) -> &[u8]
    ensures { result.now ≡ drop (minus_len bytes.now) bytes.now }
{
    match bytes {
        [b'-', rest @ ..] => rest,
        _ => bytes,
    }
}

// Whether JSON has the number at the front, whose digits before the point end here.
fn is_json_front(line: &[u8], whole_end: usize) -> bool
    requires { whole_end ≡ whole_end_of line.now }
    ensures { result ≡ is_json_front_of line.now }
{
    is_int(behind_minus(&line[..whole_end]))
}

// The token of a number, or of one that is out of bounds.
#[inline(always)]
fn value_token(value: Result<Number, NumFault>) -> Token
    requires { IfOk value NumberInBounds }
    ensures { (n : Numeral) → IfOk value (IsSaid n) → IfErr value (IsRefused n) →
        StandsFor result (m.numeral n) }
{
    match value {
        Ok(Number::Int(n)) => Token::Atom(Item::Int(Whole::new(n))),
        Ok(Number::Dec(m)) => Token::Atom(Item::Dec(Units::new(m))),
        Err(_) => Token::NumberOut,
    }
}

/// The integer of these bits.
#[inline(always)]
pub fn whole(n: u64) -> Whole
    ensures { result ≡ pos n }
{
    Whole::new(i128::from(n))
}

/// A number at the front, and what is behind it, where the number is whole and short and has no
/// sign.
#[inline(always)]
pub fn short_number(line: &[u8]) -> Option<(u64, &[u8])>
    ensures { IfSome result (λ p.
        IsInteger (pos p.0) p.1.now (numeral_token_of (numeral_at line.now))) }
{
    let (n, end) = short_whole(line)?;
    if !is_json_front(line, end) {
        return None;
    }
    Some((n, &line[end..]))
}

/// The token of a number at the front, and what is behind it.
#[inline(never)]
pub fn number_token(line: &[u8]) -> (Token, &[u8])
    ensures { IsPart result.0 result.1.now (numeral_token_of (numeral_at line.now)) }
{
    match number_front(line) {
        None => (Token::Bad, &[]),
        Some(front) => {
            if is_json_front(line, front.whole_end) {
                (value_token(front.value), &line[front.end..])
            } else {
                (Token::Bad, &[])
            }
        }
    }
}
