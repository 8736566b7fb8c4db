//! Numbers from digits, rounded to the nearest.

ghost use Rattle.std.specs.Prelude.{◌≡◌, ◌<◌, ◌^◌, ◌==◌, ◌∷◌, ◌++◌};
ghost use Rattle.std.specs.List.{list_all};
ghost use Rattle.num_fixed.specs.inside.Digits.{IsRest, rounded_by, IsWithin, IsFoundBefore, IsMissedBefore};
ghost use Rattle.num_fixed.specs.Numeral.{AreDigits, number_of};

use crate::bounds::UNITS_BOUND;

/// What the digits behind the place that is kept are, against half of one there.
#[derive(Clone, Copy, Debug, PartialEq, Eq)]
enum Rest {
    Above,
    Half,
    Below,
}

/// The number that digits spell behind another, where it is in bounds.
#[tactic(auto, using(crate::proofs::DigitLemmas::large_now))]
fn number_behind(start: u128, digits: &[u8]) -> Option<u128>
    requires { start < 10 ^ 26 }
    ensures { IsWithin (number_of start digits.now) result }
{
    let mut n = start;
    for b in digits {
        n = n * 10 + u128::from(b.saturating_sub(b'0'));
        if n >= UNITS_BOUND {
            return None;
        }
    }
    Some(n)
}

/// The number that digits in two pieces spell, where it is in bounds.
#[tactic(auto, using(crate::proofs::DigitLemmas::number_steps))]
pub(crate) fn number_of(first: &[u8], second: &[u8]) -> Option<u128>
    ensures { IsWithin (number_of 0 (first.now ++ second.now)) result }
{
    match number_behind(0, first) {
        Some(n) => number_behind(n, second),
        None => None,
    }
}

fn all_zero(digits: &[u8]) -> bool
    ensures { result ≡ list_all (λ b. b == 48) digits.now }
{
    digits.iter().all(|b| *b == b'0')
}

/// Whether digits in two pieces are all 0.
pub(crate) fn all_zero_in(first: &[u8], second: &[u8]) -> bool
    ensures { result ≡ list_all (λ b. b == 48) (first.now ++ second.now) }
{
    all_zero(first) && all_zero(second)
}

fn rest_behind(first: u8, more: &[u8], others: &[u8]) -> Rest
    requires { AreDigits (more.now ++ others.now) }
    ensures { IsRest (first ∷ more.now ++ others.now) result }
{
    if first < b'5' {
        Rest::Below
    } else if first == b'5' && all_zero_in(more, others) {
        Rest::Half
    } else {
        Rest::Above
    }
}

fn rest_of(digits: &[u8], others: &[u8]) -> Rest
    requires { AreDigits (digits.now ++ others.now) }
    ensures { IsRest (digits.now ++ others.now) result }
{
    match digits {
        [first, more @ ..] => rest_behind(*first, more, others),
        [] => match others {
            [first, more @ ..] => rest_behind(*first, more, &[]),
            [] => Rest::Below,
        },
    }
}

fn rounded_by(rest: Rest, kept: u128) -> u128
    requires { kept < 10 ^ 26 }
    ensures { result ≡ rounded_by rest kept }
{
    match rest {
        Rest::Above => kept + 1,
        Rest::Half => { if kept % 2 == 1 { kept + 1 } else { kept } }
        Rest::Below => kept,
    }
}

/// The number nearest to what digits in four pieces spell, when the last two pieces stand behind
/// the point.
pub(crate) fn nearest_to_first(
    first: &[u8],
    second: &[u8],
    third: &[u8],
    fourth: &[u8],
) -> Option<u128>
    requires { AreDigits (third.now ++ fourth.now) }
    ensures found { IsFoundBefore (first.now ++ second.now) (third.now ++ fourth.now) result }
    ensures none { IsMissedBefore (first.now ++ second.now) (third.now ++ fourth.now) result }
{
    match number_of(first, second) {
        None => None,
        Some(kept) => {
            let n = rounded_by(rest_of(third, fourth), kept);
            if n < UNITS_BOUND { Some(n) } else { None }
        }
    }
}
