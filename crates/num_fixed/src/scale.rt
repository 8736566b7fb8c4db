//! Numbers with a power of ten, in units.

ghost use Rattle.std.specs.Prelude.{◌<◌, ◌≤◌, ◌+◌, ◌*◌, ◌^◌, ◌++◌, length};
ghost use Rattle.num_fixed.specs.inside.Digits.{IsWithin, IsFound, IsMissed, IsFoundAt, IsMissedAt, IsSize, IsNoSize};
ghost use Rattle.num_fixed.specs.Numeral.{AreDigits, number_of};

use crate::bounds::UNITS_BOUND;
use crate::digits::{all_zero_in, nearest_to_first, number_of};

/// How many places behind the point units have.
const UNIT_PLACES: u128 = 6;

/// The number nearest to what digits in two pieces spell, when the last few of them stand behind
/// the point.
fn nearest_without(whole: &[u8], fraction: &[u8], last: u128) -> Option<u128>
    requires { AreDigits (whole.now ++ fraction.now) }
    ensures found { IsFound (number_of 0 (whole.now ++ fraction.now)) (10 ^ last) result }
    ensures none { IsMissed (number_of 0 (whole.now ++ fraction.now)) (10 ^ last) result }
{
    if last > whole.len() as u128 + fraction.len() as u128 {
        return Some(0);
    }
    if last <= fraction.len() as u128 {
        let (kept, left) = fraction.split_at(fraction.len() - last as usize);
        nearest_to_first(whole, kept, left, &[])
    } else {
        let (kept, left) = whole.split_at(whole.len() - (last - fraction.len() as u128) as usize);
        nearest_to_first(kept, &[], left, fraction)
    }
}

/// A number with some zeros behind it, where it is in bounds. It stops at the bound, so a large
/// number of zeros takes no time.
#[tactic(auto, using(crate::proofs::ScaleLemmas::zero_steps))]
fn shifted(n: u128, zeros: u128) -> Option<u128>
    requires { n < 10 ^ 26 }
    ensures { IsWithin (n * 10 ^ zeros) result }
{
    if n == 0 {
        return Some(0);
    }
    let mut m = n;
    for i in 0..zeros {
        m = m * 10;
        if m >= UNITS_BOUND {
            return None;
        }
    }
    Some(m)
}

/// The number nearest to what digits in two pieces spell, raised and then lowered by powers of ten.
fn scaled(whole: &[u8], fraction: &[u8], up: u128, down: u128) -> Option<u128>
    requires { AreDigits (whole.now ++ fraction.now) }
    ensures found { IsFoundAt whole.now fraction.now up down result }
    ensures none { IsMissedAt whole.now fraction.now up down result }
{
    if up < down {
        return nearest_without(whole, fraction, down - up);
    }
    match number_of(whole, fraction) {
        Some(n) => shifted(n, up - down),
        None => None,
    }
}

/// The nearest size in units at an exponent of 10^26 or more, which no text has digits enough to
/// make up for.
fn far(whole: &[u8], fraction: &[u8], small: bool, exponent: &[u8]) -> Option<u128>
    requires digits { AreDigits (whole.now ++ fraction.now) }
    requires room { length whole.now + length fraction.now < 2 ^ 65 }
    requires big { 10 ^ 26 ≤ number_of 0 exponent.now }
    ensures found { IsSize whole.now fraction.now small exponent.now result }
    ensures none { IsNoSize whole.now fraction.now small exponent.now result }
{
    if all_zero_in(whole, fraction) {
        return Some(0);
    }
    if small { Some(0) } else { None }
}

/// The nearest size in units of what digits before and behind the point spell with an exponent;
/// None where it is out of bounds.
pub(crate) fn size_in_units(
    whole: &[u8],
    fraction: &[u8],
    small: bool,
    exponent: &[u8],
) -> Option<u128>
    requires { AreDigits (whole.now ++ fraction.now) }
    ensures found { IsSize whole.now fraction.now small exponent.now result }
    ensures none { IsNoSize whole.now fraction.now small exponent.now result }
{
    let places = fraction.len() as u128;
    match number_of(exponent, &[]) {
        Some(e) => {
            if small {
                scaled(whole, fraction, UNIT_PLACES, places + e)
            } else {
                scaled(whole, fraction, UNIT_PLACES + e, places)
            }
        }
        None => far(whole, fraction, small, exponent),
    }
}
