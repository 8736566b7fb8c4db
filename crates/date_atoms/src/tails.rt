//! The fraction of a second and the offset from UTC, which stand last.

ghost use Rattle.std.specs.Prelude.{◌≡◌, ℕ, ◌<◌, ◌∷◌, MatchOption};
ghost use Rattle.std.specs.List.{prefix_len};
ghost use Rattle.date_atoms.specs.Texts.{Fraction, fraction_nanos, Offset, offset_minutes, minutes_text};
ghost use Rattle.date_atoms.specs.inside.Fronts.{IsFractionText, IsOffsetText, IsTail, is_fraction_byte};

use crate::digits::{marked_front, number, number_front};

// The nanoseconds that one to nine digits behind a point are.
fn nanos_of(digits: &[u8]) -> Option<u32>
    ensures { MatchOption result
        ((f : Fraction) → ¬ IsFractionText f (46 ∷ digits.now))
        (λ n. (f : Fraction) × IsFractionText f (46 ∷ digits.now) × (n ≡ fraction_nanos f)) }
{
    if digits.is_empty() || digits.len() > 9 {
        return None;
    }
    let n = number(digits)?;
    Some(n * 10u32.pow(9 - digits.len() as u32))
}

// The nanoseconds of a fraction.
fn fraction_of(bytes: &[u8]) -> Option<u32>
    ensures { MatchOption result ((f : Fraction) → ¬ IsFractionText f bytes.now)
        (λ n. (f : Fraction) × IsFractionText f bytes.now × (n ≡ fraction_nanos f)) }
{
    match bytes {
        [] => Some(0),
        [b'.', digits @ ..] => nanos_of(digits),
        _ => None,
    }
}

// The minutes of `HH:MM`.
fn minutes_of(bytes: &[u8]) -> Option<u32>
    ensures { MatchOption result ((m : ℕ) → m < 1440 → ¬ (bytes.now ≡ minutes_text m))
        (λ m. (m < 1440) × (bytes.now ≡ minutes_text m)) }
{
    let (hours, behind) = number_front(bytes, 2)?;
    let (minutes, rest) = marked_front(behind, b':')?;
    if hours > 23 || minutes > 59 || !rest.is_empty() {
        return None;
    }
    Some(hours * 60 + minutes)
}

// How many minutes ahead of UTC is what stands behind a plus.
fn ahead(bytes: &[u8]) -> Option<i32>
    ensures { MatchOption result ((o : Offset) → ¬ IsOffsetText o (43 ∷ bytes.now))
        (λ m. (o : Offset) × IsOffsetText o (43 ∷ bytes.now) × (m ≡ offset_minutes o)) }
{
    Some(minutes_of(bytes)? as i32)
}

// How many minutes ahead of UTC, which is less than 0, is what stands behind a minus.
fn behind(bytes: &[u8]) -> Option<i32>
    ensures { MatchOption result ((o : Offset) → ¬ IsOffsetText o (45 ∷ bytes.now))
        (λ m. (o : Offset) × IsOffsetText o (45 ∷ bytes.now) × (m ≡ offset_minutes o)) }
{
    Some(-(minutes_of(bytes)? as i32))
}

// How many minutes ahead of UTC an offset is.
fn offset_of(bytes: &[u8]) -> Option<i32>
    ensures { MatchOption result ((o : Offset) → ¬ IsOffsetText o bytes.now)
        (λ m. (o : Offset) × IsOffsetText o bytes.now × (m ≡ offset_minutes o)) }
{
    match bytes {
        [] | [b'Z'] => Some(0),
        [b'+', rest @ ..] => ahead(rest),
        [b'-', rest @ ..] => behind(rest),
        _ => None,
    }
}

// How many points and digits stand first. No offset begins with one.
fn fraction_len(bytes: &[u8]) -> usize
    ensures { result ≡ prefix_len is_fraction_byte bytes.now }
{
    bytes
        .iter()
        .take_while(|b| **b == b'.' || b.is_ascii_digit())
        .count()
}

/// The nanoseconds of the fraction, and how many minutes ahead of UTC the offset is.
pub(crate) fn tail_of(bytes: &[u8]) -> Option<(u32, i32)>
    ensures { MatchOption result ((f : Fraction) (o : Offset) → ¬ IsTail f o bytes.now)
        (λ found. (f : Fraction) × (o : Offset) × IsTail f o bytes.now
        × (found.0 ≡ fraction_nanos f) × (found.1 ≡ offset_minutes o)) }
{
    let (fraction, offset) = bytes.split_at(fraction_len(bytes));
    Some((fraction_of(fraction)?, offset_of(offset)?))
}
