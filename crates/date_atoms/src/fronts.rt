//! Dates, and the time of day at the front of some bytes.

ghost use Rattle.std.specs.Prelude.{ℕ, List, MatchOption};
ghost use Rattle.item_tree.specs.Dates.{Date};
ghost use Rattle.date_atoms.specs.Texts.{IsDateText};
ghost use Rattle.date_atoms.specs.inside.Fronts.{IsClockFront, IsTimeFront};

use crate::digits::triple_front;
use item_tree::Day;

/// The date that the bytes spell.
pub(crate) fn date_of(bytes: &[u8]) -> Option<Day>
    ensures { MatchOption result ((d : Date) → ¬ IsDateText d bytes.now)
        (λ d. IsDateText d bytes.now) }
{
    let numbers = triple_front(bytes, 4, b'-')?;
    if !numbers.rest.is_empty() {
        return None;
    }
    Day::new(
        numbers.first as u16,
        numbers.second as u8,
        numbers.third as u8,
    )
}

// The time of day that stands first, as seconds since midnight, and what is behind it.
fn clock_front(bytes: &[u8]) -> Option<(u32, &[u8])>
    ensures { MatchOption result
        ((s : ℕ) (rest : List ℕ) → ¬ IsClockFront bytes.now s rest)
        (λ found. IsClockFront bytes.now found.0 found.1.now) }
{
    let time = triple_front(bytes, 2, b':')?;
    if time.first > 23 || time.second > 59 || time.third > 59 {
        return None;
    }
    Some((time.first * 3600 + time.second * 60 + time.third, time.rest))
}

/// The time of day behind a `T`, as seconds since midnight, and what is behind it.
pub(crate) fn time_front(bytes: &[u8]) -> Option<(u32, &[u8])>
    ensures { MatchOption result
        ((s : ℕ) (rest : List ℕ) → ¬ IsTimeFront bytes.now s rest)
        (λ found. IsTimeFront bytes.now found.0 found.1.now) }
{
    match bytes {
        [b'T', time @ ..] => clock_front(time),
        _ => None,
    }
}
