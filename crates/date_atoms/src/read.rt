//! Reads dates and date-times.

ghost use Rattle.std.specs.Prelude.{◌≡◌, ◌<◌, ◌+◌, ◌*◌, ◌^◌, pos, ◌-ℤ◌, ◌*ℤ◌, unsigned_abs, MatchOption};
ghost use Rattle.std.specs.Str.{chars};
ghost use Rattle.item_tree.specs.Dates.{Date, DateTime};
ghost use Rattle.date_atoms.specs.Texts.{IsDateText, IsDateTimeText, IsMomentAt, nanos_since};

use crate::add_days;
use crate::fronts::{date_of, time_front};
use crate::tails::tail_of;
use item_tree::{Day, Moment};

const DATE_LEN: usize = 10;

const NANOS_OF_DAY: i64 = 86_400_000_000_000;

/// The date that the text says: `YYYY-MM-DD`, with nothing round it. `None` exactly where it says
/// none, since it has another form or the calendar has no such date.
pub fn read_date(text: &str) -> Option<Day>
    ensures { MatchOption result ((d : Date) → ¬ IsDateText d (chars text.now))
        (λ d. IsDateText d (chars text.now)) }
{
    date_of(text.as_bytes())
}

/// The moment that the text says: a date, `T`, `HH:MM:SS` to 23:59:59, a point and one to nine
/// digits or neither, and `Z`, `+HH:MM` or `-HH:MM` to 23:59 or nothing, which means UTC; with
/// nothing round it. `None` exactly where it says none, since it has another form, the calendar has
/// no such date, or the year of the moment in UTC is not from 1 to 9999.
pub fn read_date_time(text: &str) -> Option<Moment>
    ensures { MatchOption result ((t : DateTime) → ¬ IsDateTimeText t (chars text.now))
        (λ t. IsDateTimeText t (chars text.now)) }
{
    let bytes = text.as_bytes();
    if bytes.len() < DATE_LEN {
        return None;
    }
    let (date, behind) = bytes.split_at(DATE_LEN);
    let day = date_of(date)?;
    let (seconds, tail) = time_front(behind)?;
    let (fraction, ahead) = tail_of(tail)?;
    moment_since(day, nanos_in_utc(seconds, fraction, ahead))
}

// The nanoseconds from a midnight in UTC to what a clock shows that is so many minutes ahead.
fn nanos_in_utc(seconds: u32, fraction: u32, ahead: i32) -> i64
    requires { unsigned_abs ahead < 1440 }
    ensures { result
        ≡ pos (seconds * 10 ^ 9 + fraction) -ℤ ahead *ℤ pos (60 * 10 ^ 9) }
{
    let shown = i64::from(seconds) * 1_000_000_000 + i64::from(fraction);
    shown - i64::from(ahead) * 60_000_000_000
}

// The moment so many nanoseconds after the midnight with which the date begins.
fn moment_since(day: Day, nanos: i64) -> Option<Moment>
    ensures { MatchOption result ((t : DateTime) → ¬ IsMomentAt (nanos_since day nanos) t)
        (IsMomentAt (nanos_since day nanos)) }
{
    let later = add_days(&day, i128::from(nanos.div_euclid(NANOS_OF_DAY)));
    match later {
        Some(day) => Some(Moment::new(day, nanos.rem_euclid(NANOS_OF_DAY) as u64)),
        None => None,
    }
}
