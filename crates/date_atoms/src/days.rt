//! Dates as numbers of days.

ghost use Rattle.std.specs.Prelude.{◌≡◌, MatchOption};
ghost use Rattle.item_tree.specs.Dates.{Date, day_number};
ghost use Rattle.date_atoms.specs.Sums.{IsDayNumber, IsDaysLater};
ghost use Rattle.date_atoms.specs.inside.Civil.{IsCivil};

use item_tree::Day;
use jiff::{ToSpan, civil};

// The days from the first date to the last. A span of `jiff` holds as many.
const MOST_DAYS: u128 = 3_652_058;

/// How many days after 1970-01-01 the date lies; less than 0 before it.
pub fn day_number(day: &Day) -> i32
    ensures value { result ≡ day_number day.now }
    ensures within { IsDayNumber result }
{
    civil_date(day).to_plain().to_unix_epoch_day()
}

/// The date so many days later, or earlier for a number below 0. `None` exactly where there is no
/// such date, since its year would not be from 1 to 9999.
pub fn add_days(day: &Day, days: i128) -> Option<Day>
    ensures { MatchOption result ((d : Date) → ¬ IsDaysLater day.now days d)
        (IsDaysLater day.now days) }
{
    let date = civil_date(day);
    if days.unsigned_abs() > MOST_DAYS {
        return None;
    }
    match date.checked_add((days as i64).days()) {
        Ok(later) => day_of(later),
        Err(_) => None,
    }
}

// The date as `jiff` has it.
fn civil_date(day: &Day) -> civil::Date
    ensures { IsCivil result day.now }
{
    civil::date(day.year() as i16, day.month() as i8, day.day() as i8)
}

// The date that `jiff` has, where its year is one that a `Day` may have.
fn day_of(date: civil::Date) -> Option<Day>
    ensures { MatchOption result ((d : Date) → ¬ IsCivil date d) (IsCivil date) }
{
    if date.year() < 1 {
        return None;
    }
    Day::new(date.year() as u16, date.month() as u8, date.day() as u8)
}
