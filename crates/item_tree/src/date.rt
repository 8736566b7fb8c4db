//! Dates and date-times.

ghost use Rattle.std.specs.Prelude.{◌≡◌, ◌<◌, MatchOption};
ghost use Rattle.item_tree.specs.Dates.{IsDate, IsDateTime, days_in_month, is_leap_year, nanos_of_day};

use std::marker::Model;

/// A date of the Gregorian calendar, from 0001-01-01 to 9999-12-31. The years before that calendar
/// was in use are counted by it too. Dates compare by time.
#[derive(Clone, Copy, Debug, PartialEq, Eq, PartialOrd, Ord, Hash)]
pub struct Day {
    year: u16,
    month: u8,
    day: u8,
}

impl Model for Day {
    ghost use Rattle.item_tree.specs.Dates.{Date, IsDate};

    ghost Value = { Date };

    ghost view = { λ a. record { year = a.year; month = a.month; day = a.day } };

    ghost invariant = { λ a. IsDate (record { year = a.year; month = a.month; day = a.day }) };

    ghost inverse = { λ d. record { year = d.year; month = d.month; day = d.day } };
}

impl Day {
    /// The date of this year, month and day. `None` exactly where the calendar has no such date, or
    /// its year is not from 1 to 9999.
    pub fn new(year: u16, month: u8, day: u8) -> Option<Day>
        ensures { MatchOption result (¬ IsDate (record { year = year; month = month; day = day }))
            (λ d. d ≡ record { year = year; month = month; day = day }) }
    {
        if year < 1 || year > 9999 || month < 1 || month > 12 || day < 1 {
            return None;
        }
        if day > days_in_month(year, month) {
            return None;
        }
        Some(Day { year, month, day })
    }

    /// The year, from 1 to 9999.
    pub fn year(&self) -> u16
        ensures value { result ≡ self.now.year }
        ensures exists { IsDate self.now }
    {
        self.year
    }

    /// The month, from 1 to 12.
    pub fn month(&self) -> u8
        ensures value { result ≡ self.now.month }
        ensures exists { IsDate self.now }
    {
        self.month
    }

    /// The day of the month, from 1 on.
    pub fn day(&self) -> u8
        ensures value { result ≡ self.now.day }
        ensures exists { IsDate self.now }
    {
        self.day
    }
}

fn days_in_month(year: u16, month: u8) -> u8
    ensures { result ≡ days_in_month year month }
{
    match month {
        2 => { if is_leap_year(year) { 29 } else { 28 } }
        4 | 6 | 9 | 11 => 30,
        _ => 31,
    }
}

fn is_leap_year(year: u16) -> bool
    ensures { result ≡ is_leap_year year }
{
    year % 4 == 0 && (year % 100 != 0 || year % 400 == 0)
}

/// A moment in UTC: a date, and so many nanoseconds since its midnight, fewer than a day has.
/// Moments compare by time.
#[derive(Clone, Copy, Debug, PartialEq, Eq, PartialOrd, Ord, Hash)]
pub struct Moment {
    day: Day,
    nanos: u64,
}

impl Model for Moment {
    ghost use Rattle.item_tree.specs.Dates.{DateTime, nanos_of_day};
    ghost use Rattle.std.specs.Prelude.{◌<◌};

    ghost Value = { DateTime };

    ghost view = { λ a. record { date = a.day; nanos = a.nanos } };

    ghost invariant = { λ a. a.nanos < nanos_of_day };

    ghost inverse = { λ t. record { day = t.date; nanos = t.nanos } };
}

impl Moment {
    /// The moment so many nanoseconds after the midnight with which the date begins.
    pub fn new(day: Day, nanos: u64) -> Moment
        requires { nanos < nanos_of_day }
        ensures { result ≡ record { date = day; nanos = nanos } }
    {
        Moment { day, nanos }
    }

    /// The date.
    pub fn day(&self) -> Day
        ensures value { result ≡ self.now.date }
        ensures exists { IsDateTime self.now }
    {
        // It tells the proof that there is such a date.
        let _year = self.day.year();
        self.day
    }

    /// The nanoseconds since the date's midnight.
    pub fn nanos(&self) -> u64
        ensures value { result ≡ self.now.nanos }
        ensures within { self.now.nanos < nanos_of_day }
    {
        self.nanos
    }
}
