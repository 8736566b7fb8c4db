//! Functions on dates and date-times.

ghost use Rattle.std.specs.Prelude.{◌≡◌, [], ◌∷◌, Ok, IfOk, IfErr, pos, ◌-ℤ◌};
ghost use Rattle.item_tree.specs.Dates.{day_number};
ghost use Rattle.item_tree.specs.Datum.{integer};
ghost use Rattle.item_tree.specs.Item.{datum, datums};
ghost use Rattle.value_rules.specs.Operands.{FailsWith};
ghost use Rattle.fn_table.specs.Dates.{date_of, optional_date, year_from_date, month_from_date, day_from_date, days_later, add_days, days_between};

use crate::results::one_item;
use date_atoms::day_number;
use item_tree::{Code, Day, Item, NoMemory, OpFault, Whole};
use std::alloc::Global;
use value_rules::one_integer;

fn date_of(x: &Item) -> Result<Day, Code>
    ensures { result ≡ date_of (datum x.now) }
{
    match x {
        Item::Date(day) => Ok(*day),
        Item::Array(_) | Item::Object(_) => Err(Code::JNTY0004),
        _ => Err(Code::XPTY0004),
    }
}

// Nothing, or the one date of a sequence.
fn optional_date(s: &[Item]) -> Result<Option<Day>, Code>
    ensures { result ≡ optional_date (datums s.now) }
{
    match s {
        [] => Ok(None),
        [x] => Ok(Some(date_of(x)?)),
        _ => Err(Code::XPTY0004),
    }
}

fn one_number(alloc: Global, n: u16) -> Result<Vec<Item>, NoMemory>
    ensures { IfOk result (λ xs. datums xs.items ≡ integer (pos n) ∷ []) }
{
    one_item(alloc, Item::Int(Whole::new(i128::from(n))))
}

/// The year of a date; nothing where there is none.
pub(crate) fn year_from_date(alloc: Global, s: &[Item]) -> Result<Vec<Item>, OpFault>
    ensures value { IfOk result (λ xs. year_from_date (datums s.now) ≡ Ok (datums xs.items)) }
    ensures fault { IfErr result (FailsWith (year_from_date (datums s.now))) }
{
    match optional_date(s)? {
        None => Ok(Vec::new(alloc)),
        Some(day) => Ok(one_number(alloc, day.year())?),
    }
}

/// The month of a date; nothing where there is none.
pub(crate) fn month_from_date(alloc: Global, s: &[Item]) -> Result<Vec<Item>, OpFault>
    ensures value { IfOk result (λ xs. month_from_date (datums s.now) ≡ Ok (datums xs.items)) }
    ensures fault { IfErr result (FailsWith (month_from_date (datums s.now))) }
{
    match optional_date(s)? {
        None => Ok(Vec::new(alloc)),
        Some(day) => Ok(one_number(alloc, u16::from(day.month()))?),
    }
}

/// The day of a date in its month; nothing where there is none.
pub(crate) fn day_from_date(alloc: Global, s: &[Item]) -> Result<Vec<Item>, OpFault>
    ensures value { IfOk result (λ xs. day_from_date (datums s.now) ≡ Ok (datums xs.items)) }
    ensures fault { IfErr result (FailsWith (day_from_date (datums s.now))) }
{
    match optional_date(s)? {
        None => Ok(Vec::new(alloc)),
        Some(day) => Ok(one_number(alloc, u16::from(day.day()))?),
    }
}

// The date so many days later, or earlier for a number below 0, if there is one.
fn later(day: Day, days: i128) -> Option<Day>
    ensures { result ≡ days_later day days }
{
    let _year = day.year();
    date_atoms::add_days(&day, days)
}

/// The date so many days later; nothing where there is no date.
pub(crate) fn add_days(alloc: Global, s: &[Item], days: &[Item]) -> Result<Vec<Item>, OpFault>
    ensures value { IfOk result
        (λ xs. add_days (datums s.now) (datums days.now) ≡ Ok (datums xs.items)) }
    ensures fault { IfErr result (FailsWith (add_days (datums s.now) (datums days.now))) }
{
    let date = optional_date(s)?;
    let count = one_integer(days)?;
    let Some(day) = date else {
        return Ok(Vec::new(alloc));
    };
    match later(day, count) {
        None => Err(OpFault::Raised(Code::FOAR0002)),
        Some(sum) => Ok(one_item(alloc, Item::Date(sum))?),
    }
}

/// The number of days from the first date to the second; nothing where one is not there.
pub(crate) fn days_between(alloc: Global, s: &[Item], t: &[Item]) -> Result<Vec<Item>, OpFault>
    ensures value { IfOk result
        (λ xs. days_between (datums s.now) (datums t.now) ≡ Ok (datums xs.items)) }
    ensures fault { IfErr result (FailsWith (days_between (datums s.now) (datums t.now))) }
{
    let from = optional_date(s)?;
    let to = optional_date(t)?;
    let Some(first) = from else {
        return Ok(Vec::new(alloc));
    };
    let Some(last) = to else {
        return Ok(Vec::new(alloc));
    };
    Ok(one_item(alloc, Item::Int(days_from(first, last)))?)
}

fn days_from(first: Day, last: Day) -> Whole
    ensures { result ≡ day_number last -ℤ day_number first }
{
    Whole::new(i128::from(day_number(&last)) - i128::from(day_number(&first)))
}
