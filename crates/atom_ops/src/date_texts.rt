//! Dates and date-times in texts that are cast.

ghost use Rattle.std.specs.Prelude.{◌≡◌};
ghost use Rattle.std.specs.Option.{ok_or};
ghost use Rattle.item_tree.specs.declared.code.Code.TheVariants.{FORG0001};
ghost use Rattle.date_atoms.specs.Values.{said_date, said_moment};

use date_atoms::{read_date, read_date_time};
use item_tree::{Code, Day, Moment};

/// The date that a text says.
pub(crate) fn day_in(text: &[u8]) -> Result<Day, Code>
    ensures { result ≡ ok_or (said_date text.now) FORG0001 }
{
    match str::from_utf8(text) {
        Ok(text) => read_date(text).ok_or(Code::FORG0001),
        Err(_fault) => Err(Code::FORG0001),
    }
}

/// The moment that a text says.
pub(crate) fn moment_in(text: &[u8]) -> Result<Moment, Code>
    ensures { result ≡ ok_or (said_moment text.now) FORG0001 }
{
    match str::from_utf8(text) {
        Ok(text) => read_date_time(text).ok_or(Code::FORG0001),
        Err(_fault) => Err(Code::FORG0001),
    }
}
