//! The texts of atomics.

ghost use Rattle.std.specs.Prelude.{◌≡◌, IfOk};
ghost use Rattle.std.specs.Fmt.{signed_decimal};
ghost use Rattle.item_tree.specs.Datum.{IsAtomic};
ghost use Rattle.item_tree.specs.Item.{datum};
ghost use Rattle.item_tree.specs.ItemText.{atom_text, boolean_text, decimal_text};

use crate::{DecimalBuffer, Item, NoMemory, Str, Units, Whole};
use itoa::Buffer;
use std::alloc::Global;

/// The text of an atomic: for a string the string itself, for a date or date-time its text without
/// quotes, and else its JSON text.
pub fn text_of(alloc: Global, atom: &Item) -> Result<Str, NoMemory>
    requires { IsAtomic (datum atom.now) }
    ensures { IfOk result (λ s. s ≡ atom_text (datum atom.now)) }
{
    match atom {
        Item::Null => Str::of(alloc, "null"),
        Item::Bool(b) => Str::of(alloc, bool_name(*b)),
        Item::Int(n) => whole_str(alloc, *n),
        Item::Dec(m) => decimal_str(alloc, *m),
        Item::Text(t) => t.copy(),
        Item::Date(day) => Str::of(alloc, day.text().as_str()),
        Item::DateTime(moment) => Str::of(alloc, moment.text().as_str()),
        Item::Array(_) | Item::Object(_) => unreachable!(),
    }
}

fn bool_name(b: bool) -> &'static str
    ensures { result.now ≡ boolean_text b }
{
    if b { "true" } else { "false" }
}

// The text of an integer.
fn whole_str(alloc: Global, n: Whole) -> Result<Str, NoMemory>
    ensures { IfOk result (λ s. s ≡ signed_decimal n) }
{
    let mut buffer = Buffer::new();
    Str::of(alloc, buffer.format(n.get()))
}

// The text of a decimal.
fn decimal_str(alloc: Global, m: Units) -> Result<Str, NoMemory>
    ensures { IfOk result (λ s. s ≡ decimal_text m) }
{
    let mut buffer = DecimalBuffer::new();
    Str::of(alloc, buffer.format(m))
}
