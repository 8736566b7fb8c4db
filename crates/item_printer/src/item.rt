//! Prints an item as compact JSON.

ghost use Rattle.std.specs.Prelude.{◌≡◌, ◌++◌, OnOk, OnErr};
ghost use Rattle.item_tree.specs.Item.{datum};
ghost use Rattle.item_tree.specs.ItemText.{item_text, boolean_text};
ghost use Rattle.item_printer.specs.Cut.{IsCut};

use crate::append::append;
use crate::array::print_array;
use crate::number::{print_decimal, print_integer};
use crate::object::print_object;
use crate::string::{print_day, print_moment, print_string};
use item_tree::{Item, NoMemory};

/// Appends the item's compact JSON text.
///
/// A refusal leaves the old bytes and a prefix of the text.
#[cycle(print)]
pub fn print_item(item: &Item, out: &mut Vec<u8>) -> Result<(), NoMemory>
    ensures ok { OnOk result (out.new.items ≡ out.old.items ++ item_text (datum item.now)) }
    ensures err { OnErr result (IsCut (item_text (datum item.now)) out.old.items out.new.items) }
{
    // What a function and those inlined in it have on the stack is set to zero at each call. So the
    // kinds that need a buffer have functions that are not inlined.
    match item {
        Item::Null => append(b"null", out),
        Item::Bool(b) => print_boolean(*b, out),
        Item::Int(n) => print_integer(*n, out),
        Item::Dec(m) => print_decimal(*m, out),
        Item::Text(text) => print_string(text, out),
        Item::Date(day) => print_day(day, out),
        Item::DateTime(moment) => print_moment(moment, out),
        Item::Array(items) => print_array(items.as_slice(), out),
        Item::Object(pairs) => print_object(pairs.as_slice(), out),
    }
}

fn print_boolean(b: bool, out: &mut Vec<u8>) -> Result<(), NoMemory>
    ensures ok { OnOk result (out.new.items ≡ out.old.items ++ boolean_text b) }
    ensures err { OnErr result (IsCut (boolean_text b) out.old.items out.new.items) }
{
    if b {
        append(b"true", out)
    } else {
        append(b"false", out)
    }
}
