//! Arrays and their values.

ghost use Rattle.std.specs.Prelude.{◌≡◌, ◌++◌, OnOk, OnErr};
ghost use Rattle.item_tree.specs.Datum.{values, array_of_list};
ghost use Rattle.item_tree.specs.Item.{datum, datums};
ghost use Rattle.item_tree.specs.ItemText.{item_text, more_values_text};
ghost use Rattle.item_printer.specs.Cut.{IsCut};

use crate::append::{append, append_byte};
use crate::item::print_item;
use crate::number::print_integer;
use item_tree::{Item, NoMemory};

#[cycle(print)]
#[inline(never)]
#[tactic(auto, using(crate::proofs::Cuts::cuts))]
pub(crate) fn print_array(items: &[Item], out: &mut Vec<u8>) -> Result<(), NoMemory>
    ensures ok { OnOk result
        (out.new.items ≡ out.old.items ++ item_text (array_of_list (datums items.now))) }
    ensures err { OnErr result
        (IsCut (item_text (array_of_list (datums items.now))) out.old.items out.new.items) }
{
    let Some((first, more)) = items.split_first() else {
        return append(b"[]", out);
    };
    append_byte(b'[', out)?;
    print_value(first, out)?;
    print_more_values(more, out)
}

// Integers and arrays are printed without a turn through all kinds.
#[cycle(print)]
#[inline(always)]
fn print_value(item: &Item, out: &mut Vec<u8>) -> Result<(), NoMemory>
    ensures ok { OnOk result (out.new.items ≡ out.old.items ++ item_text (datum item.now)) }
    ensures err { OnErr result (IsCut (item_text (datum item.now)) out.old.items out.new.items) }
{
    match item {
        Item::Int(n) => print_integer(*n, out),
        Item::Array(items) => print_array(items.as_slice(), out),
        _ => print_item(item, out),
    }
}

// The values behind the first of an array, and its bracket.
#[cycle(print)]
fn print_more_values(items: &[Item], out: &mut Vec<u8>) -> Result<(), NoMemory>
    ensures ok { OnOk result
        (out.new.items ≡ out.old.items ++ more_values_text (values (datums items.now))) }
    ensures err { OnErr result
        (IsCut (more_values_text (values (datums items.now))) out.old.items out.new.items) }
{
    for item in items {
        append_byte(b',', out)?;
        print_value(item, out)?;
    }
    append_byte(b']', out)
}
