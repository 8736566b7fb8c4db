//! Prints objects.

ghost use Rattle.std.specs.Prelude.{◌≡◌, ◌++◌, OnOk, OnErr};
ghost use Rattle.item_tree.specs.Datum.{members, object_of_pairs};
ghost use Rattle.item_tree.specs.Item.{datum, pair_datums};
ghost use Rattle.item_tree.specs.ItemText.{item_text, more_members_text};
ghost use Rattle.item_printer.specs.Cut.{IsCut};
ghost use Rattle.item_printer.specs.PairText.{pair_text};

use crate::append::{append, append_byte};
use crate::item::print_item;
use crate::string::print_string;
use item_tree::{Item, NoMemory, Str};

#[cycle(print)]
#[inline(never)]
#[tactic(auto, using(crate::proofs::Cuts::cuts))]
pub(crate) fn print_object(pairs: &[(Str, Item)], out: &mut Vec<u8>) -> Result<(), NoMemory>
    ensures ok { OnOk result
        (out.new.items ≡ out.old.items ++ item_text (object_of_pairs (pair_datums pairs.now))) }
    ensures err { OnErr result
        (IsCut (item_text (object_of_pairs (pair_datums pairs.now))) out.old.items out.new.items) }
{
    let Some((first, more)) = pairs.split_first() else {
        return append(b"{}", out);
    };
    append_byte(b'{', out)?;
    print_pair(first, out)?;
    print_more_pairs(more, out)
}

// The pairs behind the first of an object, and its brace.
#[cycle(print)]
fn print_more_pairs(pairs: &[(Str, Item)], out: &mut Vec<u8>) -> Result<(), NoMemory>
    ensures ok { OnOk result
        (out.new.items ≡ out.old.items ++ more_members_text (members (pair_datums pairs.now))) }
    ensures err { OnErr result
        (IsCut (more_members_text (members (pair_datums pairs.now))) out.old.items out.new.items) }
{
    for pair in pairs {
        append_byte(b',', out)?;
        print_pair(pair, out)?;
    }
    append_byte(b'}', out)
}

#[cycle(print)]
fn print_pair(pair: &(Str, Item), out: &mut Vec<u8>) -> Result<(), NoMemory>
    ensures ok { OnOk result
        (out.new.items ≡ out.old.items ++ pair_text pair.now.0 (datum pair.now.1)) }
    ensures err { OnErr result
        (IsCut (pair_text pair.now.0 (datum pair.now.1)) out.old.items out.new.items) }
{
    print_string(&pair.0, out)?;
    append_byte(b':', out)?;
    print_item(&pair.1, out)
}
