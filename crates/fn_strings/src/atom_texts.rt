//! The texts of atomics, put behind a text without memory of their own.
ghost use Rattle.std.specs.Prelude.{◌≡◌, ◌++◌, length, OnOk};
ghost use Rattle.std.specs.List.{flat_map};
ghost use Rattle.std.specs.Str.{chars, encode_utf8_all};
ghost use Rattle.std.specs.String.{string_bytes};
ghost use Rattle.item_tree.specs.Datum.{IsAtomic};
ghost use Rattle.item_tree.specs.Item.{datum, datums};
ghost use Rattle.item_tree.specs.ItemText.{atom_text, boolean_text};
ghost use Rattle.fn_strings.specs.inside.Atomics.{AreAtomic};

use item_tree::{DecimalBuffer, Item, NoMemory};
use itoa::Buffer;

fn bool_name(b: bool) -> &'static str
    ensures { result.now ≡ boolean_text b }
{
    if b { "true" } else { "false" }
}

/// The number of bytes of an atomic's text.
pub(crate) fn text_len(atom: &Item) -> usize
    requires { IsAtomic (datum atom.now) }
    ensures { result ≡ length (encode_utf8_all (atom_text (datum atom.now))) }
{
    match atom {
        Item::Null => "null".len(),
        Item::Bool(b) => bool_name(*b).len(),
        Item::Int(n) => {
            let mut buffer = Buffer::new();
            buffer.format(n.get()).len()
        }
        Item::Dec(m) => {
            let mut buffer = DecimalBuffer::new();
            buffer.format(*m).len()
        }
        Item::Text(t) => t.as_str().len(),
        Item::Date(day) => day.text().as_str().len(),
        Item::DateTime(moment) => moment.text().as_str().len(),
        Item::Array(_) | Item::Object(_) => unreachable!(),
    }
}

/// Puts one text behind another.
pub(crate) fn push(text: &mut String, more: &str) -> Result<(), NoMemory>
    ensures { OnOk result
        (chars (string_bytes text.new) ≡ chars (string_bytes text.old) ++ chars more.now) }
{
    text.push_str(more)?;
    Ok(())
}

/// Puts an atomic's text behind the text.
pub(crate) fn push_text(text: &mut String, atom: &Item) -> Result<(), NoMemory>
    requires { IsAtomic (datum atom.now) }
    ensures { OnOk result
        (chars (string_bytes text.new)
        ≡ chars (string_bytes text.old) ++ atom_text (datum atom.now)) }
{
    match atom {
        Item::Null => push(text, "null"),
        Item::Bool(b) => push(text, bool_name(*b)),
        Item::Int(n) => {
            let mut buffer = Buffer::new();
            push(text, buffer.format(n.get()))
        }
        Item::Dec(m) => {
            let mut buffer = DecimalBuffer::new();
            push(text, buffer.format(*m))
        }
        Item::Text(t) => push(text, t.as_str()),
        Item::Date(day) => push(text, day.text().as_str()),
        Item::DateTime(moment) => push(text, moment.text().as_str()),
        Item::Array(_) | Item::Object(_) => unreachable!(),
    }
}

/// Puts the text of each atomic behind the text, and the separator before each.
pub(crate) fn push_texts(text: &mut String, separator: &str, atoms: &[Item]) -> Result<(), NoMemory>
    requires { AreAtomic (datums atoms.now) }
    ensures { OnOk result
        (chars (string_bytes text.new)
        ≡ chars (string_bytes text.old)
        ++ flat_map (λ v. chars separator.now ++ atom_text v) (datums atoms.now)) }
{
    for atom in atoms {
        push(text, separator)?;
        push_text(text, atom)?;
    }
    Ok(())
}
