//! Appends bytes, or none of them.

ghost use Rattle.std.specs.Prelude.{◌≡◌, ◌∷◌, [], ◌++◌, OnOk, OnErr};
ghost use Rattle.item_printer.specs.Cut.{IsCut};

use item_tree::NoMemory;

/// Appends the bytes, or none of them.
pub(crate) fn append(bytes: &[u8], out: &mut Vec<u8>) -> Result<(), NoMemory>
    ensures ok { OnOk result (out.new.items ≡ out.old.items ++ bytes.now) }
    ensures err { OnErr result (IsCut bytes.now out.old.items out.new.items) }
{
    Ok(out.extend_from_slice(bytes)?)
}

pub(crate) fn append_byte(byte: u8, out: &mut Vec<u8>) -> Result<(), NoMemory>
    ensures ok { OnOk result (out.new.items ≡ out.old.items ++ byte ∷ []) }
    ensures err { OnErr result (IsCut (byte ∷ []) out.old.items out.new.items) }
{
    Ok(out.push(byte)?)
}
