//! Writes the parts of a text.

ghost use Rattle.std.specs.Prelude.{◌≡◌, ◌≤◌, ◌+◌, All, length};
ghost use Rattle.outside.specs.Outputs.{CreateFaultsBy};
ghost use Rattle.part_writer.specs.Parts.{IsRangeOf, parts_from};
ghost use Rattle.part_writer.specs.Written.{PartsBy, PartBy};

use outside::{CreateFault, Failed, Outputs, write_all};

// Makes the part of this number, or a prefix of it that lacks a byte, or nothing.
fn write_part<P: Outputs>(outputs: &mut P, number: u32, bytes: &[u8]) -> Result<(), CreateFault>
    ensures made { PartBy result (number, bytes.now) (P.made outputs.old) (P.made outputs.new) }
    ensures faults { CreateFaultsBy result (P.faults outputs.old) (P.faults outputs.new) }
    ensures balanced { P.created outputs.new + P.finished outputs.old
        ≡ P.created outputs.old + P.finished outputs.new }
{
    let mut out = outputs.create(number)?;
    let written = write_all(&mut out, bytes);
    outputs.finish(out);
    match written {
        Ok(()) => Ok(()),
        Err(Failed) => Err(CreateFault::Failed),
    }
}

/// Makes the part of each range in turn, numbered from 0. It stops at the first that fails, and
/// takes no memory itself.
pub fn write_parts<P: Outputs>(
    text: &[u8],
    ranges: &[(usize, usize)],
    outputs: &mut P,
) -> Result<(), CreateFault>
    requires few { length ranges.now ≤ 1000 }
    requires within { All (IsRangeOf text.now) ranges.now }
    ensures made { PartsBy result (parts_from 0 text.now ranges.now) (P.made outputs.old)
        (P.made outputs.new) }
    ensures faults { CreateFaultsBy result (P.faults outputs.old) (P.faults outputs.new) }
    ensures balanced { P.created outputs.new + P.finished outputs.old
        ≡ P.created outputs.old + P.finished outputs.new }
{
    for (number, range) in ranges.iter().enumerate() {
        if let Err(fault) = write_part(outputs, number as u32, &text[range.0..range.1]) {
            return Err(fault);
        }
    }
    Ok(())
}
