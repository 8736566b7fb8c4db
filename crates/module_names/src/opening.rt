//! Reading the first bytes of files by their names.

ghost use Rattle.std.specs.Prelude.{◌≡◌, IfOk, IfSome, option_map, take};
ghost use Rattle.std.specs.Str.{chars};
ghost use Rattle.outside.specs.World.{file_of};
ghost use Rattle.module_names.specs.Counts.{LeavesRead};

use line_pieces::{PieceFault, read_start};
use outside::{Inputs, OpenFault};
use std::alloc::Global;

/// The first bytes of the file of this name, where there is one: as many as are wanted, or all
/// where it has fewer. No more of it is read, and it is closed again.
pub fn read_named<I: Inputs>(
    alloc: Global,
    inputs: &mut I,
    name: &str,
    most: u64,
) -> Result<Option<Vec<u8>>, PieceFault>
    ensures world { I.world inputs.new ≡ I.world inputs.old }
    ensures bytes { IfOk result (λ o. IfSome (I.world inputs.old) (λ w.
        option_map (λ v. v.items) o ≡ option_map (take most) (file_of w (chars name.now)))) }
    ensures counts { LeavesRead result (I.counts inputs.old) (I.counts inputs.new) }
{
    match inputs.open_file(name) {
        Ok(mut file) => {
            let bytes = read_start(alloc, &mut file, most);
            inputs.close_file(file);
            Ok(Some(bytes?))
        }
        Err(OpenFault::Missing) => Ok(None),
        Err(OpenFault::Failed) => Err(PieceFault::ReadFault),
        Err(OpenFault::NoMemory) => Err(PieceFault::NoMemory),
    }
}
