//! Reads a file whole.

ghost use Rattle.std.specs.Prelude.{◌≡◌, IfOk, IfSome, option_map};
ghost use Rattle.std.specs.Str.{chars};
ghost use Rattle.outside.specs.World.{file_of};
ghost use Rattle.rumble_run.specs.inside.Reads.{LeavesRead, Searched, search_of_name};

use crate::status::Stop;
use line_pieces::{PieceFault, read_whole};
use outside::{Inputs, OpenFault};
use std::alloc::Global;

/// All bytes of the file of this name, where there is one.
pub(crate) fn read_named<I: Inputs>(
    alloc: Global,
    inputs: &mut I,
    name: &str,
) -> Result<Option<Vec<u8>>, Stop>
    ensures world { I.world inputs.new ≡ I.world inputs.old }
    ensures bytes { IfOk result (λ o. IfSome (I.world inputs.old) (λ w.
        option_map (λ v. v.items) o ≡ file_of w (chars name.now))) }
    ensures counts { LeavesRead result (I.counts inputs.old) (I.counts inputs.new) }
    ensures searched { IfSome (I.world inputs.old) (λ w. Searched result
        (search_of_name w (chars name.now)) (I.counts inputs.old) (I.counts inputs.new)) }
{
    match inputs.open_file(name) {
        Ok(mut file) => {
            let bytes = read_whole(alloc, &mut file);
            inputs.close_file(file);
            match bytes {
                Ok(bytes) => Ok(Some(bytes)),
                Err(PieceFault::ReadFault) => Err(Stop::ReadFault),
                Err(PieceFault::NoMemory) => Err(Stop::NoMemory),
            }
        }
        Err(OpenFault::Missing) => Ok(None),
        Err(OpenFault::Failed) => Err(Stop::ReadFault),
        Err(OpenFault::NoMemory) => Err(Stop::NoMemory),
    }
}
