//! Reading the file that loading wants next.

ghost use Rattle.std.specs.Prelude.{◌≡◌, IfOk, IfSome};
ghost use Rattle.std.specs.Fn.{FnReturnsAt};
ghost use Rattle.module_names.specs.inside.Wanted.{IsFound, LeavesFound};

use crate::alone::{keep, most_read, read_alone};
use crate::opening::read_named;
use crate::{Contents, Kept, Source, Unread};
use item_tree::{Code, Str};
use line_pieces::PieceFault;
use outside::Inputs;
use std::alloc::Global;

/// What there is of a name.
pub(crate) enum Found<T> {
    /// No file.
    Missing,
    /// A file which is refused at this place, with the bytes of it that were read.
    Refused(Code, u32, Contents),
    /// A file that was read.
    Read(Source<Kept<T>>),
}

/// Reads the file of this name.
pub(crate) fn read_file<I: Inputs, T: Drop, F: Fn(&str) -> Result<Source<T>, Unread>>(
    alloc: Global,
    inputs: &mut I,
    name: &Str,
    read: F,
) -> Result<Found<T>, PieceFault>
    requires { F.IsAlwaysCallable read }
    ensures world { I.world inputs.new ≡ I.world inputs.old }
    ensures found { IfOk result (λ f. IfSome (I.world inputs.old) (λ w.
        IsFound (FnReturnsAt F.Fn read) w name.now f)) }
    ensures counts { LeavesFound (FnReturnsAt F.Fn read) result (I.counts inputs.old)
        (I.counts inputs.new) }
{
    let Some(bytes) = read_named(alloc, inputs, name.as_str(), most_read())? else {
        return Ok(Found::Missing);
    };
    let contents = Contents::of(bytes);
    match read_alone(&contents, read) {
        Ok(source) => Ok(Found::Read(keep(contents, source))),
        Err(Unread::Refused { code, place }) => Ok(Found::Refused(code, place, contents)),
        Err(Unread::NoMemory) => Err(PieceFault::NoMemory),
    }
}
