//! Reading a file alone.

ghost use Rattle.std.specs.Prelude.{◌≡◌};
ghost use Rattle.std.specs.Fn.{FnReturnsAt};
ghost use Rattle.module_names.specs.Alone.{IsRead, most_read, with_contents};
ghost use Rattle.module_names.specs.Remaining.{source_view};

use crate::{Contents, Kept, Source};
use item_tree::Code;

/// How many bytes a file may have, with a byte order mark.
const MAX_LENGTH: usize = 1_048_576;

/// How many bytes of a file are read at most: one more than it may have shows that it is too long.
pub(crate) fn most_read() -> u64
    ensures { result ≡ most_read }
{
    MAX_LENGTH as u64 + 1
}

/// Why a file is not read.
#[derive(Clone, Copy, Debug, PartialEq, Eq)]
pub enum Unread {
    /// It is refused at this place, which counts after a byte order mark.
    Refused { code: Code, place: u32 },
    /// Memory ran out.
    NoMemory,
}

/// Reads a file by what the reader makes of its text.
pub(crate) fn read_alone<T, F: Fn(&str) -> Result<Source<T>, Unread>>(
    contents: &Contents,
    read: F,
) -> Result<Source<T>, Unread>
    requires { F.IsAlwaysCallable read }
    ensures { IsRead (FnReturnsAt F.Fn read) contents.now result }
{
    if contents.bytes().len() > MAX_LENGTH {
        return Err(Unread::Refused {
            code: Code::PJST0005,
            place: 0,
        });
    }
    match std::str::from_utf8(contents.text()) {
        Ok(text) => read(text),
        Err(fault) => Err(Unread::Refused {
            code: Code::XPST0003,
            place: fault.valid_up_to() as u32,
        }),
    }
}

/// A source beside the bytes of its file.
pub(crate) fn keep<T>(contents: Contents, source: Source<T>) -> Source<Kept<T>>
    ensures { source_view result ≡ with_contents contents (source_view source) }
{
    let Source {
        imports,
        body,
        rest,
    } = source;
    Source {
        imports,
        body,
        rest: Kept { contents, rest },
    }
}
