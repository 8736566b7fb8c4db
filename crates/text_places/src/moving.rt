//! The line and the column of a byte, from a place before it on.

ghost use Rattle.std.specs.Prelude.{◌≡◌, ◌+◌, ◌<◌, ◌^◌, length};
ghost use Rattle.text_places.specs.Places.{IsPlaceOf};
ghost use Rattle.text_places.specs.inside.Behind.{line_behind, column_behind};

use crate::place::{LineColumn, last_characters, line_column};
use byte_lanes::count_newlines;

/// An offset of a text, and where its byte stands.
#[derive(Clone, Copy, Debug, PartialEq, Eq)]
pub struct Known {
    pub offset: u32,
    pub at: LineColumn,
}

impl Known {
    ghost use Rattle.std.specs.Prelude.{ℕ, List};
    ghost use Rattle.text_places.specs.Places.{IsPlaceOf};

    /// The beginning of a text.
    pub fn start() -> Known
        ensures { (text : List ℕ) → IsPlaceOf text result }
    {
        Known {
            offset: 0,
            at: LineColumn { line: 1, column: 1 },
        }
    }
}

// Where bytes end that begin at this place.
fn behind(at: LineColumn, bytes: &[u8]) -> LineColumn
    requires line { at.line + length bytes.now < 2 ^ 64 }
    requires column { at.column + length bytes.now < 2 ^ 64 }
    ensures line { result.line ≡ line_behind at.line bytes.now }
    ensures column { result.column ≡ column_behind at.column bytes.now }
{
    let lines = count_newlines(bytes) as u64;
    let characters = last_characters(bytes) as u64;
    if lines > 0 {
        return LineColumn {
            line: at.line + lines,
            column: characters + 1,
        };
    }
    LineColumn {
        line: at.line,
        column: at.column + characters,
    }
}

/// Where the byte of this offset stands.
///
/// Where the offset is not before the one that is known, the time grows with what stands between
/// them; else with all that stands before it.
pub fn onward(text: &[u8], known: Known, offset: u32) -> Known
    requires { IsPlaceOf text.now known }
    ensures offset { result.offset ≡ offset }
    ensures place { IsPlaceOf text.now result }
{
    if offset < known.offset {
        return Known {
            offset,
            at: line_column(text, offset),
        };
    }
    let end = (offset as usize).min(text.len());
    let begin = (known.offset as usize).min(end);
    Known {
        offset,
        at: behind(known.at, &text[begin..end]),
    }
}
