//! The line and the column of a byte, from the beginning of the text on.

ghost use Rattle.std.specs.Prelude.{◌≡◌, ◌≤◌, ◌==◌, not, length, count_by, reverse, take_while};
ghost use Rattle.text_places.specs.Places.{begins_character, line_of, column_of};

use byte_lanes::count_newlines;

/// A place in a text, as it is printed: both numbers count from 1, and the column counts
/// characters.
#[derive(Clone, Copy, Debug, PartialEq, Eq)]
pub struct LineColumn {
    pub line: u64,
    pub column: u64,
}

/// Where the byte of this offset stands.
pub fn line_column(text: &[u8], offset: u32) -> LineColumn
    ensures line { result.line ≡ line_of text.now offset }
    ensures column { result.column ≡ column_of text.now offset }
{
    let offset = (offset as usize).min(text.len());
    let before = &text[..offset];
    LineColumn {
        line: count_newlines(before) as u64 + 1,
        column: last_characters(before) as u64 + 1,
    }
}

// Whether a byte is the first of a character.
fn begins_character(byte: u8) -> bool
    ensures { result ≡ begins_character byte }
{
    byte < 128 || byte >= 192
}

/// How many characters stand behind the last line feed.
pub(crate) fn last_characters(text: &[u8]) -> usize
    ensures value { result
        ≡ count_by begins_character (take_while (λ b. not (b == 10)) (reverse text.now)) }
    ensures within { result ≤ length text.now }
{
    text.iter()
        .rev()
        .take_while(|b| **b != b'\n')
        .filter(|b| begins_character(**b))
        .count()
}
