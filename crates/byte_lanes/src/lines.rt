//! Where lines end, and which are blank.
ghost use Rattle.std.specs.Prelude.{◌≡◌, ◌≤◌, length, position, count_by};
ghost use Rattle.std.specs.List.{list_all};
ghost use Rattle.byte_lanes.specs.Bytes.{is_newline, is_line_space};

use crate::lanes::{WIDE_LANES, load_wide, newlines_in};
use memchr::memchr;

/// The least position of a byte 10, which ends a line.
#[inline]
pub fn first_newline(b: &[u8]) -> Option<usize>
    ensures { result ≡ position is_newline b.now }
{
    memchr(b'\n', b)
}

/// How many bytes are 10, the end of a line.
pub fn count_newlines(b: &[u8]) -> usize
    ensures value { result ≡ count_by is_newline b.now }
    ensures within { result ≤ length b.now }
{
    let mut count = 0;
    let mut at = 0;
    while b.len() - at >= WIDE_LANES {
        count += newlines_in(load_wide(b, at));
        at += WIDE_LANES;
    }
    while at < b.len() {
        count += usize::from(b[at] == b'\n');
        at += 1;
    }
    count
}

/// Whether all bytes are spaces, tabs and CR, as those of a blank line are.
///
/// It looks at one byte after another, since a line that isn't blank mostly shows that by its
/// first byte.
#[inline]
pub fn is_blank(b: &[u8]) -> bool
    ensures { result ≡ list_all is_line_space b.now }
{
    b.iter().all(|byte| matches!(*byte, b' ' | b'\t' | b'\r'))
}
