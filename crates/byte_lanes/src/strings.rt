//! The fronts of strings of JSON, as far as each byte stands for itself.
ghost use Rattle.std.specs.Prelude.{◌≡◌, ℕ, ◌<◌, ◌≤◌, true, length, take, slice_index, MatchOption};
ghost use Rattle.std.specs.Char.{is_ascii};
ghost use Rattle.std.specs.List.{list_all, prefix_len};
ghost use Rattle.byte_lanes.specs.Bytes.{is_raw, first_stop};
ghost use Rattle.byte_lanes.specs.inside.Fronts.{IsSeen, IsFront};

use crate::lanes::{LANES, before_mark, load, stop_marks, wide_marks};

/// How many bytes stand before the first stop of a string, and whether all those are ASCII.
///
/// A stop is a quote, a backslash or a byte below 32. Where there is none, the whole length is
/// given. What stands at and behind the stop has no part in the second half.
#[inline(always)]
pub fn string_front(b: &[u8]) -> (usize, bool)
    ensures value { result.0 ≡ prefix_len is_raw b.now }
    ensures within { result.0 ≤ length b.now }
    ensures ascii { result.1 ≡ list_all is_ascii (take result.0 b.now) }
    ensures below { result.1 ≡ true → (k : ℕ) → k < result.0 → slice_index b.now k < 128 }
{
    if b.len() < LANES {
        return front_behind(b, 0, true);
    }
    let lanes = load(b, 0);
    let stops = stop_marks(lanes);
    let wide = wide_marks(lanes);
    if stops == 0 {
        return front_behind(b, LANES, wide == 0);
    }
    let end = stops.trailing_zeros() as usize;
    (end, end <= before_mark(wide))
}

/// The least position of a stop of a string: a quote, a backslash or a byte below 32.
#[inline(always)]
pub fn first_string_stop(b: &[u8]) -> Option<usize>
    ensures value { result ≡ first_stop b.now }
    ensures front { MatchOption result (prefix_len is_raw b.now ≡ length b.now)
        (λ n. (n ≡ prefix_len is_raw b.now) × (n < length b.now)) }
{
    let (end, _) = string_front(b);
    if end < b.len() { Some(end) } else { None }
}

/// The front of a string, of which the bytes up to `at` are seen.
#[inline(never)]
fn front_behind(b: &[u8], at: usize, ascii: bool) -> (usize, bool)
    requires { IsSeen b.now at ascii }
    ensures { IsFront b.now result.0 result.1 }
{
    let mut end = at;
    let mut ascii = ascii;
    while b.len() - end >= LANES {
        let lanes = load(b, end);
        let stops = stop_marks(lanes);
        let wide = wide_marks(lanes);
        if stops != 0 {
            let more = stops.trailing_zeros() as usize;
            return (end + more, ascii & (more <= before_mark(wide)));
        }
        ascii &= wide == 0;
        end += LANES;
    }
    front_bytes(b, end, ascii)
}

/// The same, byte by byte.
#[inline(always)]
fn front_bytes(b: &[u8], at: usize, ascii: bool) -> (usize, bool)
    requires { IsSeen b.now at ascii }
    ensures { IsFront b.now result.0 result.1 }
{
    let mut end = at;
    let mut ascii = ascii;
    while end < b.len() && is_raw(b[end]) {
        ascii &= b[end].is_ascii();
        end += 1;
    }
    (end, ascii)
}

/// Whether a byte of a string stands for itself.
#[inline(always)]
fn is_raw(byte: u8) -> bool
    ensures { result ≡ is_raw byte }
{
    byte >= 32 && byte != b'"' && byte != b'\\'
}
