//! Where the parts of a text begin and end.

ghost use Rattle.std.specs.Prelude.{◌≡◌, ◌<◌, ◌≤◌, ◌+◌, ℕ, All, IfOk, drop, length, suc};
ghost use Rattle.part_writer.specs.Parts.{line_start, part_ranges, IsRangeOf};

use byte_lanes::{count_newlines, first_newline};
use item_tree::NoMemory;
use std::alloc::Global;

// Where the next line begins, or the end of the text.
fn next_line(text: &[u8], at: usize) -> usize
    requires { at ≤ length text.now }
    ensures value { (k : ℕ) → at + line_start (suc k) (drop at text.now)
        ≡ result + line_start k (drop result text.now) }
    ensures within { result ≤ length text.now }
    ensures behind { at ≤ result }
{
    match first_newline(&text[at..]) {
        Some(before) => at + before + 1,
        None => text.len(),
    }
}

// Where the line begins that comes so many lines behind this place, or the end of the text.
fn behind_lines(text: &[u8], from: usize, lines: usize) -> usize
    requires { from ≤ length text.now }
    ensures value { result ≡ from + line_start lines (drop from text.now) }
    ensures within { result ≤ length text.now }
    ensures behind { from ≤ result }
{
    let mut at = from;
    for _ in 0..lines {
        at = next_line(text, at);
    }
    at
}

/// Where each of so many parts begins and ends: all have the same number of lines, as few as will
/// do and at least one, but for the last ones.
pub fn split_lines(alloc: Global, text: &[u8], count: u32) -> Result<Vec<(usize, usize)>, NoMemory>
    requires { 0 < count }
    ensures value { IfOk result (λ ranges. ranges.items ≡ part_ranges count text.now) }
    ensures within { IfOk result (λ ranges. All (IsRangeOf text.now) ranges.items) }
    ensures length { IfOk result (λ ranges. length ranges.items ≡ count) }
{
    let each = count_newlines(text).div_ceil(count as usize).max(1);
    let mut ranges = Vec::with_capacity(alloc, count as usize)?;
    let mut from = 0;
    for _ in 0..count {
        let to = behind_lines(text, from, each);
        ranges.push((from, to))?;
        from = to;
    }
    Ok(ranges)
}
