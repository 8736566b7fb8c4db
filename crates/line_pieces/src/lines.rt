//! The lines of a part of a file that begins where a line begins.

ghost use Rattle.std.specs.Prelude.{◌≡◌, ◌≤◌, ◌<◌, ◌+◌, ◌%◌, ◌++◌, ◌∷◌, ◌^◌, [], length, map, sum, false, None, IfOk, IfSome, MatchOption};
ghost use Rattle.json_text.specs.Line.{is_blank};
ghost use Rattle.line_pieces.specs.Pieces.{line_of, lent_line, bytes_sum};
ghost use Rattle.line_pieces.specs.inside.Contents.{clean, kept_of, lent_lines, lines_at, lines_left, left_of, left_length};

use crate::mark::without_mark;
use byte_lanes::{first_newline, is_blank};
use item_tree::NoMemory;
use std::alloc::Global;
use std::marker::Model;

/// A line of a file that is not blank.
#[derive(Debug, Drop)]
pub struct Line {
    /// The offset of the line's first byte in its file.
    pub at: u64,
    /// The line's bytes, without its line feed. The first line of a file comes without a byte
    /// order mark, and its offset is 0 all the same.
    pub bytes: Vec<u8>,
}

/// A line of a file that is not blank, and stands where it was read.
#[derive(Clone, Copy, Debug)]
pub struct LentLine<'a> {
    /// The offset of the line's first byte in its file.
    pub at: u64,
    /// The line's bytes, as those of a [`Line`].
    pub bytes: &'a [u8],
}

// The first line of a part of a file that begins at this offset, and what stands behind its line
// feed with the offset there, where it has one.
fn split_line(at: u64, part: &[u8]) -> (&[u8], Option<(u64, &[u8])>)
    requires { at + length part.now < 2 ^ 64 }
    ensures line { lines_at at part.now ≡ kept_of at result.0.now ++ lines_left (left_of result.1) }
    ensures fits { IfSome (left_of result.1) (λ p. p.0 + length p.1 < 2 ^ 64) }
    ensures shorter { left_length (left_of result.1) ≤ length part.now }
{
    match first_newline(part) {
        Some(end) => (&part[..end], Some((at + end as u64 + 1, &part[end + 1..]))),
        None => (part, None),
    }
}

// The bytes of the line at this offset, without a mark where the file begins there.
fn clean(line: &[u8], at: u64) -> &[u8]
    ensures { result.now ≡ clean at line.now }
{
    if at == 0 { without_mark(line) } else { line }
}

// The line at this offset, unless it is blank.
fn lent(line: &[u8], at: u64) -> Option<LentLine<'_>>
    ensures line { lent_lines result ≡ kept_of at line.now }
    ensures full { IfSome result (λ l. is_blank l.bytes.now ≡ false) }
{
    let bytes = clean(line, at);
    if is_blank(bytes) {
        None
    } else {
        Some(LentLine { at, bytes })
    }
}

// The next line that is not blank, and what is left behind it.
fn next_lent<'a>(left: Option<(u64, &'a [u8])>) -> (Option<LentLine<'a>>, Option<(u64, &'a [u8])>)
    requires { IfSome (left_of left) (λ p. p.0 + length p.1 < 2 ^ 64) }
    ensures lines { lines_left (left_of left.entry)
        ≡ lent_lines result.0 ++ lines_left (left_of result.1) }
    ensures last { result.0 ≡ None → result.1 ≡ None }
    ensures full { IfSome result.0 (λ l. is_blank l.bytes.now ≡ false) }
    ensures fits { IfSome (left_of result.1) (λ p. p.0 + length p.1 < 2 ^ 64) }
{
    let mut left = left;
    'skipping: while let Some((at, part)) = left {
        let (line, behind) = split_line(at, part);
        left = behind;
        if let Some(found) = lent(line, at) {
            return (Some(found), left);
        }
    }
    (None, None)
}

/// The lines of a piece, lent one after the other.
#[derive(Drop)]
pub struct Lines<'a> {
    left: Option<(u64, &'a [u8])>,
}

impl<'a> Model for Lines<'a> {
    ghost use Rattle.std.specs.Prelude.{List, ◌<◌, ◌+◌, ◌^◌, length, IfSome};
    ghost use Rattle.item_reader.specs.Lines.{Line};
    ghost use Rattle.line_pieces.specs.inside.Contents.{lines_left, left_of};

    ghost Value = { List Line };

    ghost view = { λ l. lines_left (left_of l.left) };

    ghost invariant = { λ l. IfSome (left_of l.left) (λ p. p.0 + length p.1 < 2 ^ 64) };
}

impl<'a> Lines<'a> {
    // Those of a part of a file that begins at this offset.
    pub(crate) fn of(at: u64, part: &'a [u8]) -> Lines<'a>
        requires { at + length part.now < 2 ^ 64 }
        ensures { result ≡ lines_at at part.now }
    {
        Lines {
            left: Some((at, part)),
        }
    }

    /// The next line, where there is one.
    pub fn next_line(&mut self) -> Option<LentLine<'a>>
        ensures line { MatchOption result ((self.old ≡ []) × (self.new ≡ []))
            (λ l. self.old ≡ lent_line l ∷ self.new) }
        ensures full { IfSome result (λ l. is_blank l.bytes.now ≡ false) }
    {
        let (line, left) = next_lent(self.left);
        self.left = left;
        line
    }
}

/// A copy of these lines.
pub(crate) fn own_lines(alloc: Global, lines: Lines<'_>) -> Result<Vec<Line>, NoMemory>
    ensures { IfOk result (λ v. map line_of v.items ≡ lines.entry) }
{
    let mut own = Vec::new(alloc);
    let mut left = lines;
    'copying: while let Some(line) = left.next_line() {
        let bytes = Vec::from_slice(alloc, line.bytes)?;
        own.push(Line { at: line.at, bytes })?;
    }
    Ok(own)
}

// The sum of bytes, of which 64 bits are kept.
fn sum_of(bytes: &[u8]) -> u64
    ensures { result ≡ sum bytes.now % 2 ^ 64 }
{
    let mut sum: u64 = 0;
    for byte in bytes {
        sum = sum.wrapping_add(*byte as u64);
    }
    sum
}

/// The sum of all bytes of these lines, of which 64 bits are kept.
pub(crate) fn sum_of_lines(lines: Lines<'_>) -> u64
    ensures { result ≡ bytes_sum lines.entry }
{
    let mut sum: u64 = 0;
    let mut left = lines;
    'adding: while let Some(line) = left.next_line() {
        sum = sum.wrapping_add(sum_of(line.bytes));
    }
    sum
}

// One for the line at this offset, and none if it is blank.
fn count_of(at: u64, line: &[u8]) -> u64
    ensures value { result ≡ length (kept_of at line.now) }
    ensures bound { result ≤ 1 }
{
    if is_blank(clean(line, at)) { 0 } else { 1 }
}

/// How many lines a part of a file has that begins at this offset, without the blank ones.
pub(crate) fn count_at(at: u64, part: &[u8]) -> u64
    requires { at + length part.now < 2 ^ 64 }
    ensures { result ≡ length (lines_at at part.now) }
{
    let mut count = 0;
    let mut left = Some((at, part));
    'counting: while let Some((at, part)) = left {
        let (line, behind) = split_line(at, part);
        count += count_of(at, line);
        left = behind;
    }
    count
}
