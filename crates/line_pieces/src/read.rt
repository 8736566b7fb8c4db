//! Bytes of a file by ranges, read to the front of a vector whose room is kept.

ghost use Rattle.std.specs.Prelude.{◌≡◌, ◌≤◌, ◌<◌, ◌+◌, ◌-◌, ◌++◌, length, drop, take, slice_range, IfOk, OnOk, IfSome, vec_len, vec_capacity};
ghost use Rattle.std.specs.List.{before_first};
ghost use Rattle.outside.specs.World.{ReadsOf};
ghost use Rattle.line_pieces.specs.Faults.{CausedBy};
ghost use Rattle.line_pieces.specs.inside.Contents.{is_end};

use crate::PieceFault;
use byte_lanes::first_newline;
use outside::InputFile;
use std::alloc::{AllocError, Global};

// How many bytes are asked for at once at most.
const MOST_ASKED: u64 = 65_536;

// How many bytes are asked for at once at least, where so many are left.
const LEAST_ASKED: u64 = 256;

// Reads some of the bytes from this place on into the slice's front, and answers how many. Nothing
// else in this crate calls `read_at`, so no read asks for more bytes than this takes.
fn read_some<F: InputFile>(file: &mut F, at: u64, into: &mut [u8]) -> Result<usize, PieceFault>
    requires few { length into.old ≤ 65536 }
    ensures same { F.held file.new ≡ F.held file.old }
    ensures within { IfOk result (λ n. n ≤ length into.old) }
    ensures bytes { IfOk result (λ n. ReadsOf (F.held file.old) at n into.old into.new) }
    ensures cause { CausedBy result (F.faults file.old) (F.faults file.new) }
    ensures rises { F.faults file.old ≤ F.faults file.new }
{
    match file.read_at(at, into) {
        Ok(count) => Ok(count),
        Err(_) => Err(PieceFault::ReadFault),
    }
}

/// Takes at once the memory that so many bytes need, where the vector does not have it.
pub(crate) fn reserve(bytes: &mut Vec<u8>, length: u64) -> Result<(), AllocError>
    ensures kept { bytes.new.items ≡ bytes.old.items }
    ensures room { OnOk result (length ≤ vec_capacity bytes.new) }
{
    let had = bytes.len() as u64;
    if had < length {
        bytes.reserve((length - had) as usize)?;
    }
    Ok(())
}

// Makes the vector at least so long, and keeps what is in it.
fn make_room(bytes: &mut Vec<u8>, length: usize) -> Result<(), AllocError>
    ensures room { OnOk result (length ≤ vec_len bytes.new) }
    ensures kept { OnOk result (take (vec_len bytes.old) bytes.new.items ≡ bytes.old.items) }
{
    if bytes.len() < length {
        bytes.resize(length, 0)?;
    }
    Ok(())
}

// Reads at most so many bytes from this place on behind the first ones of the vector, and answers
// how many are filled now.
fn read_behind<F: InputFile>(
    file: &mut F,
    bytes: &mut Vec<u8>,
    filled: usize,
    at: u64,
    most: usize,
) -> Result<usize, PieceFault>
    requires inside { filled ≤ vec_len bytes.old }
    requires few { most ≤ 65536 }
    ensures same { F.held file.new ≡ F.held file.old }
    ensures longer { IfOk result (λ n. filled ≤ n) }
    ensures most { IfOk result (λ n. n ≤ filled + most) }
    ensures inside { IfOk result (λ n. n ≤ vec_len bytes.new) }
    ensures kept { OnOk result (take filled bytes.new.items ≡ take filled bytes.old.items) }
    ensures bytes { IfOk result (λ n. IfSome (F.held file.old) (λ b.
        slice_range bytes.new.items filled n ≡ take (n - filled) (drop at b))) }
    ensures some { IfOk result (λ n. IfSome (F.held file.old) (λ b.
        at < length b → 0 < most → filled < n)) }
    ensures cause { CausedBy result (F.faults file.old) (F.faults file.new) }
    ensures rises { F.faults file.old ≤ F.faults file.new }
{
    let end = filled + most;
    make_room(bytes, end)?;
    let count = read_some(file, at, &mut bytes[filled..end])?;
    Ok(filled + count)
}

/// How many bytes to ask for where so many are left: as many as are wanted, within bounds.
pub(crate) fn to_ask(wanted: u64, left: u64) -> usize
    ensures few { result ≤ 65536 }
    ensures within { result ≤ left }
    ensures some { 0 < left → 0 < result }
{
    left.min(wanted.clamp(LEAST_ASKED, MOST_ASKED)) as usize
}

/// Reads the bytes of a file from one place to another to the front of the vector, and answers how
/// many. A read that gives none before that ends the file there.
pub(crate) fn read_range<F: InputFile>(
    file: &mut F,
    bytes: &mut Vec<u8>,
    from: u64,
    end: u64,
) -> Result<usize, PieceFault>
    requires order { from ≤ end }
    ensures same { F.held file.new ≡ F.held file.old }
    ensures within { IfOk result (λ n. from + n ≤ end) }
    ensures inside { IfOk result (λ n. n ≤ vec_len bytes.new) }
    ensures bytes { IfOk result (λ n. IfSome (F.held file.old) (λ b.
        take n bytes.new.items ≡ slice_range b from end)) }
    ensures cause { CausedBy result (F.faults file.old) (F.faults file.new) }
    ensures rises { F.faults file.old ≤ F.faults file.new }
{
    let mut filled = 0;
    'reading: while (filled as u64) < end - from {
        let at = from + filled as u64;
        let now = read_behind(file, bytes, filled, at, to_ask(MOST_ASKED, end - at))?;
        if now == filled {
            return Ok(filled);
        }
        filled = now;
    }
    Ok(filled)
}

// Reads on behind the first bytes of the vector, which stand from one place of the file on, up to
// the first line feed or the file's end, and answers how many bytes that makes. A read that gives
// none before that ends the file there.
fn read_line_end<F: InputFile>(
    file: &mut F,
    bytes: &mut Vec<u8>,
    first: usize,
    from: u64,
    end: u64,
) -> Result<usize, PieceFault>
    requires inside { first ≤ vec_len bytes.old }
    requires order { from + first ≤ end }
    ensures same { F.held file.new ≡ F.held file.old }
    ensures longer { IfOk result (λ n. first ≤ n) }
    ensures within { IfOk result (λ n. from + n ≤ end) }
    ensures inside { IfOk result (λ n. n ≤ vec_len bytes.new) }
    ensures bytes { IfOk result (λ n. IfSome (F.held file.old) (λ b. end ≡ length b →
        take n bytes.new.items
        ≡ take first bytes.old.items ++ before_first is_end (drop (from + first) b))) }
    ensures cause { CausedBy result (F.faults file.old) (F.faults file.new) }
    ensures rises { F.faults file.old ≤ F.faults file.new }
{
    let mut filled = first;
    'reading: while (filled as u64) < end - from {
        let at = from + filled as u64;
        let now = read_behind(file, bytes, filled, at, to_ask(filled as u64, end - at))?;
        if now == filled {
            return Ok(filled);
        }
        match first_newline(&bytes[filled..now]) {
            Some(line_end) => return Ok(filled + line_end),
            None => filled = now,
        }
    }
    Ok(filled)
}

/// Reads what stands behind a range of a file, which fills the front of the vector, up to the first
/// line feed or the file's end, and answers how many bytes that makes. Where the file ended before
/// the range did, nothing is read.
pub(crate) fn read_line_behind<F: InputFile>(
    file: &mut F,
    bytes: &mut Vec<u8>,
    filled: usize,
    from: u64,
    end: u64,
    file_end: u64,
) -> Result<usize, PieceFault>
    requires inside { filled ≤ vec_len bytes.old }
    requires order { from + filled ≤ end }
    requires behind { end ≤ file_end }
    ensures same { F.held file.new ≡ F.held file.old }
    ensures longer { IfOk result (λ n. filled ≤ n) }
    ensures within { IfOk result (λ n. from + n ≤ file_end) }
    ensures inside { IfOk result (λ n. n ≤ vec_len bytes.new) }
    ensures bytes { IfOk result (λ n. IfSome (F.held file.old) (λ b.
        file_end ≡ length b → from + filled ≡ end →
        take n bytes.new.items ≡ take filled bytes.old.items ++ before_first is_end (drop end b))) }
    ensures cause { CausedBy result (F.faults file.old) (F.faults file.new) }
    ensures rises { F.faults file.old ≤ F.faults file.new }
{
    if from + (filled as u64) < end {
        return Ok(filled);
    }
    read_line_end(file, bytes, filled, from, file_end)
}

/// All bytes of a file. A read that gives none before the file's length ends the file there.
pub fn read_whole<F: InputFile>(alloc: Global, file: &mut F) -> Result<Vec<u8>, PieceFault>
    ensures same { F.held file.new ≡ F.held file.old }
    ensures bytes { IfOk result (λ v. IfSome (F.held file.old) (λ b. v.items ≡ b)) }
    ensures cause { CausedBy result (F.faults file.old) (F.faults file.new) }
    ensures rises { F.faults file.old ≤ F.faults file.new }
{
    let Ok(length) = file.len() else {
        return Err(PieceFault::ReadFault);
    };
    let mut bytes = Vec::with_capacity(alloc, length as usize)?;
    let filled = read_range(file, &mut bytes, 0, length)?;
    bytes.truncate(filled);
    Ok(bytes)
}

/// The first bytes of a file, as many as are wanted, or all where it has fewer. The file is not
/// asked for its length, nor for any byte past these. A read that gives none before that ends the
/// file there.
pub fn read_start<F: InputFile>(
    alloc: Global,
    file: &mut F,
    most: u64,
) -> Result<Vec<u8>, PieceFault>
    ensures same { F.held file.new ≡ F.held file.old }
    ensures bytes { IfOk result (λ v. IfSome (F.held file.old) (λ b. v.items ≡ take most b)) }
    ensures most { IfOk result (λ v. vec_len v ≤ most) }
    ensures cause { CausedBy result (F.faults file.old) (F.faults file.new) }
    ensures rises { F.faults file.old ≤ F.faults file.new }
{
    let mut bytes = Vec::new(alloc);
    let filled = read_range(file, &mut bytes, 0, most)?;
    bytes.truncate(filled);
    Ok(bytes)
}
