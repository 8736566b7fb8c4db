//! What the bytes of one load are, lane by lane.
ghost use Rattle.std.specs.Prelude.{◌≡◌, ◌+◌, ◌≤◌, length, take, drop, count_by};
ghost use Rattle.std.specs.Char.{is_ascii};
ghost use Rattle.byte_lanes.specs.Bytes.{is_newline, is_raw};
ghost use Rattle.byte_lanes.specs.inside.Marks.{before_mark, AreMarks};

use std::simd::prelude::*;

/// The lanes of a load of a string.
pub(crate) const LANES: usize = 16;

/// The lanes of a load of lines.
pub(crate) const WIDE_LANES: usize = 32;

/// The bytes from `at` on.
#[inline(always)]
pub(crate) fn load(b: &[u8], at: usize) -> u8x16
    requires { at + LANES ≤ length b.now }
    ensures { result ≡ take LANES (drop at b.now) }
{
    u8x16::from_slice(&b[at..])
}

/// The bytes from `at` on, of which there are more.
#[inline(always)]
pub(crate) fn load_wide(b: &[u8], at: usize) -> u8x32
    requires { at + WIDE_LANES ≤ length b.now }
    ensures { result ≡ take WIDE_LANES (drop at b.now) }
{
    u8x32::from_slice(&b[at..])
}

/// A bit for each lane, set where a string stops.
#[inline(always)]
pub(crate) fn stop_marks(v: u8x16) -> u64
    ensures { AreMarks is_raw v LANES result }
{
    let low = v.simd_lt(u8x16::splat(32));
    let stops = low | v.simd_eq(u8x16::splat(b'"')) | v.simd_eq(u8x16::splat(b'\\'));
    stops.to_bitmask()
}

/// A bit for each lane, set where a byte isn't ASCII.
#[inline(always)]
pub(crate) fn wide_marks(v: u8x16) -> u64
    ensures { AreMarks is_ascii v LANES result }
{
    v.simd_ge(u8x16::splat(128)).to_bitmask()
}

/// How many lanes stand before the lowest mark, or all of them where there is none.
#[inline(always)]
pub(crate) fn before_mark(marks: u64) -> usize
    ensures { result ≡ before_mark marks LANES }
{
    if marks == 0 {
        LANES
    } else {
        marks.trailing_zeros() as usize
    }
}

/// How many lanes are ends of lines.
#[inline(always)]
pub(crate) fn newlines_in(v: u8x32) -> usize
    ensures { result ≡ count_by is_newline v }
{
    v.simd_eq(u8x32::splat(b'\n')).to_bitmask().count_ones() as usize
}
