//! The bytes of a string, which stand in it where they are few.

ghost use Rattle.std.specs.Prelude.{◌≡◌, ◌+◌, ◌<◌, ◌≤◌, length, take, drop, IfOk};
ghost use Rattle.std.specs.Int.{w64, from_le_bytes};
ghost use Rattle.std.specs.Str.{bytes_eq, IsAscii};
ghost use Rattle.std.specs.String.{string_bytes};
ghost use Rattle.item_tree.specs.inside.StrBytes.{bytes_of, IsHeld, IsFront};

use crate::shared::let_go;
use std::alloc::{AllocError, Global};
use std::simd::prelude::*;
use std::str;
use std::sync::Arc;

/// So many bytes stand in a string itself. With one more it would be larger than two words.
const SHORT: usize = 14;

/// So many bytes stand in one block with the count of the copies, of eight bytes. Together that is
/// 56, a size of glibc's blocks: with up to 15 bytes fewer it would take the same.
const MEDIUM: usize = 48;

/// The bytes of a string: few stand in it, before zeros. More are shared by its copies: up to 48 in
/// one block of memory with their count, the others as a `String`, which takes a second one.
#[derive(Debug)]
pub(crate) enum StrBytes {
    Short(u8, [u8; SHORT]),
    Medium(u8, Arc<[u8; MEDIUM], Global>),
    Shared(Arc<String, Global>),
}

impl Drop for StrBytes {
    fn drop(self) {
        match self {
            StrBytes::Short(_, _) => {}
            StrBytes::Medium(_, bytes) => let_go(bytes),
            StrBytes::Shared(text) => let_go(text),
        }
    }
}

// A text of a few bytes.
#[inline(always)]
fn short(text: &str) -> StrBytes
    requires { length text.now ≤ 14 }
    ensures bytes { bytes_of result ≡ text.now }
    ensures sound { IsHeld result }
{
    let mut bytes = [0u8; SHORT];
    bytes[..text.len()].copy_from_slice(text.as_bytes());
    StrBytes::Short(text.len() as u8, bytes)
}

// A text of some more bytes. It stands apart, since most texts are short and are made in line.
#[inline(never)]
fn medium(alloc: Global, text: &str) -> Result<StrBytes, AllocError>
    requires many { 14 < length text.now }
    requires few { length text.now ≤ 48 }
    ensures { IfOk result (λ h. (bytes_of h ≡ text.now) × IsHeld h) }
{
    let mut bytes = [0u8; MEDIUM];
    bytes[..text.len()].copy_from_slice(text.as_bytes());
    Ok(StrBytes::Medium(text.len() as u8, Arc::new(alloc, bytes)?))
}

// So many bytes of the front, and zeros behind them. All lanes are chosen at once, so it takes no
// branch on the length.
#[inline(always)]
fn front_lanes(bytes: &[u8], len: usize) -> u8x16
    requires few { len ≤ 14 }
    requires room { 16 ≤ length bytes.now }
    ensures { IsFront len bytes.now result }
{
    let places = u8x16::from_array([0, 1, 2, 3, 4, 5, 6, 7, 8, 9, 10, 11, 12, 13, 14, 15]);
    let kept = places.simd_lt(u8x16::splat(len as u8));
    kept.select(u8x16::from_slice(bytes), u8x16::splat(0))
}

#[inline(always)]
fn front_bytes(bytes: &[u8], len: usize) -> [u8; SHORT]
    requires few { len ≤ 14 }
    requires room { 16 ≤ length bytes.now }
    ensures { IsFront len bytes.now result }
{
    let lanes = front_lanes(bytes, len).to_array();
    let mut front = [0u8; SHORT];
    front.copy_from_slice(&lanes[..SHORT]);
    front
}

impl StrBytes {
    #[inline(always)]
    pub(crate) fn of_front(bytes: &[u8], len: usize) -> StrBytes
        requires few { len ≤ 14 }
        requires room { 16 ≤ length bytes.now }
        requires ascii { IsAscii (take len bytes.now) }
        ensures bytes { bytes_of result ≡ take len bytes.now }
        ensures sound { IsHeld result }
    {
        StrBytes::Short(len as u8, front_bytes(bytes, len))
    }

    #[inline(always)]
    pub(crate) fn of(alloc: Global, text: &str) -> Result<StrBytes, AllocError>
        ensures { IfOk result (λ h. (bytes_of h ≡ text.now) × IsHeld h) }
    {
        if text.len() <= SHORT {
            Ok(short(text))
        } else if text.len() <= MEDIUM {
            medium(alloc, text)
        } else {
            let shared = Arc::new(alloc, String::from_str(alloc, text)?)?;
            Ok(StrBytes::Shared(shared))
        }
    }

    pub(crate) fn from_string(alloc: Global, text: String) -> Result<StrBytes, AllocError>
        ensures { IfOk result (λ h. (bytes_of h ≡ string_bytes text) × IsHeld h) }
    {
        if text.len() <= SHORT {
            Ok(short(text.as_str()))
        } else if text.len() <= MEDIUM {
            medium(alloc, text.as_str())
        } else {
            Ok(StrBytes::Shared(Arc::new(alloc, text)?))
        }
    }

    pub(crate) fn as_str(&self) -> &str
        requires { IsHeld self.now }
        ensures { result.now ≡ bytes_of self.now }
    {
        match self {
            StrBytes::Short(n, bytes) => unsafe { str::from_utf8_unchecked(&bytes[..*n as usize]) },
            StrBytes::Medium(n, bytes) => unsafe {
                str::from_utf8_unchecked(&bytes[..*n as usize])
            },
            StrBytes::Shared(text) => text.as_str(),
        }
    }

    pub(crate) fn copy(&self) -> Result<StrBytes, AllocError>
        requires { IsHeld self.now }
        ensures { IfOk result (λ h. (bytes_of h ≡ bytes_of self.now) × IsHeld h) }
    {
        match self {
            StrBytes::Short(n, bytes) => Ok(StrBytes::Short(*n, *bytes)),
            StrBytes::Medium(n, bytes) => Ok(StrBytes::Medium(*n, Arc::try_clone(bytes)?)),
            StrBytes::Shared(text) => Ok(StrBytes::Shared(Arc::try_clone(text)?)),
        }
    }

    pub(crate) fn is_same(&self, other: &StrBytes) -> bool
        requires own { IsHeld self.now }
        requires other { IsHeld other.now }
        ensures { result ≡ bytes_eq (bytes_of self.now) (bytes_of other.now) }
    {
        match self {
            StrBytes::Short(n, bytes) => match other {
                StrBytes::Short(m, others) => *n == *m && have_same_words(bytes, others),
                StrBytes::Medium(_, _) => false,
                StrBytes::Shared(_) => false,
            },
            StrBytes::Medium(n, bytes) => match other {
                StrBytes::Short(_, _) => false,
                StrBytes::Medium(m, others) => bytes[..*n as usize] == others[..*m as usize],
                StrBytes::Shared(_) => false,
            },
            StrBytes::Shared(text) => match other {
                StrBytes::Short(_, _) => false,
                StrBytes::Medium(_, _) => false,
                StrBytes::Shared(other) => text.as_str() == other.as_str(),
            },
        }
    }
}

// Two words that overlap cover the bytes.
fn have_same_words(a: &[u8; SHORT], b: &[u8; SHORT]) -> bool
    ensures { result ≡ bytes_eq a.now b.now }
{
    first_word(a) == first_word(b) && last_word(a) == last_word(b)
}

fn first_word(bytes: &[u8; SHORT]) -> u64
    ensures { result ≡ from_le_bytes w64 (take 8 bytes.now) }
{
    u64::from_le_bytes([
        bytes[0], bytes[1], bytes[2], bytes[3], bytes[4], bytes[5], bytes[6], bytes[7],
    ])
}

fn last_word(bytes: &[u8; SHORT]) -> u64
    ensures { result ≡ from_le_bytes w64 (drop 6 bytes.now) }
{
    u64::from_le_bytes([
        bytes[6], bytes[7], bytes[8], bytes[9], bytes[10], bytes[11], bytes[12], bytes[13],
    ])
}
