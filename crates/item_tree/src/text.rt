//! Strings.

ghost use Rattle.std.specs.Prelude.{◌≡◌, ◌≤◌, IfOk, true, length, take};
ghost use Rattle.std.specs.Ordering.{nat_cmp};
ghost use Rattle.std.specs.Cmp.Lexicographic.{slice_cmp};
ghost use Rattle.std.specs.Str.{chars, encode_utf8_all, all_scalars, IsAscii};
ghost use Rattle.std.specs.String.{string_bytes};

use crate::NoMemory;
use crate::str_bytes::StrBytes;
use std::alloc::{AllocError, Global};
use std::cmp::Ordering;
use std::hash::{Hash, Hasher};
use std::marker::Model;

/// A string, seen as the list of its characters. Copies of a long one share its bytes.
#[derive(Debug, Drop)]
pub struct Str {
    text: StrBytes,
}

impl Model for Str {
    ghost use Rattle.std.specs.Prelude.{ℕ, List};
    ghost use Rattle.std.specs.Str.{chars};
    ghost use Rattle.item_tree.specs.inside.StrBytes.{bytes_of, IsHeld};

    ghost Value = { List ℕ };

    ghost view = { λ s. chars (bytes_of s.text) };

    ghost invariant = { λ s. IsHeld s.text };
}

impl Str {
    /// The string of these characters.
    #[inline(always)]
    pub fn of(alloc: Global, text: &str) -> Result<Str, NoMemory>
        ensures { IfOk result (λ s. s ≡ chars text.now) }
    {
        let text = StrBytes::of(alloc, text)?;
        Ok(Str { text })
    }

    /// The string of so many characters at the front of some bytes, where all of them are ASCII and
    /// there are at most 14. It takes no memory, and no branch on how many there are, for which 16
    /// bytes must be there.
    #[inline(always)]
    pub fn of_front(bytes: &[u8], len: usize) -> Str
        requires few { len ≤ 14 }
        requires room { 16 ≤ length bytes.now }
        requires ascii { IsAscii (take len bytes.now) }
        ensures { result ≡ chars (take len bytes.now) }
    {
        Str {
            text: StrBytes::of_front(bytes, len),
        }
    }

    /// The string of these characters. They are copied where they are at most 48 bytes.
    pub fn from_string(alloc: Global, text: String) -> Result<Str, NoMemory>
        ensures { IfOk result (λ s. s ≡ chars (string_bytes text)) }
    {
        let text = StrBytes::from_string(alloc, text)?;
        Ok(Str { text })
    }

    /// The characters in UTF-8.
    pub fn as_str(&self) -> &str
        ensures value { chars result.now ≡ self.now }
        ensures bytes { result.now ≡ encode_utf8_all self.now }
        ensures sound { all_scalars self.now ≡ true }
    {
        self.text.as_str()
    }

    /// The same string, in constant time. It takes no memory, and fails only where no further
    /// copy can be counted.
    pub fn copy(&self) -> Result<Str, NoMemory>
        ensures { IfOk result (λ s. s ≡ self.now) }
    {
        Ok(self.clone()?)
    }
}

impl Clone for Str {
    ghost is_clone = { λ a b. b ≡ a };

    fn clone(&self) -> Result<Str, AllocError> {
        let text = self.text.copy()?;
        Ok(Str { text })
    }
}

impl PartialEq for Str {
    ghost use Rattle.std.specs.Str.{bytes_eq};
    ghost use Rattle.std.specs.Cmp.{partial_equiv_from_equiv};
    ghost use Rattle.std.proofs.lemmas.Cmp.{nat_list_eq_equiv};

    ghost eq = { λ a b. bytes_eq a b };

    ghost laws = { partial_equiv_from_equiv nat_list_eq_equiv };

    fn eq(&self, other: &Str) -> bool {
        self.text.is_same(&other.text)
    }
}

impl Eq for Str {
    ghost use Rattle.std.proofs.lemmas.Cmp.{nat_list_eq_equiv};

    ghost laws = { nat_list_eq_equiv };
}

impl PartialOrd for Str {
    ghost use Rattle.std.specs.Prelude.{Some};
    ghost use Rattle.std.specs.Cmp.Lexicographic.{texts_po};

    ghost partial_cmp = { λ a b. Some (slice_cmp nat_cmp a b) };

    ghost laws = { texts_po };

    fn partial_cmp(&self, other: &Str) -> Option<Ordering> {
        Some(self.cmp(other))
    }
}

// The order by code points, which is that of the bytes.
impl Ord for Str {
    ghost use Rattle.std.proofs.Common.{refl};
    ghost use Rattle.std.specs.Cmp.Lexicographic.{nat_list_cmp_total, texts_ties};

    ghost cmp = { λ a b. slice_cmp nat_cmp a b };

    ghost total = { nat_list_cmp_total };

    ghost matches_partial_cmp = { λ x y. refl };

    ghost matches_eq = { texts_ties };

    fn cmp(&self, other: &Str) -> Ordering {
        self.as_str().cmp(other.as_str())
    }
}

impl Hash for Str {
    ghost use Rattle.std.specs.Str.{encode_utf8_all};
    ghost use Rattle.std.specs.Hash as fed;
    ghost use Rattle.std.proofs.Common.{ap};
    ghost use Rattle.std.proofs.lemmas.Slice.Eq.{bytes_eq-Decides};

    ghost hash_input = { λ s. fed.str (encode_utf8_all s) };

    ghost respects_eq = { λ x y e.
        ap (λ s. fed.str (encode_utf8_all s)) ((bytes_eq-Decides x y).0 e) };

    fn hash<H: Hasher>(&self, state: &mut H) {
        self.as_str().hash(state);
    }
}
