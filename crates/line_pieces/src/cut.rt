//! How an input is cut into pieces.

ghost use Rattle.std.specs.Prelude.{◌≡◌, ◌<◌, ◌≤◌, ◌+◌, ◌*◌, ◌^◌, length, vec_len, sum, slice_index};
ghost use Rattle.line_pieces.specs.Cuts.{size_used, pieces_of, place_of};

use std::marker::Model;

/// How an input of some files is cut into pieces of one size, by the lengths of the files. The
/// pieces are numbered from 0, file after file, and a piece is of one file alone.
#[derive(Drop)]
pub struct Cut {
    lengths: Vec<u64>,
    size: u64,
}

impl Model for Cut {
    ghost use Rattle.std.specs.Prelude.{◌<◌, ◌≤◌, ◌*◌, ◌^◌, length, sum};
    ghost use Rattle.line_pieces.specs.Cuts.{Cutting, CanCut};

    ghost Value = { Cutting };

    ghost view = { λ c. record { lengths = c.lengths.items; size = c.size } };

    ghost invariant = { λ c. CanCut c.lengths.items c.size };
}

// The sum of 64 lengths at most.
fn total(lengths: &[u64]) -> u128
    requires { length lengths.now ≤ 64 }
    ensures value { result ≡ sum lengths.now }
    ensures bound { result ≤ 64 * 2 ^ 64 }
{
    let mut total = 0;
    for n in lengths {
        total += *n as u128;
    }
    total
}

impl Cut {
    /// Cuts files of these lengths in bytes, 64 at most, into pieces of the wanted size, which is
    /// one byte at least. Where more than about 2^20 pieces would come out, the size is larger.
    /// Takes no memory.
    pub fn new(lengths: Vec<u64>, wanted: u64) -> Cut
        requires few { vec_len lengths ≤ 64 }
        requires wanted { 0 < wanted }
        ensures { result ≡ record {
          lengths = lengths.items;
          size = size_used lengths.items wanted;
        } }
    {
        let least = total(&lengths).div_ceil(1 << 20) as u64;
        Cut {
            lengths,
            size: wanted.max(least),
        }
    }

    /// How many bytes a piece has, but the last of a file, which may have fewer.
    pub fn size(&self) -> u64
        ensures value { result ≡ self.now.size }
        ensures some { 0 < result }
    {
        self.size
    }

    /// How many pieces there are. An empty file has none.
    pub fn pieces(&self) -> u64
        ensures value { result ≡ pieces_of self.now.size self.now.lengths }
        ensures bound { result ≤ 2 ^ 20 + 64 }
    {
        let mut pieces = 0;
        for n in &self.lengths {
            pieces += n.div_ceil(self.size);
        }
        pieces
    }

    /// The position of the file that a piece is of, and the piece's number in that file, both
    /// from 0.
    pub fn place(&self, piece: u64) -> (usize, u64)
        requires { piece < pieces_of self.now.size self.now.lengths }
        ensures value { result ≡ place_of self.now.size self.now.lengths piece }
        ensures file { result.0 < length self.now.lengths }
    {
        let mut left = piece;
        for (file, n) in self.lengths.iter().enumerate() {
            let pieces = n.div_ceil(self.size);
            if left < pieces {
                return (file, left);
            }
            left -= pieces;
        }
        (self.lengths.len(), left)
    }

    // The length of the file at this position.
    pub(crate) fn length(&self, file: usize) -> u64
        requires { file < length self.now.lengths }
        ensures { result ≡ slice_index self.now.lengths file }
    {
        self.lengths[file]
    }
}
