//! Where the lines of a piece stand in bytes that were read.

ghost use Rattle.std.specs.Prelude.{◌≡◌, ◌<◌, length};
ghost use Rattle.line_pieces.specs.inside.Parts.{IsPartOf, part_bytes, part_lines};

/// Where the lines of a piece stand in bytes that were read: behind some that are skipped, and up
/// to where the bytes are filled.
#[derive(Clone, Copy)]
pub(crate) struct Part {
    pub at: u64,
    pub skipped: usize,
    pub filled: usize,
}

impl Part {
    /// A part without a line.
    pub(crate) fn none() -> Part
        ensures { result ≡ record { at = 0; skipped = 0; filled = 0 } }
    {
        Part {
            at: 0,
            skipped: 0,
            filled: 0,
        }
    }

    /// The part of these bytes, from its first line on.
    pub(crate) fn bytes<'a>(&self, bytes: &'a [u8]) -> &'a [u8]
        requires { IsPartOf bytes.now self.now }
        ensures { result.now ≡ part_bytes bytes.now self.now }
    {
        &bytes[self.skipped..self.filled]
    }
}
