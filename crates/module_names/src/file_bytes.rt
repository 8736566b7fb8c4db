//! The bytes of files.

ghost use Rattle.std.specs.Prelude.{◌≡◌, ◌≤◌, length};
ghost use Rattle.item_reader.specs.Lines.{without_mark};

use std::marker::Model;

/// The byte order mark of UTF-8.
const MARK: &[u8] = b"\xef\xbb\xbf";

/// The bytes of a file, seen as their list.
#[derive(Debug, Drop)]
pub struct Contents {
    bytes: Vec<u8>,
}

impl Model for Contents {
    ghost use Rattle.std.specs.Prelude.{ℕ, List};

    ghost Value = { List ℕ };

    ghost view = { λ c. c.bytes.items };
}

impl Contents {
    pub(crate) fn of(bytes: Vec<u8>) -> Contents
        ensures { result ≡ bytes.items }
    {
        Contents { bytes }
    }

    /// All bytes of the file.
    pub fn bytes(&self) -> &[u8]
        ensures { result.now ≡ self.now }
    {
        &self.bytes
    }

    /// The bytes after a byte order mark, where they begin with one.
    pub fn text(&self) -> &[u8]
        ensures { result.now ≡ without_mark self.now }
    {
        without_mark(&self.bytes)
    }
}

/// The bytes of a file, and what else its reader keeps of it.
#[derive(Debug, Drop)]
pub struct Kept<T> {
    pub contents: Contents,
    pub rest: T,
}

/// The bytes after a byte order mark, where they begin with one.
pub fn without_mark(bytes: &[u8]) -> &[u8]
    ensures rest { result.now ≡ without_mark bytes.now }
    ensures shorter { length result.now ≤ length bytes.now }
{
    match bytes.strip_prefix(MARK) {
        Some(rest) => rest,
        None => bytes,
    }
}
