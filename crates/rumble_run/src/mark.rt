//! The byte order mark.

ghost use Rattle.std.specs.Prelude.{◌≡◌, ◌≤◌, length};
ghost use Rattle.item_reader.specs.Lines.{without_mark};

/// The byte order mark of UTF-8.
const MARK: &[u8] = b"\xef\xbb\xbf";

/// The bytes behind a byte order mark, where they begin with one.
pub(crate) fn without_mark(bytes: &[u8]) -> &[u8]
    ensures rest { result.now ≡ without_mark bytes.now }
    ensures shorter { length result.now ≤ length bytes.now }
{
    match bytes.strip_prefix(MARK) {
        Some(rest) => rest,
        None => bytes,
    }
}
