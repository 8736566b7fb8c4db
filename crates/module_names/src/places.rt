//! Places in texts that are put together.

ghost use Rattle.std.specs.Prelude.{◌≡◌, ◌+◌, ◌<◌, ℕ, length};
ghost use Rattle.module_names.specs.Places.{start_of};

/// The file that a place belongs to, where the texts of these lengths stand one behind another:
/// the last one that does not start behind the place; and the place in its text.
pub fn locate(lengths: &[u32], place: u32) -> (usize, u32)
    requires { 0 < length lengths.now }
    ensures within { result.0 < length lengths.now }
    ensures place { start_of lengths.now result.0 + result.1 ≡ place }
    ensures last { (file : ℕ) → result.0 < file → file < length lengths.now
        → place < start_of lengths.now file }
{
    let last = lengths.len() - 1;
    let mut rest = place;
    for file in 0..last {
        let length = lengths[file];
        if rest < length {
            return (file, rest);
        }
        rest -= length;
    }
    (last, rest)
}
