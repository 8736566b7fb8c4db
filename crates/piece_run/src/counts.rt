//! How many tuples each step took in.

ghost use Rattle.std.specs.Prelude.{◌≡◌, ◌+◌, ◌<◌, ◌≤◌, ℕ, length};
ghost use Rattle.piece_outcomes.specs.Counting.{taken_by};

use piece_outcomes::Counts;

// So many tuples came to the step of this number.
pub(crate) fn with_count(into: Counts, at: u32, count: usize) -> Counts
    requires first { into.first ≤ at }
    requires fits { at < into.first + length into.taken.items }
    ensures here { taken_by result at ≡ count }
    ensures same { (n : ℕ) → n < at → taken_by result n ≡ taken_by into n }
    ensures first { result.first ≡ into.first }
{
    let mut into = into;
    let index = (at - into.first) as usize;
    into.taken[index] = count as u64;
    into
}
