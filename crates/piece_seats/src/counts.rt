//! Sums of counts.

ghost use Rattle.std.specs.Prelude.{◌≡◌, ◌+◌, IfOk};

use item_tree::NoMemory;

/// The sum of two counts. One that does not fit would count more than memory holds.
pub(crate) fn counted(a: u64, b: u64) -> Result<u64, NoMemory>
    ensures { IfOk result (λ n. n ≡ a + b) }
{
    match a.checked_add(b) {
        Some(n) => Ok(n),
        None => Err(NoMemory),
    }
}
