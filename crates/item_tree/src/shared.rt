//! Blocks of memory that copies share.

ghost use Rattle.std.specs.Prelude.{◌≡◌, IfOk};
ghost use Rattle.std.specs.Arc.{arc_value};

use crate::NoMemory;
use std::alloc::{AllocFailed, Global};
use std::sync::Arc;

/// A value in a block of its own, to be shared by copies.
#[inline(always)]
pub(crate) fn in_block<T: Drop>(alloc: Global, value: T) -> Result<Arc<T, Global>, NoMemory>
    ensures { IfOk result (λ b. arc_value b ≡ value) }
{
    match Arc::new(alloc, value) {
        Ok(block) => Ok(block),
        Err(refused) => Err(none_left(refused)),
    }
}

// Out of line: where a value is let go in line, its parts are kept apart on the way to its block.
#[inline(never)]
fn none_left<T: Drop>(refused: AllocFailed<T>) -> NoMemory {
    NoMemory::from(refused)
}

/// One of the copies goes. The last of them takes the block and frees it, for which it only reads
/// the count: to count down takes a step that no other processor may come between, which takes as
/// long as all the rest.
#[inline(always)]
pub(crate) fn let_go<T: Drop>(block: Arc<T, Global>) {
    match Arc::try_unwrap(block) {
        Ok(value) => drop(value),
        Err(shared) => drop(shared),
    }
}
