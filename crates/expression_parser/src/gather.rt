//! What is given up at a refusal, or for want of memory, is dropped here. These functions are
//! generic, so that a check needs no proof of its own for each kind of tree that is dropped.

ghost use Rattle.std.specs.Prelude.{◌≡◌, Err, MatchResult};
ghost use Rattle.grammar_parts.specs.declared.cursor.Stop.TheVariants.{NoMemory};

use grammar_parts::Stop;
use std::alloc::Global;

/// Drops a part, and stops.
pub fn give_up<A: Drop, T>(_part: A, stop: Stop) -> Result<T, Stop>
    ensures { result ≡ Err stop }
{
    Err(stop)
}

/// A part on the heap.
pub fn boxed<A: Drop>(alloc: Global, part: A) -> Result<Box<A>, Stop>
    ensures { MatchResult result (λ b. b.value ≡ part) (λ e. e ≡ NoMemory) }
{
    Ok(Box::new(alloc, part)?)
}

/// Two parts on the heap.
pub fn both_boxed<A: Drop, B: Drop>(
    alloc: Global,
    first: A,
    second: B,
) -> Result<(Box<A>, Box<B>), Stop>
    ensures { MatchResult result (λ z. (z.0.value ≡ first) × (z.1.value ≡ second))
        (λ e. e ≡ NoMemory) }
{
    let first = Box::new(alloc, first)?;
    let second = Box::new(alloc, second)?;
    Ok((first, second))
}

/// A part on the heap, beside one that is kept as it is.
pub fn boxed_beside<A: Drop, B: Drop>(
    alloc: Global,
    first: A,
    second: B,
) -> Result<(Box<A>, B), Stop>
    ensures { MatchResult result (λ z. (z.0.value ≡ first) × (z.1 ≡ second)) (λ e. e ≡ NoMemory) }
{
    Ok((Box::new(alloc, first)?, second))
}
