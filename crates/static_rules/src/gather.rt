//! Parts that were made, or the lack of memory. What is given up for that lack is dropped here, and
//! these functions are generic: a check needs no proof of its own for each kind of tree that is
//! dropped.

ghost use Rattle.std.specs.Prelude.{◌≡◌, List, Ok, IfOk};
ghost use Rattle.static_rules.specs.Gathering.{Pushed};
ghost use Rattle.std.specs.Prelude.{None, IfErr};
ghost use Rattle.static_rules.specs.Faults.{IsFault};

use crate::{CompileFault, Refusal};
use item_tree::NoMemory;
use std::alloc::Global;

/// Both of two parts.
pub fn both<A: Drop, B: Drop>(
    first: Result<A, NoMemory>,
    second: Result<B, NoMemory>,
) -> Result<(A, B), NoMemory>
    ensures first { IfOk result (λ r. first ≡ Ok r.0) }
    ensures second { IfOk result (λ r. second ≡ Ok r.1) }
{
    match (first, second) {
        (Ok(a), Ok(b)) => Ok((a, b)),
        _ => Err(NoMemory),
    }
}

/// A part on the heap.
pub fn boxed<A: Drop>(alloc: Global, part: Result<A, NoMemory>) -> Result<Box<A>, NoMemory>
    ensures { IfOk result (λ b. part ≡ Ok b.value) }
{
    Ok(Box::new(alloc, part?)?)
}

/// The parts with one more behind them.
pub fn pushed<A: Drop>(mut parts: Vec<A>, part: Result<A, NoMemory>) -> Result<Vec<A>, NoMemory>
    ensures { IfOk result (λ v. Pushed parts.items part v.items) }
{
    parts.push(part?)?;
    Ok(parts)
}

/// What was made, where no rule was broken.
pub fn accepted<A: Drop>(
    made: Result<A, NoMemory>,
    first: Option<Refusal>,
) -> Result<A, CompileFault>
    ensures made { IfOk result (λ a. made ≡ Ok a) }
    ensures accepted { IfOk result (λ a. first ≡ None) }
    ensures fault { IfErr result (λ f. IsFault made first f) }
{
    match (made, first) {
        (Err(_), _) => Err(CompileFault::NoMemory),
        (Ok(a), None) => Ok(a),
        (Ok(_), Some(refusal)) => Err(CompileFault::Refused {
            code: refusal.rule.code(),
            place: refusal.place,
        }),
    }
}
