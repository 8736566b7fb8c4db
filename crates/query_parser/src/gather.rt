//! What is given up for want of memory is dropped in these functions, which are generic.

ghost use Rattle.std.specs.Prelude.{◌≡◌, ◌++◌, map, MatchResult};
ghost use Rattle.grammar_parts.specs.declared.cursor.Stop.TheVariants.{NoMemory};
ghost use Rattle.query_grammar.specs.Nodes as n;

use crate::values::joined;
use grammar_parts::Stop;
use std::alloc::Global;

/// Two parts on the heap, beside one that is kept as it is.
pub fn both_boxed_beside<A: Drop, B: Drop, C: Drop>(
    alloc: Global,
    first: A,
    second: B,
    third: C,
) -> Result<(Box<A>, Box<B>, C), Stop>
    ensures { MatchResult result (λ z. (z.0.value ≡ first) × (z.1.value ≡ second) × (z.2 ≡ third))
        (λ e. e ≡ NoMemory) }
{
    let first = Box::new(alloc, first)?;
    let second = Box::new(alloc, second)?;
    Ok((first, second, third))
}

/// Three parts on the heap.
pub fn all_boxed<A: Drop, B: Drop, C: Drop>(
    alloc: Global,
    first: A,
    second: B,
    third: C,
) -> Result<(Box<A>, Box<B>, Box<C>), Stop>
    ensures { MatchResult result
        (λ z. (z.0.value ≡ first) × (z.1.value ≡ second) × (z.2.value ≡ third))
        (λ e. e ≡ NoMemory) }
{
    let first = Box::new(alloc, first)?;
    let second = Box::new(alloc, second)?;
    let third = Box::new(alloc, third)?;
    Ok((first, second, third))
}

/// A list with others behind it, beside a part that is kept as it is.
pub fn joined_beside<T: Drop, A: Drop>(
    first: Vec<T>,
    others: Vec<Vec<T>>,
    part: A,
) -> Result<(Vec<T>, A), Stop>
    ensures { MatchResult result
        (λ z.
        (z.0.items ≡ first.items ++ n.concat (map (λ l. l.items) others.items)) × (z.1 ≡ part))
        (λ e. e ≡ NoMemory) }
{
    let all = joined(first, others)?;
    Ok((all, part))
}
