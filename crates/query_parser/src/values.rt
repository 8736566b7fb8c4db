//! What tokens say, as parts of clauses and statements.

ghost use Rattle.std.specs.Prelude.{◌≡◌, ◌∷◌, ◌++◌, [], map, codes, MatchResult};
ghost use Rattle.grammar_parts.specs.declared.cursor.Stop.TheVariants.{NoMemory};
ghost use Rattle.query_grammar.specs.Nodes as n;

use grammar_parts::Stop;
use item_tree::Str;
use query_grammar::Kind;
use query_tree::{Placed, Quantifier};
use std::alloc::Global;

pub fn quantifier_of(kind: Kind) -> Quantifier
    ensures { result ≡ n.quantifier_of kind }
{
    match kind {
        Kind::Every => Quantifier::Every,
        _ => Quantifier::Any,
    }
}

pub fn is_descending(kind: Kind) -> bool
    ensures { result ≡ n.is_descending_kind kind }
{
    match kind {
        Kind::Descending => true,
        _ => false,
    }
}

pub fn is_greatest(kind: Kind) -> bool
    ensures { result ≡ n.is_greatest_kind kind }
{
    match kind {
        Kind::Greatest => true,
        _ => false,
    }
}

/// The variable that a handler binds at its `catch`.
pub fn error_variable(alloc: Global, place: u32) -> Result<Placed<Str>, Stop>
    ensures { MatchResult result (λ x. x ≡ record { place = place; name = codes "err:code" })
        (λ e. e ≡ NoMemory) }
{
    match Str::of(alloc, "err:code") {
        Ok(name) => Ok(Placed { place, name }),
        Err(_) => Err(Stop::NoMemory),
    }
}

/// A list of one item.
pub fn one<T: Drop>(alloc: Global, item: T) -> Result<Vec<T>, Stop>
    ensures { MatchResult result (λ v. v.items ≡ item ∷ []) (λ e. e ≡ NoMemory) }
{
    let mut found = Vec::new(alloc);
    found.push(item)?;
    Ok(found)
}

/// A list with others behind it.
pub fn joined<T: Drop>(first: Vec<T>, others: Vec<Vec<T>>) -> Result<Vec<T>, Stop>
    ensures { MatchResult result
        (λ v. v.items ≡ first.items ++ n.concat (map (λ l. l.items) others.items))
        (λ e. e ≡ NoMemory) }
{
    let mut found = first;
    for other in others {
        let mut more = other;
        found.append(&mut more)?;
    }
    Ok(found)
}
