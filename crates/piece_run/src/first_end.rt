//! What the first stage of a FLWOR ends in.

ghost use Rattle.std.specs.Prelude.{◌≡◌, ◌≤◌, true, length, take, drop, None};
ghost use Rattle.query_tree.specs.BoundViews.{bound_clause, bound_clauses};
ghost use Rattle.query_meaning.specs.Pieces.{are_narrow};
ghost use Rattle.piece_run.specs.Flwors.{EndsIn, OrNarrow};

use clause_eval::BoundClause;
use query_tree::{BoundExpr, Clause, GroupVar, OrderKey, Placed, Slot};

/// The first clause that is not narrow, or `return`.
#[derive(Clone, Copy)]
pub(crate) enum FirstEnd<'q> {
    /// `return`: all clauses are narrow.
    Return,
    /// `count`, with its variable.
    Count(&'q Placed<Slot>),
    /// `group by`, with its keys.
    Group(&'q [GroupVar<Slot, BoundExpr>]),
    /// `order by`, with its keys.
    Order(&'q [OrderKey<BoundExpr>]),
}

// A clause as an end, unless it is narrow.
#[tactic(auto, using(query_tree::proofs::Layers::layers))]
fn end_of(clause: &BoundClause) -> Option<FirstEnd<'_>>
    ensures { OrNarrow result (bound_clause clause.now) }
{
    match clause {
        Clause::For { .. } => None,
        Clause::Let { .. } => None,
        Clause::Where { .. } => None,
        Clause::Count { variable, .. } => Some(FirstEnd::Count(variable)),
        Clause::Group { keys, .. } => Some(FirstEnd::Group(keys.as_slice())),
        Clause::Order { keys, .. } => Some(FirstEnd::Order(keys.as_slice())),
    }
}

/// How many narrow clauses stand first, and what comes after them.
pub(crate) fn first_end(clauses: &[BoundClause]) -> (usize, FirstEnd<'_>)
    ensures within { result.0 ≤ length clauses.now }
    ensures narrow { are_narrow (bound_clauses (take result.0 clauses.now)) ≡ true }
    ensures end { EndsIn result.1 (drop result.0 clauses.now) }
{
    let mut count = 0;
    for clause in clauses {
        match end_of(clause) {
            None => count += 1,
            Some(end) => return (count, end),
        }
    }
    (count, FirstEnd::Return)
}
