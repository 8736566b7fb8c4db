//! The drivers of calls and of clauses.

ghost use Rattle.std.specs.Prelude.{◌≡◌, ◌+◌, ◌<◌, ◌^◌, length, option_map};
ghost use Rattle.query_tree.specs.BoundViews.{bound_tree, bound_clause, bound_clauses};
ghost use Rattle.mode_planner.specs.Drivers.{target_driver, call_driver, is_let, clause_driver, clauses_driver, folds};
ghost use Rattle.mode_planner.specs.inside.Views.{driver_of};

use crate::Driver;
use item_tree::FnId;
use query_tree::{BoundExpr, Clause, Kind, Slot, Target};
use seq_types::SeqType;

pub(crate) type BoundClause = Clause<Slot, Target, SeqType>;

/// The driver that a call of this target at this place is.
pub(crate) fn target_driver<'q>(place: u32, target: &'q Target) -> Option<Driver<'q>>
    ensures { option_map driver_of result ≡ target_driver place target.now }
{
    match target {
        Target::Lines(names) => Some(Driver {
            place,
            names,
            lets: 0,
            position: false,
        }),
        Target::Built(_) => None,
        Target::Own(_) => None,
    }
}

/// The driver that an expression is.
#[tactic(auto, using(query_tree::proofs::Layers::layers))]
pub(crate) fn call_driver<'q>(tree: &'q BoundExpr) -> Option<Driver<'q>>
    ensures { option_map driver_of result ≡ call_driver (bound_tree tree.now) }
{
    match &tree.kind {
        Kind::Call { function, .. } => target_driver(tree.place, function),
        _ => None,
    }
}

#[tactic(auto, using(query_tree::proofs::Layers::layers))]
fn is_let(clause: &BoundClause) -> bool
    ensures { result ≡ is_let (bound_clause clause.now) }
{
    match clause {
        Clause::Let { .. } => true,
        Clause::For { .. }
        | Clause::Where { .. }
        | Clause::Group { .. }
        | Clause::Order { .. }
        | Clause::Count { .. } => false,
    }
}

// The driver that a clause goes over, before which that many `let`s stand and nothing else.
#[tactic(auto, using(query_tree::proofs::Layers::layers))]
fn clause_driver<'q>(lets: u32, clause: &'q BoundClause) -> Option<Driver<'q>>
    ensures { option_map driver_of result ≡ clause_driver lets (bound_clause clause.now) }
{
    match clause {
        Clause::For {
            allowing_empty,
            at,
            source,
            ..
        } => {
            if *allowing_empty {
                return None;
            }
            let position = at.is_some();
            match call_driver(source) {
                Some(driver) => Some(Driver {
                    place: driver.place,
                    names: driver.names,
                    lets,
                    position,
                }),
                None => None,
            }
        }
        Clause::Let { .. }
        | Clause::Where { .. }
        | Clause::Group { .. }
        | Clause::Order { .. }
        | Clause::Count { .. } => None,
    }
}

/// The driver of a FLWOR with these clauses.
pub(crate) fn clauses_driver<'q>(clauses: &'q [BoundClause]) -> Option<Driver<'q>>
    requires few { length clauses.now + 1 < 2 ^ 32 }
    ensures { option_map driver_of result ≡ clauses_driver 0 (bound_clauses clauses.now) }
{
    let mut lets = 0u32;
    for clause in clauses {
        if !is_let(clause) {
            return clause_driver(lets, clause);
        }
        lets += 1;
    }
    None
}

/// Whether the value of a call of this function can be put together from what each piece gives.
pub(crate) fn folds(id: FnId) -> bool
    ensures { result ≡ folds id }
{
    match id {
        FnId::Count | FnId::Empty | FnId::Exists | FnId::Sum | FnId::Avg | FnId::Min | FnId::Max =>
            true,
        _ => false,
    }
}
