//! The slots that the clauses of a FLWOR bind.

ghost use Rattle.std.specs.Prelude.{◌≡◌, IfOk, OnOk};
ghost use Rattle.query_tree.specs.BoundViews.{bound_clause, bound_clauses, bound_group_var, bound_group_vars};
ghost use Rattle.query_tree.specs.Scoped.{key_slot, keys_scope, clause_scope, unnumbered, entered_last, clause_slots};

use crate::{BoundExpr, Clause, GroupVar, Placed, Slot, Target};
use item_tree::NoMemory;
use seq_types::SeqType;
use std::alloc::Global;

type BoundClause = Clause<Slot, Target, SeqType>;

// The slot that a key of a grouping binds.
fn slot_of_key(key: &GroupVar<Slot, BoundExpr>) -> Slot
    ensures { result ≡ key_slot (bound_group_var key.now) }
{
    match key {
        GroupVar::Stream { variable } => variable.name,
        GroupVar::Computed { variable, .. } => variable.name,
    }
}

// The slots of the keys of a grouping, behind others.
fn push_keys(keys: &[GroupVar<Slot, BoundExpr>], slots: &mut Vec<Slot>) -> Result<(), NoMemory>
    ensures { OnOk result (slots.new.items
        ≡ keys_scope entered_last unnumbered slots.old.items tt (bound_group_vars keys.now)) }
{
    for key in keys {
        slots.push(slot_of_key(key))?;
    }
    Ok(())
}

// The slots of a clause, behind others.
#[tactic(auto, using(crate::proofs::Layers::layers))]
fn push_clause(clause: &BoundClause, slots: &mut Vec<Slot>) -> Result<(), NoMemory>
    ensures { OnOk result (slots.new.items
        ≡ clause_scope entered_last unnumbered slots.old.items tt (bound_clause clause.now)) }
{
    match clause {
        Clause::For { variable, at, .. } => {
            slots.push(variable.name)?;
            if let Some(position) = at {
                slots.push(position.name)?;
            }
            Ok(())
        }
        Clause::Let { variable, .. } | Clause::Count { variable, .. } => {
            slots.push(variable.name)?;
            Ok(())
        }
        Clause::Group { keys, .. } => push_keys(keys, slots),
        Clause::Where { .. } | Clause::Order { .. } => Ok(()),
    }
}

/// The slots that the clauses of a FLWOR bind, in order: of a `for` its variable and then its
/// position, of a `group by` each key.
///
/// # Errors
///
/// `NoMemory` where memory runs out.
pub fn clause_slots(alloc: Global, clauses: &[BoundClause]) -> Result<Vec<Slot>, NoMemory>
    ensures { IfOk result (λ v. v.items ≡ clause_slots (bound_clauses clauses.now)) }
{
    let mut slots = Vec::new(alloc);
    for clause in clauses {
        push_clause(clause, &mut slots)?;
    }
    Ok(slots)
}
