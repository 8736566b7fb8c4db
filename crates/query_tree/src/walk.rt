//! The walk from each expression to those that it holds.

ghost use Rattle.std.specs.Prelude.{◌≡◌, ◌++◌, IfOk, OnOk};
ghost use Rattle.std.specs.List.{flat_map};
ghost use Rattle.query_tree.specs.BoundViews.{bound_tree};
ghost use Rattle.query_tree.specs.Calls.{module_trees};
ghost use Rattle.query_tree.specs.Compiled.{bound_trees};
ghost use Rattle.query_tree.specs.Subtrees.{subtrees};
ghost use Rattle.query_tree.specs.inside.Waiting.{lent};

use crate::children::push_children;
use crate::text_order::in_text_order;
use crate::{BoundExpr, BoundModule};
use item_tree::NoMemory;
use std::alloc::Global;

// Adds an expression, and behind it those in it.
fn push_expressions<'t>(
    alloc: Global,
    tree: &'t BoundExpr,
    found: &mut Vec<&'t BoundExpr>,
) -> Result<(), NoMemory>
    ensures { OnOk result (lent found.new.items
        ≡ lent found.old.items ++ subtrees (bound_tree tree.now)) }
{
    let mut stack = vec![in alloc; tree]?;
    while let Some(next) = stack.pop() {
        found.push(next)?;
        push_children(&next.kind, &mut stack)?;
    }
    Ok(())
}

/// All expressions of a query: those of its declarations and of its body in text order, each before
/// those that it holds.
///
/// The time grows with the size of the query.
///
/// # Errors
///
/// `NoMemory` where memory runs out.
pub fn expressions<'t>(
    alloc: Global,
    query: &'t BoundModule,
) -> Result<Vec<&'t BoundExpr>, NoMemory>
    ensures { IfOk result (λ v.
        lent v.items ≡ flat_map subtrees (module_trees (bound_trees query.now))) }
{
    let mut found = Vec::new(alloc);
    let trees = in_text_order(alloc, query)?;
    for tree in &trees {
        push_expressions(alloc, *tree, &mut found)?;
    }
    Ok(found)
}
