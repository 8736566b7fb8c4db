//! The plan of a compiled query.

ghost use Rattle.std.specs.Prelude.{◌≡◌, map, IfOk};
ghost use Rattle.query_tree.specs.Compiled.{bound_trees};
ghost use Rattle.mode_planner.specs.Plans.{plan};
ghost use Rattle.mode_planner.specs.inside.Views.{leaf_of};

use crate::spine::leaves;
use crate::{Plan, plan_leaf};
use item_tree::NoMemory;
use query_tree::BoundModule;
use std::alloc::Global;

/// The plan of the body of a query. `local` asks that nothing runs over pieces.
///
/// The time grows with the size of the body, and no further than to its leaves with their clauses.
///
/// # Errors
///
/// `NoMemory` where memory runs out, or a FLWOR has 2^32 - 1 clauses or more.
pub fn make_plan<'q>(
    alloc: Global,
    query: &'q BoundModule,
    local: bool,
) -> Result<Plan<'q>, NoMemory>
    ensures { IfOk result (λ p.
        map leaf_of p.leaves.items ≡ plan local (bound_trees query.now).body) }
{
    let trees = leaves(alloc, &query.body)?;
    let mut planned = Vec::new(alloc);
    for tree in &trees {
        planned.push(plan_leaf(alloc, *tree, local)?)?;
    }
    Ok(Plan { leaves: planned })
}
