//! The inputs that are read as a whole, beside the drivers, and whether each driver is one call.

ghost use Rattle.std.specs.Prelude.{◌≡◌, map, IfOk};
ghost use Rattle.query_tree.specs.BoundViews.{bound_tree};
ghost use Rattle.query_tree.specs.Compiled.{bound_trees};
ghost use Rattle.query_tree.specs.inside.Told.{with_names};
ghost use Rattle.query_tree.specs.inside.Waiting.{lent};
ghost use Rattle.mode_planner.specs.Beside.{drivers, one_if_driven, driven_calls, stand_once, names_beside};
ghost use Rattle.mode_planner.specs.Drivers.{call_driver};
ghost use Rattle.mode_planner.specs.inside.Calls.{tree_names};
ghost use Rattle.mode_planner.specs.inside.Views.{driver_of, leaf_of};

use crate::Plan;
use crate::driver_table::DriverTable;
use crate::drivers::call_driver;
use item_tree::{NoMemory, Str};
use query_tree::{BoundExpr, BoundModule, DistinctNames, expressions};
use std::alloc::Global;

// These names, and those of the call that an expression is, if it is none of these drivers.
fn with_tree(
    names: DistinctNames,
    drivers: &DriverTable<'_>,
    tree: &BoundExpr,
) -> Result<DistinctNames, NoMemory>
    ensures { IfOk result (λ n. n.found.items ≡ with_names names.found.items
        (tree_names (map driver_of drivers.now.all.items) (bound_tree tree.now))) }
{
    let Some(call) = call_driver(tree) else {
        return Ok(names);
    };
    if drivers.drives(&call) {
        return Ok(names);
    }
    names.with_all(call.names.as_slice())
}

// One where an expression is a call that one of these drivers is.
fn driven_one(drivers: &DriverTable<'_>, tree: &BoundExpr) -> usize
    ensures { result ≡ one_if_driven (map driver_of drivers.now.all.items)
        (call_driver (bound_tree tree.now)) }
{
    match call_driver(tree) {
        Some(call) => { if drivers.drives(&call) { 1 } else { 0 } }
        None => 0,
    }
}

// How many of these expressions are calls that drivers are.
fn driven_calls(drivers: &DriverTable<'_>, trees: &[&BoundExpr]) -> usize
    ensures { result ≡ driven_calls (map driver_of drivers.now.all.items) (lent trees.now) }
{
    let mut count = 0usize;
    for tree in trees {
        count += driven_one(drivers, *tree);
    }
    count
}

/// The different names of the inputs that are read as a whole: those in all calls of `json-lines`
/// of a query that are no drivers of this plan of it, in order of first appearance. An input that
/// drivers alone read is not among them.
///
/// The time grows with the size of the query times the logarithm of the number of drivers.
///
/// # Errors
///
/// `NoMemory` where memory runs out.
pub fn names_beside_drivers(
    alloc: Global,
    query: &BoundModule,
    plan: &Plan<'_>,
) -> Result<Vec<Str>, NoMemory>
    ensures { IfOk result (λ v. v.items
        ≡ names_beside (map leaf_of plan.now.leaves.items) (bound_trees query.now)) }
{
    let drivers = DriverTable::of(alloc, &plan.leaves)?;
    let mut names = DistinctNames::new(alloc);
    let trees = expressions(alloc, query)?;
    for tree in &trees {
        names = with_tree(names, &drivers, *tree)?;
    }
    Ok(names.into_list())
}

/// Whether each driver of this plan of a query stands once: whether as many calls of the query are
/// drivers as there are drivers.
///
/// The time grows with the size of the query times the logarithm of the number of drivers.
///
/// # Errors
///
/// `NoMemory` where memory runs out.
pub fn drivers_stand_once(
    alloc: Global,
    query: &BoundModule,
    plan: &Plan<'_>,
) -> Result<bool, NoMemory>
    ensures { IfOk result (λ b. b
        ≡ stand_once (drivers (map leaf_of plan.now.leaves.items)) (bound_trees query.now)) }
{
    let drivers = DriverTable::of(alloc, &plan.leaves)?;
    let trees = expressions(alloc, query)?;
    Ok(driven_calls(&drivers, &trees) == drivers.all.len())
}
