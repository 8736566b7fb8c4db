//! The plan of one leaf.

ghost use Rattle.std.specs.Prelude.{◌≡◌, option_map, map, IfOk};
ghost use Rattle.query_tree.specs.BoundViews.{bound_tree, bound_tree_list};
ghost use Rattle.mode_planner.specs.Plans.{whole, own_plan, argument, call_plan, target_plan, driven, driven_plan, local_line, leaf_plan};
ghost use Rattle.mode_planner.specs.inside.Views.{driven_of, leaf_of};

use crate::driven::{Driven, driven_tree};
use crate::drivers::folds;
use crate::{End, Label, Leaf, Line, Mode};
use item_tree::{FnId, NoMemory};
use query_tree::{BoundExpr, Kind, Target};
use std::alloc::Global;

// A leaf without a driver.
fn whole<'q>(alloc: Global, tree: &'q BoundExpr, label: Label) -> Result<Leaf<'q>, NoMemory>
    ensures { IfOk result (λ l.
        leaf_of l ≡ whole (bound_tree tree.now) tree.now.place label) }
{
    let line = Line {
        place: tree.place,
        label,
        mode: Mode::Local,
    };
    let lines = vec![in alloc; line]?;
    Ok(Leaf {
        tree,
        label,
        lines,
        driver: None,
        stages: Vec::new(alloc),
    })
}

// A call of `json-lines` or a FLWOR.
fn own_leaf<'q>(alloc: Global, tree: &'q BoundExpr, label: Label) -> Result<Leaf<'q>, NoMemory>
    ensures { IfOk result (λ l. leaf_of l ≡ own_plan (bound_tree tree.now) tree.now.place label
        (driven End.Items (bound_tree tree.now))) }
{
    match driven_tree(alloc, tree, End::Items)? {
        Some(
            Driven {
                lines,
                driver,
                stages,
            },
        ) => Ok(Leaf {
            tree,
            label,
            lines,
            driver: Some(driver),
            stages,
        }),
        None => whole(alloc, tree, label),
    }
}

// What drives a call of a function.
fn argument<'q>(
    alloc: Global,
    id: FnId,
    arguments: &'q [BoundExpr],
) -> Result<Option<Driven<'q>>, NoMemory>
    ensures { IfOk result (λ d.
        option_map driven_of d ≡ argument id (bound_tree_list arguments.now)) }
{
    let Some((only, rest)) = arguments.split_first() else {
        return Ok(None);
    };
    if !rest.is_empty() {
        return Ok(None);
    }
    if !folds(id) {
        return Ok(None);
    }
    driven_tree(alloc, only, End::Part(id))
}

// A call of a function.
fn call_leaf<'q>(
    alloc: Global,
    tree: &'q BoundExpr,
    id: FnId,
    arguments: &'q [BoundExpr],
) -> Result<Leaf<'q>, NoMemory>
    ensures { IfOk result (λ l. leaf_of l ≡ call_plan (bound_tree tree.now) tree.now.place id
        (argument id (bound_tree_list arguments.now))) }
{
    let Some(below) = argument(alloc, id, arguments)? else {
        return whole(alloc, tree, Label::Expression);
    };
    let label = Label::Call(id);
    let line = Line {
        place: tree.place,
        label,
        mode: Mode::Gathered,
    };
    let mut lines = vec![in alloc; line]?;
    lines.extend_from_slice(&below.lines)?;
    Ok(Leaf {
        tree,
        label,
        lines,
        driver: Some(below.driver),
        stages: below.stages,
    })
}

// A call.
fn target_leaf<'q>(
    alloc: Global,
    tree: &'q BoundExpr,
    target: &Target,
    arguments: &'q [BoundExpr],
) -> Result<Leaf<'q>, NoMemory>
    ensures { IfOk result (λ l. leaf_of l ≡ target_plan (bound_tree tree.now) tree.now.place
        target.now (bound_tree_list arguments.now)) }
{
    match target {
        Target::Built(id) => call_leaf(alloc, tree, *id, arguments),
        Target::Own(_) => whole(alloc, tree, Label::Expression),
        Target::Lines(_) => own_leaf(alloc, tree, Label::JsonLines),
    }
}

// A leaf that may run over pieces.
#[tactic(auto, using(query_tree::proofs::Layers::layers))]
fn driven_leaf<'q>(alloc: Global, tree: &'q BoundExpr) -> Result<Leaf<'q>, NoMemory>
    ensures { IfOk result (λ l. leaf_of l ≡ driven_plan (bound_tree tree.now)) }
{
    match &tree.kind {
        Kind::Call {
            function,
            arguments,
        } => target_leaf(alloc, tree, function, arguments),
        Kind::Flwor { .. } => own_leaf(alloc, tree, Label::Flwor),
        _ => whole(alloc, tree, Label::Expression),
    }
}

// The lines of the same parts, all local.
fn local_lines(alloc: Global, lines: &[Line]) -> Result<Vec<Line>, NoMemory>
    ensures { IfOk result (λ v. v.items ≡ map local_line lines.now) }
{
    let mut local = Vec::new(alloc);
    for line in lines {
        local.push(Line {
            place: line.place,
            label: line.label,
            mode: Mode::Local,
        })?;
    }
    Ok(local)
}

/// The plan of one leaf of a body. `local` asks that nothing runs over pieces.
///
/// The time grows with the number of its clauses.
///
/// # Errors
///
/// `NoMemory` where memory runs out, or a FLWOR has 2^32 - 1 clauses or more.
pub fn plan_leaf<'q>(alloc: Global, tree: &'q BoundExpr, local: bool) -> Result<Leaf<'q>, NoMemory>
    ensures { IfOk result (λ l. leaf_of l ≡ leaf_plan local (bound_tree tree.now)) }
{
    let leaf = driven_leaf(alloc, tree)?;
    if local {
        let lines = local_lines(alloc, &leaf.lines)?;
        return Ok(Leaf {
            tree: leaf.tree,
            label: leaf.label,
            lines,
            driver: None,
            stages: Vec::new(alloc),
        });
    }
    Ok(leaf)
}
