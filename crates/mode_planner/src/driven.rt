//! Expressions that a driver drives.

ghost use Rattle.std.specs.Prelude.{◌≡◌, option_map, IfOk};
ghost use Rattle.query_tree.specs.BoundViews.{bound_tree, bound_clauses};
ghost use Rattle.mode_planner.specs.Drivers.{target_driver, clauses_driver};
ghost use Rattle.mode_planner.specs.Plans.{driven_call, driven_flwor, driven};
ghost use Rattle.mode_planner.specs.inside.Views.{driven_of};

use crate::clauses::{clause_lines, clause_stages};
use crate::drivers::{BoundClause, clauses_driver, target_driver};
use crate::{Driver, End, Label, Line, Mode, Stage};
use item_tree::NoMemory;
use query_tree::{BoundExpr, Kind, Target};
use std::alloc::Global;

/// The lines, the driver and the stages of an expression that has a driver.
#[derive(Drop)]
pub(crate) struct Driven<'q> {
    pub lines: Vec<Line>,
    pub driver: Driver<'q>,
    pub stages: Vec<Stage>,
}

// Of a call of this target at this place, where the last stage has this end.
fn driven_call<'q>(
    alloc: Global,
    place: u32,
    target: &'q Target,
    end: End,
) -> Result<Option<Driven<'q>>, NoMemory>
    ensures { IfOk result (λ d. option_map driven_of d
        ≡ option_map (driven_call end) (target_driver place target.now)) }
{
    let Some(driver) = target_driver(place, target) else {
        return Ok(None);
    };
    let line = Line {
        place: driver.place,
        label: Label::JsonLines,
        mode: Mode::Partitioned,
    };
    let stage = Stage {
        first: 0,
        last: 0,
        end,
    };
    let lines = vec![in alloc; line]?;
    let stages = vec![in alloc; stage]?;
    Ok(Some(Driven {
        lines,
        driver,
        stages,
    }))
}

// Of a FLWOR with these clauses and with `return` at this place.
fn driven_flwor<'q>(
    alloc: Global,
    clauses: &'q [BoundClause],
    place: u32,
    end: End,
) -> Result<Option<Driven<'q>>, NoMemory>
    ensures { IfOk result (λ d. option_map driven_of d
        ≡ option_map (driven_flwor end (bound_clauses clauses.now) place)
        (clauses_driver 0 (bound_clauses clauses.now))) }
{
    if clauses.len() >= u32::MAX as usize {
        return Err(NoMemory);
    }
    let Some(driver) = clauses_driver(clauses) else {
        return Ok(None);
    };
    let mut lines = clause_lines(alloc, driver.lets, clauses)?;
    lines.push(Line {
        place,
        label: Label::Return,
        mode: Mode::Partitioned,
    })?;
    let stages = clause_stages(alloc, driver.lets, clauses, end)?;
    Ok(Some(Driven {
        lines,
        driver,
        stages,
    }))
}

/// Of an expression, if it has a driver. The last stage has this end.
#[tactic(auto, using(query_tree::proofs::Layers::layers))]
pub(crate) fn driven_tree<'q>(
    alloc: Global,
    tree: &'q BoundExpr,
    end: End,
) -> Result<Option<Driven<'q>>, NoMemory>
    ensures { IfOk result (λ d. option_map driven_of d ≡ driven end (bound_tree tree.now)) }
{
    match &tree.kind {
        Kind::Call { function, .. } => driven_call(alloc, tree.place, function, end),
        Kind::Flwor { clauses, place, .. } => driven_flwor(alloc, clauses, *place, end),
        _ => Ok(None),
    }
}
