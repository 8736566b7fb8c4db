//! The lines and the stages of the clauses of a FLWOR that has a driver.

ghost use Rattle.std.specs.Prelude.{◌≡◌, ◌+◌, ◌<◌, ◌^◌, length, IfOk};
ghost use Rattle.query_tree.specs.BoundViews.{bound_clause, bound_clauses};
ghost use Rattle.mode_planner.specs.Clauses.{line, clause_label, clause_place, clause_mode, clause_end, mode_of, lines_from, stages_from};

use crate::drivers::BoundClause;
use crate::{End, Label, Line, Mode, Stage};
use item_tree::NoMemory;
use query_tree::Clause;
use std::alloc::Global;

// The line of the driver's clause or of a clause after it.
#[tactic(auto, using(query_tree::proofs::Layers::layers))]
fn clause_line(clause: &BoundClause) -> Line
    ensures { result ≡ line (clause_place (bound_clause clause.now))
        (clause_label (bound_clause clause.now)) (clause_mode (bound_clause clause.now)) }
{
    let (place, label, mode) = match clause {
        Clause::For { variable, .. } => (variable.place, Label::For, Mode::Partitioned),
        Clause::Let { variable, .. } => (variable.place, Label::Let, Mode::Partitioned),
        Clause::Where { place, .. } => (*place, Label::Where, Mode::Partitioned),
        Clause::Group { place, .. } => (*place, Label::Group, Mode::Gathered),
        Clause::Order { place, .. } => (*place, Label::Order, Mode::Gathered),
        Clause::Count { place, .. } => (*place, Label::Count, Mode::Gathered),
    };
    Line { place, label, mode }
}

// The line of the clause of this number, where that many `let`s stand before the driver.
fn numbered_line(lets: u32, number: u32, clause: &BoundClause) -> Line
    ensures { result ≡ line (clause_place (bound_clause clause.now))
        (clause_label (bound_clause clause.now)) (mode_of lets number (bound_clause clause.now)) }
{
    let mut line = clause_line(clause);
    if number <= lets {
        line.mode = Mode::Local;
    }
    line
}

/// The lines of clauses, where that many `let`s stand before the driver.
pub(crate) fn clause_lines(
    alloc: Global,
    lets: u32,
    clauses: &[BoundClause],
) -> Result<Vec<Line>, NoMemory>
    requires few { length clauses.now + 1 < 2 ^ 32 }
    ensures { IfOk result (λ v. v.items ≡ lines_from lets 1 (bound_clauses clauses.now)) }
{
    let mut lines = Vec::new(alloc);
    let mut number = 1u32;
    for clause in clauses {
        lines.push(numbered_line(lets, number, clause))?;
        number += 1;
    }
    Ok(lines)
}

// The end of the stage that a gathered clause ends.
#[tactic(auto, using(query_tree::proofs::Layers::layers))]
fn clause_end(clause: &BoundClause) -> Option<End>
    ensures { result ≡ clause_end (bound_clause clause.now) }
{
    match clause {
        Clause::Group { .. } => Some(End::Groups),
        Clause::Order { .. } => Some(End::Orders),
        Clause::Count { .. } => Some(End::Numbers),
        Clause::For { .. } | Clause::Let { .. } | Clause::Where { .. } => None,
    }
}

/// The stages of clauses, where that many `let`s stand before the driver, and the last stage has
/// this end.
pub(crate) fn clause_stages(
    alloc: Global,
    lets: u32,
    clauses: &[BoundClause],
    end: End,
) -> Result<Vec<Stage>, NoMemory>
    requires few { length clauses.now + 1 < 2 ^ 32 }
    ensures { IfOk result (λ v. v.items ≡ stages_from lets 1 end (bound_clauses clauses.now)) }
{
    let mut stages = Vec::new(alloc);
    let mut first = lets;
    let mut number = 1u32;
    for clause in clauses {
        if let Some(gathered) = clause_end(clause) {
            stages.push(Stage {
                first,
                last: number,
                end: gathered,
            })?;
            first = number + 1;
        }
        number += 1;
    }
    stages.push(Stage {
        first,
        last: number,
        end,
    })?;
    Ok(stages)
}
