//! Plans as text, for the tests: a line for each part, and a stroke after it; after the lines of a
//! leaf that has a driver stand the driver and the stages, in brackets.

use item_tree::Str;
use mode_planner::{Driver, End, Leaf, Line, Plan, Stage};
use std::alloc::Global;
use std::test::Fail;

// The line and the column of a place, both from 1, in a query that is all ASCII.
fn line_column(query: &str, place: u32) -> (u32, u32) {
    let mut line = 1u32;
    let mut column = 1u32;
    for byte in query.bytes().take(place as usize) {
        if byte == b'\n' {
            line = line.wrapping_add(1);
            column = 1;
        } else {
            column = column.wrapping_add(1);
        }
    }
    (line, column)
}

fn push_line(alloc: Global, out: &mut String, query: &str, line: &Line) -> Result<(), Fail> {
    let (row, column) = line_column(query, line.place);
    let label = line.label.word();
    let mode = line.mode.word();
    let text = format!(in alloc; "{row}:{column} {label} {mode}/")?;
    out.push_str(text.as_str())?;
    Ok(())
}

fn end_word(end: End) -> &'static str {
    match end {
        End::Groups => "groups",
        End::Orders => "orders",
        End::Numbers => "numbers",
        End::Items => "items",
        End::Part(id) => id.name(),
    }
}

fn push_stage(alloc: Global, out: &mut String, stage: &Stage) -> Result<(), Fail> {
    let first = stage.first;
    let last = stage.last;
    let end = end_word(stage.end);
    let text = format!(in alloc; " {first}-{last} {end}")?;
    out.push_str(text.as_str())?;
    Ok(())
}

// The place of a driver, its names, how many `let`s stand before it and whether it has an `at`.
fn push_driver(
    alloc: Global,
    out: &mut String,
    query: &str,
    driver: &Driver<'_>,
) -> Result<(), Fail> {
    let (row, column) = line_column(query, driver.place);
    let lets = driver.lets;
    let at = if driver.position { " at" } else { "" };
    let text = format!(in alloc; "{row}:{column}")?;
    out.push_str(text.as_str())?;
    for name in driver.names.as_slice() {
        out.push(' ')?;
        out.push_str(name.as_str())?;
    }
    let text = format!(in alloc; " {lets}{at},")?;
    out.push_str(text.as_str())?;
    Ok(())
}

fn push_leaf(alloc: Global, out: &mut String, query: &str, leaf: &Leaf<'_>) -> Result<(), Fail> {
    for line in &leaf.lines {
        push_line(alloc, out, query, line)?;
    }
    if let Some(driver) = &leaf.driver {
        out.push('[')?;
        push_driver(alloc, out, query, driver)?;
        for stage in &leaf.stages {
            push_stage(alloc, out, stage)?;
        }
        out.push_str("]/")?;
    }
    Ok(())
}

/// The plan of a query as text.
pub(crate) fn plan_text(alloc: Global, query: &str, plan: &Plan<'_>) -> Result<String, Fail> {
    let mut out = String::new(alloc);
    for leaf in &plan.leaves {
        push_leaf(alloc, &mut out, query, leaf)?;
    }
    Ok(out)
}

/// Names with a blank between them.
pub(crate) fn names_text(alloc: Global, names: &[Str]) -> Result<String, Fail> {
    let mut out = String::new(alloc);
    for name in names {
        if !out.is_empty() {
            out.push(' ')?;
        }
        out.push_str(name.as_str())?;
    }
    Ok(out)
}

/// Whether each driver stands once, as a word.
pub(crate) fn once_text(alloc: Global, once: bool) -> Result<String, Fail> {
    let word = if once { "once" } else { "otherwise" };
    Ok(String::from_str(alloc, word)?)
}
