//! The lines of a plan as text.

ghost use Rattle.std.specs.Prelude.{◌≡◌, ◌∷◌, ◌++◌, map, IfOk, OnOk, string_bytes};
ghost use Rattle.std.specs.List.{flat_map};
ghost use Rattle.mode_planner.specs.inside.Views.{leaf_of};
ghost use Rattle.text_places.specs.Places.{IsPlaceOf};
ghost use Rattle.plan_text.specs.Explained.{place_at, line_at, line_text, explain_text};

use item_tree::NoMemory;
use mode_planner::{Line, Plan};
use std::alloc::{AllocError, Global};
use text_places::{Known, LineColumn, onward};

fn place_text(alloc: Global, at: LineColumn) -> Result<String, AllocError>
    ensures { IfOk result (λ s. string_bytes s ≡ place_at at.line at.column) }
{
    let row = at.line;
    let column = at.column;
    format!(in alloc; "{row}:{column}")
}

// A blank and the word of a label, or of a mode.
fn word_text(alloc: Global, word: &str) -> Result<String, AllocError>
    ensures { IfOk result (λ s. string_bytes s ≡ 32 ∷ word.now) }
{
    format!(in alloc; " {word}")
}

// Adds a line that stands here.
fn push_line(alloc: Global, at: LineColumn, line: Line, out: &mut Vec<u8>) -> Result<(), NoMemory>
    ensures { OnOk result (out.new.items ≡ out.old.items ++ line_at at.line at.column line) }
{
    let place = place_text(alloc, at)?;
    let label = word_text(alloc, line.label.word())?;
    let mode = word_text(alloc, line.mode.word())?;
    out.extend_from_slice(place.as_bytes())?;
    out.extend_from_slice(label.as_bytes())?;
    out.extend_from_slice(mode.as_bytes())?;
    out.push(b'\n')?;
    Ok(())
}

// Adds lines of a query in which this place is known, and gives the place of the last of them.
fn push_lines(
    alloc: Global,
    lines: &[Line],
    query: &[u8],
    start: Known,
    out: &mut Vec<u8>,
) -> Result<Known, NoMemory>
    requires { IsPlaceOf query.now start }
    ensures place { IfOk result (λ k. IsPlaceOf query.now k) }
    ensures out { OnOk result (out.new.items
        ≡ out.old.items ++ flat_map (line_text query.now) lines.now) }
{
    let mut known = start;
    for line in lines {
        known = onward(query, known, line.place);
        push_line(alloc, known.at, *line, out)?;
    }
    Ok(known)
}

/// What a plan says of the query whose bytes these are: `LINE:COLUMN WORD MODE` for each part of
/// each leaf, each on a line of its own, in the plan's order.
///
/// The time grows with the length of the query and the number of the lines, where these stand in
/// text order.
///
/// # Errors
///
/// `NoMemory` where memory runs out.
pub fn explain_text(alloc: Global, plan: &Plan<'_>, query: &[u8]) -> Result<Vec<u8>, NoMemory>
    ensures { IfOk result (λ v.
        v.items ≡ explain_text query.now (map leaf_of plan.now.leaves.items)) }
{
    let mut out = Vec::new(alloc);
    let mut known = Known::start();
    for leaf in &plan.leaves {
        known = push_lines(alloc, &leaf.lines, query, known, &mut out)?;
    }
    Ok(out)
}
