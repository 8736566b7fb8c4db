//! The items of lines that are lent.

ghost use Rattle.std.specs.Prelude.{◌≡◌, [], ◌∷◌, Err};
ghost use Rattle.item_tree.specs.Datum.{Datum};
ghost use Rattle.item_tree.specs.Item.{datum};
ghost use Rattle.item_reader.specs.Outcomes.{Raises};
ghost use Rattle.json_text.specs.Line.{Reading};
ghost use Rattle.line_pieces.specs.Pieces.{lent_line};
ghost use Rattle.query_meaning.specs.Outcome.{each};
ghost use Rattle.query_meaning.specs.inside.Gives.{Gives, FailsAs};
ghost use Rattle.query_meaning.specs.inside.Views.{values_of};
ghost use Rattle.clause_stages.specs.Drivers.{line_item};
ghost use Rattle.clause_stages.specs.InputLines.{item_read, line_read};

use item_reader::{LineFault, Reader};
use item_tree::{Code, Item};
use line_pieces::{LentLine, Lines};
use query_meaning::EvalFault;
use std::alloc::Global;

// The fault of a line, which is raised at the call that reads the input.
fn line_fault(fault: LineFault, place: u32) -> EvalFault
    ensures { (r : Reading) → Raises r fault → FailsAs {Y = Datum} result (item_read place r) }
{
    match fault.code() {
        Some(code) => EvalFault::raised(code, place),
        None => EvalFault::NoMemory,
    }
}

// The item of a line.
fn read_line(reader: &mut Reader, place: u32, line: LentLine<'_>) -> Result<Item, EvalFault>
    ensures { Gives datum result (line_read place (lent_line line.entry)) }
{
    match reader.read(line.bytes) {
        Ok(Some(item)) => Ok(item),
        Ok(None) => Err(EvalFault::raised(Code::JNDY0021, place)),
        Err(fault) => Err(line_fault(fault, place)),
    }
}

/// The items of these lines in order, or the fault of the first one that has one, raised at the
/// place of the call that reads the input.
pub(crate) fn read_items(
    alloc: Global,
    reader: &mut Reader,
    place: u32,
    lines: Lines<'_>,
) -> Result<Vec<Item>, EvalFault>
    ensures { Gives values_of result (each (line_item (line_read place)) lines.entry) }
{
    let mut items = Vec::new(alloc);
    let mut left = lines;
    'reading: while let Some(line) = left.next_line() {
        let item = read_line(reader, place, line)?;
        items.push(item)?;
    }
    Ok(items)
}
