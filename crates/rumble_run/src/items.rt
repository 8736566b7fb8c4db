//! The items of an input, line by line.

ghost use Rattle.std.specs.Prelude.{◌≡◌, ◌≤◌, ◌∷◌, length, Ok, Err, IfOk, IfErr, IfSome, option_copied};
ghost use Rattle.item_tree.specs.Item.{datums};
ghost use Rattle.item_reader.specs.Lines.{cut};
ghost use Rattle.item_reader.specs.inside.Items.{items_of};
ghost use Rattle.item_reader.specs.Faults.{code_of};
ghost use Rattle.rumble_run.specs.inside.Cuts.{lines_of, left_length};
ghost use Rattle.rumble_run.specs.inside.Printing.{Prints};

use crate::mark::without_mark;
use crate::print::Printed;
use byte_lanes::first_newline;
use item_reader::{LineFault, Reader};
use item_tree::Item;
use std::alloc::Global;

// The first line, and what stands behind its line feed, where it has one.
fn split_line(input: &[u8]) -> (&[u8], Option<&[u8]>)
    ensures line { cut input.now ≡ result.0.now ∷ lines_of (option_copied result.1) }
    ensures shorter { left_length (option_copied result.1) ≤ length input.now }
{
    match first_newline(input) {
        Some(end) => (&input[..end], Some(&input[end + 1..])),
        None => (input, None),
    }
}

// The lines of an input of which no item was given yet.
#[derive(Drop)]
struct Lines<'a> {
    reader: Reader,
    // What stands behind the last line feed, where anything does.
    left: Option<&'a [u8]>,
}

impl<'a> Lines<'a> {
    ghost use Rattle.std.specs.Prelude.{◌≡◌, ◌<◌, Err, IfOk, IfErr, IfSome, option_copied};
    ghost use Rattle.item_reader.specs.Faults.{code_of};
    ghost use Rattle.item_reader.specs.inside.Items.{items_of};
    ghost use Rattle.rumble_run.specs.inside.Cuts.{left_length, left_read, GivesNext};

    // All lines of an input.
    fn of(alloc: Global, input: &'a [u8]) -> Lines<'a>
        ensures { left_read (option_copied result.left) ≡ items_of input.now }
    {
        Lines {
            reader: Reader::new(alloc),
            left: Some(without_mark(input)),
        }
    }

    // The next item, if there is one more, or the fault of a line before it.
    fn next_item(&mut self) -> Result<Option<Item>, LineFault>
        ensures item { IfOk result (GivesNext (left_read (option_copied self.old.left))
            (left_read (option_copied self.new.left))) }
        ensures shorter { IfOk result (λ o. IfSome o (λ _.
            left_length (option_copied self.new.left)
            < left_length (option_copied self.old.left))) }
        ensures fault { IfErr result (λ f. IfSome (code_of f) (λ c.
            left_read (option_copied self.old.left) ≡ Err c)) }
    {
        'blank: while let Some(bytes) = self.left {
            let (line, behind) = split_line(bytes);
            self.left = behind;
            if let Some(item) = self.reader.read(line)? {
                return Ok(Some(item));
            }
        }
        Ok(None)
    }
}

/// The items of an input's lines in order, or the fault of the first line that has one.
pub(crate) fn read_items(alloc: Global, input: &[u8]) -> Result<Vec<Item>, LineFault>
    ensures items { IfOk result (λ v. items_of input.now ≡ Ok (datums v.items)) }
    ensures fault { IfErr result (λ f. IfSome (code_of f) (λ c. items_of input.now ≡ Err c)) }
{
    let mut items = Vec::new(alloc);
    let mut lines = Lines::of(alloc, input);
    'reading: while let Some(item) = lines.next_item()? {
        items.push(item)?;
    }
    Ok(items)
}

/// The same items, of which none is kept: each is printed as soon as it is read.
pub(crate) fn print_lines(alloc: Global, input: &[u8]) -> Result<Printed, LineFault>
    ensures items { IfOk result (λ p. Prints (items_of input.now) p.items p.out.items) }
    ensures fault { IfErr result (λ f. IfSome (code_of f) (λ c. items_of input.now ≡ Err c)) }
{
    let mut printed = Printed::new(alloc);
    let mut lines = Lines::of(alloc, input);
    'printing: while let Some(item) = lines.next_item()? {
        printed.push(item)?;
    }
    Ok(printed)
}
