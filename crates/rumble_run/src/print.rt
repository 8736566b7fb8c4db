//! Prints items, each on a line of its own.

ghost use Rattle.std.specs.Prelude.{◌≡◌, IfOk, OnOk, ◌++◌, ◌∷◌, []};
ghost use Rattle.item_tree.specs.Item.{datum, datums};
ghost use Rattle.rumble_run.specs.Answer.{output_of};

use item_printer::print_item;
use item_tree::{Item, NoMemory};
use std::alloc::Global;

/// What is printed of some items, each on a line of its own, and how many they are.
#[derive(Drop)]
pub(crate) struct Printed {
    pub items: usize,
    pub out: Vec<u8>,
}

impl Printed {
    ghost use Rattle.std.specs.Prelude.{◌≡◌, ◌≤◌, ◌+◌, ◌++◌, ◌∷◌, [], length, OnOk};
    ghost use Rattle.item_tree.specs.Item.{datum};
    ghost use Rattle.rumble_run.specs.Answer.{output_of};

    /// Nothing so far.
    pub fn new(alloc: Global) -> Printed
        ensures items { result.items ≡ 0 }
        ensures out { result.out.items ≡ [] }
    {
        Printed {
            items: 0,
            out: Vec::new(alloc),
        }
    }

    /// One item more, which is let go. There are no more items than bytes, so their number fits.
    pub fn push(&mut self, item: Item) -> Result<(), NoMemory>
        requires { self.old.items ≤ length self.old.out.items }
        ensures items { OnOk result (self.new.items ≡ self.old.items + 1) }
        ensures out { OnOk result (self.new.out.items
            ≡ self.old.out.items ++ output_of (datum item ∷ [])) }
    {
        print_line(&item, &mut self.out)?;
        drop(item);
        self.items += 1;
        Ok(())
    }
}

// Adds an item on a line of its own.
fn print_line(item: &Item, out: &mut Vec<u8>) -> Result<(), NoMemory>
    ensures { OnOk result (out.new.items ≡ out.old.items ++ output_of (datum item.now ∷ [])) }
{
    print_item(item, out)?;
    out.push(b'\n')?;
    Ok(())
}

/// Items in order, each on a line of its own.
pub(crate) fn print_items(alloc: Global, items: &[Item]) -> Result<Vec<u8>, NoMemory>
    ensures { IfOk result (λ out. out.items ≡ output_of (datums items.now)) }
{
    let mut out = Vec::new(alloc);
    for item in items {
        print_line(item, &mut out)?;
    }
    Ok(out)
}
