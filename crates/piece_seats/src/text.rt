//! The items of a stage, as their printed text.

ghost use Rattle.std.specs.Prelude.{◌≡◌, ◌++◌, IfOk, OnOk};
ghost use Rattle.item_tree.specs.Item.{datums};
ghost use Rattle.piece_seats.specs.Texts.{text_lines};

use crate::counts::counted;
use crate::kept::ItemsKept;
use item_printer::print_item;
use item_tree::{Item, NoMemory};
use std::alloc::Global;

/// Items that are printed, each on a line of its own, and how many they are.
#[derive(Debug, Drop)]
pub struct Text {
    /// What is printed.
    pub bytes: Vec<u8>,
    /// The number of items.
    pub items: u64,
}

// Adds items, each on a line of its own.
fn print_items(items: &[Item], out: &mut Vec<u8>) -> Result<(), NoMemory>
    ensures { OnOk result (out.new.items ≡ out.old.items ++ text_lines (datums items.now)) }
{
    for item in items {
        print_item(item, out)?;
        out.push(b'\n')?;
    }
    Ok(())
}

// One text after another.
fn bytes_behind(bytes: Vec<u8>, later: Vec<u8>) -> Result<Vec<u8>, NoMemory>
    ensures { IfOk result (λ v. v.items ≡ bytes.items ++ later.items) }
{
    let mut bytes = bytes;
    let mut later = later;
    bytes.append(&mut later)?;
    Ok(bytes)
}

impl ItemsKept for Text {
    ghost use Rattle.piece_seats.specs.Texts.{IsTextOf};

    ghost stands = { λ t ds. IsTextOf ds t.bytes.items t.items };

    fn nothing(alloc: Global) -> Text {
        Text {
            bytes: Vec::new(alloc),
            items: 0,
        }
    }

    fn add(&mut self, items: &[Item]) -> Result<(), NoMemory> {
        let count = counted(self.items, items.len() as u64)?;
        print_items(items, &mut self.bytes)?;
        self.items = count;
        Ok(())
    }

    fn follow(self, later: Text) -> Result<Text, NoMemory> {
        let items = counted(self.items, later.items)?;
        let bytes = bytes_behind(self.bytes, later.bytes)?;
        Ok(Text { bytes, items })
    }
}
