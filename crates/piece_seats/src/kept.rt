//! What is kept of items that come out of a piece.

ghost use Rattle.std.specs.Prelude.{◌++◌, [], List, IfOk, OnOk};
ghost use Rattle.item_tree.specs.Datum.{Datum};
ghost use Rattle.item_tree.specs.Item.{datums};

use item_tree::{Item, NoMemory};
use std::alloc::Global;

/// What is kept of items, as their text or their sum. `stands` says of which items it may be kept.
pub trait ItemsKept: Drop {
    ghost stands: { Self → List Datum → Type 0 };

    /// What is kept of no items.
    fn nothing(alloc: Global) -> Self
        ensures { stands result [] };

    /// Items come after those of which this is kept.
    fn add(&mut self, items: &[Item]) -> Result<(), NoMemory>
        ensures { OnOk result ((ds : List Datum) → stands self.old ds
            → stands self.new (ds ++ datums items.now)) };

    /// What is kept of these items, and after them of later ones.
    fn follow(self, later: Self) -> Result<Self, NoMemory>
        ensures { IfOk result (λ r. (a b : List Datum) → stands self a → stands later b
            → stands r (a ++ b)) };
}
