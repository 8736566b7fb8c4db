//! Results of one item.

ghost use Rattle.std.specs.Prelude.{◌≡◌, [], ◌∷◌, IfOk};
ghost use Rattle.item_tree.specs.Item.{datum, datums};

use item_tree::{Item, NoMemory};
use std::alloc::Global;

/// A sequence of one item.
pub(crate) fn one_item(alloc: Global, item: Item) -> Result<Vec<Item>, NoMemory>
    ensures { IfOk result (λ xs. datums xs.items ≡ datum item ∷ []) }
{
    let mut items = Vec::with_capacity(alloc, 1)?;
    items.push_reserved(item);
    Ok(items)
}
