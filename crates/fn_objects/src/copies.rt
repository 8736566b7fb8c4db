//! Lists of copies of items.

ghost use Rattle.std.specs.Prelude.{◌≡◌, ◌++◌, ◌∷◌, [], OnOk, IfOk};

use item_tree::{Item, NoMemory};
use std::alloc::Global;

// These items go behind those that are there.
pub(crate) fn append(out: &mut Vec<Item>, items: &[Item]) -> Result<(), NoMemory>
    ensures { OnOk result (out.new.items ≡ out.old.items ++ items.now) }
{
    for x in items {
        out.push(x.copy()?)?;
    }
    Ok(())
}

// A list of one item.
pub(crate) fn alone(alloc: Global, item: Item) -> Result<Vec<Item>, NoMemory>
    ensures { IfOk result (λ xs. xs.items ≡ item ∷ []) }
{
    let mut out = Vec::new(alloc);
    out.push(item)?;
    Ok(out)
}
