//! Results of one item or one string.

ghost use Rattle.std.specs.Prelude.{◌≡◌, [], ◌∷◌, IfOk};
ghost use Rattle.std.specs.Str.{chars};
ghost use Rattle.std.specs.String.{string_bytes};
ghost use Rattle.item_tree.specs.Item.{datum, datums};
ghost use Rattle.value_rules.specs.Strings.{one_text};

use item_tree::{Item, NoMemory, Str};
use std::alloc::Global;

/// A sequence of one item.
pub(crate) fn one_item(alloc: Global, item: Item) -> Result<Vec<Item>, NoMemory>
    ensures { IfOk result (λ xs. datums xs.items ≡ datum item ∷ []) }
{
    let mut items = Vec::with_capacity(alloc, 1)?;
    items.push_reserved(item);
    Ok(items)
}

/// A sequence of one string.
pub(crate) fn one_str(alloc: Global, text: &str) -> Result<Vec<Item>, NoMemory>
    ensures { IfOk result (λ xs. datums xs.items ≡ one_text (chars text.now)) }
{
    let text = Str::of(alloc, text)?;
    one_item(alloc, Item::Text(text))
}

/// A sequence of one string, without a second copy of it.
pub(crate) fn one_string(alloc: Global, text: String) -> Result<Vec<Item>, NoMemory>
    ensures { IfOk result (λ xs. datums xs.items ≡ one_text (chars (string_bytes text))) }
{
    let text = Str::from_string(alloc, text)?;
    one_item(alloc, Item::Text(text))
}
