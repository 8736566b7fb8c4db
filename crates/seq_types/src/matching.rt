//! Whether a sequence fits a type.

ghost use Rattle.std.specs.Prelude.{◌≡◌};
ghost use Rattle.std.specs.List.{list_all};
ghost use Rattle.item_tree.specs.Item.{datum, datums};
ghost use Rattle.seq_types.specs.Fits.{allows, is_of, fits};

use crate::{ItemType, SeqType, Times};
use item_tree::Item;

/// Whether the sequence fits the type: it has as many items as the type allows, each of the type's
/// own type of items.
pub fn matches(s: &[Item], t: &SeqType) -> bool
    ensures { result ≡ fits t.now (datums s.now) }
{
    match *t {
        SeqType::Empty => s.is_empty(),
        SeqType::Of { item, times } => allows(times, s.len()) && all_are(item, s),
    }
}

fn allows(times: Times, count: usize) -> bool
    ensures { result ≡ allows times count }
{
    match times {
        Times::One => count == 1,
        Times::Optional => count <= 1,
        Times::Any => true,
        Times::Many => count >= 1,
    }
}

fn all_are(t: ItemType, s: &[Item]) -> bool
    ensures { result ≡ list_all (λ x. is_of t (datum x)) s.now }
{
    s.iter().all(|x| is_of(t, x))
}

fn is_of(t: ItemType, x: &Item) -> bool
    ensures { result ≡ is_of t (datum x.now) }
{
    match t {
        ItemType::Item => true,
        ItemType::JsonItem => matches!(x, Item::Object(_) | Item::Array(_)),
        ItemType::Object => matches!(x, Item::Object(_)),
        ItemType::Array => matches!(x, Item::Array(_)),
        ItemType::Atomic => !matches!(x, Item::Object(_) | Item::Array(_)),
        ItemType::Text => matches!(x, Item::Text(_)),
        ItemType::Integer => matches!(x, Item::Int(_)),
        ItemType::Decimal => matches!(x, Item::Int(_) | Item::Dec(_)),
        ItemType::Boolean => matches!(x, Item::Bool(_)),
        ItemType::Null => matches!(x, Item::Null),
        ItemType::Date => matches!(x, Item::Date(_)),
        ItemType::DateTime => matches!(x, Item::DateTime(_)),
    }
}
