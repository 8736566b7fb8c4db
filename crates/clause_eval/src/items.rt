//! Lists of items, one behind another.

ghost use Rattle.std.specs.Prelude.{◌++◌, ◌∷◌, [], Ok};
ghost use Rattle.item_tree.specs.Item.{datum, datums};
ghost use Rattle.query_meaning.specs.inside.Gives.{Gives};
ghost use Rattle.query_meaning.specs.inside.Views.{items_of, values_of};

use item_tree::Item;
use query_meaning::{EvalFault, Value};

/// One more item behind a list.
pub fn pushed(out: Vec<Item>, item: Item) -> Result<Vec<Item>, EvalFault>
    ensures { Gives values_of result (Ok (values_of out ++ datum item ∷ [])) }
{
    let mut out = out;
    out.push(item)?;
    Ok(out)
}

/// Copies of items behind a list, each in constant time.
pub fn with_copies(out: Vec<Item>, items: &[Item]) -> Result<Vec<Item>, EvalFault>
    ensures { Gives values_of result (Ok (values_of out ++ datums items.now)) }
{
    let mut out = out;
    for item in items {
        out.push(item.copy()?)?;
    }
    Ok(out)
}

/// The items of a list behind another, each moved.
fn with_moved(out: Vec<Item>, items: Vec<Item>) -> Result<Vec<Item>, EvalFault>
    ensures { Gives values_of result (Ok (values_of out ++ values_of items)) }
{
    let mut out = out;
    for item in items {
        out.push(item)?;
    }
    Ok(out)
}

/// The items of a value behind a list. Items that were made for the value alone are moved.
pub fn added<'a>(out: Vec<Item>, value: Value<'a>) -> Result<Vec<Item>, EvalFault>
    ensures { Gives values_of result (Ok (values_of out ++ items_of value.entry)) }
{
    match value {
        Value::One(item) => pushed(out, item),
        Value::Made(items) => with_moved(out, items),
        other => with_copies(out, other.items()),
    }
}
