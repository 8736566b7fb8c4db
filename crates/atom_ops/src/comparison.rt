//! Comparisons of two values, and of the pairs of two sequences.

ghost use Rattle.std.specs.Prelude.{◌≡◌};
ghost use Rattle.item_tree.specs.Item.{datum, datums};
ghost use Rattle.atom_ops.specs.Comparison.{holds, compared, value_comparison, pair_comparison, comparison_with, general_comparison};

use item_tree::{Code, Item, cmp_atoms};
use std::cmp::Ordering;
use value_rules::{atomic, one_atomic};

/// A comparison: equal, not equal, less, less or equal, greater, greater or equal.
#[derive(Clone, Copy, Debug, PartialEq, Eq)]
pub enum Cmp {
    Eq,
    Ne,
    Lt,
    Le,
    Gt,
    Ge,
}

/// Compares two atomics. `None` exactly where an operand is empty, whatever the other one is. Else
/// the left one is checked whole before the right one, and atomics that don't compare are an error.
pub fn value_cmp(op: Cmp, a: &[Item], b: &[Item]) -> Result<Option<bool>, Code>
    ensures { result ≡ value_comparison op (datums a.now) (datums b.now) }
{
    if a.is_empty() || b.is_empty() {
        return Ok(None);
    }
    let x = one_atomic(a)?;
    let y = one_atomic(b)?;
    Ok(Some(compare(op, x, y)?))
}

/// Whether some item on the left and some item on the right compare so. Pairs are taken in order,
/// left items outermost, until one holds or is an error.
pub fn general_cmp(op: Cmp, a: &[Item], b: &[Item]) -> Result<bool, Code>
    ensures { result ≡ general_comparison op (datums a.now) (datums b.now) }
{
    for x in a {
        if some_compares(op, x, b)? {
            return Ok(true);
        }
    }
    Ok(false)
}

/// Whether the item and some item on the right compare so.
fn some_compares(op: Cmp, x: &Item, b: &[Item]) -> Result<bool, Code>
    ensures { result ≡ comparison_with op (datum x.now) (datums b.now) }
{
    for y in b {
        if compare_items(op, x, y)? {
            return Ok(true);
        }
    }
    Ok(false)
}

fn compare_items(op: Cmp, x: &Item, y: &Item) -> Result<bool, Code>
    ensures { result ≡ pair_comparison op (datum x.now) (datum y.now) }
{
    compare(op, atomic(x)?, atomic(y)?)
}

fn compare(op: Cmp, x: &Item, y: &Item) -> Result<bool, Code>
    ensures { result ≡ compared op (datum x.now) (datum y.now) }
{
    match cmp_atoms(x, y) {
        None => Err(Code::XPTY0004),
        Some(order) => Ok(holds(op, order)),
    }
}

fn holds(op: Cmp, order: Ordering) -> bool
    ensures { result ≡ holds op order }
{
    match op {
        Cmp::Eq => order == Ordering::Equal,
        Cmp::Ne => order != Ordering::Equal,
        Cmp::Lt => order == Ordering::Less,
        Cmp::Le => order != Ordering::Greater,
        Cmp::Gt => order == Ordering::Greater,
        Cmp::Ge => order != Ordering::Less,
    }
}
