//! Whether two items are the same, written the same way.

ghost use Rattle.std.specs.Prelude.{◌≡◌};
ghost use Rattle.item_tree.specs.Datum.{values, members};
ghost use Rattle.item_tree.specs.Item.{datum, datums, pair_datums};
ghost use Rattle.item_tree.specs.Sameness.{bool_same, same, same_data, same_members};

use crate::{Item, Str};
use std::cmp::Ordering;

// Items are equal where they are the same value. 1 and 1.0 differ, and so do objects whose pairs
// stand in different orders.
impl PartialEq for Item {
    ghost use Rattle.std.specs.Cmp.{partial_equiv_from_equiv};
    ghost use Rattle.item_tree.specs.Item.{datum};
    ghost use Rattle.item_tree.specs.Sameness.{same};
    ghost use Rattle.item_tree.specs.inside.SameValues.{items_same};

    ghost eq = { λ a b. same (datum a) (datum b) };

    ghost laws = { partial_equiv_from_equiv items_same };

    fn eq(&self, other: &Item) -> bool {
        same_item(self, other)
    }
}

impl Eq for Item {
    ghost use Rattle.item_tree.specs.inside.SameValues.{items_same};

    ghost laws = { items_same };
}

#[cycle(same)]
fn same_item(a: &Item, b: &Item) -> bool
    ensures { result ≡ same (datum a.now) (datum b.now) }
{
    match a {
        Item::Null => matches!(b, Item::Null),
        Item::Bool(x) => match b {
            Item::Bool(y) => same_truth(*x, *y),
            _ => false,
        },
        Item::Int(x) => match b {
            Item::Int(y) => x.get() == y.get(),
            _ => false,
        },
        Item::Dec(x) => match b {
            Item::Dec(y) => x.get() == y.get(),
            _ => false,
        },
        Item::Text(x) => match b {
            Item::Text(y) => x == y,
            _ => false,
        },
        Item::Date(x) => match b {
            Item::Date(y) => matches!(x.cmp(y), Ordering::Equal),
            _ => false,
        },
        Item::DateTime(x) => match b {
            Item::DateTime(y) => matches!(x.cmp(y), Ordering::Equal),
            _ => false,
        },
        Item::Array(xs) => match b {
            Item::Array(ys) => same_items(xs.as_slice(), ys.as_slice()),
            _ => false,
        },
        Item::Object(ps) => match b {
            Item::Object(qs) => same_pairs(ps.as_slice(), qs.as_slice()),
            _ => false,
        },
    }
}

fn same_truth(x: bool, y: bool) -> bool
    ensures { result ≡ bool_same x y }
{
    if x { y } else { !y }
}

#[cycle(same)]
fn same_items(a: &[Item], b: &[Item]) -> bool
    ensures { result ≡ same_data (values (datums a.now)) (values (datums b.now)) }
{
    if a.len() != b.len() {
        return false;
    }
    for i in 0..a.len() {
        if !same_item(&a[i], &b[i]) {
            return false;
        }
    }
    true
}

#[cycle(same)]
fn same_pairs(a: &[(Str, Item)], b: &[(Str, Item)]) -> bool
    ensures { result ≡ same_members (members (pair_datums a.now)) (members (pair_datums b.now)) }
{
    if a.len() != b.len() {
        return false;
    }
    for i in 0..a.len() {
        let p = &a[i];
        let q = &b[i];
        if p.0 != q.0 {
            return false;
        }
        if !same_item(&p.1, &q.1) {
            return false;
        }
    }
    true
}
