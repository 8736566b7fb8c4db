//! How keys compare.

ghost use Rattle.std.specs.Prelude.{◌≡◌, option_map, if◌then◌else◌};
ghost use Rattle.item_tree.specs.Item.{datum};
ghost use Rattle.item_tree.specs.Compare.{atom};
ghost use Rattle.tuple_rows.specs.Keys.{key_data};
ghost use Rattle.order_runs.specs.Clashes.{first_key, other_keys};
ghost use Rattle.order_runs.specs.Orders.{keys_order, column_order, key_order, value_order};
ghost use Rattle.order_runs.specs.inside.Ranks.{atom_rank};

use crate::Column;
use item_tree::{Class, Item, cmp_atoms};
use std::cmp::Ordering;

/// How two key lists stand to each other by these columns.
pub(crate) fn compare_keys(columns: &[Column], a: &[Option<Item>], b: &[Option<Item>]) -> Ordering
    ensures { result ≡ keys_order columns.now (key_data a.now) (key_data b.now) }
{
    match columns {
        [] => Ordering::Equal,
        [column, rest @ ..] => match compare_column(*column, first_key(a), first_key(b)) {
            Ordering::Less => Ordering::Less,
            Ordering::Greater => Ordering::Greater,
            Ordering::Equal => compare_keys(rest, other_keys(a), other_keys(b)),
        },
    }
}

fn first_key(keys: &[Option<Item>]) -> Option<&Item>
    ensures { option_map (λ x. datum x.now) result ≡ first_key (key_data keys.now) }
{
    match keys {
        [] => None,
        [key, ..] => key.as_ref(),
    }
}

fn other_keys(keys: &[Option<Item>]) -> &[Option<Item>]
    ensures { key_data result.now ≡ other_keys (key_data keys.now) }
{
    match keys {
        [] => keys,
        [_, others @ ..] => others,
    }
}

fn compare_column(column: Column, a: Option<&Item>, b: Option<&Item>) -> Ordering
    ensures { result ≡ column_order column
        (option_map (λ x. datum x.now) a.entry) (option_map (λ x. datum x.now) b.entry) }
{
    if column.descending {
        compare_key(column.empty_greatest, b, a)
    } else {
        compare_key(column.empty_greatest, a, b)
    }
}

fn compare_key(empty_greatest: bool, a: Option<&Item>, b: Option<&Item>) -> Ordering
    ensures { result ≡ key_order empty_greatest
        (option_map (λ x. datum x.now) a.entry) (option_map (λ x. datum x.now) b.entry) }
{
    match a {
        None => match b {
            None => Ordering::Equal,
            Some(_) => empty_order(empty_greatest),
        },
        Some(x) => match b {
            None => empty_order(!empty_greatest),
            Some(y) => compare_values(x, y),
        },
    }
}

// How an absent key stands to one that is there.
fn empty_order(empty_greatest: bool) -> Ordering
    ensures { result ≡ (if empty_greatest then Ordering.Greater else Ordering.Less) }
{
    if empty_greatest {
        Ordering::Greater
    } else {
        Ordering::Less
    }
}

fn compare_values(a: &Item, b: &Item) -> Ordering
    ensures { result ≡ value_order (datum a.now) (datum b.now) }
{
    match cmp_atoms(a, b) {
        Some(order) => order,
        None => class_rank(a).cmp(&class_rank(b)),
    }
}

fn class_rank(item: &Item) -> u8
    ensures { result ≡ atom_rank (atom (datum item.now)) }
{
    match item.class() {
        Some(Class::Null) => 0,
        Some(Class::Boolean) => 1,
        Some(Class::Number) => 2,
        Some(Class::Text) => 3,
        Some(Class::Date) => 4,
        Some(Class::DateTime) => 5,
        None => 6,
    }
}
