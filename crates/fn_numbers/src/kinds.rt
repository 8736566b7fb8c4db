//! The kinds of items that a minimum or a maximum compares.

ghost use Rattle.std.specs.Prelude.{◌≡◌, ◌↔◌, IsTrue};
ghost use Rattle.item_tree.specs.Item.{datum, datums};
ghost use Rattle.item_tree.specs.Classes.{same_class};
ghost use Rattle.value_rules.specs.Numbers.{kin_of, joined_kin, kin};
ghost use Rattle.fn_numbers.specs.inside.Candidates.{kin_value, is_mixed};

use item_tree::{Class, Item};

/// What kind of items a list has, as they are compared.
#[derive(Clone, Copy, Debug)]
pub(crate) enum Kin {
    /// None but null, which goes with every class.
    Unbound,
    /// All but null are of this class.
    Of(Class),
    /// Such as do not compare: an array, an object, or two classes.
    Mixed,
}

/// The kind of one item.
pub(crate) fn kin_of(x: &Item) -> Kin
    ensures { kin_value result ≡ kin_of (datum x.now) }
{
    match x {
        Item::Null => Kin::Unbound,
        Item::Bool(_) => Kin::Of(Class::Boolean),
        Item::Int(_) | Item::Dec(_) => Kin::Of(Class::Number),
        Item::Text(_) => Kin::Of(Class::Text),
        Item::Date(_) => Kin::Of(Class::Date),
        Item::DateTime(_) => Kin::Of(Class::DateTime),
        Item::Array(_) | Item::Object(_) => Kin::Mixed,
    }
}

/// The kind of the items of two lists.
pub(crate) fn joined_kin(k: Kin, l: Kin) -> Kin
    ensures { kin_value result ≡ joined_kin (kin_value k) (kin_value l) }
{
    match (k, l) {
        (Kin::Unbound, l) => l,
        (Kin::Mixed, _) | (_, Kin::Mixed) => Kin::Mixed,
        (k, Kin::Unbound) => k,
        (Kin::Of(c), Kin::Of(d)) => {
            if same_class(c, d) {
                Kin::Of(c)
            } else {
                Kin::Mixed
            }
        }
    }
}

fn same_class(c: Class, d: Class) -> bool
    ensures { result ≡ same_class c d }
{
    c == d
}

pub(crate) fn is_mixed(k: Kin) -> bool
    ensures { result ≡ is_mixed (kin_value k) }
{
    matches!(k, Kin::Mixed)
}

/// The kind of the items of a list.
pub(crate) fn kin_of_all(s: &[Item]) -> Kin
    ensures { kin_value result ≡ kin (datums s.now) }
{
    let mut all = Kin::Unbound;
    for x in s {
        all = joined_kin(all, kin_of(x));
    }
    all
}
