//! Items that are added up, of which one may be no number.

ghost use Rattle.std.specs.Prelude.{◌≡◌, ◌+◌, ◌^◌, ◌<◌, ℤ, List, IfOk};
ghost use Rattle.item_tree.specs.Datum.{Datum};
ghost use Rattle.item_tree.specs.Item.{datum, datums};
ghost use Rattle.num_fixed.specs.Bounds.{NumberInBounds};
ghost use Rattle.num_fixed.specs.Totals.{tally_of};
ghost use Rattle.num_fixed.specs.declared.number.Number.{Number};
ghost use Rattle.value_rules.specs.Numbers.{addend, mean, total};
ghost use Rattle.fn_numbers.specs.inside.Tallies.{tally_kept, one_more, both, numbers_kept};

use item_tree::{Code, Item};
use num_fixed::{Kind, Number, Total};
use value_rules::told;

/// The exact total of some numbers, or that an item was none.
#[derive(Clone, Copy, Debug)]
pub(crate) enum Tallied {
    Numbers(Total),
    NoNumber,
}

/// How many numbers were added.
pub(crate) fn how_many(tallied: &Tallied) -> u64
    ensures { result ≡ numbers_kept tallied.now }
{
    match tallied {
        Tallied::Numbers(total) => total.count(),
        Tallied::NoNumber => 0,
    }
}

/// The number that an item is.
pub(crate) fn addend(x: &Item) -> Result<Number, Code>
    ensures value { result ≡ addend (datum x.now) }
    ensures within { IfOk result NumberInBounds }
{
    match x {
        Item::Int(n) => Ok(Number::Int(n.get())),
        Item::Dec(m) => Ok(Number::Dec(m.get())),
        _ => Err(Code::FORG0006),
    }
}

/// With one item more.
pub(crate) fn one_more(tallied: Tallied, item: &Item) -> Tallied
    requires { numbers_kept tallied + 1 < 2 ^ 40 }
    ensures { tally_kept result ≡ one_more (tally_kept tallied) (datum item.now) }
{
    let Tallied::Numbers(mut total) = tallied else {
        return Tallied::NoNumber;
    };
    match addend(item) {
        Ok(x) => {
            total.add(&x);
            Tallied::Numbers(total)
        }
        Err(_code) => Tallied::NoNumber,
    }
}

/// With all that was added to a later one.
pub(crate) fn both(earlier: Tallied, later: Tallied) -> Tallied
    requires { numbers_kept earlier + numbers_kept later < 2 ^ 40 }
    ensures { tally_kept result ≡ both (tally_kept earlier) (tally_kept later) }
{
    let Tallied::Numbers(mut total) = earlier else {
        return Tallied::NoNumber;
    };
    let Tallied::Numbers(more) = later else {
        return Tallied::NoNumber;
    };
    total.merge(&more);
    Tallied::Numbers(total)
}

/// The exact sum of the numbers of which this is the total, where it is in bounds.
pub(crate) fn sum_of(sum: &Total) -> Result<Number, Code>
    ensures value { (xs : List Number) → sum.now ≡ tally_of xs → result ≡ total sum.now }
    ensures within { IfOk result NumberInBounds }
{
    let kind = if sum.is_whole() {
        Kind::Whole
    } else {
        Kind::Units
    };
    told(kind, sum.value(kind))
}
