//! Arrays of a few integers.

ghost use Rattle.std.specs.Prelude.{◌≡◌, IfOk};
ghost use Rattle.item_tree.specs.Datum.{AllSound, Sound, array_of_list, integer as integer_datum, values};
ghost use Rattle.item_tree.specs.Item.{datum, datums};
ghost use Rattle.item_tree.specs.Few.{integers_in};
ghost use Rattle.item_tree.specs.inside.Held.{items_in, depth_in};

use super::{Held, Item, Items};
use crate::shared::in_block;
use crate::{NoMemory, Whole};
use std::alloc::Global;

/// One to four integers.
#[derive(Clone, Copy, Debug)]
pub enum FewIntegers {
    One(Whole),
    Two(Whole, Whole),
    Three(Whole, Whole, Whole),
    Four(Whole, Whole, Whole, Whole),
}

/// The array of these integers. It is one deep, so that nothing but want of memory refuses it.
#[inline(always)]
pub fn array_of_few(alloc: Global, numbers: FewIntegers) -> Result<Item, NoMemory>
    ensures { IfOk result (λ x. datum x ≡ array_of_list (integers_in numbers)) }
{
    let held = held_few(alloc, numbers)?;
    Ok(Item::Array(Items { held }))
}

#[inline(always)]
fn held_few(alloc: Global, numbers: FewIntegers) -> Result<Held, NoMemory>
    ensures items { IfOk result (λ h. datums (items_in h) ≡ integers_in numbers) }
    ensures depth { IfOk result (λ h. depth_in h ≡ 1) }
    ensures sound { AllSound (values (integers_in numbers)) }
{
    match numbers {
        FewIntegers::One(a) => Ok(Held::One(1, in_block(alloc, [integer(a)])?)),
        FewIntegers::Two(a, b) => { Ok(Held::Two(1, in_block(alloc, [integer(a), integer(b)])?)) }
        FewIntegers::Three(a, b, c) => {
            Ok(Held::Three(1, in_block(alloc, [integer(a), integer(b), integer(c)])?))
        }
        FewIntegers::Four(a, b, c, d) => {
            let items = [integer(a), integer(b), integer(c), integer(d)];
            Ok(Held::Four(1, in_block(alloc, items)?))
        }
    }
}

// An integer as an item. A call of its method brings what always holds of it to the proof.
#[inline(always)]
fn integer(n: Whole) -> Item
    ensures value { datum result ≡ integer_datum n }
    ensures sound { Sound (integer_datum n) }
{
    let _n = n.get();
    Item::Int(n)
}
