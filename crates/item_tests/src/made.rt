//! Items that several tests are made of.

use item_tree::{Item, Str, Units, Whole, array_of, object_of};
use std::alloc::Global;
use std::test::Fail;

pub fn text(alloc: Global, s: &str) -> Result<Item, Fail> {
    Ok(Item::Text(Str::of(alloc, s)?))
}

pub fn whole(n: u32) -> Item {
    Item::Int(Whole::new(i128::from(n)))
}

// One or more items of each class, with an integer and a decimal that are equal.
pub fn samples(alloc: Global) -> Result<Vec<Item>, Fail> {
    let mut items = vec![in alloc;
        Item::Null,
        Item::Bool(false),
        Item::Bool(true),
        Item::Int(Whole::new(-1)),
        Item::Int(Whole::new(1)),
        Item::Dec(Units::new(1_000_000)),
        Item::Dec(Units::new(1_500_000)),
    ]?;
    for s in ["", "\u{ffff}", "\u{10000}"] {
        items.push(text(alloc, s)?)?;
    }
    items.push(array_of(alloc, Vec::new(alloc))?)?;
    items.push(object_of(alloc, Vec::new(alloc))?)?;
    Ok(items)
}

// The sequence of this item alone.
pub fn one(item: &Item, alloc: Global) -> Result<Vec<Item>, Fail> {
    Ok(vec![in alloc; item.copy()?]?)
}

// The item in so many arrays.
pub fn nested(alloc: Global, depth: u8) -> Result<Item, Fail> {
    let mut item = Item::Null;
    for _ in 0..depth {
        item = array_of(alloc, vec![in alloc; item]?)?;
    }
    Ok(item)
}

// The pairs `k0`, `k1` and so on, with their numbers. The pair at `again` has the first one's key.
pub fn numbered(alloc: Global, count: u32, again: Option<u32>) -> Result<Vec<(Str, Item)>, Fail> {
    let mut pairs = Vec::new(alloc);
    for i in 0..count {
        let name = if Some(i) == again { 0 } else { i };
        let key = format!(in alloc; "k{name}")?;
        pairs.push((Str::from_string(alloc, key)?, whole(i)))?;
    }
    Ok(pairs)
}

// The object with its pairs turned round.
pub fn reversed(alloc: Global, object: Item) -> Result<Item, Fail> {
    let Item::Object(pairs) = object else {
        return Ok(object);
    };
    let mut pairs = pairs.into_vec()?;
    pairs.reverse();
    Ok(object_of(alloc, pairs)?)
}
