//! Items, the values of the query language.

ghost use Rattle.std.specs.Prelude.{◌≡◌, IfOk};
ghost use Rattle.std.specs.Arc.{arc_value};

mod copy;
mod few;
mod find;
mod make;
mod pair_list;

use crate::item::find::{place_among, value_at};
use crate::shared::let_go;
use crate::{Day, Moment, NoMemory, Str, Units, Whole};
pub use few::{FewIntegers, array_of_few};
pub use make::{array_from, array_of, object_from, object_of, object_of_distinct};
pub use pair_list::PairList;
use std::alloc::Global;
use std::collections::BTreeMap;
use std::marker::Model;
use std::sync::Arc;

/// A value of the query language. Contracts speak of the plain value that it stands for, its
/// `datum`. A copy takes constant time.
#[cycle(item)]
#[derive(Debug, Drop)]
pub enum Item {
    Null,
    Bool(bool),
    Int(Whole),
    Dec(Units),
    Text(Str),
    Date(Day),
    DateTime(Moment),
    Array(Items),
    Object(Pairs),
}

/// The items of an array. Copies share one block. No array is more than 128 deep.
#[cycle(item)]
#[derive(Debug, Drop)]
pub struct Items {
    held: Held,
}

// How an array holds its items, behind its depth. A few stand beside the count of the copies, in
// one block of memory in place of two: most arrays are short.
#[cycle(item)]
#[derive(Debug)]
enum Held {
    One(u8, Arc<[Item; 1], Global>),
    Two(u8, Arc<[Item; 2], Global>),
    Three(u8, Arc<[Item; 3], Global>),
    Four(u8, Arc<[Item; 4], Global>),
    Many(u8, Arc<Vec<Item>, Global>),
}

impl Model for Items {
    ghost use Rattle.std.specs.Prelude.{◌≡◌, List};
    ghost use Rattle.std.specs.Coded.{coded_list};
    ghost use Rattle.item_tree.specs.Datum.{Datum, Sound, depth as depth_of, array_of_list};
    ghost use Rattle.item_tree.specs.DatumCode.{datum_code};

    ghost Value = { List Datum };

    ghost coded = { coded_list datum_code };

    ghost use Rattle.item_tree.specs.Item.{datums};
    ghost use Rattle.item_tree.specs.inside.Held.{items_in, depth_in};

    ghost view = { λ a. datums (items_in a.held) };

    ghost invariant = { λ a.
        (depth_in a.held ≡ depth_of (array_of_list (datums (items_in a.held))))
        × Sound (array_of_list (datums (items_in a.held))) };

    ghost size = { λ vs. depth_of (array_of_list vs) };

    ghost use Rattle.std.proofs.Common.{arith};
    ghost use Rattle.item_tree.specs.Falls.{held_falls};

    ghost size_decreases = { λ a h. omega (arith, held_falls a.held) };
}

/// The pairs of an object in order of insertion, with different keys. Copies share one block. No
/// object is more than 128 deep.
#[cycle(item)]
#[derive(Debug, Drop)]
pub struct Pairs {
    held: HeldPairs,
    // Where `into_vec` finds room for a list. It takes none itself.
    alloc: Global,
}

// How an object holds its pairs, behind its depth: a few as an array holds a few items.
#[cycle(item)]
#[derive(Debug)]
enum HeldPairs {
    One(u8, Arc<[(Str, Item); 1], Global>),
    Two(u8, Arc<[(Str, Item); 2], Global>),
    Three(u8, Arc<[(Str, Item); 3], Global>),
    Four(u8, Arc<[(Str, Item); 4], Global>),
    Many(u8, Arc<Shared, Global>),
}

// What the copies of an object with more pairs, or none, share.
#[cycle(item)]
#[derive(Debug, Drop)]
struct Shared {
    pairs: Vec<(Str, Item)>,
    // The position of each key, where there are many.
    places: Option<Arc<BTreeMap<Str, usize>, Global>>,
}

impl Model for Pairs {
    ghost use Rattle.std.specs.Prelude.{List, ℕ};
    ghost use Rattle.std.specs.Coded.{coded_list, coded×, coded_ℕ};
    ghost use Rattle.item_tree.specs.Datum.{Datum, depth as depth_of, object_of_pairs};
    ghost use Rattle.item_tree.specs.Lookup.{IsObjectKept};
    ghost use Rattle.item_tree.specs.DatumCode.{datum_code};

    ghost Value = { List (List ℕ × Datum) };

    ghost coded = { coded_list (coded× (coded_list coded_ℕ) datum_code) };

    ghost use Rattle.item_tree.specs.Item.{pair_datums};
    ghost use Rattle.item_tree.specs.inside.HeldPairs.{pairs_in, pairs_depth_in, places_in};

    ghost view = { λ a. pair_datums (pairs_in a.held) };

    ghost invariant = { λ a.
        IsObjectKept (pairs_depth_in a.held) (places_in a.held) (pair_datums (pairs_in a.held)) };

    ghost size = { λ ps. depth_of (object_of_pairs ps) };

    ghost use Rattle.std.proofs.Common.{arith};
    ghost use Rattle.item_tree.specs.Falls.{held_pairs_fall};

    ghost size_decreases = { λ a h. omega (arith, held_pairs_fall a.held) };
}

impl Drop for Held {
    #[cycle(let_go)]
    fn drop(self) {
        match self {
            Held::One(_, items) => let_go(items),
            Held::Two(_, items) => let_go(items),
            Held::Three(_, items) => let_go(items),
            Held::Four(_, items) => let_go(items),
            Held::Many(_, items) => let_go(items),
        }
    }
}

impl Drop for HeldPairs {
    #[cycle(let_go)]
    fn drop(self) {
        match self {
            HeldPairs::One(_, pairs) => let_go(pairs),
            HeldPairs::Two(_, pairs) => let_go(pairs),
            HeldPairs::Three(_, pairs) => let_go(pairs),
            HeldPairs::Four(_, pairs) => let_go(pairs),
            HeldPairs::Many(_, shared) => let_go(shared),
        }
    }
}

impl Held {
    ghost use Rattle.std.specs.Prelude.{◌≡◌};
    ghost use Rattle.item_tree.specs.inside.Held.{items_in, depth_in};

    fn as_slice(&self) -> &[Item]
        ensures { result.now ≡ items_in self.now }
    {
        match self {
            Held::One(_, items) => items.as_slice(),
            Held::Two(_, items) => items.as_slice(),
            Held::Three(_, items) => items.as_slice(),
            Held::Four(_, items) => items.as_slice(),
            Held::Many(_, items) => items.as_slice(),
        }
    }

    fn depth(&self) -> u8
        ensures { result ≡ depth_in self.now }
    {
        match self {
            Held::One(depth, _) => *depth,
            Held::Two(depth, _) => *depth,
            Held::Three(depth, _) => *depth,
            Held::Four(depth, _) => *depth,
            Held::Many(depth, _) => *depth,
        }
    }
}

impl HeldPairs {
    ghost use Rattle.std.specs.Prelude.{◌≡◌, IfOk, option_map};
    ghost use Rattle.item_tree.specs.Item.{pair_datums};
    ghost use Rattle.item_tree.specs.inside.HeldPairs.{pairs_in, pairs_depth_in, places_in};

    fn as_slice(&self) -> &[(Str, Item)]
        ensures { result.now ≡ pairs_in self.now }
    {
        match self {
            HeldPairs::One(_, pairs) => pairs.as_slice(),
            HeldPairs::Two(_, pairs) => pairs.as_slice(),
            HeldPairs::Three(_, pairs) => pairs.as_slice(),
            HeldPairs::Four(_, pairs) => pairs.as_slice(),
            HeldPairs::Many(_, shared) => shared.pairs.as_slice(),
        }
    }

    fn depth(&self) -> u8
        ensures { result ≡ pairs_depth_in self.now }
    {
        match self {
            HeldPairs::One(depth, _) => *depth,
            HeldPairs::Two(depth, _) => *depth,
            HeldPairs::Three(depth, _) => *depth,
            HeldPairs::Four(depth, _) => *depth,
            HeldPairs::Many(depth, _) => *depth,
        }
    }

    // The index of the keys, where there is one.
    fn places(&self) -> Option<&BTreeMap<Str, usize>>
        ensures { option_map (λ m. m.now) result ≡ places_in self.now }
    {
        match self {
            HeldPairs::Many(_, shared) => match &shared.places {
                None => None,
                Some(places) => Some(places),
            },
            _ => None,
        }
    }

    // The pairs as a list. They are copied only where their block is shared.
    fn into_vec(self, alloc: Global) -> Result<Vec<(Str, Item)>, NoMemory>
        ensures { IfOk result (λ v. pair_datums v.items ≡ pair_datums (pairs_in self)) }
    {
        match self {
            HeldPairs::One(_, pairs) => list_of(alloc, pairs),
            HeldPairs::Two(_, pairs) => list_of(alloc, pairs),
            HeldPairs::Three(_, pairs) => list_of(alloc, pairs),
            HeldPairs::Four(_, pairs) => list_of(alloc, pairs),
            HeldPairs::Many(_, shared) => match Arc::try_unwrap(shared) {
                Ok(shared) => {
                    let Shared { pairs, places: _ } = shared;
                    Ok(pairs)
                }
                Err(shared) => Ok(shared.pairs.clone()?),
            },
        }
    }
}

impl Items {
    ghost use Rattle.std.specs.Prelude.{◌≡◌};
    ghost use Rattle.item_tree.specs.Datum.{Sound, array_of_list};
    ghost use Rattle.item_tree.specs.Item.{datums};

    /// The items in order.
    pub fn as_slice(&self) -> &[Item]
        ensures value { datums result.now ≡ self.now }
        ensures sound { Sound (array_of_list self.now) }
    {
        self.held.as_slice()
    }
}

impl Pairs {
    ghost use Rattle.std.specs.Prelude.{◌≡◌, IfOk, option_map};
    ghost use Rattle.item_tree.specs.Datum.{Sound, object_of_pairs};
    ghost use Rattle.item_tree.specs.Item.{datum, pair_datums};
    ghost use Rattle.item_tree.specs.Lookup.{lookup, place_of};

    /// The pairs in order of insertion.
    pub fn as_slice(&self) -> &[(Str, Item)]
        ensures value { pair_datums result.now ≡ self.now }
        ensures sound { Sound (object_of_pairs self.now) }
    {
        self.held.as_slice()
    }

    /// The value at this key. The time grows with the logarithm of the number of pairs, whatever
    /// the keys are.
    pub fn get(&self, key: &Str) -> Option<&Item>
        ensures { option_map (λ x. datum x.now) result ≡ lookup key.now self.now }
    {
        match self.place(key) {
            None => None,
            Some(at) => Some(value_at(self.as_slice(), at)),
        }
    }

    // The position of the pair with this key.
    fn place(&self, key: &Str) -> Option<usize>
        ensures { result ≡ place_of key.now self.now }
    {
        match self.held.places() {
            None => place_among(self.as_slice(), key),
            Some(places) => places.get(key).copied(),
        }
    }

    /// The pairs as a list of the caller's own. They are copied only where the list is shared.
    pub fn into_vec(self) -> Result<Vec<(Str, Item)>, NoMemory>
        ensures { IfOk result (λ v. pair_datums v.items ≡ self) }
    {
        let Pairs { held, alloc } = self;
        held.into_vec(alloc)
    }
}

// A few pairs as a list. They are copied only where their block is shared.
fn list_of<const N: usize>(
    alloc: Global,
    pairs: Arc<[(Str, Item); N], Global>,
) -> Result<Vec<(Str, Item)>, NoMemory>
    ensures { IfOk result (λ v. v.items ≡ arc_value pairs.entry) }
{
    match Arc::try_unwrap(pairs) {
        Ok(pairs) => Ok(Vec::from_array(alloc, pairs)?),
        Err(pairs) => Ok(pairs.as_slice().to_vec(alloc)?),
    }
}

impl Item {
    ghost use Rattle.std.specs.Prelude.{◌≡◌, ◌≤◌};
    ghost use Rattle.item_tree.specs.Datum.{Sound, depth as depth_of};
    ghost use Rattle.item_tree.specs.Item.{datum};

    /// How deep the item is: 0 for an atomic, and for an array or an object one more than the
    /// greatest depth inside.
    pub fn depth(&self) -> u8
        ensures value { result ≡ depth_of (datum self.now) }
        ensures sound { Sound (datum self.now) }
        ensures within { result ≤ 128 }
    {
        // A call of an atomic's method brings what always holds of it to the proof.
        match self {
            Item::Null | Item::Bool(_) => 0,
            Item::Int(n) => {
                let _n = n.get();
                0
            }
            Item::Dec(m) => {
                let _m = m.get();
                0
            }
            Item::Text(t) => {
                let _text = t.as_str();
                0
            }
            Item::Date(day) => {
                let _year = day.year();
                0
            }
            Item::DateTime(moment) => {
                let _day = moment.day();
                0
            }
            Item::Array(items) => items.held.depth(),
            Item::Object(pairs) => pairs.held.depth(),
        }
    }
}
