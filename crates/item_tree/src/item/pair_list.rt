//! Pairs from which an object is made.

ghost use Rattle.std.specs.Prelude.{◌≡◌, ◌<◌, ◌++◌, ◌∷◌, [], None, OnOk, OnErr, option_map, length};
ghost use Rattle.item_tree.specs.Datum.{KeysDiffer};
ghost use Rattle.item_tree.specs.Item.{datum, pair_datums};
ghost use Rattle.item_tree.specs.Lookup.{place_of, lookup, put, PutsAt};
ghost use Rattle.item_tree.specs.Made.{MakesList};

use super::Item;
use super::find::{FEW, first_repeat, index_of, index_with, place_among, value_at};
use crate::{MakeFault, NoMemory, Str, push_last};
use std::alloc::Global;
use std::collections::BTreeMap;
use std::marker::Model;

// Another value at this position.
fn put_at(pairs: &mut Vec<(Str, Item)>, at: usize, value: Item)
    requires { at < length pairs.old.items }
    ensures { PutsAt at (datum value) (pair_datums pairs.old.items) (pair_datums pairs.new.items) }
{
    pairs[at].1 = value;
}

/// Pairs in order of insertion, with different keys, from which an object is made.
///
/// The time to find a key or to put a pair grows with the logarithm of the number of pairs,
/// whatever the keys are.
#[derive(Debug, Drop)]
pub struct PairList {
    pub(super) pairs: Vec<(Str, Item)>,
    // The position of each key, where there are many.
    pub(super) places: Option<BTreeMap<Str, usize>>,
}

impl Model for PairList {
    ghost use Rattle.std.specs.Prelude.{ℕ, List};
    ghost use Rattle.std.specs.Coded.{coded_list, coded×, coded_ℕ};
    ghost use Rattle.item_tree.specs.Datum.{Datum};
    ghost use Rattle.item_tree.specs.DatumCode.{datum_code};
    ghost use Rattle.item_tree.specs.Item.{pair_datums};
    ghost use Rattle.item_tree.specs.Lookup.{IsIndexed};

    ghost Value = { List (List ℕ × Datum) };

    ghost coded = { coded_list (coded× (coded_list coded_ℕ) datum_code) };

    ghost view = { λ a. pair_datums a.pairs.items };

    ghost invariant = { λ a. IsIndexed a.places (pair_datums a.pairs.items) };
}

impl PairList {
    /// No pairs.
    pub fn new(alloc: Global) -> PairList
        ensures { result ≡ [] }
    {
        PairList {
            pairs: Vec::new(alloc),
            places: None,
        }
    }

    /// The list of these pairs. The first key that repeats an earlier one refuses it.
    pub fn of(alloc: Global, pairs: Vec<(Str, Item)>) -> Result<PairList, MakeFault>
        ensures { MakesList (pair_datums pairs.items) result }
    {
        if pairs.len() > FEW {
            let places = index_of(alloc, pairs.as_slice())?;
            return Ok(PairList {
                pairs,
                places: Some(places),
            });
        }
        match first_repeat(pairs.as_slice()) {
            None => Ok(PairList {
                pairs,
                places: None,
            }),
            Some(at) => Err(MakeFault::KeyTwice { at }),
        }
    }

    /// The pairs in order of insertion.
    pub fn as_slice(&self) -> &[(Str, Item)]
        ensures value { pair_datums result.now ≡ self.now }
        ensures differ { KeysDiffer self.now }
    {
        self.pairs.as_slice()
    }

    /// No pairs are left, and their room is kept.
    pub fn clear(&mut self)
        ensures { self.new ≡ [] }
    {
        self.pairs.clear();
        self.places = None;
    }

    // The position of the pair with this key.
    #[inline(always)]
    fn place(&self, key: &Str) -> Option<usize>
        ensures { result ≡ place_of key.now self.now }
    {
        match &self.places {
            None => place_among(self.pairs.as_slice(), key),
            Some(places) => places.get(key).copied(),
        }
    }

    /// The value at this key.
    pub fn get(&self, key: &Str) -> Option<&Item>
        ensures { option_map (λ x. datum x.now) result ≡ lookup key.now self.now }
    {
        match self.place(key) {
            None => None,
            Some(at) => Some(value_at(self.as_slice(), at)),
        }
    }

    /// One more pair: a key that is there keeps its place and takes the value, and a new key goes
    /// last. Where memory is short the pairs stay as they are.
    #[inline(always)]
    pub fn put(&mut self, alloc: Global, key: Str, value: Item) -> Result<(), NoMemory>
        ensures ok { OnOk result (self.new ≡ put key (datum value) self.old) }
        ensures err { OnErr result (self.new ≡ self.old) }
    {
        match self.place(&key) {
            Some(at) => {
                drop(key);
                put_at(&mut self.pairs, at, value);
                Ok(())
            }
            None => self.push(alloc, key, value),
        }
    }

    // One more pair, whose key is new.
    #[inline(always)]
    fn push(&mut self, alloc: Global, key: Str, value: Item) -> Result<(), NoMemory>
        requires { place_of key self.old ≡ None }
        ensures ok { OnOk result (self.new ≡ self.old ++ (key, datum value) ∷ []) }
        ensures err { OnErr result (self.new ≡ self.old) }
    {
        if self.places.is_none() && self.pairs.len() < FEW {
            push_last(&mut self.pairs, (key, value))?;
            return Ok(());
        }
        self.push_indexed(alloc, key, value)
    }

    // The same, where the index may grow.
    fn push_indexed(&mut self, alloc: Global, key: Str, value: Item) -> Result<(), NoMemory>
        requires { place_of key self.old ≡ None }
        ensures ok { OnOk result (self.new ≡ self.old ++ (key, datum value) ∷ []) }
        ensures err { OnErr result (self.new ≡ self.old) }
    {
        let places = index_with(alloc, self.places.take(), self.pairs.as_slice(), &key)?;
        self.pairs.push((key, value))?;
        self.places = places;
        Ok(())
    }
}
