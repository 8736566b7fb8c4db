//! The index of a join: where each key stands in a list.

use crate::PairFault;
use crate::clashes::{Clashes, clashes_of};
use crate::places::{Places, places_of, positions_of};
use item_tree::{Item, NoMemory};
use std::alloc::Global;
use std::marker::Model;

/// An index over a list of keys, each of them empty or one item. Contracts see it as that list.
///
/// A key is found by a hash, which depends on the seed of the index. For keys that were chosen with
/// regard to the seed, the time to find one can grow with the number of different keys.
#[derive(Debug, Drop)]
pub struct JoinIndex {
    keys: Vec<Option<Item>>,
    clashes: Clashes,
    places: Places,
}

impl Model for JoinIndex {
    ghost use Rattle.std.specs.Coded.{coded_list, coded_option};
    ghost use Rattle.item_tree.specs.DatumCode.{datum_code};
    ghost use Rattle.tuple_rows.specs.Keys.{KeyList, key_list};

    ghost Value = { KeyList };

    ghost coded = { coded_list (coded_option datum_code) };

    ghost use Rattle.eq_join.specs.inside.Noted.{AreClashes};
    ghost use Rattle.eq_join.specs.inside.Places.{ArePlaces};

    ghost view = { λ a. key_list a.keys };

    ghost invariant = { λ a.
        AreClashes a.clashes (key_list a.keys) × ArePlaces a.places (key_list a.keys) };
}

impl JoinIndex {
    ghost use Rattle.std.specs.Prelude.{◌≡◌, Ok, Err, option_map, IfOk, MatchResult};
    ghost use Rattle.item_tree.specs.Item.{datum};
    ghost use Rattle.tuple_rows.specs.Keys.{key_list};
    ghost use Rattle.eq_join.specs.Pairs.{pairs};

    /// The index over these keys.
    pub fn new(alloc: Global, keys: Vec<Option<Item>>) -> Result<JoinIndex, NoMemory>
        ensures { IfOk result (λ index. index ≡ key_list keys) }
    {
        JoinIndex::seeded(alloc, keys, 0)
    }

    /// The same with this seed, on which the hashes of keys depend. Where strangers choose the keys
    /// it is to be a number that they do not know.
    pub fn seeded(alloc: Global, keys: Vec<Option<Item>>, seed: u64) -> Result<JoinIndex, NoMemory>
        ensures { IfOk result (λ index. index ≡ key_list keys) }
    {
        let clashes = clashes_of(keys.as_slice());
        let places = places_of(alloc, keys.as_slice(), seed)?;
        Ok(JoinIndex {
            keys,
            clashes,
            places,
        })
    }

    /// The positions, from 0, of the keys that are equal to this one, or the first of the keys that
    /// cannot be compared with it. It takes no memory, and looks at no other key.
    pub fn hits(&self, key: Option<&Item>) -> Result<&[u64], PairFault>
        ensures { MatchResult result
            (λ js. pairs (option_map (λ x. datum x.now) key.entry) self.now ≡ Ok js.now)
            (λ f. pairs (option_map (λ x. datum x.now) key.entry) self.now ≡ Err f) }
    {
        let Some(item) = key else {
            return Ok(&[]);
        };
        match self.clashes.of(item.class()) {
            Some(fault) => Err(fault),
            None => Ok(positions_of(&self.places, item)),
        }
    }
}
