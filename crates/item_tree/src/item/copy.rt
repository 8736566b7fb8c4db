//! Copies of items, which share what is large.

use super::{Held, HeldPairs, Item, Items, Pairs};
use crate::NoMemory;
use std::alloc::AllocError;
use std::sync::Arc;

impl Items {
    ghost use Rattle.std.specs.Prelude.{◌≡◌, IfOk};

    /// The same items, in constant time. It takes no memory, and fails only where no further copy
    /// can be counted.
    pub fn copy(&self) -> Result<Items, NoMemory>
        ensures { IfOk result (λ s. s ≡ self.now) }
    {
        Ok(self.clone()?)
    }
}

impl Pairs {
    ghost use Rattle.std.specs.Prelude.{◌≡◌, IfOk};

    /// The same pairs, in constant time. It takes no memory, and fails only where no further copy
    /// can be counted.
    pub fn copy(&self) -> Result<Pairs, NoMemory>
        ensures { IfOk result (λ s. s ≡ self.now) }
    {
        Ok(self.clone()?)
    }
}

impl Item {
    ghost use Rattle.std.specs.Prelude.{◌≡◌, IfOk};

    /// An equal item, in constant time: a string, an array and an object are shared. It takes no
    /// memory, and fails only where no further copy can be counted.
    pub fn copy(&self) -> Result<Item, NoMemory>
        ensures { IfOk result (λ x. x ≡ self.now) }
    {
        Ok(self.clone()?)
    }
}

impl Held {
    ghost use Rattle.std.specs.Prelude.{◌≡◌, IfOk};
    ghost use Rattle.item_tree.specs.inside.Held.{items_in, depth_in};

    // The same, with the same block.
    fn share(&self) -> Result<Held, AllocError>
        ensures { IfOk result (λ h.
            (items_in h ≡ items_in self.now) × (depth_in h ≡ depth_in self.now)) }
    {
        match self {
            Held::One(depth, items) => Ok(Held::One(*depth, Arc::try_clone(items)?)),
            Held::Two(depth, items) => Ok(Held::Two(*depth, Arc::try_clone(items)?)),
            Held::Three(depth, items) => Ok(Held::Three(*depth, Arc::try_clone(items)?)),
            Held::Four(depth, items) => Ok(Held::Four(*depth, Arc::try_clone(items)?)),
            Held::Many(depth, items) => Ok(Held::Many(*depth, Arc::try_clone(items)?)),
        }
    }
}

impl HeldPairs {
    ghost use Rattle.std.specs.Prelude.{◌≡◌, IfOk};
    ghost use Rattle.item_tree.specs.inside.HeldPairs.{pairs_in, pairs_depth_in, places_in};

    // The same, with the same block.
    fn share(&self) -> Result<HeldPairs, AllocError>
        ensures pairs { IfOk result (λ h. pairs_in h ≡ pairs_in self.now) }
        ensures depth { IfOk result (λ h. pairs_depth_in h ≡ pairs_depth_in self.now) }
        ensures places { IfOk result (λ h. places_in h ≡ places_in self.now) }
    {
        match self {
            HeldPairs::One(depth, pairs) => Ok(HeldPairs::One(*depth, Arc::try_clone(pairs)?)),
            HeldPairs::Two(depth, pairs) => Ok(HeldPairs::Two(*depth, Arc::try_clone(pairs)?)),
            HeldPairs::Three(depth, pairs) => Ok(HeldPairs::Three(*depth, Arc::try_clone(pairs)?)),
            HeldPairs::Four(depth, pairs) => Ok(HeldPairs::Four(*depth, Arc::try_clone(pairs)?)),
            HeldPairs::Many(depth, shared) => Ok(HeldPairs::Many(*depth, Arc::try_clone(shared)?)),
        }
    }
}

impl Clone for Items {
    ghost use Rattle.std.specs.Prelude.{◌≡◌};

    ghost is_clone = { λ a b. b ≡ a };

    fn clone(&self) -> Result<Items, AllocError> {
        let held = self.held.share()?;
        Ok(Items { held })
    }
}

impl Clone for Pairs {
    ghost use Rattle.std.specs.Prelude.{◌≡◌};

    ghost is_clone = { λ a b. b ≡ a };

    fn clone(&self) -> Result<Pairs, AllocError> {
        let held = self.held.share()?;
        Ok(Pairs {
            held,
            alloc: self.alloc,
        })
    }
}

impl Clone for Item {
    ghost use Rattle.std.specs.Prelude.{◌≡◌};

    ghost is_clone = { λ a b. b ≡ a };

    fn clone(&self) -> Result<Item, AllocError> {
        match self {
            Item::Null => Ok(Item::Null),
            Item::Bool(b) => Ok(Item::Bool(*b)),
            Item::Int(n) => Ok(Item::Int(*n)),
            Item::Dec(m) => Ok(Item::Dec(*m)),
            Item::Text(t) => Ok(Item::Text(t.clone()?)),
            Item::Date(day) => Ok(Item::Date(*day)),
            Item::DateTime(moment) => Ok(Item::DateTime(*moment)),
            Item::Array(items) => Ok(Item::Array(items.clone()?)),
            Item::Object(pairs) => Ok(Item::Object(pairs.clone()?)),
        }
    }
}
