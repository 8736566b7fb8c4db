//! What a part of a function's value stands for, and how parts are merged.

ghost use Rattle.std.specs.Prelude.{◌≡◌, ◌+◌, ◌^◌, ◌<◌, ◌≤◌, ℕ, List, [], ◌∷◌, ◌++◌, length, Result, Ok, IfOk, IfErr, OnOk, OnErr};
ghost use Rattle.item_tree.specs.declared.code.Code.{Code};
ghost use Rattle.item_tree.specs.Datum.{Datum};
ghost use Rattle.item_tree.specs.Item.{datum, datums};
ghost use Rattle.value_rules.specs.Operands.{FailsWith};

use item_tree::{Item, NoMemory, OpFault};
use std::alloc::Global;

/// A part of the value of a function on a sequence. It stands for a list of items, which it does
/// not keep: `stands` says which lists it may stand for. Parts of pieces of a list, merged in
/// order, stand for the list.
pub trait Partial: Drop {
    ghost stands: { Self → List Datum → Type 0 };

    ghost value_of: { List Datum → Result (List Datum) Code };

    ghost count: { Self → ℕ };

    /// Stands for no item.
    fn empty() -> Self
        ensures { stands result [] };

    /// Stands for one more item. Without memory it stands for what it stood for.
    fn add(&mut self, item: &Item) -> Result<(), NoMemory>
        requires { count self.old + 1 < 2 ^ 40 }
        ensures added { OnOk result ((vs : List Datum) → stands self.old vs
            → stands self.new (vs ++ datum item.now ∷ [])) }
        ensures kept { OnErr result ((vs : List Datum) → stands self.old vs → stands self.new vs) };

    /// Stands for its items and then those of the later part. Without memory it stands for what it
    /// stood for.
    fn merge(&mut self, later: Self) -> Result<(), NoMemory>
        requires { count self.old + count later < 2 ^ 40 }
        ensures merged { OnOk result ((vs ws : List Datum) → stands self.old vs → stands later ws
            → stands self.new (vs ++ ws)) }
        ensures kept { OnErr result ((vs : List Datum) → stands self.old vs → stands self.new vs) };

    /// The function's value of the items, or its error.
    fn finish(self, alloc: Global) -> Result<Vec<Item>, OpFault>
        ensures value { IfOk result (λ xs. (vs : List Datum) → stands self vs
            → value_of vs ≡ Ok (datums xs.items)) }
        ensures fault { IfErr result (λ e. (vs : List Datum) → stands self vs
            → FailsWith (value_of vs) e) };

    /// How many items it counts: at most those that it stands for.
    fn how_many(&self) -> u64
        ensures { result ≡ count self.now };

    // What a part counts are no more than the items that it stands for.
    ghost counted: { (p : Self) (vs : List Datum) → stands p vs → count p ≤ length vs };
}
