//! Laws of the definitions that contracts cite. Each holds of all values: a call brings it to a
//! proof, and does nothing when it runs.

ghost use Rattle.item_tree.specs.Laws.{KeysAreEquivalent, ItemsAreEquivalent, SequencesAreEquivalent, AtomicsCompare, AtomicsAreOrdered, DepthsAreKept, DaysAreNumbered, FunctionsAreFound};
ghost use Rattle.item_tree.specs.Keys.{KeysAgree};

use crate::Key;

/// `same_key` is an equivalence on keys.
pub fn keys_are_equivalent()
    ensures { KeysAreEquivalent }
{}

/// `cmp_atoms` is a total order within each class, with null below all else.
pub fn atomics_are_ordered()
    ensures { AtomicsAreOrdered }
{}

/// Deep equality is an equivalence on items.
pub fn items_are_equivalent()
    ensures { ItemsAreEquivalent }
{}

/// `deep_equal` is an equivalence on sequences.
pub fn sequences_are_equivalent()
    ensures { SequencesAreEquivalent }
{}

/// Atomics are deeply equal exactly where they compare as equal.
pub fn atomics_compare()
    ensures { AtomicsCompare }
{}

/// How deep arrays and objects are.
pub fn depths_are_kept()
    ensures { DepthsAreKept }
{}

/// A date's day number, which counts from 1970-01-01, orders dates as they compare.
pub fn days_are_numbered()
    ensures { DaysAreNumbered }
{}

/// Each function is found by its name and each number of arguments that it takes, and by no other.
pub fn functions_are_found()
    ensures { FunctionsAreFound }
{}

/// Keys are equal exactly where their atomics are, and stand in the order of their atomics.
pub fn keys_agree()
    ensures { KeysAgree ⟦<Key as PartialEq>⟧.eq ⟦<Key as Ord>⟧.cmp }
{}
