//! Names that are bound to values and unbound again.

ghost use Rattle.std.specs.Prelude.{◌≡◌, ◌∷◌, [], length, drop, OnOk, OnErr};
ghost use Rattle.name_scopes.specs.Scopes.{value_found, first_bound, is_between};
ghost use Rattle.name_scopes.specs.inside.Places.{last_place};

use crate::stacks::{Place, count_before, forget, note, stack_of};
use item_tree::{NoMemory, Str};
use std::alloc::Global;
use std::collections::BTreeMap;
use std::marker::Model;

/// A name that is bound, and what it stands for.
#[derive(Clone, Copy)]
pub(crate) struct Entry<'q, V> {
    pub name: &'q Str,
    pub value: V,
}

/// Names that are bound, each to a value. Contracts see them as a list, the latest first.
///
/// A name is found in a tree of all names that were bound, and not by looking at each.
#[derive(Drop)]
pub struct Scope<'q, V: Copy> {
    alloc: Global,
    entries: Vec<Entry<'q, V>>,
    stacks: BTreeMap<&'q str, Vec<Place<V>>>,
}

impl<'q, V: Copy> Model for Scope<'q, V> {
    ghost use Rattle.std.specs.Prelude.{ℕ, List};
    ghost use Rattle.name_scopes.specs.inside.Places.{bindings, AreStacks};

    ghost Value = { List (List ℕ × V) };

    ghost view = { λ s. bindings s.entries.items };

    ghost invariant = { λ s. AreStacks s.stacks (bindings s.entries.items) };
}

impl<'q, V: Copy> Scope<'q, V> {
    /// No names.
    pub fn new(alloc: Global) -> Scope<'q, V>
        ensures { result ≡ [] }
    {
        Scope {
            alloc,
            entries: Vec::new(alloc),
            stacks: BTreeMap::new(alloc),
        }
    }

    /// How many names are bound. One that is bound again counts again.
    pub fn len(&self) -> usize
        ensures { result ≡ length self.now }
    {
        self.entries.len()
    }

    /// Binds a name. Where memory is short, it is not bound.
    pub fn push(&mut self, name: &'q Str, value: V) -> Result<(), NoMemory>
        ensures ok { OnOk result (self.new ≡ (name.now, value) ∷ self.old) }
        ensures err { OnErr result (self.new ≡ self.old) }
    {
        self.entries.reserve(1)?;
        let at = self.entries.len();
        note(
            self.alloc,
            &mut self.stacks,
            name.as_str(),
            Place { at, value },
        )?;
        self.entries.push_reserved(Entry { name, value });
        Ok(())
    }

    /// Unbinds all names but the first so many.
    pub fn truncate(&mut self, depth: usize)
        ensures { self.new ≡ first_bound depth self.old }
    {
        while self.len() > depth {
            self.pop();
        }
    }

    // Unbinds the latest name.
    fn pop(&mut self)
        ensures { self.new ≡ drop 1 self.old }
    {
        if let Some(entry) = self.entries.pop() {
            forget(&mut self.stacks, entry.name.as_str());
        }
    }

    // The last of the first so many names that is this one.
    fn last_place(&self, name: &Str, mark: usize) -> Option<Place<V>>
        ensures { result ≡ last_place (first_bound mark self.now) name.now }
    {
        let stack = stack_of(&self.stacks, name.as_str());
        let count = count_before(stack, mark);
        stack[..count].last().copied()
    }

    /// What the name stands for where it was bound last.
    pub fn latest(&self, name: &Str) -> Option<V>
        ensures { result ≡ value_found self.now name.now }
    {
        self.latest_below(name, self.len())
    }

    /// The same among the first so many names.
    pub fn latest_below(&self, name: &Str, mark: usize) -> Option<V>
        ensures { result ≡ value_found (first_bound mark self.now) name.now }
    {
        match self.last_place(name, mark) {
            Some(place) => Some(place.value),
            None => None,
        }
    }

    /// Whether the name is bound among the first `mark` names, and after the first `base`.
    pub fn is_between(&self, name: &Str, base: usize, mark: usize) -> bool
        ensures { result ≡ is_between base mark self.now name.now }
    {
        match self.last_place(name, mark) {
            Some(place) => base <= place.at,
            None => false,
        }
    }
}
