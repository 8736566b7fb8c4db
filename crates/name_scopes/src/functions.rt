//! Declared functions, each found by its name and how many arguments it takes.

ghost use Rattle.std.specs.Prelude.{◌≡◌, ◌&&◌, ◌∷◌, ◌++◌, [], ℕ, List, cond, not, length, take, is_some, OnOk, OnErr};
ghost use Rattle.std.specs.Str.{bytes_eq};
ghost use Rattle.name_scopes.specs.inside.Stacks.{stack_at};
ghost use Rattle.name_scopes.specs.Functions.{function_position};
ghost use Rattle.name_scopes.specs.inside.Firsts.{place_with};

use crate::stacks::{Place, note, stack_of};
use item_tree::{NoMemory, Str};
use std::alloc::Global;
use std::collections::BTreeMap;
use std::marker::Model;

/// A declared function: its name, and how many arguments it takes.
#[derive(Clone, Copy)]
pub(crate) struct Function<'q> {
    pub name: &'q Str,
    pub arity: usize,
}

/// The declared functions of a query, in order.
///
/// One is found in a tree of all names. There each name has a list of the different numbers of
/// arguments that its functions take, which a text of so many bytes keeps short: they are written
/// out one after the other.
#[derive(Drop)]
pub struct Functions<'q> {
    alloc: Global,
    all: Vec<Function<'q>>,
    firsts: BTreeMap<&'q str, Vec<Place<usize>>>,
}

impl<'q> Model for Functions<'q> {
    ghost use Rattle.std.specs.Prelude.{ℕ, List, map};
    ghost use Rattle.name_scopes.specs.inside.Firsts.{function_of, AreFirsts};

    ghost Value = { List (List ℕ × ℕ) };

    ghost view = { λ s. map function_of s.all.items };

    ghost invariant = { λ s. AreFirsts s.firsts (map function_of s.all.items) };
}

impl<'q> Functions<'q> {
    /// No functions.
    pub fn new(alloc: Global) -> Functions<'q>
        ensures { result ≡ [] }
    {
        Functions {
            alloc,
            all: Vec::new(alloc),
            firsts: BTreeMap::new(alloc),
        }
    }

    /// How many functions are declared.
    pub fn len(&self) -> usize
        ensures { result ≡ length self.now }
    {
        self.all.len()
    }

    /// One more function, after the others. Where memory is short, it is not declared.
    pub fn push(&mut self, name: &'q Str, arity: usize) -> Result<(), NoMemory>
        ensures ok { OnOk result (self.new ≡ self.old ++ (name.now, arity) ∷ []) }
        ensures err { OnErr result (self.new ≡ self.old) }
    {
        self.all.reserve(1)?;
        let known = self.position(name, arity).is_some();
        let place = Place {
            at: self.all.len(),
            value: arity,
        };
        note_first(self.alloc, &mut self.firsts, name.as_str(), place, known)?;
        self.all.push_reserved(Function { name, arity });
        Ok(())
    }

    /// No functions from here on.
    pub fn clear(&mut self)
        ensures { self.new ≡ [] }
    {
        self.all.clear();
        self.firsts.clear();
    }

    /// The position, from 0, of the first function of this name that takes so many arguments.
    pub fn position(&self, name: &Str, arity: usize) -> Option<usize>
        ensures { result ≡ function_position self.now name.now arity }
    {
        place_with(stack_of(&self.firsts, name.as_str()), arity)
    }

    /// Whether one of the first so many functions has this name and takes so many arguments.
    pub fn is_among_first(&self, count: usize, name: &Str, arity: usize) -> bool
        ensures { result ≡ is_some (function_position (take count self.now) name.now arity) }
    {
        match self.position(name, arity) {
            Some(at) => at < count,
            None => false,
        }
    }
}

// Notes the place of a function, where none of its name and number is known.
fn note_first<'q>(
    alloc: Global,
    firsts: &mut BTreeMap<&'q str, Vec<Place<usize>>>,
    name: &'q str,
    place: Place<usize>,
    known: bool,
) -> Result<(), NoMemory>
    ensures ok { OnOk result ((q : List ℕ) → stack_at firsts.new q
        ≡ cond (not known && bytes_eq name.now q) (stack_at firsts.old q ++ place ∷ [])
        (stack_at firsts.old q)) }
    ensures err { OnErr result ((q : List ℕ) → stack_at firsts.new q ≡ stack_at firsts.old q) }
{
    if known {
        return Ok(());
    }
    note(alloc, firsts, name, place)
}

// The first place with this number of arguments.
fn place_with(places: &[Place<usize>], arity: usize) -> Option<usize>
    ensures { result ≡ place_with places.now arity }
{
    for place in places {
        if place.value == arity {
            return Some(place.at);
        }
    }
    None
}
