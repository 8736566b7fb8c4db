//! What names stand for in a compiled query.

ghost use Rattle.std.specs.Prelude.{◌≡◌};

use crate::{Expr, Module};
use item_tree::{FnId, Str};
use seq_types::SeqType;
use std::marker::Model;

/// A variable, by where its value is kept.
#[derive(Clone, Copy, Debug, PartialEq, Eq)]
pub enum Slot {
    /// A slot of the frame that belongs to a declaration or to the body.
    Local(u32),
    /// A declared variable. They are numbered from 0 in text order.
    Global(u32),
}

/// The names of the inputs that a call of `json-lines` reads, in order. Contracts see them as a
/// list, so two targets with the same names are the same.
#[derive(Debug, Drop)]
pub struct InputNames {
    names: Vec<Str>,
}

impl Model for InputNames {
    ghost use Rattle.std.specs.Prelude.{ℕ, List};

    ghost Value = { List (List ℕ) };

    ghost view = { λ n. n.names.items };
}

impl InputNames {
    /// These names.
    pub fn new(names: Vec<Str>) -> InputNames
        ensures { result ≡ names.items }
    {
        InputNames { names }
    }

    /// The names in order.
    pub fn as_slice(&self) -> &[Str]
        ensures { result.now ≡ self.now }
    {
        &self.names
    }
}

/// What a call calls.
#[derive(Debug, Drop)]
pub enum Target {
    /// A function of the language.
    Built(FnId),
    /// A declared function. They are numbered from 0 in text order.
    Own(u32),
    /// `json-lines` of the inputs with these names. The call has as many arguments, which aren't
    /// evaluated.
    Lines(InputNames),
}

/// An expression of a compiled tree.
pub type BoundExpr = Expr<Slot, Target, SeqType>;

/// A query as a compiled tree.
pub type BoundModule = Module<Slot, Target, SeqType>;
