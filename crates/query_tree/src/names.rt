//! Names with their places.

use crate::{Expr, Module};
use item_tree::Str;
use seq_types::Times;

/// A variable, a function's name or a type, with the place of its token.
#[derive(Debug, Drop)]
pub struct Placed<N> {
    pub place: u32,
    pub name: N,
}

/// A type as it is written. `empty-sequence()` is the name `empty-sequence` with `parens` and
/// `Times::One`.
#[derive(Debug, Drop)]
pub struct TypeName {
    pub name: Str,
    /// Whether `()` follows the name.
    pub parens: bool,
    pub times: Times,
}

/// An expression as it was read: variables and functions stand under their names.
pub type NamedExpr = Expr<Str, Str, TypeName>;

/// A query as it was read.
pub type Query = Module<Str, Str, TypeName>;
