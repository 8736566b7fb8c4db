//! The parts that some expressions are made of.

use crate::{Placed, ProductOp, SumOp};
use item_tree::Str;

// A part is over the type of the expressions that it holds, which stands last. So it stands
// outside the knot of types that lead back to one another: what it costs to check a crate that
// drops a tree grows fast with the number of types in that knot.

/// A further operand of `,`, `or`, `and`, `||` or `!`, with the place of the operator before it.
#[derive(Drop)]
pub struct Operand<E> {
    pub place: u32,
    pub value: E,
}

/// A further term of a sum, with the operator before it and its place.
#[derive(Drop)]
pub struct Term<E> {
    pub op: SumOp,
    pub place: u32,
    pub value: E,
}

/// A further factor of a product, with the operator before it and its place.
#[derive(Drop)]
pub struct Factor<E> {
    pub op: ProductOp,
    pub place: u32,
    pub value: E,
}

/// A binding of a quantified expression.
#[derive(Drop)]
pub struct Bind<V, T, E> {
    pub variable: Placed<V>,
    pub of: Option<Placed<T>>,
    pub source: E,
}

/// `case a case b return e`; there is at least one test.
#[derive(Drop)]
pub struct Case<E> {
    pub tests: Vec<E>,
    pub result: E,
}

/// `case $x as t | u return e`; there is at least one type.
#[derive(Drop)]
pub struct TypeCase<V, T, E> {
    pub variable: Option<Placed<V>>,
    pub types: Vec<Placed<T>>,
    pub result: E,
}

/// `catch a | b { e }`. `codes` is `None` for `*`. `error` is the variable `$err:code`, which the
/// handler binds at its `catch`.
#[derive(Drop)]
pub struct Catch<V, E> {
    pub error: Placed<V>,
    pub codes: Option<Vec<Str>>,
    pub body: E,
}

/// A pair of an object, with the place of its `:`.
#[derive(Drop)]
pub enum Pair<E> {
    /// `k : e`, where the key is a name that stands for itself.
    Named { name: Str, place: u32, value: E },
    /// `k : e`, where the key is an expression.
    Computed { key: E, place: u32, value: E },
}
