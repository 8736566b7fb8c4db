//! Queries with their declarations.

use crate::{Expr, Placed};

/// A query: its declared variables and its declared functions, each in text order, and its body.
/// Which of a variable and a function stands first has no meaning: a variable sees the variables
/// before it and no declared function, and a function sees all of both. Their places still tell it.
#[derive(Drop)]
pub struct Module<V, F, T> {
    pub variables: Vec<Variable<V, F, T>>,
    pub functions: Vec<Function<V, F, T>>,
    pub body: Expr<V, F, T>,
}

/// `declare variable $x as t := e`
#[derive(Drop)]
pub struct Variable<V, F, T> {
    pub variable: Placed<V>,
    pub of: Option<Placed<T>>,
    pub value: Expr<V, F, T>,
}

/// `declare function f($x as t) as u { e }`
#[derive(Drop)]
pub struct Function<V, F, T> {
    pub function: Placed<F>,
    pub params: Vec<Param<V, T>>,
    pub of: Option<Placed<T>>,
    pub body: Expr<V, F, T>,
}

/// A parameter of a declared function.
#[derive(Drop)]
pub struct Param<V, T> {
    pub variable: Placed<V>,
    pub of: Option<Placed<T>>,
}
