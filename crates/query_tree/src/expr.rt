//! Expressions.

use crate::{
    Bind, Case, Catch, Clause, CompareOp, Factor, Operand, Pair, Placed, Quantifier, Step, SumOp,
    Term, TypeCase,
};
use item_tree::{Str, Units, Whole};

/// An expression, with the place of its first token. It is over three types: of its variables, of
/// the functions that it calls, and of its types.
#[cycle(ast)]
#[derive(Drop)]
pub struct Expr<V, F, T> {
    pub place: u32,
    pub kind: Kind<V, F, T>,
}

/// What an expression is: a variant for each production that makes a node. Its fields are the parts
/// of the production in order. An operator's level without an operator makes no node.
#[cycle(ast)]
#[derive(Drop)]
pub enum Kind<V, F, T> {
    /// `a, b`
    Comma {
        first: Box<Expr<V, F, T>>,
        rest: Vec<Operand<Expr<V, F, T>>>,
    },
    /// `for .. let .. return e`; `place` is that of `return`.
    Flwor {
        clauses: Vec<Clause<V, F, T>>,
        place: u32,
        result: Box<Expr<V, F, T>>,
    },
    /// `some $x in e satisfies test`
    Quant {
        quantifier: Quantifier,
        binds: Vec<Bind<V, T, Expr<V, F, T>>>,
        test: Box<Expr<V, F, T>>,
    },
    /// `switch (e) case a return b default return c`
    Switch {
        operand: Box<Expr<V, F, T>>,
        cases: Vec<Case<Expr<V, F, T>>>,
        default: Box<Expr<V, F, T>>,
    },
    /// `typeswitch (e) case $x as t return b default $y return c`
    Typeswitch {
        operand: Box<Expr<V, F, T>>,
        cases: Vec<TypeCase<V, T, Expr<V, F, T>>>,
        variable: Option<Placed<V>>,
        default: Box<Expr<V, F, T>>,
    },
    /// `if (e) then a else b`
    If {
        condition: Box<Expr<V, F, T>>,
        when_true: Box<Expr<V, F, T>>,
        when_false: Box<Expr<V, F, T>>,
    },
    /// `try { e } catch * { h }`
    Try {
        body: Box<Expr<V, F, T>>,
        catches: Vec<Catch<V, Expr<V, F, T>>>,
    },
    /// `a or b`
    Or {
        first: Box<Expr<V, F, T>>,
        rest: Vec<Operand<Expr<V, F, T>>>,
    },
    /// `a and b`
    And {
        first: Box<Expr<V, F, T>>,
        rest: Vec<Operand<Expr<V, F, T>>>,
    },
    /// `not a`
    Not {
        operand: Box<Expr<V, F, T>>,
    },
    /// `a eq b`; `place` is that of the operator, here and below.
    Compare {
        left: Box<Expr<V, F, T>>,
        op: CompareOp,
        place: u32,
        right: Box<Expr<V, F, T>>,
    },
    /// `a || b`
    Concat {
        first: Box<Expr<V, F, T>>,
        rest: Vec<Operand<Expr<V, F, T>>>,
    },
    /// `a to b`
    Range {
        left: Box<Expr<V, F, T>>,
        place: u32,
        right: Box<Expr<V, F, T>>,
    },
    /// `a + b - c`
    Sum {
        first: Box<Expr<V, F, T>>,
        rest: Vec<Term<Expr<V, F, T>>>,
    },
    /// `a * b div c`
    Product {
        first: Box<Expr<V, F, T>>,
        rest: Vec<Factor<Expr<V, F, T>>>,
    },
    /// `a instance of t`
    Instance {
        operand: Box<Expr<V, F, T>>,
        place: u32,
        of: Placed<T>,
    },
    /// `a treat as t`
    Treat {
        operand: Box<Expr<V, F, T>>,
        place: u32,
        to: Placed<T>,
    },
    /// `a castable as t`
    Castable {
        operand: Box<Expr<V, F, T>>,
        place: u32,
        to: Placed<T>,
    },
    /// `a cast as t`
    Cast {
        operand: Box<Expr<V, F, T>>,
        place: u32,
        to: Placed<T>,
    },
    /// `- + a`: each sign with its place.
    Sign {
        signs: Vec<(SumOp, u32)>,
        operand: Box<Expr<V, F, T>>,
    },
    /// `a ! b`
    Map {
        first: Box<Expr<V, F, T>>,
        rest: Vec<Operand<Expr<V, F, T>>>,
    },
    /// `a[b].c[]`
    Postfix {
        primary: Box<Expr<V, F, T>>,
        steps: Vec<Step<V, Expr<V, F, T>>>,
    },
    Int {
        value: Whole,
    },
    Dec {
        value: Units,
    },
    Text {
        value: Str,
    },
    True,
    False,
    Null,
    /// `$x`
    Var {
        variable: V,
    },
    /// `$$`
    Context,
    /// `(e)` or `()`
    Paren {
        content: Option<Box<Expr<V, F, T>>>,
    },
    /// `{ "a" : 1 }`
    Object {
        pairs: Vec<Pair<Expr<V, F, T>>>,
    },
    /// `{| e |}`
    Merge {
        content: Option<Box<Expr<V, F, T>>>,
    },
    /// `[e]`
    Array {
        content: Option<Box<Expr<V, F, T>>>,
    },
    /// `f(a, b)`
    Call {
        function: F,
        arguments: Vec<Expr<V, F, T>>,
    },
}
