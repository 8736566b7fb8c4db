//! The plan of a query, and what it says of each leaf.

use item_tree::FnId;
use query_tree::{BoundExpr, InputNames};

/// How a part of a query is evaluated.
#[derive(Clone, Copy, Debug, PartialEq, Eq)]
pub enum Mode {
    /// As a whole, on one thread.
    Local,
    /// On each piece by itself.
    Partitioned,
    /// On what all pieces give.
    Gathered,
}

/// What a part of a query is.
#[derive(Clone, Copy, Debug, PartialEq, Eq)]
pub enum Label {
    /// A `for` clause, which binds one variable.
    For,
    /// A `let` clause, which binds one variable.
    Let,
    /// A `where` clause.
    Where,
    /// A `group by` clause.
    Group,
    /// An `order by` clause.
    Order,
    /// A `count` clause.
    Count,
    /// The `return` of a FLWOR.
    Return,
    /// A call of `json-lines`.
    JsonLines,
    /// A call of this function of the language.
    Call(FnId),
    /// A FLWOR.
    Flwor,
    /// Any other expression.
    Expression,
}

/// A part of a leaf, by the offset of its token in the query.
#[derive(Clone, Copy, Debug, PartialEq, Eq)]
pub struct Line {
    /// The variable of a `for` or a `let`, the first keyword of another clause, or the first token
    /// of an expression.
    pub place: u32,
    pub label: Label,
    pub mode: Mode,
}

/// What the outcomes of the pieces of a stage are gathered into.
#[derive(Clone, Copy, Debug, PartialEq, Eq)]
pub enum End {
    /// The rows of the groups of a `group by`.
    Groups,
    /// The rows of an `order by`.
    Orders,
    /// The rows of a `count`, with their numbers.
    Numbers,
    /// The items of the leaf.
    Items,
    /// The value of a call of this function.
    Part(FnId),
}

/// A run of steps that goes over pieces, and what it ends in. A clause is a step of its number,
/// counted from 1, and `return` of the number after theirs. Reading the lines is a step too: it
/// stands before the clause that the driver is in, and has the number of the clause before that
/// one. A call of `json-lines` over which no FLWOR stands is the step 0.
#[derive(Clone, Copy, Debug, PartialEq, Eq)]
pub struct Stage {
    pub first: u32,
    /// The last step; it is one of the stage.
    pub last: u32,
    pub end: End,
}

/// A call of `json-lines` whose input is cut into pieces.
#[derive(Clone, Copy)]
pub struct Driver<'q> {
    /// The offset of the call's first token.
    pub place: u32,
    /// The names of the files that together are its input, in order.
    pub names: &'q InputNames,
    /// How many `let`s stand before the `for` over the call. They are evaluated once, and that
    /// `for` is the clause after them. 0 where no FLWOR stands over the call.
    pub lets: u32,
    /// Whether that `for` has an `at`, for which the lines of earlier pieces are counted first.
    pub position: bool,
}

/// An expression of the body that is evaluated as one.
#[derive(Drop)]
pub struct Leaf<'q> {
    pub tree: &'q BoundExpr,
    /// `Flwor`, `JsonLines`, `Call` for a call over a driver, or `Expression`.
    pub label: Label,
    /// Its parts in text order.
    pub lines: Vec<Line>,
    /// What it runs over, if it runs over pieces.
    pub driver: Option<Driver<'q>>,
    /// The stages in the order in which they run. There are none without a driver.
    pub stages: Vec<Stage>,
}

/// How the body of a query is evaluated.
#[derive(Drop)]
pub struct Plan<'q> {
    /// The leaves in text order.
    pub leaves: Vec<Leaf<'q>>,
}
