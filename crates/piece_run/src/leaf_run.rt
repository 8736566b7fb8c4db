//! What leaves over the pieces of their input are run with.

ghost use Rattle.std.specs.Prelude.{◌<◌};

use clause_eval::{BoundClause, Evaluator};
use item_tree::Item;
use mode_planner::Driver;
use query_meaning::{Library, Value};
use query_tree::{BoundExpr, Compiled};

/// What leaves of a query that run over pieces are evaluated with.
#[derive(Drop)]
pub struct LeafRun<'a, 'r, F, R, G> {
    /// Starts threads.
    pub rt: &'r R,
    /// What is called before and after each piece.
    pub gate: &'r G,
    /// Evaluates expressions.
    pub evaluator: Evaluator<F>,
    /// The query.
    pub query: &'a Compiled,
    /// The inputs that are read beside the drivers.
    pub library: &'a Library,
    /// The values of the declared variables.
    pub globals: &'a [Vec<Item>],
    /// The values of the slots where leaves begin.
    pub frame: &'a [Value<'a>],
    /// How many workers there are at most.
    pub workers: u32,
    /// How many bytes a piece is to have.
    pub size: u64,
    ghost some_workers: { 0 < workers },
    ghost some_bytes: { 0 < size },
}

// A FLWOR with a driver, whose parts are evaluated at this depth.
#[derive(Clone, Copy)]
pub(crate) struct LeafFlwor<'q> {
    pub clauses: &'q [BoundClause],
    pub body: &'q BoundExpr,
    pub driver: Driver<'q>,
    pub depth: u32,
}
