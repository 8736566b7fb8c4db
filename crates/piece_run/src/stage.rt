//! A stage of a FLWOR: narrow clauses and the end after them, on tuples or on lines of an input.

ghost use Rattle.std.specs.Prelude.{◌≡◌, ◌+◌, ◌<◌, ◌^◌, length, true};
ghost use Rattle.query_tree.specs.BoundViews.{bound_clauses};
ghost use Rattle.query_meaning.specs.Pieces.{are_narrow};

use clause_eval::{Binding, BoundClause, Evaluator};
use item_tree::Item;
use line_pieces::Cut;
use query_meaning::{Library, Value};
use query_tree::{BoundExpr, Compiled, GroupVar, Slot};

/// Narrow clauses, which are the steps of a stage before its end.
#[derive(Clone, Copy)]
pub struct NarrowSteps<'q> {
    /// The number of the first one.
    pub first: u32,
    /// The clauses. The end has the number after the last one.
    pub clauses: &'q [BoundClause],
    ghost after_one: { 0 < first },
    ghost few: { first + length clauses.now + 1 < 2 ^ 32 },
    ghost narrow: { are_narrow (bound_clauses clauses.now) ≡ true },
}

/// What a stage ends in, beside `order by`.
#[derive(Clone, Copy)]
pub enum StageEnd<'q> {
    /// `return`, with its expression.
    Items(&'q BoundExpr),
    /// `count`
    Numbers,
    /// `group by`, with its keys.
    Groups(&'q [GroupVar<Slot, BoundExpr>]),
}

/// A stage of a FLWOR that reads an input: a `for` over its lines, narrow clauses, and an end.
#[derive(Drop)]
pub struct DrivenStage<'a, F> {
    /// Evaluates expressions.
    pub evaluator: Evaluator<F>,
    /// The query.
    pub query: &'a Compiled,
    /// The inputs that are read already.
    pub library: &'a Library,
    /// The values of the declared variables.
    pub globals: &'a [Vec<Item>],
    /// The values of the slots before the `for`.
    pub leading: &'a [Value<'a>],
    /// How many nodes may still stand in one another.
    pub depth: u32,
    /// The number of the step that reads. The `for` has the next one.
    pub reading: u32,
    /// The place of the input in the query, which faults of its lines name.
    pub place: u32,
    /// What the `for` binds.
    pub binding: Binding<'a>,
    /// The narrow clauses after the `for`.
    pub clauses: &'a [BoundClause],
    /// What the stage ends in.
    pub end: StageEnd<'a>,
    /// The pieces of the input.
    pub cut: &'a Cut,
    /// How many lines stand before each piece, where the `for` numbers its items.
    pub before: &'a [u64],
    ghost few: { reading + length clauses.now + 3 < 2 ^ 32 },
    ghost narrow: { are_narrow (bound_clauses clauses.now) ≡ true },
}
