//! A FLWOR over the lines of an input whose files are open.

ghost use Rattle.std.specs.Prelude.{◌≡◌, ◌+◌, ◌<◌, ◌≤◌, false, true, length, take, drop};
ghost use Rattle.query_tree.specs.Bound.{BoundTree};
ghost use Rattle.query_tree.specs.BoundViews.{bound_clause, bound_clauses};
ghost use Rattle.query_tree.specs.Plain.{for_clause};
ghost use Rattle.query_meaning.specs.Pieces.{are_narrow};
ghost use Rattle.query_meaning.specs.inside.Views.{environment_of, eval_in};
ghost use Rattle.piece_run.specs.Flwors.{flwor_inner, flwor_environment, ForOver, for_over, GoesOn, after_for, EndsIn};

use crate::first_end::{FirstEnd, first_end};
use clause_eval::{Binding, BoundClause, Evaluator};
use item_tree::Item;
use line_pieces::Cut;
use query_meaning::{Env, Library, Value};
use query_tree::{BoundExpr, Clause, Compiled};

/// A FLWOR with a `for` over the lines of an input, before which only `let`s stand, which are
/// evaluated already. The files of the input are open.
#[derive(Drop)]
pub struct DrivenFlwor<'a, F> {
    /// Evaluates expressions.
    pub evaluator: Evaluator<F>,
    /// The query.
    pub query: &'a Compiled,
    /// The inputs that are read already.
    pub library: &'a Library,
    /// The values of the declared variables.
    pub globals: &'a [Vec<Item>],
    /// The values of the slots after the leading `let`s.
    pub leading: &'a [Value<'a>],
    /// How many nodes may still stand in one another, in the parts of the FLWOR.
    pub depth: u32,
    /// All clauses.
    pub clauses: &'a [BoundClause],
    /// The expression of `return`.
    pub body: &'a BoundExpr,
    /// How many `let`s stand first. The `for` has the number after theirs.
    pub lets: u32,
    /// The place of the input in the query, which faults of its lines name.
    pub place: u32,
    /// The pieces of the input.
    pub cut: &'a Cut,
    /// How many lines stand before each piece, where the `for` numbers its items.
    pub before: &'a [u64],
}

// What a `for` binds.
#[tactic(auto, using(query_tree::proofs::Layers::layers))]
fn binding_of(clause: &BoundClause) -> Binding<'_>
    requires { (w : ForOver) × (bound_clause clause.now
        ≡ for_clause w.variable w.of false w.at w.source) }
    ensures { (source : BoundTree) × (bound_clause clause.now
        ≡ for_clause result.variable.now result.of.now false result.at.now source) }
{
    match clause {
        Clause::For {
            variable,
            of,
            at,
            ..
        } => Binding { variable, of, at },
        Clause::Let { .. } => unreachable!(),
        Clause::Where { .. } => unreachable!(),
        Clause::Group { .. } => unreachable!(),
        Clause::Order { .. } => unreachable!(),
        Clause::Count { .. } => unreachable!(),
    }
}

impl<'a, F> DrivenFlwor<'a, F> {
    // What its clauses are evaluated in.
    #[tactic(auto, unfolding(query_meaning::specs::inside::Views::eval_in, query_meaning::specs::inside::Views::program_of, query_meaning::specs::inside::Views::environment_of, crate::specs::Flwors::flwor_program, crate::specs::Flwors::flwor_inner, crate::specs::Flwors::flwor_environment))]
    pub(crate) fn env(&self) -> Env<'a, 'a>
        ensures depth { result.depth ≡ self.now.depth }
        ensures inner { eval_in result ≡ flwor_inner self.now }
        ensures value { environment_of result ≡ flwor_environment self.now }
    {
        Env::new(
            self.query,
            self.library,
            self.globals,
            self.leading,
            self.depth,
        )
    }

    // What the `for` binds, how many narrow clauses come after it, and what comes after these.
    pub(crate) fn first_stage(&self) -> (Binding<'a>, usize, FirstEnd<'a>)
        requires lets { self.now.lets < length self.now.clauses.now }
        requires driven { (w : ForOver) × GoesOn self.now w }
        ensures binding { (source : BoundTree) × GoesOn self.now
            (for_over result.0 source (bound_clauses (after_for self.now))) }
        ensures count { self.now.lets + 1 + result.1 ≤ length self.now.clauses.now }
        ensures narrow { are_narrow (bound_clauses (take result.1 (after_for self.now))) ≡ true }
        ensures end { EndsIn result.2 (drop result.1 (after_for self.now)) }
    {
        let lets = self.lets as usize;
        let binding = binding_of(&self.clauses[lets]);
        let (count, end) = first_end(&self.clauses[lets + 1..]);
        (binding, count, end)
    }
}
