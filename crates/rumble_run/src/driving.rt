//! What a driver drives, as the code holds it.

ghost use Rattle.std.specs.Prelude.{◌≡◌, option_map};
ghost use Rattle.query_tree.specs.BoundViews.{bound_tree, bound_tree_list};
ghost use Rattle.rumble_run.specs.inside.Driving.{lines_of, built_of, driving_of, over_of, only_of, seen, seen_over};

use item_tree::FnId;
use query_tree::{BoundExpr, Clause, InputNames, Kind, Slot, Target};
use seq_types::SeqType;

/// A clause of a compiled query.
pub(crate) type BoundClause = Clause<Slot, Target, SeqType>;

/// An expression that a driver may drive.
pub(crate) enum Driving<'q> {
    /// A FLWOR of these clauses, and what it returns.
    Flwor(&'q [BoundClause], &'q BoundExpr),
    /// A call of `json-lines` with these names.
    Lines(&'q InputNames),
}

// The names that a call of this target reads.
fn lines_of(target: &Target) -> Option<&InputNames>
    ensures { option_map (λ ns. ns.now) result ≡ lines_of target.now }
{
    match target {
        Target::Lines(names) => Some(names),
        Target::Built(_) => None,
        Target::Own(_) => None,
    }
}

/// An expression that a driver may drive, by its kind.
#[tactic(auto, using(query_tree::proofs::Layers::layers))]
pub(crate) fn driving_of(tree: &BoundExpr) -> Option<Driving<'_>>
    ensures { option_map seen result ≡ driving_of (bound_tree tree.now) }
{
    match &tree.kind {
        Kind::Flwor {
            clauses,
            result,
            ..
        } => Some(Driving::Flwor(clauses.as_slice(), result)),
        Kind::Call { function, .. } => match lines_of(function) {
            Some(names) => Some(Driving::Lines(names)),
            None => None,
        },
        _ => None,
    }
}

// The only one of some arguments.
fn only_of(arguments: &[BoundExpr]) -> Option<&BoundExpr>
    ensures { option_map (λ e. bound_tree e.now) result ≡ only_of (bound_tree_list arguments.now) }
{
    let (only, rest) = arguments.split_first()?;
    if rest.is_empty() { Some(only) } else { None }
}

// The function of the language that a target is.
fn built_of(target: &Target) -> Option<FnId>
    ensures { result ≡ built_of target.now }
{
    match target {
        Target::Built(id) => Some(*id),
        Target::Own(_) => None,
        Target::Lines(_) => None,
    }
}

/// A function of the language that is called with one argument, and the argument.
#[tactic(auto, using(query_tree::proofs::Layers::layers))]
pub(crate) fn over_of(tree: &BoundExpr) -> Option<(FnId, &BoundExpr)>
    ensures { option_map seen_over result ≡ over_of (bound_tree tree.now) }
{
    match &tree.kind {
        Kind::Call {
            function,
            arguments,
        } => {
            let id = built_of(function)?;
            let only = only_of(arguments.as_slice())?;
            Some((id, only))
        }
        _ => None,
    }
}
