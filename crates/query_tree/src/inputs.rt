//! The inputs that a compiled query may read.

ghost use Rattle.std.specs.Prelude.{◌≡◌, IfOk};
ghost use Rattle.query_tree.specs.BoundViews.{bound_tree, bound_form};
ghost use Rattle.query_tree.specs.Calls.{calls};
ghost use Rattle.query_tree.specs.Compiled.{bound_trees};
ghost use Rattle.query_tree.specs.Inputs.{names_read, all_names, input_names};
ghost use Rattle.query_tree.specs.inside.Told.{with_names, form_names};

use crate::children::{BoundKind, push_children};
use crate::distinct_names::DistinctNames;
use crate::text_order::in_text_order;
use crate::{BoundExpr, BoundModule, Kind, Target};
use item_tree::{NoMemory, Str};
use std::alloc::Global;

impl DistinctNames {
    // With those that a call of this target reads.
    fn with_target(self, target: &Target) -> Result<DistinctNames, NoMemory>
        ensures { IfOk result (λ n.
            n.found.items ≡ with_names self.found.items (names_read target.now)) }
    {
        match target {
            Target::Lines(names) => self.with_all(names.as_slice()),
            Target::Built(_) => Ok(self),
            Target::Own(_) => Ok(self),
        }
    }

    // With those that an expression of this kind reads itself.
    #[tactic(auto, using(crate::proofs::Layers::layers))]
    fn with_kind(self, kind: &BoundKind) -> Result<DistinctNames, NoMemory>
        ensures { IfOk result (λ n.
            n.found.items ≡ with_names self.found.items (form_names (bound_form kind.now))) }
    {
        match kind {
            Kind::Call { function, .. } => self.with_target(function),
            _ => Ok(self),
        }
    }

    // With those that all calls in this tree read.
    fn with_tree(self, alloc: Global, tree: &BoundExpr) -> Result<DistinctNames, NoMemory>
        ensures { IfOk result (λ n. n.found.items
            ≡ with_names self.found.items (all_names (calls (bound_tree tree.now)))) }
    {
        let mut names = self;
        let mut stack = vec![in alloc; tree]?;
        while let Some(next) = stack.pop() {
            names = names.with_kind(&next.kind)?;
            push_children(&next.kind, &mut stack)?;
        }
        Ok(names)
    }
}

/// The different names of the inputs that a query may read: those in all its calls of `json-lines`,
/// in order of first appearance.
///
/// The time grows with the size of the query, and with the number of its names times the logarithm
/// of how many of them differ.
///
/// # Errors
///
/// `NoMemory` where memory runs out.
pub fn input_names(alloc: Global, query: &BoundModule) -> Result<Vec<Str>, NoMemory>
    ensures { IfOk result (λ v. v.items ≡ input_names (bound_trees query.now)) }
{
    let mut names = DistinctNames::new(alloc);
    let trees = in_text_order(alloc, query)?;
    for tree in &trees {
        names = names.with_tree(alloc, tree)?;
    }
    Ok(names.into_list())
}
