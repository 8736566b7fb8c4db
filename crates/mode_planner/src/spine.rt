//! The leaves on the spine of a body.

ghost use Rattle.std.specs.Prelude.{◌≡◌, ◌++◌, ◌∷◌, IfOk, OnOk};
ghost use Rattle.std.specs.List.{flat_map};
ghost use Rattle.query_tree.specs.BoundViews.{bound_tree, bound_operand, bound_content};
ghost use Rattle.query_tree.specs.Subtrees.{operand_children, content_children};
ghost use Rattle.query_tree.specs.inside.Waiting.{lent, waiting};
ghost use Rattle.mode_planner.specs.Spine.{onward, leaves};
ghost use Rattle.mode_planner.specs.inside.Walk.{own_leaf};

use item_tree::NoMemory;
use query_tree::{BoundExpr, Kind, Operand};
use std::alloc::Global;

// Puts a tree on the stack of those that wait.
fn push<'q>(tree: &'q BoundExpr, stack: &mut Vec<&'q BoundExpr>) -> Result<(), NoMemory>
    ensures { OnOk result
        (waiting stack.new.items ≡ bound_tree tree.now ∷ waiting stack.old.items) }
{
    stack.push(tree)?;
    Ok(())
}

// Puts what stands in parentheses on the stack.
fn push_content<'q>(
    content: &'q Option<Box<BoundExpr>>,
    stack: &mut Vec<&'q BoundExpr>,
) -> Result<(), NoMemory>
    ensures { OnOk result (waiting stack.new.items
        ≡ content_children (bound_content content.now) ++ waiting stack.old.items) }
{
    match content {
        Some(tree) => push(tree, stack),
        None => Ok(()),
    }
}

// Puts operands on the stack. The first is the next one then.
fn push_operands<'q>(
    operands: &'q [Operand<BoundExpr>],
    stack: &mut Vec<&'q BoundExpr>,
) -> Result<(), NoMemory>
    ensures { OnOk result (waiting stack.new.items
        ≡ flat_map (λ o. operand_children (bound_operand o)) operands.now
        ++ waiting stack.old.items) }
{
    let mut left = operands;
    while let Some((last, before)) = left.split_last() {
        push(&last.value, stack)?;
        left = before;
    }
    Ok(())
}

// Puts the operands of a comma on the stack.
fn push_comma<'q>(
    first: &'q BoundExpr,
    rest: &'q [Operand<BoundExpr>],
    stack: &mut Vec<&'q BoundExpr>,
) -> Result<(), NoMemory>
    ensures { OnOk result (waiting stack.new.items
        ≡ bound_tree first.now
        ∷ (flat_map (λ o. operand_children (bound_operand o)) rest.now
        ++ waiting stack.old.items)) }
{
    push_operands(rest, stack)?;
    push(first, stack)
}

// Looks at an expression on the spine: a leaf is found, and what stands on the spine in another is
// put on the stack.
#[tactic(auto, using(query_tree::proofs::Layers::layers, crate::proofs::Walking::visits))]
fn visit<'q>(
    tree: &'q BoundExpr,
    stack: &mut Vec<&'q BoundExpr>,
    found: &mut Vec<&'q BoundExpr>,
) -> Result<(), NoMemory>
    ensures stack { OnOk result (waiting stack.new.items
        ≡ onward (bound_tree tree.now) ++ waiting stack.old.items) }
    ensures found { OnOk result (lent found.new.items
        ≡ lent found.old.items ++ own_leaf (bound_tree tree.now)) }
{
    match &tree.kind {
        Kind::Comma { first, rest } => {
            push_comma(first, rest, stack)?;
            Ok(())
        }
        Kind::Paren { content } => {
            push_content(content, stack)?;
            Ok(())
        }
        Kind::Try { body, .. } => {
            push(body, stack)?;
            Ok(())
        }
        _ => {
            found.push(tree)?;
            Ok(())
        }
    }
}

/// The leaves on the spine of a tree, in text order.
pub(crate) fn leaves<'q>(alloc: Global, tree: &'q BoundExpr) -> Result<Vec<&'q BoundExpr>, NoMemory>
    ensures { IfOk result (λ v. lent v.items ≡ leaves (bound_tree tree.now)) }
{
    let mut found = Vec::new(alloc);
    let mut stack = vec![in alloc; tree]?;
    while let Some(next) = stack.pop() {
        visit(next, &mut stack, &mut found)?;
    }
    Ok(found)
}
