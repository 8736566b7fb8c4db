//! The trees that a node of a compiled tree holds, on a stack of those that wait to be seen.

ghost use Rattle.std.specs.Prelude.{◌≡◌, [], ◌∷◌, ◌++◌, List, OnOk};
ghost use Rattle.std.specs.List.{flat_map};
ghost use Rattle.query_tree.specs.Bound.{BoundTree};
ghost use Rattle.query_tree.specs.BoundViews.{bound_tree, bound_form, bound_operand, bound_term, bound_factor, bound_bind, bound_case, bound_type_case, bound_catch, bound_pair, bound_lookup, bound_step, bound_group_var, bound_order_key, bound_clause, bound_content};
ghost use Rattle.query_tree.specs.Subtrees.{form_children, content_children, operand_children, term_children, factor_children, bind_children, case_children, type_case_children, catch_children, pair_children, lookup_children, step_children, group_var_children, order_key_children, clause_children};
ghost use Rattle.query_tree.specs.inside.Waiting.{waiting};

use crate::{
    Bind, BoundExpr, Case, Catch, Clause, Factor, GroupVar, Kind, Lookup, Operand, OrderKey, Pair,
    Slot, Step, Target, Term, TypeCase,
};
use item_tree::NoMemory;
use seq_types::SeqType;

pub(crate) type BoundKind = Kind<Slot, Target, SeqType>;

type BoundClause = Clause<Slot, Target, SeqType>;

// What holds expressions of a compiled tree.
trait Holds {
    // the trees that it holds, in text order
    ghost held: { Self → List BoundTree };

    // Puts them on the stack. The first is the next one then.
    fn push_held<'t>(&'t self, stack: &mut Vec<&'t BoundExpr>) -> Result<(), NoMemory>
        ensures { OnOk result
            (waiting stack.new.items ≡ held self.now ++ waiting stack.old.items) };
}

// Puts a tree on the stack.
fn push<'t>(tree: &'t BoundExpr, stack: &mut Vec<&'t BoundExpr>) -> Result<(), NoMemory>
    ensures { OnOk result
        (waiting stack.new.items ≡ bound_tree tree.now ∷ waiting stack.old.items) }
{
    stack.push(tree)?;
    Ok(())
}

// Puts the trees that these hold on the stack.
fn push_all<'t, P: Holds>(parts: &'t [P], stack: &mut Vec<&'t BoundExpr>) -> Result<(), NoMemory>
    ensures { OnOk result (waiting stack.new.items
        ≡ flat_map P.held parts.now ++ waiting stack.old.items) }
{
    let mut left = parts;
    while let Some((last, before)) = left.split_last() {
        last.push_held(stack)?;
        left = before;
    }
    Ok(())
}

// A tree, and those that parts behind it hold.
fn push_chain<'t, P: Holds>(
    first: &'t BoundExpr,
    rest: &'t [P],
    stack: &mut Vec<&'t BoundExpr>,
) -> Result<(), NoMemory>
    ensures { OnOk result (waiting stack.new.items
        ≡ bound_tree first.now ∷ (flat_map P.held rest.now ++ waiting stack.old.items)) }
{
    push_all(rest, stack)?;
    push(first, stack)
}

// Those that parts hold, and a tree behind them.
fn push_before<'t, P: Holds>(
    parts: &'t [P],
    last: &'t BoundExpr,
    stack: &mut Vec<&'t BoundExpr>,
) -> Result<(), NoMemory>
    ensures { OnOk result (waiting stack.new.items
        ≡ flat_map P.held parts.now ++ bound_tree last.now ∷ waiting stack.old.items) }
{
    push(last, stack)?;
    push_all(parts, stack)
}

// Two trees, and between them those that parts hold.
fn push_choice<'t, P: Holds>(
    first: &'t BoundExpr,
    parts: &'t [P],
    last: &'t BoundExpr,
    stack: &mut Vec<&'t BoundExpr>,
) -> Result<(), NoMemory>
    ensures { OnOk result (waiting stack.new.items
        ≡ bound_tree first.now
        ∷ (flat_map P.held parts.now ++ bound_tree last.now ∷ waiting stack.old.items)) }
{
    push_before(parts, last, stack)?;
    push(first, stack)
}

fn push_pair<'t>(
    first: &'t BoundExpr,
    second: &'t BoundExpr,
    stack: &mut Vec<&'t BoundExpr>,
) -> Result<(), NoMemory>
    ensures { OnOk result (waiting stack.new.items
        ≡ bound_tree first.now ∷ bound_tree second.now ∷ waiting stack.old.items) }
{
    push(second, stack)?;
    push(first, stack)
}

fn push_content<'t>(
    content: &'t Option<Box<BoundExpr>>,
    stack: &mut Vec<&'t BoundExpr>,
) -> Result<(), NoMemory>
    ensures { OnOk result (waiting stack.new.items
        ≡ content_children (bound_content content.now) ++ waiting stack.old.items) }
{
    match content {
        Some(tree) => push(tree, stack),
        None => Ok(()),
    }
}

impl Holds for BoundExpr {
    ghost held = { λ e. bound_tree e ∷ [] };

    fn push_held<'t>(&'t self, stack: &mut Vec<&'t BoundExpr>) -> Result<(), NoMemory> {
        push(self, stack)
    }
}

impl Holds for Operand<BoundExpr> {
    ghost held = { λ o. operand_children (bound_operand o) };

    fn push_held<'t>(&'t self, stack: &mut Vec<&'t BoundExpr>) -> Result<(), NoMemory> {
        push(&self.value, stack)
    }
}

impl Holds for Term<BoundExpr> {
    ghost held = { λ t. term_children (bound_term t) };

    fn push_held<'t>(&'t self, stack: &mut Vec<&'t BoundExpr>) -> Result<(), NoMemory> {
        push(&self.value, stack)
    }
}

impl Holds for Factor<BoundExpr> {
    ghost held = { λ f. factor_children (bound_factor f) };

    fn push_held<'t>(&'t self, stack: &mut Vec<&'t BoundExpr>) -> Result<(), NoMemory> {
        push(&self.value, stack)
    }
}

impl Holds for Bind<Slot, SeqType, BoundExpr> {
    ghost held = { λ b. bind_children (bound_bind b) };

    fn push_held<'t>(&'t self, stack: &mut Vec<&'t BoundExpr>) -> Result<(), NoMemory> {
        push(&self.source, stack)
    }
}

impl Holds for Case<BoundExpr> {
    ghost held = { λ c. case_children (bound_case c) };

    fn push_held<'t>(&'t self, stack: &mut Vec<&'t BoundExpr>) -> Result<(), NoMemory> {
        push_before(&self.tests, &self.result, stack)
    }
}

impl Holds for TypeCase<Slot, SeqType, BoundExpr> {
    ghost held = { λ c. type_case_children (bound_type_case c) };

    fn push_held<'t>(&'t self, stack: &mut Vec<&'t BoundExpr>) -> Result<(), NoMemory> {
        push(&self.result, stack)
    }
}

impl Holds for Catch<Slot, BoundExpr> {
    ghost held = { λ c. catch_children (bound_catch c) };

    fn push_held<'t>(&'t self, stack: &mut Vec<&'t BoundExpr>) -> Result<(), NoMemory> {
        push(&self.body, stack)
    }
}

impl Holds for Pair<BoundExpr> {
    ghost held = { λ q. pair_children (bound_pair q) };

    fn push_held<'t>(&'t self, stack: &mut Vec<&'t BoundExpr>) -> Result<(), NoMemory> {
        match self {
            Pair::Named { value, .. } => push(value, stack),
            Pair::Computed { key, value, .. } => push_pair(key, value, stack),
        }
    }
}

impl Holds for Lookup<Slot, BoundExpr> {
    ghost held = { λ k. lookup_children (bound_lookup k) };

    fn push_held<'t>(&'t self, stack: &mut Vec<&'t BoundExpr>) -> Result<(), NoMemory> {
        match self {
            Lookup::Computed { value } => push(value, stack),
            Lookup::Name { .. }
            | Lookup::Text { .. }
            | Lookup::Var { .. }
            | Lookup::Context { .. } => Ok(()),
        }
    }
}

impl Holds for Step<Slot, BoundExpr> {
    ghost held = { λ s. step_children (bound_step s) };

    fn push_held<'t>(&'t self, stack: &mut Vec<&'t BoundExpr>) -> Result<(), NoMemory> {
        match self {
            Step::Members { .. } => Ok(()),
            Step::Member { position, .. } => push(position, stack),
            Step::Filter { test, .. } => push(test, stack),
            Step::Field { key, .. } => key.push_held(stack),
        }
    }
}

impl Holds for GroupVar<Slot, BoundExpr> {
    ghost held = { λ k. group_var_children (bound_group_var k) };

    fn push_held<'t>(&'t self, stack: &mut Vec<&'t BoundExpr>) -> Result<(), NoMemory> {
        match self {
            GroupVar::Stream { .. } => Ok(()),
            GroupVar::Computed { value, .. } => push(value, stack),
        }
    }
}

impl Holds for OrderKey<BoundExpr> {
    ghost held = { λ k. order_key_children (bound_order_key k) };

    fn push_held<'t>(&'t self, stack: &mut Vec<&'t BoundExpr>) -> Result<(), NoMemory> {
        push(&self.value, stack)
    }
}

#[tactic(auto, using(crate::proofs::Layers::layers, crate::proofs::Held::listed))]
impl Holds for BoundClause {
    ghost held = { λ c. clause_children (bound_clause c) };

    fn push_held<'t>(&'t self, stack: &mut Vec<&'t BoundExpr>) -> Result<(), NoMemory> {
        match self {
            Clause::For { source, .. } => push(source, stack),
            Clause::Let { value, .. } => push(value, stack),
            Clause::Where { test, .. } => push(test, stack),
            Clause::Group { keys, .. } => push_all(keys, stack),
            Clause::Order { keys, .. } => push_all(keys, stack),
            Clause::Count { .. } => Ok(()),
        }
    }
}

/// Puts the trees that a node of this kind holds on the stack. The first is the next one then.
#[tactic(auto, using(crate::proofs::Layers::layers, crate::proofs::Held::listed))]
pub(crate) fn push_children<'t>(
    kind: &'t BoundKind,
    stack: &mut Vec<&'t BoundExpr>,
) -> Result<(), NoMemory>
    ensures { OnOk result (waiting stack.new.items
        ≡ form_children (bound_form kind.now) ++ waiting stack.old.items) }
{
    match kind {
        Kind::Comma { first, rest } => push_chain(first, rest, stack),
        Kind::Or { first, rest } => push_chain(first, rest, stack),
        Kind::And { first, rest } => push_chain(first, rest, stack),
        Kind::Concat { first, rest } => push_chain(first, rest, stack),
        Kind::Map { first, rest } => push_chain(first, rest, stack),
        Kind::Sum { first, rest } => push_chain(first, rest, stack),
        Kind::Product { first, rest } => push_chain(first, rest, stack),
        Kind::Postfix { primary, steps } => push_chain(primary, steps, stack),
        Kind::Try { body, catches } => push_chain(body, catches, stack),
        Kind::Compare { left, right, .. } | Kind::Range { left, right, .. } => {
            push_pair(left, right, stack)
        }
        Kind::Not { operand }
        | Kind::Sign { operand, .. }
        | Kind::Instance { operand, .. }
        | Kind::Treat { operand, .. }
        | Kind::Castable { operand, .. }
        | Kind::Cast { operand, .. } => push(operand, stack),
        Kind::If {
            condition,
            when_true,
            when_false,
        } => {
            push_pair(when_true, when_false, stack)?;
            push(condition, stack)
        }
        Kind::Switch {
            operand,
            cases,
            default,
        } => push_choice(operand, cases, default, stack),
        Kind::Typeswitch {
            operand,
            cases,
            default,
            ..
        } => { push_choice(operand, cases, default, stack) }
        Kind::Flwor {
            clauses,
            result,
            ..
        } => push_before(clauses, result, stack),
        Kind::Quant { binds, test, .. } => push_before(binds, test, stack),
        Kind::Paren { content } | Kind::Merge { content } | Kind::Array { content } => {
            push_content(content, stack)
        }
        Kind::Object { pairs } => push_all(pairs, stack),
        Kind::Call { arguments, .. } => push_all(arguments, stack),
        Kind::Int { .. }
        | Kind::Dec { .. }
        | Kind::Text { .. }
        | Kind::True
        | Kind::False
        | Kind::Null
        | Kind::Var { .. }
        | Kind::Context => Ok(()),
    }
}
