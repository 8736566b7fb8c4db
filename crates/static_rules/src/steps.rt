//! Postfix expressions and their steps.

ghost use Rattle.std.specs.Prelude.{◌≡◌, IfOk, OnOk};
ghost use Rattle.query_tree.specs.Plain.{member_step, filter_step, field_step, computed_lookup, postfix_form};
ghost use Rattle.static_rules.specs.Compiling.{compiled, compiled_form, compiled_lookup, compiled_steps, compiled_step};
ghost use Rattle.query_tree.specs.NamedViews.{named_tree, named_lookup, named_steps, named_step};
ghost use Rattle.query_tree.specs.BoundViews.{bound_form, bound_lookup, bound_steps, bound_step};
ghost use Rattle.static_rules.specs.Sources.{behind_tree, behind_form, behind_lookup, behind_steps, behind_step};

use crate::exprs::expr;
use crate::gather::{both, boxed, pushed};
use crate::leaves::{BoundKind, context_key, name_key, text_key, var_key};
use crate::walk::Walk;
use item_tree::{NoMemory, Str};
use query_tree::{BoundExpr, Kind, Lookup, NamedExpr, Slot, Step};
use std::alloc::Global;

#[cycle(walk)]
#[tactic(auto, using(query_tree::proofs::Layers::layers, crate::proofs::Passing::passings))]
pub fn postfix<'q>(
    alloc: Global,
    walk: &mut Walk<'q>,
    item: bool,
    rest: &'q [Step<Str, NamedExpr>],
    primary: &'q NamedExpr,
) -> Result<BoundKind, NoMemory>
    ensures tree { IfOk result
        (λ t.
        bound_form t
        ≡ compiled_form walk.old.names walk.old.number
        (postfix_form (named_tree primary.now) (named_steps rest.now))) }
    ensures walk { OnOk result
        (walk.new
        ≡ behind_form walk.old item 0
        (postfix_form (named_tree primary.now) (named_steps rest.now))) }
{
    let primary = boxed(alloc, expr(alloc, walk, item, primary));
    let steps = steps(alloc, walk, item, rest);
    let (primary, steps) = both(primary, steps)?;
    Ok(Kind::Postfix { primary, steps })
}

#[cycle(walk)]
fn steps<'q>(
    alloc: Global,
    walk: &mut Walk<'q>,
    item: bool,
    parts: &'q [Step<Str, NamedExpr>],
) -> Result<Vec<Step<Slot, BoundExpr>>, NoMemory>
    ensures tree { IfOk result
        (λ t.
        bound_steps t.items
        ≡ compiled_steps walk.old.names walk.old.number (named_steps parts.now)) }
    ensures walk { OnOk result (walk.new ≡ behind_steps walk.old item (named_steps parts.now)) }
{
    let mut out = Vec::new(alloc);
    for part in parts {
        out = pushed(out, step(alloc, walk, item, part))?;
    }
    Ok(out)
}

#[cycle(walk)]
#[tactic(auto, using(query_tree::proofs::Layers::layers, crate::proofs::Passing::passings))]
fn step<'q>(
    alloc: Global,
    walk: &mut Walk<'q>,
    item: bool,
    part: &'q Step<Str, NamedExpr>,
) -> Result<Step<Slot, BoundExpr>, NoMemory>
    ensures tree { IfOk result
        (λ t. bound_step t ≡ compiled_step walk.old.names walk.old.number (named_step part.now)) }
    ensures walk { OnOk result (walk.new ≡ behind_step walk.old item (named_step part.now)) }
{
    match part {
        Step::Members { place } => Ok(Step::Members { place: *place }),
        Step::Member { place, position } => member(alloc, walk, item, *place, position),
        Step::Filter { place, test } => filter(alloc, walk, item, *place, test),
        Step::Field { place, key } => field(alloc, walk, item, *place, key),
    }
}

#[cycle(walk)]
#[tactic(auto, using(query_tree::proofs::Layers::layers, crate::proofs::Passing::passings))]
fn member<'q>(
    alloc: Global,
    walk: &mut Walk<'q>,
    item: bool,
    place: u32,
    position: &'q NamedExpr,
) -> Result<Step<Slot, BoundExpr>, NoMemory>
    ensures tree { IfOk result
        (λ t.
        bound_step t
        ≡ member_step place (compiled walk.old.names walk.old.number (named_tree position.now))) }
    ensures walk { OnOk result (walk.new ≡ behind_tree walk.old item (named_tree position.now)) }
{
    let position = expr(alloc, walk, item, position)?;
    Ok(Step::Member { place, position })
}

#[cycle(walk)]
#[tactic(auto, using(query_tree::proofs::Layers::layers, crate::proofs::Passing::passings))]
fn filter<'q>(
    alloc: Global,
    walk: &mut Walk<'q>,
    item: bool,
    place: u32,
    test: &'q NamedExpr,
) -> Result<Step<Slot, BoundExpr>, NoMemory>
    ensures tree { IfOk result
        (λ t.
        bound_step t
        ≡ filter_step place (compiled walk.old.names walk.old.number (named_tree test.now))) }
    ensures walk { OnOk result
        (walk.new ≡ behind_step walk.old item (filter_step place (named_tree test.now))) }
{
    let test = expr(alloc, walk, true, test)?;
    Ok(Step::Filter { place, test })
}

#[cycle(walk)]
#[tactic(auto, using(query_tree::proofs::Layers::layers, crate::proofs::Passing::passings))]
fn field<'q>(
    alloc: Global,
    walk: &mut Walk<'q>,
    item: bool,
    place: u32,
    part: &'q Lookup<Str, NamedExpr>,
) -> Result<Step<Slot, BoundExpr>, NoMemory>
    ensures tree { IfOk result
        (λ t.
        bound_step t
        ≡ field_step place
        (compiled_lookup walk.old.names walk.old.number (named_lookup part.now))) }
    ensures walk { OnOk result (walk.new ≡ behind_lookup walk.old item (named_lookup part.now)) }
{
    let key = lookup(alloc, walk, item, part)?;
    Ok(Step::Field { place, key })
}

#[cycle(walk)]
#[tactic(auto, using(query_tree::proofs::Layers::layers, crate::proofs::Passing::passings))]
fn lookup<'q>(
    alloc: Global,
    walk: &mut Walk<'q>,
    item: bool,
    part: &'q Lookup<Str, NamedExpr>,
) -> Result<Lookup<Slot, BoundExpr>, NoMemory>
    ensures tree { IfOk result
        (λ t.
        bound_lookup t ≡ compiled_lookup walk.old.names walk.old.number (named_lookup part.now)) }
    ensures walk { OnOk result (walk.new ≡ behind_lookup walk.old item (named_lookup part.now)) }
{
    match part {
        Lookup::Name { name } => name_key(walk, name),
        Lookup::Text { value } => text_key(walk, value),
        Lookup::Var { variable } => var_key(walk, item, variable),
        Lookup::Context { place } => context_key(walk, item, *place),
        Lookup::Computed { value } => computed_key(alloc, walk, item, value),
    }
}

#[cycle(walk)]
#[tactic(auto, using(query_tree::proofs::Layers::layers, crate::proofs::Passing::passings))]
fn computed_key<'q>(
    alloc: Global,
    walk: &mut Walk<'q>,
    item: bool,
    value: &'q NamedExpr,
) -> Result<Lookup<Slot, BoundExpr>, NoMemory>
    ensures tree { IfOk result
        (λ t.
        bound_lookup t
        ≡ computed_lookup (compiled walk.old.names walk.old.number (named_tree value.now))) }
    ensures walk { OnOk result (walk.new ≡ behind_tree walk.old item (named_tree value.now)) }
{
    let value = expr(alloc, walk, item, value)?;
    Ok(Lookup::Computed { value })
}
