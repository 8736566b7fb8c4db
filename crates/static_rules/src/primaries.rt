//! Parentheses, objects, arrays and calls.

ghost use Rattle.std.specs.Prelude.{◌≡◌, IfOk, OnOk};
ghost use Rattle.query_tree.specs.Plain.{one_tree, named_pair, computed_pair, paren_form, object_form, merge_form, array_form, call_form};
ghost use Rattle.static_rules.specs.Compiling.{compiled, compiled_form, compiled_content, compiled_trees, compiled_pairs, compiled_pair};
ghost use Rattle.query_tree.specs.NamedViews.{named_tree, named_content, named_tree_list, named_pairs, source_pair};
ghost use Rattle.query_tree.specs.BoundViews.{bound_form, bound_content, bound_tree_list, bound_pairs, bound_pair};
ghost use Rattle.static_rules.specs.Sources.{behind_tree, behind_form, behind_content, behind_trees, behind_pairs, behind_pair};

use crate::exprs::expr;
use crate::gather::{both, boxed, pushed};
use crate::leaves::BoundKind;
use crate::walk::Walk;
use item_tree::{NoMemory, Str};
use query_tree::{BoundExpr, Kind, NamedExpr, Pair};
use std::alloc::Global;

#[cycle(walk)]
#[tactic(auto, using(query_tree::proofs::Layers::layers, crate::proofs::Passing::passings))]
pub fn paren<'q>(
    alloc: Global,
    walk: &mut Walk<'q>,
    item: bool,
    inner: &'q Option<Box<NamedExpr>>,
) -> Result<BoundKind, NoMemory>
    ensures tree { IfOk result
        (λ t.
        bound_form t
        ≡ compiled_form walk.old.names walk.old.number (paren_form (named_content inner.now))) }
    ensures walk { OnOk result
        (walk.new ≡ behind_form walk.old item 0 (paren_form (named_content inner.now))) }
{
    let content = content(alloc, walk, item, inner)?;
    Ok(Kind::Paren { content })
}

#[cycle(walk)]
#[tactic(auto, using(query_tree::proofs::Layers::layers, crate::proofs::Passing::passings))]
pub fn merge<'q>(
    alloc: Global,
    walk: &mut Walk<'q>,
    item: bool,
    inner: &'q Option<Box<NamedExpr>>,
) -> Result<BoundKind, NoMemory>
    ensures tree { IfOk result
        (λ t.
        bound_form t
        ≡ compiled_form walk.old.names walk.old.number (merge_form (named_content inner.now))) }
    ensures walk { OnOk result
        (walk.new ≡ behind_form walk.old item 0 (merge_form (named_content inner.now))) }
{
    let content = content(alloc, walk, item, inner)?;
    Ok(Kind::Merge { content })
}

#[cycle(walk)]
#[tactic(auto, using(query_tree::proofs::Layers::layers, crate::proofs::Passing::passings))]
pub fn array<'q>(
    alloc: Global,
    walk: &mut Walk<'q>,
    item: bool,
    inner: &'q Option<Box<NamedExpr>>,
) -> Result<BoundKind, NoMemory>
    ensures tree { IfOk result
        (λ t.
        bound_form t
        ≡ compiled_form walk.old.names walk.old.number (array_form (named_content inner.now))) }
    ensures walk { OnOk result
        (walk.new ≡ behind_form walk.old item 0 (array_form (named_content inner.now))) }
{
    let content = content(alloc, walk, item, inner)?;
    Ok(Kind::Array { content })
}

#[cycle(walk)]
#[tactic(auto, using(query_tree::proofs::Layers::layers, crate::proofs::Passing::passings))]
fn content<'q>(
    alloc: Global,
    walk: &mut Walk<'q>,
    item: bool,
    content: &'q Option<Box<NamedExpr>>,
) -> Result<Option<Box<BoundExpr>>, NoMemory>
    ensures tree { IfOk result
        (λ t.
        bound_content t
        ≡ compiled_content walk.old.names walk.old.number (named_content content.now)) }
    ensures walk { OnOk result
        (walk.new ≡ behind_content walk.old item (named_content content.now)) }
{
    match content {
        None => Ok(None),
        Some(e) => one(alloc, walk, item, e),
    }
}

#[cycle(walk)]
#[tactic(auto, using(query_tree::proofs::Layers::layers, crate::proofs::Passing::passings))]
fn one<'q>(
    alloc: Global,
    walk: &mut Walk<'q>,
    item: bool,
    e: &'q NamedExpr,
) -> Result<Option<Box<BoundExpr>>, NoMemory>
    ensures tree { IfOk result
        (λ t.
        bound_content t ≡ one_tree (compiled walk.old.names walk.old.number (named_tree e.now))) }
    ensures walk { OnOk result (walk.new ≡ behind_tree walk.old item (named_tree e.now)) }
{
    let e = boxed(alloc, expr(alloc, walk, item, e))?;
    Ok(Some(e))
}

#[cycle(walk)]
#[tactic(auto, using(query_tree::proofs::Layers::layers, crate::proofs::Passing::passings))]
pub fn object<'q>(
    alloc: Global,
    walk: &mut Walk<'q>,
    item: bool,
    inner: &'q [Pair<NamedExpr>],
) -> Result<BoundKind, NoMemory>
    ensures tree { IfOk result
        (λ t.
        bound_form t
        ≡ compiled_form walk.old.names walk.old.number (object_form (named_pairs inner.now))) }
    ensures walk { OnOk result
        (walk.new ≡ behind_form walk.old item 0 (object_form (named_pairs inner.now))) }
{
    let pairs = pairs(alloc, walk, item, inner)?;
    Ok(Kind::Object { pairs })
}

#[cycle(walk)]
fn pairs<'q>(
    alloc: Global,
    walk: &mut Walk<'q>,
    item: bool,
    parts: &'q [Pair<NamedExpr>],
) -> Result<Vec<Pair<BoundExpr>>, NoMemory>
    ensures tree { IfOk result
        (λ t.
        bound_pairs t.items
        ≡ compiled_pairs walk.old.names walk.old.number (named_pairs parts.now)) }
    ensures walk { OnOk result (walk.new ≡ behind_pairs walk.old item (named_pairs parts.now)) }
{
    let mut out = Vec::new(alloc);
    for part in parts {
        out = pushed(out, pair(alloc, walk, item, part))?;
    }
    Ok(out)
}

#[cycle(walk)]
#[tactic(auto, using(query_tree::proofs::Layers::layers, crate::proofs::Passing::passings))]
fn pair<'q>(
    alloc: Global,
    walk: &mut Walk<'q>,
    item: bool,
    part: &'q Pair<NamedExpr>,
) -> Result<Pair<BoundExpr>, NoMemory>
    ensures tree { IfOk result
        (λ t. bound_pair t ≡ compiled_pair walk.old.names walk.old.number (source_pair part.now)) }
    ensures walk { OnOk result (walk.new ≡ behind_pair walk.old item (source_pair part.now)) }
{
    match part {
        Pair::Named { name, place, value } => plain_pair(alloc, walk, item, name, *place, value),
        Pair::Computed { key, place, value } => computed_pair(
            alloc, walk, item, key, *place, value,
        ),
    }
}

#[cycle(walk)]
#[tactic(auto, using(query_tree::proofs::Layers::layers, crate::proofs::Passing::passings))]
fn plain_pair<'q>(
    alloc: Global,
    walk: &mut Walk<'q>,
    item: bool,
    name: &Str,
    place: u32,
    value: &'q NamedExpr,
) -> Result<Pair<BoundExpr>, NoMemory>
    ensures tree { IfOk result
        (λ t.
        bound_pair t
        ≡ named_pair name.now place
        (compiled walk.old.names walk.old.number (named_tree value.now))) }
    ensures walk { OnOk result (walk.new ≡ behind_tree walk.old item (named_tree value.now)) }
{
    let name = name.copy()?;
    let value = expr(alloc, walk, item, value)?;
    Ok(Pair::Named { name, place, value })
}

#[cycle(walk)]
#[tactic(auto, using(query_tree::proofs::Layers::layers, crate::proofs::Passing::passings))]
fn computed_pair<'q>(
    alloc: Global,
    walk: &mut Walk<'q>,
    item: bool,
    key: &'q NamedExpr,
    place: u32,
    value: &'q NamedExpr,
) -> Result<Pair<BoundExpr>, NoMemory>
    ensures tree { IfOk result
        (λ t.
        bound_pair t
        ≡ compiled_pair walk.old.names walk.old.number
        (computed_pair (named_tree key.now) place (named_tree value.now))) }
    ensures walk { OnOk result
        (walk.new
        ≡ behind_pair walk.old item
        (computed_pair (named_tree key.now) place (named_tree value.now))) }
{
    let key = expr(alloc, walk, item, key);
    let value = expr(alloc, walk, item, value);
    let (key, value) = both(key, value)?;
    Ok(Pair::Computed { key, place, value })
}

#[cycle(walk)]
#[tactic(auto, using(query_tree::proofs::Layers::layers, crate::proofs::Passing::passings))]
pub fn call<'q>(
    alloc: Global,
    walk: &mut Walk<'q>,
    item: bool,
    place: u32,
    function: &Str,
    arguments: &'q [NamedExpr],
) -> Result<BoundKind, NoMemory>
    ensures tree { IfOk result
        (λ t.
        bound_form t
        ≡ compiled_form walk.old.names walk.old.number
        (call_form function.now (named_tree_list arguments.now))) }
    ensures walk { OnOk result
        (walk.new
        ≡ behind_form walk.old item place
        (call_form function.now (named_tree_list arguments.now))) }
{
    let function = walk.call(alloc, place, function, arguments);
    let arguments = trees(alloc, walk, item, arguments);
    let (function, arguments) = both(function, arguments)?;
    Ok(Kind::Call {
        function,
        arguments,
    })
}

#[cycle(walk)]
pub fn trees<'q>(
    alloc: Global,
    walk: &mut Walk<'q>,
    item: bool,
    parts: &'q [NamedExpr],
) -> Result<Vec<BoundExpr>, NoMemory>
    ensures tree { IfOk result
        (λ t.
        bound_tree_list t.items
        ≡ compiled_trees walk.old.names walk.old.number (named_tree_list parts.now)) }
    ensures walk { OnOk result (walk.new ≡ behind_trees walk.old item (named_tree_list parts.now)) }
{
    let mut out = Vec::new(alloc);
    for part in parts {
        out = pushed(out, expr(alloc, walk, item, part))?;
    }
    Ok(out)
}
