//! What chooses between expressions.

ghost use Rattle.std.specs.Prelude.{◌≡◌, ◌++◌, IfOk, OnOk};
ghost use Rattle.static_rules.specs.Views.{seeing, and_any};
ghost use Rattle.static_rules.specs.Mentions.{mentions};
ghost use Rattle.query_tree.specs.Binders.{binders, any_name};
ghost use Rattle.static_rules.specs.Walks.{view_of, bound_names, passed};
ghost use Rattle.query_tree.specs.Plain.{try_form, typeswitch_form, switch_form, if_form};
ghost use Rattle.static_rules.specs.Compiling.{past, with_any, any_binding, compiled_catches, compiled_catch, compiled_type_cases, compiled_type_case, compiled, compiled_form, compiled_cases, compiled_case};
ghost use Rattle.query_tree.specs.NamedViews.{named_catches, named_catch, named_type_cases, named_type_case, named_tree, named_cases, named_case};
ghost use Rattle.query_tree.specs.BoundViews.{bound_catches, bound_catch, bound_type_cases, bound_type_case, bound_tree, bound_form, bound_cases, bound_case};
ghost use Rattle.static_rules.specs.Sources.{behind_catches, behind_catch, behind_type_cases, behind_type_case, behind_form, behind_cases, behind_case};

use crate::exprs::expr;
use crate::gather::{both, boxed, pushed};
use crate::leaves::{BoundKind, copied_codes, local, seq_types};
use crate::primaries::trees;
use crate::walk::Walk;
use item_tree::{NoMemory, Str};
use query_tree::{BoundExpr, Case, Catch, Kind, NamedExpr, Placed, Slot, TypeCase, TypeName};
use seq_types::SeqType;
use std::alloc::Global;

#[cycle(walk)]
#[tactic(auto, using(query_tree::proofs::Layers::layers, crate::proofs::Passing::passings))]
pub fn if_else<'q>(
    alloc: Global,
    walk: &mut Walk<'q>,
    item: bool,
    condition: &'q NamedExpr,
    when_true: &'q NamedExpr,
    when_false: &'q NamedExpr,
) -> Result<BoundKind, NoMemory>
    ensures tree { IfOk result
        (λ t.
        bound_form t
        ≡ compiled_form walk.old.names walk.old.number
        (if_form (named_tree condition.now) (named_tree when_true.now)
        (named_tree when_false.now))) }
    ensures walk { OnOk result
        (walk.new
        ≡ behind_form walk.old item 0
        (if_form (named_tree condition.now) (named_tree when_true.now)
        (named_tree when_false.now))) }
{
    let condition = boxed(alloc, expr(alloc, walk, item, condition));
    let when_true = boxed(alloc, expr(alloc, walk, item, when_true));
    let when_false = boxed(alloc, expr(alloc, walk, item, when_false));
    let ((condition, when_true), when_false) = both(both(condition, when_true), when_false)?;
    Ok(Kind::If {
        condition,
        when_true,
        when_false,
    })
}

#[cycle(walk)]
#[tactic(auto, using(query_tree::proofs::Layers::layers, crate::proofs::Passing::passings))]
pub fn switch<'q>(
    alloc: Global,
    walk: &mut Walk<'q>,
    item: bool,
    inner: &'q [Case<NamedExpr>],
    operand: &'q NamedExpr,
    default: &'q NamedExpr,
) -> Result<BoundKind, NoMemory>
    ensures tree { IfOk result
        (λ t.
        bound_form t
        ≡ compiled_form walk.old.names walk.old.number
        (switch_form (named_tree operand.now) (named_cases inner.now) (named_tree default.now))) }
    ensures walk { OnOk result
        (walk.new
        ≡ behind_form walk.old item 0
        (switch_form (named_tree operand.now) (named_cases inner.now) (named_tree default.now))) }
{
    let operand = boxed(alloc, expr(alloc, walk, item, operand));
    let cases = cases(alloc, walk, item, inner);
    let default = boxed(alloc, expr(alloc, walk, item, default));
    let ((operand, cases), default) = both(both(operand, cases), default)?;
    Ok(Kind::Switch {
        operand,
        cases,
        default,
    })
}

#[cycle(walk)]
fn cases<'q>(
    alloc: Global,
    walk: &mut Walk<'q>,
    item: bool,
    parts: &'q [Case<NamedExpr>],
) -> Result<Vec<Case<BoundExpr>>, NoMemory>
    ensures tree { IfOk result
        (λ t.
        bound_cases t.items
        ≡ compiled_cases walk.old.names walk.old.number (named_cases parts.now)) }
    ensures walk { OnOk result (walk.new ≡ behind_cases walk.old item (named_cases parts.now)) }
{
    let mut out = Vec::new(alloc);
    for part in parts {
        out = pushed(out, case(alloc, walk, item, part))?;
    }
    Ok(out)
}

#[cycle(walk)]
#[tactic(auto, using(query_tree::proofs::Layers::layers, crate::proofs::Passing::passings))]
fn case<'q>(
    alloc: Global,
    walk: &mut Walk<'q>,
    item: bool,
    part: &'q Case<NamedExpr>,
) -> Result<Case<BoundExpr>, NoMemory>
    ensures tree { IfOk result
        (λ t. bound_case t ≡ compiled_case walk.old.names walk.old.number (named_case part.now)) }
    ensures walk { OnOk result (walk.new ≡ behind_case walk.old item (named_case part.now)) }
{
    let tests = trees(alloc, walk, item, &part.tests);
    let result = expr(alloc, walk, item, &part.result);
    let (tests, result) = both(tests, result)?;
    Ok(Case { tests, result })
}

#[cycle(walk)]
#[tactic(auto, using(query_tree::proofs::Layers::layers, crate::proofs::Passing::passings))]
pub fn typeswitch<'q>(
    alloc: Global,
    walk: &mut Walk<'q>,
    item: bool,
    inner: &'q [TypeCase<Str, TypeName, NamedExpr>],
    operand: &'q NamedExpr,
    variable: &'q Option<Placed<Str>>,
    default: &'q NamedExpr,
) -> Result<BoundKind, NoMemory>
    ensures tree { IfOk result
        (λ t.
        bound_form t
        ≡ compiled_form walk.old.names walk.old.number
        (typeswitch_form (named_tree operand.now) (named_type_cases inner.now) variable.now
        (named_tree default.now))) }
    ensures walk { OnOk result
        (walk.new
        ≡ behind_form walk.old item 0
        (typeswitch_form (named_tree operand.now) (named_type_cases inner.now) variable.now
        (named_tree default.now))) }
{
    let operand = boxed(alloc, expr(alloc, walk, item, operand));
    let cases = type_cases(alloc, walk, item, inner);
    let default = otherwise(alloc, walk, item, variable, default);
    let ((operand, cases), (variable, default)) = both(both(operand, cases), default)?;
    Ok(Kind::Typeswitch {
        operand,
        cases,
        variable,
        default,
    })
}

#[cycle(walk)]
#[tactic(auto, using(query_tree::proofs::Layers::layers, crate::proofs::Passing::passings, crate::proofs::Scoping::scopes))]
fn otherwise<'q>(
    alloc: Global,
    walk: &mut Walk<'q>,
    item: bool,
    variable: &'q Option<Placed<Str>>,
    default: &'q NamedExpr,
) -> Result<(Option<Placed<Slot>>, Box<BoundExpr>), NoMemory>
    ensures tree { IfOk result
        (λ t.
        (t.0 ≡ any_binding variable.now walk.old.number)
        ×
        (bound_tree t.1.value
        ≡ compiled (with_any walk.old.names variable.now walk.old.number)
        (past walk.old.number (any_name variable.now)) (named_tree default.now))) }
    ensures walk { OnOk result
        (walk.new
        ≡ passed walk.old
        (mentions
        (seeing (view_of item walk.old.names)
        (and_any (bound_names walk.old.names.variables) variable.now)) (named_tree default.now))
        (any_name variable.now ++ binders (named_tree default.now))) }
{
    let depth = walk.depth();
    let variable = walk.open_any(variable);
    let default = boxed(alloc, expr(alloc, walk, item, default));
    walk.close(depth);
    both(variable, default)
}

#[cycle(walk)]
fn type_cases<'q>(
    alloc: Global,
    walk: &mut Walk<'q>,
    item: bool,
    parts: &'q [TypeCase<Str, TypeName, NamedExpr>],
) -> Result<Vec<TypeCase<Slot, SeqType, BoundExpr>>, NoMemory>
    ensures tree { IfOk result
        (λ t.
        bound_type_cases t.items
        ≡ compiled_type_cases walk.old.names walk.old.number (named_type_cases parts.now)) }
    ensures walk { OnOk result
        (walk.new ≡ behind_type_cases walk.old item (named_type_cases parts.now)) }
{
    let mut out = Vec::new(alloc);
    for part in parts {
        out = pushed(out, type_case(alloc, walk, item, part))?;
    }
    Ok(out)
}

#[cycle(walk)]
#[tactic(auto, using(query_tree::proofs::Layers::layers, crate::proofs::Passing::passings, crate::proofs::Scoping::scopes))]
fn type_case<'q>(
    alloc: Global,
    walk: &mut Walk<'q>,
    item: bool,
    part: &'q TypeCase<Str, TypeName, NamedExpr>,
) -> Result<TypeCase<Slot, SeqType, BoundExpr>, NoMemory>
    ensures tree { IfOk result
        (λ t.
        bound_type_case t
        ≡ compiled_type_case walk.old.names walk.old.number (named_type_case part.now)) }
    ensures walk { OnOk result
        (walk.new ≡ behind_type_case walk.old item (named_type_case part.now)) }
{
    let types = seq_types(alloc, walk, &part.types)?;
    let (variable, result) = arm(alloc, walk, item, &part.variable, &part.result)?;
    Ok(TypeCase {
        variable,
        types,
        result,
    })
}

#[cycle(walk)]
#[tactic(auto, using(query_tree::proofs::Layers::layers, crate::proofs::Passing::passings, crate::proofs::Scoping::scopes))]
fn arm<'q>(
    alloc: Global,
    walk: &mut Walk<'q>,
    item: bool,
    variable: &'q Option<Placed<Str>>,
    value: &'q NamedExpr,
) -> Result<(Option<Placed<Slot>>, BoundExpr), NoMemory>
    ensures tree { IfOk result
        (λ t.
        (t.0 ≡ any_binding variable.now walk.old.number)
        ×
        (bound_tree t.1
        ≡ compiled (with_any walk.old.names variable.now walk.old.number)
        (past walk.old.number (any_name variable.now)) (named_tree value.now))) }
    ensures walk { OnOk result
        (walk.new
        ≡ passed walk.old
        (mentions
        (seeing (view_of item walk.old.names)
        (and_any (bound_names walk.old.names.variables) variable.now)) (named_tree value.now))
        (any_name variable.now ++ binders (named_tree value.now))) }
{
    let depth = walk.depth();
    let variable = walk.open_any(variable);
    let value = expr(alloc, walk, item, value);
    walk.close(depth);
    both(variable, value)
}

#[cycle(walk)]
#[tactic(auto, using(query_tree::proofs::Layers::layers, crate::proofs::Passing::passings))]
pub fn try_catch<'q>(
    alloc: Global,
    walk: &mut Walk<'q>,
    item: bool,
    inner: &'q [Catch<Str, NamedExpr>],
    body: &'q NamedExpr,
) -> Result<BoundKind, NoMemory>
    ensures tree { IfOk result
        (λ t.
        bound_form t
        ≡ compiled_form walk.old.names walk.old.number
        (try_form (named_tree body.now) (named_catches inner.now))) }
    ensures walk { OnOk result
        (walk.new
        ≡ behind_form walk.old item 0 (try_form (named_tree body.now) (named_catches inner.now))) }
{
    let body = boxed(alloc, expr(alloc, walk, item, body));
    let catches = catches(alloc, walk, item, inner);
    let (body, catches) = both(body, catches)?;
    Ok(Kind::Try { body, catches })
}

#[cycle(walk)]
fn catches<'q>(
    alloc: Global,
    walk: &mut Walk<'q>,
    item: bool,
    parts: &'q [Catch<Str, NamedExpr>],
) -> Result<Vec<Catch<Slot, BoundExpr>>, NoMemory>
    ensures tree { IfOk result
        (λ t.
        bound_catches t.items
        ≡ compiled_catches walk.old.names walk.old.number (named_catches parts.now)) }
    ensures walk { OnOk result (walk.new ≡ behind_catches walk.old item (named_catches parts.now)) }
{
    let mut out = Vec::new(alloc);
    for part in parts {
        out = pushed(out, catch(alloc, walk, item, part))?;
    }
    Ok(out)
}

#[cycle(walk)]
#[tactic(auto, using(query_tree::proofs::Layers::layers, crate::proofs::Passing::passings, crate::proofs::Scoping::scopes))]
fn catch<'q>(
    alloc: Global,
    walk: &mut Walk<'q>,
    item: bool,
    part: &'q Catch<Str, NamedExpr>,
) -> Result<Catch<Slot, BoundExpr>, NoMemory>
    ensures tree { IfOk result
        (λ t.
        bound_catch t ≡ compiled_catch walk.old.names walk.old.number (named_catch part.now)) }
    ensures walk { OnOk result (walk.new ≡ behind_catch walk.old item (named_catch part.now)) }
{
    let depth = walk.depth();
    let number = walk.open(&part.error.name)?;
    let body = expr(alloc, walk, item, &part.body);
    walk.close(depth);
    let (codes, body) = both(copied_codes(alloc, &part.codes), body)?;
    Ok(Catch {
        error: local(part.error.place, number),
        codes,
        body,
    })
}
