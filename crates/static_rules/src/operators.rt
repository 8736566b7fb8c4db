//! Operators.

ghost use Rattle.std.specs.Prelude.{◌≡◌, IfOk, OnOk};
ghost use Rattle.query_tree.specs.Plain.{comma_form, or_form, and_form, not_form, compare_form, concat_form, range_form, sum_form, product_form, instance_form, treat_form, castable_form, cast_form, sign_form, map_form};
ghost use Rattle.static_rules.specs.Compiling.{compiled_form, compiled_operands, compiled_operand, compiled_terms, compiled_term, compiled_factors, compiled_factor};
ghost use Rattle.query_tree.specs.NamedViews.{named_tree, named_operands, named_operand, named_terms, named_term, named_factors, named_factor};
ghost use Rattle.query_tree.specs.BoundViews.{bound_form, bound_operands, bound_operand, bound_terms, bound_term, bound_factors, bound_factor};
ghost use Rattle.static_rules.specs.Sources.{behind_form, behind_operands, behind_operand, behind_terms, behind_term, behind_factors, behind_factor};

use crate::exprs::expr;
use crate::gather::{both, boxed, pushed};
use crate::leaves::{BoundKind, copied_signs};
use crate::walk::Walk;
use item_tree::NoMemory;
use query_tree::{
    BoundExpr, CompareOp, Factor, Kind, NamedExpr, Operand, Placed, SumOp, Term, TypeName,
};
use std::alloc::Global;

#[cycle(walk)]
#[tactic(auto, using(query_tree::proofs::Layers::layers, crate::proofs::Passing::passings))]
pub fn comma<'q>(
    alloc: Global,
    walk: &mut Walk<'q>,
    item: bool,
    rest: &'q [Operand<NamedExpr>],
    first: &'q NamedExpr,
) -> Result<BoundKind, NoMemory>
    ensures tree { IfOk result
        (λ t.
        bound_form t
        ≡ compiled_form walk.old.names walk.old.number
        (comma_form (named_tree first.now) (named_operands rest.now))) }
    ensures walk { OnOk result
        (walk.new
        ≡ behind_form walk.old item 0
        (comma_form (named_tree first.now) (named_operands rest.now))) }
{
    let first = boxed(alloc, expr(alloc, walk, item, first));
    let rest = operands(alloc, walk, item, rest);
    let (first, rest) = both(first, rest)?;
    Ok(Kind::Comma { first, rest })
}

#[cycle(walk)]
#[tactic(auto, using(query_tree::proofs::Layers::layers, crate::proofs::Passing::passings))]
pub fn or<'q>(
    alloc: Global,
    walk: &mut Walk<'q>,
    item: bool,
    rest: &'q [Operand<NamedExpr>],
    first: &'q NamedExpr,
) -> Result<BoundKind, NoMemory>
    ensures tree { IfOk result
        (λ t.
        bound_form t
        ≡ compiled_form walk.old.names walk.old.number
        (or_form (named_tree first.now) (named_operands rest.now))) }
    ensures walk { OnOk result
        (walk.new
        ≡ behind_form walk.old item 0 (or_form (named_tree first.now) (named_operands rest.now))) }
{
    let first = boxed(alloc, expr(alloc, walk, item, first));
    let rest = operands(alloc, walk, item, rest);
    let (first, rest) = both(first, rest)?;
    Ok(Kind::Or { first, rest })
}

#[cycle(walk)]
#[tactic(auto, using(query_tree::proofs::Layers::layers, crate::proofs::Passing::passings))]
pub fn and<'q>(
    alloc: Global,
    walk: &mut Walk<'q>,
    item: bool,
    rest: &'q [Operand<NamedExpr>],
    first: &'q NamedExpr,
) -> Result<BoundKind, NoMemory>
    ensures tree { IfOk result
        (λ t.
        bound_form t
        ≡ compiled_form walk.old.names walk.old.number
        (and_form (named_tree first.now) (named_operands rest.now))) }
    ensures walk { OnOk result
        (walk.new
        ≡ behind_form walk.old item 0 (and_form (named_tree first.now) (named_operands rest.now))) }
{
    let first = boxed(alloc, expr(alloc, walk, item, first));
    let rest = operands(alloc, walk, item, rest);
    let (first, rest) = both(first, rest)?;
    Ok(Kind::And { first, rest })
}

#[cycle(walk)]
#[tactic(auto, using(query_tree::proofs::Layers::layers, crate::proofs::Passing::passings))]
pub fn concat<'q>(
    alloc: Global,
    walk: &mut Walk<'q>,
    item: bool,
    rest: &'q [Operand<NamedExpr>],
    first: &'q NamedExpr,
) -> Result<BoundKind, NoMemory>
    ensures tree { IfOk result
        (λ t.
        bound_form t
        ≡ compiled_form walk.old.names walk.old.number
        (concat_form (named_tree first.now) (named_operands rest.now))) }
    ensures walk { OnOk result
        (walk.new
        ≡ behind_form walk.old item 0
        (concat_form (named_tree first.now) (named_operands rest.now))) }
{
    let first = boxed(alloc, expr(alloc, walk, item, first));
    let rest = operands(alloc, walk, item, rest);
    let (first, rest) = both(first, rest)?;
    Ok(Kind::Concat { first, rest })
}

#[cycle(walk)]
#[tactic(auto, using(query_tree::proofs::Layers::layers, crate::proofs::Passing::passings))]
pub fn map<'q>(
    alloc: Global,
    walk: &mut Walk<'q>,
    item: bool,
    rest: &'q [Operand<NamedExpr>],
    first: &'q NamedExpr,
) -> Result<BoundKind, NoMemory>
    ensures tree { IfOk result
        (λ t.
        bound_form t
        ≡ compiled_form walk.old.names walk.old.number
        (map_form (named_tree first.now) (named_operands rest.now))) }
    ensures walk { OnOk result
        (walk.new
        ≡ behind_form walk.old item 0 (map_form (named_tree first.now) (named_operands rest.now))) }
{
    let first = boxed(alloc, expr(alloc, walk, item, first));
    let rest = operands(alloc, walk, true, rest);
    let (first, rest) = both(first, rest)?;
    Ok(Kind::Map { first, rest })
}

#[cycle(walk)]
#[tactic(auto, using(query_tree::proofs::Layers::layers, crate::proofs::Passing::passings))]
pub fn sum<'q>(
    alloc: Global,
    walk: &mut Walk<'q>,
    item: bool,
    rest: &'q [Term<NamedExpr>],
    first: &'q NamedExpr,
) -> Result<BoundKind, NoMemory>
    ensures tree { IfOk result
        (λ t.
        bound_form t
        ≡ compiled_form walk.old.names walk.old.number
        (sum_form (named_tree first.now) (named_terms rest.now))) }
    ensures walk { OnOk result
        (walk.new
        ≡ behind_form walk.old item 0 (sum_form (named_tree first.now) (named_terms rest.now))) }
{
    let first = boxed(alloc, expr(alloc, walk, item, first));
    let rest = terms(alloc, walk, item, rest);
    let (first, rest) = both(first, rest)?;
    Ok(Kind::Sum { first, rest })
}

#[cycle(walk)]
#[tactic(auto, using(query_tree::proofs::Layers::layers, crate::proofs::Passing::passings))]
pub fn product<'q>(
    alloc: Global,
    walk: &mut Walk<'q>,
    item: bool,
    rest: &'q [Factor<NamedExpr>],
    first: &'q NamedExpr,
) -> Result<BoundKind, NoMemory>
    ensures tree { IfOk result
        (λ t.
        bound_form t
        ≡ compiled_form walk.old.names walk.old.number
        (product_form (named_tree first.now) (named_factors rest.now))) }
    ensures walk { OnOk result
        (walk.new
        ≡ behind_form walk.old item 0
        (product_form (named_tree first.now) (named_factors rest.now))) }
{
    let first = boxed(alloc, expr(alloc, walk, item, first));
    let rest = factors(alloc, walk, item, rest);
    let (first, rest) = both(first, rest)?;
    Ok(Kind::Product { first, rest })
}

#[cycle(walk)]
#[tactic(auto, using(query_tree::proofs::Layers::layers, crate::proofs::Passing::passings))]
pub fn compare<'q>(
    alloc: Global,
    walk: &mut Walk<'q>,
    item: bool,
    left: &'q NamedExpr,
    op: CompareOp,
    place: u32,
    right: &'q NamedExpr,
) -> Result<BoundKind, NoMemory>
    ensures tree { IfOk result
        (λ t.
        bound_form t
        ≡ compiled_form walk.old.names walk.old.number
        (compare_form (named_tree left.now) op place (named_tree right.now))) }
    ensures walk { OnOk result
        (walk.new
        ≡ behind_form walk.old item 0
        (compare_form (named_tree left.now) op place (named_tree right.now))) }
{
    let left = boxed(alloc, expr(alloc, walk, item, left));
    let right = boxed(alloc, expr(alloc, walk, item, right));
    let (left, right) = both(left, right)?;
    Ok(Kind::Compare {
        left,
        op,
        place,
        right,
    })
}

#[cycle(walk)]
#[tactic(auto, using(query_tree::proofs::Layers::layers, crate::proofs::Passing::passings))]
pub fn range<'q>(
    alloc: Global,
    walk: &mut Walk<'q>,
    item: bool,
    left: &'q NamedExpr,
    place: u32,
    right: &'q NamedExpr,
) -> Result<BoundKind, NoMemory>
    ensures tree { IfOk result
        (λ t.
        bound_form t
        ≡ compiled_form walk.old.names walk.old.number
        (range_form (named_tree left.now) place (named_tree right.now))) }
    ensures walk { OnOk result
        (walk.new
        ≡ behind_form walk.old item 0
        (range_form (named_tree left.now) place (named_tree right.now))) }
{
    let left = boxed(alloc, expr(alloc, walk, item, left));
    let right = boxed(alloc, expr(alloc, walk, item, right));
    let (left, right) = both(left, right)?;
    Ok(Kind::Range { left, place, right })
}

#[cycle(walk)]
#[tactic(auto, using(query_tree::proofs::Layers::layers, crate::proofs::Passing::passings))]
pub fn not<'q>(
    alloc: Global,
    walk: &mut Walk<'q>,
    item: bool,
    operand: &'q NamedExpr,
) -> Result<BoundKind, NoMemory>
    ensures tree { IfOk result
        (λ t.
        bound_form t
        ≡ compiled_form walk.old.names walk.old.number (not_form (named_tree operand.now))) }
    ensures walk { OnOk result
        (walk.new ≡ behind_form walk.old item 0 (not_form (named_tree operand.now))) }
{
    let operand = boxed(alloc, expr(alloc, walk, item, operand))?;
    Ok(Kind::Not { operand })
}

#[cycle(walk)]
#[tactic(auto, using(query_tree::proofs::Layers::layers, crate::proofs::Passing::passings))]
pub fn sign<'q>(
    alloc: Global,
    walk: &mut Walk<'q>,
    item: bool,
    signs: &[(SumOp, u32)],
    operand: &'q NamedExpr,
) -> Result<BoundKind, NoMemory>
    ensures tree { IfOk result
        (λ t.
        bound_form t
        ≡ compiled_form walk.old.names walk.old.number
        (sign_form signs.now (named_tree operand.now))) }
    ensures walk { OnOk result
        (walk.new ≡ behind_form walk.old item 0 (sign_form signs.now (named_tree operand.now))) }
{
    let signs = copied_signs(alloc, signs);
    let operand = boxed(alloc, expr(alloc, walk, item, operand));
    let (signs, operand) = both(signs, operand)?;
    Ok(Kind::Sign { signs, operand })
}

#[cycle(walk)]
#[tactic(auto, using(query_tree::proofs::Layers::layers, crate::proofs::Passing::passings, crate::proofs::Testing::telling))]
pub fn instance<'q>(
    alloc: Global,
    walk: &mut Walk<'q>,
    item: bool,
    operand: &'q NamedExpr,
    place: u32,
    of: &Placed<TypeName>,
) -> Result<BoundKind, NoMemory>
    ensures tree { IfOk result
        (λ t.
        bound_form t
        ≡ compiled_form walk.old.names walk.old.number
        (instance_form (named_tree operand.now) place of.now)) }
    ensures walk { OnOk result
        (walk.new
        ≡ behind_form walk.old item 0 (instance_form (named_tree operand.now) place of.now)) }
{
    let operand = boxed(alloc, expr(alloc, walk, item, operand))?;
    let of = walk.seq_type(of);
    Ok(Kind::Instance { operand, place, of })
}

#[cycle(walk)]
#[tactic(auto, using(query_tree::proofs::Layers::layers, crate::proofs::Passing::passings, crate::proofs::Testing::telling))]
pub fn treat<'q>(
    alloc: Global,
    walk: &mut Walk<'q>,
    item: bool,
    operand: &'q NamedExpr,
    place: u32,
    to: &Placed<TypeName>,
) -> Result<BoundKind, NoMemory>
    ensures tree { IfOk result
        (λ t.
        bound_form t
        ≡ compiled_form walk.old.names walk.old.number
        (treat_form (named_tree operand.now) place to.now)) }
    ensures walk { OnOk result
        (walk.new
        ≡ behind_form walk.old item 0 (treat_form (named_tree operand.now) place to.now)) }
{
    let operand = boxed(alloc, expr(alloc, walk, item, operand))?;
    let to = walk.seq_type(to);
    Ok(Kind::Treat { operand, place, to })
}

#[cycle(walk)]
#[tactic(auto, using(query_tree::proofs::Layers::layers, crate::proofs::Passing::passings, crate::proofs::Testing::telling))]
pub fn castable<'q>(
    alloc: Global,
    walk: &mut Walk<'q>,
    item: bool,
    operand: &'q NamedExpr,
    place: u32,
    to: &Placed<TypeName>,
) -> Result<BoundKind, NoMemory>
    ensures tree { IfOk result
        (λ t.
        bound_form t
        ≡ compiled_form walk.old.names walk.old.number
        (castable_form (named_tree operand.now) place to.now)) }
    ensures walk { OnOk result
        (walk.new
        ≡ behind_form walk.old item 0 (castable_form (named_tree operand.now) place to.now)) }
{
    let operand = boxed(alloc, expr(alloc, walk, item, operand))?;
    let to = walk.cast_type(to);
    Ok(Kind::Castable { operand, place, to })
}

#[cycle(walk)]
#[tactic(auto, using(query_tree::proofs::Layers::layers, crate::proofs::Passing::passings, crate::proofs::Testing::telling))]
pub fn cast<'q>(
    alloc: Global,
    walk: &mut Walk<'q>,
    item: bool,
    operand: &'q NamedExpr,
    place: u32,
    to: &Placed<TypeName>,
) -> Result<BoundKind, NoMemory>
    ensures tree { IfOk result
        (λ t.
        bound_form t
        ≡ compiled_form walk.old.names walk.old.number
        (cast_form (named_tree operand.now) place to.now)) }
    ensures walk { OnOk result
        (walk.new ≡ behind_form walk.old item 0 (cast_form (named_tree operand.now) place to.now)) }
{
    let operand = boxed(alloc, expr(alloc, walk, item, operand))?;
    let to = walk.cast_type(to);
    Ok(Kind::Cast { operand, place, to })
}

#[cycle(walk)]
fn operands<'q>(
    alloc: Global,
    walk: &mut Walk<'q>,
    item: bool,
    parts: &'q [Operand<NamedExpr>],
) -> Result<Vec<Operand<BoundExpr>>, NoMemory>
    ensures tree { IfOk result
        (λ t.
        bound_operands t.items
        ≡ compiled_operands walk.old.names walk.old.number (named_operands parts.now)) }
    ensures walk { OnOk result
        (walk.new ≡ behind_operands walk.old item (named_operands parts.now)) }
{
    let mut out = Vec::new(alloc);
    for part in parts {
        out = pushed(out, operand(alloc, walk, item, part))?;
    }
    Ok(out)
}

#[cycle(walk)]
#[tactic(auto, using(query_tree::proofs::Layers::layers, crate::proofs::Passing::passings))]
fn operand<'q>(
    alloc: Global,
    walk: &mut Walk<'q>,
    item: bool,
    part: &'q Operand<NamedExpr>,
) -> Result<Operand<BoundExpr>, NoMemory>
    ensures tree { IfOk result
        (λ t.
        bound_operand t
        ≡ compiled_operand walk.old.names walk.old.number (named_operand part.now)) }
    ensures walk { OnOk result (walk.new ≡ behind_operand walk.old item (named_operand part.now)) }
{
    let value = expr(alloc, walk, item, &part.value)?;
    Ok(Operand {
        place: part.place,
        value,
    })
}

#[cycle(walk)]
fn terms<'q>(
    alloc: Global,
    walk: &mut Walk<'q>,
    item: bool,
    parts: &'q [Term<NamedExpr>],
) -> Result<Vec<Term<BoundExpr>>, NoMemory>
    ensures tree { IfOk result
        (λ t.
        bound_terms t.items
        ≡ compiled_terms walk.old.names walk.old.number (named_terms parts.now)) }
    ensures walk { OnOk result (walk.new ≡ behind_terms walk.old item (named_terms parts.now)) }
{
    let mut out = Vec::new(alloc);
    for part in parts {
        out = pushed(out, term(alloc, walk, item, part))?;
    }
    Ok(out)
}

#[cycle(walk)]
#[tactic(auto, using(query_tree::proofs::Layers::layers, crate::proofs::Passing::passings))]
fn term<'q>(
    alloc: Global,
    walk: &mut Walk<'q>,
    item: bool,
    part: &'q Term<NamedExpr>,
) -> Result<Term<BoundExpr>, NoMemory>
    ensures tree { IfOk result
        (λ t. bound_term t ≡ compiled_term walk.old.names walk.old.number (named_term part.now)) }
    ensures walk { OnOk result (walk.new ≡ behind_term walk.old item (named_term part.now)) }
{
    let value = expr(alloc, walk, item, &part.value)?;
    Ok(Term {
        op: part.op,
        place: part.place,
        value,
    })
}

#[cycle(walk)]
fn factors<'q>(
    alloc: Global,
    walk: &mut Walk<'q>,
    item: bool,
    parts: &'q [Factor<NamedExpr>],
) -> Result<Vec<Factor<BoundExpr>>, NoMemory>
    ensures tree { IfOk result
        (λ t.
        bound_factors t.items
        ≡ compiled_factors walk.old.names walk.old.number (named_factors parts.now)) }
    ensures walk { OnOk result (walk.new ≡ behind_factors walk.old item (named_factors parts.now)) }
{
    let mut out = Vec::new(alloc);
    for part in parts {
        out = pushed(out, factor(alloc, walk, item, part))?;
    }
    Ok(out)
}

#[cycle(walk)]
#[tactic(auto, using(query_tree::proofs::Layers::layers, crate::proofs::Passing::passings))]
fn factor<'q>(
    alloc: Global,
    walk: &mut Walk<'q>,
    item: bool,
    part: &'q Factor<NamedExpr>,
) -> Result<Factor<BoundExpr>, NoMemory>
    ensures tree { IfOk result
        (λ t.
        bound_factor t ≡ compiled_factor walk.old.names walk.old.number (named_factor part.now)) }
    ensures walk { OnOk result (walk.new ≡ behind_factor walk.old item (named_factor part.now)) }
{
    let value = expr(alloc, walk, item, &part.value)?;
    Ok(Factor {
        op: part.op,
        place: part.place,
        value,
    })
}
