//! The compiled tree of an expression, by its kind.

ghost use Rattle.std.specs.Prelude.{◌≡◌, IfOk, OnOk};
ghost use Rattle.static_rules.specs.Compiling.{compiled, compiled_form};
ghost use Rattle.query_tree.specs.NamedViews.{named_tree, named_form};
ghost use Rattle.query_tree.specs.BoundViews.{bound_tree, bound_form};
ghost use Rattle.static_rules.specs.Sources.{behind_tree, behind_form};

use crate::choices::{if_else, switch, try_catch, typeswitch};
use crate::flwor::flwor;
use crate::leaves::{BoundKind, NamedKind, constant, context, dec, int, text, var};
use crate::operators::{
    and, cast, castable, comma, compare, concat, instance, map, not, or, product, range, sign, sum,
    treat,
};
use crate::primaries::{array, call, merge, object, paren};
use crate::quantifiers::quantified;
use crate::steps::postfix;
use crate::walk::Walk;
use item_tree::NoMemory;
use query_tree::{BoundExpr, Expr, Kind, NamedExpr};
use std::alloc::Global;

/// The compiled tree of an expression.
#[cycle(walk)]
#[tactic(auto, using(query_tree::proofs::Layers::layers))]
pub fn expr<'q>(
    alloc: Global,
    walk: &mut Walk<'q>,
    item: bool,
    e: &'q NamedExpr,
) -> Result<BoundExpr, NoMemory>
    ensures tree { IfOk result
        (λ t. bound_tree t ≡ compiled walk.old.names walk.old.number (named_tree e.now)) }
    ensures walk { OnOk result (walk.new ≡ behind_tree walk.old item (named_tree e.now)) }
{
    let kind = kind(alloc, walk, item, e.place, &e.kind)?;
    Ok(Expr {
        place: e.place,
        kind,
    })
}

// The compiled form of an expression of this kind at this place.
#[cycle(walk)]
#[tactic(auto, using(query_tree::proofs::Layers::layers, crate::proofs::Passing::passings))]
fn kind<'q>(
    alloc: Global,
    walk: &mut Walk<'q>,
    item: bool,
    place: u32,
    kind: &'q NamedKind,
) -> Result<BoundKind, NoMemory>
    ensures tree { IfOk result
        (λ t. bound_form t ≡ compiled_form walk.old.names walk.old.number (named_form kind.now)) }
    ensures walk { OnOk result (walk.new ≡ behind_form walk.old item place (named_form kind.now)) }
{
    match kind {
        Kind::Comma { first, rest } => comma(alloc, walk, item, rest, first),
        Kind::Or { first, rest } => or(alloc, walk, item, rest, first),
        Kind::And { first, rest } => and(alloc, walk, item, rest, first),
        Kind::Concat { first, rest } => concat(alloc, walk, item, rest, first),
        Kind::Map { first, rest } => map(alloc, walk, item, rest, first),
        Kind::Sum { first, rest } => sum(alloc, walk, item, rest, first),
        Kind::Product { first, rest } => product(alloc, walk, item, rest, first),
        Kind::Postfix { primary, steps } => postfix(alloc, walk, item, steps, primary),
        Kind::Compare {
            left,
            op,
            place: at,
            right,
        } => compare(alloc, walk, item, left, *op, *at, right),
        Kind::Range {
            left,
            place: at,
            right,
        } => range(alloc, walk, item, left, *at, right),
        Kind::Not { operand } => not(alloc, walk, item, operand),
        Kind::Sign { signs, operand } => sign(alloc, walk, item, signs, operand),
        Kind::Instance {
            operand,
            place: at,
            of,
        } => instance(alloc, walk, item, operand, *at, of),
        Kind::Treat {
            operand,
            place: at,
            to,
        } => treat(alloc, walk, item, operand, *at, to),
        Kind::Castable {
            operand,
            place: at,
            to,
        } => castable(alloc, walk, item, operand, *at, to),
        Kind::Cast {
            operand,
            place: at,
            to,
        } => cast(alloc, walk, item, operand, *at, to),
        Kind::If {
            condition,
            when_true,
            when_false,
        } => if_else(alloc, walk, item, condition, when_true, when_false),
        Kind::Switch {
            operand,
            cases,
            default,
        } => switch(alloc, walk, item, cases, operand, default),
        Kind::Typeswitch {
            operand,
            cases,
            variable,
            default,
        } => typeswitch(alloc, walk, item, cases, operand, variable, default),
        Kind::Try { body, catches } => try_catch(alloc, walk, item, catches, body),
        Kind::Quant {
            quantifier,
            binds,
            test,
        } => quantified(alloc, walk, item, binds, *quantifier, test),
        Kind::Flwor {
            clauses,
            place: at,
            result,
        } => flwor(alloc, walk, item, clauses, *at, result),
        Kind::Int { value } => int(walk, *value),
        Kind::Dec { value } => dec(walk, *value),
        Kind::Text { value } => text(walk, value),
        Kind::True => constant(walk, Kind::True),
        Kind::False => constant(walk, Kind::False),
        Kind::Null => constant(walk, Kind::Null),
        Kind::Var { variable } => var(walk, item, place, variable),
        Kind::Context => context(walk, item, place),
        Kind::Paren { content } => paren(alloc, walk, item, content),
        Kind::Merge { content } => merge(alloc, walk, item, content),
        Kind::Array { content } => array(alloc, walk, item, content),
        Kind::Object { pairs } => object(alloc, walk, item, pairs),
        Kind::Call {
            function,
            arguments,
        } => call(alloc, walk, item, place, function, arguments),
    }
}
