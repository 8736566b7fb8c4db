//! Predicates that read no item, and so come to the same for every one.

ghost use Rattle.std.specs.Prelude.{◌≡◌, true};
ghost use Rattle.item_tree.specs.Item.{datum, datums};
ghost use Rattle.query_tree.specs.BoundViews.{bound_tree, bound_factors, bound_terms};
ghost use Rattle.query_meaning.specs.Outcome.{each_from, with_front};
ghost use Rattle.query_meaning.specs.inside.Gives.{Gives};
ghost use Rattle.query_meaning.specs.inside.Views.{items_of, values_of};
ghost use Rattle.expr_eval.specs.Fixed.{IsPlain, ArePlain, IsFixedTerm, AreFixedTerms, ReadsNoItem, kept_by};

use crate::positions::{item_at, keeps};
use clause_eval::{nothing, pushed};
use item_tree::Item;
use query_meaning::{EvalFault, Value};
use query_tree::{BoundExpr, Factor, Kind, Term};
use std::alloc::Global;
use value_rules::one_number;

/// Whether an expression is an integer or a variable.
fn is_plain(e: &BoundExpr) -> bool
    ensures { result ≡ true → IsPlain (bound_tree e.now) }
{
    match &e.kind {
        Kind::Int { value: _ } => true,
        Kind::Var { variable: _ } => true,
        _ => false,
    }
}

fn are_plain(factors: &[Factor<BoundExpr>]) -> bool
    ensures { result ≡ true → ArePlain (bound_factors factors.now) }
{
    for factor in factors {
        if !is_plain(&factor.value) {
            return false;
        }
    }
    true
}

/// Whether it is one of these, or a product of them.
fn is_fixed_term(e: &BoundExpr) -> bool
    ensures { result ≡ true → IsFixedTerm (bound_tree e.now) }
{
    match &e.kind {
        Kind::Product { first, rest } => {
            if is_plain(first) {
                are_plain(rest)
            } else {
                false
            }
        }
        _ => is_plain(e),
    }
}

fn are_fixed_terms(terms: &[Term<BoundExpr>]) -> bool
    ensures { result ≡ true → AreFixedTerms (bound_terms terms.now) }
{
    for term in terms {
        if !is_fixed_term(&term.value) {
            return false;
        }
    }
    true
}

/// Whether it is one of these, or a sum of them. Then it reads no item.
pub(crate) fn reads_no_item(e: &BoundExpr) -> bool
    ensures { result ≡ true → ReadsNoItem (bound_tree e.now) }
{
    match &e.kind {
        Kind::Sum { first, rest } => {
            if is_fixed_term(first) {
                are_fixed_terms(rest)
            } else {
                false
            }
        }
        _ => is_fixed_term(e),
    }
}

/// The items that a predicate of this value keeps. Where it is a number, only the item at that
/// position is looked at.
pub(crate) fn kept_by<'a>(
    alloc: Global,
    place: u32,
    value: &[Item],
    items: &[Item],
) -> Result<Value<'a>, EvalFault>
    ensures { Gives items_of result
        (each_from (kept_by place (datums value.now)) 1 (datums items.now)) }
{
    match one_number(value) {
        Ok(number) => match item_at(number, items) {
            Some(x) => Ok(Value::One(x.copy()?)),
            None => Ok(nothing()),
        },
        Err(_) => Ok(Value::Made(kept_by_truth(alloc, place, value, items)?)),
    }
}

fn kept_by_truth(
    alloc: Global,
    place: u32,
    value: &[Item],
    items: &[Item],
) -> Result<Vec<Item>, EvalFault>
    ensures { Gives values_of result
        (each_from (kept_by place (datums value.now)) 1 (datums items.now)) }
{
    let mut out = Vec::new(alloc);
    let mut position = 0;
    for item in items {
        position += 1;
        out = kept_one(out, position, item, place, value)?;
    }
    Ok(out)
}

/// A list with an item behind it, if a predicate of this value keeps the item.
#[tactic(auto, unfolding(crate::specs::Fixed::kept_by))]
fn kept_one(
    out: Vec<Item>,
    position: usize,
    item: &Item,
    place: u32,
    value: &[Item],
) -> Result<Vec<Item>, EvalFault>
    ensures { Gives values_of result (with_front (values_of out)
        (kept_by place (datums value.now) position (datum item.now))) }
{
    match keeps(position, value) {
        Ok(true) => pushed(out, item.copy()?),
        Ok(false) => Ok(out),
        Err(code) => Err(EvalFault::raised(code, place)),
    }
}
