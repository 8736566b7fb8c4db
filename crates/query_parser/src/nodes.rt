//! The nodes that clauses and statements make of their parts.

ghost use Rattle.std.specs.Prelude.{◌≡◌, MatchResult};
ghost use Rattle.grammar_parts.specs.declared.cursor.Stop.TheVariants.{NoMemory};
ghost use Rattle.query_tree.specs.NamedViews.{named_tree, named_clause, named_catch};
ghost use Rattle.query_grammar.specs.Nodes as n;
ghost use Rattle.query_parser.specs.Views as view;

use crate::gather::{all_boxed, both_boxed_beside, joined_beside};
use crate::values::{error_variable, quantifier_of};
use expression_parser::gather::boxed_beside;
use expression_parser::or_give_up;
use grammar_parts::Stop;
use item_tree::Str;
use query_grammar::Word;
use query_tree::{
    Bind, Case, Catch, Clause, Expr, GroupVar, Kind, NamedExpr, OrderKey, Placed, TypeCase,
    TypeName,
};
use std::alloc::Global;

/// A clause as it was read.
pub type NamedClause = Clause<Str, Str, TypeName>;

#[tactic(auto, using(query_tree::proofs::Layers::layers))]
pub fn for_of(
    variable: Placed<Str>,
    of: Option<Placed<TypeName>>,
    allowing_empty: bool,
    at: Option<Placed<Str>>,
    source: NamedExpr,
) -> NamedClause
    ensures { named_clause result
        ≡ n.for_var (variable, (of, (allowing_empty, (at, named_tree source)))) }
{
    Clause::For {
        variable,
        of,
        allowing_empty,
        at,
        source,
    }
}

#[tactic(auto, using(query_tree::proofs::Layers::layers))]
pub fn let_of(variable: Placed<Str>, of: Option<Placed<TypeName>>, value: NamedExpr) -> NamedClause
    ensures { named_clause result ≡ n.let_var (variable, (of, named_tree value)) }
{
    Clause::Let {
        variable,
        of,
        value,
    }
}

#[tactic(auto, using(query_tree::proofs::Layers::layers))]
pub fn keep_of(place: u32, test: NamedExpr) -> NamedClause
    ensures { named_clause result ≡ n.where_clause (place, named_tree test) }
{
    Clause::Where { place, test }
}

#[tactic(auto, using(query_tree::proofs::Layers::layers))]
pub fn group_of(place: u32, keys: Vec<GroupVar<Str, NamedExpr>>) -> NamedClause
    ensures { named_clause result ≡ n.group_clause (place, view.group_vars keys) }
{
    Clause::Group { place, keys }
}

#[tactic(auto, using(query_tree::proofs::Layers::layers))]
pub fn order_of(place: u32, stable: bool, keys: Vec<OrderKey<NamedExpr>>) -> NamedClause
    ensures { named_clause result ≡ n.order_clause stable (place, view.order_keys keys) }
{
    Clause::Order {
        place,
        stable,
        keys,
    }
}

#[tactic(auto, using(query_tree::proofs::Layers::layers))]
pub fn count_of(place: u32, variable: Placed<Str>) -> NamedClause
    ensures { named_clause result ≡ n.count_clause (place, variable) }
{
    Clause::Count { place, variable }
}

/// `first` is the first clause, with its place, and `place` that of `return`.
pub fn flwor_of(
    alloc: Global,
    first: (u32, Vec<NamedClause>),
    others: Vec<Vec<NamedClause>>,
    place: u32,
    value: NamedExpr,
) -> Result<NamedExpr, Stop>
    ensures { MatchResult result
        (λ e.
        named_tree e
        ≡ n.flwor
        (view.placed_clauses first, (view.clause_lists others, (place, named_tree value))))
        (λ e. e ≡ NoMemory) }
{
    let (start, clauses) = first;
    let (clauses, value) = joined_beside(clauses, others, value)?;
    let (result, clauses) = boxed_beside(alloc, value, clauses)?;
    Ok(Expr {
        place: start,
        kind: Kind::Flwor {
            clauses,
            place,
            result,
        },
    })
}

pub fn quant_of(
    alloc: Global,
    word: &Word,
    binds: Vec<Bind<Str, TypeName, NamedExpr>>,
    test: NamedExpr,
) -> Result<NamedExpr, Stop>
    ensures { MatchResult result
        (λ e. named_tree e ≡ n.quant (word.now, (view.binds binds, named_tree test)))
        (λ e. e ≡ NoMemory) }
{
    let quantifier = quantifier_of(word.kind);
    let (test, binds) = boxed_beside(alloc, test, binds)?;
    Ok(Expr {
        place: word.place,
        kind: Kind::Quant {
            quantifier,
            binds,
            test,
        },
    })
}

pub fn switch_of(
    alloc: Global,
    place: u32,
    operand: NamedExpr,
    cases: Vec<Case<NamedExpr>>,
    default: NamedExpr,
) -> Result<NamedExpr, Stop>
    ensures { MatchResult result
        (λ e.
        named_tree e
        ≡ n.switch (place, (named_tree operand, (view.cases cases, named_tree default))))
        (λ e. e ≡ NoMemory) }
{
    let (operand, default, cases) = both_boxed_beside(alloc, operand, default, cases)?;
    Ok(Expr {
        place,
        kind: Kind::Switch {
            operand,
            cases,
            default,
        },
    })
}

pub fn typeswitch_of(
    alloc: Global,
    place: u32,
    operand: NamedExpr,
    cases: Vec<TypeCase<Str, TypeName, NamedExpr>>,
    default: (Option<Placed<Str>>, NamedExpr),
) -> Result<NamedExpr, Stop>
    ensures { MatchResult result
        (λ e.
        named_tree e
        ≡ n.typeswitch
        (place, (named_tree operand, (view.type_cases cases, view.type_default default))))
        (λ e. e ≡ NoMemory) }
{
    let (variable, value) = default;
    let (operand, default, cases) = both_boxed_beside(alloc, operand, value, cases)?;
    Ok(Expr {
        place,
        kind: Kind::Typeswitch {
            operand,
            cases,
            variable,
            default,
        },
    })
}

pub fn if_of(
    alloc: Global,
    place: u32,
    condition: NamedExpr,
    when_true: NamedExpr,
    when_false: NamedExpr,
) -> Result<NamedExpr, Stop>
    ensures { MatchResult result
        (λ e.
        named_tree e
        ≡ n.if (place, (named_tree condition, (named_tree when_true, named_tree when_false))))
        (λ e. e ≡ NoMemory) }
{
    let (condition, when_true, when_false) = all_boxed(alloc, condition, when_true, when_false)?;
    Ok(Expr {
        place,
        kind: Kind::If {
            condition,
            when_true,
            when_false,
        },
    })
}

pub fn try_of(
    alloc: Global,
    place: u32,
    body: NamedExpr,
    catches: Vec<Catch<Str, NamedExpr>>,
) -> Result<NamedExpr, Stop>
    ensures { MatchResult result
        (λ e. named_tree e ≡ n.try (place, (named_tree body, view.catches catches)))
        (λ e. e ≡ NoMemory) }
{
    let (body, catches) = boxed_beside(alloc, body, catches)?;
    Ok(Expr {
        place,
        kind: Kind::Try { body, catches },
    })
}

/// `place` is that of `catch`.
pub fn catch_of(
    alloc: Global,
    place: u32,
    codes: Option<Vec<Str>>,
    body: NamedExpr,
) -> Result<Catch<Str, NamedExpr>, Stop>
    ensures { MatchResult result
        (λ x. named_catch x ≡ n.catch (place, (view.codes codes, named_tree body)))
        (λ e. e ≡ NoMemory) }
{
    let error = or_give_up!((codes, body), error_variable(alloc, place));
    Ok(Catch { error, codes, body })
}
