//! The nodes that productions make of their parts. An operator's level without an operator makes
//! none.

ghost use Rattle.std.specs.Prelude.{◌≡◌, MatchResult, Some};
ghost use Rattle.grammar_parts.specs.declared.cursor.Stop.TheVariants.{NoMemory};
ghost use Rattle.query_grammar.specs.Nodes as n;
ghost use Rattle.query_tree.specs.Plain as p;
ghost use Rattle.query_tree.specs.NamedViews.{named_tree, named_lookup, named_form};
ghost use Rattle.expression_parser.specs.Views as view;

use crate::gather::{both_boxed, boxed_beside, give_up};
use crate::values::{name_of, placed, units_in, whole_in};
use grammar_parts::Stop;
use item_tree::Str;
use query_grammar::{Kind as Token, Word};
use query_tree::{
    CompareOp, Expr, Factor, Kind, Lookup, NamedExpr, Operand, Placed, Step, SumOp, Term, TypeName,
    discard,
};
use std::alloc::Global;

/// The operators that stand between operands, any number of them.
#[derive(Clone, Copy, Debug)]
pub enum Chain {
    Comma,
    Or,
    And,
    Concat,
    Map,
}

/// The operators behind which a type stands.
#[derive(Clone, Copy, Debug)]
pub enum TypeTest {
    Instance,
    Treat,
    Castable,
    Cast,
}

/// What stands for a form of the wider grammar, whose trees are never used.
#[tactic(auto, using(query_tree::proofs::Layers::layers))]
pub fn unused(word: &Word) -> NamedExpr
    ensures { named_tree result ≡ n.unused word.now }
{
    Expr {
        place: word.place,
        kind: Kind::Null,
    }
}

#[tactic(auto, using(query_tree::proofs::Layers::layers))]
fn text_kind(alloc: Global, word: &Word) -> Result<Kind<Str, Str, TypeName>, Stop>
    ensures { MatchResult result
        (λ k. named_form k ≡ p.text_form (n.name_of word.now))
        (λ e. e ≡ NoMemory) }
{
    let value = name_of(alloc, word)?;
    Ok(Kind::Text { value })
}

#[tactic(auto, using(query_tree::proofs::Layers::layers))]
fn variable_kind(alloc: Global, word: &Word) -> Result<Kind<Str, Str, TypeName>, Stop>
    ensures { MatchResult result
        (λ k. named_form k ≡ p.var_form (n.name_of word.now))
        (λ e. e ≡ NoMemory) }
{
    let variable = name_of(alloc, word)?;
    Ok(Kind::Var { variable })
}

#[tactic(auto, using(query_tree::proofs::Layers::layers))]
fn literal_kind(alloc: Global, word: &Word) -> Result<Kind<Str, Str, TypeName>, Stop>
    ensures { MatchResult result
        (λ k. named_form k ≡ n.literal_form word.now.kind word.now.value)
        (λ e. e ≡ NoMemory) }
{
    match word.kind {
        Token::Int => Ok(Kind::Int {
            value: whole_in(&word.value),
        }),
        Token::Dec => Ok(Kind::Dec {
            value: units_in(&word.value),
        }),
        Token::Text => text_kind(alloc, word),
        Token::True => Ok(Kind::True),
        Token::False => Ok(Kind::False),
        Token::Var => variable_kind(alloc, word),
        Token::Context => Ok(Kind::Context),
        _ => Ok(Kind::Null),
    }
}

/// A literal, a variable or the context item.
#[tactic(auto, using(query_tree::proofs::Layers::layers))]
pub fn literal(alloc: Global, word: &Word) -> Result<NamedExpr, Stop>
    ensures { MatchResult result (λ e. named_tree e ≡ n.literal word.now) (λ e. e ≡ NoMemory) }
{
    let kind = literal_kind(alloc, word)?;
    Ok(Expr {
        place: word.place,
        kind,
    })
}

#[tactic(auto, using(query_tree::proofs::Layers::layers))]
pub fn call_of(alloc: Global, word: &Word, arguments: Vec<NamedExpr>) -> Result<NamedExpr, Stop>
    ensures { MatchResult result (λ e. named_tree e ≡ n.call (word.now, view.trees arguments))
        (λ e. e ≡ NoMemory) }
{
    match name_of(alloc, word) {
        Ok(function) => Ok(Expr {
            place: word.place,
            kind: Kind::Call {
                function,
                arguments,
            },
        }),
        Err(stop) => give_up(arguments, stop),
    }
}

fn name_key(alloc: Global, word: &Word) -> Result<Lookup<Str, NamedExpr>, Stop>
    ensures { MatchResult result (λ l. named_lookup l ≡ p.name_lookup (n.name_of word.now))
        (λ e. e ≡ NoMemory) }
{
    let name = name_of(alloc, word)?;
    Ok(Lookup::Name { name })
}

fn text_key(alloc: Global, word: &Word) -> Result<Lookup<Str, NamedExpr>, Stop>
    ensures { MatchResult result (λ l. named_lookup l ≡ p.text_lookup (n.name_of word.now))
        (λ e. e ≡ NoMemory) }
{
    let value = name_of(alloc, word)?;
    Ok(Lookup::Text { value })
}

fn variable_key(alloc: Global, word: &Word) -> Result<Lookup<Str, NamedExpr>, Stop>
    ensures { MatchResult result (λ l. named_lookup l ≡ p.var_lookup (n.placed word.now))
        (λ e. e ≡ NoMemory) }
{
    let variable = placed(alloc, word)?;
    Ok(Lookup::Var { variable })
}

/// The key of a look-up that is one token.
pub fn plain_key(alloc: Global, word: &Word) -> Result<Lookup<Str, NamedExpr>, Stop>
    ensures { MatchResult result (λ l. named_lookup l ≡ n.plain_key word.now) (λ e. e ≡ NoMemory) }
{
    match word.kind {
        Token::Text => text_key(alloc, word),
        Token::Var => variable_key(alloc, word),
        Token::Context => Ok(Lookup::Context { place: word.place }),
        _ => name_key(alloc, word),
    }
}

pub fn postfix_of(
    alloc: Global,
    primary: NamedExpr,
    steps: Vec<Step<Str, NamedExpr>>,
) -> Result<NamedExpr, Stop>
    ensures { MatchResult result
        (λ e. named_tree e ≡ n.postfix (named_tree primary, view.steps steps)) (λ e. e ≡ NoMemory) }
{
    if steps.is_empty() {
        discard(steps);
        return Ok(primary);
    }
    let place = primary.place;
    let (primary, steps) = boxed_beside(alloc, primary, steps)?;
    Ok(Expr {
        place,
        kind: Kind::Postfix { primary, steps },
    })
}

#[tactic(auto, using(query_tree::proofs::Layers::layers))]
fn chain_kind(
    chain: Chain,
    first: Box<NamedExpr>,
    rest: Vec<Operand<NamedExpr>>,
) -> Kind<Str, Str, TypeName>
    ensures { named_form result
        ≡ view.form_of_chain chain (named_tree first.value)
        (p.operands_of n.Name n.Name TypeName (view.operands rest)) }
{
    match chain {
        Chain::Comma => Kind::Comma { first, rest },
        Chain::Or => Kind::Or { first, rest },
        Chain::And => Kind::And { first, rest },
        Chain::Concat => Kind::Concat { first, rest },
        Chain::Map => Kind::Map { first, rest },
    }
}

/// Operands with operators between them.
pub fn chained(
    alloc: Global,
    chain: Chain,
    first: NamedExpr,
    rest: Vec<Operand<NamedExpr>>,
) -> Result<NamedExpr, Stop>
    ensures { MatchResult result
        (λ e.
        named_tree e ≡ n.chain (view.form_of_chain chain) (named_tree first, view.operands rest))
        (λ e. e ≡ NoMemory) }
{
    if rest.is_empty() {
        discard(rest);
        return Ok(first);
    }
    let place = first.place;
    let (first, rest) = boxed_beside(alloc, first, rest)?;
    Ok(Expr {
        place,
        kind: chain_kind(chain, first, rest),
    })
}

fn first_place(signs: &[(SumOp, u32)]) -> Option<u32>
    ensures { result ≡ view.first_place signs.now }
{
    match signs {
        [] => None,
        [first, ..] => Some(first.1),
    }
}

pub fn sign_of(
    alloc: Global,
    signs: Vec<(SumOp, u32)>,
    operand: NamedExpr,
) -> Result<NamedExpr, Stop>
    ensures { MatchResult result (λ e. named_tree e ≡ n.sign (signs.items, named_tree operand))
        (λ e. e ≡ NoMemory) }
{
    let Some(place) = first_place(&signs) else {
        discard(signs);
        return Ok(operand);
    };
    let (operand, signs) = boxed_beside(alloc, operand, signs)?;
    Ok(Expr {
        place,
        kind: Kind::Sign { signs, operand },
    })
}

#[tactic(auto, using(query_tree::proofs::Layers::layers))]
fn test_kind(
    test: TypeTest,
    operand: Box<NamedExpr>,
    place: u32,
    to: Placed<TypeName>,
) -> Kind<Str, Str, TypeName>
    ensures { named_form result ≡ view.form_of_test test (named_tree operand.value) place to }
{
    match test {
        TypeTest::Instance => Kind::Instance {
            operand,
            place,
            of: to,
        },
        TypeTest::Treat => Kind::Treat { operand, place, to },
        TypeTest::Castable => Kind::Castable { operand, place, to },
        TypeTest::Cast => Kind::Cast { operand, place, to },
    }
}

fn typed_node(
    alloc: Global,
    test: TypeTest,
    operand: NamedExpr,
    place: u32,
    to: Placed<TypeName>,
) -> Result<NamedExpr, Stop>
    ensures { MatchResult result
        (λ e.
        named_tree e
        ≡ n.node_at (named_tree operand) (view.form_of_test test (named_tree operand) place to))
        (λ e. e ≡ NoMemory) }
{
    let first = operand.place;
    let (operand, to) = boxed_beside(alloc, operand, to)?;
    Ok(Expr {
        place: first,
        kind: test_kind(test, operand, place, to),
    })
}

/// An operand and the type behind it.
pub fn typed(
    alloc: Global,
    test: TypeTest,
    operand: NamedExpr,
    behind: Option<(u32, Placed<TypeName>)>,
) -> Result<NamedExpr, Stop>
    ensures { MatchResult result
        (λ e. named_tree e ≡ n.typed (view.form_of_test test) (named_tree operand, behind))
        (λ e. e ≡ NoMemory) }
{
    match behind {
        None => Ok(operand),
        Some((place, to)) => typed_node(alloc, test, operand, place, to),
    }
}

pub fn product_of(
    alloc: Global,
    first: NamedExpr,
    rest: Vec<Factor<NamedExpr>>,
) -> Result<NamedExpr, Stop>
    ensures { MatchResult result
        (λ e. named_tree e ≡ n.product (named_tree first, view.factors rest)) (λ e. e ≡ NoMemory) }
{
    if rest.is_empty() {
        discard(rest);
        return Ok(first);
    }
    let place = first.place;
    let (first, rest) = boxed_beside(alloc, first, rest)?;
    Ok(Expr {
        place,
        kind: Kind::Product { first, rest },
    })
}

pub fn sum_of(
    alloc: Global,
    first: NamedExpr,
    rest: Vec<Term<NamedExpr>>,
) -> Result<NamedExpr, Stop>
    ensures { MatchResult result (λ e. named_tree e ≡ n.sum (named_tree first, view.terms rest))
        (λ e. e ≡ NoMemory) }
{
    if rest.is_empty() {
        discard(rest);
        return Ok(first);
    }
    let place = first.place;
    let (first, rest) = boxed_beside(alloc, first, rest)?;
    Ok(Expr {
        place,
        kind: Kind::Sum { first, rest },
    })
}

fn range_node(
    alloc: Global,
    left: NamedExpr,
    place: u32,
    right: NamedExpr,
) -> Result<NamedExpr, Stop>
    ensures { MatchResult result
        (λ e.
        named_tree e
        ≡ n.node_at (named_tree left) (p.range_form (named_tree left) place (named_tree right)))
        (λ e. e ≡ NoMemory) }
{
    let first = left.place;
    let (left, right) = both_boxed(alloc, left, right)?;
    Ok(Expr {
        place: first,
        kind: Kind::Range { left, place, right },
    })
}

pub fn range_of(
    alloc: Global,
    left: NamedExpr,
    end: Option<(u32, NamedExpr)>,
) -> Result<NamedExpr, Stop>
    ensures { MatchResult result (λ e. named_tree e ≡ n.range (named_tree left, view.range_end end))
        (λ e. e ≡ NoMemory) }
{
    match end {
        None => Ok(left),
        Some((place, right)) => range_node(alloc, left, place, right),
    }
}

fn compare_node(
    alloc: Global,
    left: NamedExpr,
    op: CompareOp,
    place: u32,
    right: NamedExpr,
) -> Result<NamedExpr, Stop>
    ensures { MatchResult result
        (λ e.
        named_tree e
        ≡ n.node_at (named_tree left)
        (p.compare_form (named_tree left) op place (named_tree right))) (λ e. e ≡ NoMemory) }
{
    let first = left.place;
    let (left, right) = both_boxed(alloc, left, right)?;
    Ok(Expr {
        place: first,
        kind: Kind::Compare {
            left,
            op,
            place,
            right,
        },
    })
}

pub fn compare_of(
    alloc: Global,
    left: NamedExpr,
    comparison: Option<(CompareOp, u32, NamedExpr)>,
) -> Result<NamedExpr, Stop>
    ensures { MatchResult result
        (λ e. named_tree e ≡ n.compare (named_tree left, view.comparison comparison))
        (λ e. e ≡ NoMemory) }
{
    match comparison {
        None => Ok(left),
        Some((op, place, right)) => compare_node(alloc, left, op, place, right),
    }
}
