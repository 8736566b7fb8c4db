//! Names and types.

ghost use Rattle.grammar_parts.specs.Reads.{ReadsAs};
ghost use Rattle.query_grammar.specs.Grammar as g;

use crate::values::{placed, times_by, type_of};
use grammar_parts::{Cursor, Stop};
use item_tree::Str;
use query_grammar::{Class, Kind, Word};
use query_tree::{Placed, TypeName};
use seq_types::Times;
use std::alloc::Global;

/// `Var`
#[tactic(auto, unfolding(query_grammar::specs::Grammar::variable))]
pub fn variable(alloc: Global, cursor: &mut Cursor<'_, Word>) -> Result<Placed<Str>, Stop>
    ensures { ReadsAs (λ x. x) ((g.variable).read cursor.old.rest.now) result cursor.new.rest.now }
{
    let word = cursor.expect(Kind::Var)?;
    placed(alloc, word)
}

/// `[ "(" ")" ]`
#[tactic(auto, unfolding(query_grammar::specs::Grammar::parens))]
fn parens(cursor: &mut Cursor<'_, Word>) -> Result<bool, Stop>
    ensures { ReadsAs (λ x. x) ((g.parens).read cursor.old.rest.now) result cursor.new.rest.now }
{
    if !cursor.sees(Kind::OpenParen) {
        return Ok(false);
    }
    cursor.expect(Kind::OpenParen)?;
    cursor.expect(Kind::CloseParen)?;
    Ok(true)
}

/// `[ "?" | "*" | "+" ]`
#[tactic(auto, unfolding(query_grammar::specs::Grammar::times))]
fn times(cursor: &mut Cursor<'_, Word>) -> Result<Times, Stop>
    ensures { ReadsAs (λ x. x) ((g.times).read cursor.old.rest.now) result cursor.new.rest.now }
{
    if !cursor.sees(Class::Times) {
        return Ok(Times::One);
    }
    let sign = cursor.expect(Class::Times)?;
    Ok(times_by(sign.kind))
}

/// A type by its name, which is not `empty-sequence`.
#[tactic(auto, unfolding(query_grammar::specs::Grammar::item_type))]
fn item_type(alloc: Global, cursor: &mut Cursor<'_, Word>) -> Result<Placed<TypeName>, Stop>
    ensures { ReadsAs (λ x. x) ((g.item_type).read cursor.old.rest.now) result cursor.new.rest.now }
{
    let word = cursor.expect(Class::TypeName)?;
    let parens = parens(cursor)?;
    let times = times(cursor)?;
    type_of(alloc, word, parens, times)
}

/// What follows `empty-sequence`.
#[tactic(auto, unfolding(query_grammar::specs::Grammar::empty_rest, query_grammar::specs::Grammar::empty_parens))]
fn empty_rest(cursor: &mut Cursor<'_, Word>) -> Result<(bool, Times), Stop>
    ensures { ReadsAs (λ x. x) ((g.empty_rest).read cursor.old.rest.now) result
        cursor.new.rest.now }
{
    if !cursor.sees(Kind::OpenParen) {
        let times = times(cursor)?;
        return Ok((false, times));
    }
    cursor.expect(Kind::OpenParen)?;
    cursor.expect(Kind::CloseParen)?;
    Ok((true, Times::One))
}

/// A type whose name is `empty-sequence`.
#[tactic(auto, unfolding(query_grammar::specs::Grammar::empty_type))]
fn empty_type(alloc: Global, cursor: &mut Cursor<'_, Word>) -> Result<Placed<TypeName>, Stop>
    ensures { ReadsAs (λ x. x) ((g.empty_type).read cursor.old.rest.now) result
        cursor.new.rest.now }
{
    let word = cursor.expect(Kind::EmptySequence)?;
    let (parens, times) = empty_rest(cursor)?;
    type_of(alloc, word, parens, times)
}

/// `SeqType`
#[tactic(auto, unfolding(query_grammar::specs::Grammar::seq_type))]
pub fn seq_type(alloc: Global, cursor: &mut Cursor<'_, Word>) -> Result<Placed<TypeName>, Stop>
    ensures { ReadsAs (λ x. x) ((g.seq_type).read cursor.old.rest.now) result cursor.new.rest.now }
{
    if cursor.sees(Kind::EmptySequence) {
        empty_type(alloc, cursor)
    } else {
        item_type(alloc, cursor)
    }
}

/// `Single1`
#[tactic(auto, unfolding(query_grammar::specs::Grammar::single_type))]
pub fn single_type(alloc: Global, cursor: &mut Cursor<'_, Word>) -> Result<Placed<TypeName>, Stop>
    ensures { ReadsAs (λ x. x) ((g.single_type).read cursor.old.rest.now) result
        cursor.new.rest.now }
{
    let word = cursor.expect(Class::Name)?;
    if !cursor.sees(Kind::Question) {
        return type_of(alloc, word, false, Times::One);
    }
    let sign = cursor.expect(Kind::Question)?;
    type_of(alloc, word, false, times_by(sign.kind))
}

/// `[ "as" SeqType ]`
#[tactic(auto, unfolding(query_grammar::specs::Grammar::as_type))]
pub fn as_type(
    alloc: Global,
    cursor: &mut Cursor<'_, Word>,
) -> Result<Option<Placed<TypeName>>, Stop>
    ensures { ReadsAs (λ x. x) ((g.as_type).read cursor.old.rest.now) result cursor.new.rest.now }
{
    if !cursor.sees(Kind::As) {
        return Ok(None);
    }
    cursor.expect(Kind::As)?;
    let name = seq_type(alloc, cursor)?;
    Ok(Some(name))
}
