//! What tokens say, as parts of trees.

ghost use Rattle.std.specs.Prelude.{◌≡◌, [], MatchResult};
ghost use Rattle.grammar_parts.specs.declared.cursor.Stop.TheVariants.{NoMemory};
ghost use Rattle.query_grammar.specs.Nodes as n;

use grammar_parts::Stop;
use item_tree::{Str, Units, Whole};
use query_grammar::{Kind, Value, Word};
use query_tree::{CompareOp, Placed, ProductOp, SumOp, TypeName};
use seq_types::Times;
use std::alloc::Global;

fn copied(text: &Str) -> Result<Str, Stop>
    ensures { MatchResult result (λ s. s ≡ text.now) (λ e. e ≡ NoMemory) }
{
    match text.copy() {
        Ok(text) => Ok(text),
        Err(_) => Err(Stop::NoMemory),
    }
}

fn no_text(alloc: Global) -> Result<Str, Stop>
    ensures { MatchResult result (λ s. s ≡ []) (λ e. e ≡ NoMemory) }
{
    match Str::of(alloc, "") {
        Ok(text) => Ok(text),
        Err(_) => Err(Stop::NoMemory),
    }
}

/// The text in a value; that of a value without one is empty.
fn text_in(alloc: Global, value: &Value) -> Result<Str, Stop>
    ensures { MatchResult result (λ s. s ≡ n.text_in value.now) (λ e. e ≡ NoMemory) }
{
    match value {
        Value::Text(text) => copied(text),
        Value::Nothing | Value::Int(_) | Value::Dec(_) => no_text(alloc),
    }
}

/// The name of a word.
pub fn name_of(alloc: Global, word: &Word) -> Result<Str, Stop>
    ensures { MatchResult result (λ s. s ≡ n.name_of word.now) (λ e. e ≡ NoMemory) }
{
    text_in(alloc, &word.value)
}

/// The name of a word, with its place.
pub fn placed(alloc: Global, word: &Word) -> Result<Placed<Str>, Stop>
    ensures { MatchResult result (λ x. x ≡ n.placed word.now) (λ e. e ≡ NoMemory) }
{
    let name = text_in(alloc, &word.value)?;
    Ok(Placed {
        place: word.place,
        name,
    })
}

/// The integer in a value; that of a value without one is 0.
pub fn whole_in(value: &Value) -> Whole
    ensures { result ≡ n.whole_in value.now }
{
    match value {
        Value::Int(n) => *n,
        Value::Nothing | Value::Text(_) | Value::Dec(_) => Whole::new(0),
    }
}

/// The decimal in a value; that of a value without one is 0.
pub fn units_in(value: &Value) -> Units
    ensures { result ≡ n.units_in value.now }
{
    match value {
        Value::Dec(m) => *m,
        Value::Nothing | Value::Text(_) | Value::Int(_) => Units::new(0),
    }
}

/// A type by its name.
pub fn type_of(
    alloc: Global,
    word: &Word,
    parens: bool,
    times: Times,
) -> Result<Placed<TypeName>, Stop>
    ensures { MatchResult result (λ x. x ≡ n.type_of word.now parens times) (λ e. e ≡ NoMemory) }
{
    let name = text_in(alloc, &word.value)?;
    Ok(Placed {
        place: word.place,
        name: TypeName {
            name,
            parens,
            times,
        },
    })
}

/// How many items the sign of a type allows.
pub fn times_by(kind: Kind) -> Times
    ensures { result ≡ n.times_by kind }
{
    match kind {
        Kind::Question => Times::Optional,
        Kind::Star => Times::Any,
        Kind::Plus => Times::Many,
        _ => Times::One,
    }
}

pub fn sum_op(kind: Kind) -> SumOp
    ensures { result ≡ n.sum_op kind }
{
    match kind {
        Kind::Minus => SumOp::Minus,
        _ => SumOp::Plus,
    }
}

pub fn product_op(kind: Kind) -> ProductOp
    ensures { result ≡ n.product_op kind }
{
    match kind {
        Kind::Div => ProductOp::Div,
        Kind::Idiv => ProductOp::Idiv,
        Kind::Mod => ProductOp::Mod,
        _ => ProductOp::Times,
    }
}

pub fn compare_op(kind: Kind) -> CompareOp
    ensures { result ≡ n.compare_op kind }
{
    match kind {
        Kind::Eq => CompareOp::ValueEq,
        Kind::Ne => CompareOp::ValueNe,
        Kind::Lt => CompareOp::ValueLt,
        Kind::Le => CompareOp::ValueLe,
        Kind::Gt => CompareOp::ValueGt,
        Kind::Ge => CompareOp::ValueGe,
        Kind::Differs => CompareOp::PairsNe,
        Kind::Less => CompareOp::PairsLt,
        Kind::AtMost => CompareOp::PairsLe,
        Kind::Greater => CompareOp::PairsGt,
        Kind::AtLeast => CompareOp::PairsGe,
        _ => CompareOp::PairsEq,
    }
}
