//! The names of inputs and of functions in calls.

ghost use Rattle.std.specs.Prelude.{◌≡◌, option_map, IfOk};
ghost use Rattle.static_rules.specs.Rules.{is_lines, are_texts, is_name_count, name_inputs};
ghost use Rattle.static_rules.specs.Calls.{text_in, texts_of};
ghost use Rattle.query_tree.specs.NamedViews.{named_form, named_tree_list};

use crate::leaves::NamedKind;
use item_tree::{NoMemory, Str};
use query_tree::{Kind, NamedExpr};
use std::alloc::Global;

/// Whether a function has the name `json-lines`.
pub fn is_lines(name: &Str) -> bool
    ensures { result ≡ is_lines name.now }
{
    name.as_str() == "json-lines"
}

/// The string that an expression is, where it is spelled out.
#[tactic(auto, using(query_tree::proofs::Layers::layers))]
fn text_in(kind: &NamedKind) -> Option<&Str>
    ensures { option_map (λ s. s.now) result ≡ text_in (named_form kind.now) }
{
    match kind {
        Kind::Text { value } => Some(value),
        _ => None,
    }
}

/// Whether there are 1 to 64 arguments, each a string that is spelled out.
#[tactic(auto, using(crate::proofs::Calling::argument_length))]
pub fn name_inputs(arguments: &[NamedExpr]) -> bool
    ensures { result ≡ name_inputs (named_tree_list arguments.now) }
{
    is_name_count(arguments.len()) && are_texts(arguments)
}

// Whether so many names may stand in a call of `json-lines`.
fn is_name_count(count: usize) -> bool
    ensures { result ≡ is_name_count count }
{
    1 <= count && count <= 64
}

// Whether each argument is a string that is spelled out.
fn are_texts(arguments: &[NamedExpr]) -> bool
    ensures { result ≡ are_texts (named_tree_list arguments.now) }
{
    for argument in arguments {
        if text_in(&argument.kind).is_none() {
            return false;
        }
    }
    true
}

/// The strings among the arguments that are spelled out, in order.
pub fn texts(alloc: Global, arguments: &[NamedExpr]) -> Result<Vec<Str>, NoMemory>
    ensures { IfOk result (λ v. v.items ≡ texts_of (named_tree_list arguments.now)) }
{
    let mut out = Vec::new(alloc);
    for argument in arguments {
        if let Some(text) = text_in(&argument.kind) {
            out.push(text.copy()?)?;
        }
    }
    Ok(out)
}
