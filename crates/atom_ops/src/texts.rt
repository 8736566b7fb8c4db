//! The concatenation of two operands.

ghost use Rattle.std.specs.Prelude.{◌≡◌, ◌++◌, Ok, Err, MatchResult, IfOk, IfErr, IfSome, None, option_map};
ghost use Rattle.item_tree.specs.Datum.{IsAtomic};
ghost use Rattle.item_tree.specs.Item.{datum, datums};
ghost use Rattle.value_rules.specs.Operands.{FailsWith};
ghost use Rattle.value_rules.specs.Strings.{optional_text};
ghost use Rattle.atom_ops.specs.Texts.{joined_texts};

use item_tree::{Code, Item, NoMemory, OpFault, Str, text_of};
use std::alloc::Global;
use value_rules::optional_atomic;

/// The texts of two operands, put together. Each operand is empty, which has the empty text, or one
/// atomic.
pub fn concat_text(alloc: Global, a: &[Item], b: &[Item]) -> Result<Item, OpFault>
    ensures value { IfOk result (λ x. joined_texts (datums a.now) (datums b.now) ≡ Ok (datum x)) }
    ensures fault { IfErr result (FailsWith (joined_texts (datums a.now) (datums b.now))) }
{
    let left = optional_atomic(a)?;
    let right = optional_atomic(b)?;
    Ok(Item::Text(joined(alloc, left, right)?))
}

fn joined(alloc: Global, a: Option<&Item>, b: Option<&Item>) -> Result<Str, NoMemory>
    requires left { IfSome a (λ x. IsAtomic (datum x.now)) }
    requires right { IfSome b (λ x. IsAtomic (datum x.now)) }
    ensures { IfOk result
        (λ s. s ≡ optional_text (option_map (λ x. datum x.now) a.entry)
        ++ optional_text (option_map (λ x. datum x.now) b.entry)) }
{
    let left = optional_text(alloc, a)?;
    let right = optional_text(alloc, b)?;
    appended(alloc, &left, &right)
}

#[tactic(auto, using(crate::proofs::TextLemmas::joined_chars))]
fn appended(alloc: Global, left: &Str, right: &Str) -> Result<Str, NoMemory>
    ensures { IfOk result (λ s. s ≡ left.now ++ right.now) }
{
    let mut text = String::from_str(alloc, left.as_str())?;
    text.push_str(right.as_str())?;
    Str::from_string(alloc, text)
}

fn optional_text(alloc: Global, x: Option<&Item>) -> Result<Str, NoMemory>
    requires { IfSome x (λ y. IsAtomic (datum y.now)) }
    ensures { IfOk result (λ s. s ≡ optional_text (option_map (λ y. datum y.now) x.entry)) }
{
    match x {
        None => Str::of(alloc, ""),
        Some(atom) => text_of(alloc, atom),
    }
}
