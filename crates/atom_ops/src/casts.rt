//! Casts of one atomic to another type.

ghost use Rattle.std.specs.Prelude.{◌≡◌, Ok, Err, IsTrue, MatchResult, IfOk, IfErr, IfSome, option_map};
ghost use Rattle.item_tree.specs.Datum.{IsAtomic};
ghost use Rattle.item_tree.specs.Item.{datum, datums};
ghost use Rattle.value_rules.specs.Operands.{FailsWith};
ghost use Rattle.atom_ops.specs.Casts.{is_cast_to, cast_to, cast_operand, cast_value};

use crate::cast_rows::{
    boolean_from, date_from, decimal_from, integer_from, moment_from, null_from,
};
use item_tree::{Code, Item, OpFault, text_of};
use seq_types::ItemType;
use std::alloc::Global;
use value_rules::{item_of, one_atomic};

/// Casts one atomic to a type that a cast may have: string, integer, decimal, boolean, null, date
/// or date-time. `None` exactly where the operand is empty and may be. A value that the type's
/// table does not take is FORG0001, and a string of a number that is out of bounds FOAR0002.
pub fn cast(
    alloc: Global,
    a: &[Item],
    to: ItemType,
    optional: bool,
) -> Result<Option<Item>, OpFault>
    requires { IsTrue (is_cast_to to) }
    ensures value { IfOk result
        (λ o. cast_value to optional (datums a.now) ≡ Ok (option_map datum o)) }
    ensures fault { IfErr result (FailsWith (cast_value to optional (datums a.now))) }
{
    match cast_operand(a, optional)? {
        None => Ok(None),
        Some(x) => Ok(Some(cast_atomic(alloc, x, to)?)),
    }
}

fn cast_operand(s: &[Item], optional: bool) -> Result<Option<&Item>, Code>
    ensures value { MatchResult result
        (λ o. cast_operand optional (datums s.now) ≡ Ok (option_map (λ x. datum x.now) o))
        (λ e. cast_operand optional (datums s.now) ≡ Err e) }
    ensures atomic { IfOk result (λ o. IfSome o (λ x. IsAtomic (datum x.now))) }
{
    if s.is_empty() {
        return if optional {
            Ok(None)
        } else {
            Err(Code::XPTY0004)
        };
    }
    Ok(Some(one_atomic(s)?))
}

fn cast_atomic(alloc: Global, x: &Item, to: ItemType) -> Result<Item, OpFault>
    requires atomic { IsAtomic (datum x.now) }
    requires castable { IsTrue (is_cast_to to) }
    ensures value { IfOk result (λ y. cast_to to (datum x.now) ≡ Ok (datum y)) }
    ensures fault { IfErr result (FailsWith (cast_to to (datum x.now))) }
{
    match to {
        ItemType::Text => Ok(Item::Text(text_of(alloc, x)?)),
        ItemType::Integer => Ok(item_of(integer_from(x)?)),
        ItemType::Decimal => Ok(item_of(decimal_from(x)?)),
        ItemType::Boolean => Ok(Item::Bool(boolean_from(x)?)),
        ItemType::Null => Ok(null_from(x)?),
        ItemType::Date => Ok(Item::Date(date_from(x)?)),
        ItemType::DateTime => Ok(Item::DateTime(moment_from(x)?)),
        ItemType::Item
        | ItemType::JsonItem
        | ItemType::Object
        | ItemType::Array
        | ItemType::Atomic => unreachable!(),
    }
}
