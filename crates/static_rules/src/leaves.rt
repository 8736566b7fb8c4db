//! Expressions in which no other stands, and copies of what trees hold.

ghost use Rattle.std.specs.Prelude.{◌≡◌, [], option_map, map, IfOk, OnOk};
ghost use Rattle.query_tree.specs.Plain.{int_form, dec_form, text_form, var_form, context_form, name_lookup, text_lookup, var_lookup, context_lookup};
ghost use Rattle.static_rules.specs.Mentions.{types_mentions, type_mentions};
ghost use Rattle.static_rules.specs.Compiling.{compiled_form, compiled_lookup, placed_type, any_binding};
ghost use Rattle.query_tree.specs.declared.bound.Slot.TheVariants.{Local};
ghost use Rattle.static_rules.specs.Walks.{passed};
ghost use Rattle.query_tree.specs.BoundViews.{bound_form, bound_lookup};
ghost use Rattle.static_rules.specs.Sources.{behind_form, behind_lookup};

use crate::walk::Walk;
use item_tree::{NoMemory, Str, Units, Whole};
use query_tree::{BoundExpr, Kind, Lookup, Placed, Slot, SumOp, Target, TypeName};
use seq_types::SeqType;
use std::alloc::Global;

pub type BoundKind = Kind<Slot, Target, SeqType>;

pub type NamedKind = Kind<Str, Str, TypeName>;

#[tactic(auto, using(query_tree::proofs::Layers::layers, crate::proofs::Passing::passings))]
pub fn int(walk: &mut Walk, value: Whole) -> Result<BoundKind, NoMemory>
    ensures tree { IfOk result (λ t. bound_form t ≡ int_form value) }
    ensures walk { OnOk result (walk.new ≡ passed walk.old [] []) }
{
    Ok(Kind::Int { value })
}

#[tactic(auto, using(query_tree::proofs::Layers::layers, crate::proofs::Passing::passings))]
pub fn dec(walk: &mut Walk, value: Units) -> Result<BoundKind, NoMemory>
    ensures tree { IfOk result (λ t. bound_form t ≡ dec_form value) }
    ensures walk { OnOk result (walk.new ≡ passed walk.old [] []) }
{
    Ok(Kind::Dec { value })
}

#[tactic(auto, using(query_tree::proofs::Layers::layers, crate::proofs::Passing::passings))]
pub fn text(walk: &mut Walk, value: &Str) -> Result<BoundKind, NoMemory>
    ensures tree { IfOk result (λ t. bound_form t ≡ text_form value.now) }
    ensures walk { OnOk result (walk.new ≡ passed walk.old [] []) }
{
    let value = value.copy()?;
    Ok(Kind::Text { value })
}

/// A constant that has a name.
#[tactic(auto, using(query_tree::proofs::Layers::layers, crate::proofs::Passing::passings))]
pub fn constant(walk: &mut Walk, kind: BoundKind) -> Result<BoundKind, NoMemory>
    ensures tree { IfOk result (λ t. t ≡ kind) }
    ensures walk { OnOk result (walk.new ≡ passed walk.old [] []) }
{
    Ok(kind)
}

#[tactic(auto, using(query_tree::proofs::Layers::layers))]
pub fn var(walk: &mut Walk, item: bool, place: u32, name: &Str) -> Result<BoundKind, NoMemory>
    ensures tree { IfOk result
        (λ t. bound_form t ≡ compiled_form walk.old.names walk.old.number (var_form name.now)) }
    ensures walk { OnOk result (walk.new ≡ behind_form walk.old item place (var_form name.now)) }
{
    let variable = walk.read(name, place);
    Ok(Kind::Var { variable })
}

#[tactic(auto, using(query_tree::proofs::Layers::layers))]
pub fn context(walk: &mut Walk, item: bool, place: u32) -> Result<BoundKind, NoMemory>
    ensures tree { IfOk result (λ t. bound_form t ≡ context_form) }
    ensures walk { OnOk result (walk.new ≡ behind_form walk.old item place context_form) }
{
    walk.read_item(item, place);
    Ok(Kind::Context)
}

#[tactic(auto, using(crate::proofs::Passing::passings))]
pub fn name_key(walk: &mut Walk, name: &Str) -> Result<Lookup<Slot, BoundExpr>, NoMemory>
    ensures tree { IfOk result (λ t. bound_lookup t ≡ name_lookup name.now) }
    ensures walk { OnOk result (walk.new ≡ passed walk.old [] []) }
{
    let name = name.copy()?;
    Ok(Lookup::Name { name })
}

#[tactic(auto, using(crate::proofs::Passing::passings))]
pub fn text_key(walk: &mut Walk, value: &Str) -> Result<Lookup<Slot, BoundExpr>, NoMemory>
    ensures tree { IfOk result (λ t. bound_lookup t ≡ text_lookup value.now) }
    ensures walk { OnOk result (walk.new ≡ passed walk.old [] []) }
{
    let value = value.copy()?;
    Ok(Lookup::Text { value })
}

pub fn var_key(
    walk: &mut Walk,
    item: bool,
    variable: &Placed<Str>,
) -> Result<Lookup<Slot, BoundExpr>, NoMemory>
    ensures tree { IfOk result
        (λ t.
        bound_lookup t ≡ compiled_lookup walk.old.names walk.old.number (var_lookup variable.now)) }
    ensures walk { OnOk result (walk.new ≡ behind_lookup walk.old item (var_lookup variable.now)) }
{
    let slot = walk.read(&variable.name, variable.place);
    let variable = Placed {
        place: variable.place,
        name: slot,
    };
    Ok(Lookup::Var { variable })
}

pub fn context_key(
    walk: &mut Walk,
    item: bool,
    place: u32,
) -> Result<Lookup<Slot, BoundExpr>, NoMemory>
    ensures tree { IfOk result (λ t. bound_lookup t ≡ context_lookup place) }
    ensures walk { OnOk result (walk.new ≡ behind_lookup walk.old item (context_lookup place)) }
{
    walk.read_item(item, place);
    Ok(Lookup::Context { place })
}

/// The same signs.
pub fn copied_signs(alloc: Global, signs: &[(SumOp, u32)]) -> Result<Vec<(SumOp, u32)>, NoMemory>
    ensures { IfOk result (λ v. v.items ≡ signs.now) }
{
    let mut out = Vec::new(alloc);
    for sign in signs {
        out.push(*sign)?;
    }
    Ok(out)
}

/// The same codes.
pub fn copied_codes(alloc: Global, codes: &Option<Vec<Str>>) -> Result<Option<Vec<Str>>, NoMemory>
    ensures { IfOk result (λ v. option_map (λ x. x.items) v ≡ option_map (λ x. x.items) codes.now) }
{
    match codes {
        None => Ok(None),
        Some(codes) => {
            let codes = copied_strings(alloc, codes)?;
            Ok(Some(codes))
        }
    }
}

fn copied_strings(alloc: Global, texts: &[Str]) -> Result<Vec<Str>, NoMemory>
    ensures { IfOk result (λ v. v.items ≡ texts.now) }
{
    let mut out = Vec::new(alloc);
    for text in texts {
        out.push(text.copy()?)?;
    }
    Ok(out)
}

/// The types that are meant.
pub fn seq_types(
    alloc: Global,
    walk: &mut Walk,
    types: &[Placed<TypeName>],
) -> Result<Vec<Placed<SeqType>>, NoMemory>
    ensures value { IfOk result (λ v. v.items ≡ map placed_type types.now) }
    ensures walk { OnOk result (walk.new ≡ passed walk.old (types_mentions types.now) []) }
{
    let mut out = Vec::new(alloc);
    for t in types {
        out.push(walk.seq_type(t))?;
    }
    Ok(out)
}

/// The type that is meant, if there is one.
#[tactic(auto, using(crate::proofs::Passing::passings))]
pub fn any_type(
    walk: &mut Walk,
    of: &Option<Placed<TypeName>>,
) -> Result<Option<Placed<SeqType>>, NoMemory>
    ensures value { IfOk result (λ t. t ≡ option_map placed_type of.now) }
    ensures walk { OnOk result (walk.new ≡ passed walk.old (type_mentions of.now) []) }
{
    match of {
        None => Ok(None),
        Some(t) => Ok(Some(walk.seq_type(t))),
    }
}

/// A binding with this number.
pub fn local(place: u32, number: u32) -> Placed<Slot>
    ensures { result ≡ record { place = place; name = Local number } }
{
    Placed {
        place,
        name: Slot::Local(number),
    }
}

/// A binding with this number, if there is one.
pub fn any_local(variable: &Option<Placed<Str>>, number: u32) -> Option<Placed<Slot>>
    ensures { result ≡ any_binding variable.now number }
{
    match variable {
        None => None,
        Some(v) => Some(local(v.place, number)),
    }
}
