//! Quantified expressions.

ghost use Rattle.std.specs.Prelude.{◌≡◌, IfOk, OnOk};
ghost use Rattle.static_rules.specs.Behind.{behind_bind, behind_binds};
ghost use Rattle.query_tree.specs.Plain.{quant_form};
ghost use Rattle.static_rules.specs.Compiling.{compiled_binds, compiled_bind, compiled_form};
ghost use Rattle.query_tree.specs.NamedViews.{named_binds, named_bind, named_tree};
ghost use Rattle.query_tree.specs.BoundViews.{bound_binds, bound_bind, bound_form};
ghost use Rattle.static_rules.specs.Sources.{behind_form};

use crate::exprs::expr;
use crate::flwor::bound;
use crate::gather::{both, boxed, pushed};
use crate::leaves::BoundKind;
use crate::walk::Walk;
use item_tree::{NoMemory, Str};
use query_tree::{Bind, BoundExpr, Kind, NamedExpr, Quantifier, Slot, TypeName};
use seq_types::SeqType;
use std::alloc::Global;

#[cycle(walk)]
#[tactic(auto, using(query_tree::proofs::Layers::layers, crate::proofs::Passing::passings, crate::proofs::Quantified::quantifying))]
pub fn quantified<'q>(
    alloc: Global,
    walk: &mut Walk<'q>,
    item: bool,
    inner: &'q [Bind<Str, TypeName, NamedExpr>],
    quantifier: Quantifier,
    test: &'q NamedExpr,
) -> Result<BoundKind, NoMemory>
    ensures tree { IfOk result
        (λ t.
        bound_form t
        ≡ compiled_form walk.old.names walk.old.number
        (quant_form quantifier (named_binds inner.now) (named_tree test.now))) }
    ensures walk { OnOk result
        (walk.new
        ≡ behind_form walk.old item 0
        (quant_form quantifier (named_binds inner.now) (named_tree test.now))) }
{
    let depth = walk.depth();
    let binds = binds(alloc, walk, item, inner);
    let test = boxed(alloc, expr(alloc, walk, item, test));
    walk.close(depth);
    let (binds, test) = both(binds, test)?;
    Ok(Kind::Quant {
        quantifier,
        binds,
        test,
    })
}

#[cycle(walk)]
fn binds<'q>(
    alloc: Global,
    walk: &mut Walk<'q>,
    item: bool,
    parts: &'q [Bind<Str, TypeName, NamedExpr>],
) -> Result<Vec<Bind<Slot, SeqType, BoundExpr>>, NoMemory>
    ensures tree { IfOk result
        (λ t.
        bound_binds t.items
        ≡ compiled_binds walk.old.names walk.old.number (named_binds parts.now)) }
    ensures walk { OnOk result (walk.new ≡ behind_binds walk.old item (named_binds parts.now)) }
{
    let mut out = Vec::new(alloc);
    for part in parts {
        out = pushed(out, bind(alloc, walk, item, part))?;
    }
    Ok(out)
}

#[cycle(walk)]
#[tactic(auto, using(query_tree::proofs::Layers::layers))]
fn bind<'q>(
    alloc: Global,
    walk: &mut Walk<'q>,
    item: bool,
    part: &'q Bind<Str, TypeName, NamedExpr>,
) -> Result<Bind<Slot, SeqType, BoundExpr>, NoMemory>
    ensures tree { IfOk result
        (λ t. bound_bind t ≡ compiled_bind walk.old.names walk.old.number (named_bind part.now)) }
    ensures walk { OnOk result (walk.new ≡ behind_bind walk.old item (named_bind part.now)) }
{
    let (variable, of, source) = bound(alloc, walk, item, &part.variable, &part.of, &part.source)?;
    Ok(Bind {
        variable,
        of,
        source,
    })
}
