//! FLWOR expressions and their clauses.

ghost use Rattle.std.specs.Prelude.{◌≡◌, ◌≤◌, ◌+◌, ◌∷◌, ◌++◌, true, option_map, length, IfOk, OnOk};
ghost use Rattle.query_tree.specs.Plain.{flwor_form, for_clause, let_clause, where_clause, group_clause, order_clause, count_clause, stream_group_var, computed_group_var};
ghost use Rattle.static_rules.specs.Mentions.{type_mentions, mentions};
ghost use Rattle.query_tree.specs.Binders.{binders};
ghost use Rattle.static_rules.specs.Walks.{view_of};
ghost use Rattle.static_rules.specs.Openings.{entered};
ghost use Rattle.static_rules.specs.Behind.{below, behind_clause, behind_clauses, behind_key, behind_keys};
ghost use Rattle.query_tree.specs.declared.bound.Slot.TheVariants.{Local};
ghost use Rattle.static_rules.specs.Compiling.{with_slot, binding, placed_type, compiled, compiled_form, compiled_clauses, compiled_clause, compiled_group_vars, compiled_group_var, compiled_order_keys, compiled_order_key};
ghost use Rattle.query_tree.specs.NamedViews.{named_tree, named_clauses, named_clause, named_group_vars, named_group_var, named_order_keys, named_order_key};
ghost use Rattle.query_tree.specs.BoundViews.{bound_tree, bound_form, bound_clauses, bound_clause, bound_group_vars, bound_group_var, bound_order_keys, bound_order_key};
ghost use Rattle.static_rules.specs.Sources.{behind_form, behind_order_keys, behind_order_key};

use crate::exprs::expr;
use crate::gather::{both, boxed, pushed};
use crate::leaves::{BoundKind, any_local, any_type, local};
use crate::walk::Walk;
use item_tree::{NoMemory, Str};
use query_tree::{
    BoundExpr, Clause, Expr, GroupVar, Kind, NamedExpr, OrderKey, Placed, Slot, Target, TypeName,
};
use seq_types::SeqType;
use std::alloc::Global;

type NamedClause = Clause<Str, Str, TypeName>;

type BoundClause = Clause<Slot, Target, SeqType>;

#[cycle(walk)]
#[tactic(auto, using(query_tree::proofs::Layers::layers, crate::proofs::Passing::passings, crate::proofs::Flwors::scope))]
pub fn flwor<'q>(
    alloc: Global,
    walk: &mut Walk<'q>,
    item: bool,
    inner: &'q [NamedClause],
    place: u32,
    returned: &'q NamedExpr,
) -> Result<BoundKind, NoMemory>
    ensures tree { IfOk result
        (λ t.
        bound_form t
        ≡ compiled_form walk.old.names walk.old.number
        (flwor_form (named_clauses inner.now) place (named_tree returned.now))) }
    ensures walk { OnOk result
        (walk.new
        ≡ behind_form walk.old item 0
        (flwor_form (named_clauses inner.now) place (named_tree returned.now))) }
{
    let depth = walk.depth();
    let clauses = clauses(alloc, walk, item, inner);
    let last = boxed(alloc, expr(alloc, walk, item, returned));
    walk.close(depth);
    let (clauses, last) = both(clauses, last)?;
    Ok(Kind::Flwor {
        clauses,
        place,
        result: last,
    })
}

// The clauses of a FLWOR. Its stream begins here.
#[cycle(walk)]
fn clauses<'q>(
    alloc: Global,
    walk: &mut Walk<'q>,
    item: bool,
    parts: &'q [NamedClause],
) -> Result<Vec<BoundClause>, NoMemory>
    ensures tree { IfOk result
        (λ t.
        bound_clauses t.items
        ≡ compiled_clauses walk.old.names walk.old.number (named_clauses parts.now)) }
    ensures walk { OnOk result
        (walk.new
        ≡ behind_clauses walk.old item (length walk.old.names.variables)
        (named_clauses parts.now)) }
{
    let base = walk.depth();
    clauses_from(alloc, walk, item, base, parts)
}

// The clauses of a FLWOR before which so many variables were bound.
#[cycle(walk)]
fn clauses_from<'q>(
    alloc: Global,
    walk: &mut Walk<'q>,
    item: bool,
    base: usize,
    parts: &'q [NamedClause],
) -> Result<Vec<BoundClause>, NoMemory>
    ensures tree { base ≤ length walk.old.names.variables
        → IfOk result
        (λ t.
        bound_clauses t.items
        ≡ compiled_clauses walk.old.names walk.old.number (named_clauses parts.now)) }
    ensures walk { base ≤ length walk.old.names.variables
        → OnOk result (walk.new ≡ behind_clauses walk.old item base (named_clauses parts.now)) }
{
    let mut out = Vec::new(alloc);
    for part in parts {
        out = pushed(out, clause(alloc, walk, item, base, part))?;
    }
    Ok(out)
}

#[cycle(walk)]
#[tactic(auto, using(query_tree::proofs::Layers::layers))]
fn clause<'q>(
    alloc: Global,
    walk: &mut Walk<'q>,
    item: bool,
    base: usize,
    part: &'q NamedClause,
) -> Result<BoundClause, NoMemory>
    ensures tree { IfOk result
        (λ t.
        bound_clause t ≡ compiled_clause walk.old.names walk.old.number (named_clause part.now)) }
    ensures walk { OnOk result
        (walk.new ≡ behind_clause walk.old item base (named_clause part.now)) }
{
    match part {
        Clause::For {
            variable,
            of,
            allowing_empty,
            at,
            source,
        } => for_each(alloc, walk, item, variable, of, *allowing_empty, at, source),
        Clause::Let {
            variable,
            of,
            value,
        } => let_be(alloc, walk, item, variable, of, value),
        Clause::Where { place, test } => keep(alloc, walk, item, *place, test),
        Clause::Group { place, keys } => group(alloc, walk, item, base, *place, keys),
        Clause::Order {
            place,
            stable,
            keys,
        } => order(alloc, walk, item, *place, *stable, keys),
        Clause::Count { place, variable } => count(walk, *place, variable),
    }
}

#[cycle(walk)]
#[tactic(auto, using(query_tree::proofs::Layers::layers, crate::proofs::Passing::passings, crate::proofs::Scoping::scopes))]
fn for_each<'q>(
    alloc: Global,
    walk: &mut Walk<'q>,
    item: bool,
    variable: &'q Placed<Str>,
    of: &Option<Placed<TypeName>>,
    allowing_empty: bool,
    position: &'q Option<Placed<Str>>,
    source: &'q NamedExpr,
) -> Result<BoundClause, NoMemory>
    ensures tree { IfOk result
        (λ t.
        bound_clause t
        ≡ compiled_clause walk.old.names walk.old.number
        (for_clause variable.now of.now allowing_empty position.now (named_tree source.now))) }
    ensures walk { OnOk result
        (walk.new
        ≡ behind_clause walk.old item 0
        (for_clause variable.now of.now allowing_empty position.now (named_tree source.now))) }
{
    let number = walk.count()?;
    let next = walk.number();
    let of = any_type(walk, of)?;
    walk.position(variable, position)?;
    let source = expr(alloc, walk, item, source);
    let (source, ()) = both(
        source,
        walk.bind_for(&variable.name, number, position, next),
    )?;
    Ok(Clause::For {
        variable: local(variable.place, number),
        of,
        allowing_empty,
        at: any_local(position, next),
        source,
    })
}

#[cycle(walk)]
#[tactic(auto, using(query_tree::proofs::Layers::layers))]
fn let_be<'q>(
    alloc: Global,
    walk: &mut Walk<'q>,
    item: bool,
    variable: &'q Placed<Str>,
    of: &Option<Placed<TypeName>>,
    value: &'q NamedExpr,
) -> Result<BoundClause, NoMemory>
    ensures tree { IfOk result
        (λ t.
        bound_clause t
        ≡ compiled_clause walk.old.names walk.old.number
        (let_clause variable.now of.now (named_tree value.now))) }
    ensures walk { OnOk result
        (walk.new
        ≡ behind_clause walk.old item 0 (let_clause variable.now of.now (named_tree value.now))) }
{
    let (variable, of, value) = bound(alloc, walk, item, variable, of, value)?;
    Ok(Clause::Let {
        variable,
        of,
        value,
    })
}

/// A variable that is bound to a value, which doesn't see it.
#[cycle(walk)]
#[tactic(auto, using(crate::proofs::Passing::passings, crate::proofs::Scoping::scopes))]
pub fn bound<'q>(
    alloc: Global,
    walk: &mut Walk<'q>,
    item: bool,
    variable: &'q Placed<Str>,
    of: &Option<Placed<TypeName>>,
    value: &'q NamedExpr,
) -> Result<(Placed<Slot>, Option<Placed<SeqType>>, BoundExpr), NoMemory>
    ensures variable { IfOk result (λ t. t.0 ≡ binding variable.now walk.old.number) }
    ensures of { IfOk result (λ t. t.1 ≡ option_map placed_type of.now) }
    ensures value { IfOk result
        (λ t.
        bound_tree t.2 ≡ compiled walk.old.names (walk.old.number + 1) (named_tree value.now)) }
    ensures walk { OnOk result
        (walk.new
        ≡ entered walk.old
        (type_mentions of.now ++ mentions (view_of item walk.old.names) (named_tree value.now))
        (variable.now.name ∷ binders (named_tree value.now))
        (with_slot walk.old.names variable.now.name (Local walk.old.number))) }
{
    let number = walk.count()?;
    let of = any_type(walk, of)?;
    let value = expr(alloc, walk, item, value);
    let (value, ()) = both(value, walk.bind(&variable.name, number))?;
    Ok((local(variable.place, number), of, value))
}

#[cycle(walk)]
#[tactic(auto, using(query_tree::proofs::Layers::layers, crate::proofs::Flwors::entering))]
fn keep<'q>(
    alloc: Global,
    walk: &mut Walk<'q>,
    item: bool,
    place: u32,
    test: &'q NamedExpr,
) -> Result<BoundClause, NoMemory>
    ensures tree { IfOk result
        (λ t.
        bound_clause t
        ≡ compiled_clause walk.old.names walk.old.number
        (where_clause place (named_tree test.now))) }
    ensures walk { OnOk result
        (walk.new ≡ behind_clause walk.old item 0 (where_clause place (named_tree test.now))) }
{
    let test = expr(alloc, walk, item, test)?;
    Ok(Clause::Where { place, test })
}

#[cycle(walk)]
#[tactic(auto, using(query_tree::proofs::Layers::layers))]
fn group<'q>(
    alloc: Global,
    walk: &mut Walk<'q>,
    item: bool,
    base: usize,
    place: u32,
    inner: &'q Vec<GroupVar<Str, NamedExpr>>,
) -> Result<BoundClause, NoMemory>
    ensures tree { IfOk result
        (λ t.
        bound_clause t
        ≡ compiled_clause walk.old.names walk.old.number
        (group_clause place (named_group_vars inner.now.items))) }
    ensures walk { OnOk result
        (walk.new
        ≡ behind_clause walk.old item base
        (group_clause place (named_group_vars inner.now.items))) }
{
    let keys = keys(alloc, walk, item, base, inner)?;
    Ok(Clause::Group { place, keys })
}

// The keys of a grouping. Its stream are the variables that were bound behind the first `base`.
#[cycle(walk)]
fn keys<'q>(
    alloc: Global,
    walk: &mut Walk<'q>,
    item: bool,
    base: usize,
    parts: &'q [GroupVar<Str, NamedExpr>],
) -> Result<Vec<GroupVar<Slot, BoundExpr>>, NoMemory>
    ensures tree { IfOk result
        (λ t.
        bound_group_vars t.items
        ≡ compiled_group_vars walk.old.names walk.old.names walk.old.number
        (named_group_vars parts.now)) }
    ensures walk { OnOk result
        (walk.new
        ≡ behind_clause walk.old item base (group_clause 0 (named_group_vars parts.now))) }
{
    let mark = walk.depth();
    keys_from(alloc, walk, item, base, mark, parts)
}

// The keys of a grouping before which `mark` variables were bound: it is they that a key without an
// expression names.
#[cycle(walk)]
fn keys_from<'q>(
    alloc: Global,
    walk: &mut Walk<'q>,
    item: bool,
    base: usize,
    mark: usize,
    parts: &'q [GroupVar<Str, NamedExpr>],
) -> Result<Vec<GroupVar<Slot, BoundExpr>>, NoMemory>
    ensures tree { mark ≤ length walk.old.names.variables
        → IfOk result
        (λ t.
        bound_group_vars t.items
        ≡ compiled_group_vars (below mark walk.old.names) walk.old.names walk.old.number
        (named_group_vars parts.now)) }
    ensures walk { mark ≤ length walk.old.names.variables
        → OnOk result
        (walk.new ≡ behind_keys walk.old item base mark (named_group_vars parts.now)) }
{
    let mut out = Vec::new(alloc);
    for part in parts {
        out = pushed(out, key(alloc, walk, item, base, mark, part))?;
    }
    Ok(out)
}

#[cycle(walk)]
fn key<'q>(
    alloc: Global,
    walk: &mut Walk<'q>,
    item: bool,
    base: usize,
    mark: usize,
    part: &'q GroupVar<Str, NamedExpr>,
) -> Result<GroupVar<Slot, BoundExpr>, NoMemory>
    ensures tree { IfOk result
        (λ t.
        bound_group_var t
        ≡ compiled_group_var (below mark walk.old.names) walk.old.names walk.old.number
        (named_group_var part.now)) }
    ensures walk { OnOk result
        (walk.new ≡ behind_key walk.old item base mark (named_group_var part.now)) }
{
    match part {
        GroupVar::Stream { variable } => stream_key(walk, base, mark, variable),
        GroupVar::Computed { variable, value } => valued_key(alloc, walk, item, variable, value),
    }
}

// A key without an expression gets the variable of the stream that it names.
#[tactic(auto, using(query_tree::proofs::Layers::layers, crate::proofs::Flwors::entering))]
fn stream_key<'q>(
    walk: &mut Walk<'q>,
    base: usize,
    mark: usize,
    variable: &'q Placed<Str>,
) -> Result<GroupVar<Slot, BoundExpr>, NoMemory>
    ensures tree { IfOk result
        (λ t.
        bound_group_var t
        ≡ compiled_group_var (below mark walk.old.names) walk.old.names walk.old.number
        (stream_group_var variable.now)) }
    ensures walk { OnOk result
        (walk.new ≡ behind_key walk.old true base mark (stream_group_var variable.now)) }
{
    let place = variable.place;
    let number = walk.number();
    let stream = walk.group(&variable.name, place, base, mark);
    walk.open(&variable.name)?;
    Ok(GroupVar::Computed {
        variable: local(place, number),
        value: Expr {
            place,
            kind: Kind::Var { variable: stream },
        },
    })
}

#[cycle(walk)]
#[tactic(auto, using(query_tree::proofs::Layers::layers))]
fn valued_key<'q>(
    alloc: Global,
    walk: &mut Walk<'q>,
    item: bool,
    variable: &'q Placed<Str>,
    value: &'q NamedExpr,
) -> Result<GroupVar<Slot, BoundExpr>, NoMemory>
    ensures tree { IfOk result
        (λ t.
        bound_group_var t
        ≡ computed_group_var (binding variable.now walk.old.number)
        (compiled walk.old.names (walk.old.number + 1) (named_tree value.now))) }
    ensures walk { OnOk result
        (walk.new
        ≡ behind_key walk.old item 0 0 (computed_group_var variable.now (named_tree value.now))) }
{
    let (variable, _, value) = bound(alloc, walk, item, variable, &None, value)?;
    Ok(GroupVar::Computed { variable, value })
}

#[cycle(walk)]
#[tactic(auto, using(query_tree::proofs::Layers::layers, crate::proofs::Flwors::entering))]
fn order<'q>(
    alloc: Global,
    walk: &mut Walk<'q>,
    item: bool,
    place: u32,
    stable: bool,
    inner: &'q [OrderKey<NamedExpr>],
) -> Result<BoundClause, NoMemory>
    ensures tree { IfOk result
        (λ t.
        bound_clause t
        ≡ compiled_clause walk.old.names walk.old.number
        (order_clause place stable (named_order_keys inner.now))) }
    ensures walk { OnOk result
        (walk.new
        ≡ behind_clause walk.old item 0 (order_clause place stable (named_order_keys inner.now))) }
{
    let keys = order_keys(alloc, walk, item, inner)?;
    Ok(Clause::Order {
        place,
        stable,
        keys,
    })
}

#[cycle(walk)]
fn order_keys<'q>(
    alloc: Global,
    walk: &mut Walk<'q>,
    item: bool,
    parts: &'q [OrderKey<NamedExpr>],
) -> Result<Vec<OrderKey<BoundExpr>>, NoMemory>
    ensures tree { IfOk result
        (λ t.
        bound_order_keys t.items
        ≡ compiled_order_keys walk.old.names walk.old.number (named_order_keys parts.now)) }
    ensures walk { OnOk result
        (walk.new ≡ behind_order_keys walk.old item (named_order_keys parts.now)) }
{
    let mut out = Vec::new(alloc);
    for part in parts {
        out = pushed(out, order_key(alloc, walk, item, part))?;
    }
    Ok(out)
}

#[cycle(walk)]
#[tactic(auto, using(query_tree::proofs::Layers::layers, crate::proofs::Passing::passings))]
fn order_key<'q>(
    alloc: Global,
    walk: &mut Walk<'q>,
    item: bool,
    part: &'q OrderKey<NamedExpr>,
) -> Result<OrderKey<BoundExpr>, NoMemory>
    ensures tree { IfOk result
        (λ t.
        bound_order_key t
        ≡ compiled_order_key walk.old.names walk.old.number (named_order_key part.now)) }
    ensures walk { OnOk result
        (walk.new ≡ behind_order_key walk.old item (named_order_key part.now)) }
{
    let value = expr(alloc, walk, item, &part.value)?;
    Ok(OrderKey {
        value,
        descending: part.descending,
        empty_greatest: part.empty_greatest,
    })
}

// A clause that numbers the tuples.
#[tactic(auto, using(query_tree::proofs::Layers::layers, crate::proofs::Flwors::entering))]
fn count<'q>(
    walk: &mut Walk<'q>,
    place: u32,
    variable: &'q Placed<Str>,
) -> Result<BoundClause, NoMemory>
    ensures tree { IfOk result
        (λ t.
        bound_clause t
        ≡ compiled_clause walk.old.names walk.old.number (count_clause place variable.now)) }
    ensures walk { OnOk result
        (walk.new ≡ behind_clause walk.old true 0 (count_clause place variable.now)) }
{
    let number = walk.open(&variable.name)?;
    Ok(Clause::Count {
        place,
        variable: local(variable.place, number),
    })
}
