//! The declarations of a query. In each the bindings have the numbers from 0.

ghost use Rattle.std.specs.Prelude.{◌≡◌, ◌≤◌, ◌++◌, ◌||◌, [], length, map, IfOk, OnOk};
ghost use Rattle.static_rules.specs.Views.{has_callee};
ghost use Rattle.static_rules.specs.Mentions as m;
ghost use Rattle.static_rules.specs.Rules.{is_lines, is_built_in};
ghost use Rattle.static_rules.specs.Compiling.{compiled_variables, compiled_functions, compiled_params, variable_width, function_width, greatest};
ghost use Rattle.query_tree.specs.NamedViews.{named_variable, named_function};
ghost use Rattle.query_tree.specs.BoundViews.{bound_variable, bound_function};
ghost use Rattle.static_rules.specs.Declarations.{compiled_variable, compiled_function, compiled_param, with_functions, seeing_functions, earlier_functions, behind_variable, behind_variables, behind_function, behind_functions, behind_param, behind_params};

use crate::Rule;
use crate::calls::is_lines;
use crate::exprs::expr;
use crate::gather::{both, pushed};
use crate::leaves::{any_type, local};
use crate::walk::Walk;
use item_tree::{FnId, NoMemory, Str};
use query_tree::{Function, Param, Placed, Slot, Target, TypeName, Variable};
use seq_types::SeqType;
use std::alloc::Global;

type NamedVariable = Variable<Str, Str, TypeName>;

type NamedFunction = Function<Str, Str, TypeName>;

type BoundVariable = Variable<Slot, Target, SeqType>;

type BoundFunction = Function<Slot, Target, SeqType>;

/// The compiled trees of the declared variables, and how many bindings one has at most.
pub fn variables<'q>(
    alloc: Global,
    walk: &mut Walk<'q>,
    parts: &'q [NamedVariable],
) -> Result<(Vec<BoundVariable>, usize), NoMemory>
    requires { walk.old.names.functions ≡ [] }
    ensures tree { IfOk result
        (λ r.
        map bound_variable r.0.items
        ≡ compiled_variables walk.old.names.variables 0 (map named_variable parts.now)) }
    ensures width { IfOk result
        (λ r. r.1 ≡ greatest (map variable_width (map named_variable parts.now))) }
    ensures walk { OnOk result
        (walk.new ≡ behind_variables walk.old 0 (map named_variable parts.now)) }
{
    let mut width = 0usize;
    let mut out = Vec::new(alloc);
    for (number, part) in parts.iter().enumerate() {
        out = pushed(out, variable(alloc, walk, number, part))?;
        width = width.max(walk.width());
    }
    walk.begin();
    Ok((out, width))
}

// A declared variable with this number.
fn variable<'q>(
    alloc: Global,
    walk: &mut Walk<'q>,
    number: usize,
    part: &'q NamedVariable,
) -> Result<BoundVariable, NoMemory>
    ensures tree { IfOk result
        (λ x.
        bound_variable x ≡ compiled_variable walk.old.names number (named_variable part.now)) }
    ensures walk { OnOk result
        (walk.new ≡ behind_variable walk.old number (named_variable part.now)) }
{
    let place = part.variable.place;
    walk.begin();
    let twice = walk.is_bound(&part.variable.name);
    walk.test(twice, Rule::VariableTwice, place);
    let of = any_type(walk, &part.of)?;
    let value = expr(alloc, walk, false, &part.value);
    let slot = walk.declare(&part.variable.name, number);
    let (value, name) = both(value, slot)?;
    Ok(Variable {
        variable: Placed { place, name },
        of,
        value,
    })
}

/// The compiled trees of the declared functions, and how many bindings one has at most. From here
/// on these functions are seen.
pub fn functions<'q>(
    alloc: Global,
    walk: &mut Walk<'q>,
    parts: &'q [NamedFunction],
) -> Result<(Vec<BoundFunction>, usize), NoMemory>
    ensures tree { IfOk result
        (λ r.
        map bound_function r.0.items
        ≡ compiled_functions
        (with_functions walk.old.names (map m.callee_of (map named_function parts.now))) 0
        (map named_function parts.now)) }
    ensures width { IfOk result
        (λ r. r.1 ≡ greatest (map function_width (map named_function parts.now))) }
    ensures walk { OnOk result
        (walk.new ≡ behind_functions walk.old (map named_function parts.now)) }
{
    see_all(walk, parts)?;
    let mut width = 0usize;
    let mut out = Vec::new(alloc);
    for (number, part) in parts.iter().enumerate() {
        out = pushed(out, function(alloc, walk, number, part))?;
        width = width.max(walk.width());
    }
    walk.begin();
    Ok((out, width))
}

// From here on these functions are seen, and no others.
fn see_all<'q>(walk: &mut Walk<'q>, parts: &'q [NamedFunction]) -> Result<(), NoMemory>
    ensures { OnOk result
        (walk.new ≡ seeing_functions walk.old (map m.callee_of (map named_function parts.now))) }
{
    walk.see_none();
    for part in parts {
        walk.see(&part.function.name, part.params.len())?;
    }
    Ok(())
}

// A declared function with this number.
fn function<'q>(
    alloc: Global,
    walk: &mut Walk<'q>,
    number: usize,
    part: &'q NamedFunction,
) -> Result<BoundFunction, NoMemory>
    requires { number ≤ length walk.old.names.functions }
    ensures tree { IfOk result
        (λ f.
        bound_function f ≡ compiled_function walk.old.names number (named_function part.now)) }
    ensures walk { OnOk result
        (walk.new ≡ behind_function walk.old number (named_function part.now)) }
{
    let place = part.function.place;
    let Ok(own) = u32::try_from(number) else {
        return Err(NoMemory);
    };
    let depth = walk.depth();
    walk.begin();
    let twice = is_taken(walk, number, &part.function.name, part.params.len());
    walk.test(twice, Rule::FunctionTwice, place);
    let params = params(alloc, walk, depth, &part.params)?;
    let of = any_type(walk, &part.of)?;
    let body = expr(alloc, walk, false, &part.body)?;
    walk.close(depth);
    Ok(Function {
        function: Placed {
            place,
            name: Target::Own(own),
        },
        params,
        of,
        body,
    })
}

// Whether a function with this number may not have this name and take so many arguments.
fn is_taken(walk: &Walk, number: usize, name: &Str, arity: usize) -> bool
    requires { number ≤ length walk.now.names.functions }
    ensures { result
        ≡
        (is_lines name.now || is_built_in name.now arity
        || has_callee (earlier_functions walk.now.names number) name.now arity) }
{
    let built = FnId::find(name.as_str(), arity).is_some();
    is_lines(name) || built || walk.is_declared(number, name, arity)
}

// The parameters of a function before which so many variables were bound.
fn params<'q>(
    alloc: Global,
    walk: &mut Walk<'q>,
    base: usize,
    parts: &'q [Param<Str, TypeName>],
) -> Result<Vec<Param<Slot, SeqType>>, NoMemory>
    requires { base ≤ length walk.old.names.variables }
    ensures tree { IfOk result (λ qs. qs.items ≡ compiled_params walk.old.number parts.now) }
    ensures walk { OnOk result (walk.new ≡ behind_params walk.old base parts.now) }
{
    let mut out = Vec::new(alloc);
    for part in parts {
        out.push(param(walk, base, part)?)?;
    }
    Ok(out)
}

fn param<'q>(
    walk: &mut Walk<'q>,
    base: usize,
    part: &'q Param<Str, TypeName>,
) -> Result<Param<Slot, SeqType>, NoMemory>
    requires { base ≤ length walk.old.names.variables }
    ensures tree { IfOk result (λ q. q ≡ compiled_param walk.old.number part.now) }
    ensures walk { OnOk result (walk.new ≡ behind_param walk.old base part.now) }
{
    let place = part.variable.place;
    let twice = walk.is_bound_since(&part.variable.name, base);
    walk.test(twice, Rule::ParameterTwice, place);
    let of = any_type(walk, &part.of)?;
    let number = walk.open(&part.variable.name)?;
    Ok(Param {
        variable: local(place, number),
        of,
    })
}
