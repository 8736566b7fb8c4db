//! Compiling a whole query.

ghost use Rattle.std.specs.Prelude.{◌≡◌, IfOk, IfErr, OnOk};
ghost use Rattle.query_tree.specs.Compiled.{bound_trees};
ghost use Rattle.static_rules.specs.Compiling.{compiled_query, query_width};
ghost use Rattle.static_rules.specs.Declarations.{started};
ghost use Rattle.query_tree.specs.NamedViews.{named_query};
ghost use Rattle.static_rules.specs.Outcomes.{CompilesTo, IsCompileFault};
ghost use Rattle.static_rules.specs.Refusals.{refusal};

use crate::declarations::{functions, variables};
use crate::exprs::expr;
use crate::gather::{accepted, both};
use crate::laws::accepted_queries_pass;
use crate::walk::Walk;
use item_tree::{Code, NoMemory};
use query_tree::{BoundModule, Compiled, Module, Query};
use std::alloc::Global;

/// Why a query is not compiled.
#[derive(Debug, Drop)]
pub enum CompileFault {
    /// A rule is broken at this byte, and none before it. The code is that of the rule; of those
    /// that are broken there it is the first.
    Refused { code: Code, place: u32 },
    /// Memory ran out, or there are more declarations, or more bindings in one, than a number of 32
    /// bits tells.
    NoMemory,
}

/// The compiled tree of a query that breaks no rule: each name is replaced by what it names.
///
/// # Errors
///
/// `Refused` exactly where a rule is broken, with the least place at which one is, and `NoMemory`.
pub fn compile(alloc: Global, query: &Query) -> Result<Compiled, CompileFault>
    ensures compiled { IfOk result (λ c. CompilesTo (named_query query.now) c) }
    ensures refused { IfErr result (λ f. IsCompileFault (named_query query.now) f) }
{
    let mut walk = Walk::new(alloc);
    let made = module(alloc, &mut walk, query);
    let (tree, width) = accepted(made, walk.first())?;
    accepted_queries_pass();
    Ok(Compiled::new(tree, width))
}

// The compiled tree, and how many slots its frames need.
fn module<'q>(
    alloc: Global,
    walk: &mut Walk<'q>,
    query: &'q Query,
) -> Result<(BoundModule, usize), NoMemory>
    requires { walk.old ≡ started }
    ensures tree { IfOk result (λ m. bound_trees m.0 ≡ compiled_query (named_query query.now)) }
    ensures width { IfOk result (λ m. m.1 ≡ query_width (named_query query.now)) }
    ensures first { OnOk result (walk.new.first ≡ refusal (named_query query.now)) }
{
    let variables = variables(alloc, walk, &query.variables);
    let functions = functions(alloc, walk, &query.functions);
    let body = expr(alloc, walk, false, &query.body);
    let ((variables, functions), body) = both(both(variables, functions), body)?;
    let tree = Module {
        variables: variables.0,
        functions: functions.0,
        body,
    };
    let width = variables.1.max(functions.1.max(walk.width()));
    Ok((tree, width))
}
