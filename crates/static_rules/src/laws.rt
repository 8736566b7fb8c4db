//! Laws of the definitions that contracts cite. Each holds of all values: a call brings it to a
//! proof, and does nothing when it runs.

ghost use Rattle.static_rules.specs.Compiling.{AcceptedQueriesPass};
ghost use Rattle.static_rules.specs.Laws.{CompilingKeepsNesting, CompilingKeepsSpines, NumbersInTextOrder};
ghost use Rattle.static_rules.specs.Refusals.{RefusalsAreExact};

/// The refusal of a query is the earliest of all that is broken in it, and there is none where no
/// rule is broken.
pub fn refusals_are_exact()
    ensures { RefusalsAreExact }
{}

/// A query that breaks no rule compiles to a tree that passes the test of compiled queries.
pub fn accepted_queries_pass()
    ensures { AcceptedQueriesPass }
{}

/// Each declaration of a compiled tree, and its body, is nested as that of the query.
pub fn compiling_keeps_nesting()
    ensures { CompilingKeepsNesting }
{}

/// Each declaration of a compiled tree, and its body, has a spine as long as that of the query, and
/// operands of commas on it that are commas only where the query has them.
pub fn compiling_keeps_spines()
    ensures { CompilingKeepsSpines }
{}

/// The bindings of each declaration of a compiled tree, and of its body, have the numbers 0, 1, 2
/// and so on in text order.
pub fn numbers_in_text_order()
    ensures { NumbersInTextOrder }
{}
