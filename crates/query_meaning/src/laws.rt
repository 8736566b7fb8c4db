//! Laws of the meaning of queries. Each holds of all values: a call brings it to a proof, and does
//! nothing when it runs.

ghost use Rattle.query_meaning.specs.Laws.{InputsReadAsOne, ClausesInOrder, FlworsFallIntoPieces, EvalFindsSources};

/// What the inputs of some names read as over a world is one library, and only one.
pub fn inputs_read_as_one()
    ensures { InputsReadAsOne }
{}

/// What the clauses of a FLWOR give that look at one tuple at a time: of a list behind another, what
/// they give of the one and then of the other; a fault is that of the first tuple that faults.
pub fn clauses_in_order()
    ensures { ClausesInOrder }
{}

/// What a FLWOR that neither groups nor orders nor counts gives of a list of tuples behind another:
/// what it gives of the one and then of the other. The fault in the earlier clause is raised, and
/// in one clause that of the first list; a fault of the second list has its tuple counted on.
pub fn flwors_fall_into_pieces()
    ensures { FlworsFallIntoPieces }
{}

/// An expression comes to the same wherever it finds the same: the variables that it reads, the
/// item of `$$`, and at a call of a declared function all declared variables.
pub fn eval_finds_sources()
    ensures { EvalFindsSources }
{}
