//! The clauses of a FLWOR as stages: what clauses that look at one tuple at a time mean, and `return`,
//! `count`, `group by` or `order by` behind them, is what a stage of steps makes of the tuples; and a
//! `for` over lines is a driver.
//!
//! Each law is the contract of a function that does nothing. With the laws of `stage_laws` it follows
//! that clauses may be evaluated on pieces of their tuples, or one tuple at a time. `B` is what comes
//! out of a stage, `C` its result, `K` the keys of an order, and `L` a line.
#![tactic(auto)]

ghost use Rattle.clause_stages.specs.Came.{RunsTell};
ghost use Rattle.clause_stages.specs.Drivers.{DriversAreStages};
ghost use Rattle.clause_stages.specs.InputLines.{InputsAreLines};
ghost use Rattle.clause_stages.specs.Results.{PiecesGiveValues};
ghost use Rattle.clause_stages.specs.Laws.{ClausesAreStages, EndsAreSteps, OrdersAreSteps, FlworsAreStages, ClausesTakeIn};

/// What narrow clauses mean, and any end behind them, is what the stage of these clauses makes of the
/// tuples, finished as the end is; and the stage falls into pieces where the step of the end does.
pub fn clauses_are_stages<B, C, K>()
    ensures { ClausesAreStages B C K }
{}

/// `return`, `count`, `group by`, and tuples that are only kept, are steps behind narrow clauses.
pub fn ends_are_steps<K>()
    ensures { EndsAreSteps K }
{}

/// `order by` is an order step, which falls into pieces.
pub fn orders_are_steps()
    ensures { OrdersAreSteps }
{}

/// What a FLWOR means goes from one gathered clause to the next, and between them in stages.
pub fn flwors_are_stages<K>()
    ensures { FlworsAreStages K }
{}

/// How many tuples each clause takes in is what the stage says, up to the clause of the first fault.
pub fn clauses_take_in<B, K>()
    ensures { ClausesTakeIn B K }
{}

/// A `for` over one tuple, whose source gives the items of lines, is a driver: the lines are read in
/// the step before it. So is the source alone.
pub fn drivers_are_stages<L, B, C, K>()
    ensures { DriversAreStages L B C K }
{}

/// Where what is known of a run of narrow clauses tells of tuples in the words of stages, it does in
/// those of the meaning: all that comes out, or the first fault with its clause and tuple, and how
/// many tuples each clause takes in.
pub fn runs_tell()
    ensures { RunsTell }
{}

/// What is gathered of the outcomes of pieces, at limits that are enough, is what narrow clauses with
/// an end behind them mean, or a `for` over lines, or lines alone.
pub fn pieces_give_values<L, B, C, K>()
    ensures { PiecesGiveValues L B C K }
{}

/// What `json-lines` gives of inputs that are there is the items of the lines of their files in order.
pub fn inputs_are_lines()
    ensures { InputsAreLines }
{}
