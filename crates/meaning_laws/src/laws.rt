//! Laws of the meaning of queries. Each holds of all values: a call brings it to a proof, and does
//! nothing when it runs.

ghost use Rattle.query_tree.specs.Compiled.{BoundTrees};
ghost use Rattle.meaning_laws.specs.Accepted.{AcceptedMeetsNoFiller};
ghost use Rattle.meaning_laws.specs.Beside.{ExpressionsStand, NamesBesideSuffice};
ghost use Rattle.meaning_laws.specs.Laws.{EvalFindsCalls, EvalReadsNames, LeavesReadNames, FlworsFindCalls, QueriesReadNames, LibrariesAgree};
ghost use Rattle.meaning_laws.specs.Once.{DriversStandOnce};
ghost use Rattle.meaning_laws.specs.Planned.{PlansReadBeside};
ghost use Rattle.meaning_laws.specs.Widths.{WiderFramesMeanTheSame};

/// An expression comes to the same in two environments and programs in which all that it reads is
/// the same, and all that its calls find: the inputs that they name, and at a call of a declared
/// function all functions and what their bodies name. The frames may be of different widths, where
/// each slot that is read is in both or in neither.
pub fn eval_finds_calls()
    ensures { EvalFindsCalls }
{}

/// An expression comes to the same over two libraries that agree on the names that it calls, and on
/// those that the bodies of functions call.
pub fn eval_reads_names()
    ensures { EvalReadsNames }
{}

/// An expression that calls no declared function comes to the same over two libraries that agree on
/// the names that it calls. All others may be missing.
pub fn leaves_read_names()
    ensures { LeavesReadNames }
{}

/// What the clauses of a FLWOR come to, from any one on, and the tuples that each of them takes in,
/// are the same in two programs in which the calls in them find the same.
pub fn flwors_find_calls()
    ensures { FlworsFindCalls }
{}

/// A query comes to the same over two libraries that agree on the names of its inputs. All others
/// may be missing.
pub fn queries_read_names()
    ensures { QueriesReadNames }
{}

/// When the calls of an expression find the same, and what libraries hold from which names are
/// missing, or that are read for some names.
pub fn libraries_agree()
    ensures { LibrariesAgree }
{}

/// The body of a query and the expressions of its declarations are among its expressions, with all
/// that stand inside them.
pub fn expressions_stand()
    ensures { (m : BoundTrees) → ExpressionsStand m }
{}

/// Leaving out the inputs that only drivers of a plan read changes nothing but at the drivers: an
/// expression of the query in which no call is a driver comes to the same over libraries that agree
/// on the names beside the drivers, as do the declared variables and parts of a FLWOR.
pub fn names_beside_suffice()
    ensures { NamesBesideSuffice }
{}

/// Where a query has as many calls that drivers of its plan are as it has drivers, its declarations
/// and the handlers in its spine stand beside the drivers, and so does all in its leaves but their
/// drivers.
pub fn drivers_stand_once()
    ensures { DriversStandOnce }
{
    mode_planner::laws::expressions_stand_once();
    mode_planner::laws::drivers_stand_first();
}

/// A run by a plan in which each driver stands once needs of its library the names beside the
/// drivers: over libraries that agree on these, the declared variables have the same values, and
/// all calls find the same in the leaves without a driver, in the handlers of the spine, and in the
/// clauses of a leaf before and after its driver.
pub fn plans_read_beside()
    ensures { PlansReadBeside }
{
    mode_planner::laws::expressions_stand_once();
    mode_planner::laws::drivers_stand_first();
}

/// Frames that are wide enough for a compiled query do equally well, however much wider they are:
/// it comes to the same, and so do its declared variables, and each expression that is bound over
/// them.
pub fn wider_frames_mean_the_same()
    ensures { WiderFramesMeanTheSame }
{}

/// What is bound in a scope comes to the same wherever all that may be used there is the same. So a
/// query that is accepted never meets what its meaning says of a slot that nothing has bound, of
/// `$$` where it stands for nothing, of a variable or a function that is not there, and of a cast
/// to a type that no cast may have.
pub fn accepted_meets_no_filler()
    ensures { AcceptedMeetsNoFiller }
{}
