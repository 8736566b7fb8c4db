//! Laws of plans. Each holds of all values: a call brings it to a proof, and does nothing when it
//! runs.

ghost use Rattle.std.specs.Prelude.{List};
ghost use Rattle.query_tree.specs.Compiled.{BoundTrees};
ghost use Rattle.mode_planner.specs.Plans.{LeafPlan};
ghost use Rattle.mode_planner.specs.Laws.{ExpressionsStandOnce, DriversStandFirst, StagesCoverSteps, LocalPlansStayLocal, NamesAreRead};

/// Each expression of a body is passed through, is a leaf or stands inside one, or is a handler of
/// a `try` that is passed through or stands inside one: it is so in one way, and of one leaf or
/// handler.
pub fn expressions_stand_once()
    ensures { ExpressionsStandOnce }
{}

/// A FLWOR has a driver exactly where only `let`s stand before a `for` without `allowing empty`
/// that goes directly over a call of `json-lines`.
pub fn drivers_stand_first()
    ensures { DriversStandFirst }
{}

/// The stages of an expression that has a driver cover its steps, from the reading of the lines to
/// the last, each once and in order. A stage ends at each gathered clause and at the last step.
pub fn stages_cover_steps()
    ensures { StagesCoverSteps }
{}

/// In a plan in which all is to be local, no part is partitioned or gathered, and no stage runs.
pub fn local_plans_stay_local()
    ensures { LocalPlansStayLocal }
{}

/// Each input that a query may read is read by a driver or beside the drivers, and beside them just
/// those are read that a call reads which is no driver.
pub fn names_are_read()
    ensures { (leaves : List LeafPlan) → (m : BoundTrees) → NamesAreRead leaves m }
{}
