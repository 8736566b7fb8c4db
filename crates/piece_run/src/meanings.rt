//! Laws of stages that read an input, in the words of the meaning.

ghost use Rattle.piece_run.specs.Gathering.{PiecesAreNumbered};
ghost use Rattle.piece_run.specs.Meanings.{DrivenStagesFall, DrivenStagesGiveValues, FramesAreTuples, ResultsMean};

use piece_outcomes::Kept;

/// Lines that are numbered piece by piece, each from how many stand before it, are numbered through
/// the input.
pub fn pieces_are_numbered()
    ensures { PiecesAreNumbered }
{}

/// The stage of a `for` over the lines of an input, with narrow clauses and an end after it, falls
/// into pieces.
pub fn driven_stages_fall()
    ensures { DrivenStagesFall }
{}

/// What is finished of what a stage makes of the lines of an input is what the `for` over them
/// means, with the clauses after it and `return`, `count`, `group by` or `order by`, also where the
/// source of the `for` alone finds the input. What was gathered goes on into the clauses after it.
pub fn driven_stages_give_values()
    ensures { DrivenStagesGiveValues }
{}

/// A FLWOR means the same in any frame of the same length: its clauses see those of their tuples.
pub fn frames_are_tuples()
    ensures { FramesAreTuples }
{}

/// What was gathered of pieces is what is meant, where what the stage makes of the whole is.
pub fn results_mean<W: Kept, C>()
    ensures { ResultsMean W.stands C }
{}
