//! Laws of the outputs that workers give for the pieces of an input.

ghost use Rattle.piece_run.specs.Inputs.{RunsAreWhole, OrdersAreWhole};

use piece_seats::ItemsKept;

/// What workers give for all pieces of an input can be gathered; and where the files tell their
/// bytes, what is gathered is what the stage makes of the lines of the input.
pub fn runs_are_whole<F, I: ItemsKept>()
    ensures { RunsAreWhole F I.stands }
{}

/// The same for a stage that ends in `order by`: what is gathered is the tuples with their keys,
/// before these are sorted.
pub fn orders_are_whole<F, I: ItemsKept>()
    ensures { OrdersAreWhole F I.stands }
{}
