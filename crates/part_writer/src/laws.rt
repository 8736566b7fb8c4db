//! A law of the definitions. It holds of all texts: a call brings it to a proof, and does nothing
//! when it runs.

ghost use Rattle.part_writer.specs.Laws.{PartsAreWhole};

/// The parts of a text of whole lines in order, put together, are the text.
pub fn parts_are_whole()
    ensures { PartsAreWhole }
{}
