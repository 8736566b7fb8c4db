//! Laws of the definitions, each the contract of a function that does nothing. Each holds of all
//! values: a call brings it to a proof, and does nothing when it runs.

ghost use Rattle.item_reader.specs.Laws.{InputsAreExact};

/// The items of an input, or the code of its first line at fault, are those that its lines read as
/// one by one, and only those: an input reads as one thing.
pub fn inputs_are_exact()
    ensures { InputsAreExact }
{}
