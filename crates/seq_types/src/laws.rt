//! Laws of the definitions that contracts cite. Each holds of all values: a call brings it to a
//! proof, and does nothing when it runs.

ghost use Rattle.seq_types.specs.Laws.{TypesAreFound};

/// Each type of items is found by its name, and by no other; parentheses may follow four names
/// alone.
pub fn types_are_found()
    ensures { TypesAreFound }
{}
