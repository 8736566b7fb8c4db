//! Laws of the definitions. Each is the contract of a function that does nothing.

ghost use Rattle.std.specs.Prelude.{◌≡◌, ◌<◌, ℕ, List};
ghost use Rattle.tuple_rows.specs.Tuples.{Table};
ghost use Rattle.tuple_rows.specs.Cuts.{CutsAreWhole};

/// There is one way to cut a table, and the tuples of the parts in order are the table's.
pub fn cuts_are_whole()
    ensures { CutsAreWhole }
{}
