//! Laws of the definitions, each the contract of a function that does nothing. Each holds of all
//! values: a call brings it to a proof, and does nothing when it runs.

ghost use Rattle.std.specs.Prelude.{List, ℕ};
ghost use Rattle.outside.specs.World.{World};
ghost use Rattle.query_files.specs.Laws.{HasOneReading, FindsOne};

/// Every file that is read alone comes to something, and to nothing else.
pub fn one_reading()
    ensures { (bytes : List ℕ) → HasOneReading bytes }
{}

/// Of the query of one name something is found in a world, and nothing else.
pub fn finds_one()
    ensures { (world : World) → (name : List ℕ) → FindsOne world name }
{}
