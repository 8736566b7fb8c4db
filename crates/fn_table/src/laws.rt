//! Laws of the definitions, each the contract of a function that does nothing.
ghost use Rattle.fn_table.specs.Laws.{DaysAreAdded};

/// The date that is so many days later by single steps is the one whose day number says so.
pub fn days_are_added()
    ensures { DaysAreAdded }
{}
