//! Laws of the definitions. Each is the contract of a function that does nothing.

ghost use Rattle.group_table.specs.Laws.{GroupsMerge};

/// The groups of one list behind another are those of the first, into which those of the second are
/// put one after the other.
pub fn groups_merge()
    ensures { GroupsMerge }
{}
