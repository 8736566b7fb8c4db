//! Laws of the ends of stages.

ghost use Rattle.piece_run.specs.HaveKeys.{GroupsHaveKeys};

/// The tuples that come out of a stage that ends in `group by` have as many keys as it names, each
/// absent or one atomic, as the making of groups asks for.
pub fn groups_have_keys()
    ensures { GroupsHaveKeys }
{}
