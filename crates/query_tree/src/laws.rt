//! Laws of the definitions that contracts cite. Each holds of all values: a call brings it to a
//! proof, and does nothing when it runs.

ghost use Rattle.query_tree.specs.Laws.{CallsStandInOrder, NestingBoundsSpines, NestingCountsForms, SlotsAreBound};

/// The nesting of a tree counts the forms that hold one another, and no operators.
pub fn nesting_counts_forms()
    ensures { NestingCountsForms }
{}

/// The spine of a tree in which no operand of a comma is itself a comma is at most twice as long as
/// the tree is nested, and one more.
pub fn nesting_bounds_spines()
    ensures { NestingBoundsSpines }
{}

/// The calls of a tree are the call that it is, and behind it those of the trees that it holds, in
/// order.
pub fn calls_stand_in_order()
    ensures { CallsStandInOrder }
{}

/// The scope behind the clauses of a FLWOR is the scope before them with their slots bound, in
/// order.
pub fn slots_are_bound()
    ensures { SlotsAreBound }
{}
