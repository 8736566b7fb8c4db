//! Laws of the definitions, each the contract of a function that does nothing.
ghost use Rattle.fn_numbers.specs.Laws.{ExtremesAreFirst};

/// The value of `min` is the first of the least items, and that of `max` the first of the greatest.
pub fn extremes_are_first()
    ensures { ExtremesAreFirst }
{}
