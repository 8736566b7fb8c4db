//! Laws of the definitions, each the contract of a function that does nothing. Each holds of all
//! values: a call brings it to a proof, and does nothing when it runs.

ghost use Rattle.driver_files.specs.Laws.{FilesAreClosed, NoneIsLeftOpen};

/// Whoever opens the files of a driver and closes all that were given leaves as many closed as
/// opened. No count falls, and the faults are those of the files. S is the type of the files.
pub fn files_are_closed<S>()
    ensures { FilesAreClosed S }
{}

/// Where no file is given, as many were closed as opened.
pub fn none_is_left_open<S>()
    ensures { NoneIsLeftOpen S }
{}
