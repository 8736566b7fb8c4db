//! How a call ends, and why it stops before it has an answer.

ghost use Rattle.std.specs.Prelude.{◌≡◌};
ghost use Rattle.rumble_run.specs.inside.Seen.{status_of_stop};

/// How a call of the program ended.
#[derive(Clone, Copy, Debug, PartialEq, Eq)]
pub enum Status {
    /// The items of the result were written.
    Done,
    /// The query raised an error.
    Raised,
    /// The query was refused before it ran.
    Refused,
    /// The words are no command line.
    Usage,
    /// An input could not be read.
    ReadFault,
    /// The output could not be written.
    WriteFault,
    NoMemory,
    /// There is no query of this name.
    NoQuery,
}

/// Why a call stopped before it had an answer.
#[derive(Clone, Copy, Debug, PartialEq, Eq)]
pub(crate) enum Stop {
    ReadFault,
    NoMemory,
}

/// The status that a stop is answered by.
pub(crate) fn status_of_stop(stop: Stop) -> Status
    ensures { result ≡ status_of_stop stop }
{
    match stop {
        Stop::ReadFault => Status::ReadFault,
        Stop::NoMemory => Status::NoMemory,
    }
}
