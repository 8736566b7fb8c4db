//! The statuses that the program exits with.

ghost use Rattle.std.specs.Prelude.{◌≡◌};
ghost use Rattle.std.specs.Process.{exit_status};
ghost use Rattle.rumble_main.specs.Exits.{number_of};

use rumble_run::Status;
use std::process::ExitCode;

/// What the program ends with, by how the run ended.
pub(crate) fn exit_code(status: Status) -> ExitCode
    ensures { exit_status result ≡ number_of status }
{
    let number = match status {
        Status::Done => 0,
        Status::Raised => 1,
        Status::Refused => 2,
        Status::Usage => 3,
        Status::ReadFault => 4,
        Status::WriteFault => 5,
        Status::NoMemory => 6,
        Status::NoQuery => 7,
    };
    ExitCode::from(number)
}
