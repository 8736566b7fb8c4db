//! How a run ends, with what is to be written.

use crate::status::{Status, Stop};
use item_tree::NoMemory;
use std::alloc::{AllocError, AllocFailed};

/// What a command line comes to: a status, with the bytes for the output and the text for the
/// errors.
#[derive(Debug, Drop)]
pub(crate) struct Ending {
    pub status: Status,
    pub out: Vec<u8>,
    pub err: String,
}

impl From<AllocError> for Stop {
    ghost use Rattle.std.specs.Prelude.{◌≡◌};
    ghost use Rattle.rumble_run.specs.declared.status.Stop.TheVariants as stop;

    ghost from_gives = { λ _ e. e ≡ stop.NoMemory };

    fn from(_e: AllocError) -> Stop {
        Stop::NoMemory
    }
}

impl<T: Drop> From<AllocFailed<T>> for Stop {
    ghost use Rattle.std.specs.Prelude.{◌≡◌};
    ghost use Rattle.rumble_run.specs.declared.status.Stop.TheVariants as stop;

    ghost from_gives = { λ _ e. e ≡ stop.NoMemory };

    fn from(_e: AllocFailed<T>) -> Stop {
        Stop::NoMemory
    }
}

impl From<NoMemory> for Stop {
    ghost use Rattle.std.specs.Prelude.{◌≡◌};
    ghost use Rattle.rumble_run.specs.declared.status.Stop.TheVariants as stop;

    ghost from_gives = { λ _ e. e ≡ stop.NoMemory };

    fn from(_e: NoMemory) -> Stop {
        Stop::NoMemory
    }
}
