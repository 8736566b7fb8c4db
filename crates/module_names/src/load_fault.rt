//! Why a query is not loaded.

ghost use Rattle.std.specs.Prelude.{◌≡◌};

use crate::{Contents, Refused};
use item_tree::NoMemory;
use line_pieces::PieceFault;

/// Why a query is not loaded.
#[derive(Debug, Drop)]
pub enum LoadFault {
    /// It is refused at a place of a file, which holds these bytes; of one that is refused for its
    /// length they are the first ones, which are more than it may have. The place counts after a
    /// byte order mark.
    Refused(Refused, Contents),
    /// There is no file of the query's name.
    NoQuery,
    /// An open, or a call on a file, failed.
    ReadFault,
    /// Memory ran out.
    NoMemory,
}

impl From<NoMemory> for LoadFault {
    ghost use Rattle.module_names.specs.declared.load_fault.LoadFault.TheVariants as load_fault;

    ghost from_gives = { λ _ e. e ≡ load_fault.NoMemory };

    fn from(_e: NoMemory) -> LoadFault {
        LoadFault::NoMemory
    }
}

impl From<PieceFault> for LoadFault {
    ghost use Rattle.module_names.specs.inside.Faults.{fault_of};

    ghost from_gives = { λ f e. e ≡ fault_of f };

    fn from(fault: PieceFault) -> LoadFault {
        match fault {
            PieceFault::ReadFault => LoadFault::ReadFault,
            PieceFault::NoMemory => LoadFault::NoMemory,
        }
    }
}
