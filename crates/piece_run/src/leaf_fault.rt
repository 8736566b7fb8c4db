//! Why a leaf that runs over pieces has no value.

use item_tree::{Fault, NoMemory};
use line_pieces::PieceFault;
use outside::Failed;
use piece_board::JobFault;
use query_meaning::EvalFault;

/// Why a leaf that runs over pieces has no value.
#[derive(Clone, Copy, Debug, PartialEq, Eq)]
pub enum LeafFault {
    /// The query raises this error.
    Raised(Fault),
    /// A call on a file failed.
    ReadFault,
    /// Memory ran out.
    NoMemory,
}

impl From<EvalFault> for LeafFault {
    ghost use Rattle.std.specs.Prelude.{◌≡◌};
    ghost use Rattle.piece_run.specs.Kept.{of_evaluation};

    ghost from_gives = { λ f e. e ≡ of_evaluation f };

    fn from(fault: EvalFault) -> LeafFault {
        match fault {
            EvalFault::Raised(fault) => LeafFault::Raised(fault),
            EvalFault::NoMemory => LeafFault::NoMemory,
        }
    }
}

impl From<JobFault<Failed>> for LeafFault {
    ghost use Rattle.std.specs.Prelude.{◌≡◌};
    ghost use Rattle.piece_run.specs.Kept.{of_job};

    ghost from_gives = { λ f e. e ≡ of_job f };

    fn from(fault: JobFault<Failed>) -> LeafFault {
        match fault {
            JobFault::Job(_) => LeafFault::ReadFault,
            JobFault::NoMemory => LeafFault::NoMemory,
        }
    }
}

impl From<NoMemory> for LeafFault {
    ghost use Rattle.std.specs.Prelude.{◌≡◌};
    ghost use Rattle.piece_run.specs.declared.leaf_fault.LeafFault.TheVariants as leaf;

    ghost from_gives = { λ _ e. e ≡ leaf.NoMemory };

    fn from(_e: NoMemory) -> LeafFault {
        LeafFault::NoMemory
    }
}

impl From<PieceFault> for LeafFault {
    ghost use Rattle.std.specs.Prelude.{◌≡◌};
    ghost use Rattle.piece_run.specs.Kept.{of_opening};

    ghost from_gives = { λ f e. e ≡ of_opening f };

    fn from(fault: PieceFault) -> LeafFault {
        match fault {
            PieceFault::ReadFault => LeafFault::ReadFault,
            PieceFault::NoMemory => LeafFault::NoMemory,
        }
    }
}
