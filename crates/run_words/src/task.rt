//! What a command line may ask for.

use item_tree::{NoMemory, Str};

/// What a command line asks for.
#[derive(Debug, Drop)]
pub enum Task {
    /// A query is run, and the items of its value are printed.
    Run {
        /// The name of the query's file.
        query: Str,
        /// How many workers may share the work, from 1 to 64.
        workers: u32,
        /// The wanted size of a piece of an input, from 1 to 2^30 bytes.
        size: u64,
        /// Whether everything is evaluated in one place, without pieces.
        local: bool,
        /// Whether the numbers of items and bytes are told once the output is written.
        stats: bool,
    },
    /// A query is only told accepted or refused.
    Check {
        /// The name of the query's file.
        query: Str,
    },
    /// It is told how a query would be run.
    Explain {
        /// The name of the query's file.
        query: Str,
    },
    /// A fixed query is run over lines that are made.
    Trial {
        /// Where the random numbers of the lines start, below 2^31.
        number: u32,
        /// How many lines are made, at most 1,000,000.
        lines: u32,
        /// As for a run.
        workers: u32,
        /// As for a run.
        size: u64,
    },
}

/// What a command line asks for whose result is written as numbered parts.
#[derive(Debug, Drop)]
pub struct PartsTask {
    /// The name of the query's file.
    pub query: Str,
    /// How many parts there are, from 1 to 1,000.
    pub count: u32,
    /// As for a run.
    pub workers: u32,
    /// As for a run.
    pub size: u64,
}

/// Why words give no task.
#[derive(Clone, Copy, Debug, PartialEq, Eq)]
pub enum WordFault {
    /// The table of words has no such command line.
    Usage,
    /// Memory ran out.
    NoMemory,
}

impl From<NoMemory> for WordFault {
    ghost use Rattle.std.specs.Prelude.{◌≡◌};
    ghost use Rattle.run_words.specs.declared.task.WordFault.TheVariants as word_fault;

    ghost from_gives = { λ _ e. e ≡ word_fault.NoMemory };

    fn from(_fault: NoMemory) -> WordFault {
        WordFault::NoMemory
    }
}
