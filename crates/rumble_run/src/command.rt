//! What a command line asks for.

ghost use Rattle.std.specs.Prelude.{◌≡◌, IfOk, IfSome};
ghost use Rattle.run_words.specs.Asked.{IsWithin};
ghost use Rattle.rumble_run.specs.Commands.{command_for, command_of, CommandWithin};

use item_tree::{NoMemory, Str};
use run_words::{Task, WordFault, read_words};
use std::alloc::Global;

/// How a query is run.
#[derive(Clone, Copy, Debug, PartialEq, Eq)]
pub(crate) struct Running {
    /// Whether the number of the items and that of their bytes are told.
    pub stats: bool,
    /// How many workers may share the work, from 1 to 64.
    pub workers: u32,
    /// The wanted size of a piece of an input, from 1 to 2^30 bytes.
    pub size: u64,
    /// Whether everything is evaluated in one place, without pieces.
    pub local: bool,
}

/// What is done with a query.
#[derive(Clone, Copy, Debug, PartialEq, Eq)]
pub(crate) enum Action {
    /// It is run so, and the items of its value are printed.
    Run(Running),
    /// It is only told whether it is accepted.
    Check,
    /// It is told how its parts are evaluated.
    Explain,
}

/// What a command line asks for.
#[derive(Debug, Drop)]
pub(crate) enum Command {
    /// Something is done with the query of this name.
    Query {
        action: Action,
        name: Str,
    },
    /// The query of the trial is run so, over that many lines that are made from this number.
    Trial {
        number: u32,
        lines: u32,
        running: Running,
    },
}

fn command_for(task: Task) -> Option<Command>
    requires { IsWithin task }
    ensures is { result ≡ command_for task }
    ensures within { IfSome result CommandWithin }
{
    match task {
        Task::Run {
            query,
            workers,
            size,
            local,
            stats,
        } => Some(Command::Query {
            action: Action::Run(Running {
                stats,
                workers,
                size,
                local,
            }),
            name: query,
        }),
        Task::Check { query } => Some(Command::Query {
            action: Action::Check,
            name: query,
        }),
        Task::Explain { query } => Some(Command::Query {
            action: Action::Explain,
            name: query,
        }),
        Task::Trial {
            number,
            lines,
            workers,
            size,
        } => Some(Command::Trial {
            number,
            lines,
            running: Running {
                stats: false,
                workers,
                size,
                local: false,
            },
        }),
    }
}

/// What the words ask for.
pub(crate) fn command_of(alloc: Global, words: &[Str]) -> Result<Option<Command>, NoMemory>
    ensures is { IfOk result (λ command. command ≡ command_of words.now) }
    ensures within { IfOk result (λ command. IfSome command CommandWithin) }
{
    match read_words(alloc, words) {
        Ok(task) => Ok(command_for(task)),
        Err(WordFault::Usage) => Ok(None),
        Err(WordFault::NoMemory) => Err(NoMemory),
    }
}
