//! The state of a pool of workers, and its step from event to event.

ghost use Rattle.std.specs.Prelude.{◌≡◌};
ghost use Rattle.board_core.specs.Core.{opening, limit_of, stepped};

use crate::CoreEvent;
use fault_merge::{At, least};

/// How far a pool has come.
#[derive(Clone, Copy, Debug, PartialEq, Eq)]
pub struct CoreState {
    /// The number of pieces.
    pub total: u64,
    /// The limit of a piece that is run whole: all clauses are below it.
    pub full: u32,
    /// The piece that is taken next, from 0, or `total`.
    pub next: u64,
    /// The least fault that was told.
    pub least: Option<At>,
    /// No more pieces are handed out.
    pub stopped: bool,
}

impl CoreState {
    /// The state before the first event.
    pub fn opening(total: u64, full: u32) -> CoreState
        ensures { result ≡ opening total full }
    {
        CoreState {
            total,
            full,
            next: 0,
            least: None,
            stopped: false,
        }
    }

    /// The limit of the piece that is taken next: the least clause told, or `full`.
    pub fn limit(&self) -> u32
        ensures { result ≡ limit_of self.now.full self.now.least }
    {
        match self.least {
            None => self.full,
            Some(at) => at.clause,
        }
    }
}

/// The state after an event, where the core allows it. The next piece may be taken, at the least
/// clause told, unless there is none or the pool was stopped. A clause below `full` may be told of
/// a piece that was taken. A pool may be stopped at any time.
pub fn step(state: &CoreState, event: &CoreEvent) -> Option<CoreState>
    ensures { result ≡ stepped state.now event.now }
{
    match *event {
        CoreEvent::Took { piece, limit } => {
            let now = state.limit();
            if !state.stopped && piece == state.next && piece < state.total && limit == now {
                Some(CoreState {
                    next: piece + 1,
                    ..*state
                })
            } else {
                None
            }
        }
        CoreEvent::Told { clause, piece } => {
            let now = least(state.least, At { clause, piece });
            if piece < state.next && clause < state.full {
                Some(CoreState {
                    least: Some(now),
                    ..*state
                })
            } else {
                None
            }
        }
        CoreEvent::Stopped => Some(CoreState {
            stopped: true,
            ..*state
        }),
    }
}
