//! The board: the state of a pool with its log.

ghost use Rattle.std.specs.Prelude.{◌≡◌, ◌<◌, ◌≤◌, ◌^◌, ◌∷◌, ◌++◌, [], length, Some, ◌↔◌, ◌⊎◌, IsNone, IfSome, IfNone, IfOk, true, vec_capacity};
ghost use Rattle.board_core.specs.Core.{opening, stepped, limit_of};
ghost use Rattle.piece_board.specs.Boards.{Replays, after_tell, after_stop};

use board_core::{CoreEvent, CoreState, step};
use item_tree::NoMemory;
use std::alloc::Global;
use std::marker::Model;

/// A piece to run, and the limit to run it at.
#[derive(Clone, Copy, Debug, PartialEq, Eq)]
pub struct Ticket {
    pub piece: u64,
    pub limit: u32,
}

/// The state of a pool, and the log of the events that led to it.
#[derive(Debug, Drop)]
pub struct Board {
    state: CoreState,
    log: Vec<CoreEvent>,
    // How many events of the log are tells.
    tells: u64,
}

impl Model for Board {
    ghost use Rattle.std.specs.Prelude.{vec_capacity};
    ghost use Rattle.piece_board.specs.Boards.{Logged, IsKept};

    ghost Value = { Logged };

    ghost view = { λ b. record { state = b.state; log = b.log.items } };

    ghost invariant = { λ b. IsKept b.state b.log.items b.tells (vec_capacity b.log) };
}

// Adds an event to a log that has room for it, and takes no memory.
fn note(log: &mut Vec<CoreEvent>, event: CoreEvent)
    requires { length log.old.items < vec_capacity log.old }
    ensures items { log.new.items ≡ log.old.items ++ event ∷ [] }
    ensures capacity { vec_capacity log.old ≤ vec_capacity log.new }
{
    if log.push(event).is_err() {
        unreachable!()
    }
}

impl Board {
    /// A board before the first event, with room for its whole log: all pieces taken, as many
    /// tells, and one stop.
    pub fn new(alloc: Global, total: u64, full: u32) -> Result<Board, NoMemory>
        requires { total < 2 ^ 62 }
        ensures { IfOk result (λ b. (b.state ≡ opening total full) × (b.log ≡ [])) }
    {
        let log = Vec::with_capacity(alloc, 2 * total as usize + 1)?;
        Ok(Board {
            state: CoreState::opening(total, full),
            log,
            tells: 0,
        })
    }

    /// The next piece, at the least clause told. `None` where there is none, or the board is
    /// stopped.
    pub fn take(&mut self) -> Option<Ticket>
        ensures none { IsNone result
            ↔ ((self.old.state.next ≡ self.old.state.total) ⊎ (self.old.state.stopped ≡ true)) }
        ensures took { IfSome result (λ t. (t.piece ≡ self.old.state.next)
            × (t.limit ≡ limit_of self.old.state.full self.old.state.least)
            × (stepped self.old.state (CoreEvent.Took t.piece t.limit) ≡ Some self.new.state)
            × (self.new.log ≡ self.old.log ++ CoreEvent.Took t.piece t.limit ∷ [])) }
        ensures same { IfNone result (self.new ≡ self.old) }
    {
        let ticket = Ticket {
            piece: self.state.next,
            limit: self.state.limit(),
        };
        let event = CoreEvent::Took {
            piece: ticket.piece,
            limit: ticket.limit,
        };
        let state = step(&self.state, &event)?;
        self.state = state;
        note(&mut self.log, event);
        Some(ticket)
    }

    /// Tells that a piece faulted in this clause. Nothing changes where the core does not allow it,
    /// or as many tells as there are pieces were noted.
    pub fn tell(&mut self, clause: u32, piece: u64)
        ensures { self.new ≡ after_tell self.old (CoreEvent.Told clause piece) }
    {
        let event = CoreEvent::Told { clause, piece };
        if self.tells < self.state.total {
            if let Some(state) = step(&self.state, &event) {
                self.tells += 1;
                self.state = state;
                note(&mut self.log, event);
            }
        }
    }

    /// Hands out no more pieces. A board that is stopped stays as it is.
    pub fn stop(&mut self)
        ensures { self.new ≡ after_stop self.old CoreEvent.Stopped }
    {
        if !self.state.stopped {
            self.state.stopped = true;
            note(&mut self.log, CoreEvent::Stopped);
        }
    }

    /// The state, and the log, which replays to it.
    pub fn into_log(self) -> (CoreState, Vec<CoreEvent>)
        ensures state { result.0 ≡ self.state }
        ensures log { result.1.items ≡ self.log }
        ensures replays { Replays self }
    {
        let Board {
            state,
            log,
            tells: _,
        } = self;
        (state, log)
    }
}
