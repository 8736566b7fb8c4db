//! The events of a pool of workers.

/// What happens to a pool.
#[derive(Clone, Copy, Debug, PartialEq, Eq)]
pub enum CoreEvent {
    /// A worker took this piece, to run its clauses below the limit.
    Took { piece: u64, limit: u32 },
    /// The output of this piece faulted in this clause.
    Told { clause: u32, piece: u64 },
    /// No more pieces are handed out.
    Stopped,
}
