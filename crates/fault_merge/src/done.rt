//! The output of a piece of work, with the limit that it was run at.

/// What a piece of work gave, beside the number of the piece, from 0, and the limit: the clauses
/// below it were run.
#[derive(Debug, Drop)]
pub struct Done<O> {
    pub piece: u64,
    pub limit: u32,
    pub out: O,
}
