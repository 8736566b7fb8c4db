//! Why a key cannot be joined.

use item_tree::Code;

/// The first key in a list that cannot be compared with a given one.
#[derive(Clone, Copy, Debug, PartialEq, Eq)]
pub struct PairFault {
    pub code: Code,
    /// The position of that key, from 0.
    pub at: u64,
}
