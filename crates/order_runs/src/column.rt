//! The columns of an order.

/// One key of an order.
#[derive(Clone, Copy, Debug, PartialEq, Eq)]
pub struct Column {
    /// The whole order of the column is turned round, with the absent keys.
    pub descending: bool,
    /// An absent key is above all others, and not below them.
    pub empty_greatest: bool,
}
