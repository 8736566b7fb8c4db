//! Tuples.

use item_tree::Item;

/// What the stream of a query binds at one time: a sequence of items in each slot. Contracts see it
/// as the list of its `sequences`.
#[derive(Debug, Drop)]
pub struct Tuple {
    pub slots: Vec<Vec<Item>>,
}
