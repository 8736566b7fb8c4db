//! Drops trees.

/// Drops a tree. It is generic, so that a check needs no proof of its own for each kind of tree:
/// hand every tree that is given up, or is done with, to it.
pub fn discard<A: Drop>(_tree: A) {}
