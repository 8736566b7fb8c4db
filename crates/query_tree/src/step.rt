//! Predicates and look-ups.

use crate::Placed;
use item_tree::Str;

/// What follows an expression: a predicate, or a look-up in an array or an object. `place` is that
/// of its `[` or `.`.
#[derive(Drop)]
pub enum Step<V, E> {
    /// `[]`
    Members { place: u32 },
    /// `[[e]]`
    Member { place: u32, position: E },
    /// `[e]`
    Filter { place: u32, test: E },
    /// `.k`
    Field { place: u32, key: Lookup<V, E> },
}

/// The key of a look-up in an object.
#[derive(Drop)]
pub enum Lookup<V, E> {
    Name { name: Str },
    Text { value: Str },
    /// `$x`
    Var { variable: Placed<V> },
    /// `$$`
    Context { place: u32 },
    /// `(e)`
    Computed { value: E },
}
