//! What a worker calls before and after each piece.

/// What a worker calls before and after each piece of its work.
pub trait Gate: Sync {
    /// Called before the piece of this number.
    fn before(&self, piece: u64);

    /// Called behind the piece of this number.
    fn after(&self, piece: u64);
}

/// A gate that does nothing.
#[derive(Drop)]
pub struct FreeGate;

impl Gate for FreeGate {
    fn before(&self, _piece: u64) {}

    fn after(&self, _piece: u64) {}
}
