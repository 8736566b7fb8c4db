//! The parts of the grammar that nest.

/// The parts of the grammar that stand inside a form.
#[derive(Clone, Copy, Debug, PartialEq, Eq)]
pub enum Part {
    Expr,
    Single,
}
