//! Kinds of numbers, and why there is none.

/// What the whole number of an operand counts.
#[derive(Clone, Copy, Debug, PartialEq, Eq)]
pub enum Kind {
    /// Ones: an integer.
    Whole,
    /// Units of 10^-6: a decimal.
    Units,
}

/// An integer, or a decimal by its units of 10^-6.
#[derive(Clone, Copy, Debug, PartialEq, Eq)]
pub enum Number {
    Int(i128),
    Dec(i128),
}

/// Why an operation has no result.
#[derive(Clone, Copy, Debug, PartialEq, Eq)]
pub enum NumFault {
    /// The divisor is 0, or the mean is one of nothing.
    ZeroDivisor,
    /// The result is out of bounds.
    Overflow,
}

/// How many units a whole number has.
pub(crate) const UNITS_IN_ONE: i128 = 1_000_000;
