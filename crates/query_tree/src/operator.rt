//! Operators and quantifiers.

/// Whether some or every binding must satisfy the test of a quantified expression.
#[derive(Clone, Copy, Debug, PartialEq, Eq)]
pub enum Quantifier {
    Any,
    Every,
}

/// The operator of a comparison: of two values by a word, or of all pairs of two sequences by a
/// sign.
#[derive(Clone, Copy, Debug, PartialEq, Eq)]
pub enum CompareOp {
    /// `eq`
    ValueEq,
    /// `ne`
    ValueNe,
    /// `lt`
    ValueLt,
    /// `le`
    ValueLe,
    /// `gt`
    ValueGt,
    /// `ge`
    ValueGe,
    /// `=`
    PairsEq,
    /// `!=`
    PairsNe,
    /// `<`
    PairsLt,
    /// `<=`
    PairsLe,
    /// `>`
    PairsGt,
    /// `>=`
    PairsGe,
}

/// An operator of a sum, or a sign.
#[derive(Clone, Copy, Debug, PartialEq, Eq)]
pub enum SumOp {
    Plus,
    Minus,
}

/// An operator of a product.
#[derive(Clone, Copy, Debug, PartialEq, Eq)]
pub enum ProductOp {
    /// `*`
    Times,
    /// `div`
    Div,
    /// `idiv`
    Idiv,
    /// `mod`
    Mod,
}
