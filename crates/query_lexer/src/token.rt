//! Tokens, and why a text has none.

ghost use Rattle.std.specs.Prelude.{◌≡◌};
ghost use Rattle.query_lexer.specs.declared.token.LexFault.TheVariants.{NoMemory};

use item_tree::Code;
use std::alloc::{AllocError, AllocFailed};

/// What a token is.
#[derive(Clone, Copy, Debug, PartialEq, Eq)]
pub enum TokenKind {
    /// An ASCII letter or `_`, then ASCII letters, digits, `_` and `-`. Keywords are names.
    Name,
    /// `$` and a name; or `$err:code`, where no further byte of a name follows.
    Var,
    /// `$$`.
    Context,
    /// Digits.
    Int,
    /// Digits or none, a point and digits.
    Dec,
    /// An `Int` or a `Dec` with an exponent.
    Double,
    /// A JSON string in its quotes.
    Text,
    /// One of `{|` `|}` `||` `:=` `!=` `<=` `>=` and `( ) [ ] { } , ; : . ! | + - * = < > # ?`.
    Mark,
}

/// A token and its place: the bytes of the text from `from` up to `to`.
#[derive(Clone, Copy, Debug, PartialEq, Eq)]
pub struct Token {
    pub kind: TokenKind,
    pub from: u32,
    pub to: u32,
}

/// Why a text has no tokens.
#[derive(Debug, Drop, PartialEq)]
pub enum LexFault {
    /// The lexical rules are broken at this byte of the text.
    ///
    /// The code is `XPST0003` for a comment that isn't closed, for what begins no token, and for a
    /// number that a letter or `_` directly follows. It is `PJST0004` for an `Int` that isn't below
    /// 10^20 and for a `Dec` that isn't below 10^20 when it is rounded to six places.
    Refused { code: Code, place: u32 },
    /// Memory ran out, or a place would need more than 32 bits.
    NoMemory,
}

impl From<AllocError> for LexFault {
    ghost from_gives = { λ _ e. e ≡ NoMemory };

    fn from(_e: AllocError) -> LexFault {
        LexFault::NoMemory
    }
}

impl<T: Drop> From<AllocFailed<T>> for LexFault {
    ghost from_gives = { λ _ e. e ≡ NoMemory };

    fn from(_e: AllocFailed<T>) -> LexFault {
        LexFault::NoMemory
    }
}
