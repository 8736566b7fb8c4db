//! The tokens that are still to be read.

ghost use Rattle.std.specs.Prelude.{◌≡◌, length};
ghost use Rattle.grammar_parts.specs.Tokens.{given, rest_of, sees, sees_two};
ghost use Rattle.grammar_parts.specs.Readers.{taken, take_where};
ghost use Rattle.grammar_parts.specs.Reads.{ReadsAs};
ghost use Rattle.grammar_parts.specs.declared.cursor.Stop.TheVariants.{NoMemory};

use crate::token::TokenClass;
use std::alloc::{AllocError, AllocFailed};

/// Why reading stopped.
#[derive(Debug, Drop)]
pub enum Stop {
    /// At a token that no beginning has, which the cursor is then at, or at the end.
    Refused,
    /// Memory ran out.
    NoMemory,
}

impl From<AllocError> for Stop {
    ghost from_gives = { λ _ e. e ≡ NoMemory };

    fn from(_e: AllocError) -> Stop {
        Stop::NoMemory
    }
}

impl<R: Drop> From<AllocFailed<R>> for Stop {
    ghost from_gives = { λ _ e. e ≡ NoMemory };

    fn from(_e: AllocFailed<R>) -> Stop {
        Stop::NoMemory
    }
}

/// The tokens that are still to be read.
#[derive(Drop)]
pub struct Cursor<'a, T> {
    pub rest: &'a [T],
}

impl<'a, T> Cursor<'a, T> {
    /// How many tokens are left.
    pub fn left(&self) -> usize
        ensures { result ≡ length self.now.rest.now }
    {
        self.rest.len()
    }

    /// Whether the next token is of this class.
    pub fn sees<C: TokenClass<T>>(&self, class: C) -> bool
        ensures { result ≡ sees (C.takes class) self.now.rest.now }
    {
        match self.rest {
            [first, ..] => class.takes(first),
            [] => false,
        }
    }

    /// Whether the next token is of this class, where that is allowed.
    pub fn sees_if<C: TokenClass<T>>(&self, allowed: bool, class: C) -> bool
        ensures { result ≡ sees (given allowed (C.takes class)) self.now.rest.now }
    {
        match self.rest {
            [first, ..] => allowed && class.takes(first),
            [] => false,
        }
    }

    /// Whether the next two tokens are of these classes.
    pub fn sees_two<C: TokenClass<T>, D: TokenClass<T>>(&self, first: C, second: D) -> bool
        ensures { result ≡ sees_two (C.takes first) (D.takes second) self.now.rest.now }
    {
        match self.rest {
            [a, b, ..] => first.takes(a) && second.takes(b),
            _ => false,
        }
    }

    /// Takes the next token, if it fits.
    pub fn take(&mut self, fits: bool) -> Result<&'a T, Stop>
        ensures { ReadsAs (λ t. t.now) (taken fits self.old.rest.now) result self.new.rest.now }
    {
        match self.rest {
            [first, rest @ ..] if fits => {
                self.rest = rest;
                Ok(first)
            }
            _ => Err(Stop::Refused),
        }
    }

    /// Takes a token of this class.
    pub fn expect<C: TokenClass<T>>(&mut self, class: C) -> Result<&'a T, Stop>
        ensures { ReadsAs (λ t. t.now) (take_where (C.takes class) self.old.rest.now) result
            self.new.rest.now }
    {
        self.take(self.sees(class))
    }

    /// Passes a token, if there is one.
    pub fn skip(&mut self)
        ensures { self.new.rest.now ≡ rest_of self.old.rest.now }
    {
        if let [_, rest @ ..] = self.rest {
            self.rest = rest;
        }
    }
}
