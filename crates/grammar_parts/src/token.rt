//! Classes of tokens.

ghost use Rattle.std.specs.Prelude.{◌≡◌, Bool};

/// A class of tokens: those that a place of a grammar takes.
pub trait TokenClass<T>: Copy {
    ghost takes: { Self → T → Bool };

    /// Whether the token is of the class.
    fn takes(self, token: &T) -> bool
        ensures { result ≡ takes self token.now };
}
