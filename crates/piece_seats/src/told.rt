//! What files tell, without the files.

ghost use Rattle.std.specs.Prelude.{ℕ, List, Option};

use outside::InputFile;

/// What the files of an input tell, in order, each its bytes or nothing. Only contracts read it:
/// every worker has the files open, and no further ones are opened to say what they tell.
pub trait FilesTold: Sync {
    ghost told: { Self → List (Option (List ℕ)) };
}

/// Files that are open, as what they tell.
#[derive(Clone, Copy)]
pub struct OpenFiles<'f, S> {
    /// The files.
    pub files: &'f [S],
}

impl<'f, S: InputFile + Sync> FilesTold for OpenFiles<'f, S> {
    ghost use Rattle.std.specs.Prelude.{map};

    ghost told = { λ o. map S.held o.files.now };
}
