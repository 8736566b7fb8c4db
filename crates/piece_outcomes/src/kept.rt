//! What is kept of what comes out of a stage.

ghost use Rattle.std.specs.Prelude.{IfOk};
ghost use Rattle.piece_outcomes.specs.Came.{Came, came_behind};

use item_tree::NoMemory;

/// What is kept of what comes out behind the last step, as its items, a table or a text. `stands`
/// says what it may be kept of.
pub trait Kept: Drop {
    ghost stands: { Self → Came → Type 0 };

    /// Of what this is kept of, and what comes after it.
    fn follow(self, later: Self) -> Result<Self, NoMemory>
        ensures { IfOk result (λ r. (a b : Came) → stands self a → stands later b
            → stands r (came_behind a b)) };
}
