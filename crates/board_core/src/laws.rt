//! Laws of schedules. Each holds of all values: a call brings it to a proof, and does nothing when
//! it runs.

ghost use Rattle.board_core.specs.Laws.{LimitsSuffice, PiecesInOrder};

/// In each schedule whose tells are true, the limit of each piece that is taken is enough for the
/// least fault of all pieces, and full where there is none.
#[tactic(auto, using(crate::proofs::Suffice::limits_suffice_lem))]
pub fn limits_suffice()
    ensures { LimitsSuffice }
{}

/// A schedule takes the pieces before the next one, each once and in order.
#[tactic(auto, using(crate::proofs::Taking::pieces_in_order_lem))]
pub fn pieces_in_order()
    ensures { PiecesInOrder }
{}
