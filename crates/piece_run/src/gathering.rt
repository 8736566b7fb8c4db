//! What a stage makes of a whole input, put together from the outputs of its pieces.

ghost use Rattle.std.specs.Prelude.{◌≡◌, IfOk, List};
ghost use Rattle.tuple_rows.specs.Keys.{KeyList, Keyed};
ghost use Rattle.piece_outcomes.specs.Came.{Came, Seen, nothing_came};
ghost use Rattle.piece_outcomes.specs.Outcomes.{ResultIs};
ghost use Rattle.piece_outcomes.specs.Orders as order;
ghost use Rattle.piece_run.specs.Gathering.{OnPieces, IsWholeRun, IsWholeOrder, whole_run};

use item_tree::NoMemory;
use piece_board::Pieces;
use piece_outcomes::{Counted, Gathered, Kept, OrderCounted, gather, gather_orders};
use std::alloc::Global;

/// What a stage makes of all pieces of an input, one after the other: all that comes out, or the
/// first fault. The outputs are those of `piece_board::run_pieces`; `empty` is kept of nothing.
pub fn gather_whole<W: Kept>(
    alloc: Global,
    empty: W,
    pieces: Pieces<Counted<W>>,
) -> Result<Gathered<W>, NoMemory>
    requires empty { W.stands empty nothing_came }
    requires whole { (o : OnPieces Came Seen) × IsWholeRun W.stands o pieces }
    ensures { IfOk result (λ g. (o : OnPieces Came Seen)
        → IsWholeRun W.stands o pieces → ResultIs W.stands g (whole_run o)) }
{
    let Pieces { done, events: _ } = pieces;
    gather(alloc, empty, done)
}

/// The same where the stage ends in an order, before tuples are sorted: all tuples with their keys,
/// or the first fault. `step` is the number of the order, and `places` are those of its columns in
/// the query.
pub fn gather_whole_orders<W: Kept>(
    alloc: Global,
    step: u32,
    places: &[u32],
    empty: W,
    pieces: Pieces<OrderCounted<W>>,
) -> Result<Gathered<W>, NoMemory>
    requires empty { W.stands empty nothing_came }
    requires whole { (o : OnPieces (List Keyed) KeyList) × (o.last ≡ step)
        × IsWholeOrder W.stands places.now o pieces }
    ensures { IfOk result (λ g. (o : OnPieces (List Keyed) KeyList) → o.last ≡ step
        → IsWholeOrder W.stands places.now o pieces → order.ResultIs W.stands g (whole_run o)) }
{
    let Pieces { done, events: _ } = pieces;
    gather_orders(alloc, step, places, empty, done)
}
