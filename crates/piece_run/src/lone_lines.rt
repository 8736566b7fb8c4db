//! A lone call of `json-lines` over the pieces of its input: the items of the lines, of which
//! something is kept.

ghost use Rattle.std.specs.Prelude.{◌≡◌, ◌≤◌, ◌<◌, ◌+◌, ℕ, List, map, flat_map, length, Some, All, IfOk, OnOk, IfSome};
ghost use Rattle.item_tree.specs.Item.{datums};
ghost use Rattle.item_reader.specs.Lines.{lines};
ghost use Rattle.query_meaning.specs.Outcome.{each};
ghost use Rattle.stage_laws.specs.Ends.{ended_by};
ghost use Rattle.clause_stages.specs.Drivers.{line_item, unmarked};
ghost use Rattle.clause_stages.specs.InputLines.{line_read};
ghost use Rattle.piece_board.specs.Faults.{IsJob};
ghost use Rattle.piece_board.specs.Trouble.{SomeRose};
ghost use Rattle.piece_outcomes.specs.Came.{Came, Seen};
ghost use Rattle.piece_outcomes.specs.Counting.{taken_by};
ghost use Rattle.piece_seats.specs.Seats.{all_faults, HoldsFiles};
ghost use Rattle.piece_run.specs.Ends.{items_came};
ghost use Rattle.piece_run.specs.Gathering.{OnPieces, IsWholeRun, whole_run};
ghost use Rattle.piece_run.specs.Kept.{KeptIs, IsAnswer, IsUnread};
ghost use Rattle.piece_run.specs.LoneLines.{ItemsAre, IsOfLone};

use crate::driver::none_taken;
use crate::gathering::gather_whole;
use crate::leaf_fault::LeafFault;
use crate::reading::read_items;
use item_reader::Reader;
use item_tree::{Item, NoMemory};
use line_pieces::{Cut, Lines};
use outside::{Failed, Gate, InputFile};
use piece_board::{Job, JobFault, Pieces, run_pieces};
use piece_outcomes::{Counted, Gathered, Kept, MetFault, Outcome};
use piece_seats::{FilesTold, ItemsKept, Seat};
use query_meaning::EvalFault;
use std::alloc::Global;
use std::marker::PhantomData;
use std::sync::Wait;
use std::thread::Threads;

/// What is kept of the items that come out, where nothing else does.
#[derive(Drop)]
pub(crate) struct ItemsCame<K> {
    /// What is kept of them.
    pub items: K,
}

impl<K: ItemsKept> Kept for ItemsCame<K> {
    ghost use Rattle.piece_run.specs.LoneLines.{ItemsAre};

    ghost stands = { λ w came. ItemsAre K.stands w came };

    fn follow(self, later: Self) -> Result<Self, NoMemory> {
        let items = self.items.follow(later.items)?;
        Ok(ItemsCame { items })
    }
}

// An outcome of the step that reads, which takes in no tuple.
fn counted<W>(alloc: Global, outcome: Outcome<W>) -> Counted<W>
    ensures outcome { result.outcome ≡ outcome }
    ensures into { (n : ℕ) → taken_by result.into n ≡ 0 }
{
    Counted {
        outcome,
        into: none_taken(alloc, 0),
    }
}

// What is kept of these items, and nothing else.
fn kept_of<K: ItemsKept>(alloc: Global, items: &[Item]) -> Result<ItemsCame<K>, NoMemory>
    ensures { IfOk result (λ w. ItemsAre K.stands w (items_came (datums items.now))) }
{
    let mut items_kept = K::nothing(alloc);
    items_kept.add(items)?;
    Ok(ItemsCame { items: items_kept })
}

// What is kept of the items of lines, where the step that reads them, which has the number 0, is
// below the limit.
fn of_lines<K: ItemsKept>(
    alloc: Global,
    place: u32,
    lines: Lines<'_>,
    limit: u32,
) -> Result<Counted<ItemsCame<K>>, NoMemory>
    requires { limit ≤ 1 }
    ensures { IfOk result (IsOfLone K.stands place lines.entry limit) }
{
    if limit == 0 {
        return Ok(counted(alloc, Outcome::Clean));
    }
    let mut reader = Reader::new(alloc);
    match read_items(alloc, &mut reader, place, lines) {
        Ok(items) => {
            let kept = kept_of(alloc, &items)?;
            Ok(counted(alloc, Outcome::Whole(kept)))
        }
        Err(EvalFault::Raised(fault)) => Ok(counted(
            alloc,
            Outcome::Met(MetFault {
                step: 0,
                tuple: 1,
                fault,
            }),
        )),
        Err(EvalFault::NoMemory) => Err(NoMemory),
    }
}

/// The lines of an input, whose items are kept: a job that workers run. Each worker has files of
/// its own, which tell what is told.
#[derive(Drop)]
pub(crate) struct LinesJob<'a, 't, T, S, K> {
    pub alloc: Global,
    /// The place of the call, which faults of the lines name.
    pub place: u32,
    /// The pieces of the input.
    pub cut: &'a Cut,
    /// What the files tell.
    pub told: &'t T,
    /// The files of workers.
    pub files: PhantomData<S>,
    /// What is kept of items.
    pub kept: PhantomData<K>,
}

impl<'a, 't, T: FilesTold, S: InputFile + Send + Sync, K: ItemsKept + Send + Sync> Job
    for LinesJob<'a, 't, T, S, K> {
    ghost use Rattle.line_pieces.specs.Cuts.{pieces_of};
    ghost use Rattle.piece_outcomes.specs.Counting.{told_step};
    ghost use Rattle.piece_seats.specs.Seats.{all_faults, HoldsFiles};
    ghost use Rattle.piece_run.specs.LoneLines.{IsLonePiece};

    type Seat = Seat<S>;

    type Out = Counted<ItemsCame<K>>;

    type Fault = Failed;

    ghost total = { λ j. pieces_of j.cut.now.size j.cut.now.lengths };

    ghost full = { λ j. 1 };

    ghost fits = { λ j s. HoldsFiles S.held j.cut.now (T.told j.told.now) s };

    ghost good = { λ j piece limit out.
        IsLonePiece K.stands j.place j.cut.now (T.told j.told.now) piece limit out };

    ghost trouble = { λ s. all_faults S.faults s.files.items };

    ghost tells = { told_step };

    fn run(
        &self,
        seat: &mut Seat<S>,
        piece: u64,
        limit: u32,
    ) -> Result<Counted<ItemsCame<K>>, JobFault<Failed>> {
        seat.read_piece(self.cut, piece)?;
        let out = of_lines(self.alloc, self.place, seat.pieces.lines(), limit)?;
        Ok(out)
    }

    fn told(out: &Counted<ItemsCame<K>>) -> Option<u32>
        ensures { result ≡ told_step out.now }
    {
        out.told()
    }
}

// What is kept of the items of all pieces, or the first fault.
fn gathered<K: ItemsKept>(
    alloc: Global,
    pieces: Pieces<Counted<ItemsCame<K>>>,
) -> Result<K, LeafFault>
    requires { (o : OnPieces Came Seen) × IsWholeRun (ItemsAre K.stands) o pieces }
    ensures value { (o : OnPieces Came Seen) → IsWholeRun (ItemsAre K.stands) o pieces
        → KeptIs K.stands result (ended_by unmarked (λ came. Ok came.items) (whole_run o)) }
    ensures answers { IsUnread result → ⊥ }
{
    let empty = ItemsCame {
        items: K::nothing(alloc),
    };
    match gather_whole(alloc, empty, pieces) {
        Ok(Gathered::Whole(came)) => Ok(came.items),
        Ok(Gathered::Met(met)) => Err(LeafFault::Raised(met.fault)),
        Err(NoMemory) => Err(LeafFault::NoMemory),
    }
}

/// What is kept of the items of all lines of an input, by as many workers as there are seats; or
/// the fault of the first line that has one, at the place of the call. All seats come back.
pub(crate) fn run_lines<
    R: Threads + Wait + Sync,
    S: InputFile + Send + Sync + Drop,
    T: FilesTold,
    K: ItemsKept + Send + Sync,
    G: Gate,
>(
    rt: &R,
    alloc: Global,
    place: u32,
    cut: &Cut,
    told: &T,
    seats: Vec<Seat<S>>,
    gate: &G,
) -> (Vec<Seat<S>>, Result<K, LeafFault>)
    requires some { 0 < length seats.items }
    requires files { All (HoldsFiles S.held cut.now (T.told told.now)) seats.items }
    ensures value { (files : List (List ℕ)) → T.told told.now ≡ map Some files
        → KeptIs K.stands result.1 (each (line_item (line_read place)) (flat_map lines files)) }
    ensures files { All (HoldsFiles S.held cut.now (T.told told.now)) result.0.items }
    ensures many { length result.0.items ≡ length seats.items }
    ensures calm { IsAnswer result.1 → map (λ s. all_faults S.faults s.files.items) result.0.items
        ≡ map (λ s. all_faults S.faults s.files.items) seats.items }
    ensures cause { IsUnread result.1
        → SomeRose (map (λ s. all_faults S.faults s.files.items) seats.items)
        (map (λ s. all_faults S.faults s.files.items) result.0.items) }
{
    let job = LinesJob {
        alloc,
        place,
        cut,
        told,
        files: PhantomData,
        kept: PhantomData,
    };
    let _size = cut.size();
    line_pieces::laws::pieces_are_whole();
    line_pieces::laws::pieces_are_told();
    let (seats, answer) = run_pieces(rt, alloc, &job, cut.pieces(), 1, seats, gate);
    match answer {
        Ok(pieces) => (seats, gathered(alloc, pieces)),
        Err(JobFault::Job(_)) => (seats, Err(LeafFault::ReadFault)),
        Err(JobFault::NoMemory) => (seats, Err(LeafFault::NoMemory)),
    }
}
