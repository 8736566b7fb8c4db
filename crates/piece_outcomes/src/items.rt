//! What pieces tell together where their last step looks at one tuple at a time.

ghost use Rattle.std.specs.Prelude.{◌≡◌, ℕ, List, IfOk, Ok, Err, Result};
ghost use Rattle.item_tree.specs.declared.fault.Fault.{Fault};
ghost use Rattle.stage_laws.specs.Runs.{Met};
ghost use Rattle.stage_laws.specs.Pieces as plain;
ghost use Rattle.piece_outcomes.specs.Came.{Came, Seen, nothing_came, follow};
ghost use Rattle.piece_outcomes.specs.Counting.{taken_by, met_of};
ghost use Rattle.piece_outcomes.specs.Outcomes.{OutcomeIs, KnownIs, SoFarIs, DoneIs, AllDone, GatheredIs};

use crate::counts::Counts;
use crate::kept::Kept;
use crate::met::MetFault;
use crate::outcome::{Counted, Gathered, Outcome};
use fault_merge::Done;
use item_tree::NoMemory;
use std::alloc::Global;

/// What is known of pieces: all that came out, the first fault, or that no step below a limit
/// faults.
#[derive(Drop)]
pub(crate) enum Known<W> {
    Whole(W),
    Met(MetFault),
    Clear(u32),
}

/// What is known of pieces, and how many tuples each step took in.
#[derive(Drop)]
pub(crate) struct SoFar<W> {
    pub what: Known<W>,
    pub into: Counts,
}

fn behind_whole<W: Kept>(
    into: &Counts,
    all: W,
    limit: u32,
    outcome: Outcome<W>,
) -> Result<Known<W>, NoMemory>
    ensures { IfOk result (λ r. (c : Came) (o : plain.Outcome Came Seen Fault)
        → W.stands all c → OutcomeIs W.stands outcome o
        → KnownIs W.stands r (plain.known_behind follow (plain.known (Ok c))
        (plain.moved_known (taken_by into.now) (plain.by_outcome limit o)))) }
{
    match outcome {
        Outcome::Whole(more) => Ok(Known::Whole(all.follow(more)?)),
        Outcome::Met(met) => Ok(Known::Met(met.behind(into)?)),
        Outcome::Clean => Ok(Known::Clear(limit)),
    }
}

fn behind_met<W: Kept>(
    into: &Counts,
    before: MetFault,
    limit: u32,
    outcome: Outcome<W>,
) -> Result<Known<W>, NoMemory>
    ensures { IfOk result (λ r. (o : plain.Outcome Came Seen Fault)
        → OutcomeIs W.stands outcome o
        → KnownIs W.stands r (plain.known_behind follow (plain.known (Err (met_of before)))
        (plain.moved_known (taken_by into.now) (plain.by_outcome limit o)))) }
{
    match outcome {
        Outcome::Whole(_) => Ok(Known::Met(before)),
        Outcome::Met(met) => {
            if met.step < before.step {
                Ok(Known::Met(met.behind(into)?))
            } else {
                Ok(Known::Met(before))
            }
        }
        Outcome::Clean => {
            if before.step <= limit {
                Ok(Known::Met(before))
            } else {
                Ok(Known::Clear(limit))
            }
        }
    }
}

fn behind_clear<W: Kept>(
    into: &Counts,
    below: u32,
    limit: u32,
    outcome: Outcome<W>,
) -> Result<Known<W>, NoMemory>
    ensures { IfOk result (λ r. (o : plain.Outcome Came Seen Fault)
        → OutcomeIs W.stands outcome o
        → KnownIs W.stands r (plain.known_behind follow (plain.clear below)
        (plain.moved_known (taken_by into.now) (plain.by_outcome limit o)))) }
{
    match outcome {
        Outcome::Whole(_) => Ok(Known::Clear(below)),
        Outcome::Met(met) => {
            if met.step < below {
                Ok(Known::Met(met.behind(into)?))
            } else {
                Ok(Known::Clear(below))
            }
        }
        Outcome::Clean => {
            if below <= limit {
                Ok(Known::Clear(below))
            } else {
                Ok(Known::Clear(limit))
            }
        }
    }
}

fn behind<W: Kept>(
    into: &Counts,
    before: Known<W>,
    limit: u32,
    outcome: Outcome<W>,
) -> Result<Known<W>, NoMemory>
    ensures { IfOk result
        (λ r. (k : plain.Known Came Seen Fault) (o : plain.Outcome Came Seen Fault)
        → KnownIs W.stands before k → OutcomeIs W.stands outcome o
        → KnownIs W.stands r (plain.known_behind follow k
        (plain.moved_known (taken_by into.now) (plain.by_outcome limit o)))) }
{
    match before {
        Known::Whole(all) => behind_whole(into, all, limit, outcome),
        Known::Met(met) => behind_met(into, met, limit, outcome),
        Known::Clear(below) => behind_clear(into, below, limit, outcome),
    }
}

// What is known of pieces and of one more.
fn with_next<W: Kept>(
    alloc: Global,
    before: SoFar<W>,
    done: Done<Counted<W>>,
) -> Result<SoFar<W>, NoMemory>
    ensures { IfOk result
        (λ r. (h : plain.SoFar Came Seen Fault) (d : plain.PieceDone Came Seen Fault)
        → SoFarIs W.stands before h → DoneIs W.stands done d
        → SoFarIs W.stands r (plain.with_next follow h (plain.of_piece d))) }
{
    let SoFar { what, into } = before;
    let Done {
        piece: _,
        limit,
        out,
    } = done;
    let Counted {
        outcome,
        into: more,
    } = out;
    let what = behind(&into, what, limit, outcome)?;
    let into = into.plus(alloc, &more)?;
    Ok(SoFar { what, into })
}

fn opening<W: Kept>(alloc: Global, empty: W) -> Result<SoFar<W>, NoMemory>
    requires { W.stands empty nothing_came }
    ensures { IfOk result (λ r. SoFarIs W.stands r (plain.nothing_yet nothing_came)) }
{
    let into = Counts::new(alloc, 0, 0)?;
    Ok(SoFar {
        what: Known::Whole(empty),
        into,
    })
}

// What the outcomes of pieces tell together.
fn gather_known<W: Kept>(
    alloc: Global,
    empty: W,
    done: Vec<Done<Counted<W>>>,
) -> Result<SoFar<W>, NoMemory>
    requires { W.stands empty nothing_came }
    ensures { IfOk result (λ r. (ds : List (plain.PieceDone Came Seen Fault))
        → AllDone W.stands done.items ds
        → SoFarIs W.stands r (plain.gathered follow (plain.nothing_yet nothing_came) ds)) }
{
    let mut all = opening(alloc, empty)?;
    for d in done {
        all = with_next(alloc, all, d)?;
    }
    Ok(all)
}

/// What pieces give together, in order: all that comes out, or the first fault, which is that of
/// the earliest step, and there of the earliest piece. Tuples are numbered through all pieces.
/// `empty` is kept of nothing. Outcomes at any limits may be given where all is known by them; more
/// tuples than can be counted are want of memory.
pub fn gather<W: Kept>(
    alloc: Global,
    empty: W,
    done: Vec<Done<Counted<W>>>,
) -> Result<Gathered<W>, NoMemory>
    requires empty { W.stands empty nothing_came }
    requires known { (ds : List (plain.PieceDone Came Seen Fault))
        × (r : Result Came (Met Seen Fault)) × AllDone W.stands done.items ds
        × ((plain.gathered follow (plain.nothing_yet nothing_came) ds).what ≡ plain.known r) }
    ensures { IfOk result (λ r. (ds : List (plain.PieceDone Came Seen Fault))
        → AllDone W.stands done.items ds → GatheredIs W.stands r
        (plain.gathered follow (plain.nothing_yet nothing_came) ds).what) }
{
    let SoFar { what, into: _ } = gather_known(alloc, empty, done)?;
    match what {
        Known::Whole(all) => Ok(Gathered::Whole(all)),
        Known::Met(met) => Ok(Gathered::Met(met)),
        Known::Clear(_) => unreachable!(),
    }
}
