//! What pieces tell together where their last step finds the keys of an order.

ghost use Rattle.std.specs.Prelude.{◌≡◌, ◌+◌, ℕ, List, [], get_or, length, ◌++◌, IfOk, Ok, Err, Result, OnOk};
ghost use Rattle.item_tree.specs.declared.fault.Fault.{Fault};
ghost use Rattle.tuple_rows.specs.Keys.{KeyList, Keyed};
ghost use Rattle.order_runs.specs.Seen.{SeenStandsFor};
ghost use Rattle.stage_laws.specs.Runs.{Met};
ghost use Rattle.stage_laws.specs.Pieces as plain;
ghost use Rattle.stage_laws.specs.Ends.{in_order, keys_of};
ghost use Rattle.piece_outcomes.specs.Came.{nothing_came};
ghost use Rattle.piece_outcomes.specs.Counting.{taken_by, clash_met};
ghost use Rattle.piece_outcomes.specs.Orders.{clash_at, MetIs, WholeIs, OutcomeIs, KnownIs, SoFarIs, DoneIs, AllDone, IsWide, KnownWide, AllWide, GatheredIs};

use crate::counts::Counts;
use crate::kept::Kept;
use crate::met::MetFault;
use crate::outcome::{Gathered, OrderCounted, OrderOutcome};
use fault_merge::Done;
use item_tree::{Code, Fault, NoMemory};
use order_runs::ClassSeen;
use std::alloc::Global;

/// What is known of pieces: all that came out, with the classes of its keys; the first fault; or
/// that no step below a limit faults.
#[derive(Drop)]
pub(crate) enum Known<W> {
    Whole(W, ClassSeen),
    Met(MetFault),
    Clear(u32),
}

/// What is known of pieces, and how many tuples each step took in.
#[derive(Drop)]
pub(crate) struct SoFar<W> {
    pub what: Known<W>,
    pub into: Counts,
}

fn place_of(places: &[u32], column: u32) -> u32
    ensures { result ≡ get_or places.now column 0 }
{
    match places.get(column as usize) {
        Some(place) => *place,
        None => 0,
    }
}

// The clash of the tuple of this number behind so many others.
fn clash(
    step: u32,
    places: &[u32],
    before: u64,
    tuple: u64,
    column: u32,
) -> Result<MetFault, NoMemory>
    ensures { IfOk result (λ m. m ≡ clash_met step places.now (before + tuple) column) }
{
    let Some(tuple) = before.checked_add(tuple) else {
        return Err(NoMemory);
    };
    let fault = Fault::at(Code::XPTY0004, place_of(places, column));
    Ok(MetFault { step, tuple, fault })
}

// The classes of tuples and of those behind them.
fn seen_behind(seen: &mut ClassSeen, own: &ClassSeen) -> Result<(), NoMemory>
    requires { length own.now.columns ≡ length seen.old.columns }
    ensures count { length seen.new.columns ≡ length seen.old.columns }
    ensures stands { OnOk result ((K L : List KeyList) → SeenStandsFor seen.old K
        → SeenStandsFor own.now L → SeenStandsFor seen.new (K ++ L)) }
{
    if seen.tuples() + own.tuples() >= ClassSeen::MOST_TUPLES {
        return Err(NoMemory);
    }
    seen.follow(own);
    Ok(())
}

fn whole_behind<W: Kept>(
    step: u32,
    places: &[u32],
    all: W,
    seen: ClassSeen,
    more: W,
    own: ClassSeen,
) -> Result<Known<W>, NoMemory>
    requires wide { length own.columns ≡ length seen.columns }
    ensures wide { IfOk result (KnownWide (length seen.columns)) }
    ensures known { IfOk result (λ r. (ks os : List Keyed)
        → WholeIs W.stands all seen ks → WholeIs W.stands more own os
        → KnownIs W.stands r (plain.known (in_order step (clash_at places.now) ks (Ok os)))) }
{
    match own.clash_after(&seen) {
        Some((tuple, column)) => {
            let met = clash(step, places, seen.tuples(), tuple, column)?;
            Ok(Known::Met(met))
        }
        None => {
            let mut seen = seen;
            seen_behind(&mut seen, &own)?;
            let all = all.follow(more)?;
            Ok(Known::Whole(all, seen))
        }
    }
}

fn met_behind<W: Kept>(
    step: u32,
    places: &[u32],
    seen: &ClassSeen,
    met: MetFault,
    own: &ClassSeen,
) -> Result<Known<W>, NoMemory>
    requires wide { length own.now.columns ≡ length seen.now.columns }
    ensures wide { IfOk result (λ r. (width : ℕ) → KnownWide width r) }
    ensures known { IfOk result (λ r. (ks : List Keyed) (e : Met KeyList Fault)
        → SeenStandsFor seen.now (keys_of ks) → MetIs met e → SeenStandsFor own.now e.seen
        → KnownIs W.stands r (plain.known (in_order step (clash_at places.now) ks (Err e)))) }
{
    if met.step != step {
        return Ok(Known::Met(met));
    }
    match own.clash_after(seen) {
        Some((tuple, column)) => {
            let met = clash(step, places, seen.tuples(), tuple, column)?;
            Ok(Known::Met(met))
        }
        None => Ok(Known::Met(met)),
    }
}

fn behind_whole<W: Kept>(
    step: u32,
    places: &[u32],
    into: &Counts,
    all: W,
    seen: ClassSeen,
    limit: u32,
    outcome: OrderOutcome<W>,
) -> Result<Known<W>, NoMemory>
    requires wide { IsWide (length seen.columns) outcome }
    ensures wide { IfOk result (KnownWide (length seen.columns)) }
    ensures known { IfOk result
        (λ r. (ks : List Keyed) (o : plain.Outcome (List Keyed) KeyList Fault)
        → WholeIs W.stands all seen ks → OutcomeIs W.stands outcome o
        → KnownIs W.stands r (plain.known_behind (in_order step (clash_at places.now))
        (plain.known (Ok ks))
        (plain.moved_known (taken_by into.now) (plain.by_outcome limit o)))) }
{
    match outcome {
        OrderOutcome::Whole(more, own) => whole_behind(step, places, all, seen, more, own),
        OrderOutcome::Met(met, own) => {
            let met = met.behind(into)?;
            let known = met_behind(step, places, &seen, met, &own)?;
            Ok(known)
        }
        OrderOutcome::Clean => Ok(Known::Clear(limit)),
    }
}

fn behind_met<W: Kept>(
    step: u32,
    places: &[u32],
    into: &Counts,
    before: MetFault,
    limit: u32,
    outcome: OrderOutcome<W>,
) -> Result<Known<W>, NoMemory>
    ensures wide { IfOk result (λ r. (width : ℕ) → KnownWide width r) }
    ensures known { IfOk result
        (λ r. (e : Met KeyList Fault) (o : plain.Outcome (List Keyed) KeyList Fault)
        → MetIs before e → OutcomeIs W.stands outcome o
        → KnownIs W.stands r (plain.known_behind (in_order step (clash_at places.now))
        (plain.known (Err e))
        (plain.moved_known (taken_by into.now) (plain.by_outcome limit o)))) }
{
    match outcome {
        OrderOutcome::Whole(_, _) => Ok(Known::Met(before)),
        OrderOutcome::Met(met, _) => {
            if met.step < before.step {
                Ok(Known::Met(met.behind(into)?))
            } else {
                Ok(Known::Met(before))
            }
        }
        OrderOutcome::Clean => {
            if before.step <= limit {
                Ok(Known::Met(before))
            } else {
                Ok(Known::Clear(limit))
            }
        }
    }
}

fn behind_clear<W: Kept>(
    step: u32,
    places: &[u32],
    into: &Counts,
    below: u32,
    limit: u32,
    outcome: OrderOutcome<W>,
) -> Result<Known<W>, NoMemory>
    ensures wide { IfOk result (λ r. (width : ℕ) → KnownWide width r) }
    ensures known { IfOk result (λ r. (o : plain.Outcome (List Keyed) KeyList Fault)
        → OutcomeIs W.stands outcome o
        → KnownIs W.stands r (plain.known_behind (in_order step (clash_at places.now))
        (plain.clear below)
        (plain.moved_known (taken_by into.now) (plain.by_outcome limit o)))) }
{
    match outcome {
        OrderOutcome::Whole(_, _) => Ok(Known::Clear(below)),
        OrderOutcome::Met(met, _) => {
            if met.step < below {
                Ok(Known::Met(met.behind(into)?))
            } else {
                Ok(Known::Clear(below))
            }
        }
        OrderOutcome::Clean => {
            if below <= limit {
                Ok(Known::Clear(below))
            } else {
                Ok(Known::Clear(limit))
            }
        }
    }
}

fn behind<W: Kept>(
    step: u32,
    places: &[u32],
    into: &Counts,
    before: Known<W>,
    limit: u32,
    outcome: OrderOutcome<W>,
) -> Result<Known<W>, NoMemory>
    requires before { KnownWide (length places.now) before }
    requires wide { IsWide (length places.now) outcome }
    ensures wide { IfOk result (KnownWide (length places.now)) }
    ensures known { IfOk result (λ r. (k : plain.Known (List Keyed) KeyList Fault)
        (o : plain.Outcome (List Keyed) KeyList Fault)
        → KnownIs W.stands before k → OutcomeIs W.stands outcome o
        → KnownIs W.stands r (plain.known_behind (in_order step (clash_at places.now)) k
        (plain.moved_known (taken_by into.now) (plain.by_outcome limit o)))) }
{
    match before {
        Known::Whole(all, seen) => behind_whole(step, places, into, all, seen, limit, outcome),
        Known::Met(met) => behind_met(step, places, into, met, limit, outcome),
        Known::Clear(below) => behind_clear(step, places, into, below, limit, outcome),
    }
}

// What is known of pieces and of one more.
fn with_next<W: Kept>(
    alloc: Global,
    step: u32,
    places: &[u32],
    before: SoFar<W>,
    done: Done<OrderCounted<W>>,
) -> Result<SoFar<W>, NoMemory>
    requires before { KnownWide (length places.now) before.what }
    requires wide { IsWide (length places.now) done.out.outcome }
    ensures wide { IfOk result (λ r. KnownWide (length places.now) r.what) }
    ensures known { IfOk result (λ r. (h : plain.SoFar (List Keyed) KeyList Fault)
        (d : plain.PieceDone (List Keyed) KeyList Fault)
        → SoFarIs W.stands before h → DoneIs W.stands done d
        → SoFarIs W.stands r
        (plain.with_next (in_order step (clash_at places.now)) h (plain.of_piece d))) }
{
    let SoFar { what, into } = before;
    let Done {
        piece: _,
        limit,
        out,
    } = done;
    let OrderCounted {
        outcome,
        into: more,
    } = out;
    let what = behind(step, places, &into, what, limit, outcome)?;
    let into = into.plus(alloc, &more)?;
    Ok(SoFar { what, into })
}

fn opening<W: Kept>(alloc: Global, width: usize, empty: W) -> Result<SoFar<W>, NoMemory>
    requires { W.stands empty nothing_came }
    ensures wide { IfOk result (λ r. KnownWide width r.what) }
    ensures known { IfOk result (λ r. SoFarIs W.stands r (plain.nothing_yet [])) }
{
    let seen = ClassSeen::new(alloc, width)?;
    let into = Counts::new(alloc, 0, 0)?;
    Ok(SoFar {
        what: Known::Whole(empty, seen),
        into,
    })
}

// What the outcomes of pieces tell together.
fn gather_known<W: Kept>(
    alloc: Global,
    step: u32,
    places: &[u32],
    empty: W,
    done: Vec<Done<OrderCounted<W>>>,
) -> Result<SoFar<W>, NoMemory>
    requires empty { W.stands empty nothing_came }
    requires wide { AllWide (length places.now) done.items }
    ensures { IfOk result (λ r. (ds : List (plain.PieceDone (List Keyed) KeyList Fault))
        → AllDone W.stands done.items ds → SoFarIs W.stands r
        (plain.gathered (in_order step (clash_at places.now)) (plain.nothing_yet []) ds)) }
{
    let mut all = opening(alloc, places.len(), empty)?;
    for d in done {
        all = with_next(alloc, step, places, all, d)?;
    }
    Ok(all)
}

/// What pieces give together, in order, before it is sorted: all tuples with their keys, or the
/// first fault, which is that of the earliest step, and there of the earliest tuple. Keys that
/// clash between pieces are a fault of the order's `step`; `places` are those of its columns in the
/// query. `empty` is kept of nothing. Outcomes at any limits may be given where all is known by
/// them; more tuples than can be counted are want of memory.
pub fn gather_orders<W: Kept>(
    alloc: Global,
    step: u32,
    places: &[u32],
    empty: W,
    done: Vec<Done<OrderCounted<W>>>,
) -> Result<Gathered<W>, NoMemory>
    requires empty { W.stands empty nothing_came }
    requires wide { AllWide (length places.now) done.items }
    requires known { (ds : List (plain.PieceDone (List Keyed) KeyList Fault))
        × (r : Result (List Keyed) (Met KeyList Fault)) × AllDone W.stands done.items ds
        × ((plain.gathered (in_order step (clash_at places.now)) (plain.nothing_yet []) ds).what
        ≡ plain.known r) }
    ensures { IfOk result (λ r. (ds : List (plain.PieceDone (List Keyed) KeyList Fault))
        → AllDone W.stands done.items ds → GatheredIs W.stands r
        (plain.gathered (in_order step (clash_at places.now)) (plain.nothing_yet []) ds).what) }
{
    let SoFar { what, into: _ } = gather_known(alloc, step, places, empty, done)?;
    match what {
        Known::Whole(all, _) => Ok(Gathered::Whole(all)),
        Known::Met(met) => Ok(Gathered::Met(met)),
        Known::Clear(_) => unreachable!(),
    }
}
