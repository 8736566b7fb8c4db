//! Sees whether the outputs of the workers and the log of the board agree.

ghost use Rattle.std.specs.Prelude.{◌≡◌, ◌<◌, ◌^◌, ◌∷◌, ◌++◌, [], List, length, All, IfOk, IfSome};
ghost use Rattle.std.specs.Bool.{OnTrue};
ghost use Rattle.std.specs.List.Sorted.{IsPermutation};
ghost use Rattle.board_core.specs.declared.event.CoreEvent.{CoreEvent};
ghost use Rattle.piece_board.specs.Whole.{IsWhole};
ghost use Rattle.piece_board.specs.inside.Seen.{AllSeen, AllAgree, Agrees};
ghost use Rattle.piece_board.specs.inside.Slots.{IsGood};

use crate::board::Board;
use crate::job::{Job, Pieces};
use board_core::CoreEvent;
use fault_merge::Done;
use item_tree::NoMemory;
use std::alloc::Global;

// The limit at which a piece was taken, and the clause that was told of it.
#[derive(Clone, Copy, PartialEq, Eq, Debug)]
pub struct Seen {
    pub limit: Option<u32>,
    pub clause: Option<u32>,
}

// Notes that a piece was taken, where it was not yet.
fn see_took(seen: &mut Vec<Seen>, piece: u64, limit: u32) -> bool
    ensures seen { OnTrue result ((es : List CoreEvent) → AllSeen seen.old.items es
        → AllSeen seen.new.items (es ++ CoreEvent.Took piece limit ∷ [])) }
    ensures length { length seen.new.items ≡ length seen.old.items }
{
    let at = piece as usize;
    if at >= seen.len() {
        return false;
    }
    let old = seen[at];
    if old.limit.is_some() {
        return false;
    }
    seen[at] = Seen {
        limit: Some(limit),
        clause: old.clause,
    };
    true
}

// Notes that a piece was told of, where it was not yet.
fn see_told(seen: &mut Vec<Seen>, clause: u32, piece: u64) -> bool
    ensures seen { OnTrue result ((es : List CoreEvent) → AllSeen seen.old.items es
        → AllSeen seen.new.items (es ++ CoreEvent.Told clause piece ∷ [])) }
    ensures length { length seen.new.items ≡ length seen.old.items }
{
    let at = piece as usize;
    if at >= seen.len() {
        return false;
    }
    let old = seen[at];
    if old.clause.is_some() {
        return false;
    }
    seen[at] = Seen {
        limit: old.limit,
        clause: Some(clause),
    };
    true
}

// Notes one more event, where its piece had none of its kind.
fn see(seen: &mut Vec<Seen>, event: &CoreEvent) -> bool
    ensures seen { OnTrue result ((es : List CoreEvent) → AllSeen seen.old.items es
        → AllSeen seen.new.items (es ++ event.now ∷ [])) }
    ensures length { length seen.new.items ≡ length seen.old.items }
{
    match *event {
        CoreEvent::Took { piece, limit } => see_took(seen, piece, limit),
        CoreEvent::Told { clause, piece } => see_told(seen, clause, piece),
        CoreEvent::Stopped => false,
    }
}

// What the events say of that many pieces, where they say it once.
fn tally(alloc: Global, count: usize, events: &[CoreEvent]) -> Result<Option<Vec<Seen>>, NoMemory>
    ensures { IfOk result
        (λ o. IfSome o (λ v. (length v.items ≡ count) × AllSeen v.items events.now)) }
{
    let none = Seen {
        limit: None,
        clause: None,
    };
    let mut seen = vec![in alloc; none; count]?;
    for event in events {
        if !see(&mut seen, event) {
            return Ok(None);
        }
    }
    Ok(Some(seen))
}

// Exchanges the output at this place with the one in the place where it belongs. False where it
// belongs here, or nowhere.
fn put_away<O>(done: &mut Vec<Done<O>>, at: usize) -> bool
    requires { at < length done.old.items }
    ensures permutation { IsPermutation done.old.items done.new.items }
    ensures length { length done.new.items ≡ length done.old.items }
{
    let place = done[at].piece as usize;
    if place == at || place >= done.len() {
        return false;
    }
    done.swap(at, place);
    true
}

// Puts each output into its place, in at most two turns an output: one that puts it away, and one
// that goes on from its place. Of two outputs of one piece, one stays elsewhere.
fn put_in_place<O>(done: &mut Vec<Done<O>>)
    requires { length done.old.items < 2 ^ 62 }
    ensures permutation { IsPermutation done.old.items done.new.items }
    ensures length { length done.new.items ≡ length done.old.items }
{
    let count = done.len();
    let mut at = 0;
    for _turn in 0..2 * count {
        if at >= count {
            break;
        }
        if !put_away(done, at) {
            at += 1;
        }
    }
}

// Whether the output is that of the piece, as the log has it.
fn agrees<J: Job>(piece: u64, seen: &Seen, done: &Done<J::Out>) -> bool
    ensures { OnTrue result (Agrees J.tells piece seen.now done.now) }
{
    done.piece == piece && seen.limit == Some(done.limit) && seen.clause == J::told(&done.out)
}

fn all_agree<J: Job>(seen: &[Seen], done: &[Done<J::Out>]) -> bool
    requires { length seen.now ≡ length done.now }
    ensures { OnTrue result (AllAgree J.tells seen.now done.now (length seen.now)) }
{
    for at in 0..seen.len() {
        if !agrees::<J>(at as u64, &seen[at], &done[at]) {
            return false;
        }
    }
    true
}

// The pieces with their schedule, where outputs and log agree.
pub(crate) fn settle<J: Job>(
    alloc: Global,
    job: &J,
    total: u64,
    full: u32,
    board: Board,
    mut done: Vec<Done<J::Out>>,
) -> Result<Option<Pieces<J::Out>>, NoMemory>
    requires small { total < 2 ^ 62 }
    requires good { All (IsGood (J.good job.now)) done.items }
    ensures { IfOk result (λ o. IfSome o
        (λ p. IsWhole J.tells (J.good job.now) total full p.done.items p.events.items)) }
{
    let (state, events) = board.into_log();
    let count = total as usize;
    if state.total != total || state.full != full || state.next != total || state.stopped {
        return Ok(None);
    }
    if done.len() != count {
        return Ok(None);
    }
    put_in_place(&mut done);
    let Some(seen) = tally(alloc, count, &events)? else {
        return Ok(None);
    };
    if !all_agree::<J>(&seen, &done) {
        return Ok(None);
    }
    Ok(Some(Pieces { done, events }))
}
