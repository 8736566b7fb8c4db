//! What is known of tuples that go through clauses one by one.

ghost use Rattle.std.specs.Prelude.{◌≡◌, ◌++◌, ◌+◌, ◌<◌, ◌≤◌, ◌==◌, ℕ, length, Ok, OnOk, IfOk};
ghost use Rattle.query_meaning.specs.inside.Gives.{Gives};
ghost use Rattle.query_meaning.specs.inside.Views.{items_of};
ghost use Rattle.stage_laws.specs.Tuples.{opening_known};
ghost use Rattle.clause_eval.specs.Frames.{frame_tuple};
ghost use Rattle.clause_eval.specs.Carrying.{known_of, counted, is_held, TakesIn, with_items, with_tuple, nothing_came};

use crate::items::added;
use crate::results::nothing;
use crate::tuples::Frame;
use item_tree::NoMemory;
use piece_outcomes::{Counts, MetFault};
use query_meaning::{EvalFault, Value};
use std::alloc::Global;

/// What a clause gives for one tuple.
#[derive(Drop)]
pub(crate) enum Given<'a> {
    One(Frame<'a>),
    Many(Vec<Frame<'a>>),
}

/// What a run of clauses at a limit tells.
#[derive(Drop)]
pub enum Told<'a> {
    /// All that came out: tuples, or the items of `return`.
    Whole(Vec<Frame<'a>>, Value<'a>),
    /// The first fault.
    Met(MetFault),
    /// No clause below this number faults.
    Clear(u32),
}

/// What is known of the tuples that came so far.
#[derive(Drop)]
pub struct Progress<'a> {
    /// What came out so far, or a fault.
    pub what: Told<'a>,
    /// How many tuples each clause took in.
    pub into: Counts,
}

/// Whether the clause of this number is not run any more.
pub(crate) fn is_held(what: &Told<'_>, number: u32) -> bool
    ensures { result ≡ is_held number (known_of what.now) }
{
    match what {
        Told::Whole(_, _) => false,
        Told::Met(met) => met.step <= number,
        Told::Clear(below) => *below <= number,
    }
}

/// One more at a clause.
pub(crate) fn count(number: u32, progress: &mut Progress<'_>) -> Result<u64, NoMemory>
    requires first { progress.old.into.first ≤ number }
    requires fits { number < progress.old.into.first + length progress.old.into.taken.items }
    ensures what { progress.new.what ≡ progress.old.what }
    ensures first { progress.new.into.first ≡ progress.old.into.first }
    ensures fits { length progress.new.into.taken.items ≡ length progress.old.into.taken.items }
    ensures takes { OnOk result (TakesIn number progress.old progress.new) }
    ensures place { IfOk result (λ n. n ≡ counted progress.new number) }
{
    let at = (number - progress.into.first) as usize;
    let Some(n) = progress.into.taken[at].checked_add(1) else {
        return Err(NoMemory);
    };
    progress.into.taken[at] = n;
    Ok(n)
}

/// A tuple comes out, where all is known.
pub(crate) fn put_tuple<'a>(frame: Frame<'a>, progress: &mut Progress<'a>) -> Result<(), NoMemory>
    ensures into { progress.new.into ≡ progress.old.into }
    ensures what { OnOk result (known_of progress.new.what
        ≡ with_tuple (frame_tuple frame.entry) (known_of progress.old.what)) }
{
    match &mut progress.what {
        Told::Whole(tuples, _) => tuples.push(frame)?,
        Told::Met(_) => {}
        Told::Clear(_) => {}
    }
    Ok(())
}

// The items of a value behind those of another. A lone value stays where it is.
fn joined<'a>(alloc: Global, before: Value<'a>, value: Value<'a>) -> Result<Value<'a>, EvalFault>
    ensures { Gives items_of result (Ok (items_of before.entry ++ items_of value.entry)) }
{
    if before.items().is_empty() {
        return Ok(value);
    }
    let out = before.owned(alloc)?;
    let all = added(out, value)?;
    Ok(Value::Made(all))
}

/// Items come out, where all is known.
#[inline(never)]
pub(crate) fn put_items<'a>(
    alloc: Global,
    value: Value<'a>,
    progress: &mut Progress<'a>,
) -> Result<(), NoMemory>
    ensures into { progress.new.into ≡ progress.old.into }
    ensures what { OnOk result (known_of progress.new.what
        ≡ with_items (items_of value.entry) (known_of progress.old.what)) }
{
    match &mut progress.what {
        Told::Whole(_, items) => {
            let before = std::mem::replace(items, nothing());
            match joined(alloc, before, value) {
                Ok(all) => *items = all,
                Err(_) => return Err(NoMemory),
            }
        }
        Told::Met(_) => {}
        Told::Clear(_) => {}
    }
    Ok(())
}

/// Nothing has been run at this limit. All clauses are run where it is `full`.
#[inline(never)]
pub(crate) fn opening<'a>(
    alloc: Global,
    first: u32,
    full: u32,
    limit: u32,
) -> Result<Progress<'a>, NoMemory>
    requires { first ≤ full }
    ensures first { IfOk result (λ p. p.into.first ≡ first) }
    ensures length { IfOk result (λ p. first + length p.into.taken.items ≡ full + 1) }
    ensures what { IfOk result (λ p. known_of p.what
        ≡ opening_known (limit == full) limit nothing_came) }
    ensures none { IfOk result (λ p. (c : ℕ) → counted p c ≡ 0) }
{
    let width = (full - first) as usize + 1;
    let mut taken = Vec::with_capacity(alloc, width)?;
    for step in 0..width {
        taken.push(0)?;
    }
    let into = Counts { first, taken };
    if limit == full {
        Ok(Progress {
            what: Told::Whole(Vec::new(alloc), nothing()),
            into,
        })
    } else {
        Ok(Progress {
            what: Told::Clear(limit),
            into,
        })
    }
}
