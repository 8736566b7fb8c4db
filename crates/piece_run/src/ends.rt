//! The clauses of a stage on tuples, below a limit, and its end.

ghost use Rattle.std.specs.Prelude.{◌≡◌, ◌+◌, ◌<◌, ◌≤◌, ◌^◌, ℕ, [], length, None, Ok, IfOk};
ghost use Rattle.query_tree.specs.BoundViews.{bound_tree, bound_clauses, bound_group_vars};
ghost use Rattle.query_meaning.specs.inside.Evaluates.{Evaluates};
ghost use Rattle.query_meaning.specs.inside.Views.{items_of, environment_of, eval_in};
ghost use Rattle.stage_laws.specs.Pieces.{told_below};
ghost use Rattle.stage_laws.specs.Laws.{IsCarry};
ghost use Rattle.stage_laws.specs.Tuples.{as_told, outcome_of};
ghost use Rattle.clause_eval.specs.Frames.{tuples_of};
ghost use Rattle.clause_eval.specs.Carrying as run;
ghost use Rattle.piece_outcomes.specs.Outcomes.{OutcomeIs};
ghost use Rattle.piece_run.specs.Remade.{outcome_remade};
ghost use Rattle.piece_run.specs.Phases.{lower};
ghost use Rattle.piece_run.specs.Ends as end;
ghost use Rattle.piece_run.specs.Ends.{tuples_came, numbers_end, groups_end};
ghost use Rattle.piece_run.specs.Keying.{OutKeyedBy};
ghost use Rattle.piece_run.specs.Outcomes.{CameIs, came_seen, IsOutcomeOf, passed, EndsAs};
ghost use Rattle.piece_run.specs.Stages.{ends_in};

use crate::came::CameOut;
use crate::counts::with_count;
use crate::keying::{KeyedTuples, keyed_tuples};
use crate::stage::NarrowSteps;
use clause_eval::{Evaluator, Frame, Progress, Told};
use item_tree::NoMemory;
use piece_outcomes::{Counted, Outcome};
use piece_seats::ItemsKept;
use query_meaning::{Env, EvalFault, Value};
use query_tree::{BoundExpr, GroupVar, Slot};
use std::alloc::Global;

// The smaller of two limits.
fn lower(a: u32, b: u32) -> u32
    ensures { result ≡ lower a b }
{
    if a <= b { a } else { b }
}

// What is kept of the items of a value, and the tuples beside it.
fn items_came<'a, I: ItemsKept>(
    alloc: Global,
    tuples: Vec<Frame<'a>>,
    value: Value<'a>,
) -> Result<CameOut<'a, I>, NoMemory>
    ensures { IfOk result (λ w. CameIs I.stands w (came_seen
        (record { tuples = tuples_of tuples.entry; items = items_of value.entry }))) }
{
    let mut items = I::nothing(alloc);
    items.add(value.items())?;
    Ok(CameOut {
        tuples,
        keyed: Vec::new(alloc),
        items,
    })
}

// What was told of clauses and `return`.
fn items_told<'a, I: ItemsKept>(
    alloc: Global,
    what: Told<'a>,
) -> Result<Outcome<CameOut<'a, I>>, NoMemory>
    ensures { IfOk result (λ o. OutcomeIs (CameIs I.stands) o
        (outcome_remade came_seen (outcome_of (run.known_of what.entry)))) }
{
    match what {
        Told::Whole(tuples, value) => {
            let came = items_came(alloc, tuples, value)?;
            Ok(Outcome::Whole(came))
        }
        Told::Met(m) => Ok(Outcome::Met(m)),
        Told::Clear(_) => Ok(Outcome::Clean),
    }
}

// Tuples that all came through, where they came out of the last step at this limit.
fn tuples_at<'a, I: ItemsKept>(
    alloc: Global,
    tuples: Vec<Frame<'a>>,
    at: u32,
    limit: u32,
) -> Outcome<CameOut<'a, I>>
    requires { at + 1 < 2 ^ 32 }
    ensures { OutcomeIs (CameIs I.stands) result
        (told_below (at + 1) limit (Ok (tuples_came (tuples_of tuples.entry)))) }
{
    if limit == at + 1 {
        Outcome::Whole(CameOut {
            tuples,
            keyed: Vec::new(alloc),
            items: I::nothing(alloc),
        })
    } else {
        Outcome::Clean
    }
}

// What `count` makes of what was told of the clauses before it.
fn numbers_told<'a, I: ItemsKept>(
    alloc: Global,
    at: u32,
    limit: u32,
    progress: Progress<'a>,
) -> Counted<CameOut<'a, I>>
    requires room { at + 1 < 2 ^ 32 }
    requires first { progress.into.first ≤ at }
    requires fits { at < progress.into.first + length progress.into.taken.items }
    ensures ends { EndsAs (CameIs I.stands) at limit (numbers_end at) (passed progress.entry)
        result }
    ensures first { result.into.first ≡ progress.entry.into.first }
{
    let Progress { what, into } = progress;
    match what {
        Told::Whole(tuples, _value) => {
            let into = with_count(into, at, tuples.len());
            let outcome = tuples_at(alloc, tuples, at, limit);
            Counted { outcome, into }
        }
        Told::Met(m) => Counted {
            outcome: Outcome::Met(m),
            into,
        },
        Told::Clear(_) => Counted {
            outcome: Outcome::Clean,
            into,
        },
    }
}

// Tuples that all came through, with their keys, where these are found at this limit.
fn groups_at<
    'a,
    I: ItemsKept,
    F: for<'s, 'b> Fn(Global, &BoundExpr, &Env<'s, 'b>) -> Result<Value<'b>, EvalFault>,
>(
    evaluator: &Evaluator<F>,
    at: u32,
    limit: u32,
    keys: &[GroupVar<Slot, BoundExpr>],
    tuples: Vec<Frame<'a>>,
    env: &Env<'_, 'a>,
) -> Result<Outcome<CameOut<'a, I>>, NoMemory>
    requires below { limit ≤ at + 1 }
    requires evaluates { Evaluates env.now.depth (F.pre evaluator.now.inner)
        (F.post evaluator.now.inner) }
    ensures outcome { IfOk result (λ o. OutcomeIs (CameIs I.stands) o (told_below (at + 1) limit
        ((groups_end (eval_in env.now) (bound_group_vars keys.now) (environment_of env.now) at).run
        (tuples_of tuples.entry)))) }
    ensures keys { IfOk result (OutKeyedBy (length keys.now)) }
{
    if limit <= at {
        return Ok(Outcome::Clean);
    }
    match keyed_tuples(evaluator, at, keys, tuples, env)? {
        KeyedTuples::All(keyed) => Ok(Outcome::Whole(CameOut {
            tuples: Vec::new(evaluator.alloc),
            keyed,
            items: I::nothing(evaluator.alloc),
        })),
        KeyedTuples::Met(m) => Ok(Outcome::Met(m)),
    }
}

// What `group by` makes of what was told of the clauses before it.
fn groups_told<
    'a,
    I: ItemsKept,
    F: for<'s, 'b> Fn(Global, &BoundExpr, &Env<'s, 'b>) -> Result<Value<'b>, EvalFault>,
>(
    evaluator: &Evaluator<F>,
    at: u32,
    limit: u32,
    keys: &[GroupVar<Slot, BoundExpr>],
    progress: Progress<'a>,
    env: &Env<'_, 'a>,
) -> Result<Counted<CameOut<'a, I>>, NoMemory>
    requires below { limit ≤ at + 1 }
    requires first { progress.into.first ≤ at }
    requires fits { at < progress.into.first + length progress.into.taken.items }
    requires evaluates { Evaluates env.now.depth (F.pre evaluator.now.inner)
        (F.post evaluator.now.inner) }
    ensures ends { IfOk result (EndsAs (CameIs I.stands) at limit (groups_end (eval_in env.now)
        (bound_group_vars keys.now) (environment_of env.now) at) (passed progress.entry)) }
    ensures keys { IfOk result (λ out. OutKeyedBy (length keys.now) out.outcome) }
    ensures first { IfOk result (λ out. out.into.first ≡ progress.entry.into.first) }
{
    let Progress { what, into } = progress;
    match what {
        Told::Whole(tuples, _value) => {
            let into = with_count(into, at, tuples.len());
            let outcome = groups_at(evaluator, at, limit, keys, tuples, env)?;
            Ok(Counted { outcome, into })
        }
        Told::Met(m) => Ok(Counted {
            outcome: Outcome::Met(m),
            into,
        }),
        Told::Clear(_) => Ok(Counted {
            outcome: Outcome::Clean,
            into,
        }),
    }
}

impl<'q> NarrowSteps<'q> {
    /// The number of the end, which is the last step.
    pub fn last(&self) -> u32
        ensures number { result ≡ self.now.first + length self.now.clauses.now }
        ensures after_one { 0 < self.now.first }
        ensures few { result + 1 < 2 ^ 32 }
    {
        self.first + self.clauses.len() as u32
    }

    // Runs the clauses below a limit, and not the end.
    pub(crate) fn through<
        'a,
        F: for<'s, 'b> Fn(Global, &BoundExpr, &Env<'s, 'b>) -> Result<Value<'b>, EvalFault>,
    >(
        &self,
        evaluator: &Evaluator<F>,
        frames: Vec<Frame<'a>>,
        limit: u32,
        env: &Env<'_, 'a>,
    ) -> Result<Progress<'a>, NoMemory>
        requires evaluates { Evaluates env.now.depth (F.pre evaluator.now.inner)
            (F.post evaluator.now.inner) }
        ensures first { IfOk result (λ p. p.into.first ≡ self.now.first) }
        ensures counts { IfOk result (λ p. length p.into.taken.items
            ≡ length self.now.clauses.now + 1) }
        ensures carry { IfOk result (λ p. (l : ℕ) → l + 1 ≡ self.now.first
            + length self.now.clauses.now → IsCarry self.now.first l
            (run.stage_from (eval_in env.now) self.now.first (bound_clauses self.now.clauses.now)
            None (environment_of env.now)) (tuples_of frames.entry)
            (lower limit (self.now.first + length self.now.clauses.now)) (as_told (run.so_far p))) }
    {
        let below = lower(limit, self.last());
        let progress = evaluator.run_narrow(self.first, self.clauses, None, below, frames, env)?;
        Ok(progress)
    }

    /// What the clauses and `return` make of tuples below a limit.
    pub fn carry_items<
        'a,
        I: ItemsKept,
        F: for<'s, 'b> Fn(Global, &BoundExpr, &Env<'s, 'b>) -> Result<Value<'b>, EvalFault>,
    >(
        &self,
        evaluator: &Evaluator<F>,
        body: &BoundExpr,
        frames: Vec<Frame<'a>>,
        limit: u32,
        env: &Env<'_, 'a>,
    ) -> Result<Counted<CameOut<'a, I>>, NoMemory>
        requires below { limit ≤ self.now.first + length self.now.clauses.now + 1 }
        requires evaluates { Evaluates env.now.depth (F.pre evaluator.now.inner)
            (F.post evaluator.now.inner) }
        ensures outcome { IfOk result (IsOutcomeOf (CameIs I.stands) self.now.first
            (self.now.first + length self.now.clauses.now)
            (ends_in (eval_in env.now) (environment_of env.now) self.now
            (end.items (bound_tree body.now))) (tuples_of frames.entry) limit) }
        ensures first { IfOk result (λ out. out.into.first ≡ self.now.first) }
    {
        let progress = evaluator.run_narrow(
            self.first,
            self.clauses,
            Some(body),
            limit,
            frames,
            env,
        )?;
        let Progress { what, into } = progress;
        let outcome = items_told(evaluator.alloc, what)?;
        Ok(Counted { outcome, into })
    }

    /// What the clauses and `count` make of tuples below a limit. The tuples are not numbered yet.
    pub fn carry_numbers<
        'a,
        I: ItemsKept,
        F: for<'s, 'b> Fn(Global, &BoundExpr, &Env<'s, 'b>) -> Result<Value<'b>, EvalFault>,
    >(
        &self,
        evaluator: &Evaluator<F>,
        frames: Vec<Frame<'a>>,
        limit: u32,
        env: &Env<'_, 'a>,
    ) -> Result<Counted<CameOut<'a, I>>, NoMemory>
        requires below { limit ≤ self.now.first + length self.now.clauses.now + 1 }
        requires evaluates { Evaluates env.now.depth (F.pre evaluator.now.inner)
            (F.post evaluator.now.inner) }
        ensures outcome { IfOk result (IsOutcomeOf (CameIs I.stands) self.now.first
            (self.now.first + length self.now.clauses.now)
            (ends_in (eval_in env.now) (environment_of env.now) self.now end.numbers)
            (tuples_of frames.entry) limit) }
        ensures first { IfOk result (λ out. out.into.first ≡ self.now.first) }
    {
        let progress = self.through(evaluator, frames, limit, env)?;
        Ok(numbers_told(evaluator.alloc, self.last(), limit, progress))
    }

    /// What the clauses and `group by` make of tuples below a limit. The groups are not made yet.
    pub fn carry_groups<
        'a,
        I: ItemsKept,
        F: for<'s, 'b> Fn(Global, &BoundExpr, &Env<'s, 'b>) -> Result<Value<'b>, EvalFault>,
    >(
        &self,
        evaluator: &Evaluator<F>,
        keys: &[GroupVar<Slot, BoundExpr>],
        frames: Vec<Frame<'a>>,
        limit: u32,
        env: &Env<'_, 'a>,
    ) -> Result<Counted<CameOut<'a, I>>, NoMemory>
        requires below { limit ≤ self.now.first + length self.now.clauses.now + 1 }
        requires evaluates { Evaluates env.now.depth (F.pre evaluator.now.inner)
            (F.post evaluator.now.inner) }
        ensures outcome { IfOk result (IsOutcomeOf (CameIs I.stands) self.now.first
            (self.now.first + length self.now.clauses.now)
            (ends_in (eval_in env.now) (environment_of env.now) self.now
            (end.groups (bound_group_vars keys.now))) (tuples_of frames.entry) limit) }
        ensures keys { IfOk result (λ out. OutKeyedBy (length keys.now) out.outcome) }
        ensures first { IfOk result (λ out. out.into.first ≡ self.now.first) }
    {
        let progress = self.through(evaluator, frames, limit, env)?;
        let out = groups_told(evaluator, self.last(), limit, keys, progress, env)?;
        Ok(out)
    }
}
