//! Clauses of a FLWOR tuple by tuple: each tuple goes through all of them before the next one does.
//! Behind a fault only the clauses before the faulty one are run, since their faults go first.

ghost use Rattle.std.specs.Prelude.{◌≡◌, ◌+◌, ◌++◌, ◌<◌, ◌≤◌, ◌^◌, ◌∷◌, [], length, reverse, OnOk, IfOk};
ghost use Rattle.query_tree.specs.BoundViews.{bound_tree, bound_clause};
ghost use Rattle.query_meaning.specs.Clauses.{let_tuples, where_tuples};
ghost use Rattle.query_meaning.specs.inside.Evaluates.{Evaluates};
ghost use Rattle.query_meaning.specs.inside.Gives.{Gives};
ghost use Rattle.query_meaning.specs.inside.Views.{environment_of, eval_in};
ghost use Rattle.clause_eval.specs.Frames.{frame_tuple, frame_tuples, tuples_of};
ghost use Rattle.clause_eval.specs.OneByOne.{tuples_at};
ghost use Rattle.clause_eval.specs.Carrying.{body_tree, given_tuples, Stepped, returned, Returned, Carries};
ghost use Rattle.clause_eval.specs.Waits.{wait_of, waits_of, waits_at, AllWithin, Advanced, Turned};

use crate::checks::typed;
use crate::clauses::BoundClause;
use crate::evaluator::Evaluator;
use crate::progress::{Given, Progress, Told, count, is_held, put_items, put_tuple};
use crate::tuples::{Frame, with_slot};
use crate::waiting::{Waiting, with_given, with_left};
use item_tree::NoMemory;
use piece_outcomes::MetFault;
use query_meaning::{Env, EvalFault, Value};
use query_tree::{BoundExpr, Clause, Placed, Slot};
use seq_types::SeqType;
use std::alloc::Global;

impl<F: for<'s, 'a> Fn(Global, &BoundExpr, &Env<'s, 'a>) -> Result<Value<'a>, EvalFault>> Evaluator<
    F,
> {
    // What a `let` gives for a tuple.
    #[tactic(auto, unfolding(query_meaning::specs::Clauses::let_tuples))]
    #[inline(never)]
    fn let_given<'a>(
        &self,
        variable: &Placed<Slot>,
        of: &Option<Placed<SeqType>>,
        e: &BoundExpr,
        frame: Frame<'a>,
        env: &Env<'_, 'a>,
    ) -> Result<Given<'a>, EvalFault>
        requires { Evaluates env.now.depth (F.pre self.now.inner) (F.post self.now.inner) }
        ensures { Gives given_tuples result (let_tuples (eval_in env.now) variable.now of.now
            (bound_tree e.now) (environment_of env.now) (frame_tuple frame.entry)) }
    {
        let value = self.in_frame(e, &frame, env)?;
        let checked = typed(variable.place, of, value)?;
        let bound = with_slot(self.alloc, frame, variable.name, checked)?;
        Ok(Given::One(bound))
    }

    // What a `where` gives for a tuple.
    #[tactic(auto, unfolding(query_meaning::specs::Clauses::where_tuples))]
    #[inline(never)]
    fn where_given<'a>(
        &self,
        test: &BoundExpr,
        frame: Frame<'a>,
        env: &Env<'_, 'a>,
    ) -> Result<Given<'a>, EvalFault>
        requires { Evaluates env.now.depth (F.pre self.now.inner) (F.post self.now.inner) }
        ensures { Gives given_tuples result (where_tuples (eval_in env.now) (bound_tree test.now)
            (environment_of env.now) (frame_tuple frame.entry)) }
    {
        if self.truth_in_frame(test, &frame, env)? {
            Ok(Given::One(frame))
        } else {
            Ok(Given::Many(Vec::new(self.alloc)))
        }
    }

    // What a clause gives for a tuple, as a list of tuples.
    fn many_given<'a>(
        &self,
        clause: &BoundClause,
        frame: Frame<'a>,
        env: &Env<'_, 'a>,
    ) -> Result<Given<'a>, EvalFault>
        requires { Evaluates env.now.depth (F.pre self.now.inner) (F.post self.now.inner) }
        ensures { Gives given_tuples result (tuples_at (eval_in env.now) (bound_clause clause.now)
            (environment_of env.now) 0 (frame_tuple frame.entry)) }
    {
        let frames = self.tuples_at(clause, 0, frame, Vec::new(self.alloc), env)?;
        Ok(Given::Many(frames))
    }

    // What a clause gives for a tuple, wherever this stands.
    #[tactic(auto, using(query_tree::proofs::Layers::layers))]
    fn given<'a>(
        &self,
        clause: &BoundClause,
        frame: Frame<'a>,
        env: &Env<'_, 'a>,
    ) -> Result<Given<'a>, EvalFault>
        requires { Evaluates env.now.depth (F.pre self.now.inner) (F.post self.now.inner) }
        ensures { Gives given_tuples result (tuples_at (eval_in env.now) (bound_clause clause.now)
            (environment_of env.now) 0 (frame_tuple frame.entry)) }
    {
        match clause {
            Clause::Let {
                variable,
                of,
                value,
            } => self.let_given(variable, of, value, frame, env),
            Clause::Where { test, .. } => self.where_given(test, frame, env),
            Clause::For { .. } => self.many_given(clause, frame, env),
            Clause::Count { .. } => self.many_given(clause, frame, env),
            Clause::Group { .. } => self.many_given(clause, frame, env),
            Clause::Order { .. } => self.many_given(clause, frame, env),
        }
    }

    // One tuple more at a clause: what it gives goes on, unless the clause is not run any more.
    fn clause_step<'a>(
        &self,
        number: u32,
        clause: &BoundClause,
        frame: Frame<'a>,
        progress: &mut Progress<'a>,
        env: &Env<'_, 'a>,
    ) -> Result<Option<Given<'a>>, NoMemory>
        requires first { progress.old.into.first ≤ number }
        requires fits { number < progress.old.into.first + length progress.old.into.taken.items }
        requires evaluates { Evaluates env.now.depth (F.pre self.now.inner)
            (F.post self.now.inner) }
        ensures { IfOk result (λ r. Stepped number (tuples_at (eval_in env.now)
            (bound_clause clause.now) (environment_of env.now) 0 (frame_tuple frame.entry))
            progress.old progress.new r) }
    {
        let tuple = count(number, progress)?;
        if is_held(&progress.what, number) {
            return Ok(None);
        }
        match self.given(clause, frame, env) {
            Ok(given) => Ok(Some(given)),
            Err(EvalFault::Raised(fault)) => {
                progress.what = Told::Met(MetFault {
                    step: number,
                    tuple,
                    fault,
                });
                Ok(None)
            }
            Err(EvalFault::NoMemory) => Err(NoMemory),
        }
    }

    // One tuple more at `return`.
    #[inline(never)]
    fn return_step<'a>(
        &self,
        number: u32,
        body: &BoundExpr,
        frame: &Frame<'a>,
        progress: &mut Progress<'a>,
        env: &Env<'_, 'a>,
    ) -> Result<(), NoMemory>
        requires first { progress.old.into.first ≤ number }
        requires fits { number < progress.old.into.first + length progress.old.into.taken.items }
        requires evaluates { Evaluates env.now.depth (F.pre self.now.inner)
            (F.post self.now.inner) }
        ensures { OnOk result (Returned number (returned (eval_in env.now) (bound_tree body.now)
            (environment_of env.now) (frame_tuple frame.now)) progress.old progress.new) }
    {
        let place = count(number, progress)?;
        if is_held(&progress.what, number) {
            return Ok(());
        }
        match self.in_frame(body, frame, env) {
            Ok(value) => put_items(self.alloc, value, progress),
            Err(EvalFault::Raised(fault)) => {
                progress.what = Told::Met(MetFault {
                    step: number,
                    tuple: place,
                    fault,
                });
                Ok(())
            }
            Err(EvalFault::NoMemory) => Err(NoMemory),
        }
    }

    // Carries a tuple behind the last clause.
    fn carry_out<'a>(
        &self,
        number: u32,
        body: Option<&BoundExpr>,
        frame: Frame<'a>,
        progress: &mut Progress<'a>,
        env: &Env<'_, 'a>,
    ) -> Result<(), NoMemory>
        requires first { progress.old.into.first ≤ number }
        requires fits { number < progress.old.into.first + length progress.old.into.taken.items }
        requires evaluates { Evaluates env.now.depth (F.pre self.now.inner)
            (F.post self.now.inner) }
        ensures { OnOk result (Carries (eval_in env.now) (environment_of env.now) number []
            (body_tree body.entry) (frame_tuple frame.entry ∷ []) progress.old progress.new) }
    {
        match body {
            None => put_tuple(frame, progress),
            Some(body) => self.return_step(number, body, &frame, progress, env),
        }
    }

    // The tuple that goes on next takes one step.
    fn carry_next<'a>(
        &self,
        number: u32,
        clauses: &[BoundClause],
        body: Option<&BoundExpr>,
        passed: usize,
        frame: Frame<'a>,
        others: Vec<Waiting<'a>>,
        progress: &mut Progress<'a>,
        env: &Env<'_, 'a>,
    ) -> Result<Vec<Waiting<'a>>, NoMemory>
        requires count { number + length clauses.now < 2 ^ 32 }
        requires within { passed ≤ length clauses.now }
        requires first { progress.old.into.first ≤ number }
        requires fits { number + length clauses.now
            < progress.old.into.first + length progress.old.into.taken.items }
        requires evaluates { Evaluates env.now.depth (F.pre self.now.inner)
            (F.post self.now.inner) }
        ensures step { IfOk result (λ v. Advanced (eval_in env.now) (environment_of env.now) number
            clauses.now (body_tree body.entry) (passed, frame_tuple frame.entry)
            (waits_of others.entry.items) (waits_of v.items) progress.old progress.new) }
        ensures lists { IfOk result (λ v. length v.items ≤ length others.entry.items + 1) }
    {
        let at = number + passed as u32;
        if passed == clauses.len() {
            self.carry_out(at, body, frame, progress, env)?;
            return Ok(others);
        }
        match self.clause_step(at, &clauses[passed], frame, progress, env)? {
            None => Ok(others),
            Some(given) => with_given(passed + 1, given, others),
        }
    }

    // The next tuple of a list takes one step. Of the list the last one is the next.
    fn carry_many<'a>(
        &self,
        number: u32,
        clauses: &[BoundClause],
        body: Option<&BoundExpr>,
        passed: usize,
        frames: Vec<Frame<'a>>,
        others: Vec<Waiting<'a>>,
        progress: &mut Progress<'a>,
        env: &Env<'_, 'a>,
    ) -> Result<Vec<Waiting<'a>>, NoMemory>
        requires count { number + length clauses.now < 2 ^ 32 }
        requires within { AllWithin (length clauses.now) (waits_at passed
            (frame_tuples (reverse frames.items))) }
        requires first { progress.old.into.first ≤ number }
        requires fits { number + length clauses.now
            < progress.old.into.first + length progress.old.into.taken.items }
        requires evaluates { Evaluates env.now.depth (F.pre self.now.inner)
            (F.post self.now.inner) }
        ensures { IfOk result (λ v. Turned (eval_in env.now) (environment_of env.now) number
            clauses.now (body_tree body.entry)
            (waits_at passed (frame_tuples (reverse frames.entry.items))
            ++ waits_of others.entry.items) (length others.entry.items + 1) (waits_of v.items)
            (length v.items) progress.old progress.new) }
    {
        let mut left = frames;
        match left.pop() {
            None => Ok(others),
            Some(frame) => {
                let behind = with_left(passed, left, others)?;
                self.carry_next(number, clauses, body, passed, frame, behind, progress, env)
            }
        }
    }

    // What waits on top goes on.
    fn carry_top<'a>(
        &self,
        number: u32,
        clauses: &[BoundClause],
        body: Option<&BoundExpr>,
        top: Waiting<'a>,
        others: Vec<Waiting<'a>>,
        progress: &mut Progress<'a>,
        env: &Env<'_, 'a>,
    ) -> Result<Vec<Waiting<'a>>, NoMemory>
        requires count { number + length clauses.now < 2 ^ 32 }
        requires within { AllWithin (length clauses.now) (wait_of top) }
        requires first { progress.old.into.first ≤ number }
        requires fits { number + length clauses.now
            < progress.old.into.first + length progress.old.into.taken.items }
        requires evaluates { Evaluates env.now.depth (F.pre self.now.inner)
            (F.post self.now.inner) }
        ensures { IfOk result (λ v. Turned (eval_in env.now) (environment_of env.now) number
            clauses.now (body_tree body.entry) (wait_of top.entry ++ waits_of others.entry.items)
            (length others.entry.items + 1) (waits_of v.items) (length v.items) progress.old
            progress.new) }
    {
        let Waiting { passed, given } = top;
        match given {
            Given::One(frame) => {
                self.carry_next(number, clauses, body, passed, frame, others, progress, env)
            }
            Given::Many(frames) => {
                self.carry_many(number, clauses, body, passed, frames, others, progress, env)
            }
        }
    }

    // Carries a tuple through the clauses from this number on. The list that it is given for what
    // waits is empty, and comes back empty.
    fn carry_one<'a>(
        &self,
        number: u32,
        clauses: &[BoundClause],
        body: Option<&BoundExpr>,
        frame: Frame<'a>,
        room: Vec<Waiting<'a>>,
        progress: &mut Progress<'a>,
        env: &Env<'_, 'a>,
    ) -> Result<Vec<Waiting<'a>>, NoMemory>
        requires room { length room.items ≡ 0 }
        requires count { number + length clauses.now < 2 ^ 32 }
        requires first { progress.old.into.first ≤ number }
        requires fits { number + length clauses.now
            < progress.old.into.first + length progress.old.into.taken.items }
        requires evaluates { Evaluates env.now.depth (F.pre self.now.inner)
            (F.post self.now.inner) }
        ensures room { IfOk result (λ v. length v.items ≡ 0) }
        ensures carries { IfOk result (λ v. Carries (eval_in env.now) (environment_of env.now)
            number clauses.now (body_tree body.entry) (frame_tuple frame.entry ∷ []) progress.old
            progress.new) }
    {
        let mut waiting = with_given(0, Given::One(frame), room)?;
        while let Some(top) = waiting.pop() {
            waiting = self.carry_top(number, clauses, body, top, waiting, progress, env)?;
        }
        Ok(waiting)
    }

    /// Carries tuples through the clauses from this number on, each through all of them before the
    /// next one.
    pub(crate) fn carry_all<'a>(
        &self,
        number: u32,
        clauses: &[BoundClause],
        body: Option<&BoundExpr>,
        frames: Vec<Frame<'a>>,
        progress: &mut Progress<'a>,
        env: &Env<'_, 'a>,
    ) -> Result<(), NoMemory>
        requires count { number + length clauses.now < 2 ^ 32 }
        requires first { progress.old.into.first ≤ number }
        requires fits { number + length clauses.now
            < progress.old.into.first + length progress.old.into.taken.items }
        requires evaluates { Evaluates env.now.depth (F.pre self.now.inner)
            (F.post self.now.inner) }
        ensures { OnOk result (Carries (eval_in env.now) (environment_of env.now) number clauses.now
            (body_tree body.entry) (tuples_of frames.entry) progress.old progress.new) }
    {
        let mut room = Vec::new(self.alloc);
        for frame in frames {
            room = self.carry_one(number, clauses, body, frame, room, progress, env)?;
        }
        Ok(())
    }
}
