//! `group by`.

ghost use Rattle.std.specs.Prelude.{◌≡◌, ◌+◌, ◌++◌, ◌∷◌, [], Ok, length, IfOk};
ghost use Rattle.item_tree.specs.Laws.{IsKey};
ghost use Rattle.group_table.specs.Groups.{group_rows};
ghost use Rattle.query_tree.specs.Bindings.{numbers_of};
ghost use Rattle.query_tree.specs.BoundViews.{bound_clauses, bound_group_var, bound_group_vars};
ghost use Rattle.query_tree.specs.Scoped.{clause_slots};
ghost use Rattle.tuple_rows.specs.Keys.{key_datum, key_list, AllKeys};
ghost use Rattle.query_meaning.specs.Environment.{in_tuple};
ghost use Rattle.query_meaning.specs.Groups.{group_key, group_key_value, group_keys, keyed_tuple, group_tuples, slots_of};
ghost use Rattle.query_meaning.specs.Outcome.{with_front, each_from};
ghost use Rattle.query_meaning.specs.inside.Evaluates.{Evaluates};
ghost use Rattle.query_meaning.specs.inside.Gives.{Gives};
ghost use Rattle.query_meaning.specs.inside.Views.{items_of, environment_of, eval_in};
ghost use Rattle.clause_eval.specs.Frames.{frame_tuple, tuples_of, keyed_of, keyed_list, entries_of};
ghost use Rattle.clause_eval.specs.Grouping.{one_more_key, more_keys, HasKeys, AllHaveKeys};

use crate::clauses::{BoundClause, at_frame};
use crate::evaluator::Evaluator;
use crate::groups::{grouped, numbers_of};
use crate::keys::key_of;
use crate::tuples::{Frame, with_slot};
use crate::variables::var;
use item_tree::Item;
use query_meaning::{Env, EvalFault, Value};
use query_tree::{BoundExpr, GroupVar, Placed, Slot, clause_slots};
use std::alloc::Global;

// The variable of a key.
fn group_key(key: &GroupVar<Slot, BoundExpr>) -> &Placed<Slot>
    ensures { result.now ≡ group_key (bound_group_var key.now) }
{
    match key {
        GroupVar::Stream { variable } => variable,
        GroupVar::Computed { variable, .. } => variable,
    }
}

// One more key.
#[tactic(auto, using(crate::proofs::Keyed::keys_pushed))]
fn with_key(keys: Vec<Option<Item>>, key: Option<Item>) -> Result<Vec<Option<Item>>, EvalFault>
    requires keys { AllKeys (key_list keys) }
    requires key { IsKey (key_datum key) }
    ensures value { Gives key_list result (Ok (key_list keys ++ key_datum key ∷ [])) }
    ensures keys { IfOk result (λ v. AllKeys (key_list v)) }
    ensures count { IfOk result (λ v. length v.items ≡ length keys.items + 1) }
{
    let mut keys = keys;
    keys.push(key)?;
    Ok(keys)
}

// One more tuple with so many keys.
#[tactic(auto, using(crate::proofs::Keyed::have_keys_behind))]
fn with_entry<'a>(
    count: usize,
    entry: (Vec<Option<Item>>, Frame<'a>),
    out: Vec<(Vec<Option<Item>>, Frame<'a>)>,
) -> Result<Vec<(Vec<Option<Item>>, Frame<'a>)>, EvalFault>
    requires entry { HasKeys count entry }
    requires out { AllHaveKeys count out.items }
    ensures value { Gives entries_of result
        (with_front (entries_of out.entry) (Ok (keyed_of entry.entry ∷ []))) }
    ensures keys { IfOk result (λ v. AllHaveKeys count v.items) }
{
    let _count = count;
    let mut out = out;
    out.push(entry)?;
    Ok(out)
}

// The slots of the variables of keys.
fn slots_of(alloc: Global, keys: &[GroupVar<Slot, BoundExpr>]) -> Result<Vec<Slot>, EvalFault>
    ensures { Gives (λ v. v.items) result (Ok (slots_of (bound_group_vars keys.now))) }
{
    let mut slots = Vec::with_capacity(alloc, keys.len())?;
    for key in keys {
        slots.push(group_key(key).name)?;
    }
    Ok(slots)
}

impl<F: for<'s, 'a> Fn(Global, &BoundExpr, &Env<'s, 'a>) -> Result<Value<'a>, EvalFault>> Evaluator<
    F,
> {
    #[tactic(auto, unfolding(query_meaning::specs::Groups::group_key_value))]
    fn group_key_value<'a>(
        &self,
        key: &GroupVar<Slot, BoundExpr>,
        frame: &Frame<'a>,
        env: &Env<'_, 'a>,
    ) -> Result<Value<'a>, EvalFault>
        requires { Evaluates env.now.depth (F.pre self.now.inner) (F.post self.now.inner) }
        ensures { Gives items_of result (group_key_value (eval_in env.now)
            (bound_group_var key.now)
            (in_tuple (environment_of env.now) (frame_tuple frame.now))) }
    {
        match key {
            GroupVar::Stream { variable } => {
                var(self.alloc, variable.name, &at_frame(env, frame))
            }
            GroupVar::Computed { value, .. } => self.in_frame(value, frame, env),
        }
    }

    // One more key of a tuple, behind those that it has.
    #[tactic(auto, unfolding(crate::specs::Grouping::one_more_key))]
    fn one_more_key<'a>(
        &self,
        key: &GroupVar<Slot, BoundExpr>,
        entry: (Vec<Option<Item>>, Frame<'a>),
        env: &Env<'_, 'a>,
    ) -> Result<(Vec<Option<Item>>, Frame<'a>), EvalFault>
        requires keys { AllKeys (key_list entry.0) }
        requires evaluates { Evaluates env.now.depth (F.pre self.now.inner)
            (F.post self.now.inner) }
        ensures value { Gives keyed_of result (one_more_key (eval_in env.now)
            (bound_group_var key.now) (environment_of env.now) (keyed_of entry.entry)) }
        ensures keys { IfOk result (λ e. AllKeys (key_list e.0)) }
        ensures count { IfOk result
            (λ e. length e.0.items ≡ length entry.entry.0.items + 1) }
    {
        let (keys, frame) = entry;
        let value = self.group_key_value(key, &frame, env)?;
        let variable = group_key(key);
        let keys = with_key(keys, key_of(variable.place, value.items())?)?;
        let bound = with_slot(self.alloc, frame, variable.name, value)?;
        Ok((keys, bound))
    }

    // All these keys of a tuple that has none yet.
    fn more_keys<'a>(
        &self,
        keys: &[GroupVar<Slot, BoundExpr>],
        first: (Vec<Option<Item>>, Frame<'a>),
        env: &Env<'_, 'a>,
    ) -> Result<(Vec<Option<Item>>, Frame<'a>), EvalFault>
        requires none { HasKeys 0 first }
        requires evaluates { Evaluates env.now.depth (F.pre self.now.inner)
            (F.post self.now.inner) }
        ensures value { Gives keyed_of result (more_keys (eval_in env.now)
            (bound_group_vars keys.now) (environment_of env.now) (keyed_of first.entry)) }
        ensures keys { IfOk result (HasKeys (length keys.now)) }
    {
        let mut entry = first;
        for key in keys {
            entry = self.one_more_key(key, entry, env)?;
        }
        Ok(entry)
    }

    /// The keys of a tuple, and the tuple in which their variables have their values.
    #[tactic(auto, using(crate::proofs::Keyed::keys_whole))]
    pub fn group_keys<'a>(
        &self,
        keys: &[GroupVar<Slot, BoundExpr>],
        frame: Frame<'a>,
        env: &Env<'_, 'a>,
    ) -> Result<(Vec<Option<Item>>, Frame<'a>), EvalFault>
        requires { Evaluates env.now.depth (F.pre self.now.inner) (F.post self.now.inner) }
        ensures value { Gives keyed_of result (group_keys (eval_in env.now)
            (bound_group_vars keys.now) (environment_of env.now) (frame_tuple frame.entry)) }
        ensures keys { IfOk result (HasKeys (length keys.now)) }
    {
        let found = Vec::with_capacity(self.alloc, keys.len())?;
        self.more_keys(keys, (found, frame), env)
    }

    // The same behind others, where a fault has the clause's number and the tuple's position.
    #[tactic(auto, unfolding(query_meaning::specs::Groups::keyed_tuple))]
    fn keyed_tuple<'a>(
        &self,
        number: u32,
        position: u64,
        keys: &[GroupVar<Slot, BoundExpr>],
        frame: Frame<'a>,
        out: Vec<(Vec<Option<Item>>, Frame<'a>)>,
        env: &Env<'_, 'a>,
    ) -> Result<Vec<(Vec<Option<Item>>, Frame<'a>)>, EvalFault>
        requires out { AllHaveKeys (length keys.now) out.items }
        requires evaluates { Evaluates env.now.depth (F.pre self.now.inner)
            (F.post self.now.inner) }
        ensures value { Gives entries_of result (with_front (entries_of out.entry) (keyed_tuple
            (eval_in env.now) number (bound_group_vars keys.now) (environment_of env.now)
            position (frame_tuple frame.entry))) }
        ensures keys { IfOk result (λ v. AllHaveKeys (length keys.now) v.items) }
    {
        match self.group_keys(keys, frame, env) {
            Ok(entry) => with_entry(keys.len(), entry, out),
            Err(fault) => Err(fault.at_tuple(number, position)),
        }
    }

    // All tuples with their keys.
    fn keyed_tuples<'a>(
        &self,
        number: u32,
        keys: &[GroupVar<Slot, BoundExpr>],
        frames: Vec<Frame<'a>>,
        env: &Env<'_, 'a>,
    ) -> Result<Vec<(Vec<Option<Item>>, Frame<'a>)>, EvalFault>
        requires { Evaluates env.now.depth (F.pre self.now.inner) (F.post self.now.inner) }
        ensures value { Gives entries_of result (each_from (keyed_tuple (eval_in env.now) number
            (bound_group_vars keys.now) (environment_of env.now)) 1 (tuples_of frames.entry)) }
        ensures keys { IfOk result (λ v. AllHaveKeys (length keys.now) v.items) }
    {
        let count = frames.len();
        let mut out = Vec::with_capacity(self.alloc, count)?;
        let mut position = 0;
        for frame in frames {
            position += 1;
            out = self.keyed_tuple(number, position, keys, frame, out, env)?;
        }
        Ok(out)
    }

    /// `group by`, behind these clauses.
    #[tactic(auto, unfolding(query_meaning::specs::Groups::group_tuples))]
    pub(crate) fn group<'a>(
        &self,
        number: u32,
        before: &[BoundClause],
        keys: &[GroupVar<Slot, BoundExpr>],
        frames: Vec<Frame<'a>>,
        env: &Env<'_, 'a>,
    ) -> Result<Vec<Frame<'a>>, EvalFault>
        requires { Evaluates env.now.depth (F.pre self.now.inner) (F.post self.now.inner) }
        ensures { Gives tuples_of result (group_tuples (eval_in env.now) number
            (clause_slots (bound_clauses before.now)) (bound_group_vars keys.now)
            (environment_of env.now) (tuples_of frames.entry)) }
    {
        let entries = self.keyed_tuples(number, keys, frames, env)?;
        self.group_rows(before, keys, entries, env)
    }

    /// The tuples of the groups of these, which have their keys, after these clauses.
    #[tactic(auto, unfolding(query_meaning::specs::inside::Views::environment_of))]
    pub fn group_rows<'a>(
        &self,
        before: &[BoundClause],
        keys: &[GroupVar<Slot, BoundExpr>],
        entries: Vec<(Vec<Option<Item>>, Frame<'a>)>,
        env: &Env<'_, 'a>,
    ) -> Result<Vec<Frame<'a>>, EvalFault>
        requires { AllHaveKeys (length keys.now) entries.items }
        ensures { Gives tuples_of result (Ok (group_rows (length (environment_of env.now).frame)
            (numbers_of (slots_of (bound_group_vars keys.now)))
            (numbers_of (clause_slots (bound_clauses before.now))) (entries_of entries.entry))) }
    {
        let stream = clause_slots(self.alloc, before)?;
        let joined = numbers_of(self.alloc, stream.as_slice())?;
        let slots = slots_of(self.alloc, keys)?;
        let numbers = numbers_of(self.alloc, slots.as_slice())?;
        let width = env.frame.len();
        grouped(
            self.alloc,
            env.seed,
            keys.len(),
            width,
            joined.as_slice(),
            numbers.as_slice(),
            entries,
        )
    }
}
