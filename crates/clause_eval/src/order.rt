//! `order by`.

ghost use Rattle.std.specs.Prelude.{◌≡◌, ◌++◌, ◌∷◌, [], List, Ok, length, get_or, IfOk};
ghost use Rattle.query_tree.specs.BoundViews.{bound_tree, bound_order_key, bound_order_keys};
ghost use Rattle.order_runs.specs.Clashes.{clash_column};
ghost use Rattle.order_runs.specs.Orders.{key_lists};
ghost use Rattle.order_runs.specs.Seen.{SeenStandsFor};
ghost use Rattle.tuple_rows.specs.Keys.{KeyList, key_datum, key_data, key_list};
ghost use Rattle.query_meaning.specs.Environment.{in_tuple, place_of};
ghost use Rattle.query_meaning.specs.Orders.{order_keys, column_places, compared_keys, keyed_from, order_tuples};
ghost use Rattle.query_meaning.specs.Outcome.{with_front, at_tuple};
ghost use Rattle.query_meaning.specs.inside.Evaluates.{Evaluates};
ghost use Rattle.query_meaning.specs.inside.Gives.{Gives};
ghost use Rattle.query_meaning.specs.inside.Views.{environment_of, eval_in};
ghost use Rattle.clause_eval.specs.Frames.{frame_tuple, tuples_of, keyed_list};
ghost use Rattle.clause_eval.specs.Ordering.{order_key, keyed_at, clashing_column, IsSorting};

use crate::clauses::at_frame;
use crate::evaluator::Evaluator;
use crate::keys::key_of;
use crate::sorting::ordered_rows;
use crate::tuples::Frame;
use item_tree::{Code, Item};
use order_runs::ClassSeen;
use query_meaning::{Env, EvalFault, Value};
use query_tree::{BoundExpr, OrderKey};
use std::alloc::Global;

/// Tuples with their keys, and the classes of the keys.
#[derive(Drop)]
struct Sorting<'a> {
    entries: Vec<(Vec<Option<Item>>, Frame<'a>)>,
    seen: ClassSeen,
}

// The place of an expression's first token.
#[tactic(auto, using(query_tree::proofs::Layers::layers))]
fn first_place(e: &BoundExpr) -> u32
    ensures { result ≡ place_of (bound_tree e.now) }
{
    e.place
}

// The place of a column.
fn column_place(keys: &[OrderKey<BoundExpr>], column: u32) -> u32
    ensures { result ≡ get_or (column_places (bound_order_keys keys.now)) column 0 }
{
    let mut left = column;
    for key in keys {
        if left == 0 {
            return first_place(&key.value);
        }
        left -= 1;
    }
    0
}

/// The places of all columns, in order.
pub fn column_places(alloc: Global, keys: &[OrderKey<BoundExpr>]) -> Result<Vec<u32>, EvalFault>
    ensures { Gives (λ v. v.items) result (Ok (column_places (bound_order_keys keys.now))) }
{
    let mut places = Vec::with_capacity(alloc, keys.len())?;
    for key in keys {
        places.push(first_place(&key.value))?;
    }
    Ok(places)
}

fn column_of(clash: Option<(u64, u32)>) -> Option<u32>
    ensures { result ≡ clashing_column clash }
{
    match clash {
        None => None,
        Some((_, column)) => Some(column),
    }
}

/// The first column in which these keys clash in class with keys before them.
pub fn clash(
    alloc: Global,
    keys: &[Option<Item>],
    before: &ClassSeen,
) -> Result<Option<u32>, EvalFault>
    requires { length before.now.columns ≡ length keys.now }
    ensures { (B : List KeyList) → SeenStandsFor before.now B
        → Gives (λ o. o) result (Ok (clash_column B (key_data keys.now))) }
{
    let mut own = ClassSeen::new(alloc, keys.len())?;
    own.note(keys);
    Ok(column_of(own.clash_after(before)))
}

// One more tuple with its keys, whose classes go with those before them.
fn noted<'a>(
    keys: Vec<Option<Item>>,
    frame: Frame<'a>,
    sorting: Sorting<'a>,
) -> Result<Sorting<'a>, EvalFault>
    requires { IsSorting (length keys.items) sorting }
    ensures entries { Gives (λ s. keyed_list s.entries.items) result
        (Ok (keyed_list sorting.entry.entries.items ++ (key_list keys, frame_tuple frame.entry) ∷
        [])) }
    ensures stands { IfOk result (λ s. IsSorting (length keys.items) s) }
{
    let Sorting {
        mut entries,
        mut seen,
    } = sorting;
    if seen.tuples() + 1 >= ClassSeen::MOST_TUPLES {
        return Err(EvalFault::NoMemory);
    }
    seen.note(keys.as_slice());
    entries.push((keys, frame))?;
    Ok(Sorting { entries, seen })
}

impl<F: for<'s, 'a> Fn(Global, &BoundExpr, &Env<'s, 'a>) -> Result<Value<'a>, EvalFault>> Evaluator<
    F,
> {
    // A key of a tuple.
    fn order_key(
        &self,
        key: &OrderKey<BoundExpr>,
        frame: &Frame<'_>,
        env: &Env<'_, '_>,
    ) -> Result<Option<Item>, EvalFault>
        requires { Evaluates env.now.depth (F.pre self.now.inner) (F.post self.now.inner) }
        ensures { Gives key_datum result (order_key (eval_in env.now) (bound_order_key key.now)
            (in_tuple (environment_of env.now) (frame_tuple frame.now))) }
    {
        let value = self.of(&key.value, &at_frame(env, frame))?;
        key_of(first_place(&key.value), value.items())
    }

    /// The keys of a tuple, which are not compared with others.
    #[tactic(auto, using(crate::proofs::Ordered::front_key))]
    pub fn order_keys(
        &self,
        keys: &[OrderKey<BoundExpr>],
        frame: &Frame<'_>,
        env: &Env<'_, '_>,
    ) -> Result<Vec<Option<Item>>, EvalFault>
        requires { Evaluates env.now.depth (F.pre self.now.inner) (F.post self.now.inner) }
        ensures value { Gives key_list result (order_keys (eval_in env.now)
            (bound_order_keys keys.now)
            (in_tuple (environment_of env.now) (frame_tuple frame.now))) }
        ensures count { IfOk result (λ v. length v.items ≡ length keys.now) }
    {
        let mut found = Vec::with_capacity(self.alloc, keys.len())?;
        for key in keys {
            found.push(self.order_key(key, frame, env)?)?;
        }
        Ok(found)
    }

    // The same, where their classes go with those of the tuples before this one.
    #[tactic(auto, unfolding(query_meaning::specs::Orders::compared_keys))]
    fn compared_keys(
        &self,
        keys: &[OrderKey<BoundExpr>],
        before: &ClassSeen,
        frame: &Frame<'_>,
        env: &Env<'_, '_>,
    ) -> Result<Vec<Option<Item>>, EvalFault>
        requires count { length before.now.columns ≡ length keys.now }
        requires evaluates { Evaluates env.now.depth (F.pre self.now.inner)
            (F.post self.now.inner) }
        ensures value { (B : List KeyList) → SeenStandsFor before.now B
            → Gives key_list result (compared_keys (eval_in env.now) (bound_order_keys keys.now) B
            (in_tuple (environment_of env.now) (frame_tuple frame.now))) }
        ensures count { IfOk result (λ v. length v.items ≡ length keys.now) }
    {
        let found = self.order_keys(keys, frame, env)?;
        match clash(self.alloc, found.as_slice(), before)? {
            None => Ok(found),
            Some(column) => {
                let place = column_place(keys, column);
                Err(EvalFault::raised(Code::XPTY0004, place))
            }
        }
    }

    // The same, where a fault has the clause's number and the tuple's position.
    fn keys_at(
        &self,
        number: u32,
        position: u64,
        keys: &[OrderKey<BoundExpr>],
        before: &ClassSeen,
        frame: &Frame<'_>,
        env: &Env<'_, '_>,
    ) -> Result<Vec<Option<Item>>, EvalFault>
        requires count { length before.now.columns ≡ length keys.now }
        requires evaluates { Evaluates env.now.depth (F.pre self.now.inner)
            (F.post self.now.inner) }
        ensures value { (B : List KeyList) → SeenStandsFor before.now B
            → Gives key_list result (at_tuple number position (compared_keys (eval_in env.now)
            (bound_order_keys keys.now) B
            (in_tuple (environment_of env.now) (frame_tuple frame.now)))) }
        ensures count { IfOk result (λ v. length v.items ≡ length keys.now) }
    {
        match self.compared_keys(keys, before, frame, env) {
            Ok(found) => Ok(found),
            Err(fault) => Err(fault.at_tuple(number, position)),
        }
    }

    // One more tuple with its keys.
    #[tactic(auto, unfolding(crate::specs::Ordering::keyed_at))]
    fn keyed_at<'a>(
        &self,
        number: u32,
        position: u64,
        keys: &[OrderKey<BoundExpr>],
        frame: Frame<'a>,
        sorting: Sorting<'a>,
        env: &Env<'_, 'a>,
    ) -> Result<Sorting<'a>, EvalFault>
        requires stands { IsSorting (length keys.now) sorting }
        requires evaluates { Evaluates env.now.depth (F.pre self.now.inner)
            (F.post self.now.inner) }
        ensures value { Gives (λ s. keyed_list s.entries.items) result
            (with_front (keyed_list sorting.entry.entries.items) (keyed_at (eval_in env.now) number
            (bound_order_keys keys.now) (environment_of env.now)
            (key_lists (keyed_list sorting.entry.entries.items)) position
            (frame_tuple frame.entry))) }
        ensures stands { IfOk result (λ s. IsSorting (length keys.now) s) }
    {
        let found = self.keys_at(number, position, keys, &sorting.seen, &frame, env)?;
        noted(found, frame, sorting)
    }

    // The tuples with their keys.
    #[tactic(auto, using(crate::proofs::Ordered::keyed_next))]
    fn keyed<'a>(
        &self,
        number: u32,
        keys: &[OrderKey<BoundExpr>],
        frames: Vec<Frame<'a>>,
        env: &Env<'_, 'a>,
    ) -> Result<Sorting<'a>, EvalFault>
        requires { Evaluates env.now.depth (F.pre self.now.inner) (F.post self.now.inner) }
        ensures { Gives (λ s. keyed_list s.entries.items) result (keyed_from (eval_in env.now)
            number (bound_order_keys keys.now) (environment_of env.now) [] 1
            (tuples_of frames.entry)) }
    {
        let count = frames.len();
        let mut sorting = Sorting {
            entries: Vec::with_capacity(self.alloc, count)?,
            seen: ClassSeen::new(self.alloc, keys.len())?,
        };
        let mut position = 0;
        for frame in frames {
            position += 1;
            sorting = self.keyed_at(number, position, keys, frame, sorting, env)?;
        }
        Ok(sorting)
    }

    /// `order by`
    #[tactic(auto, unfolding(query_meaning::specs::Orders::order_tuples))]
    pub(crate) fn order<'a>(
        &self,
        number: u32,
        keys: &[OrderKey<BoundExpr>],
        frames: Vec<Frame<'a>>,
        env: &Env<'_, 'a>,
    ) -> Result<Vec<Frame<'a>>, EvalFault>
        requires { Evaluates env.now.depth (F.pre self.now.inner) (F.post self.now.inner) }
        ensures { Gives tuples_of result (order_tuples (eval_in env.now) number
            (bound_order_keys keys.now) (environment_of env.now) (tuples_of frames.entry)) }
    {
        let sorting = self.keyed(number, keys, frames, env)?;
        ordered_rows(self.alloc, keys, sorting.entries)
    }
}
