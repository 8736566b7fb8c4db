//! What the ends of stages give, of all that was gathered. A fault of reading is met in the step
//! before the `for`, and names the `for`.

ghost use Rattle.std.specs.Prelude.{◌≡◌, Ok, List, Result, length};
ghost use Rattle.item_tree.specs.declared.fault.Fault.{Fault};
ghost use Rattle.tuple_rows.specs.Keys.{KeyList, Keyed};
ghost use Rattle.query_tree.specs.BoundViews.{bound_clauses, bound_group_vars, bound_order_keys};
ghost use Rattle.query_tree.specs.Scoped.{clause_slots};
ghost use Rattle.query_meaning.specs.inside.Gives.{Gives};
ghost use Rattle.query_meaning.specs.inside.Views.{environment_of};
ghost use Rattle.stage_laws.specs.Runs.{Met};
ghost use Rattle.stage_laws.specs.Ends.{ended_by};
ghost use Rattle.clause_stages.specs.Drivers.{driver_marked};
ghost use Rattle.clause_stages.specs.Ends.{numbered, grouped, in_key_order};
ghost use Rattle.clause_eval.specs.Frames.{tuples_of};
ghost use Rattle.piece_outcomes.specs.Came.{Came, Seen};
ghost use Rattle.piece_outcomes.specs.Counting.{met_of};
ghost use Rattle.piece_outcomes.specs.Outcomes.{ResultIs};
ghost use Rattle.piece_outcomes.specs.Orders as orders;
ghost use Rattle.piece_run.specs.Outcomes.{CameIs};
ghost use Rattle.piece_run.specs.Keying.{GatheredKeyedBy};
ghost use Rattle.piece_run.specs.Kept.{KeptIs, IsUnread};

use crate::came::CameOut;
use crate::leaf_fault::LeafFault;
use clause_eval::{BoundClause, Evaluator, Frame, numbered_rows, ordered_rows};
use item_tree::Fault;
use piece_outcomes::{Gathered, MetFault};
use piece_seats::ItemsKept;
use query_meaning::{Env, EvalFault, Value};
use query_tree::{BoundExpr, GroupVar, OrderKey, Placed, Slot};
use std::alloc::Global;

// A fault that was met, which names its clause and the tuple there. One before the clause of this
// number names that clause.
fn fault_from(first: u32, met: MetFault) -> Fault
    ensures { result ≡ driver_marked {K = Seen} first (met_of met) }
{
    let step = if met.step < first { first } else { met.step };
    let at = MetFault {
        step,
        tuple: met.tuple,
        fault: met.fault,
    };
    at.marked()
}

/// What `return` gives: what is kept of all items, or the fault.
pub fn finish_items<I: ItemsKept>(
    first: u32,
    gathered: Gathered<CameOut<'_, I>>,
) -> Result<I, LeafFault>
    ensures value { (r : Result Came (Met Seen Fault)) → ResultIs (CameIs I.stands) gathered.entry r
        → KeptIs I.stands result (ended_by (driver_marked first) (λ w. Ok w.items) r) }
    ensures cause { IsUnread result → ⊥ }
{
    match gathered {
        Gathered::Whole(came) => {
            let CameOut {
                tuples: _tuples,
                keyed: _keyed,
                items,
            } = came;
            Ok(items)
        }
        Gathered::Met(met) => Err(LeafFault::Raised(fault_from(first, met))),
    }
}

/// What `count` gives: each tuple with its number, as the value of a variable; or the fault.
pub fn finish_numbers<'a, I: ItemsKept>(
    alloc: Global,
    first: u32,
    variable: &Placed<Slot>,
    gathered: Gathered<CameOut<'a, I>>,
) -> Result<Vec<Frame<'a>>, EvalFault>
    ensures { (r : Result Came (Met Seen Fault)) → ResultIs (CameIs I.stands) gathered.entry r
        → Gives tuples_of result
        (ended_by (driver_marked first) (λ w. Ok (numbered variable.now w.tuples)) r) }
{
    match gathered {
        Gathered::Whole(came) => {
            let CameOut {
                tuples,
                keyed: _keyed,
                items: _items,
            } = came;
            numbered_rows(alloc, variable, tuples)
        }
        Gathered::Met(met) => Err(EvalFault::Raised(fault_from(first, met))),
    }
}

/// What `group by` after these clauses gives: the tuples of the groups, or the fault.
pub fn finish_groups<
    'a,
    I: ItemsKept,
    F: for<'s, 'b> Fn(Global, &BoundExpr, &Env<'s, 'b>) -> Result<Value<'b>, EvalFault>,
>(
    evaluator: &Evaluator<F>,
    first: u32,
    before: &[BoundClause],
    keys: &[GroupVar<Slot, BoundExpr>],
    gathered: Gathered<CameOut<'a, I>>,
    env: &Env<'_, 'a>,
) -> Result<Vec<Frame<'a>>, EvalFault>
    requires { GatheredKeyedBy (length keys.now) gathered }
    ensures { (r : Result Came (Met Seen Fault)) → ResultIs (CameIs I.stands) gathered.entry r
        → Gives tuples_of result (ended_by (driver_marked first)
        (λ w. Ok (grouped (bound_group_vars keys.now) (environment_of env.now)
        (clause_slots (bound_clauses before.now)) w.keyed)) r) }
{
    match gathered {
        Gathered::Whole(came) => {
            let CameOut {
                tuples: _tuples,
                keyed,
                items: _items,
            } = came;
            evaluator.group_rows(before, keys, keyed, env)
        }
        Gathered::Met(met) => Err(EvalFault::Raised(fault_from(first, met))),
    }
}

/// What `order by` gives: the tuples in the order of their keys, or the fault.
pub fn finish_order<'a, I: ItemsKept>(
    alloc: Global,
    first: u32,
    keys: &[OrderKey<BoundExpr>],
    gathered: Gathered<CameOut<'a, I>>,
) -> Result<Vec<Frame<'a>>, EvalFault>
    ensures { (r : Result (List Keyed) (Met KeyList Fault))
        → orders.ResultIs (CameIs I.stands) gathered.entry r
        → Gives tuples_of result (ended_by (driver_marked first)
        (λ ks. Ok (in_key_order (bound_order_keys keys.now) ks)) r) }
{
    match gathered {
        Gathered::Whole(came) => {
            let CameOut {
                tuples: _tuples,
                keyed,
                items: _items,
            } = came;
            ordered_rows(alloc, keys, keyed)
        }
        Gathered::Met(met) => Err(EvalFault::Raised(fault_from(first, met))),
    }
}
