//! A stage over lines that are lent: its driver gives tuples, and the clauses and the end take
//! these in.

ghost use Rattle.std.specs.Prelude.{◌≡◌, ◌+◌, ◌<◌, ◌≤◌, ℕ, length, IfOk};
ghost use Rattle.query_tree.specs.BoundViews.{bound_order_keys};
ghost use Rattle.query_meaning.specs.inside.Evaluates.{Evaluates};
ghost use Rattle.clause_stages.specs.Drivers.{numbered_lines};
ghost use Rattle.piece_outcomes.specs.Counting.{taken_by};
ghost use Rattle.piece_outcomes.specs.Orders.{IsWide};
ghost use Rattle.piece_run.specs.Driven.{MayBegin, order_stage_of, stage_of};
ghost use Rattle.piece_run.specs.Ordering.{IsOrderOutcomeOf};
ghost use Rattle.piece_run.specs.Outcomes.{CameIs, IsOutcomeOf};
ghost use Rattle.piece_run.specs.Staged.{EndKeyedBy, last_step};

use crate::came::CameOut;
use crate::driver::{Driven, none_taken};
use crate::stage::DrivenStage;
use item_reader::Reader;
use item_tree::NoMemory;
use line_pieces::Lines;
use order_runs::ClassSeen;
use piece_outcomes::{Counted, OrderCounted, OrderOutcome, Outcome};
use piece_seats::ItemsKept;
use query_meaning::{Env, EvalFault, Value};
use query_tree::{BoundExpr, OrderKey};
use std::alloc::Global;

impl<
    'a,
    F: for<'s, 'b> Fn(Global, &BoundExpr, &Env<'s, 'b>) -> Result<Value<'b>, EvalFault>,
> DrivenStage<'a, F> {
    /// What the stage makes of lines below a limit. `first` is the number of the first line among
    /// all lines of the input, from 1, where the `for` has a variable for it.
    #[tactic(auto, using(crate::proofs::DriverTells::clean_keyed, crate::proofs::DriverTells::met_keyed))]
    pub fn of_lines<I: ItemsKept>(
        &self,
        reader: &mut Reader,
        lines: Lines<'_>,
        first: u64,
        limit: u32,
    ) -> Result<Counted<CameOut<'a, I>>, NoMemory>
        requires below { limit ≤ last_step self.now + 1 }
        requires evaluates { Evaluates self.now.depth (F.pre self.now.evaluator.inner)
            (F.post self.now.evaluator.inner) }
        ensures outcome { IfOk result (λ out. (n : ℕ) → MayBegin self.now.binding.at.now first n
            → IsOutcomeOf (CameIs I.stands) self.now.reading (last_step self.now)
            (stage_of self.now) (numbered_lines n lines.entry) limit out) }
        ensures keys { IfOk result (λ out. EndKeyedBy self.now.end out.outcome) }
        ensures before { IfOk result (λ out. (n : ℕ) → n < self.now.reading + 2
            → taken_by out.into n ≡ 0) }
    {
        let alloc = self.evaluator.alloc;
        match self.drive(reader, lines, first, limit)? {
            Driven::Tuples(frames) => self.carry_tuples(frames, limit),
            Driven::Met(met) => Ok(Counted {
                outcome: Outcome::Met(met),
                into: none_taken(alloc, self.reading),
            }),
            Driven::Clean => Ok(Counted {
                outcome: Outcome::Clean,
                into: none_taken(alloc, self.reading),
            }),
        }
    }

    /// The same, where the stage ends in `order by` these keys, and not in its own end: the tuples
    /// with their keys and the classes of these, which are not sorted yet.
    pub fn of_lines_ordered<I: ItemsKept>(
        &self,
        keys: &[OrderKey<BoundExpr>],
        reader: &mut Reader,
        lines: Lines<'_>,
        first: u64,
        limit: u32,
    ) -> Result<OrderCounted<CameOut<'a, I>>, NoMemory>
        requires below { limit ≤ last_step self.now + 1 }
        requires evaluates { Evaluates self.now.depth (F.pre self.now.evaluator.inner)
            (F.post self.now.evaluator.inner) }
        ensures outcome { IfOk result (λ out. (n : ℕ) → MayBegin self.now.binding.at.now first n
            → IsOrderOutcomeOf (CameIs I.stands) self.now.reading (last_step self.now)
            (order_stage_of self.now (bound_order_keys keys.now)) (numbered_lines n lines.entry)
            limit out) }
        ensures wide { IfOk result (λ out. IsWide (length keys.now) out.outcome) }
        ensures before { IfOk result (λ out. (n : ℕ) → n < self.now.reading + 2
            → taken_by out.into n ≡ 0) }
    {
        let alloc = self.evaluator.alloc;
        match self.drive(reader, lines, first, limit)? {
            Driven::Tuples(frames) => self.carry_ordered(keys, frames, limit),
            Driven::Met(met) => {
                let seen = ClassSeen::new(alloc, keys.len())?;
                Ok(OrderCounted {
                    outcome: OrderOutcome::Met(met, seen),
                    into: none_taken(alloc, self.reading),
                })
            }
            Driven::Clean => Ok(OrderCounted {
                outcome: OrderOutcome::Clean,
                into: none_taken(alloc, self.reading),
            }),
        }
    }
}
