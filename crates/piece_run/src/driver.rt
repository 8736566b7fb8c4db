//! The two steps of a driver: lines are read, and their items are bound by the `for`.

ghost use Rattle.std.specs.Prelude.{◌≡◌, ◌<◌, ℕ, Ok, IfOk};
ghost use Rattle.query_meaning.specs.inside.Views.{values_of};
ghost use Rattle.piece_outcomes.specs.Counting.{taken_by};
ghost use Rattle.piece_run.specs.DriverGives.{GivesBelow, read_lines};

use crate::reading::read_items;
use crate::stage::DrivenStage;
use clause_eval::{Frame, bind_items};
use item_reader::Reader;
use item_tree::{Item, NoMemory};
use line_pieces::Lines;
use piece_outcomes::{Counts, MetFault};
use query_meaning::EvalFault;
use std::alloc::Global;

/// What the steps of a driver give below a limit: the tuples of its `for`, or the fault of a step;
/// or neither, where the limit is not past both steps and none below it faults.
#[derive(Drop)]
pub(crate) enum Driven<'a> {
    Tuples(Vec<Frame<'a>>),
    Met(MetFault),
    Clean,
}

// No step took in a tuple.
pub(crate) fn none_taken(alloc: Global, first: u32) -> Counts
    ensures { (n : ℕ) → taken_by result n ≡ 0 }
{
    Counts {
        first,
        taken: Vec::new(alloc),
    }
}

impl<'a, F> DrivenStage<'a, F> {
    // What the `for` makes of items below a limit. Whatever it reads, it takes in one tuple.
    fn bind_below(&self, items: Vec<Item>, first: u64, limit: u32) -> Result<Driven<'a>, NoMemory>
        requires read { self.now.reading < limit }
        ensures { IfOk result (GivesBelow self.now first limit (Ok (values_of items))) }
    {
        if limit <= self.reading + 1 {
            return Ok(Driven::Clean);
        }
        match bind_items(
            self.evaluator.alloc,
            &self.binding,
            first,
            items,
            self.leading,
        ) {
            Ok(frames) => Ok(Driven::Tuples(frames)),
            Err(EvalFault::Raised(fault)) => Ok(Driven::Met(MetFault {
                step: self.reading + 1,
                tuple: 1,
                fault,
            })),
            Err(EvalFault::NoMemory) => Err(NoMemory),
        }
    }

    // What the driver makes of lines below a limit.
    pub(crate) fn drive(
        &self,
        reader: &mut Reader,
        lines: Lines<'_>,
        first: u64,
        limit: u32,
    ) -> Result<Driven<'a>, NoMemory>
        ensures { IfOk result (GivesBelow self.now first limit (read_lines self.now lines.entry)) }
    {
        if limit <= self.reading {
            return Ok(Driven::Clean);
        }
        match read_items(self.evaluator.alloc, reader, self.place, lines) {
            Ok(items) => self.bind_below(items, first, limit),
            Err(EvalFault::Raised(fault)) => Ok(Driven::Met(MetFault {
                step: self.reading,
                tuple: 1,
                fault,
            })),
            Err(EvalFault::NoMemory) => Err(NoMemory),
        }
    }
}
