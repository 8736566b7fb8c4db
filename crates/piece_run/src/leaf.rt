//! Leaves that run over the pieces of their input: the files of the driver are opened, workers run
//! its pieces, and all files are closed at every end.

ghost use Rattle.std.specs.Prelude.{◌≡◌, ◌<◌, ◌≤◌, ◌+◌, ◌^◌, true, IsTrue, Some, IfSome, IfOk, IfErr, length, map, All};
ghost use Rattle.query_tree.specs.BoundViews.{bound_tree, bound_clauses};
ghost use Rattle.query_meaning.specs.Calls.{Program};
ghost use Rattle.query_meaning.specs.Flwors.{flwor_value};
ghost use Rattle.query_meaning.specs.Library as meaning;
ghost use Rattle.query_meaning.specs.Meaning.{eval};
ghost use Rattle.query_meaning.specs.inside.Evaluates.{Evaluates};
ghost use Rattle.query_meaning.specs.inside.Gives.{Gives};
ghost use Rattle.query_meaning.specs.inside.Views.{tuple_of};
ghost use Rattle.clause_eval.specs.Frames.{frame_tuple};
ghost use Rattle.mode_planner.specs.Drivers.{clauses_driver};
ghost use Rattle.mode_planner.specs.inside.Views.{driver_of};
ghost use Rattle.driver_files.specs.Driver.{IsDriver, IsToldDriver, files_in, told_files};
ghost use Rattle.piece_board.specs.Trouble.{SomeRose};
ghost use Rattle.piece_seats.specs.Counting.{AreLinesBefore};
ghost use Rattle.piece_seats.specs.Seats.{all_faults, HoldsFiles};
ghost use Rattle.piece_run.specs.Kept.{KeptIs, IsAnswer, IsUnread, IsRaised};
ghost use Rattle.piece_run.specs.declared.leaf_fault.LeafFault.TheVariants as leaf;
ghost use Rattle.piece_run.specs.Leading.{AreLets, one_tuple};
ghost use Rattle.piece_run.specs.Leaf.{missing_fault, leaf_program, leaf_environment, lets_value, IsDrivenOf, MeansOver, MeansAfter, ReadsNames, SameBeside, ClosesDriver, LeafCounts};

use crate::driven_flwor::DrivenFlwor;
use crate::flwor_run::run_flwor;
use crate::leading::leading_frame;
use crate::leaf_fault::LeafFault;
use crate::leaf_run::{LeafFlwor, LeafRun};
use crate::lone_lines::run_lines;
use crate::named_files::NamedFiles;
use crate::open_seats::{close_seats, seats_of};
use clause_eval::{BoundClause, Evaluator, Frame, frame_lent};
use clause_stages::inputs_are_lines;
use driver_files::{DriverFiles, Opening, close_driver, open_driver};
use item_tree::{Code, Fault, Str};
use line_pieces::Cut;
use line_pieces::laws::{pieces_are_told, pieces_are_whole};
use meaning_laws::laws::flwors_find_calls;
use mode_planner::Driver;
use mode_planner::laws::drivers_stand_first;
use outside::{Gate, InputFile, Inputs};
use piece_seats::{FilesTold, ItemsKept, Seat, lines_before};
use query_meaning::{Env, EvalFault, Value};
use query_tree::{BoundExpr, InputNames};
use std::alloc::Global;
use std::sync::Wait;
use std::thread::Threads;

// The fault of the `for` over an input that is missing, at its one tuple.
fn missing(driver: &Driver<'_>) -> LeafFault
    requires { driver.now.lets + 1 < 2 ^ 32 }
    ensures { result ≡ leaf.Raised (missing_fault (driver_of driver.now)) }
{
    let clause = driver.lets + 1;
    LeafFault::from(EvalFault::raised(Code::FODC0002, driver.place).at_tuple(clause, 1))
}

impl<
    'a,
    'r,
    F: for<'s, 'b> Fn(Global, &BoundExpr, &Env<'s, 'b>) -> Result<Value<'b>, EvalFault>
        + Sync
        + Copy,
    R: Threads + Wait + Sync,
    G: Gate,
> LeafRun<'a, 'r, F, R, G> {
    // What is kept of the lines of files that are open. They are closed.
    fn lines_of<I: Inputs, K: ItemsKept + Send + Sync>(
        &self,
        place: u32,
        names: &[Str],
        files: DriverFiles<I::File>,
        inputs: &mut I,
    ) -> Result<K, LeafFault>
        requires { IsDriver I.File.held I.File.faults (I.world inputs.old) names.now self.now.workers
            self.now.size files }
        ensures world { I.world inputs.new ≡ I.world inputs.old }
        ensures counts { ClosesDriver (files_in files.sets.items) result (I.counts inputs.old)
            (I.counts inputs.new) }
        ensures value { IfSome (I.world inputs.old) (λ w. (library : meaning.Library)
            → IsToldDriver w names.now self.now.workers self.now.size files
            → ReadsNames w library names.now
            → KeptIs K.stands result (meaning.lines_value library names.now place)) }
    {
        let alloc = self.evaluator.alloc;
        let DriverFiles { cut, sets } = files;
        match seats_of(alloc, sets) {
            Ok(seats) => {
                let told = NamedFiles {
                    inputs: &*inputs,
                    names,
                };
                let (seats, result) = run_lines(
                    self.rt, alloc, place, &cut, &told, seats, self.gate,
                );
                close_seats(inputs, seats);
                inputs_are_lines();
                result
            }
            Err(sets) => {
                close_driver(inputs, sets);
                Err(LeafFault::NoMemory)
            }
        }
    }

    /// What is kept of the value of a lone call of `json-lines` at this place: of the items of all
    /// lines of these inputs in order; or the fault of the first line that has one. Where a name is
    /// missing it is that fault. `ReadFault` comes where opening or reading a file failed.
    pub fn lines<I: Inputs, K: ItemsKept + Send + Sync>(
        &self,
        place: u32,
        names: &InputNames,
        inputs: &mut I,
    ) -> Result<K, LeafFault>
        ensures world { I.world inputs.new ≡ I.world inputs.old }
        ensures counts { LeafCounts (I.world inputs.old) names.now self.now.workers self.now.size
            result (I.counts inputs.old) (I.counts inputs.new) }
        ensures value { IfSome (I.world inputs.old) (λ w. (library : meaning.Library)
            → ReadsNames w library names.now
            → KeptIs K.stands result (meaning.lines_value library names.now place)) }
    {
        let names = names.as_slice();
        let alloc = self.evaluator.alloc;
        match open_driver(alloc, inputs, names, self.workers, self.size) {
            Ok(Opening::Open(files)) => self.lines_of(place, names, files, inputs),
            Ok(Opening::Missing) => Err(LeafFault::Raised(Fault::at(Code::FODC0002, place))),
            Err(fault) => Err(LeafFault::from(fault)),
        }
    }

    // The tuple after these `let`s.
    #[tactic(auto, unfolding(query_meaning::specs::inside::Views::eval_in, query_meaning::specs::inside::Views::program_of, query_meaning::specs::inside::Views::environment_of, crate::specs::Leaf::leaf_program, crate::specs::Leaf::leaf_environment))]
    fn leading(&self, lets: &[BoundClause], depth: u32) -> Result<Frame<'a>, EvalFault>
        requires few { length lets.now < 2 ^ 32 }
        requires lets { AreLets lets.now }
        requires evaluates { Evaluates depth (F.pre self.now.evaluator.inner)
            (F.post self.now.evaluator.inner) }
        ensures { Gives one_tuple result (lets_value self.now lets.now depth) }
    {
        let env = Env::new(self.query, self.library, self.globals, self.frame, depth);
        let first = frame_lent(self.evaluator.alloc, self.frame)?;
        leading_frame(&self.evaluator, lets, first, &env)
    }

    // How many lines stand before each piece, where that is asked for.
    fn counted<T: FilesTold, S: InputFile + Send + Sync + Drop>(
        &self,
        position: bool,
        cut: &Cut,
        told: &T,
        seats: Vec<Seat<S>>,
    ) -> (Vec<Seat<S>>, Result<Vec<u64>, LeafFault>)
        requires some { 0 < length seats.items }
        requires files { All (HoldsFiles S.held cut.now (T.told told.now)) seats.items }
        ensures before { IfOk result.1 (λ before. IsTrue position
            → AreLinesBefore cut.now (T.told told.now) before.items) }
        ensures files { All (HoldsFiles S.held cut.now (T.told told.now)) result.0.items }
        ensures many { length result.0.items ≡ length seats.items }
        ensures calm { IsAnswer result.1
            → map (λ s. all_faults S.faults s.files.items) result.0.items
            ≡ map (λ s. all_faults S.faults s.files.items) seats.items }
        ensures cause { IsUnread result.1
            → SomeRose (map (λ s. all_faults S.faults s.files.items) seats.items)
            (map (λ s. all_faults S.faults s.files.items) result.0.items) }
        ensures silent { IfErr result.1 (λ fault. IsRaised fault → ⊥) }
    {
        let alloc = self.evaluator.alloc;
        if !position {
            return (seats, Ok(Vec::new(alloc)));
        }
        let (seats, counted) = lines_before(self.rt, alloc, cut, told, seats, self.gate);
        match counted {
            Ok(before) => (seats, Ok(before)),
            Err(fault) => (seats, Err(LeafFault::from(fault))),
        }
    }

    // The FLWOR over open files, after its `let`s, which have given these slots.
    #[tactic(auto, unfolding(crate::specs::Flwors::flwor_inner, crate::specs::Flwors::flwor_program, crate::specs::Flwors::flwor_environment, crate::specs::Leaf::leaf_program, crate::specs::Leaf::leaf_environment))]
    fn driven<'s>(
        &'s self,
        flwor: &LeafFlwor<'s>,
        slots: &'s [Value<'s>],
        cut: &'s Cut,
        before: &'s [u64],
    ) -> DrivenFlwor<'s, F>
        ensures { IsDrivenOf self.now flwor.now (tuple_of slots.now) cut.now before.now result }
    {
        DrivenFlwor {
            evaluator: self.evaluator,
            query: self.query,
            library: self.library,
            globals: self.globals,
            leading: slots,
            depth: flwor.depth,
            clauses: flwor.clauses,
            body: flwor.body,
            lets: flwor.driver.lets,
            place: flwor.driver.place,
            cut,
            before,
        }
    }

    // What is kept of a FLWOR over the files of these workers, of whose pieces so many lines stand
    // before each one.
    fn run_counted<'s, T: FilesTold, S: InputFile + Send + Sync + Drop, K: ItemsKept + Send + Sync>(
        &'s self,
        flwor: &LeafFlwor<'s>,
        slots: &'s [Value<'s>],
        cut: &'s Cut,
        before: &'s [u64],
        told: &T,
        seats: Vec<Seat<S>>,
    ) -> (Vec<Seat<S>>, Result<K, LeafFault>)
        requires driven { clauses_driver 0 (bound_clauses flwor.now.clauses.now)
            ≡ Some (driver_of flwor.now.driver) }
        requires depth { 0 < flwor.now.depth }
        requires evaluates { Evaluates flwor.now.depth (F.pre self.now.evaluator.inner)
            (F.post self.now.evaluator.inner) }
        requires some { 0 < length seats.items }
        requires files { All (HoldsFiles S.held cut.now (T.told told.now)) seats.items }
        requires before { IsTrue flwor.now.driver.position
            → AreLinesBefore cut.now (T.told told.now) before.now }
        ensures value { MeansOver K.stands self.now flwor.now (tuple_of slots.now)
            (T.told told.now) result.1 }
        ensures files { All (HoldsFiles S.held cut.now (T.told told.now)) result.0.items }
        ensures many { length result.0.items ≡ length seats.items }
        ensures calm { IsAnswer result.1
            → map (λ s. all_faults S.faults s.files.items) result.0.items
            ≡ map (λ s. all_faults S.faults s.files.items) seats.items }
        ensures cause { IsUnread result.1
            → SomeRose (map (λ s. all_faults S.faults s.files.items) seats.items)
            (map (λ s. all_faults S.faults s.files.items) result.0.items) }
    {
        let driven = self.driven(flwor, slots, cut, before);
        let _size = cut.size();
        drivers_stand_first();
        flwors_find_calls();
        pieces_are_whole();
        pieces_are_told();
        run_flwor(self.rt, &driven, told, seats, self.gate)
    }

    // What is kept of a FLWOR over the files of these workers.
    fn run_over<T: FilesTold, S: InputFile + Send + Sync + Drop, K: ItemsKept + Send + Sync>(
        &self,
        flwor: &LeafFlwor<'_>,
        slots: &[Value<'_>],
        cut: &Cut,
        before: &[u64],
        told: &T,
        seats: Vec<Seat<S>>,
    ) -> (Vec<Seat<S>>, Result<K, LeafFault>)
        requires driven { clauses_driver 0 (bound_clauses flwor.now.clauses.now)
            ≡ Some (driver_of flwor.now.driver) }
        requires depth { 0 < flwor.now.depth }
        requires evaluates { Evaluates flwor.now.depth (F.pre self.now.evaluator.inner)
            (F.post self.now.evaluator.inner) }
        requires some { 0 < length seats.items }
        requires files { All (HoldsFiles S.held cut.now (T.told told.now)) seats.items }
        requires before { IsTrue flwor.now.driver.position
            → AreLinesBefore cut.now (T.told told.now) before.now }
        ensures value { MeansOver K.stands self.now flwor.now (tuple_of slots.now)
            (T.told told.now) result.1 }
        ensures files { All (HoldsFiles S.held cut.now (T.told told.now)) result.0.items }
        ensures many { length result.0.items ≡ length seats.items }
        ensures calm { IsAnswer result.1
            → map (λ s. all_faults S.faults s.files.items) result.0.items
            ≡ map (λ s. all_faults S.faults s.files.items) seats.items }
        ensures cause { IsUnread result.1
            → SomeRose (map (λ s. all_faults S.faults s.files.items) seats.items)
            (map (λ s. all_faults S.faults s.files.items) result.0.items) }
    {
        LeafRun::run_counted(self, flwor, slots, cut, before, told, seats)
    }

    // What is kept of a FLWOR over files that are open. They are closed.
    fn flwor_of<I: Inputs, K: ItemsKept + Send + Sync>(
        &self,
        flwor: &LeafFlwor<'_>,
        leading: &Frame<'_>,
        files: DriverFiles<I::File>,
        inputs: &mut I,
    ) -> Result<K, LeafFault>
        requires driven { clauses_driver 0 (bound_clauses flwor.now.clauses.now)
            ≡ Some (driver_of flwor.now.driver) }
        requires depth { 0 < flwor.now.depth }
        requires evaluates { Evaluates flwor.now.depth (F.pre self.now.evaluator.inner)
            (F.post self.now.evaluator.inner) }
        requires files { IsDriver I.File.held I.File.faults (I.world inputs.old)
            flwor.now.driver.names.now self.now.workers self.now.size files }
        ensures world { I.world inputs.new ≡ I.world inputs.old }
        ensures counts { ClosesDriver (files_in files.sets.items) result (I.counts inputs.old)
            (I.counts inputs.new) }
        ensures value { MeansOver K.stands self.now flwor.now (frame_tuple leading.now)
            (told_files (I.world inputs.old) flwor.now.driver.names.now) result }
    {
        let alloc = self.evaluator.alloc;
        let DriverFiles { cut, sets } = files;
        match seats_of(alloc, sets) {
            Ok(seats) => {
                let told = NamedFiles {
                    inputs: &*inputs,
                    names: flwor.driver.names.as_slice(),
                };
                let (seats, counted) = self.counted(flwor.driver.position, &cut, &told, seats);
                match counted {
                    Ok(before) => {
                        let (seats, result) = self.run_over(
                            flwor,
                            &leading.slots,
                            &cut,
                            &before,
                            &told,
                            seats,
                        );
                        close_seats(inputs, seats);
                        result
                    }
                    Err(fault) => {
                        close_seats(inputs, seats);
                        Err(fault)
                    }
                }
            }
            Err(sets) => {
                close_driver(inputs, sets);
                Err(LeafFault::NoMemory)
            }
        }
    }

    // What is kept of a FLWOR after its `let`s. Its files are opened, and closed.
    fn after_lets<I: Inputs, K: ItemsKept + Send + Sync>(
        &self,
        flwor: &LeafFlwor<'_>,
        leading: &Frame<'_>,
        inputs: &mut I,
    ) -> Result<K, LeafFault>
        requires driven { clauses_driver 0 (bound_clauses flwor.now.clauses.now)
            ≡ Some (driver_of flwor.now.driver) }
        requires few { flwor.now.driver.lets + 1 < 2 ^ 32 }
        requires depth { 0 < flwor.now.depth }
        requires evaluates { Evaluates flwor.now.depth (F.pre self.now.evaluator.inner)
            (F.post self.now.evaluator.inner) }
        ensures world { I.world inputs.new ≡ I.world inputs.old }
        ensures counts { LeafCounts (I.world inputs.old) flwor.now.driver.names.now
            self.now.workers self.now.size result (I.counts inputs.old) (I.counts inputs.new) }
        ensures value { IfSome (I.world inputs.old)
            (MeansAfter K.stands self.now flwor.now (frame_tuple leading.now) result) }
    {
        let alloc = self.evaluator.alloc;
        let names = flwor.driver.names.as_slice();
        drivers_stand_first();
        flwors_find_calls();
        inputs_are_lines();
        match open_driver(alloc, inputs, names, self.workers, self.size) {
            Ok(Opening::Open(files)) => self.flwor_of(flwor, leading, files, inputs),
            Ok(Opening::Missing) => Err(missing(&flwor.driver)),
            Err(fault) => Err(LeafFault::from(fault)),
        }
    }

    /// What is kept of the value of a FLWOR with this driver, whose clauses and `return` are
    /// evaluated at this depth. The `let`s before the driver are evaluated before any file is
    /// opened, and so their faults come first. Where a name is missing it is the fault of the `for`
    /// at its one tuple. `ReadFault` comes where opening or reading a file failed.
    pub fn flwor<'q, I: Inputs, K: ItemsKept + Send + Sync>(
        &self,
        clauses: &'q [BoundClause],
        body: &'q BoundExpr,
        driver: &Driver<'q>,
        depth: u32,
        inputs: &mut I,
    ) -> Result<K, LeafFault>
        requires driven { clauses_driver 0 (bound_clauses clauses.now)
            ≡ Some (driver_of driver.now) }
        requires depth { 0 < depth }
        requires evaluates { Evaluates depth (F.pre self.now.evaluator.inner)
            (F.post self.now.evaluator.inner) }
        ensures world { I.world inputs.new ≡ I.world inputs.old }
        ensures counts { LeafCounts (I.world inputs.old) driver.now.names.now self.now.workers
            self.now.size result (I.counts inputs.old) (I.counts inputs.new) }
        ensures value { IfSome (I.world inputs.old) (λ w. (full : Program)
            → ReadsNames w full.library driver.now.names.now
            → SameBeside full (leaf_program self.now) (bound_clauses clauses.now)
            (bound_tree body.now) (driver_of driver.now)
            → KeptIs K.stands result (flwor_value (eval full depth) (bound_clauses clauses.now)
            (bound_tree body.now) (leaf_environment self.now))) }
    {
        if clauses.len() + 1 >= u32::MAX as usize {
            return Err(LeafFault::NoMemory);
        }
        drivers_stand_first();
        flwors_find_calls();
        match self.leading(&clauses[..driver.lets as usize], depth) {
            Ok(leading) => {
                let flwor = LeafFlwor {
                    clauses,
                    body,
                    driver: *driver,
                    depth,
                };
                self.after_lets(&flwor, &leading, inputs)
            }
            Err(fault) => Err(LeafFault::from(fault)),
        }
    }
}
