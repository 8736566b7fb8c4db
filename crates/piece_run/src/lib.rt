//! FLWORs over the pieces of an input: a stage, which is the clauses below a limit and an end, on
//! tuples or on the lines of a piece; and a whole FLWOR, whose first stage runs on workers. And
//! leaves of a query, which open the files of their driver, run over its pieces, and close them.
#![tactic(auto)]

mod came;
mod carrying;
mod counts;
mod driven;
mod driven_flwor;
mod driver;
mod ends;
mod finish;
mod first_end;
mod flwor_run;
mod flwor_stage;
mod gathering;
pub mod inputs;
mod job;
mod keying;
pub mod laws;
mod leading;
mod leaf;
mod leaf_fault;
mod leaf_run;
mod lone_lines;
pub mod meanings;
mod named_files;
mod open_seats;
mod order;
mod order_job;
mod ordering;
mod piece;
mod reading;
mod run;
mod stage;

pub use came::CameOut;
pub use driven_flwor::DrivenFlwor;
pub use finish::{finish_groups, finish_items, finish_numbers, finish_order};
pub use flwor_run::run_flwor;
pub use gathering::{gather_whole, gather_whole_orders};
pub use job::DrivenJob;
pub use leaf_fault::LeafFault;
pub use leaf_run::LeafRun;
pub use named_files::NamedFiles;
pub use order_job::DrivenOrderJob;
pub use run::{run_driven, run_driven_orders};
pub use stage::{DrivenStage, NarrowSteps, StageEnd};
