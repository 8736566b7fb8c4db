//! A pool of workers that runs the numbered pieces of a job, each once: the board from which they
//! take pieces, what a job is, and the run of all pieces.
#![tactic(auto)]

mod alone;
mod board;
mod job;
mod pool;
mod settle;
mod slots;
mod worker;

pub use board::{Board, Ticket};
pub use job::{Job, JobFault, Pieces};
pub use pool::run_pieces;
