//! What the engine meets outside itself: files that are read, sinks that are written, alone or by
//! numbers, and gates round a worker's pieces. Each object counts its own faults, so that a contract can tell whose
//! fault an answer comes from.
#![tactic(auto)]

mod count;
mod failing;
mod file_table;
mod gate;
mod input;
mod mem_outputs;
mod mem_sink;
mod names;
mod outputs;
mod shared_bytes;
mod sink;
mod slow;
mod steady;

pub use failing::{FailingFile, Fails, MemInputs};
pub use gate::{FreeGate, Gate};
pub use input::{InputFile, Inputs, OpenFault};
pub use mem_outputs::MemOutputs;
pub use mem_sink::MemSink;
pub use names::names_differ;
pub use outputs::{CreateFault, Outputs};
pub use sink::{Failed, Sink, write_all};
pub use slow::{SlowFile, SlowInputs};
pub use steady::{SteadyFile, SteadyInputs};
