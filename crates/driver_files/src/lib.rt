//! The open files of a driver: one set for each worker, cut into pieces by their lengths, and
//! closed at every end. Nothing of them is read but their lengths.
#![tactic(auto)]

mod close;
mod driver;
pub mod laws;
mod open;
mod seats;
mod set;
mod sets;

pub use close::{close_driver, close_set};
pub use driver::{DriverFiles, Opening};
pub use open::open_driver;
