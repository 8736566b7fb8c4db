//! The open files of a driver.

use line_pieces::Cut;

/// The open files of a driver, and how the bytes of its input are cut.
#[derive(Drop)]
pub struct DriverFiles<S> {
    /// The pieces of the input.
    pub cut: Cut,
    /// One set of open files for each worker, at least one: a file for each name, in order.
    pub sets: Vec<Vec<S>>,
}

/// What opening a driver answers.
#[derive(Drop)]
pub enum Opening<S> {
    /// All files are open.
    Open(DriverFiles<S>),
    /// There is no file of some name, and none is open.
    Missing,
}
