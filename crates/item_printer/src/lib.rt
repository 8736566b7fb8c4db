//! Prints an item as one compact JSON text.
#![tactic(auto)]

mod append;
mod array;
mod item;
mod number;
mod object;
mod string;

pub use item::print_item;
