//! The parser of expressions, up to the operators: names and types, primary expressions, steps and
//! operators. Each production of the grammar is a function of its own.
#![tactic(auto)]

/// The value of a result; where there is none, what is held is given up.
#[macro_export]
macro_rules! or_give_up {
    ($held:expr, $result:expr) => {
        match $result {
            Ok(value) => value,
            Err(stop) => return $crate::gather::give_up($held, stop),
        }
    };
}

pub mod gather;
mod nodes;
mod operators;
mod parts;
mod primary;
mod steps;
pub mod types;
mod values;

pub use nodes::{Chain, chained};
pub use parts::Parts;
pub use values::{name_of, placed};
