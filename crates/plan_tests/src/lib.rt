//! Tests of mode_planner: the plans of queries as they are written. There is nothing else in this
//! crate.
#![tactic(auto)]

#[cfg(test)]
mod plans;
#[cfg(test)]
mod printed;
