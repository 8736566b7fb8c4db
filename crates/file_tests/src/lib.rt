//! Tests of inputs, of their pieces, of sinks, and of numbered outputs. There is nothing else in
//! this crate.
#![tactic(auto)]

#[cfg(test)]
mod inputs_and_sinks;
#[cfg(test)]
mod numbered_outputs;
#[cfg(test)]
mod piece_reader;
#[cfg(test)]
mod pieces;
