//! Tests of what reads and prints the lines of inputs. There is nothing else in this crate.
#![tactic(auto)]

#[cfg(test)]
mod keys;
#[cfg(test)]
mod lanes;
#[cfg(test)]
mod made_numbers;
#[cfg(test)]
mod printed;
#[cfg(test)]
mod values;
