//! Tests of library modules. There is nothing else in this crate.
#![tactic(auto)]

#[cfg(test)]
mod found;
#[cfg(test)]
mod grammar;
#[cfg(test)]
mod heads;
#[cfg(test)]
mod loads;
#[cfg(test)]
mod places;
#[cfg(test)]
mod reading;
#[cfg(test)]
mod steps;
