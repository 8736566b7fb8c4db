//! Tests of what no query reaches of values: parts of sums and extremes that are merged, totals, the
//! numbers at the front of bytes, names of types, and laws. There is nothing else in this crate.
#![tactic(auto)]

#[cfg(test)]
mod dates;
#[cfg(test)]
mod items;
#[cfg(test)]
mod laws;
#[cfg(test)]
mod numbers;
#[cfg(test)]
mod parts;
#[cfg(test)]
mod totals;
#[cfg(test)]
mod types;
