//! Tests of item_tree, whose items they see as another crate does. There is nothing else in this
//! crate.
#![tactic(auto)]

#[cfg(test)]
mod boolean_values;
#[cfg(test)]
mod comparisons;
#[cfg(test)]
mod dates;
#[cfg(test)]
mod deep_equality;
#[cfg(test)]
mod depths;
#[cfg(test)]
mod functions;
#[cfg(test)]
mod keys;
#[cfg(test)]
mod lists;
#[cfg(test)]
mod made;
#[cfg(test)]
mod objects;
#[cfg(test)]
mod shared;
#[cfg(test)]
mod texts;
