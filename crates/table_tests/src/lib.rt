//! Tests of the tables of tuples, of groups, of orders, of keys and of names, and of what pieces
//! give. There is nothing else in this crate.
#![tactic(auto)]

#[cfg(test)]
mod group_lists;
#[cfg(test)]
mod join_lists;
#[cfg(test)]
mod name_lists;
#[cfg(test)]
mod order_lists;
#[cfg(test)]
mod outcomes;
#[cfg(test)]
mod row_lists;
