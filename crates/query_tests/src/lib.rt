//! Tests of what reads and compiles queries: its tokens, its parser and its laws. There is nothing
//! else in this crate; what queries come to is tested by runs of the program.
#![tactic(auto)]

#[cfg(test)]
mod compiled_trees;
#[cfg(test)]
mod later_texts;
#[cfg(test)]
mod token_tables;
