//! Rows of queries with what they come to, each found by computing the definitions: its tokens are
//! read by the grammar, compiled, and evaluated. There is nothing else in this crate.
#![tactic(auto)]
