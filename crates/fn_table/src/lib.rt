//! What each function of the query language gives for its arguments, as definitions. Functions that
//! compute it, and what queries mean, stand on this table.
#![tactic(auto)]

pub mod laws;
