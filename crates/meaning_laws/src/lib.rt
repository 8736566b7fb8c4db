//! What the meaning of an expression, of clauses and of a query looks for, and what makes no
//! difference to it, as laws of that meaning.
#![tactic(auto)]

pub mod laws;
