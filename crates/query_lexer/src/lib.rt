//! Tokens of a query text: names, variables, numbers, strings and marks, with whitespace and nested
//! comments between them, or the first place at which the text breaks the lexical rules.
#![tactic(auto)]

mod bytes;
mod comments;
pub mod laws;
mod lexer;
mod marks;
mod numbers;
mod steps;
mod strings;
mod token;
mod value;
mod words;

pub use lexer::tokens;
pub use token::{LexFault, Token, TokenKind};
pub use value::text_value;
