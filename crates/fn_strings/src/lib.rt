//! The functions on strings. A position counts characters, from 1.
#![tactic(auto)]

mod atom_texts;
mod joins;
mod pieces;
mod positions;
mod results;
mod searches;
mod translation;

pub use joins::{concat, string, string_join, string_join_2};
pub use pieces::{normalize_space, tokenize};
pub use positions::{string_length, string_to_codepoints, substring, substring_3};
pub use searches::{contains, ends_with, starts_with, substring_after, substring_before};
pub use translation::translate;
