//! The laws of a grammar's parts: what a part of a grammar derives, what begins it, and how it is
//! read, by one and the same line.
//!
//! # How a production is written
//!
//! A production has a line in `specs/`, a law in `proofs/` and a function in Rust. The grammar of
//! queries is the example: of its production `paren`, the line stands in `query_grammar`'s
//! `specs/Grammar.antt`, the law in its `proofs/Productions.antt`, and the function in
//! `expression_parser`. What follows shows them in short.
//!
//! **The line** says the production by the ways to combine parts, which `specs/Parts.antt` defines:
//!
//! | In the notation of grammars | Written |
//! |---|---|
//! | a token of a class | `one c` |
//! | `G H` | `seq g h` |
//! | `G H`, where a token that can go on with `G` belongs to it | `long g h` |
//! | <code>G &#124; H</code>, where a token of the class `c` begins `G` and no `H` | `alt c g h` |
//! | <code>G &#124; H</code>, where what begins with a token of `c` and one of `d` is `G` and
//! never `H` | `ahead c d first g h` | | `[ G ]` and `{ G }`, where the tokens of `c` begin `G` |
//! `opt c g`, `many c g` | | `{ G }`, where a token that can go on with a `G` belongs to it |
//! `many_long c g` | | `G`, but none that begins with a token of `c` | `unless c g` | | a form
//! that nests, `G` where there is room for one | `only m.room g` | | a form of a wider grammar |
//! `only m.wide g` | | `G` with the value `f x` for each value `x` | `mapped f g` |
//!
//! A production is a function of a mode `m` and of the parts that stand inside its forms:
//!
//! ```text
//! unfoldable pub paren : Part Word Tree
//! paren = only m.room (mapped paren_of (seq (one left) (seq (opt (first m) (inner i.Expr)) (one
//! right))))
//! ```
//!
//! All cycles of a grammar go through forms that nest, so the levels of `specs/Levels.antt`, by the
//! number of forms that may still nest, are its only recursion: `at step paren wide n` is the
//! production where `n` forms may nest, `level step wide n i` the part of the name `i`.
//!
//! **What a line gives.** `whole` is the relation between lists of tokens and values, `begun` the
//! lists that begin the part, and `read` the reader that takes the longest beginning of a list. No
//! line says what may follow a part.
//!
//! **The law** repeats the line by the laws of `proofs/Modes.antt`, with the set of the kinds that
//! begin the part, exactly, and a set that has those that go on with a whole one. A test over all
//! kinds and modes is `refl`:
//!
//! ```text
//! paren-law : Law w g.paren (λ m. given m.room left) none false
//! unfolding g.paren
//! paren-law = named _ _ (only_at (λ m. m.room) (λ r. mapped_at _ (behind_at w.one_less (one_at
//! (λ m. left))
//!     (seq_at (opt_at (w.laws r i.Expr) refl) (one_at (λ m. right)) refl) refl))) refl
//! ```
//!
//! `proofs/` is part of this library: a grammar's own laws cite it, and no function stands between.
//! From the laws of the parts that stand inside forms, `proofs/Levels.antt` has those of every
//! level, and that on lists of `k` tokens all levels from `k` on are the same.
//! `proofs/WholeTexts.antt` has what follows for a text: it derives one value at most, reading
//! gives exactly this value, and what is refused is refused at the first token that goes on with
//! no beginning.
//!
//! **What nests.** `proofs/Nested.antt` ties the levels to the values: if each production counts
//! what nests in it (`proofs/Counts.antt` has a law for each way to combine parts), then a level
//! has exactly the values of a higher one that are nested no deeper than the level allows.
//!
//! **The function** reads as the line does, token by token, from a [`Cursor`]. Its contract names
//! the line, and it needs no proof file; what stands inside a form is read by a function value
//! that is passed in, of which `specs/Nests.antt` says what it has to do:
//!
//! ```text
//! fn paren(&self, cursor: &mut Cursor<'_, Word>) -> Result<Tree, Stop>
//!     requires { Nests step (λ t. t) self.now.wide self.now.depth (F.pre self.now.inner)
//!         (F.post self.now.inner) }
//!     ensures { Reads ((at step g.paren self.now.wide self.now.depth).read cursor.old.rest.now)
//!         result cursor.new.rest.now }
//! {
//!     if self.depth == 0 {
//!         return Err(Stop::Refused);
//!     }
//!     let place = cursor.expect(Kind::Left)?.place;
//!     let content = self.content(cursor)?;
//!     cursor.expect(Kind::Right)?;
//!     Ok(Tree::Paren(place, content))
//! }
//! ```
//!
//! A repetition calls [`repeat`], [`repeat_some`] or [`list`], and its one answer is
//! `repeated_reads`, `some_reads` or `list_reads` of `proofs/TurnLemmas.antt`.
#![tactic(auto)]

mod cursor;
mod repetition;
mod token;

pub use cursor::{Cursor, Stop};
pub use repetition::{list, repeat, repeat_some};
pub use token::TokenClass;
