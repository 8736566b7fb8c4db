//! Laws of the lexical rules. Each holds of all texts: a call brings it to a proof, and does
//! nothing when it runs.

ghost use Rattle.query_lexer.specs.Laws.{ReadingIsOne, CommentsNest};

/// A text has one list of tokens or one refusal, and never both.
pub fn reading_is_one()
    ensures { ReadingIsOne }
{}

/// Comments nest: `(:`, then comments and other bytes, then `:)`. A comment isn't closed where no
/// number of bytes is one.
pub fn comments_nest()
    ensures { CommentsNest }
{}
