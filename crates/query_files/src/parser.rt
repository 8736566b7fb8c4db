//! What makes the trees of queries from tokens.

ghost use Rattle.std.specs.Prelude.{IfOk, IfErr};
ghost use Rattle.query_lexer.specs.Lexes.{AreTokens};
ghost use Rattle.query_tree.specs.NamedViews.{named_query};
ghost use Rattle.query_files.specs.Files.{IsTreeAt, IsUnderived};

use item_tree::Code;
use query_lexer::Token;
use query_tree::Query;
use std::alloc::Global;

/// Why tokens are no query.
#[derive(Clone, Copy, Debug, PartialEq, Eq)]
pub enum Underived {
    /// They are refused by the grammar, with this code at this place.
    Refused { code: Code, place: u32 },
    /// Memory ran out.
    NoMemory,
}

/// Makes the trees of queries from tokens.
pub trait Parser {
    /// The query of the tokens of a text that stands after `start` other bytes, or where and why
    /// they are refused. Places count from the first of those bytes.
    fn parse_at(
        &self,
        alloc: Global,
        text: &str,
        tokens: &[Token],
        start: u32,
    ) -> Result<Query, Underived>
        // The tokens are some that `query_lexer::tokens` gives for this text.
        requires { AreTokens text.now tokens.now }
        ensures found { IfOk result (λ query.
            IsTreeAt start text.now tokens.now (named_query query)) }
        ensures refused { IfErr result (λ f. IsUnderived start text.now tokens.now f) };
}
