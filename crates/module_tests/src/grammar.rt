//! The grammar of queries as the parser of files.

ghost use Rattle.std.specs.Prelude.{IfOk, IfErr};
ghost use Rattle.query_lexer.specs.Lexes.{AreTokens};
ghost use Rattle.query_tree.specs.NamedViews.{named_query};
ghost use Rattle.query_files.specs.Files.{IsTreeAt, IsUnderived};

use query_files::{Parser, Underived};
use query_lexer::Token;
use query_parser::{ParseFault, parse_at};
use query_tree::Query;
use std::alloc::Global;

/// The parser of queries.
pub struct Grammar;

impl Parser for Grammar {
    fn parse_at(
        &self,
        alloc: Global,
        text: &str,
        tokens: &[Token],
        start: u32,
    ) -> Result<Query, Underived>
        requires { AreTokens text.now tokens.now }
        ensures found { IfOk result (λ query.
            IsTreeAt start text.now tokens.now (named_query query)) }
        ensures refused { IfErr result (λ f. IsUnderived start text.now tokens.now f) }
    {
        match parse_at(alloc, text, tokens, start) {
            Ok(query) => Ok(query),
            Err(ParseFault::Refused { code, place }) => Err(Underived::Refused { code, place }),
            Err(ParseFault::NoMemory) => Err(Underived::NoMemory),
        }
    }
}
