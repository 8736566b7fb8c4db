//! Reading a whole query.

ghost use Rattle.std.specs.Prelude.{◌≡◌, ℕ, List, length, MatchResult, MatchBool, IfOk, IfErr, false};
ghost use Rattle.grammar_parts.specs.Refusals.{Reached, outcome_of};
ghost use Rattle.query_lexer.specs.Lexes.{AreTokens};
ghost use Rattle.query_tree.specs.NamedViews.{named_query};
ghost use Rattle.query_grammar.specs.Nodes.{Module};
ghost use Rattle.query_grammar.specs.Texts.{Derives, BeginsWithoutBound, IsCodeOf, part_of, query};
ghost use Rattle.query_grammar.specs.declared.word.Word.{Word};
ghost use Rattle.query_parser.specs.Queries.{IsQuery, IsQueryAt, AreRefused, IsFault, IsFaultAt};
ghost use Rattle.query_parser.specs.declared.reading.ParseFault.TheVariants.{NoMemory};

use crate::modules::Top;
use grammar_parts::{Cursor, Stop};
use item_tree::Code;
use query_grammar::{Word, words_of};
use query_lexer::Token;
use query_tree::{Query, discard};
use std::alloc::Global;

/// Why a text is no query.
#[derive(Debug, Drop)]
pub enum ParseFault {
    /// The text is refused at this byte: the first token that goes on with no beginning of a
    /// query is there, or the text ends there.
    ///
    /// The code is `PJST0003` where the tokens up to and with this one begin a query that is nested
    /// more than 100 deep, `PJST0001` where they begin one with a form of the language that is
    /// refused, and `XPST0003` otherwise.
    Refused { code: Code, place: u32 },
    /// Memory ran out, or a place would need more than 32 bits.
    NoMemory,
}

/// How many forms may stand inside one another.
const MAX_NESTING: usize = 100;

/// The query that the longest beginning is, if it is whole, and what is left behind it.
fn reach(
    alloc: Global,
    wide: bool,
    depth: usize,
    words: &[Word],
) -> Result<(Option<Query>, &[Word]), ParseFault>
    ensures { MatchResult result
        (λ x. (part_of wide depth).read words.now ≡ outcome_of named_query x.0 x.1.now)
        (λ f. f ≡ NoMemory) }
{
    let mut cursor = Cursor { rest: words };
    match (Top { alloc, wide, depth }).module(&mut cursor) {
        Ok(query) => Ok((Some(query), cursor.rest)),
        Err(Stop::Refused) => Ok((None, cursor.rest)),
        Err(Stop::NoMemory) => Err(ParseFault::NoMemory),
    }
}

fn begins(alloc: Global, wide: bool, words: &[Word]) -> Result<bool, ParseFault>
    ensures { MatchResult result
        (λ b.
        MatchBool b (BeginsWithoutBound wide words.now) (BeginsWithoutBound wide words.now → ⊥))
        (λ f. f ≡ NoMemory) }
{
    let (query, rest) = reach(alloc, wide, words.len(), words)?;
    discard(query);
    Ok(rest.is_empty())
}

/// Why the last of these words goes on with no beginning.
fn code_of(alloc: Global, words: &[Word]) -> Result<Code, ParseFault>
    ensures { MatchResult result (λ code. IsCodeOf code words.now) (λ f. f ≡ NoMemory) }
{
    if begins(alloc, false, words)? {
        return Ok(Code::PJST0003);
    }
    if begins(alloc, true, words)? {
        Ok(Code::PJST0001)
    } else {
        Ok(Code::XPST0003)
    }
}

/// The refusal of words of which `rest` are left behind the longest beginning.
fn refusal(alloc: Global, words: &[Word], rest: &[Word], end: u32) -> ParseFault
    requires derives_none { (tree : Module) → Derives words.now tree → ⊥ }
    requires stopped { Reached query words.now rest.now }
    ensures { AreRefused words.now end result }
{
    match rest {
        [] => ParseFault::Refused {
            code: Code::XPST0003,
            place: end,
        },
        [first, ..] => {
            let read = words.len() - rest.len();
            match code_of(alloc, &words[..read + 1]) {
                Ok(code) => ParseFault::Refused {
                    code,
                    place: first.place,
                },
                Err(fault) => fault,
            }
        }
    }
}

/// The query of words, or where and why they are refused. `end` is the place where the text ends.
fn query_of(alloc: Global, words: &[Word], end: u32) -> Result<Query, ParseFault>
    ensures found { IfOk result (λ query. Derives words.now (named_query query)) }
    ensures only { (tree : Module) → Derives words.now tree
        → MatchResult result (λ query. named_query query ≡ tree) (λ f. f ≡ NoMemory) }
    ensures refused { IfErr result (λ f. AreRefused words.now end f) }
{
    let (query, rest) = reach(alloc, false, MAX_NESTING, words)?;
    match query {
        None => Err(refusal(alloc, words, rest, end)),
        Some(query) => {
            if rest.is_empty() {
                Ok(query)
            } else {
                discard(query);
                Err(refusal(alloc, words, rest, end))
            }
        }
    }
}

/// The query of the tokens of a text that stands behind `start` other bytes, or where and why they
/// are refused, in time linear in the text. Places count from the first of those bytes.
pub fn parse_at(
    alloc: Global,
    text: &str,
    tokens: &[Token],
    start: u32,
) -> Result<Query, ParseFault>
    // The tokens are some that `query_lexer::tokens` gives for this text.
    requires { AreTokens text.now tokens.now }
    // What is read is in the grammar.
    ensures found { IfOk result (λ query. IsQueryAt start text.now tokens.now (named_query query)) }
    // What is in the grammar is read, unless memory runs out. So there is at most one tree.
    ensures only { (tree : Module) → IsQueryAt start text.now tokens.now tree
        → MatchResult result (λ query. named_query query ≡ tree) (λ f. f ≡ NoMemory) }
    // What is refused is refused at the first token that goes on with no beginning, with its code.
    ensures refused { IfErr result (λ f. IsFaultAt start text.now tokens.now f) }
{
    let bytes = text.as_bytes();
    if bytes.len() > (u32::MAX - start) as usize {
        return Err(ParseFault::NoMemory);
    }
    let Ok(words) = words_of(alloc, text, tokens, start) else {
        return Err(ParseFault::NoMemory);
    };
    query_of(alloc, &words, start + bytes.len() as u32)
}

/// The query of a text's tokens, or where and why they are refused, in time linear in the text.
pub fn parse(alloc: Global, text: &str, tokens: &[Token]) -> Result<Query, ParseFault>
    // The tokens are some that `query_lexer::tokens` gives for this text.
    requires { AreTokens text.now tokens.now }
    // What is read is in the grammar.
    ensures found { IfOk result (λ query. IsQuery text.now tokens.now (named_query query)) }
    // What is in the grammar is read, unless memory runs out. So there is at most one tree.
    ensures only { (tree : Module) → IsQuery text.now tokens.now tree
        → MatchResult result (λ query. named_query query ≡ tree) (λ f. f ≡ NoMemory) }
    // What is refused is refused at the first token that goes on with no beginning, with its code.
    ensures refused { IfErr result (λ f. IsFault text.now tokens.now f) }
{
    parse_at(alloc, text, tokens, 0)
}
