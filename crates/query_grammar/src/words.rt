//! The tokens of a query as the grammar reads them.

ghost use Rattle.std.specs.Prelude.{◌≡◌, IfOk, [], drop};
ghost use Rattle.std.specs.Str.{chars};
ghost use Rattle.num_fixed.specs.Numeral.{Numeral, IsNumeral, Says};
ghost use Rattle.num_fixed.specs.declared.number.Number.TheVariants as number;
ghost use Rattle.query_lexer.specs.Lexes.{AreTokens, IsTokenOf, spelling};
ghost use Rattle.query_lexer.specs.declared.token.TokenKind.TheVariants as t;
ghost use Rattle.query_grammar.specs.Words.{kind_in, declaration_keywords, clause_keywords, statement_keywords, operator_keywords, name_kind, mark_kind, Means, IsWordOf, AreWordsAt};

use crate::{Kind, Value, Word};
use item_tree::{NoMemory, Str, Units, Whole};
use num_fixed::{Number, read_number};
use query_lexer::{Token, TokenKind, text_value};
use std::alloc::Global;

/// The keywords of declarations, types and literals.
fn declaration_keyword(name: &str, other: Kind) -> Kind
    ensures { result ≡ kind_in declaration_keywords other name.now }
{
    match name {
        "declare" => Kind::Declare,
        "variable" => Kind::Variable,
        "function" => Kind::Function,
        "as" => Kind::As,
        "of" => Kind::Of,
        "instance" => Kind::Instance,
        "treat" => Kind::Treat,
        "castable" => Kind::Castable,
        "cast" => Kind::Cast,
        "true" => Kind::True,
        "false" => Kind::False,
        "null" => Kind::Null,
        "empty-sequence" => Kind::EmptySequence,
        _ => other,
    }
}

/// The keywords of clauses.
fn clause_keyword(name: &str, other: Kind) -> Kind
    ensures { result ≡ kind_in clause_keywords other name.now }
{
    match name {
        "return" => Kind::Return,
        "for" => Kind::For,
        "allowing" => Kind::Allowing,
        "empty" => Kind::Empty,
        "at" => Kind::At,
        "in" => Kind::In,
        "let" => Kind::Let,
        "where" => Kind::Where,
        "group" => Kind::Group,
        "by" => Kind::By,
        "stable" => Kind::Stable,
        "order" => Kind::Order,
        "ascending" => Kind::Ascending,
        "descending" => Kind::Descending,
        "least" => Kind::Least,
        "greatest" => Kind::Greatest,
        "count" => Kind::Count,
        "tumbling" => Kind::Tumbling,
        "sliding" => Kind::Sliding,
        _ => other,
    }
}

/// The keywords of statements.
fn statement_keyword(name: &str, other: Kind) -> Kind
    ensures { result ≡ kind_in statement_keywords other name.now }
{
    match name {
        "some" => Kind::Some,
        "every" => Kind::Every,
        "satisfies" => Kind::Satisfies,
        "switch" => Kind::Switch,
        "case" => Kind::Case,
        "default" => Kind::Default,
        "typeswitch" => Kind::Typeswitch,
        "if" => Kind::If,
        "then" => Kind::Then,
        "else" => Kind::Else,
        "try" => Kind::Try,
        "catch" => Kind::Catch,
        _ => other,
    }
}

/// The operators that are words.
fn operator_keyword(name: &str, other: Kind) -> Kind
    ensures { result ≡ kind_in operator_keywords other name.now }
{
    match name {
        "or" => Kind::Or,
        "and" => Kind::And,
        "not" => Kind::Not,
        "eq" => Kind::Eq,
        "ne" => Kind::Ne,
        "lt" => Kind::Lt,
        "le" => Kind::Le,
        "gt" => Kind::Gt,
        "ge" => Kind::Ge,
        "to" => Kind::To,
        "div" => Kind::Div,
        "idiv" => Kind::Idiv,
        "mod" => Kind::Mod,
        _ => other,
    }
}

/// The kind of a name: a keyword's own, or that of a name that is no keyword.
fn name_kind(name: &str) -> Kind
    ensures { result ≡ name_kind name.now }
{
    let kind = operator_keyword(name, Kind::Name);
    let kind = statement_keyword(name, kind);
    let kind = clause_keyword(name, kind);
    declaration_keyword(name, kind)
}

// The table of marks.
fn mark_kind(mark: &str) -> Kind
    ensures { result ≡ mark_kind mark.now }
{
    match mark {
        "{|" => Kind::OpenMerge,
        "|}" => Kind::CloseMerge,
        "||" => Kind::Bars,
        ":=" => Kind::Assign,
        "!=" => Kind::Differs,
        "<=" => Kind::AtMost,
        ">=" => Kind::AtLeast,
        "(" => Kind::OpenParen,
        ")" => Kind::CloseParen,
        "[" => Kind::OpenBracket,
        "]" => Kind::CloseBracket,
        "{" => Kind::OpenBrace,
        "}" => Kind::CloseBrace,
        "," => Kind::Comma,
        ";" => Kind::Semicolon,
        ":" => Kind::Colon,
        "." => Kind::Dot,
        "!" => Kind::Bang,
        "|" => Kind::Bar,
        "+" => Kind::Plus,
        "-" => Kind::Minus,
        "*" => Kind::Star,
        "=" => Kind::Equals,
        "<" => Kind::Less,
        ">" => Kind::Greater,
        "#" => Kind::Hash,
        _ => Kind::Question,
    }
}

/// The bytes of a token.
fn spelled<'a>(text: &'a str, token: &Token) -> &'a str
    requires { IsTokenOf text.now token.now }
    ensures { result.now ≡ spelling text.now token.now }
{
    &text[token.from as usize..token.to as usize]
}

/// The name of a variable, without its `$`.
fn variable_name(alloc: Global, text: &str, token: &Token) -> Result<Str, NoMemory>
    requires listed { IsTokenOf text.now token.now }
    requires kind { token.now.kind ≡ t.Var }
    ensures { IfOk result (λ name. name ≡ chars (drop 1 (spelling text.now token.now))) }
{
    Str::of(alloc, &spelled(text, token)[1..])
}

/// The value of an integer literal.
fn int_value(text: &str, token: &Token) -> Whole
    requires listed { IsTokenOf text.now token.now }
    requires kind { token.now.kind ≡ t.Int }
    ensures { (n : Numeral) × IsNumeral n (spelling text.now token.now) []
        × Says n (number.Int result) }
{
    match read_number(spelled(text, token).as_bytes()).unwrap() {
        Number::Int(n) => Whole::new(n),
        Number::Dec(_) => unreachable!(),
    }
}

/// The value of a decimal literal.
fn dec_value(text: &str, token: &Token) -> Units
    requires listed { IsTokenOf text.now token.now }
    requires kind { token.now.kind ≡ t.Dec }
    ensures { (n : Numeral) × IsNumeral n (spelling text.now token.now) []
        × Says n (number.Dec result) }
{
    match read_number(spelled(text, token).as_bytes()).unwrap() {
        Number::Int(_) => unreachable!(),
        Number::Dec(m) => Units::new(m),
    }
}

/// The kind of a token, and what it says.
fn meaning(alloc: Global, text: &str, token: &Token) -> Result<(Kind, Value), NoMemory>
    requires { IsTokenOf text.now token.now }
    ensures { IfOk result (λ z. Means token.now.kind (spelling text.now token.now) z.0 z.1) }
{
    match token.kind {
        TokenKind::Name => {
            let name = spelled(text, token);
            let value = Str::of(alloc, name)?;
            Ok((name_kind(name), Value::Text(value)))
        }
        TokenKind::Var => {
            let name = variable_name(alloc, text, token)?;
            Ok((Kind::Var, Value::Text(name)))
        }
        TokenKind::Context => Ok((Kind::Context, Value::Nothing)),
        TokenKind::Int => Ok((Kind::Int, Value::Int(int_value(text, token)))),
        TokenKind::Dec => Ok((Kind::Dec, Value::Dec(dec_value(text, token)))),
        TokenKind::Double => Ok((Kind::Double, Value::Nothing)),
        TokenKind::Text => {
            let value = text_value(alloc, text, token)?;
            Ok((Kind::Text, Value::Text(value)))
        }
        TokenKind::Mark => Ok((mark_kind(spelled(text, token)), Value::Nothing)),
    }
}

/// A token of a text that stands behind `start` other bytes, as the grammar reads it.
fn word_of(alloc: Global, text: &str, token: &Token, start: u32) -> Result<Word, NoMemory>
    requires { IsTokenOf text.now token.now }
    ensures { IfOk result (λ word. IsWordOf start text.now token.now word) }
{
    let Some(place) = start.checked_add(token.from) else {
        return Err(NoMemory)
    };
    let (kind, value) = meaning(alloc, text, token)?;
    Ok(Word { kind, place, value })
}

/// The words of tokens that stand one after another in a text: one a token, in their order. The
/// text stands behind `start` other bytes, and places count from the first of these. `NoMemory` is
/// also the answer where a place would need more than 32 bits.
pub fn words_of(
    alloc: Global,
    text: &str,
    tokens: &[Token],
    start: u32,
) -> Result<Vec<Word>, NoMemory>
    // The tokens are some that `query_lexer::tokens` gives for this text.
    requires { AreTokens text.now tokens.now }
    ensures { IfOk result (λ v. AreWordsAt start text.now tokens.now v.items) }
{
    let mut words = Vec::new(alloc);
    for token in tokens {
        let word = word_of(alloc, text, token, start)?;
        words.push(word)?;
    }
    Ok(words)
}
