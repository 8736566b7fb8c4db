//! The imports at the head of a file.

ghost use Rattle.std.specs.Prelude.{◌≡◌, ◌&&◌, ◌≤◌, length, IfOk, IfErr};
ghost use Rattle.std.specs.Str.{bytes_eq};
ghost use Rattle.query_lexer.specs.Lexes.{AreTokens, IsTokenOf, spelling};
ghost use Rattle.query_lexer.specs.declared.token.TokenKind.TheVariants.{Text};
ghost use Rattle.module_names.specs.Heads.{is_name, is_mark, is_text, is_spelled, IsImport, IsHead, IsFault};
ghost use Rattle.module_names.specs.inside.Next.{IsNext};
ghost use Rattle.module_names.specs.declared.head.HeadFault.TheVariants as fault;

use item_tree::{Code, NoMemory, Str};
use query_lexer::{Token, TokenKind, text_value};
use std::alloc::{AllocError, AllocFailed, Global};

/// An import: the name of the file, and the place of the string that says it.
#[derive(Debug, Drop)]
pub struct Import {
    pub name: Str,
    pub place: u32,
}

/// Why a file has no head.
#[derive(Debug, Drop)]
pub enum HeadFault {
    /// Behind `import module` something else stands at this byte than a string and then a `;`, or
    /// the text ends there.
    Refused { code: Code, place: u32 },
    /// Memory ran out, or a place would need more than 32 bits.
    NoMemory,
}

impl From<NoMemory> for HeadFault {
    ghost from_gives = { λ _ e. e ≡ fault.NoMemory };

    fn from(_e: NoMemory) -> HeadFault {
        HeadFault::NoMemory
    }
}

impl From<AllocError> for HeadFault {
    ghost from_gives = { λ _ e. e ≡ fault.NoMemory };

    fn from(_e: AllocError) -> HeadFault {
        HeadFault::NoMemory
    }
}

impl<T: Drop> From<AllocFailed<T>> for HeadFault {
    ghost from_gives = { λ _ e. e ≡ fault.NoMemory };

    fn from(_e: AllocFailed<T>) -> HeadFault {
        HeadFault::NoMemory
    }
}

/// What tokens begin with.
pub(crate) enum Next {
    /// No import.
    Other,
    /// An import, with its string.
    Import(Token),
    /// An import that is refused at this place.
    Refused(u32),
}

/// The imports at the head of a text's tokens, and how many tokens the head has. They are refused
/// at the first token behind `import module` that is not the one wanted there.
pub fn imports(
    alloc: Global,
    text: &str,
    tokens: &[Token],
) -> Result<(Vec<Import>, usize), HeadFault>
    // The tokens are some that `query_lexer::tokens` gives for this text.
    requires { AreTokens text.now tokens.now }
    ensures found { IfOk result (λ head. IsHead text.now tokens.now head.0.items head.1) }
    ensures within { IfOk result (λ head. head.1 ≤ length tokens.now) }
    ensures refused { IfErr result (λ f. IsFault text.now tokens.now f) }
{
    let Ok(end) = u32::try_from(text.len()) else {
        return Err(HeadFault::NoMemory);
    };
    let mut found = Vec::new(alloc);
    let mut at = 0;
    'reading: while at < tokens.len() {
        match next_import(text, &tokens[at..], end) {
            Next::Other => return Ok((found, at)),
            Next::Refused(place) => return Err(HeadFault::Refused {
                code: Code::XPST0003,
                place,
            }),
            Next::Import(token) => {
                found.push(import_of(alloc, text, &token)?)?;
                at += 4;
            }
        }
    }
    Ok((found, at))
}

fn import_of(alloc: Global, text: &str, token: &Token) -> Result<Import, NoMemory>
    requires listed { IsTokenOf text.now token.now }
    requires kind { token.now.kind ≡ Text }
    ensures { IfOk result (λ import. IsImport text.now import token.now) }
{
    let name = text_value(alloc, text, token)?;
    Ok(Import {
        name,
        place: token.from,
    })
}

// What these tokens begin with; the text ends at this place.
fn next_import(text: &str, rest: &[Token], end: u32) -> Next
    requires tokens { AreTokens text.now rest.now }
    requires end { end ≡ length text.now }
    ensures { IsNext text.now rest.now result }
{
    if rest.len() < 2 || !is_name(text, &rest[0], "import") || !is_name(text, &rest[1], "module") {
        return Next::Other;
    }
    if rest.len() < 3 {
        return Next::Refused(end);
    }
    if !is_text(&rest[2]) {
        return Next::Refused(rest[2].from);
    }
    if rest.len() < 4 {
        return Next::Refused(end);
    }
    if is_mark(text, &rest[3], ";") {
        Next::Import(rest[2])
    } else {
        Next::Refused(rest[3].from)
    }
}

fn is_text(token: &Token) -> bool
    ensures { result ≡ is_text token.now }
{
    matches!(token.kind, TokenKind::Text)
}

fn is_name(text: &str, token: &Token, name: &str) -> bool
    requires { IsTokenOf text.now token.now }
    ensures { result ≡ is_name name.now text.now token.now }
{
    matches!(token.kind, TokenKind::Name) && is_spelled(text, token, name)
}

pub(crate) fn is_mark(text: &str, token: &Token, mark: &str) -> bool
    requires { IsTokenOf text.now token.now }
    ensures { result ≡ is_mark mark.now text.now token.now }
{
    matches!(token.kind, TokenKind::Mark) && is_spelled(text, token, mark)
}

fn is_spelled(text: &str, token: &Token, word: &str) -> bool
    requires { IsTokenOf text.now token.now }
    ensures { result ≡ is_spelled word.now text.now token.now }
{
    &text[token.from as usize..token.to as usize] == word
}
