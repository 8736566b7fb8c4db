//! Tokens as the grammar sees them.

ghost use Rattle.std.specs.Prelude.{◌≡◌};

use crate::class::Class;
use grammar_parts::TokenClass;
use item_tree::{Str, Units, Whole};

/// What a token is in the grammar: each keyword and each mark is a kind of its own. Every keyword
/// is a name too where the grammar has a name.
#[derive(Clone, Copy, Debug, PartialEq, Eq)]
pub enum Kind {
    // Keywords, each spelled by its letters in lower case, with `-` between words.
    Declare,
    Variable,
    Function,
    As,
    Return,
    For,
    Allowing,
    Empty,
    At,
    In,
    Let,
    Where,
    Group,
    By,
    Stable,
    Order,
    Ascending,
    Descending,
    Least,
    Greatest,
    Count,
    Some,
    Every,
    Satisfies,
    Switch,
    Case,
    Default,
    Typeswitch,
    If,
    Then,
    Else,
    Try,
    Catch,
    Or,
    And,
    Not,
    Eq,
    Ne,
    Lt,
    Le,
    Gt,
    Ge,
    To,
    Div,
    Idiv,
    Mod,
    Instance,
    Of,
    Treat,
    Castable,
    Cast,
    True,
    False,
    Null,
    EmptySequence,
    Tumbling,
    Sliding,
    /// A name that is no keyword.
    Name,
    /// `$x`
    Var,
    /// `$$`
    Context,
    Int,
    Dec,
    Double,
    Text,
    /// `{|`
    OpenMerge,
    /// `|}`
    CloseMerge,
    /// `||`
    Bars,
    /// `:=`
    Assign,
    /// `!=`
    Differs,
    /// `<=`
    AtMost,
    /// `>=`
    AtLeast,
    /// `(`
    OpenParen,
    /// `)`
    CloseParen,
    /// `[`
    OpenBracket,
    /// `]`
    CloseBracket,
    /// `{`
    OpenBrace,
    /// `}`
    CloseBrace,
    /// `,`
    Comma,
    /// `;`
    Semicolon,
    /// `:`
    Colon,
    /// `.`
    Dot,
    /// `!`
    Bang,
    /// `|`
    Bar,
    /// `+`
    Plus,
    /// `-`
    Minus,
    /// `*`
    Star,
    /// `=`
    Equals,
    /// `<`
    Less,
    /// `>`
    Greater,
    /// `#`
    Hash,
    /// `?`
    Question,
}

/// What a token says.
#[derive(Drop)]
pub enum Value {
    Nothing,
    /// The name of a `Name` or, without its `$`, of a `Var`; the value of a `Text`.
    Text(Str),
    /// The value of an `Int`.
    Int(Whole),
    /// The value of a `Dec`.
    Dec(Units),
}

/// A token as the grammar reads it, with the place of its first byte.
#[derive(Drop)]
pub struct Word {
    pub kind: Kind,
    pub place: u32,
    pub value: Value,
}

impl TokenClass<Word> for Kind {
    ghost use Rattle.query_grammar.specs.Languages.{of_kind};
    ghost use Rattle.query_grammar.specs.Classes.{is};

    ghost takes = { λ kind. of_kind (is kind) };

    fn takes(self, word: &Word) -> bool {
        Class::Is(self).has(word.kind)
    }
}

impl TokenClass<Word> for Class {
    ghost use Rattle.query_grammar.specs.Languages.{of_kind};
    ghost use Rattle.query_grammar.specs.Named.{class_of};

    ghost takes = { λ class. of_kind (class_of class) };

    fn takes(self, word: &Word) -> bool {
        self.has(word.kind)
    }
}
