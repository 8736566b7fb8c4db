//! The classes of tokens that the grammar names.

ghost use Rattle.std.specs.Prelude.{◌≡◌};
ghost use Rattle.query_grammar.specs.Classes as classes;
ghost use Rattle.query_grammar.specs.Named.{class_of};

use crate::Kind;

/// A class of tokens, by their kinds.
#[derive(Clone, Copy, Debug)]
pub enum Class {
    /// One kind.
    Is(Kind),
    /// A name; every keyword is one.
    Name,
    /// A name that a call may have.
    CallName,
    /// A name that parentheses or a sign may follow in a type.
    TypeName,
    /// What stands for itself behind a point.
    LookupKey,
    /// A literal, a variable or the context item; in the wider grammar a double too.
    Literal { wide: bool },
    SumOp,
    ProductOp,
    CompareOp,
    /// A sign of a type.
    Times,
    Direction,
    Extreme,
    Quantifier,
    Window,
    /// What a single expression begins with; `room` tells whether a form may nest there.
    Single { wide: bool, room: bool },
    /// What a pair of an object begins with.
    Pair { wide: bool, room: bool },
    /// What an argument of a call begins with.
    Argument { wide: bool, room: bool },
    /// What a step begins with.
    Step { wide: bool },
    /// What the first clause of a FLWOR begins with.
    FirstClause,
    /// What a clause of a FLWOR begins with.
    Clause,
    /// What an order begins with.
    OrderClause,
    /// What a FLWOR begins with, where it may stand.
    Flwor { room: bool },
}

impl Class {
    /// Whether a kind of tokens is in the class.
    pub fn has(self, kind: Kind) -> bool
        ensures { result ≡ class_of self kind }
    {
        match self {
            Class::Is(other) => same_kind(kind, other),
            Class::Name => is_name(kind),
            Class::CallName => is_call_name(kind),
            Class::TypeName => is_type_name(kind),
            Class::LookupKey => is_lookup_key(kind),
            Class::Literal { wide } => is_literal(kind, wide),
            Class::SumOp => is_sum_op(kind),
            Class::ProductOp => is_product_op(kind),
            Class::CompareOp => is_compare_op(kind),
            Class::Times => is_times(kind),
            Class::Direction => is_direction(kind),
            Class::Extreme => is_extreme(kind),
            Class::Quantifier => is_quantifier(kind),
            Class::Window => is_window(kind),
            Class::Single { wide, room } => single_first(kind, wide, room),
            Class::Pair { wide, room } => pair_first(kind, wide, room),
            Class::Argument { wide, room } => argument_first(kind, wide, room),
            Class::Step { wide } => step_first(kind, wide),
            Class::FirstClause => first_clause_first(kind),
            Class::Clause => clause_first(kind),
            Class::OrderClause => order_clause_first(kind),
            Class::Flwor { room } => flwor_first(kind, room),
        }
    }
}

#[tactic(auto, unfolding(crate::specs::Classes::is))]
fn same_kind(a: Kind, b: Kind) -> bool
    ensures { result ≡ classes.is b a }
{
    a == b
}

fn is_name(kind: Kind) -> bool
    ensures { result ≡ classes.is_name kind }
{
    match kind {
        Kind::Var
        | Kind::Context
        | Kind::Int
        | Kind::Dec
        | Kind::Double
        | Kind::Text
        | Kind::OpenMerge
        | Kind::CloseMerge
        | Kind::Bars
        | Kind::Assign
        | Kind::Differs
        | Kind::AtMost => false,
        Kind::AtLeast
        | Kind::OpenParen
        | Kind::CloseParen
        | Kind::OpenBracket
        | Kind::CloseBracket
        | Kind::OpenBrace
        | Kind::CloseBrace
        | Kind::Comma
        | Kind::Semicolon
        | Kind::Colon
        | Kind::Dot
        | Kind::Bang => false,
        Kind::Bar
        | Kind::Plus
        | Kind::Minus
        | Kind::Star
        | Kind::Equals
        | Kind::Less
        | Kind::Greater
        | Kind::Hash
        | Kind::Question => false,
        _ => true,
    }
}

fn is_call_name(kind: Kind) -> bool
    ensures { result ≡ classes.is_call_name kind }
{
    match kind {
        Kind::Variable
        | Kind::As
        | Kind::Return
        | Kind::Allowing
        | Kind::Empty
        | Kind::At
        | Kind::In
        | Kind::Where
        | Kind::Group
        | Kind::By
        | Kind::Stable
        | Kind::Order => true,
        Kind::Ascending
        | Kind::Descending
        | Kind::Least
        | Kind::Greatest
        | Kind::Count
        | Kind::Satisfies
        | Kind::Case
        | Kind::Default
        | Kind::Then
        | Kind::Else
        | Kind::Catch
        | Kind::Or => true,
        Kind::And
        | Kind::Eq
        | Kind::Ne
        | Kind::Lt
        | Kind::Le
        | Kind::Gt
        | Kind::Ge
        | Kind::To
        | Kind::Div
        | Kind::Idiv
        | Kind::Mod
        | Kind::Instance => true,
        Kind::Of
        | Kind::Treat
        | Kind::Castable
        | Kind::Cast
        | Kind::Tumbling
        | Kind::Sliding
        | Kind::Name => true,
        _ => false,
    }
}

fn is_type_name(kind: Kind) -> bool
    ensures { result ≡ classes.is_type_name kind }
{
    match kind {
        Kind::EmptySequence
        | Kind::Var
        | Kind::Context
        | Kind::Int
        | Kind::Dec
        | Kind::Double
        | Kind::Text
        | Kind::OpenMerge
        | Kind::CloseMerge
        | Kind::Bars
        | Kind::Assign
        | Kind::Differs => false,
        Kind::AtMost
        | Kind::AtLeast
        | Kind::OpenParen
        | Kind::CloseParen
        | Kind::OpenBracket
        | Kind::CloseBracket
        | Kind::OpenBrace
        | Kind::CloseBrace
        | Kind::Comma
        | Kind::Semicolon
        | Kind::Colon
        | Kind::Dot => false,
        Kind::Bang
        | Kind::Bar
        | Kind::Plus
        | Kind::Minus
        | Kind::Star
        | Kind::Equals
        | Kind::Less
        | Kind::Greater
        | Kind::Hash
        | Kind::Question => false,
        _ => true,
    }
}

fn is_lookup_key(kind: Kind) -> bool
    ensures { result ≡ classes.is_lookup_key kind }
{
    match kind {
        Kind::Int
        | Kind::Dec
        | Kind::Double
        | Kind::OpenMerge
        | Kind::CloseMerge
        | Kind::Bars
        | Kind::Assign
        | Kind::Differs
        | Kind::AtMost
        | Kind::AtLeast
        | Kind::OpenParen
        | Kind::CloseParen => false,
        Kind::OpenBracket
        | Kind::CloseBracket
        | Kind::OpenBrace
        | Kind::CloseBrace
        | Kind::Comma
        | Kind::Semicolon
        | Kind::Colon
        | Kind::Dot
        | Kind::Bang
        | Kind::Bar
        | Kind::Plus
        | Kind::Minus => false,
        Kind::Star | Kind::Equals | Kind::Less | Kind::Greater | Kind::Hash | Kind::Question =>
            false,
        _ => true,
    }
}

fn is_sum_op(kind: Kind) -> bool
    ensures { result ≡ classes.is_sum_op kind }
{
    match kind {
        Kind::Plus | Kind::Minus => true,
        _ => false,
    }
}

fn is_product_op(kind: Kind) -> bool
    ensures { result ≡ classes.is_product_op kind }
{
    match kind {
        Kind::Star | Kind::Div | Kind::Idiv | Kind::Mod => true,
        _ => false,
    }
}

fn is_compare_op(kind: Kind) -> bool
    ensures { result ≡ classes.is_compare_op kind }
{
    match kind {
        Kind::Eq
        | Kind::Ne
        | Kind::Lt
        | Kind::Le
        | Kind::Gt
        | Kind::Ge
        | Kind::Equals
        | Kind::Differs
        | Kind::Less
        | Kind::AtMost
        | Kind::Greater
        | Kind::AtLeast => true,
        _ => false,
    }
}

fn is_times(kind: Kind) -> bool
    ensures { result ≡ classes.is_times kind }
{
    match kind {
        Kind::Question | Kind::Star | Kind::Plus => true,
        _ => false,
    }
}

fn is_direction(kind: Kind) -> bool
    ensures { result ≡ classes.is_direction kind }
{
    match kind {
        Kind::Ascending | Kind::Descending => true,
        _ => false,
    }
}

fn is_extreme(kind: Kind) -> bool
    ensures { result ≡ classes.is_extreme kind }
{
    match kind {
        Kind::Least | Kind::Greatest => true,
        _ => false,
    }
}

fn is_quantifier(kind: Kind) -> bool
    ensures { result ≡ classes.is_quantifier kind }
{
    match kind {
        Kind::Some | Kind::Every => true,
        _ => false,
    }
}

fn is_window(kind: Kind) -> bool
    ensures { result ≡ classes.is_window kind }
{
    match kind {
        Kind::Tumbling | Kind::Sliding => true,
        _ => false,
    }
}

fn is_literal(kind: Kind, wide: bool) -> bool
    ensures { result ≡ classes.is_literal wide kind }
{
    match kind {
        Kind::Int
        | Kind::Dec
        | Kind::Text
        | Kind::True
        | Kind::False
        | Kind::Null
        | Kind::Var
        | Kind::Context => true,
        Kind::Double => wide,
        _ => false,
    }
}

fn single_first(kind: Kind, wide: bool, room: bool) -> bool
    ensures { result ≡ classes.single_first wide room kind }
{
    match kind {
        Kind::Declare
        | Kind::EmptySequence
        | Kind::CloseMerge
        | Kind::Bars
        | Kind::Assign
        | Kind::Differs
        | Kind::AtMost
        | Kind::AtLeast
        | Kind::CloseParen
        | Kind::CloseBracket
        | Kind::CloseBrace
        | Kind::Comma => false,
        Kind::Semicolon
        | Kind::Colon
        | Kind::Dot
        | Kind::Bang
        | Kind::Bar
        | Kind::Star
        | Kind::Equals
        | Kind::Less
        | Kind::Greater
        | Kind::Hash
        | Kind::Question => false,
        Kind::Function | Kind::Double => wide,
        Kind::Not
        | Kind::True
        | Kind::False
        | Kind::Null
        | Kind::Var
        | Kind::Context
        | Kind::Int
        | Kind::Dec
        | Kind::Text
        | Kind::Plus
        | Kind::Minus => true,
        _ => room,
    }
}

fn pair_first(kind: Kind, wide: bool, room: bool) -> bool
    ensures { result ≡ classes.pair_first wide room kind }
{
    match kind {
        Kind::Double => wide,
        Kind::OpenMerge | Kind::OpenParen | Kind::OpenBracket | Kind::OpenBrace => room,
        Kind::CloseMerge
        | Kind::Bars
        | Kind::Assign
        | Kind::Differs
        | Kind::AtMost
        | Kind::AtLeast
        | Kind::CloseParen
        | Kind::CloseBracket
        | Kind::CloseBrace
        | Kind::Comma
        | Kind::Semicolon
        | Kind::Colon => false,
        Kind::Dot
        | Kind::Bang
        | Kind::Bar
        | Kind::Star
        | Kind::Equals
        | Kind::Less
        | Kind::Greater
        | Kind::Hash
        | Kind::Question => false,
        _ => true,
    }
}

fn argument_first(kind: Kind, wide: bool, room: bool) -> bool
    ensures { result ≡ classes.argument_first wide room kind }
{
    match kind {
        Kind::Declare
        | Kind::EmptySequence
        | Kind::CloseMerge
        | Kind::Bars
        | Kind::Assign
        | Kind::Differs
        | Kind::AtMost
        | Kind::AtLeast
        | Kind::CloseParen
        | Kind::CloseBracket
        | Kind::CloseBrace
        | Kind::Comma => false,
        Kind::Semicolon
        | Kind::Colon
        | Kind::Dot
        | Kind::Bang
        | Kind::Bar
        | Kind::Star
        | Kind::Equals
        | Kind::Less
        | Kind::Greater
        | Kind::Hash => false,
        Kind::Function | Kind::Double | Kind::Question => wide,
        Kind::Not
        | Kind::True
        | Kind::False
        | Kind::Null
        | Kind::Var
        | Kind::Context
        | Kind::Int
        | Kind::Dec
        | Kind::Text
        | Kind::Plus
        | Kind::Minus => true,
        _ => room,
    }
}

fn step_first(kind: Kind, wide: bool) -> bool
    ensures { result ≡ classes.step_first wide kind }
{
    match kind {
        Kind::OpenParen => wide,
        Kind::OpenBracket | Kind::Dot => true,
        _ => false,
    }
}

fn order_clause_first(kind: Kind) -> bool
    ensures { result ≡ classes.order_clause_first kind }
{
    match kind {
        Kind::Stable | Kind::Order => true,
        _ => false,
    }
}

fn first_clause_first(kind: Kind) -> bool
    ensures { result ≡ classes.first_clause_first kind }
{
    match kind {
        Kind::For | Kind::Let => true,
        _ => false,
    }
}

fn clause_first(kind: Kind) -> bool
    ensures { result ≡ classes.clause_first kind }
{
    match kind {
        Kind::For
        | Kind::Let
        | Kind::Where
        | Kind::Group
        | Kind::Stable
        | Kind::Order
        | Kind::Count => true,
        _ => false,
    }
}

fn flwor_first(kind: Kind, room: bool) -> bool
    ensures { result ≡ classes.flwor_first room kind }
{
    match kind {
        Kind::For | Kind::Let => room,
        _ => false,
    }
}
