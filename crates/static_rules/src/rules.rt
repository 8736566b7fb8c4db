//! The static rules and their refusals.

ghost use Rattle.std.specs.Prelude.{◌≡◌, if◌then◌else◌};
ghost use Rattle.static_rules.specs.Refusals.{comes_before};
ghost use Rattle.static_rules.specs.Rules.{code_of, rank};

use item_tree::Code;

/// A static rule of queries, by what breaks it.
#[derive(Clone, Copy, Debug, PartialEq, Eq)]
pub enum Rule {
    /// A variable that is read where nothing binds it.
    UnboundVariable,
    /// A call of a function that does not exist, or not with so many arguments.
    UnknownFunction,
    /// A type of sequences that does not exist.
    UnknownType,
    /// A type that a cast cannot have.
    UnknownCastType,
    /// A function that is declared twice, or is one of the language.
    FunctionTwice,
    /// A parameter that equals an earlier one.
    ParameterTwice,
    /// A variable that is declared twice.
    VariableTwice,
    /// A position variable that equals the variable of its `for`.
    PositionTwice,
    /// A grouping variable without an expression that is none of the stream.
    NoStreamVariable,
    /// A `$$` that stands for no item.
    NoContextItem,
    /// A call of `json-lines` with other arguments than 1 to 64 strings that are spelled out.
    UnnamedInput,
}

/// Where a rule is broken.
#[derive(Clone, Copy, Debug, PartialEq, Eq)]
pub struct Refusal {
    pub place: u32,
    pub rule: Rule,
}

impl Refusal {
    /// This one, or the other one where that comes before it.
    pub fn or_earlier(self, other: Refusal) -> Refusal
        ensures { result ≡ (if comes_before other self then other else self) }
    {
        if other.place < self.place
            || other.place == self.place && other.rule.rank() < self.rule.rank()
        {
            other
        } else {
            self
        }
    }
}

impl Rule {
    /// Its number among the rules: of those that are broken at one place the least is told.
    pub fn rank(self) -> u8
        ensures { result ≡ rank self }
    {
        match self {
            Rule::UnboundVariable => 1,
            Rule::UnknownFunction => 2,
            Rule::UnknownType => 3,
            Rule::UnknownCastType => 4,
            Rule::FunctionTwice => 5,
            Rule::ParameterTwice => 6,
            Rule::VariableTwice => 7,
            Rule::PositionTwice => 8,
            Rule::NoStreamVariable => 9,
            Rule::NoContextItem => 10,
            Rule::UnnamedInput => 11,
        }
    }

    /// The code of a refusal by the rule.
    pub fn code(self) -> Code
        ensures { result ≡ code_of self }
    {
        match self {
            Rule::UnboundVariable => Code::XPST0008,
            Rule::UnknownFunction => Code::XPST0017,
            Rule::UnknownType | Rule::UnknownCastType => Code::XPST0051,
            Rule::FunctionTwice => Code::XQST0034,
            Rule::ParameterTwice => Code::XQST0039,
            Rule::VariableTwice => Code::XQST0049,
            Rule::PositionTwice => Code::XQST0089,
            Rule::NoStreamVariable => Code::XQST0094,
            Rule::NoContextItem => Code::XPDY0002,
            Rule::UnnamedInput => Code::PJST0002,
        }
    }
}
