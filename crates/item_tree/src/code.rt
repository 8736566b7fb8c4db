//! The codes of errors.

ghost use Rattle.std.specs.Prelude.{◌≡◌};
ghost use Rattle.item_tree.specs.Codes.{code_text};

/// What went wrong, by the codes of XQuery, of JSONiq and of this engine.
///
/// A code with `ST`, and `XPDY0002`, refuse a query before it runs; any other is raised by a run.
#[derive(Clone, Copy, Debug, PartialEq, Eq)]
pub enum Code {
    /// The text is not of the grammar.
    XPST0003,
    /// A variable that nothing binds.
    XPST0008,
    /// A function that does not exist, or not with so many arguments.
    XPST0017,
    /// A type that does not exist.
    XPST0051,
    /// A function is declared twice.
    XQST0034,
    /// A function has one parameter twice.
    XQST0039,
    /// A variable is declared twice.
    XQST0049,
    /// A position variable has the name of its own variable.
    XQST0089,
    /// A grouping variable is none of the stream.
    XQST0094,
    /// There is no context item where `$$` stands.
    XPDY0002,
    /// A `treat as` does not hold.
    XPDY0050,
    /// A wrong type, or a wrong number of items.
    XPTY0004,
    /// A divisor is zero.
    FOAR0001,
    /// A number is out of bounds.
    FOAR0002,
    /// A value cannot be cast.
    FORG0001,
    /// Not zero or one item.
    FORG0003,
    /// Not one or more items.
    FORG0004,
    /// Not exactly one item.
    FORG0005,
    /// No effective boolean value, or a wrong argument of an aggregate.
    FORG0006,
    /// The query called `error()`.
    FOER0000,
    /// An input does not exist.
    FODC0002,
    /// An object has one key twice.
    JNDY0003,
    /// A text is no JSON.
    JNDY0021,
    /// An object or an array where an atomic is wanted.
    JNTY0004,
    /// The key of a lookup is not one atomic.
    JNTY0018,
    /// A form of the language that this engine refuses.
    PJST0001,
    /// `json-lines` is called without a literal name.
    PJST0002,
    /// A query is nested more than 100 deep.
    PJST0003,
    /// A literal is out of range.
    PJST0004,
    /// A query is too long.
    PJST0005,
    /// An import leads back to a file that is being loaded.
    PJST0006,
    /// An imported library does not exist.
    PJST0007,
    /// An import would load a 65th file, the query counted.
    PJST0008,
    /// A library's body is not `()`.
    PJST0009,
    /// An evaluation is more than 1,000 deep.
    PJDY0001,
    /// An item is more than 128 deep.
    PJDY0002,
    /// A range has more than 10,000,000 items.
    PJDY0003,
    /// A number of a line is out of range.
    PJDY0004,
}

impl Code {
    /// The code as it is printed: the variant's name.
    pub fn text(&self) -> &str
        ensures { result.now ≡ code_text self.now }
    {
        match self {
            Code::XPST0003 => "XPST0003",
            Code::XPST0008 => "XPST0008",
            Code::XPST0017 => "XPST0017",
            Code::XPST0051 => "XPST0051",
            Code::XQST0034 => "XQST0034",
            Code::XQST0039 => "XQST0039",
            Code::XQST0049 => "XQST0049",
            Code::XQST0089 => "XQST0089",
            Code::XQST0094 => "XQST0094",
            Code::XPDY0002 => "XPDY0002",
            Code::XPDY0050 => "XPDY0050",
            Code::XPTY0004 => "XPTY0004",
            Code::FOAR0001 => "FOAR0001",
            Code::FOAR0002 => "FOAR0002",
            Code::FORG0001 => "FORG0001",
            Code::FORG0003 => "FORG0003",
            Code::FORG0004 => "FORG0004",
            Code::FORG0005 => "FORG0005",
            Code::FORG0006 => "FORG0006",
            Code::FOER0000 => "FOER0000",
            Code::FODC0002 => "FODC0002",
            Code::JNDY0003 => "JNDY0003",
            Code::JNDY0021 => "JNDY0021",
            Code::JNTY0004 => "JNTY0004",
            Code::JNTY0018 => "JNTY0018",
            Code::PJST0001 => "PJST0001",
            Code::PJST0002 => "PJST0002",
            Code::PJST0003 => "PJST0003",
            Code::PJST0004 => "PJST0004",
            Code::PJST0005 => "PJST0005",
            Code::PJST0006 => "PJST0006",
            Code::PJST0007 => "PJST0007",
            Code::PJST0008 => "PJST0008",
            Code::PJST0009 => "PJST0009",
            Code::PJDY0001 => "PJDY0001",
            Code::PJDY0002 => "PJDY0002",
            Code::PJDY0003 => "PJDY0003",
            Code::PJDY0004 => "PJDY0004",
        }
    }
}
