//! The table of the language's functions.

ghost use Rattle.std.specs.Prelude.{◌≡◌};
ghost use Rattle.std.specs.Str.{chars};
ghost use Rattle.item_tree.specs.Functions.{signature, name_of, allows, is_called, function_named};

/// A function of the query language with its number of arguments. `json-lines`, which opens an
/// input, is none of them.
#[derive(Clone, Copy, Debug, PartialEq, Eq)]
pub enum FnId {
    /// `count`: the number of items.
    Count,
    /// `empty`: whether there is no item.
    Empty,
    /// `exists`: whether there is an item.
    Exists,
    /// `head`: the first item, if there is one.
    Head,
    /// `tail`: all items but the first.
    Tail,
    /// `reverse`: the items turned round.
    Reverse,
    /// `subsequence`: the items from a position on.
    Subsequence,
    /// `subsequence` with 3 arguments: so many items from a position on.
    Subsequence3,
    /// `insert-before`: items put in before a position.
    InsertBefore,
    /// `remove`: the items without the one at a position.
    Remove,
    /// `distinct-values`: the first of each group of equal atomics.
    DistinctValues,
    /// `index-of`: the positions of an atomic.
    IndexOf,
    /// `deep-equal`: whether two sequences are deeply equal.
    DeepEqual,
    /// `boolean`: the effective boolean value.
    Boolean,
    /// `zero-or-one`: the sequence, of at most one item.
    ZeroOrOne,
    /// `one-or-more`: the sequence, of at least one item.
    OneOrMore,
    /// `exactly-one`: the sequence, of one item.
    ExactlyOne,
    /// `keys`: the different keys of objects.
    Keys,
    /// `values`: the values of objects.
    Values,
    /// `members`: the members of arrays.
    Members,
    /// `size`: the number of an array's members.
    Size,
    /// `project`: objects with some keys alone.
    Project,
    /// `remove-keys`: objects without some keys.
    RemoveKeys,
    /// `flatten`: arrays replaced by their members, at every depth.
    Flatten,
    /// `descendant-objects`: all objects, also inside items.
    DescendantObjects,
    /// `descendant-arrays`: all arrays, also inside items.
    DescendantArrays,
    /// `accumulate`: objects put together into one.
    Accumulate,
    /// `abs`: the absolute value.
    Abs,
    /// `floor`: the greatest whole number that is not above.
    Floor,
    /// `ceiling`: the least whole number that is not below.
    Ceiling,
    /// `round`: the nearest whole number, a half towards positive infinity.
    Round,
    /// `round-half-to-even`: the nearest whole number, a half to the even one.
    RoundHalfToEven,
    /// `sum`: the exact total.
    Sum,
    /// `avg`: the mean.
    Avg,
    /// `min`: the first of the least.
    Min,
    /// `max`: the first of the greatest.
    Max,
    /// `string`: the text of an atomic.
    String,
    /// `concat`: the texts of two or more atomics put together.
    Concat,
    /// `string-join`: the texts of atomics put together.
    StringJoin,
    /// `string-join` with 2 arguments: the texts of atomics, with a text between them.
    StringJoin2,
    /// `string-length`: the number of characters.
    StringLength,
    /// `substring`: the characters from a position on.
    Substring,
    /// `substring` with 3 arguments: so many characters from a position on.
    Substring3,
    /// `contains`: whether a text stands in another.
    Contains,
    /// `starts-with`: whether a text begins another.
    StartsWith,
    /// `ends-with`: whether a text ends another.
    EndsWith,
    /// `substring-before`: what stands before the first occurrence of a text.
    SubstringBefore,
    /// `substring-after`: what stands after the first occurrence of a text.
    SubstringAfter,
    /// `normalize-space`: the words, with one space between them.
    NormalizeSpace,
    /// `tokenize`: the words, as a sequence.
    Tokenize,
    /// `translate`: each character replaced by its partner.
    Translate,
    /// `string-to-codepoints`: the code points.
    StringToCodepoints,
    /// `serialize`: the JSON text of an item.
    Serialize,
    /// `parse-json`: the item of a JSON text.
    ParseJson,
    /// `error`: no value: the error of the query's own.
    Error,
    /// `year-from-date`: the year of a date.
    YearFromDate,
    /// `month-from-date`: the month of a date.
    MonthFromDate,
    /// `day-from-date`: the day of the month of a date.
    DayFromDate,
    /// `add-days`: the date so many days after a date.
    AddDays,
    /// `days-between`: the number of days from a date to another.
    DaysBetween,
}

// How many arguments a function takes.
#[derive(Clone, Copy)]
enum Arity {
    Exactly(usize),
    AtLeast(usize),
}

impl Arity {
    fn allows(self, count: usize) -> bool
        ensures { result ≡ allows self count }
    {
        match self {
            Arity::Exactly(n) => count == n,
            Arity::AtLeast(n) => count >= n,
        }
    }
}

impl FnId {
    /// The function of this name that takes so many arguments. `None` exactly where there is none.
    pub fn find(name: &str, arity: usize) -> Option<FnId>
        ensures { result ≡ function_named (chars name.now) arity }
    {
        FnId::ALL
            .iter()
            .copied()
            .find(|id| id.is_called(name, arity))
    }

    /// The name as a query writes it.
    pub fn name(self) -> &'static str
        ensures { result.now ≡ name_of self }
    {
        self.signature().0
    }

    fn is_called(self, name: &str, arity: usize) -> bool
        ensures { result ≡ is_called (chars name.now) arity self }
    {
        let (own, takes) = self.signature();
        name == own && takes.allows(arity)
    }

    // All of them, in the order of the table.
    const ALL: [FnId; 60] = [
        FnId::Count,
        FnId::Empty,
        FnId::Exists,
        FnId::Head,
        FnId::Tail,
        FnId::Reverse,
        FnId::Subsequence,
        FnId::Subsequence3,
        FnId::InsertBefore,
        FnId::Remove,
        FnId::DistinctValues,
        FnId::IndexOf,
        FnId::DeepEqual,
        FnId::Boolean,
        FnId::ZeroOrOne,
        FnId::OneOrMore,
        FnId::ExactlyOne,
        FnId::Keys,
        FnId::Values,
        FnId::Members,
        FnId::Size,
        FnId::Project,
        FnId::RemoveKeys,
        FnId::Flatten,
        FnId::DescendantObjects,
        FnId::DescendantArrays,
        FnId::Accumulate,
        FnId::Abs,
        FnId::Floor,
        FnId::Ceiling,
        FnId::Round,
        FnId::RoundHalfToEven,
        FnId::Sum,
        FnId::Avg,
        FnId::Min,
        FnId::Max,
        FnId::String,
        FnId::Concat,
        FnId::StringJoin,
        FnId::StringJoin2,
        FnId::StringLength,
        FnId::Substring,
        FnId::Substring3,
        FnId::Contains,
        FnId::StartsWith,
        FnId::EndsWith,
        FnId::SubstringBefore,
        FnId::SubstringAfter,
        FnId::NormalizeSpace,
        FnId::Tokenize,
        FnId::Translate,
        FnId::StringToCodepoints,
        FnId::Serialize,
        FnId::ParseJson,
        FnId::Error,
        FnId::YearFromDate,
        FnId::MonthFromDate,
        FnId::DayFromDate,
        FnId::AddDays,
        FnId::DaysBetween,
    ];

    // The table: the name, and how many arguments there are.
    fn signature(self) -> (&'static str, Arity)
        ensures name { result.0.now ≡ (signature self).0 }
        ensures arity { result.1 ≡ (signature self).1 }
    {
        use Arity::{AtLeast, Exactly};
        match self {
            FnId::Count => ("count", Exactly(1)),
            FnId::Empty => ("empty", Exactly(1)),
            FnId::Exists => ("exists", Exactly(1)),
            FnId::Head => ("head", Exactly(1)),
            FnId::Tail => ("tail", Exactly(1)),
            FnId::Reverse => ("reverse", Exactly(1)),
            FnId::Subsequence => ("subsequence", Exactly(2)),
            FnId::Subsequence3 => ("subsequence", Exactly(3)),
            FnId::InsertBefore => ("insert-before", Exactly(3)),
            FnId::Remove => ("remove", Exactly(2)),
            FnId::DistinctValues => ("distinct-values", Exactly(1)),
            FnId::IndexOf => ("index-of", Exactly(2)),
            FnId::DeepEqual => ("deep-equal", Exactly(2)),
            FnId::Boolean => ("boolean", Exactly(1)),
            FnId::ZeroOrOne => ("zero-or-one", Exactly(1)),
            FnId::OneOrMore => ("one-or-more", Exactly(1)),
            FnId::ExactlyOne => ("exactly-one", Exactly(1)),
            FnId::Keys => ("keys", Exactly(1)),
            FnId::Values => ("values", Exactly(1)),
            FnId::Members => ("members", Exactly(1)),
            FnId::Size => ("size", Exactly(1)),
            FnId::Project => ("project", Exactly(2)),
            FnId::RemoveKeys => ("remove-keys", Exactly(2)),
            FnId::Flatten => ("flatten", Exactly(1)),
            FnId::DescendantObjects => ("descendant-objects", Exactly(1)),
            FnId::DescendantArrays => ("descendant-arrays", Exactly(1)),
            FnId::Accumulate => ("accumulate", Exactly(1)),
            FnId::Abs => ("abs", Exactly(1)),
            FnId::Floor => ("floor", Exactly(1)),
            FnId::Ceiling => ("ceiling", Exactly(1)),
            FnId::Round => ("round", Exactly(1)),
            FnId::RoundHalfToEven => ("round-half-to-even", Exactly(1)),
            FnId::Sum => ("sum", Exactly(1)),
            FnId::Avg => ("avg", Exactly(1)),
            FnId::Min => ("min", Exactly(1)),
            FnId::Max => ("max", Exactly(1)),
            FnId::String => ("string", Exactly(1)),
            FnId::Concat => ("concat", AtLeast(2)),
            FnId::StringJoin => ("string-join", Exactly(1)),
            FnId::StringJoin2 => ("string-join", Exactly(2)),
            FnId::StringLength => ("string-length", Exactly(1)),
            FnId::Substring => ("substring", Exactly(2)),
            FnId::Substring3 => ("substring", Exactly(3)),
            FnId::Contains => ("contains", Exactly(2)),
            FnId::StartsWith => ("starts-with", Exactly(2)),
            FnId::EndsWith => ("ends-with", Exactly(2)),
            FnId::SubstringBefore => ("substring-before", Exactly(2)),
            FnId::SubstringAfter => ("substring-after", Exactly(2)),
            FnId::NormalizeSpace => ("normalize-space", Exactly(1)),
            FnId::Tokenize => ("tokenize", Exactly(1)),
            FnId::Translate => ("translate", Exactly(3)),
            FnId::StringToCodepoints => ("string-to-codepoints", Exactly(1)),
            FnId::Serialize => ("serialize", Exactly(1)),
            FnId::ParseJson => ("parse-json", Exactly(1)),
            FnId::Error => ("error", Exactly(0)),
            FnId::YearFromDate => ("year-from-date", Exactly(1)),
            FnId::MonthFromDate => ("month-from-date", Exactly(1)),
            FnId::DayFromDate => ("day-from-date", Exactly(1)),
            FnId::AddDays => ("add-days", Exactly(2)),
            FnId::DaysBetween => ("days-between", Exactly(2)),
        }
    }
}
