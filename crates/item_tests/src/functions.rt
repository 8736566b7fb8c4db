//! Tests of the table of the language's functions.

use item_tree::{FnId, laws};

// What a name is found as with up to four arguments.
fn found(name: &str) -> [Option<FnId>; 5] {
    [0, 1, 2, 3, 4].map(|arity| FnId::find(name, arity))
}

// Found with this number of arguments alone.
fn only(arity: usize, id: FnId) -> [Option<FnId>; 5] {
    [0, 1, 2, 3, 4].map(|count| if count == arity { Some(id) } else { None })
}

#[test]
fn finds_functions_of_one_argument(rt: HostRuntime) {
    let names = "count empty exists head tail reverse distinct-values boolean zero-or-one \
        one-or-more exactly-one keys values members size flatten descendant-objects \
        descendant-arrays accumulate abs floor ceiling round round-half-to-even sum avg \
        min max string string-length normalize-space tokenize string-to-codepoints \
        serialize parse-json year-from-date month-from-date day-from-date";
    let ids = [
        FnId::Count,
        FnId::Empty,
        FnId::Exists,
        FnId::Head,
        FnId::Tail,
        FnId::Reverse,
        FnId::DistinctValues,
        FnId::Boolean,
        FnId::ZeroOrOne,
        FnId::OneOrMore,
        FnId::ExactlyOne,
        FnId::Keys,
        FnId::Values,
        FnId::Members,
        FnId::Size,
        FnId::Flatten,
        FnId::DescendantObjects,
        FnId::DescendantArrays,
        FnId::Accumulate,
        FnId::Abs,
        FnId::Floor,
        FnId::Ceiling,
        FnId::Round,
        FnId::RoundHalfToEven,
        FnId::Sum,
        FnId::Avg,
        FnId::Min,
        FnId::Max,
        FnId::String,
        FnId::StringLength,
        FnId::NormalizeSpace,
        FnId::Tokenize,
        FnId::StringToCodepoints,
        FnId::Serialize,
        FnId::ParseJson,
        FnId::YearFromDate,
        FnId::MonthFromDate,
        FnId::DayFromDate,
    ];
    for (name, id) in names.split(' ').zip(ids) {
        assert_eq!(rt; found(name), only(1, id), "{name}");
        assert_eq!(rt; id.name(), name);
    }
}

#[test]
fn finds_functions_of_other_arities(rt: HostRuntime) {
    let names = "remove index-of deep-equal project remove-keys contains starts-with ends-with \
        substring-before substring-after add-days days-between";
    let ids = [
        FnId::Remove,
        FnId::IndexOf,
        FnId::DeepEqual,
        FnId::Project,
        FnId::RemoveKeys,
        FnId::Contains,
        FnId::StartsWith,
        FnId::EndsWith,
        FnId::SubstringBefore,
        FnId::SubstringAfter,
        FnId::AddDays,
        FnId::DaysBetween,
    ];
    for (name, id) in names.split(' ').zip(ids) {
        assert_eq!(rt; found(name), only(2, id), "{name}");
        assert_eq!(rt; id.name(), name);
    }
    assert_eq!(rt; found("insert-before"), only(3, FnId::InsertBefore));
    assert_eq!(rt; found("translate"), only(3, FnId::Translate));
    assert_eq!(rt; found("error"), only(0, FnId::Error));
}

#[test]
fn finds_functions_of_more_arities(rt: HostRuntime) {
    let rows = [
        (
            "subsequence",
            [
                None,
                None,
                Some(FnId::Subsequence),
                Some(FnId::Subsequence3),
                None,
            ],
        ),
        (
            "concat",
            [
                None,
                None,
                Some(FnId::Concat),
                Some(FnId::Concat),
                Some(FnId::Concat),
            ],
        ),
        (
            "string-join",
            [
                None,
                Some(FnId::StringJoin),
                Some(FnId::StringJoin2),
                None,
                None,
            ],
        ),
        (
            "substring",
            [
                None,
                None,
                Some(FnId::Substring),
                Some(FnId::Substring3),
                None,
            ],
        ),
    ];
    for (name, want) in rows {
        assert_eq!(rt; found(name), want, "{name}");
        for id in want.into_iter().flatten() {
            assert_eq!(rt; id.name(), name);
        }
    }
    for arity in [5, 100, usize::MAX] {
        assert_eq!(rt; FnId::find("concat", arity), Some(FnId::Concat));
        assert_eq!(rt; FnId::find("substring", arity), None);
    }
}

#[test]
fn finds_no_other_functions(rt: HostRuntime) {
    let names = [
        "",
        "json-lines",
        "Count",
        "count ",
        "coun",
        "counts",
        "substring_3",
        "co\u{fc}nt",
    ];
    for name in names {
        assert_eq!(rt; found(name), [None; 5], "{name}");
    }
    laws::functions_are_found();
}
