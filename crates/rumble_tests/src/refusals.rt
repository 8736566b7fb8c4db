//! Refusals by the tokens and the grammar of a query, with their places, and the bound on nesting.

use crate::runs::{assert_accepted, assert_refused, assert_rows};
use std::alloc::Global;
use std::test::Fail;

// Operators, types and declarations out of place.
const OPERATORS: &str = "
1 instance of integer + 1
? XPST0003 at 1:25

1 instance of empty-sequence + 1
? XPST0003 at 1:32

1 treat as item * 2
? XPST0003 at 1:19

1 to 2 to 3
? XPST0003 at 1:8

1 eq 2 eq 3
? XPST0003 at 1:8

1 = = 2
? XPST0003 at 1:5

not not 1
? XPST0003 at 1:5

for $x as empty-sequence()? in 1
? XPST0003 at 1:27

declare(1)
? XPST0003 at 1:8

declare
? XPST0003 at 1:8

declare variable $x := 1
? XPST0003 at 1:25

declare function f($a,) { 1 }; 2
? XPST0003 at 1:23

declare function if { 1 }; 2
? XPST0003 at 1:21
";

#[test]
fn refuses_operators_out_of_place(rt: HostRuntime) -> Result<(), Fail> {
    assert_rows(&rt, rt.alloc(), OPERATORS, 13)
}

// Forms of larger languages, and texts that only begin like one.
const LEFT_OUT: &str = "
1e0
? PJST0001 at 1:1

foo#1
? PJST0001 at 1:4

foo(?)
? PJST0001 at 1:5

foo(1, ?)
? PJST0001 at 1:8

$f(1)
? PJST0001 at 1:3

(1)(2)
? PJST0001 at 1:4

true()
? PJST0001 at 1:5

function ($x) { 1 }
? PJST0001 at 1:1

{function (
? PJST0001 at 1:11

for tumbling window $w in 1
? PJST0001 at 1:5

1 + 2e1
? PJST0001 at 1:5

{declare 1
? XPST0003 at 1:10

{function 1
? XPST0003 at 1:11

{for $x
? XPST0003 at 1:8

function 1
? PJST0001 at 1:1
";

#[test]
fn refuses_forms_left_out_of_the_language(rt: HostRuntime) -> Result<(), Fail> {
    assert_rows(&rt, rt.alloc(), LEFT_OUT, 15)
}

// Texts that end inside a part.
const EARLY_ENDS: &str = "
1 +
? XPST0003 at 1:4

1 + (: c :) 
? XPST0003 at 1:13

(
? XPST0003 at 1:2

{
? XPST0003 at 1:2

{a
? XPST0003 at 1:3

{a :
? XPST0003 at 1:5

for
? XPST0003 at 1:4

for $x
? XPST0003 at 1:7

$x[
? XPST0003 at 1:4

$x[[
? XPST0003 at 1:5

$x[[1]
? XPST0003 at 1:7

$x.
? XPST0003 at 1:4
";

#[test]
fn refuses_texts_that_end_early(rt: HostRuntime) -> Result<(), Fail> {
    assert_rows(&rt, rt.alloc(), EARLY_ENDS, 12)
}

// Forms without their last part.
const MISSING_PARTS: &str = "
if (1) then 2
? XPST0003 at 1:14

try { 1 }
? XPST0003 at 1:10

typeswitch (1) case integer return 1
? XPST0003 at 1:37

switch (1) case 1 return 2
? XPST0003 at 1:27

some $x in 1
? XPST0003 at 1:13

let $x := 1
? XPST0003 at 1:12

1 cast as
? XPST0003 at 1:10

1 instance of
? XPST0003 at 1:14

if(1)
? XPST0003 at 1:6

$x[[1],
? XPST0003 at 1:7
";

#[test]
fn refuses_forms_that_end_early(rt: HostRuntime) -> Result<(), Fail> {
    assert_rows(&rt, rt.alloc(), MISSING_PARTS, 10)
}

// Tokens where none of their kind may stand.
const TOKENS: &str = "
)
? XPST0003 at 1:1

1 )
? XPST0003 at 1:3

1 2
? XPST0003 at 1:3

,
? XPST0003 at 1:1

1,,2
? XPST0003 at 1:3

(1,)
? XPST0003 at 1:4

f(1,)
? XPST0003 at 1:5

{'a' : 1,}
? XPST0003 at 1:10

[1,]
? XPST0003 at 1:4

$x .1
? XPST0003 at 1:4
";

#[test]
fn refuses_tokens_out_of_place(rt: HostRuntime) -> Result<(), Fail> {
    assert_rows(&rt, rt.alloc(), TOKENS, 10)
}

// Words where another one must stand.
const WORDS: &str = "
try { } catch * { 1 }
? XPST0003 at 1:7

switch (1) default return 2
? XPST0003 at 1:12

some(1)
? XPST0003 at 1:5

for(1)
? XPST0003 at 1:4

let(1)
? XPST0003 at 1:4

empty-sequence()
? XPST0003 at 1:1

{a 1
? XPST0003 at 1:4

{1,
? XPST0003 at 1:3

1 or or 2
? XPST0003 at 1:9

for $x in 1 where 2
? XPST0003 at 1:20

for $x in 1 order $x
? XPST0003 at 1:19

try { 1 } catch { 2 }
? XPST0003 at 1:17

let x := 1 return 2
? XPST0003 at 1:5

for $x in return
? XPST0003 at 1:17
";

#[test]
fn refuses_words_out_of_place(rt: HostRuntime) -> Result<(), Fail> {
    assert_rows(&rt, rt.alloc(), WORDS, 14)
}

// Places behind line ends, comments and a byte order mark, and what is refused first.
const PLACES: &str = "
1 +
? XPST0003 at 1:4

count(1,
  )
? XPST0003 at 2:3

1 (: a (: b :)
? XPST0003 at 1:3

1a
? XPST0003 at 1:1

) ~
? XPST0003 at 1:3

1e0 100000000000000000000
? PJST0004 at 1:5

100000000000000000000
? PJST0004 at 1:1

\u{feff}1 +
? XPST0003 at 1:4

\u{feff}\u{feff}1
? XPST0003 at 1:1

for tumbling
? PJST0001 at 1:5

1
= accepted

json-lines('none')
= accepted

\u{feff}1
= accepted

 (: a (: b :) :) {'k': [1, 2.5]}.k[[1]]
= accepted

declare variable $x := 1; for $y in 1 to $x return $y
= accepted
";

#[test]
fn places_refusals(rt: HostRuntime) -> Result<(), Fail> {
    assert_rows(&rt, rt.alloc(), PLACES, 15)
}

// Bytes that no row of a text can have: none at all, line feeds at an end, and bytes that are part
// of no character, which go before all else in the text.
#[test]
fn refuses_bytes(rt: HostRuntime) -> Result<(), Fail> {
    let cases: [(&[u8], &str); 12] = [
        (b"", "XPST0003 at 1:1"),
        (b"\xef\xbb\xbf", "XPST0003 at 1:1"),
        (b"1 +\n", "XPST0003 at 2:1"),
        (b"\n\"a", "XPST0003 at 2:1"),
        (b"(: \xc3\xbc :) )", "XPST0003 at 1:9"),
        (b"\xe2\x82A", "XPST0003 at 1:1"),
        (b"\xef\xbb\xbf1\n \xff", "XPST0003 at 2:2"),
        (b"1 (: \xc3\xbc :) \xc3", "XPST0003 at 1:11"),
        (b"\"\xed\xa0\x80\"", "XPST0003 at 1:2"),
        (b"\xf0\x9f\x98", "XPST0003 at 1:1"),
        (b"100000000000000000000 \x80", "XPST0003 at 1:23"),
        (b"1 ~", "XPST0003 at 1:3"),
    ];
    for (query, at) in cases {
        assert_refused(&rt, rt.alloc(), query, at)?;
    }
    Ok(())
}

// A byte this often, and then another one this often.
fn repeated(alloc: Global, first: (u8, usize), then: (u8, usize)) -> Result<Vec<u8>, Fail> {
    let mut text = vec![in alloc; first.0; first.1]?;
    for _ in 0..then.1 {
        text.push(then.0)?;
    }
    Ok(text)
}

// The longest query is accepted, one of many operators is compiled, and what is too long is refused
// whatever it holds.
#[test]
fn bounds_the_length(rt: HostRuntime) -> Result<(), Fail> {
    let alloc = rt.alloc();
    assert_accepted(&rt, alloc, &repeated(alloc, (b'1', 1), (b' ', 1_048_575))?)?;
    assert_accepted(&rt, alloc, &repeated(alloc, (b'-', 100_000), (b'1', 1))?)?;
    let long = repeated(alloc, (b'\xff', 1), (b' ', 1_048_576))?;
    assert_refused(&rt, alloc, &long, "PJST0005 at 1:1")?;
    let mut marked = b"\xef\xbb\xbf1".to_vec(alloc)?;
    marked.extend_from_slice(&repeated(alloc, (b' ', 1), (b' ', 1_048_572))?)?;
    assert_refused(&rt, alloc, &marked, "PJST0005 at 1:1")
}

// The place of a byte that begins no token, behind this many spaces and then this many line feeds:
// with both, they are within 32 bytes, on either side of the end of 32, and behind 64.
#[test]
fn places_refusals_behind_lines(rt: HostRuntime) -> Result<(), Fail> {
    let alloc = rt.alloc();
    let cases: [(usize, usize, &str); 10] = [
        (0, 31, "XPST0003 at 32:1"),
        (0, 32, "XPST0003 at 33:1"),
        (0, 33, "XPST0003 at 34:1"),
        (0, 64, "XPST0003 at 65:1"),
        (0, 65, "XPST0003 at 66:1"),
        (0, 100, "XPST0003 at 101:1"),
        (30, 1, "XPST0003 at 2:1"),
        (31, 2, "XPST0003 at 3:1"),
        (64, 3, "XPST0003 at 4:1"),
        (64, 0, "XPST0003 at 1:65"),
    ];
    for (spaces, feeds, at) in cases {
        let mut query = repeated(alloc, (b' ', spaces), (b'\n', feeds))?;
        query.push(b'~')?;
        assert_refused(&rt, alloc, &query, at)?;
    }
    Ok(())
}

/// A text inside this many parentheses that open, and this many that close.
fn nested(alloc: Global, opens: usize, text: &str, closes: usize) -> Result<Vec<u8>, Fail> {
    let mut query = vec![in alloc; b'('; opens]?;
    query.extend_from_slice(text.as_bytes())?;
    for _ in 0..closes {
        query.push(b')')?;
    }
    Ok(query)
}

// One form more than may nest is refused at its first token, whatever follows.
#[test]
fn refuses_forms_beyond_the_bound(rt: HostRuntime) -> Result<(), Fail> {
    let alloc = rt.alloc();
    let forms = [
        "(",
        "{",
        "{|",
        "[",
        "f(",
        "if (",
        "for",
        "let",
        "some",
        "every",
        "switch (",
        "typeswitch (",
        "try {",
        "1e0",
    ];
    for form in forms {
        let opens = if form == "1e0" { 101 } else { 100 };
        let query = nested(alloc, opens, form, 0)?;
        assert_refused(&rt, alloc, &query, "PJST0003 at 1:101")?;
    }
    let cases: [(usize, &str, &str); 5] = [
        (100, "$x[1", "PJST0003 at 1:104"),
        (100, "$x[[1", "PJST0003 at 1:104"),
        (100, "$x.(", "PJST0003 at 1:104"),
        (99, "{if (", "PJST0003 at 1:104"),
        (99, "$x[(1)]", "PJST0003 at 1:103"),
    ];
    for (opens, form, at) in cases {
        assert_refused(&rt, alloc, &nested(alloc, opens, form, 0)?, at)?;
    }
    assert_refused(
        &rt,
        alloc,
        &nested(alloc, 99, "$x[1e0]", 99)?,
        "PJST0001 at 1:103",
    )
}

// As many forms as may nest are accepted, each as the innermost one.
#[test]
fn accepts_forms_at_the_bound(rt: HostRuntime) -> Result<(), Fail> {
    let alloc = rt.alloc();
    for operators in ["", "1 + 2"] {
        assert_accepted(&rt, alloc, &nested(alloc, 100, operators, 100)?)?;
    }
    let forms = "{| 1 |}; [1]; count(1); if (1) then 2 else 3; for $x in 1 return 2; \
        some $x in 1 satisfies 2; switch (1) case 2 return 3 default return 4; \
        typeswitch (1) case item return 2 default return 3; try { 1 } catch * { 2 }; \
        1[[1]]; 1[]; 1.a; 1.(1); {if : 1}; 1[1][1]";
    for form in forms.split("; ") {
        assert_accepted(&rt, alloc, &nested(alloc, 99, form, 99)?)?;
    }
    Ok(())
}
