//! The tokens of queries.

use query_lexer::{LexFault, laws, tokens};
use std::alloc::Global;
use std::process::Abort;
use std::test::Fail;

/// The kinds of the tokens with their spans, a blank before each, or the refusal.
fn shown(alloc: Global, text: &str) -> Result<String, Fail> {
    let mut out = String::new(alloc);
    match tokens(alloc, text) {
        Ok(list) => {
            for token in &list {
                let kind = token.kind;
                let from = token.from;
                let to = token.to;
                out.push_str(&format!(in alloc; " {kind:?} {from}-{to}")?)?;
            }
        }
        Err(LexFault::Refused { code, place }) => {
            let code = code.text();
            out.push_str(&format!(in alloc; " {code} {place}")?)?;
        }
        Err(LexFault::NoMemory) => out.push_str("no memory")?,
    }
    Ok(out)
}

/// Goes through a table with a text and its tokens on each line, between them `=>`; in the text `'`
/// stands for a quotation mark.
fn assert_tokens<R: Abort>(rt: &R, alloc: Global, table: &str) -> Result<(), Fail> {
    for row in table.split('\n') {
        if let Some((text, want)) = row.split_once(" =>") {
            let mut quoted = String::new(alloc);
            for character in text.chars() {
                quoted.push(if character == '\'' { '"' } else { character })?;
            }
            let found = shown(alloc, quoted.as_str())?;
            assert_eq!(rt; found.as_str(), want, "{text}");
        } else {
            assert!(rt; row.is_empty(), "{row}");
        }
    }
    Ok(())
}

// Names, variables and marks.
const MARKS: &str = "
\t\r a_1-b => Name 3-8
$x $$ => Var 0-2 Context 3-5
$$$x => Context 0-2 Var 2-4
a $ => XPST0003 2
$ x => XPST0003 0
$err:code => Var 0-9
$err:code.x => Var 0-9 Mark 9-10 Name 10-11
$err:codex => Var 0-4 Mark 4-5 Name 5-10
$err:code- => Var 0-4 Mark 4-5 Name 5-10
$err:cod => Var 0-4 Mark 4-5 Name 5-8
{||} => Mark 0-2 Mark 2-4
{| => Mark 0-2
|} => Mark 0-2
||} => Mark 0-2 Mark 2-3
||| => Mark 0-2 Mark 2-3
!==<=:= : => Mark 0-2 Mark 2-3 Mark 3-5 Mark 5-7 Mark 8-9
a% => XPST0003 1
\u{b} => XPST0003 0
a é => XPST0003 2
\u{a0} => XPST0003 0
";

#[test]
fn finds_words_and_marks(rt: HostRuntime) -> Result<(), Fail> {
    assert_tokens(&rt, rt.alloc(), MARKS)
}

// Literals of numbers, and their bounds.
const NUMBERS: &str = "
1. => Int 0-1 Mark 1-2
.5 => Dec 0-2
1..2 => Int 0-1 Mark 1-2 Dec 2-4
1.5.2 => Dec 0-3 Dec 3-5
1e5 1.5E-3 => Double 0-3 Double 4-10
1e => XPST0003 0
1e+ => XPST0003 0
1e5x => XPST0003 0
12ab => XPST0003 0
.5e => XPST0003 0
1.e5 => Int 0-1 Mark 1-2 Name 2-4
a 1_ => XPST0003 2
1-2 => Int 0-1 Mark 1-2 Int 2-3
.e5 => Mark 0-1 Name 1-3
99999999999999999999 => Int 0-20
100000000000000000000 => PJST0004 0
000000000000000000000001 => Int 0-24
100000000000000000000x => XPST0003 0
99999999999999999999.9999994 => Dec 0-28
 99999999999999999999.9999995 => PJST0004 1
1e400 => Double 0-5
";

#[test]
fn finds_numbers(rt: HostRuntime) -> Result<(), Fail> {
    assert_tokens(&rt, rt.alloc(), NUMBERS)
}

// Comments, which nest.
const COMMENTS: &str = "
(: a (: b :) c :) x => Name 18-19
(::) =>
(: ' :) =>
(:) => XPST0003 0
(:(:) => XPST0003 0
a (: b (: c :) => XPST0003 2
:) => Mark 0-1 Mark 1-2
1(::)e5 => Int 0-1 Name 5-7
(:(::):) (: é :)x => Name 17-18
";

#[test]
fn skips_comments(rt: HostRuntime) -> Result<(), Fail> {
    assert_tokens(&rt, rt.alloc(), COMMENTS)
}

// Strings with their escapes.
const STRINGS: &str = "
'' => Text 0-2
'a\\n\\u00e9' b => Text 0-11 Name 12-13
'\\'''(:' => Text 0-4 Text 4-8
'é' x => Text 0-4 Name 5-6
'é' é => XPST0003 5
'a => XPST0003 0
x '\\ => XPST0003 2
'\t' => XPST0003 0
'\\x' => XPST0003 0
'\\u00g0' => XPST0003 0
'\\u00' => XPST0003 0
";

#[test]
fn finds_strings(rt: HostRuntime) -> Result<(), Fail> {
    assert_tokens(&rt, rt.alloc(), STRINGS)
}

// Texts of the greatest length take no time that grows with the square of it.
#[test]
fn takes_linear_time(rt: HostRuntime) -> Result<(), Fail> {
    let alloc = rt.alloc();
    for (before, count, part, after, want) in [
        ("", 524_288, "(:", "", " XPST0003 0"),
        ("", 262_144, "(::)", "a", " Name 1048576-1048577"),
        ("\"", 174_762, "\\ud800", "", " XPST0003 0"),
        ("", 1_048_576, "9", "", " PJST0004 0"),
    ] {
        let mut text = String::from_str(alloc, before)?;
        for _ in 0..count {
            text.push_str(part)?;
        }
        text.push_str(after)?;
        assert_eq!(rt; shown(alloc, text.as_str())?.as_str(), want, "{part}");
    }
    Ok(())
}

#[test]
fn has_laws() {
    laws::reading_is_one();
    laws::comments_nest();
}
