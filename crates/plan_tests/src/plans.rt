//! Queries with their plans, and with the inputs that are read beside the drivers.

use crate::printed::{names_text, once_text, plan_text};
use mode_planner::{drivers_stand_once, make_plan, names_beside_drivers};
use query_lexer::tokens;
use query_parser::parse;
use query_tree::{Compiled, Query, discard};
use static_rules::compile;
use std::alloc::Global;
use std::test::Fail;

// What is shown of a query.
#[derive(Clone, Copy)]
enum Shown {
    Plan { local: bool },
    NamesBeside,
    StandOnce,
}

fn text_of_tree(alloc: Global, text: &str, query: &Compiled, shown: Shown) -> Result<String, Fail> {
    match shown {
        Shown::Plan { local } => {
            let plan = make_plan(alloc, query.module(), local)?;
            plan_text(alloc, text, &plan)
        }
        Shown::NamesBeside => {
            let plan = make_plan(alloc, query.module(), false)?;
            let names = names_beside_drivers(alloc, query.module(), &plan)?;
            names_text(alloc, &names)
        }
        Shown::StandOnce => {
            let plan = make_plan(alloc, query.module(), false)?;
            once_text(alloc, drivers_stand_once(alloc, query.module(), &plan)?)
        }
    }
}

fn text_of_query(alloc: Global, text: &str, query: &Query, shown: Shown) -> Result<String, Fail> {
    let Ok(compiled) = compile(alloc, query) else {
        return Err(Fail::from("refused"));
    };
    let shown = text_of_tree(alloc, text, &compiled, shown);
    discard(compiled);
    shown
}

// What is shown of a query that is accepted.
fn planned(alloc: Global, text: &str, shown: Shown) -> Result<String, Fail> {
    let Ok(found) = tokens(alloc, text) else {
        return Err(Fail::from("no tokens"));
    };
    let Ok(query) = parse(alloc, text, &found) else {
        return Err(Fail::from("no query"));
    };
    let shown = text_of_query(alloc, text, &query, shown);
    discard(query);
    shown
}

#[test]
fn plans_queries(rt: HostRuntime) -> Result<(), Fail> {
    let rows = [
        (
            "1, json-lines(\"a\"), for $x in (1, 2) return $x",
            "1:1 expression local/1:4 json-lines partitioned/[1:4 a 0, 0-0 items]/\
             1:21 flwor local/",
        ),
        (
            "for $o in json-lines(\"sales\")\nfor $i in $o.items[]\nlet $v := $i.price * $i.qty\n\
             group by $s := $o.store\norder by sum($v) descending\nreturn [$s, $v]",
            "1:5 for partitioned/2:5 for partitioned/3:5 let partitioned/4:1 group gathered/\
             5:1 order gathered/6:1 return partitioned/\
             [1:11 sales 0, 0-4 groups 5-5 orders 6-6 items]/",
        ),
        (
            "count(json-lines(\"a\"))",
            "1:1 count gathered/1:7 json-lines partitioned/[1:7 a 0, 0-0 count]/",
        ),
        (
            "for $x in json-lines(\"a\") for $y in json-lines(\"b\") where $x.k eq $y.k \
             return [$x.v, $y.v]",
            "1:5 for partitioned/1:31 for partitioned/1:53 where partitioned/\
             1:72 return partitioned/[1:11 a 0, 0-4 items]/",
        ),
        (
            "for $x allowing empty in json-lines(\"a\") return $x",
            "1:1 flwor local/",
        ),
        (
            "let $a := 1, $b := 2 for $x at $i in json-lines(\"a\", \"b\") count $c return $x",
            "1:5 let local/1:14 let local/1:26 for partitioned/1:59 count gathered/\
             1:68 return partitioned/[1:38 a b 2 at, 2-4 numbers 5-5 items]/",
        ),
        (
            "declare function f() { for $x in json-lines(\"a\") return $x }; f()",
            "1:63 expression local/",
        ),
        (
            "try { json-lines(\"a\") } catch * { json-lines(\"b\") }, (json-lines(\"c\"))",
            "1:7 json-lines partitioned/[1:7 a 0, 0-0 items]/\
             1:55 json-lines partitioned/[1:55 c 0, 0-0 items]/",
        ),
        (
            "count(for $x in json-lines(\"a\") where $x return $x)",
            "1:1 count gathered/1:11 for partitioned/1:33 where partitioned/\
             1:42 return partitioned/[1:17 a 0, 0-3 count]/",
        ),
        ("sum(sum(json-lines(\"a\")))", "1:1 expression local/"),
        ("sum((json-lines(\"a\")))", "1:1 expression local/"),
        ("head(json-lines(\"a\"))", "1:1 expression local/"),
        ("json-lines(\"a\") + 1, ()", "1:1 expression local/"),
        (
            "[json-lines(\"a\")], exists(json-lines(\"b\"))",
            "1:1 expression local/1:20 exists gathered/1:27 json-lines partitioned/\
             [1:27 b 0, 0-0 exists]/",
        ),
        (
            "for $x in json-lines(\"a\") stable order by $x group by $x := $x count $n return $n",
            "1:5 for partitioned/1:27 order gathered/1:46 group gathered/1:64 count gathered/\
             1:73 return partitioned/[1:11 a 0, 0-2 orders 3-3 groups 4-4 numbers 5-5 items]/",
        ),
        (
            "let $y := 1 where $y for $x in json-lines(\"a\") return $x",
            "1:1 flwor local/",
        ),
        (
            "for $x in json-lines(\"a\") return for $y in json-lines(\"b\") return $y",
            "1:5 for partitioned/1:27 return partitioned/[1:11 a 0, 0-2 items]/",
        ),
    ];
    for (query, want) in rows {
        let text = planned(rt.alloc(), query, Shown::Plan { local: false })?;
        assert_eq!(rt; text.as_str(), want);
    }
    Ok(())
}

#[test]
fn plans_queries_without_pieces(rt: HostRuntime) -> Result<(), Fail> {
    let rows = [
        (
            "let $a := 1 for $x in json-lines(\"a\") order by $x return $x",
            "1:5 let local/1:17 for local/1:39 order local/1:51 return local/",
        ),
        (
            "count(json-lines(\"a\")), 1",
            "1:1 count local/1:7 json-lines local/1:25 expression local/",
        ),
    ];
    for (query, want) in rows {
        let text = planned(rt.alloc(), query, Shown::Plan { local: true })?;
        assert_eq!(rt; text.as_str(), want);
    }
    Ok(())
}

#[test]
fn finds_inputs_beside_drivers(rt: HostRuntime) -> Result<(), Fail> {
    let rows = [
        ("1, json-lines(\"a\"), for $x in (1, 2) return $x", ""),
        ("json-lines(\"a\"), [json-lines(\"a\")]", "a"),
        (
            "count(json-lines(\"a\")), [json-lines(\"b\"), json-lines(\"c\", \"b\")], json-lines(\"c\")",
            "b c",
        ),
        (
            "declare variable $v := json-lines(\"v\"); \
             for $x in json-lines(\"a\") where $x = json-lines(\"w\") return $v",
            "v w",
        ),
        (
            "try { json-lines(\"a\") } catch * { json-lines(\"b\") }, json-lines(\"c\", \"d\")",
            "b",
        ),
        ("for $x allowing empty in json-lines(\"a\") return $x", "a"),
        (
            "declare function f() { json-lines(\"f\") }; sum((json-lines(\"s\"))), f()",
            "f s",
        ),
    ];
    for (query, want) in rows {
        let text = planned(rt.alloc(), query, Shown::NamesBeside)?;
        assert_eq!(rt; text.as_str(), want);
    }
    Ok(())
}

#[test]
fn finds_drivers_once(rt: HostRuntime) -> Result<(), Fail> {
    let queries = [
        "1, [json-lines(\"a\")]",
        "json-lines(\"a\"), json-lines(\"a\"), [json-lines(\"a\")]",
        "declare function f() { json-lines(\"a\") }; count(json-lines(\"a\")), f(), \
         for $x at $i in json-lines(\"a\", \"b\") where $x = json-lines(\"a\") return $i",
    ];
    for query in queries {
        let text = planned(rt.alloc(), query, Shown::StandOnce)?;
        assert_eq!(rt; text.as_str(), "once");
    }
    Ok(())
}
