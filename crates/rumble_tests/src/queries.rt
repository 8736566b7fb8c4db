//! Queries over inputs, and what comes of them.

use crate::runs::{add, assert_left, assert_rows, run_files};
use rumble_run::Status;
use std::test::Fail;

// Operators, look-ups, constructors, choices and functions.
const EXPRESSIONS: &str = "
1
> 1

count(json-lines('a'))
> 0

json-lines('a').n
< {'m':1} / 7 / [1] / {'n':[1]}
> [1]

99999999999999999999
> 99999999999999999999

99999999999999999999 + 1
! FOAR0002 at 1:22

0.1 + 0.2, 2 div 3
> 0.3 / 0.666667

if (true) then 1 else json-lines('none')
> 1

if (true) then json-lines('none') else 1
! FODC0002 at 1:16

{'a':1,'a':2}
! JNDY0003 at 1:11

(2,1) = (2,'a')
> true

(1,2) = (2,'a')
! XPTY0004 at 1:7

1 to 10000001
! PJDY0003 at 1:3

3 to 2
>

'x' || 1.50 || ()
> 'x1.5'

typeswitch (1.0) case integer return 'i' case decimal return 'd' default return 'o'
> 'd'

switch (1.0) case '1' return 's' case 1 return 'n' default return 'd'
> 'n'

(10,20,30)[2], (1,2,3)[$$ gt 1], substring('müesli', 2, 3), keys(({'b':1},{'b':2,'a':3})), serialize([1.50,'x'])
> 20 / 2 / 3 / 'ües' / 'b' / 'a' / '[1.5,\\'x\\']'

sum((99999999999999999999, 1, -1))
> 99999999999999999999

avg((1,2))
> 1.5

min((1,'a'))
! FORG0006 at 1:1

' 12 ' cast as integer, '1.5' castable as integer, -7 idiv 2, -7 mod 2
> 12 / false / -3 / -1

every $x in (1, 2), $y in ($x, 'a') satisfies $x le $y
! XPTY0004 at 1:50

try { (1)[[2 div 0]] } catch FOAR0002 | FOAR0001 { $err:code }
> 'FOAR0001'

()[1 div 0], (1, 2) = (), null eq null
> false / true

distinct-values((1, 1.0, '1', null, 1))
> 1 / '1' / null

accumulate(({'a':1}, {'b':2, 'a':null}))
> {'a':[1,null],'b':2}

translate('banana', 'an', 'o'), tokenize('  x y ')
> 'booo' / 'x' / 'y'

subsequence((1, 2, 3), 0, 2), round(-2.5), avg((1, 2.5))
> 1 / -2 / 1.75

descendant-objects([{'a':{'b':1}}])
> {'a':{'b':1}} / {'b':1}

sum('a')
! FORG0006 at 1:1

('2024-02-29' cast as date) ! (string($$), add-days($$, 1), year-from-date($$))
> '2024-02-29' / '2024-03-01' / 2024

'2023-02-29' cast as date
! FORG0001 at 1:14

'2024-05-01T01:30:00.50+02:00' cast as dateTime
> '2024-04-30T23:30:00.5Z'

days-between('2024-02-28' cast as date, '2024-03-01' cast as date)
> 2

json-lines('a', 'b')
< 1
> 1 / 2

json-lines('a', 'none')
< {
! FODC0002 at 1:1

declare function f() { f() }; f()
! PJDY0001 at 1:24

declare variable $x := json-lines('a'); declare variable $y as integer := $x + 1; $x, $y
< 1
> 1 / 2

declare variable $y as integer := 's'; json-lines('none')
! XPTY0004 at 1:18

declare function even($n as integer) as boolean { if ($n eq 0) then true else odd($n - 1) }; declare function odd($n) { if ($n eq 0) then false else even($n - 1) }; even(7)
> false

[json-lines('a')][]
< 1 / {'b':[2]}
> 1 / {'b':[2]}

{| json-lines('a') |}
< {'a':1} / {'b':2}
> {'a':1,'b':2}
";

// Clauses of FLWOR expressions. The fault of a clause names it, and its tuple.
const CLAUSES: &str = "
for $x in json-lines('a') let $y := $x.a div $x.b where $x.c + 1 gt 0 return $y
< {'a':1,'b':1,'c':'s'} / {'a':1,'b':0,'c':1}
! FOAR0001 at 1:42 clause 2 tuple 2

for $x in json-lines('a') return 1 div $x.b
< {'b':0} / {'b':1} / {
! JNDY0021 at 1:11 clause 1 tuple 1

for $x in json-lines('a') order by $x.k return $x.k
< {'k':'a'} / {'k':'b'} / {'k':1}
! XPTY0004 at 1:36 clause 2 tuple 3

for $x in json-lines('a') order by if ($x.z) then 1 div 0 else $x.k return $x
< {'k':1} / {'k':2} / {'k':'s'} / {'z':true}
! XPTY0004 at 1:36 clause 2 tuple 3

for $x in json-lines('a') order by if ($x.z) then 1 div 0 else $x.k return $x
< {'k':1} / {'k':2} / {'z':true} / {'k':'s'}
! FOAR0001 at 1:53 clause 2 tuple 3

for $x in json-lines('a') group by $k := $x.k return [$k, count($x)]
< {'k':1} / {'k':1.0} / {'k':'1'} / {'k':null} / {} / {'k':1}
> [1,3] / ['1',1] / [null,1] / [1]

for $x in json-lines('a') where $x ge 2 count $c return {'c':$c,'x':$x}
< 1 / 2 / 3 / 1 / 4
> {'c':1,'x':2} / {'c':2,'x':3} / {'c':3,'x':4}

try { for $x in json-lines('a') let $y := $x.a div $x.b where $x.c + 1 gt 0 return $y } catch FOAR0001 { $err:code }
< {'a':1,'b':1,'c':'s'} / {'a':1,'b':0,'c':1}
> 'FOAR0001'

try { for $x in json-lines('a') let $y := $x.a div $x.b where $x.c + 1 gt 0 return $y } catch XPTY0004 { 'z' }
< {'a':1,'b':1,'c':'s'} / {'a':1,'b':0,'c':1}
! FOAR0001 at 1:48 clause 2 tuple 2

for $x at $i in json-lines('a') return $i * 10 + $x
< 1 /  / 2 / 3
> 11 / 22 / 33

for $x allowing empty at $i in () return [$x, $i]
> [0]

for $x in (2, null, 1) order by $x descending return $x
> 2 / 1 / null

for $x in ({'a':1}, {}, {'a':null}) order by $x.a empty greatest return {'v':$x.a}
> {'v':null} / {'v':1} / {'v':null}

for $x in 1 to 3 let $y := $x * 2 group by $g := $x mod 2 return [$g, $y]
> [1,2,6] / [0,4]

for $x at $i in json-lines('a', 'b', 'a') return [$i, $x]
< 1
> [1,1] / [2,2] / [3,1]

for $x as integer in json-lines('a') return $x
< 's' / 1 / {
! JNDY0021 at 1:22 clause 1 tuple 1

for $x as integer in json-lines('a') return $x
< 's' / 1
! XPTY0004 at 1:5 clause 1 tuple 1

for $x at $i in json-lines('a') group by $p := $i mod 2 order by $p return [$p, $x]
< 'a' / 'b' / 'c'
> [0,'b'] / [1,'a','c']

sum(for $x in json-lines('a') return $x)
< 1 / 's' / {
! JNDY0021 at 1:15 clause 1 tuple 1

sum(for $x in json-lines('a') return $x)
< 1 / 's'
! FORG0006 at 1:1

for $x in 1 to 3000 order by $x descending count $c where $c mod 1000 eq 0 return $x
> 2001 / 1001 / 1

for $x in 1 to 3000 order by $x descending return 1 div ($x - 1)
! FOAR0001 at 1:53 clause 3 tuple 3000

for $x in (1, 2) return (for $y in (1, 0) return $x div $y)
! FOAR0001 at 1:53 clause 2 tuple 1

let $n := 3 for $x in 1 to $n for $y in $x to $n where $x + $y eq 4 return [$x, $y]
> [1,3] / [2,2]

for $x in (3, 1, 2) let $y := $x group by $z := $y mod 2, $w := 1 order by $z descending return {'z':$z, 'w':$w, 'x':[$x]}
> {'z':1,'w':1,'x':[3,1]} / {'z':0,'w':1,'x':[2]}
";

// One input is printed as it is read, and more than that, or parentheses, keep the items first.
const LONE_INPUTS: &str = "
json-lines('a')
< 1 /   / [2.50]
> 1 / [2.5]

(json-lines('a'))
< 1 /   / [2.50]
> 1 / [2.5]

json-lines('a')
>

json-lines('a')
< 1 / [
! JNDY0021 at 1:1

(json-lines('a'))
< 1 / [
! JNDY0021 at 1:2

 json-lines('none')
! FODC0002 at 1:2

json-lines('a', 'a')
< 1
> 1 / 1

json-lines('a', 'b')
< 1
> 1 / 2

json-lines('a', 'none')
< [
! FODC0002 at 1:1

json-lines('a'), 3
< 1
> 1 / 3

declare variable $v := 1; json-lines('a')
< 5
> 5

declare variable $v := 1 div 0; json-lines('a')
< [
! FOAR0001 at 1:26

declare function f() { json-lines('b') }; json-lines('a')
< 1
> 1
";

pub(crate) const SALES: &str =
    "{\"id\":9007199254740993001,\"store\":\"Z\u{fc}rich\",\"items\":[{\"sku\":\"A1\",\"price\":12.50,\"qty\":2},{\"sku\":\"B2\",\"price\":0.99,\"qty\":10}]}
{\"id\":9007199254740993002,\"store\":\"Bern\",\"items\":[{\"sku\":\"A1\",\"price\":12.50,\"qty\":1}],\"note\":null}
{\"id\":9007199254740993003,\"store\":\"Z\u{fc}rich\",\"items\":[]}
{\"id\":\"9007199254740993004\",\"store\":\"Bern\",\"items\":[{\"sku\":\"C3\",\"price\":1e2,\"qty\":3}]}
";

pub(crate) const TOTALS: &str = "for $o in json-lines(\"a\")
for $i in $o.items[]
let $v := $i.price * $i.qty
group by $s := $o.store
order by sum($v) descending
return {\"store\": $s, \"lines\": count($i), \"total\": sum($v), \"last\": $o[count($o)].id}
";

pub(crate) const STORES: &str =
    "{\"store\":\"Bern\",\"lines\":2,\"total\":312.5,\"last\":\"9007199254740993004\"}
{\"store\":\"Z\u{fc}rich\",\"lines\":2,\"total\":34.9,\"last\":9007199254740993001}
";

#[test]
fn evaluates_expressions(rt: HostRuntime) -> Result<(), Fail> {
    assert_rows(&rt, rt.alloc(), EXPRESSIONS, 42)
}

#[test]
fn evaluates_clauses(rt: HostRuntime) -> Result<(), Fail> {
    assert_rows(&rt, rt.alloc(), CLAUSES, 25)
}

#[test]
fn prints_one_input_as_others(rt: HostRuntime) -> Result<(), Fail> {
    assert_rows(&rt, rt.alloc(), LONE_INPUTS, 13)
}

#[test]
fn totals_sales(rt: HostRuntime) -> Result<(), Fail> {
    let alloc = rt.alloc();
    let mut files = Vec::new(alloc);
    add(alloc, &mut files, "q", TOTALS.as_bytes())?;
    add(alloc, &mut files, "a", SALES.as_bytes())?;
    let left = run_files(&rt, alloc, &["run", "q"], files, (1000, 100))?;
    assert_left(&rt, &left, Status::Done, STORES.as_bytes(), b"", "sales");
    Ok(())
}
