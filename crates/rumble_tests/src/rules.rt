//! The static rules on names and types: queries that break one, and queries that just do not.

use crate::runs::assert_rows;
use std::test::Fail;

// Variables that no clause before them binds.
const UNBOUND: &str = "
$x
? XPST0008 at 1:1

{}.$k
? XPST0008 at 1:4

let $x := $x return 1
? XPST0008 at 1:11

let $y := $x, $x := 1 return $y
? XPST0008 at 1:11

for $x in $x return 1
? XPST0008 at 1:11

for $x at $i in $i return 1
? XPST0008 at 1:17

for $x in 1 where $y return $x
? XPST0008 at 1:19

for $x in 1 order by $x, $y return $x
? XPST0008 at 1:26

for $x in $c count $c return $c
? XPST0008 at 1:11

for $x in 1 group by $a := $a return 1
? XPST0008 at 1:28

for $x in 1 group by $a := $b, $b := 1 return $a
? XPST0008 at 1:28

for $x in 1 return $x, $x
? XPST0008 at 1:24

(for $x in 1 return $x), $x
? XPST0008 at 1:26

(for $x at $i in 1 count $c return 1) + $c
? XPST0008 at 1:41
";

#[test]
fn refuses_variables_of_clauses(rt: HostRuntime) -> Result<(), Fail> {
    assert_rows(&rt, rt.alloc(), UNBOUND, 14)
}

// Variables whose scope is another part of the query.
const OUT_OF_SCOPE: &str = "
some $x in $x satisfies true
? XPST0008 at 1:12

every $x in 1, $y in $z satisfies $x
? XPST0008 at 1:22

every $y in $x, $x in 1 satisfies $y
? XPST0008 at 1:13

some $x in 1 satisfies $x, $x
? XPST0008 at 1:28

typeswitch ($x) case $x as integer return 1 default return 2
? XPST0008 at 1:13

typeswitch (1) case $x as integer return 1 default return $x
? XPST0008 at 1:59

typeswitch (1) case $x as integer return $x case string return $x default return 2
? XPST0008 at 1:64

typeswitch (1) case integer return $x default $x return $x
? XPST0008 at 1:36

try { $err:code } catch * { 1 }
? XPST0008 at 1:7

try { 1 } catch * { 2 }, $err:code
? XPST0008 at 1:26

declare variable $a := $a; 1
? XPST0008 at 1:24

declare variable $a := $b; declare variable $b := 1; $a
? XPST0008 at 1:24

declare function f($x) { 1 }; $x
? XPST0008 at 1:31

declare function f($x) { 1 }; declare function g() { $x }; 1
? XPST0008 at 1:54
";

#[test]
fn refuses_variables_out_of_scope(rt: HostRuntime) -> Result<(), Fail> {
    assert_rows(&rt, rt.alloc(), OUT_OF_SCOPE, 14)
}

// Variables that are bound where they are read, and hide earlier ones.
const BOUND: &str = "
for $x in 1 let $x := $x return $x
= accepted

for $x in 1 return for $x in $x return $x
= accepted

for $x at $i in 1, $y in $x to $i return $y
= accepted

for $x allowing empty at $i in () return $i
= accepted

for $x in 1 count $c where $c eq 1 order by $c return $c
= accepted

for $x in 1 group by $a := $x, $b := $a return $b
= accepted

for $x in 1 group by $a := $x return ($a, $x)
= accepted

let $k := 'a' return {}.$k
= accepted

let $err:code := 1 return $err:code
= accepted

every $x in 1, $y in $x satisfies $x eq $y
= accepted

typeswitch (1) case $x as integer | string return $x default $x return $x
= accepted

try { 1 } catch * { $err:code }
= accepted

try { 1 } catch FOER0000 { try { 2 } catch * { $err:code } }
= accepted

declare variable $a := 1; declare variable $b := $a; $b
= accepted

declare variable $x := 1; for $x in $x return $x
= accepted

declare function f($x) { $x }; f(1)
= accepted

declare function f() { $v }; declare variable $v := 1; f()
= accepted
";

#[test]
fn binds_variables(rt: HostRuntime) -> Result<(), Fail> {
    assert_rows(&rt, rt.alloc(), BOUND, 17)
}

// Functions that there are not, or not with so many arguments.
const UNKNOWN_FUNCTIONS: &str = "
foo()
? XPST0017 at 1:1

1 + foo(1)
? XPST0017 at 1:5

Count(1)
? XPST0017 at 1:1

count()
? XPST0017 at 1:1

count(1, 2)
? XPST0017 at 1:1

concat('a')
? XPST0017 at 1:1

json-line('a')
? XPST0017 at 1:1

declare function f($x) { 1 }; f()
? XPST0017 at 1:31

declare function f() { g(1) }; declare function g() { 1 }; 1
? XPST0017 at 1:24

declare function f() { 1 }; declare variable $v := f(); $v
? XPST0017 at 1:52
";

#[test]
fn refuses_unknown_functions(rt: HostRuntime) -> Result<(), Fail> {
    assert_rows(&rt, rt.alloc(), UNKNOWN_FUNCTIONS, 10)
}

// Functions that there are, of the language and declared.
const KNOWN_FUNCTIONS: &str = "
count(1)
= accepted

concat('a', 'b', 'c')
= accepted

error()
= accepted

declare variable $v := count(()); $v
= accepted

declare function f($x) { f(f($x)) }; f(1)
= accepted

declare function f() { g() }; declare function g() { f() }; 1
= accepted

declare function f() { 1 }; declare function f($a) { $a }; f(f())
= accepted

declare function count($a, $b) { count($a) }; count(1, 2)
= accepted

json-lines('a')[$$.b eq 1]
= accepted

declare function f() { json-lines('a') }; f()
= accepted
";

#[test]
fn calls_functions(rt: HostRuntime) -> Result<(), Fail> {
    assert_rows(&rt, rt.alloc(), KNOWN_FUNCTIONS, 10)
}

// Types that there are not, or not for a cast.
const UNKNOWN_TYPES: &str = "
1 instance of text
? XPST0051 at 1:15

1 instance of String
? XPST0051 at 1:15

1 instance of integer()
? XPST0051 at 1:15

1 instance of empty-sequence
? XPST0051 at 1:15

1 treat as number*
? XPST0051 at 1:12

for $x as int in 1 return 1
? XPST0051 at 1:11

let $x as text := 1 return 1
? XPST0051 at 1:11

some $x as text in 1 satisfies true
? XPST0051 at 1:12

typeswitch (1) case text return 1 default return 2
? XPST0051 at 1:21

typeswitch (1) case $x as integer | text return 1 default return 2
? XPST0051 at 1:37

declare variable $v as text := 1; 1
? XPST0051 at 1:24

declare function f($x as text) { 1 }; 1
? XPST0051 at 1:26

declare function f() as text? { 1 }; 1
? XPST0051 at 1:25

'1' cast as item
? XPST0051 at 1:13

1 cast as atomic?
? XPST0051 at 1:11

1 castable as text
? XPST0051 at 1:15

[] castable as array?
? XPST0051 at 1:16
";

#[test]
fn refuses_unknown_types(rt: HostRuntime) -> Result<(), Fail> {
    assert_rows(&rt, rt.alloc(), UNKNOWN_TYPES, 17)
}

// Types that there are, of sequences and for casts.
const KNOWN_TYPES: &str = "
1 instance of string
= accepted

1 instance of item()
= accepted

1 instance of object()*
= accepted

1 instance of atomic+
= accepted

1 treat as json-item?
= accepted

() instance of empty-sequence()
= accepted

declare function f($x as array, $y as null?) as item* { $x }; 1
= accepted

1 cast as string
= accepted

1 cast as decimal?
= accepted

1 castable as integer
= accepted

1 castable as boolean?
= accepted

null castable as null
= accepted
";

#[test]
fn names_types(rt: HostRuntime) -> Result<(), Fail> {
    assert_rows(&rt, rt.alloc(), KNOWN_TYPES, 12)
}

// Names that are declared or bound again where they may not be.
const REPEATED_NAMES: &str = "
declare function count($s) { 1 }; 1
? XQST0034 at 1:18

declare function concat($a, $b, $c) { 1 }; 1
? XQST0034 at 1:18

declare function json-lines() { 1 }; 1
? XQST0034 at 1:18

declare function json-lines($a, $b) { 1 }; 1
? XQST0034 at 1:18

declare function f() { 1 }; declare function f() { 2 }; 1
? XQST0034 at 1:46

declare function f($a) { 1 }; declare function f() { 2 }; declare function f($b) { 3 }; 1
? XQST0034 at 1:76

declare function f($a, $a) { 1 }; 1
? XQST0039 at 1:24

declare function f($a, $b, $a) { $b }; 1
? XQST0039 at 1:28

declare variable $v := 1; declare variable $v := 2; $v
? XQST0049 at 1:44

declare variable $v := 1; declare variable $w := 2; declare variable $v := 3; 1
? XQST0049 at 1:70

for $x at $x in 1 return 1
? XQST0089 at 1:11

for $a in 1, $b at $b in 2 return 1
? XQST0089 at 1:20
";

#[test]
fn refuses_repeated_names(rt: HostRuntime) -> Result<(), Fail> {
    assert_rows(&rt, rt.alloc(), REPEATED_NAMES, 12)
}

// Names that are declared or bound again where they may be.
const DIFFERENT_NAMES: &str = "
declare function count() { 1 }; count()
= accepted

declare function concat($a) { 1 }; concat(1)
= accepted

declare function f() { 1 }; declare function f($a) { 2 }; f()
= accepted

declare function f($a, $b) { 1 }; declare function g($b, $a) { 2 }; 1
= accepted

declare variable $v := 1; declare variable $w := $v; $w
= accepted

declare variable $f := 1; declare function f($f) { $f }; f($f)
= accepted

declare variable $v := 1; let $v := 2 return $v
= accepted

for $x at $y in 1 return $y
= accepted

for $a in 1, $b at $a in 2 return $a
= accepted
";

#[test]
fn tells_names_apart(rt: HostRuntime) -> Result<(), Fail> {
    assert_rows(&rt, rt.alloc(), DIFFERENT_NAMES, 9)
}

// Grouping variables without an expression that no earlier clause of their FLWOR binds.
const NO_STREAM: &str = "
for $x in 1 group by $y return 1
? XQST0094 at 1:22

for $x in 1 group by $x, $y return 1
? XQST0094 at 1:26

let $y := 1 return for $x in 1 group by $y return $y
? XQST0094 at 1:41

declare variable $y := 1; for $x in 1 group by $y return $y
? XQST0094 at 1:48

declare function f($y) { for $x in 1 group by $y return 1 }; 1
? XQST0094 at 1:47

for $x in (for $y in 1 return $y) group by $y return 1
? XQST0094 at 1:44

for $x in 1 group by $a := 1, $a return 1
? XQST0094 at 1:31

for $x in 1 group by $y let $y := 1 return $y
? XQST0094 at 1:22
";

#[test]
fn refuses_groups_of_no_stream(rt: HostRuntime) -> Result<(), Fail> {
    assert_rows(&rt, rt.alloc(), NO_STREAM, 8)
}

// Grouping variables that an earlier clause of their FLWOR binds.
const STREAMS: &str = "
for $x in 1 group by $x return $x
= accepted

for $x at $i in 1 group by $i return $x
= accepted

let $x := 1 group by $x return $x
= accepted

for $x in 1 let $y := 2 group by $x, $y return $x
= accepted

for $x in 1 count $c group by $c return $x
= accepted

for $x in 1 group by $a := $x group by $a return $a
= accepted

let $y := 1 return for $x in 1 let $y := $y group by $y return $y
= accepted
";

#[test]
fn groups_streams(rt: HostRuntime) -> Result<(), Fail> {
    assert_rows(&rt, rt.alloc(), STREAMS, 7)
}

// `$$` outside of predicates and of the right of `!`.
const MISSING_ITEMS: &str = "
$$
? XPDY0002 at 1:1

$$.a
? XPDY0002 at 1:1

{}.$$
? XPDY0002 at 1:4

[1][[$$]]
? XPDY0002 at 1:6

$$ ! 1
? XPDY0002 at 1:1

(1)[$$ eq 1], $$
? XPDY0002 at 1:15

(1 ! $$) + $$
? XPDY0002 at 1:12

for $x in $$ return 1
? XPDY0002 at 1:11

declare variable $v := $$; 1
? XPDY0002 at 1:24

declare function f() { $$ }; (1)[f()]
? XPDY0002 at 1:24
";

#[test]
fn refuses_missing_items(rt: HostRuntime) -> Result<(), Fail> {
    assert_rows(&rt, rt.alloc(), MISSING_ITEMS, 10)
}

// `$$` in predicates and to the right of `!`.
const ITEMS: &str = "
(1)[$$]
= accepted

(1)[{}.$$]
= accepted

(1)[([1])[[$$]]]
= accepted

(1)[for $x in $$ return $x eq $$]
= accepted

(1)[try { $$ } catch * { count($$) }]
= accepted

1 ! $$
= accepted

1 ! $$ ! $$
= accepted

1 ! [$$]
= accepted

1 ! { 'a': $$ }.a
= accepted

1 ! (2)[$$]
= accepted
";

#[test]
fn finds_items(rt: HostRuntime) -> Result<(), Fail> {
    assert_rows(&rt, rt.alloc(), ITEMS, 10)
}

// Inputs that are not named by strings that are spelled out.
const UNNAMED_INPUTS: &str = "
json-lines()
? PJST0002 at 1:1

json-lines(1)
? PJST0002 at 1:1

json-lines('a' || 'b')
? PJST0002 at 1:1

json-lines('a', 1)
? PJST0002 at 1:1

json-lines(('a'))
? PJST0002 at 1:1

json-lines('a'[1])
? PJST0002 at 1:1

let $n := 'a' return json-lines($n)
? PJST0002 at 1:22
";

#[test]
fn refuses_unnamed_inputs(rt: HostRuntime) -> Result<(), Fail> {
    assert_rows(&rt, rt.alloc(), UNNAMED_INPUTS, 7)
}

// Where rules are broken at several places, the first place is told, whatever is met first.
const FIRST_OF_SEVERAL: &str = "
1 + $u, 2 + 3, 4 + foo(1)
? XPST0008 at 1:5

$u instance of text
? XPST0008 at 1:1

1 instance of text, $u
? XPST0051 at 1:15

json-lines($u)
? PJST0002 at 1:1

foo($u)
? XPST0017 at 1:1

switch (1) case $$ return foo() default return $u
? XPDY0002 at 1:17

for $x at $x in $u return 1
? XQST0089 at 1:11

for $x as text at $x in 1 return 1
? XPST0051 at 1:11

for $x in $u group by $y return foo()
? XPST0008 at 1:11

for $x in 1 group by $y, $z := $u return 1
? XQST0094 at 1:22

declare function f() { $u }; declare variable $v := $w; 1
? XPST0008 at 1:24

declare function f() { foo() }; declare variable $v := 1; declare variable $v := 2; $$
? XPST0017 at 1:24

declare variable $v := $w; declare function count($a) { $$ }; 1
? XPST0008 at 1:24

declare function f($a, $a) { $u }; declare function f($a, $b) { 1 }; 1
? XQST0039 at 1:24

declare function f() { 1 }; declare function f() { $u }; 1
? XQST0034 at 1:46
";

#[test]
fn tells_the_first_broken_rule(rt: HostRuntime) -> Result<(), Fail> {
    assert_rows(&rt, rt.alloc(), FIRST_OF_SEVERAL, 15)
}

// Places by line and column, behind a byte order mark; and what goes before the rules on names.
const PLACES: &str = "
1,
  $u
? XPST0008 at 2:3

'ü', $u
? XPST0008 at 1:6

(: ü
 :) 'ü' || $u
? XPST0008 at 2:12

\u{feff}$u
? XPST0008 at 1:1

$u ~
? XPST0003 at 1:4

$u +
? XPST0003 at 1:5

$u, 1e0
? PJST0001 at 1:5
";

#[test]
fn places_broken_rules(rt: HostRuntime) -> Result<(), Fail> {
    assert_rows(&rt, rt.alloc(), PLACES, 7)
}
