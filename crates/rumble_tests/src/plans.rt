//! What `explain` writes of queries, without a look at their inputs.

use crate::runs::assert_rows;
use std::test::Fail;

// Leaves of each kind, and what stands on the spine of a body.
const LEAVES: &str = "
1, json-lines('a'), for $x in (1, 2) return $x
# 1:1 expression local / 1:4 json-lines partitioned / 1:21 flwor local

count(json-lines('a'))
# 1:1 count gathered / 1:7 json-lines partitioned

sum(sum(json-lines('a')))
# 1:1 expression local

sum((json-lines('a'))), head(json-lines('a'))
# 1:1 expression local / 1:25 expression local

json-lines('a', 'b')
# 1:1 json-lines partitioned

'\u{fc}', json-lines('a')
# 1:1 expression local / 1:6 json-lines partitioned

(: all :)
min(json-lines('a'))
# 2:1 min gathered / 2:5 json-lines partitioned

try { json-lines('a'), 1 } catch * { json-lines('b') },
(json-lines('c'), ())
# 1:7 json-lines partitioned / 1:24 expression local / 2:2 json-lines partitioned

declare function f() { for $x in json-lines('a') return $x };
f(), count(f())
# 2:1 expression local / 2:6 expression local
";

#[test]
fn explains_leaves(rt: HostRuntime) -> Result<(), Fail> {
    assert_rows(&rt, rt.alloc(), LEAVES, 9)
}

// FLWORs with a driver and without one.
const CLAUSES: &str = "
for $o in json-lines('sales')
for $i in $o.items[]
let $v := $i.price * $i.qty
group by $s := $o.store
order by sum($v) descending
return [$s, $v]
# 1:5 for partitioned / 2:5 for partitioned / 3:5 let partitioned / 4:1 group gathered / \
5:1 order gathered / 6:1 return partitioned

for $x in json-lines('a') for $y in json-lines('b') where $x.k eq $y.k return [$x.v, $y.v]
# 1:5 for partitioned / 1:31 for partitioned / 1:53 where partitioned / 1:72 return partitioned

for $x allowing empty in json-lines('a') return $x
# 1:1 flwor local

let $a := 1, $b := 2
for $x at $i in json-lines('a', 'b')
count $c
return $x
# 1:5 let local / 1:14 let local / 2:5 for partitioned / 3:1 count gathered / 4:1 return partitioned

let $y := 1 where $y for $x in json-lines('a') return $x
# 1:1 flwor local

for $x in json-lines('a') stable order by $x group by $x := $x count $n return $n
# 1:5 for partitioned / 1:27 order gathered / 1:46 group gathered / 1:64 count gathered / \
1:73 return partitioned

count(for $x in json-lines('a') where $x return $x)
# 1:1 count gathered / 1:11 for partitioned / 1:33 where partitioned / 1:42 return partitioned

for $x in json-lines('a') return for $y in json-lines('b') return $y
# 1:5 for partitioned / 1:27 return partitioned
";

#[test]
fn explains_clauses(rt: HostRuntime) -> Result<(), Fail> {
    assert_rows(&rt, rt.alloc(), CLAUSES, 8)
}
