//! Objects whose keys repeat, with few keys and with many.

use crate::printed::answer;
use item_reader::Reader;
use std::alloc::Global;
use std::test::Fail;

/// An object of this many pairs, the value of each being the number of its key, but at the first
/// key and at the one told last.
fn numbered(alloc: Global, count: u32, last: u32, ends: (&str, &str)) -> Result<String, Fail> {
    let mut line = String::from_str(alloc, "{")?;
    for i in 0..count {
        let comma = if i == 0 { "" } else { "," };
        line.push_str(format!(in alloc; "{comma}\"k{i}\":")?.as_str())?;
        let value = if i == 0 {
            String::from_str(alloc, ends.0)?
        } else if i == last {
            String::from_str(alloc, ends.1)?
        } else {
            format!(in alloc; "{i}")?
        };
        line.push_str(value.as_str())?;
    }
    Ok(line)
}

// Few keys are compared with each other, and many have an index: at each number the first key and
// the last one come again, and each keeps its place and takes the new value.
#[test]
fn repeated_keys_are_found(rt: HostRuntime) -> Result<(), Fail> {
    let alloc = rt.alloc();
    let mut reader = Reader::new(alloc);
    for (count, last) in [(2u32, 1u32), (64, 63), (65, 64), (1000, 999)] {
        let mut line = numbered(alloc, count, last, ("7", "8"))?;
        line.push_str(format!(in alloc; ",\"k0\":null,\"k{last}\":true}}")?.as_str())?;
        let mut want = numbered(alloc, count, last, ("null", "true"))?;
        want.push('}')?;
        let found = answer(&mut reader, alloc, line.as_bytes())?;
        assert_eq!(rt; found.as_slice(), want.as_bytes(), "{count} keys");
    }
    Ok(())
}

// These keys have one hash under the fixed seed of std's tables.
#[test]
fn reads_chosen_keys(rt: HostRuntime) -> Result<(), Fail> {
    let alloc = rt.alloc();
    let mut line = String::from_str(alloc, "{")?;
    for i in 10_000_000..10_020_000u32 {
        line.push_str(format!(in alloc; "\"00000000000015255%9I:_r4{i}\":{i},")?.as_str())?;
    }
    let whole = line.len();
    line.push_str("\"00000000000015255%9I:_r410000007\":10000007}")?;
    let found = answer(&mut Reader::new(alloc), alloc, line.as_bytes())?;
    // The pair that comes again is told once, and a brace stands in the place of the last comma.
    assert_eq!(rt; found.len(), whole);
    Ok(())
}
