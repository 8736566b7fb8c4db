//! What a line reads as, printed.

use item_printer::print_item;
use item_reader::{LineFault, Reader};
use std::alloc::Global;
use std::process::Abort;
use std::test::Fail;

/// The printed text of the item of a line, nothing at a blank line, or the code of its fault.
pub(crate) fn answer(reader: &mut Reader, alloc: Global, line: &[u8]) -> Result<Vec<u8>, Fail> {
    let mut out = Vec::new(alloc);
    match reader.read(line) {
        Ok(Some(item)) => print_item(&item, &mut out)?,
        Ok(None) => {}
        Err(fault) => {
            let Some(code) = fault.code() else {
                return Err(Fail::from("no memory"));
            };
            out.extend_from_slice(code.text().as_bytes())?;
        }
    }
    Ok(out)
}

/// Goes twice over lines and what is printed of each, by one reader, which after a line is as good
/// as a new one.
pub(crate) fn assert_lines<R: Abort>(
    rt: &R,
    alloc: Global,
    lines: &[(&[u8], &str)],
) -> Result<(), Fail> {
    let mut reader = Reader::new(alloc);
    for _round in 0..2 {
        for (line, want) in lines {
            let found = answer(&mut reader, alloc, line)?;
            assert_eq!(rt; found.as_slice(), want.as_bytes(), "at {line:?}");
        }
    }
    Ok(())
}

#[test]
fn want_of_memory_has_no_code(rt: HostRuntime) {
    assert!(rt; LineFault::NoMemory.code().is_none());
}
