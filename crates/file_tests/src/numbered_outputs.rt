//! Numbered outputs in memory, those that fail among them.

use outside::{CreateFault, MemOutputs, MemSink, Outputs, write_all};
use std::alloc::{AllocError, Global};
use std::test::Fail;

// Makes the output of this number, and tells whether it took the whole text.
fn takes<P: Outputs>(outputs: &mut P, number: u32, text: &str) -> Result<bool, CreateFault> {
    let mut out = outputs.create(number)?;
    let written = write_all(&mut out, text.as_bytes());
    outputs.finish(out);
    Ok(written.is_ok())
}

// Each sink's number with its bytes, and a blank behind it.
fn text_of(alloc: Global, sinks: &[MemSink]) -> Result<Vec<u8>, Fail> {
    let mut text = Vec::new(alloc);
    for sink in sinks {
        let number = format!(in alloc; "{}:", sink.label())?;
        text.extend_from_slice(number.as_bytes())?;
        text.extend_from_slice(sink.bytes())?;
        text.push(b' ')?;
    }
    Ok(text)
}

// Each row: how many sinks there are, their room, the numbers that fail, what making the outputs 0,
// 1, 2 and 1 of three bytes each answers, and what was made.
#[test]
fn makes_what_does_not_fail(rt: HostRuntime) -> Result<(), Fail> {
    let alloc = rt.alloc();
    let failed = Err(CreateFault::Failed);
    let cases: [(u32, usize, &[u32], [Result<bool, CreateFault>; 4], &str); 5] = [
        (4, 3, &[], [Ok(true); 4], "0:abc 1:abc 2:abc 1:abc "),
        (
            2,
            9,
            &[],
            [Ok(true), Ok(true), failed, failed],
            "0:abc 1:abc ",
        ),
        (
            4,
            3,
            &[1],
            [Ok(true), failed, Ok(true), failed],
            "0:abc 2:abc ",
        ),
        (
            2,
            2,
            &[9, 0],
            [failed, Ok(false), Ok(false), failed],
            "1:ab 2:ab ",
        ),
        (0, 3, &[], [failed; 4], ""),
    ];
    for (row, (count, room, fails, want, made)) in cases.into_iter().enumerate() {
        let fails = Vec::from_slice(alloc, fails)?;
        let mut outputs = MemOutputs::new(alloc, count, room, fails)?;
        for (number, want) in [0, 1, 2, 1].into_iter().zip(want) {
            assert_eq!(rt; takes(&mut outputs, number, "abc"), want, "row {row}");
        }
        let text = text_of(alloc, outputs.done())?;
        assert_eq!(rt; text.as_slice(), made.as_bytes(), "row {row}");
    }
    Ok(())
}

#[test]
fn keeps_the_order_of_finishing(rt: HostRuntime) -> Result<(), Fail> {
    let alloc = rt.alloc();
    let mut outputs = MemOutputs::new(alloc, 2, 4, Vec::new(alloc))?;
    let Ok(first) = outputs.create(3) else {
        panic!(rt; "the first is not made");
    };
    let Ok(mut second) = outputs.create(5) else {
        panic!(rt; "the second is not made");
    };
    assert_eq!(rt; write_all(&mut second, b"ab"), Ok(()));
    outputs.finish(second);
    outputs.finish(first);
    let text = text_of(alloc, outputs.done())?;
    assert_eq!(rt; text.as_slice(), b"5:ab 3: ".as_slice());
    Ok(())
}

#[test]
fn tells_want_of_memory(rt: HostRuntime) {
    let fault: CreateFault = AllocError.into();
    assert!(rt; fault == CreateFault::NoMemory);
}
