//! Inputs and sinks in memory, those that fail among them.

use item_tree::Str;
use outside::{
    Failed, Fails, FreeGate, Gate, InputFile, Inputs, MemInputs, MemSink, OpenFault, Sink,
    names_differ, write_all,
};
use std::alloc::Global;
use std::test::Fail;

// Two files, one of whose names goes beyond ASCII.
fn two_files(alloc: Global) -> Result<Vec<(Str, Vec<u8>)>, Fail> {
    let mut files = Vec::new(alloc);
    for (name, bytes) in [("digits", "0123456789"), ("Zürich", "lake")] {
        let name = Str::of(alloc, name)?;
        files.push((name, Vec::from_slice(alloc, bytes.as_bytes())?))?;
    }
    Ok(files)
}

// Reads a file three bytes at a time: a call for its length, and one for each piece.
fn read_pieces<F: InputFile>(alloc: Global, file: &mut F) -> Result<Vec<u8>, OpenFault> {
    let Ok(length) = file.len() else {
        return Err(OpenFault::Failed);
    };
    let mut bytes = Vec::new(alloc);
    for _ in 0..length {
        let at = bytes.len() as u64;
        if at >= length {
            break;
        }
        let mut piece = [0; 3];
        let Ok(count) = file.read_at(at, &mut piece) else {
            return Err(OpenFault::Failed);
        };
        if bytes.extend_from_slice(&piece[..count]).is_err() {
            return Err(OpenFault::NoMemory);
        }
    }
    Ok(bytes)
}

// Opens a file, reads it, closes it, and tells whether it holds this text.
fn holds<I: Inputs>(
    alloc: Global,
    inputs: &mut I,
    name: &str,
    text: &str,
) -> Result<bool, OpenFault> {
    let mut file = inputs.open_file(name)?;
    let bytes = read_pieces(alloc, &mut file);
    inputs.close_file(file);
    let bytes = bytes?;
    Ok(bytes.as_slice() == text.as_bytes())
}

#[test]
fn reads_steady_files(rt: HostRuntime) -> Result<(), Fail> {
    let files = two_files(rt.alloc())?;
    assert!(rt; names_differ(&files));
    let mut inputs = MemInputs::steady(rt.alloc(), files)?;
    let cases = [
        ("digits", "0123456789", Ok(true)),
        ("digits", "012345678", Ok(false)),
        ("Zürich", "lake", Ok(true)),
        ("Zurich", "lake", Err(OpenFault::Missing)),
        ("", "", Err(OpenFault::Missing)),
    ];
    for (name, text, want) in cases {
        assert_eq!(rt;
            holds(rt.alloc(), &mut inputs, name, text),
            want,
            "of {name}"
        );
    }
    Ok(())
}

// Each row: how many bytes a read gives at most, where it reads four bytes of "0123456789", and
// which it gives.
#[test]
fn reads_slowly(rt: HostRuntime) -> Result<(), Fail> {
    let cases = [
        (1, 0, "0"),
        (3, 0, "012"),
        (4, 5, "5678"),
        (usize::MAX, 5, "5678"),
        (3, 8, "89"),
        (1, 9, "9"),
        (3, 10, ""),
        (1, u64::MAX, ""),
    ];
    for (row, (most, at, want)) in cases.into_iter().enumerate() {
        let files = two_files(rt.alloc())?;
        assert!(rt; names_differ(&files) && most > 0);
        let mut inputs = MemInputs::slow(rt.alloc(), files, most)?;
        let mut file = inputs.open_file("digits")?;
        let mut piece = [0; 4];
        let count = file.read_at(at, &mut piece).unwrap();
        inputs.close_file(file);
        assert_eq!(rt; &piece[..count], want.as_bytes(), "row {row}");
        assert_eq!(rt;
            holds(rt.alloc(), &mut inputs, "Zürich", "lake"),
            Ok(true),
            "row {row}"
        );
    }
    Ok(())
}

// Each row: the opens that fail, the calls that fail, and what three opens in turn then give: of a
// missing file, of ten bytes that are read in five calls, and of four bytes in three calls.
#[test]
fn fails_where_it_was_told(rt: HostRuntime) -> Result<(), Fail> {
    let alloc = rt.alloc();
    let whole = Ok(true);
    let missing = Err(OpenFault::Missing);
    let failed = Err(OpenFault::Failed);
    let cases: [(&[u64], &[(u64, u64)], [Result<bool, OpenFault>; 3]); 11] = [
        (&[], &[], [missing, whole, whole]),
        (&[1], &[], [failed, whole, whole]),
        (&[2], &[], [missing, failed, whole]),
        (&[3, 1], &[], [failed, whole, failed]),
        (&[0, 4], &[(1, 1), (0, 1)], [missing, whole, whole]),
        (&[], &[(2, 1)], [missing, failed, whole]),
        (&[], &[(2, 3)], [missing, failed, whole]),
        (&[], &[(2, 5)], [missing, failed, whole]),
        (&[], &[(2, 6), (3, 4)], [missing, whole, whole]),
        (&[], &[(3, 3), (2, 0)], [missing, whole, failed]),
        (&[2], &[(2, 1), (3, 1)], [missing, failed, failed]),
    ];
    for (row, (opens, calls, want)) in cases.into_iter().enumerate() {
        let files = two_files(alloc)?;
        assert!(rt; names_differ(&files));
        let fails = Fails {
            opens: Vec::from_slice(alloc, opens)?,
            calls: Vec::from_slice(alloc, calls)?,
        };
        let mut inputs = MemInputs::new(alloc, files, fails)?;
        let got = [
            holds(alloc, &mut inputs, "none", ""),
            holds(alloc, &mut inputs, "digits", "0123456789"),
            holds(alloc, &mut inputs, "Zürich", "lake"),
        ];
        assert_eq!(rt; got, want, "row {row}");
    }
    Ok(())
}

#[test]
fn tells_names_that_are_the_same(rt: HostRuntime) -> Result<(), Fail> {
    let alloc = rt.alloc();
    let mut files = two_files(alloc)?;
    files.push((Str::of(alloc, "Zürich")?, Vec::new(alloc)))?;
    assert!(rt; !names_differ(&files));
    Ok(())
}

// Each row: a sink's room and most, what it answers to eight letters three times, and its bytes. No
// write changes its label.
#[test]
fn takes_what_it_has_room_for(rt: HostRuntime) -> Result<(), Fail> {
    let cases = [
        (5, 9, [Ok(5), Err(Failed), Err(Failed)], "abcde"),
        (5, 2, [Ok(2), Ok(2), Ok(1)], "ababa"),
        (20, 8, [Ok(8), Ok(8), Ok(4)], "abcdefghabcdefghabcd"),
        (24, 8, [Ok(8), Ok(8), Ok(8)], "abcdefghabcdefghabcdefgh"),
        (5, 0, [Err(Failed), Err(Failed), Err(Failed)], ""),
        (0, 3, [Err(Failed), Err(Failed), Err(Failed)], ""),
    ];
    for (row, (room, most, answers, held)) in cases.into_iter().enumerate() {
        let mut sink = MemSink::new(rt.alloc(), room, most)?.labelled(7);
        for want in answers {
            assert_eq!(rt; sink.write(b"abcdefgh"), want, "row {row}");
            assert_eq!(rt; sink.write(b""), Ok(0), "row {row}");
        }
        assert_eq!(rt; sink.bytes(), held.as_bytes(), "row {row}");
        assert_eq!(rt; sink.label(), 7, "row {row}");
    }
    Ok(())
}

// Each row: a sink's room and most, what writing eight letters answers, and the sink's bytes.
#[test]
fn writes_all_or_a_part(rt: HostRuntime) -> Result<(), Fail> {
    let cases = [
        (8, 3, Ok(()), "abcdefgh"),
        (9, 20, Ok(()), "abcdefgh"),
        (8, 1, Ok(()), "abcdefgh"),
        (7, 3, Err(Failed), "abcdefg"),
        (5, 20, Err(Failed), "abcde"),
        (8, 0, Err(Failed), ""),
    ];
    for (row, (room, most, want, held)) in cases.into_iter().enumerate() {
        let mut sink = MemSink::new(rt.alloc(), room, most)?;
        assert_eq!(rt; write_all(&mut sink, b""), Ok(()), "row {row}");
        assert_eq!(rt; write_all(&mut sink, b"abcdefgh"), want, "row {row}");
        assert_eq!(rt; sink.bytes(), held.as_bytes(), "row {row}");
    }
    Ok(())
}

fn pass<G: Gate>(gate: &G) {
    gate.before(0);
    gate.after(u64::MAX);
}

#[test]
fn lets_every_piece_pass() {
    pass(&FreeGate);
}
