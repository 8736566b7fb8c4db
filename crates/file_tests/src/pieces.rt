//! Inputs that are cut into pieces, and read whole.

ghost use Rattle.std.specs.Prelude.{◌≡◌, ◌≤◌, true, false, None};
ghost use Rattle.outside.specs.Counted.{Rose};

use line_pieces::{Cut, Line, PieceFault, count_lines, piece_lines, read_whole};
use outside::{Failed, InputFile};
use std::alloc::Global;
use std::test::Fail;

// A file that tells nothing. It counts its calls, of which one may fail, and gives at most so many
// bytes at once.
#[derive(Drop)]
pub(crate) struct Tape {
    bytes: Vec<u8>,
    length: u64,
    most: usize,
    failing: u64,
    calls: u64,
    pub(crate) asked: usize,
    faults: u64,
}

impl Tape {
    pub(crate) fn new(
        alloc: Global,
        bytes: &[u8],
        most: usize,
        failing: u64,
    ) -> Result<Tape, Fail> {
        Ok(Tape {
            bytes: Vec::from_slice(alloc, bytes)?,
            length: bytes.len() as u64,
            most,
            failing,
            calls: 0,
            asked: 0,
            faults: 0,
        })
    }

    // Counts a call, and a fault where it is the one that fails.
    fn fails_now(&mut self) -> bool
        ensures calm { result ≡ false → self.new.faults ≡ self.old.faults }
        ensures fault { result ≡ true → Rose self.old.faults self.new.faults }
        ensures rises { self.old.faults ≤ self.new.faults }
    {
        self.calls = self.calls.saturating_add(1);
        let fails = self.calls == self.failing;
        if fails {
            self.faults = self.faults.saturating_add(1);
        }
        fails
    }
}

impl InputFile for Tape {
    ghost held = { λ _. None };

    ghost faults = { λ t. t.faults };

    fn len(&mut self) -> Result<u64, Failed> {
        if self.fails_now() {
            return Err(Failed);
        }
        Ok(self.length)
    }

    fn read_at(&mut self, at: u64, into: &mut [u8]) -> Result<usize, Failed> {
        if self.fails_now() {
            return Err(Failed);
        }
        self.asked = self.asked.max(into.len());
        let from = (at as usize).min(self.bytes.len());
        let count = (self.bytes.len() - from).min(into.len()).min(self.most);
        into[..count].copy_from_slice(&self.bytes[from..from + count]);
        Ok(count)
    }
}

// The lines of a piece of one file.
fn piece_of_one(
    alloc: Global,
    bytes: &[u8],
    most: usize,
    size: u64,
    piece: u64,
) -> Result<Vec<Line>, Fail> {
    let cut = Cut::new(Vec::from_slice(alloc, &[bytes.len() as u64])?, size.max(1));
    let mut files = Vec::new(alloc);
    files.push(Tape::new(alloc, bytes, most, 0)?)?;
    if piece >= cut.pieces() {
        return Ok(Vec::new(alloc));
    }
    Ok(piece_lines(alloc, &mut files, &cut, piece)?)
}

// How many lines a piece of one file has.
fn count_of_one(
    alloc: Global,
    bytes: &[u8],
    most: usize,
    size: u64,
    piece: u64,
) -> Result<u64, Fail> {
    let cut = Cut::new(Vec::from_slice(alloc, &[bytes.len() as u64])?, size.max(1));
    let mut files = Vec::new(alloc);
    files.push(Tape::new(alloc, bytes, most, 0)?)?;
    if piece >= cut.pieces() {
        return Ok(0);
    }
    Ok(count_lines(alloc, &mut files, &cut, piece)?)
}

// The lines of a piece of two files.
fn piece_of_two(
    alloc: Global,
    first: &[u8],
    second: &[u8],
    size: u64,
    piece: u64,
) -> Result<Vec<Line>, Fail> {
    let lengths = [first.len() as u64, second.len() as u64];
    let cut = Cut::new(Vec::from_slice(alloc, &lengths)?, size.max(1));
    let mut files = Vec::new(alloc);
    files.push(Tape::new(alloc, first, usize::MAX, 0)?)?;
    files.push(Tape::new(alloc, second, usize::MAX, 0)?)?;
    if piece >= cut.pieces() {
        return Ok(Vec::new(alloc));
    }
    Ok(piece_lines(alloc, &mut files, &cut, piece)?)
}

// Writes each line with its offset, and a bar behind the piece.
fn write_piece(alloc: Global, text: &mut Vec<u8>, lines: &[Line]) -> Result<(), Fail> {
    for line in lines {
        let at = format!(in alloc; "{}:", line.at)?;
        text.extend_from_slice(at.as_bytes())?;
        text.extend_from_slice(&line.bytes)?;
        text.push(b' ')?;
    }
    text.push(b'|')?;
    Ok(())
}

// Each row: lengths of files, a wanted size, the size that is used, and the number of pieces.
#[test]
fn cuts_files(rt: HostRuntime) -> Result<(), Fail> {
    let cases: [(&[u64], u64, u64, u64); 8] = [
        (&[9], 1, 1, 9),
        (&[45], 4, 4, 12),
        (&[0], 5, 5, 0),
        (&[1_048_576], 1, 1, 1_048_576),
        (&[1_048_577], 1, 2, 524_289),
        (&[1, 2], 1, 1, 3),
        (&[3, 0, 2], 2, 2, 3),
        (&[u64::MAX], 1, 1 << 44, 1 << 20),
    ];
    for (row, (lengths, wanted, size, pieces)) in cases.into_iter().enumerate() {
        assert!(rt; lengths.len() <= 64 && wanted > 0);
        let cut = Cut::new(Vec::from_slice(rt.alloc(), lengths)?, wanted);
        assert_eq!(rt; cut.size(), size, "row {row}");
        assert_eq!(rt; cut.pieces(), pieces, "row {row}");
    }
    Ok(())
}

// Each row: a piece of files of 3, 0 and 2 bytes in pieces of 2, its file and its number there.
#[test]
fn places_pieces(rt: HostRuntime) -> Result<(), Fail> {
    for (piece, place) in [(0, (0, 0)), (1, (0, 1)), (2, (2, 0))] {
        let cut = Cut::new(Vec::from_slice(rt.alloc(), &[3, 0, 2])?, 2);
        assert!(rt; piece < cut.pieces());
        assert_eq!(rt; cut.place(piece), place, "piece {piece}");
    }
    Ok(())
}

// Each row: the bytes of a file, the size of its pieces, and what each piece gives.
#[test]
fn gives_each_line_once(rt: HostRuntime) -> Result<(), Fail> {
    let alloc = rt.alloc();
    let three = b"1\n\"xxxxxxxxxxxxxxxxxxxxxxxxxxxxxxxxxxxxxx\"\n3\n";
    let cases: [(&[u8], u64, &[u8]); 11] = [
        (b"\xef\xbb\xbf1\r\n \n2", 1, b"0:1\r ||||||||8:2 |"),
        (
            three,
            4,
            b"0:1 2:\"xxxxxxxxxxxxxxxxxxxxxxxxxxxxxxxxxxxxxx\" ||||||||||43:3 ||",
        ),
        (b"", 5, b""),
        (b"ab\ncd\n", 3, b"0:ab |3:cd |"),
        (b"ab\ncd\n", 2, b"0:ab |3:cd ||"),
        (b"ab\ncd", 1, b"0:ab |||3:cd ||"),
        (b"ab\ncd", 100, b"0:ab 3:cd |"),
        (b"\n\n \t\r\nx", 1, b"||||||6:x |"),
        (b"\xef\xbb\xbf", 2, b"||"),
        (b"a\n\xef\xbb\xbfb", 2, b"0:a |2:\xef\xbb\xbfb ||"),
        (b"\xef\xbb\xbfa\nb", 2, b"0:a ||5:b |"),
    ];
    for (row, (bytes, size, want)) in cases.into_iter().enumerate() {
        for most in [1, 3, usize::MAX] {
            let mut text = Vec::new(alloc);
            let pieces = (bytes.len() as u64).div_ceil(size.max(1));
            for piece in 0..pieces {
                let lines = piece_of_one(alloc, bytes, most, size, piece)?;
                let count = count_of_one(alloc, bytes, most, size, piece)?;
                assert_eq!(rt; count, lines.len() as u64, "row {row}");
                write_piece(alloc, &mut text, &lines)?;
            }
            assert_eq!(rt; text.as_slice(), want, "row {row}");
        }
    }
    Ok(())
}

// A file that ends without a line feed, and another one behind it.
#[test]
fn parts_files(rt: HostRuntime) -> Result<(), Fail> {
    let alloc = rt.alloc();
    let mut text = Vec::new(alloc);
    for piece in 0..3 {
        let lines = piece_of_two(alloc, b"1", b"2\n", 1, piece)?;
        write_piece(alloc, &mut text, &lines)?;
    }
    assert_eq!(rt; text.as_slice(), b"0:1 |0:2 ||".as_slice());
    Ok(())
}

// Pieces of 4 bytes of one file: the first takes two calls and has two lines, the next two take one
// call each and have none. Each row: the call that fails, and how many lines each piece gives.
#[test]
fn fails_at_the_piece_that_calls(rt: HostRuntime) -> Result<(), Fail> {
    let alloc = rt.alloc();
    let bytes = b"1\n\"xxxxxxxxxxxxxxxxxxxxxxxxxxxxxxxxxxxxxx\"\n3\n";
    let fault = Err(PieceFault::ReadFault);
    let cases = [
        (1, [fault, Ok(0), Ok(0)]),
        (2, [fault, Ok(0), Ok(0)]),
        (3, [Ok(2), fault, Ok(0)]),
        (4, [Ok(2), Ok(0), fault]),
        (5, [Ok(2), Ok(0), Ok(0)]),
    ];
    for (failing, [first, second, third]) in cases {
        let cut = Cut::new(Vec::from_slice(alloc, &[45])?, 4);
        let mut files = Vec::new(alloc);
        files.push(Tape::new(alloc, bytes, usize::MAX, failing)?)?;
        assert!(rt; cut.pieces() == 12);
        let got = piece_lines(alloc, &mut files, &cut, 0).map(|v| v.len() as u64);
        assert_eq!(rt; got, first, "call {failing}");
        assert_eq!(rt;
            count_lines(alloc, &mut files, &cut, 1),
            second,
            "call {failing}"
        );
        let got = piece_lines(alloc, &mut files, &cut, 2).map(|v| v.len() as u64);
        assert_eq!(rt; got, third, "call {failing}");
    }
    Ok(())
}

// A line of 199,999 bytes over four pieces of 50,000, and a line in the fifth. Each row: a piece,
// its lines, and how many calls find them. No call asks for more than 65,536 bytes.
#[test]
fn reads_a_long_line_once(rt: HostRuntime) -> Result<(), Fail> {
    let alloc = rt.alloc();
    let mut bytes = vec![in alloc; b'x'; 199_999]?;
    bytes.extend_from_slice(b"\ny")?;
    for (piece, lines, calls) in [(0, 1, 4), (1, 0, 1), (2, 0, 1), (3, 0, 1), (4, 1, 1)] {
        let cut = Cut::new(Vec::from_slice(alloc, &[200_001])?, 50_000);
        let mut files = Vec::new(alloc);
        files.push(Tape::new(alloc, &bytes, usize::MAX, 0)?)?;
        assert!(rt; piece < cut.pieces());
        let count = count_lines(alloc, &mut files, &cut, piece)?;
        assert_eq!(rt; count, lines, "piece {piece}");
        assert_eq!(rt; files[0].calls, calls, "piece {piece}");
        assert!(rt; files[0].asked <= 65_536);
    }
    Ok(())
}

// Each row: how many bytes a file has, how many it says it has, the call that fails, and how many
// are read.
#[test]
fn reads_whole_files(rt: HostRuntime) -> Result<(), Fail> {
    let alloc = rt.alloc();
    let cases = [
        (0, 0, 0, Ok(0)),
        (200_001, 200_001, 0, Ok(200_001)),
        (5, 9, 0, Ok(5)),
        (200_001, 200_001, 1, Err(PieceFault::ReadFault)),
        (200_001, 200_001, 5, Err(PieceFault::ReadFault)),
        (200_001, 200_001, 6, Ok(200_001)),
    ];
    for (row, (count, length, failing, want)) in cases.into_iter().enumerate() {
        let bytes = vec![in alloc; b'x'; count]?;
        let mut tape = Tape::new(alloc, &bytes, usize::MAX, failing)?;
        tape.length = length;
        let got = read_whole(alloc, &mut tape).map(|v| v.len());
        assert_eq!(rt; got, want, "row {row}");
        assert!(rt; tape.asked <= 65_536);
    }
    Ok(())
}
