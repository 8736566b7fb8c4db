//! Lines that one reader lends, of one piece after the other.

use crate::pieces::Tape;
use line_pieces::{Cut, PieceFault, PieceReader};
use std::alloc::Global;
use std::test::Fail;

// Writes each line of the piece that was read last with its offset, and a bar behind the piece.
fn write_lent(alloc: Global, text: &mut Vec<u8>, reader: &PieceReader) -> Result<(), Fail> {
    let mut lines = reader.lines();
    for _ in 0..reader.count() {
        if let Some(line) = lines.next_line() {
            let at = format!(in alloc; "{}:", line.at)?;
            text.extend_from_slice(at.as_bytes())?;
            text.extend_from_slice(line.bytes)?;
            text.push(b' ')?;
        }
    }
    let end = if lines.next_line().is_none() {
        b'|'
    } else {
        b'+'
    };
    text.push(end)?;
    Ok(())
}

// What the pieces of one file give, the last one first, read by this reader.
fn turned_text(
    alloc: Global,
    reader: &mut PieceReader,
    bytes: &[u8],
    most: usize,
    size: u64,
) -> Result<Vec<u8>, Fail> {
    let cut = Cut::new(Vec::from_slice(alloc, &[bytes.len() as u64])?, size.max(1));
    let mut file = Tape::new(alloc, bytes, most, 0)?;
    let mut text = Vec::new(alloc);
    let pieces = cut.pieces();
    for before in 0..pieces {
        reader.read_of(&mut file, &cut, pieces - 1 - before)?;
        write_lent(alloc, &mut text, reader)?;
    }
    Ok(text)
}

// Each row: the bytes of a file, the size of its pieces, and what each piece gives, the last one
// first. One reader reads all pieces of all rows.
#[test]
fn lends_each_line_once(rt: HostRuntime) -> Result<(), Fail> {
    let alloc = rt.alloc();
    let mut reader = PieceReader::new(alloc);
    let three = b"1\n\"xxxxxxxxxxxxxxxxxxxxxxxxxxxxxxxxxxxxxx\"\n3\n";
    let cases: [(&[u8], u64, &[u8]); 10] = [
        (b"\xef\xbb\xbf1\r\n \n2", 1, b"8:2 ||||||||0:1\r |"),
        (b"\xef\xbb\xbf1\r\n \n2", 4, b"8:2 ||0:1\r |"),
        (
            three,
            4,
            b"|43:3 ||||||||||0:1 2:\"xxxxxxxxxxxxxxxxxxxxxxxxxxxxxxxxxxxxxx\" |",
        ),
        (
            three,
            4_194_304,
            b"0:1 2:\"xxxxxxxxxxxxxxxxxxxxxxxxxxxxxxxxxxxxxx\" 43:3 |",
        ),
        (b"", 4, b""),
        (b"ab\ncd\n", 3, b"3:cd |0:ab |"),
        (b"ab\ncd\n", 1, b"||3:cd |||0:ab |"),
        (b"ab\ncd", 4, b"|0:ab 3:cd |"),
        (b"\n\n \t\r\nx", 1, b"6:x |||||||"),
        (b"\xef\xbb\xbf", 4, b"|"),
    ];
    for (row, (bytes, size, want)) in cases.into_iter().enumerate() {
        for most in [1, 3, usize::MAX] {
            let text = turned_text(alloc, &mut reader, bytes, most, size)?;
            assert_eq!(rt; text.as_slice(), want, "row {row}");
        }
    }
    Ok(())
}

// How many lines a reader has after the first piece of one file, the second, and the first again,
// with a mark before the number where the piece was not read. The pieces are of 4 bytes. The first
// takes two calls, of which this one fails, and has two lines; the second takes one and has none.
fn text_of_three(alloc: Global, failing: u64) -> Result<Vec<u8>, Fail> {
    let bytes = b"1\n\"xxxxxxxxxxxxxxxxxxxxxxxxxxxxxxxxxxxxxx\"\n3\n";
    let cut = Cut::new(Vec::from_slice(alloc, &[45])?, 4);
    let mut file = Tape::new(alloc, bytes, usize::MAX, failing)?;
    let mut reader = PieceReader::new(alloc);
    let mut text = Vec::new(alloc);
    for piece in [0, 1, 0] {
        if piece < cut.pieces() {
            if let Err(PieceFault::ReadFault) = reader.read_of(&mut file, &cut, piece) {
                text.push(b'!')?;
            }
            let count = format!(in alloc; "{} ", reader.count())?;
            text.extend_from_slice(count.as_bytes())?;
        }
    }
    Ok(text)
}

// Each row: the call that fails, and what is read then.
#[test]
fn has_no_line_after_a_fault(rt: HostRuntime) -> Result<(), Fail> {
    let cases = [
        (1, "!0 0 2 "),
        (2, "!0 0 2 "),
        (3, "2 !0 2 "),
        (4, "2 0 !0 "),
        (5, "2 0 !0 "),
        (6, "2 0 2 "),
    ];
    for (failing, want) in cases {
        let text = text_of_three(rt.alloc(), failing)?;
        assert_eq!(rt; text.as_slice(), want.as_bytes(), "call {failing}");
    }
    Ok(())
}

// How many lines a piece has, and the sum of their bytes.
fn count_and_sum(
    reader: &mut PieceReader,
    file: &mut Tape,
    cut: &Cut,
    piece: u64,
) -> Result<(u64, u64), PieceFault> {
    if piece >= cut.pieces() {
        return Ok((0, 0));
    }
    reader.read_of(file, cut, piece)?;
    Ok((reader.count(), reader.sum()))
}

// Lines of 2 bytes, none and 2 bytes. Each row: the size of pieces, a piece, how many lines it has,
// and the sum of their bytes.
#[test]
fn sums_the_bytes_of_lines(rt: HostRuntime) -> Result<(), Fail> {
    let alloc = rt.alloc();
    let mut file = Tape::new(alloc, b"ab\n\ncd\n", usize::MAX, 0)?;
    let mut reader = PieceReader::new(alloc);
    let cases = [
        (100, 0, (2, 394)),
        (4, 0, (1, 195)),
        (4, 1, (1, 199)),
        (3, 1, (1, 199)),
        (3, 2, (0, 0)),
    ];
    for (size, piece, want) in cases {
        let cut = Cut::new(Vec::from_slice(alloc, &[7])?, size);
        let got = count_and_sum(&mut reader, &mut file, &cut, piece)?;
        assert_eq!(rt; got, want, "piece {piece} of {size}");
    }
    Ok(())
}

// A line of 199,999 bytes over four pieces of 50,000, and a line in the fifth. Each row: a piece that
// one reader reads next, how many lines it has, and the sum of their bytes.
#[test]
fn keeps_nothing_of_pieces_before(rt: HostRuntime) -> Result<(), Fail> {
    let alloc = rt.alloc();
    let mut bytes = vec![in alloc; b'x'; 199_999]?;
    bytes.extend_from_slice(b"\ny")?;
    let cut = Cut::new(Vec::from_slice(alloc, &[200_001])?, 50_000);
    let mut file = Tape::new(alloc, &bytes, usize::MAX, 0)?;
    let mut reader = PieceReader::new(alloc);
    let cases = [
        (4, (1, 121)),
        (3, (0, 0)),
        (0, (1, 23_999_880)),
        (1, (0, 0)),
        (4, (1, 121)),
        (0, (1, 23_999_880)),
        (2, (0, 0)),
    ];
    for (piece, want) in cases {
        let got = count_and_sum(&mut reader, &mut file, &cut, piece)?;
        assert_eq!(rt; got, want, "piece {piece}");
        assert!(rt; file.asked <= 65_536);
    }
    Ok(())
}
