//! Values of each kind, and lines that are none.

use crate::printed::{answer, assert_lines};
use item_reader::{Reader, laws, read_item};
use json_text::laws as texts;
use std::alloc::Global;
use std::test::Fail;

#[test]
fn reads_values(rt: HostRuntime) -> Result<(), Fail> {
    let lines: [(&[u8], &str); 50] = [
        (b"null", "null"),
        (b"true", "true"),
        (b" false\t", "false"),
        (b"", ""),
        (b"\t\r ", ""),
        (b"\n", "JNDY0021"),
        (b"\n1\n", "1"),
        (b"nul", "JNDY0021"),
        (b"nullx", "JNDY0021"),
        (b"True", "JNDY0021"),
        (b"truefalse", "JNDY0021"),
        (b"\xc2\xa01", "JNDY0021"),
        (b"\xef\xbb\xbf1", "JNDY0021"),
        (b"[1\xef\xbb\xbf]", "JNDY0021"),
        (b"\x0b1", "JNDY0021"),
        (b"[]", "[]"),
        (b" [ ] ", "[]"),
        (b"[1 , 2,\"a\"]", "[1,2,\"a\"]"),
        (b"[1,]", "JNDY0021"),
        (b"[1,2,]", "JNDY0021"),
        (b"[1,2", "JNDY0021"),
        (b"[1,2}", "JNDY0021"),
        (b"[1,2:3]", "JNDY0021"),
        (b"[01]", "JNDY0021"),
        (b"[1,02]", "JNDY0021"),
        (b"[1,2][3]", "JNDY0021"),
        (b"{[1]:2}", "JNDY0021"),
        (b"{\"a\"[1]}", "JNDY0021"),
        (b"[,1]", "JNDY0021"),
        (b"[1 2]", "JNDY0021"),
        (b"[1", "JNDY0021"),
        (b"1]", "JNDY0021"),
        (b"[1}", "JNDY0021"),
        (b"[]]", "JNDY0021"),
        (b"[1]2", "JNDY0021"),
        (b"1 2", "JNDY0021"),
        (b"1,", "JNDY0021"),
        (b"{}", "{}"),
        (b"{ \"a\" : 1 , \"b\":[] }", "{\"a\":1,\"b\":[]}"),
        (b"{\"a\":1,}", "JNDY0021"),
        (b"{\"a\" 1}", "JNDY0021"),
        (b"{\"a\":}", "JNDY0021"),
        (b"{\"a\"}", "JNDY0021"),
        (b"{a:1}", "JNDY0021"),
        (b"{1:1}", "JNDY0021"),
        (b"{\"a\":1]", "JNDY0021"),
        (b"{,}", "JNDY0021"),
        (b"{null:1}", "JNDY0021"),
        (b":", "JNDY0021"),
        (b"#", "JNDY0021"),
    ];
    assert_lines(&rt, rt.alloc(), &lines)
}

#[test]
fn reads_numbers(rt: HostRuntime) -> Result<(), Fail> {
    let zeros = [b'0'; 400];
    let mut large = [b'0'; 401];
    large[0] = b'1';
    let lines: [(&[u8], &str); 38] = [
        (b"12", "12"),
        (b"-0", "0"),
        (b"-0.0", "0"),
        (b" -7 ", "-7"),
        (b"1e-6", "0.000001"),
        (b"1.50", "1.5"),
        (b"1E2", "100"),
        (b"1e+2", "100"),
        (b"0e0", "0"),
        (b"0.0000005", "0"),
        (b"0.0000015", "0.000002"),
        (b"1e-400", "0"),
        (b"1e400", "PJDY0004"),
        (b"0e400", "0"),
        (b"99999999999999999999", "99999999999999999999"),
        (b"-99999999999999999999", "-99999999999999999999"),
        (b"100000000000000000000", "PJDY0004"),
        (b"100000000000000000000.0", "PJDY0004"),
        (b"-1e20", "PJDY0004"),
        (&large, "PJDY0004"),
        (&zeros, "JNDY0021"),
        (b"01", "JNDY0021"),
        (b"-01", "JNDY0021"),
        (b"00", "JNDY0021"),
        (b"--1", "JNDY0021"),
        (b"-", "JNDY0021"),
        (b"+1", "JNDY0021"),
        (b"1.", "JNDY0021"),
        (b".5", "JNDY0021"),
        (b"1.e2", "JNDY0021"),
        (b"1e", "JNDY0021"),
        (b"1e+", "JNDY0021"),
        (b"1e2.5", "JNDY0021"),
        (b"1.5.5", "JNDY0021"),
        (b"0x1", "JNDY0021"),
        (b"- 1", "JNDY0021"),
        (b"NaN", "JNDY0021"),
        (b"Infinity", "JNDY0021"),
    ];
    assert_lines(&rt, rt.alloc(), &lines)
}

#[test]
fn reads_strings(rt: HostRuntime) -> Result<(), Fail> {
    let lines: [(&[u8], &str); 41] = [
        (b"\"\"", "\"\""),
        (b"\"a b\"", "\"a b\""),
        (
            b"\"\\\"\\\\\\/\\b\\f\\n\\r\\t\"",
            "\"\\\"\\\\/\\b\\f\\n\\r\\t\"",
        ),
        (b"\"\\u0041\\u00e9\\u20AC\"", "\"Aé\u{20ac}\""),
        (b"\"\\u0000\"", "\"\\u0000\""),
        (b"\"\xc3\xa9\xf0\x9f\x98\x80\x7f\"", "\"é\u{1f600}\u{7f}\""),
        // a pair, halves alone, and halves in the wrong order
        (b"\"\\ud83d\\ude00\"", "\"\u{1f600}\""),
        (b"\"\\uD834\\uDD1Ex\"", "\"\u{1d11e}x\""),
        (b"\"\\ud800\"", "\"\u{fffd}\""),
        (b"\"\\udfff\"", "\"\u{fffd}\""),
        (b"\"\\ud83dx\"", "\"\u{fffd}x\""),
        (b"\"\\ude00\\ud83d\"", "\"\u{fffd}\u{fffd}\""),
        (b"\"\\ud83d\\ud83d\\ude00\"", "\"\u{fffd}\u{1f600}\""),
        (b"\"\\ud83d\\u0041\"", "\"\u{fffd}A\""),
        (b"\"\\ud83d\\n\"", "\"\u{fffd}\\n\""),
        (b"\"\\ud7ff\\ue000\"", "\"\u{d7ff}\u{e000}\""),
        (b"\"\\udbff\\udfff\"", "\"\u{10ffff}\""),
        (b"\"\\ud83d\\u12\"", "JNDY0021"),
        (b"\"\\u12g4\"", "JNDY0021"),
        (b"\"\\u+123\"", "JNDY0021"),
        (b"\"\\U0041\"", "JNDY0021"),
        (b"\"\\x41\"", "JNDY0021"),
        (b"\"\\'\"", "JNDY0021"),
        (b"'a'", "JNDY0021"),
        (b"\"a", "JNDY0021"),
        (b"\"", "JNDY0021"),
        (b"\"a\\", "JNDY0021"),
        (b"\"a\\\"", "JNDY0021"),
        (b"\"a\"b\"", "JNDY0021"),
        // control characters
        (b"\"\n\"", "JNDY0021"),
        (b"\"\t\"", "JNDY0021"),
        (b"\"\x00\"", "JNDY0021"),
        (b"\"\x1f\"", "JNDY0021"),
        // no UTF-8: a byte alone, overlong, cut, a surrogate, too large
        (b"\"\xff\"", "JNDY0021"),
        (b"\"\x80\"", "JNDY0021"),
        (b"\"\xc0\x80\"", "JNDY0021"),
        (b"\"\xe0\x80\xaf\"", "JNDY0021"),
        (b"\"\xe2\x82\"", "JNDY0021"),
        (b"\"\xed\xa0\x80\"", "JNDY0021"),
        (b"\"\xf4\x90\x80\x80\"", "JNDY0021"),
        (b"\"\xf0\x9f\\ude00\"", "JNDY0021"),
    ];
    assert_lines(&rt, rt.alloc(), &lines)
}

#[test]
fn the_first_trouble_decides(rt: HostRuntime) -> Result<(), Fail> {
    let lines: [(&[u8], &str); 8] = [
        (b"[1e400,{\"a\":1}]", "PJDY0004"),
        (b"[1e400", "JNDY0021"),
        (b"1e400]", "JNDY0021"),
        (b"[1e400,\"\xff\"]", "JNDY0021"),
        (b"{\"a\":1e400,\"a\":1}", "PJDY0004"),
        (b"{\"a\":1e400,1}", "JNDY0021"),
        (b"[[1e400],[],{\"b\":[true]}]", "PJDY0004"),
        (b"[[1e400],[},{\"b\":[true]}]", "JNDY0021"),
    ];
    assert_lines(&rt, rt.alloc(), &lines)
}

#[test]
fn reads_line_after_line(rt: HostRuntime) -> Result<(), Fail> {
    let lines: [(&[u8], &str); 13] = [
        (b"[[1,2],{\"a\":[3", "JNDY0021"),
        (b"{\"b\":1}", "{\"b\":1}"),
        (b"[", "JNDY0021"),
        (b"[]", "[]"),
        (b"{\"a\":1,\"b\":{\"c\":\"x\\", "JNDY0021"),
        (b"{}", "{}"),
        (b"\"q\\\"r\"", "\"q\\\"r\""),
        (b"\"\\t\"", "\"\\t\""),
        (b"[1e400,{\"k\":[1,2]}]", "PJDY0004"),
        (b"[{\"k\":1},[2]]", "[{\"k\":1},[2]]"),
        (b"{\"a\":1,\"a\":[1,[2]]}", "{\"a\":[1,[2]]}"),
        (b"", ""),
        (b"7", "7"),
    ];
    assert_lines(&rt, rt.alloc(), &lines)
}

// An array of a few short numbers is read in one turn, and with a space in it as any other.
#[test]
fn reads_short_arrays(rt: HostRuntime) -> Result<(), Fail> {
    let lines: [(&[u8], &str); 24] = [
        (b"[7]", "[7]"),
        (b"[ 7]", "[7]"),
        (b"[0,12]", "[0,12]"),
        (b"[0 ,12]", "[0,12]"),
        (b"[1,2,3]", "[1,2,3]"),
        (b"[1,2,3 ]", "[1,2,3]"),
        (b"[4,3,2,1]", "[4,3,2,1]"),
        (b"[4,3,2, 1]", "[4,3,2,1]"),
        (b"[1,2,3,4,5]", "[1,2,3,4,5]"),
        (b"[1, 2,3,4,5]", "[1,2,3,4,5]"),
        (b"[999999999999999999,0]", "[999999999999999999,0]"),
        (b"[999999999999999999 ,0]", "[999999999999999999,0]"),
        (b"[0,1000000000000000000]", "[0,1000000000000000000]"),
        (b"[0,1000000000000000000 ]", "[0,1000000000000000000]"),
        (b"[-1,1]", "[-1,1]"),
        (b"[ -1,1]", "[-1,1]"),
        (b"[1,2.5,1e2]", "[1,2.5,100]"),
        (b"[1, 2.5,1e2]", "[1,2.5,100]"),
        (b"[[1],[2,3],4]", "[[1],[2,3],4]"),
        (b"[ [1 ],[2, 3],4]", "[[1],[2,3],4]"),
        (b"[1,[2,3,[4]],[]]", "[1,[2,3,[4]],[]]"),
        (b"[1 ,[2 ,3,[ 4]],[]]", "[1,[2,3,[4]],[]]"),
        (b"{\"a\":[1,2],\"b\":[3]}", "{\"a\":[1,2],\"b\":[3]}"),
        (b"{\"a\":[1, 2],\"b\":[ 3]}", "{\"a\":[1,2],\"b\":[3]}"),
    ];
    assert_lines(&rt, rt.alloc(), &lines)
}

// Numbers of each printed form, and what is escaped in print.
#[test]
fn prints_values(rt: HostRuntime) -> Result<(), Fail> {
    let lines: [(&[u8], &str); 14] = [
        (b"[0,9,10,42,99,100,-7,-10]", "[0,9,10,42,99,100,-7,-10]"),
        (
            b"99999999999999999999.999999",
            "99999999999999999999.999999",
        ),
        (
            b"-99999999999999999999.999999",
            "-99999999999999999999.999999",
        ),
        (
            b"[1e-6,1.50,100.0,-0.5,-1.0,12.05]",
            "[0.000001,1.5,100,-0.5,-1,12.05]",
        ),
        (b"\"\\/\"", "\"/\""),
        (b"\"\\u007f\\u0080\\u2028\"", "\"\u{7f}\u{80}\u{2028}\""),
        (
            b"\"say \\\"\\u00e9\\\"\\n\\\\o/\"",
            "\"say \\\"\u{e9}\\\"\\n\\\\o/\"",
        ),
        (
            b"\"\\u0000\\u0001\\u0002\\u0003\\u0004\\u0005\\u0006\\u0007\"",
            "\"\\u0000\\u0001\\u0002\\u0003\\u0004\\u0005\\u0006\\u0007\"",
        ),
        (
            b"\"\\u0008\\u0009\\u000a\\u000B\\u000c\\u000d\\u000e\\u000F\"",
            "\"\\b\\t\\n\\u000b\\f\\r\\u000e\\u000f\"",
        ),
        (
            b"\"\\u0010\\u0011\\u0012\\u0013\\u0014\\u0015\\u0016\\u0017\"",
            "\"\\u0010\\u0011\\u0012\\u0013\\u0014\\u0015\\u0016\\u0017\"",
        ),
        (
            b"\"\\u0018\\u0019\\u001a\\u001b\\u001C\\u001d\\u001e\\u001f\"",
            "\"\\u0018\\u0019\\u001a\\u001b\\u001c\\u001d\\u001e\\u001f\"",
        ),
        (
            b"{\"k\":[1,null],\"m\":[],\"\\n\":true}",
            "{\"k\":[1,null],\"m\":[],\"\\n\":true}",
        ),
        (b"[{\"k\":[]},{},false]", "[{\"k\":[]},{},false]"),
        (
            b"{\"b\":1,\"a\":2,\"b\":[null,3],\"\\u0061\":true}",
            "{\"b\":[null,3],\"a\":true}",
        ),
    ];
    assert_lines(&rt, rt.alloc(), &lines)
}

// The end of a string is looked for by vectors where the line is long, and byte by byte at its end.
#[test]
fn reads_strings_of_each_length(rt: HostRuntime) -> Result<(), Fail> {
    let alloc = rt.alloc();
    let mut reader = Reader::new(alloc);
    let mut text = String::from_str(alloc, "\"")?;
    for letter in "abcdefghijklmnopqrstuvwxyz0123456789".chars() {
        for spaces in [0usize, 1, 13, 14, 15, 16, 17, 40] {
            let quoted = format!(in alloc; "{}\"", text.as_str())?;
            let mut line = quoted.as_bytes().to_vec(alloc)?;
            for _ in 0..spaces {
                line.push(b' ')?;
            }
            let found = answer(&mut reader, alloc, &line)?;
            assert_eq!(rt; found.as_slice(), quoted.as_bytes(), "{spaces} spaces");
        }
        text.push(letter)?;
    }
    Ok(())
}

// A line of this many brackets that open, a text, and this many that close.
fn nested(alloc: Global, opened: usize, text: &[u8], closed: usize) -> Result<Vec<u8>, Fail> {
    let mut line = vec![in alloc; b'['; opened]?;
    line.extend_from_slice(text)?;
    for _ in 0..closed {
        line.push(b']')?;
    }
    Ok(line)
}

// What is read at the greatest depth is printed as it stands, and a bracket more is a fault.
#[test]
fn counts_open_brackets(rt: HostRuntime) -> Result<(), Fail> {
    let alloc = rt.alloc();
    let lines: [(usize, &[u8], usize, &str); 13] = [
        (128, b"", 128, ""),
        (127, b"[],{}", 127, ""),
        (128, b"1", 128, ""),
        (127, b"[1,2],[3]", 127, ""),
        (127, b"[{}]", 127, "PJDY0002"),
        (129, b"1", 129, "PJDY0002"),
        (129, b"", 129, "PJDY0002"),
        (129, b"", 128, "JNDY0021"),
        (129, b"1e400", 129, "PJDY0002"),
        (128, b"1e400,[]", 128, "PJDY0004"),
        (128, b"[],1e400", 128, "PJDY0002"),
        (1_000_000, b"", 0, "JNDY0021"),
        (100_000, b"", 100_000, "PJDY0002"),
    ];
    let mut reader = Reader::new(alloc);
    for (opened, text, closed, fault) in lines {
        let line = nested(alloc, opened, text, closed)?;
        let want = if fault.is_empty() {
            &line
        } else {
            fault.as_bytes()
        };
        let found = answer(&mut reader, alloc, &line)?;
        assert_eq!(rt; found.as_slice(), want, "at {opened} {text:?} {closed}");
    }
    Ok(())
}

#[test]
fn has_laws(rt: HostRuntime) {
    assert!(rt; read_item(rt.alloc(), b"1").is_ok());
    laws::inputs_are_exact();
    texts::one_raw_value();
    texts::texts_are_utf8();
    texts::reading_is_exact();
    texts::items_are_sound();
    texts::printed_reads_back();
}
