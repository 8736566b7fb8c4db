//! Slices of every short length, with the byte that decides at each place.
use byte_lanes::{count_newlines, first_newline, first_string_stop, is_blank, string_front};
use std::process::Abort;

/// The most bytes of a line, and of a string.
const LINE: usize = 200;

const STRING: usize = 100;

#[test]
fn finds_the_first_newline(rt: HostRuntime) {
    for at in 0..LINE {
        let mut line = [b'x'; LINE];
        // a second one behind it
        line[LINE - 1] = b'\n';
        line[at] = b'\n';
        for length in 0..LINE {
            let found = first_newline(&line[..length]);
            assert!(rt;
                found == if at < length { Some(at) } else { None },
                "{at} of {length}"
            );
        }
        assert!(rt; first_newline(&line) == Some(at), "{at}");
    }
}

#[test]
fn counts_newlines(rt: HostRuntime) {
    // at each place that is a multiple of a number: at all places, and at the first alone
    for step in 1..=LINE {
        let mut lines = [b'\x0b'; LINE];
        for at in 0..LINE {
            if at % step == 0 {
                lines[at] = b'\n';
            }
        }
        for length in 0..=LINE {
            let count = count_newlines(&lines[..length]);
            assert!(rt; count == length.div_ceil(step), "each {step} of {length}");
        }
    }
}

#[test]
fn tells_blank_lines(rt: HostRuntime) {
    for space in [b' ', b'\t', b'\r'] {
        for other in [b'\n', b'\x0b', b'\x0c', b'x', 0, 31, 33, 160] {
            for at in 0..LINE {
                let mut line = [space; LINE];
                line[at] = other;
                for length in 0..=LINE {
                    assert!(rt;
                        is_blank(&line[..length]) == (length <= at),
                        "{at} of {length}"
                    );
                }
            }
        }
    }
}

#[test]
fn stops_strings(rt: HostRuntime) {
    for stop in [0, 10, 31, b'"', b'\\'] {
        for at in 0..STRING {
            let mut string = [b'x'; STRING];
            string[at] = stop;
            for length in 0..=STRING {
                let (end, ascii) = string_front(&string[..length]);
                assert!(rt;
                    end == at.min(length) && ascii,
                    "{stop} at {at} of {length}"
                );
                let found = first_string_stop(&string[..length]);
                assert!(rt;
                    found == if at < length { Some(at) } else { None },
                    "{at} of {length}"
                );
            }
        }
    }
}

#[test]
fn goes_on_in_strings(rt: HostRuntime) {
    for (byte, is_ascii) in [
        (b' ', true),
        (b'!', true),
        (b'#', true),
        (b'[', true),
        (b']', true),
        (127, true),
        (128, false),
        (162, false),
        (255, false),
    ] {
        let string = [byte; STRING];
        for length in 0..=STRING {
            let (end, ascii) = string_front(&string[..length]);
            assert!(rt;
                end == length && ascii == (is_ascii || length == 0),
                "{byte} of {length}"
            );
            assert!(rt;
                first_string_stop(&string[..length]).is_none(),
                "{byte} of {length}"
            );
        }
    }
}

#[test]
fn tells_ascii_before_the_stop(rt: HostRuntime) {
    for at in 0..STRING {
        for wide in 0..STRING {
            let mut string = [b'x'; STRING];
            string[wide] = 128;
            string[at] = b'"';
            for length in 0..=STRING {
                let (end, ascii) = string_front(&string[..length]);
                assert!(rt; end == at.min(length), "{at} of {length}");
                assert!(rt;
                    ascii == (end <= wide || wide == at),
                    "{wide} before {at} of {length}"
                );
            }
        }
    }
}
