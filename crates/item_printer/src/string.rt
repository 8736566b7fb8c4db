//! Prints strings and dates, with the escapes that JSON asks for.

ghost use Rattle.std.specs.Prelude.{◌≡◌, ◌<◌, ◌++◌, true, false, OnOk, OnErr, position};
ghost use Rattle.std.specs.Fmt.{digit_glyph};
ghost use Rattle.item_tree.specs.Dates.{date_text, date_time_text};
ghost use Rattle.item_tree.specs.ItemText.{string_text, control_text};
ghost use Rattle.item_printer.specs.Cut.{IsCut};
ghost use Rattle.item_printer.specs.StringBytes.{byte_text, bytes_text, quoted_text, is_escaped};

use crate::append::{append, append_byte};
use byte_lanes::first_string_stop;
use item_tree::{DateText, Day, Moment, NoMemory, Str};

pub(crate) fn print_string(text: &Str, out: &mut Vec<u8>) -> Result<(), NoMemory>
    ensures ok { OnOk result (out.new.items ≡ out.old.items ++ string_text text.now) }
    ensures err { OnErr result (IsCut (string_text text.now) out.old.items out.new.items) }
{
    print_quoted(text.as_str().as_bytes(), out)
}

// The text of a date or date-time, as a string.
fn print_date(text: &DateText, out: &mut Vec<u8>) -> Result<(), NoMemory>
    ensures ok { OnOk result (out.new.items ≡ out.old.items ++ string_text text.now) }
    ensures err { OnErr result (IsCut (string_text text.now) out.old.items out.new.items) }
{
    print_quoted(text.as_str().as_bytes(), out)
}

#[inline(never)]
pub(crate) fn print_day(day: &Day, out: &mut Vec<u8>) -> Result<(), NoMemory>
    ensures ok { OnOk result (out.new.items ≡ out.old.items ++ string_text (date_text day.now)) }
    ensures err { OnErr result
        (IsCut (string_text (date_text day.now)) out.old.items out.new.items) }
{
    print_date(&day.text(), out)
}

#[inline(never)]
pub(crate) fn print_moment(moment: &Moment, out: &mut Vec<u8>) -> Result<(), NoMemory>
    ensures ok { OnOk result
        (out.new.items ≡ out.old.items ++ string_text (date_time_text moment.now)) }
    ensures err { OnErr result
        (IsCut (string_text (date_time_text moment.now)) out.old.items out.new.items) }
{
    print_date(&moment.text(), out)
}

#[tactic(auto, using(crate::proofs::Cuts::cuts))]
fn print_quoted(bytes: &[u8], out: &mut Vec<u8>) -> Result<(), NoMemory>
    ensures ok { OnOk result (out.new.items ≡ out.old.items ++ quoted_text bytes.now) }
    ensures err { OnErr result (IsCut (quoted_text bytes.now) out.old.items out.new.items) }
{
    append_byte(b'"', out)?;
    print_bytes(bytes, out)?;
    append_byte(b'"', out)
}

// Each stretch without escapes is appended as a whole.
fn print_bytes(bytes: &[u8], out: &mut Vec<u8>) -> Result<(), NoMemory>
    ensures ok { OnOk result (out.new.items ≡ out.old.items ++ bytes_text bytes.now) }
    ensures err { OnErr result (IsCut (bytes_text bytes.now) out.old.items out.new.items) }
{
    let mut rest = bytes;
    while let Some(at) = first_escaped(rest) {
        append(&rest[..at], out)?;
        print_escape(rest[at], out)?;
        rest = rest.split_at(at + 1).1;
    }
    append(rest, out)
}

#[tactic(auto, using(crate::proofs::Stops::first_stop_position))]
fn first_escaped(bytes: &[u8]) -> Option<usize>
    ensures { result ≡ position is_escaped bytes.now }
{
    first_string_stop(bytes)
}

fn print_escape(byte: u8, out: &mut Vec<u8>) -> Result<(), NoMemory>
    requires { is_escaped byte ≡ true }
    ensures ok { OnOk result (out.new.items ≡ out.old.items ++ byte_text byte) }
    ensures err { OnErr result (IsCut (byte_text byte) out.old.items out.new.items) }
{
    match byte {
        b'"' => append(b"\\\"", out),
        b'\\' => append(b"\\\\", out),
        8 => append(b"\\b", out),
        b'\t' => append(b"\\t", out),
        b'\n' => append(b"\\n", out),
        12 => append(b"\\f", out),
        b'\r' => append(b"\\r", out),
        _ => print_control(byte, out),
    }
}

fn print_control(byte: u8, out: &mut Vec<u8>) -> Result<(), NoMemory>
    requires { byte < 32 }
    ensures ok { OnOk result (out.new.items ≡ out.old.items ++ control_text byte) }
    ensures err { OnErr result (IsCut (control_text byte) out.old.items out.new.items) }
{
    let escape = [
        b'\\',
        b'u',
        b'0',
        b'0',
        hex_digit(byte / 16),
        hex_digit(byte % 16),
    ];
    append(&escape, out)
}

fn hex_digit(digit: u8) -> u8
    requires { digit < 16 }
    ensures { result ≡ digit_glyph false digit }
{
    if digit < 10 {
        b'0' + digit
    } else {
        b'a' - 10 + digit
    }
}
