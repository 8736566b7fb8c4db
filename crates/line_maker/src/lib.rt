//! Lines of JSON that are made from one number, so that a trial needs no file.
#![tactic(auto)]

ghost use Rattle.std.specs.Prelude.{◌≡◌, ◌++◌, IfOk, OnOk};
ghost use Rattle.std.specs.Fmt.{decimal};
ghost use Rattle.line_maker.specs.Lines.{drawn, cents, array_line, object_line, line, made_lines};

use item_tree::NoMemory;
use itoa::Buffer;
use std::alloc::{AllocError, Global};

/// The most bytes that a line takes, whatever its number.
const MAX_LINE: usize = 38;

// The state behind this one.
fn drawn(state: u32) -> u32
    ensures { result ≡ drawn state }
{
    ((u64::from(state) * 1_103_515_245 + 12_345) % (1 << 31)) as u32
}

// Puts the digits of a number.
fn push_number(out: &mut Vec<u8>, number: u32) -> Result<(), AllocError>
    ensures { OnOk result (out.new.items ≡ out.old.items ++ decimal number) }
{
    let mut buffer = Buffer::new();
    out.extend_from_slice(buffer.format(number).as_bytes())
}

// Puts hundredths, with two digits behind the point.
fn push_cents(out: &mut Vec<u8>, draw: u32) -> Result<(), AllocError>
    ensures { OnOk result (out.new.items ≡ out.old.items ++ cents draw) }
{
    let places = draw % 100;
    push_number(out, draw / 100)?;
    out.push(b'.')?;
    out.push(b'0' + (places / 10) as u8)?;
    out.push(b'0' + (places % 10) as u8)?;
    Ok(())
}

// Puts the array of a draw.
fn push_array(out: &mut Vec<u8>, draw: u32) -> Result<(), AllocError>
    ensures { OnOk result (out.new.items ≡ out.old.items ++ array_line draw) }
{
    out.push(b'[')?;
    push_number(out, draw)?;
    out.extend_from_slice(b"]\n")
}

// Puts the object of a draw.
fn push_object(out: &mut Vec<u8>, number: u32, draw: u32) -> Result<(), AllocError>
    ensures { OnOk result (out.new.items ≡ out.old.items ++ object_line number draw) }
{
    out.extend_from_slice(b"{\"id\":")?;
    push_number(out, number)?;
    out.extend_from_slice(b",\"k\":\"g")?;
    push_number(out, draw % 3)?;
    out.extend_from_slice(b"\",\"v\":")?;
    push_cents(out, draw)?;
    out.extend_from_slice(b"}\n")
}

// Puts the line that has this number and this draw.
fn push_line(out: &mut Vec<u8>, number: u32, draw: u32) -> Result<(), AllocError>
    ensures { OnOk result (out.new.items ≡ out.old.items ++ line number draw) }
{
    if draw % 7 == 0 {
        push_array(out, draw)
    } else {
        push_object(out, number, draw)
    }
}

/// So many lines of JSON, made from a number. The memory is taken at once.
///
/// The state starts as the number. For each line it is stepped to `(state * 1103515245 + 12345)`
/// modulo 2^31, and the draw is the state divided by 65536. Where the draw is a multiple of 7 the
/// line is an array of it, and else an object with the line's number from 1 as `id`, the draw
/// modulo 3 behind a `g` as `k`, and the draw in hundredths as `v`.
///
/// # Errors
///
/// Memory runs out.
pub fn made_lines(alloc: Global, number: u32, lines: u32) -> Result<Vec<u8>, NoMemory>
    ensures { IfOk result (λ v. v.items ≡ made_lines number lines) }
{
    let mut out = Vec::with_capacity(alloc, MAX_LINE * lines as usize)?;
    let mut state = number;
    for i in 0..lines {
        state = drawn(state);
        push_line(&mut out, i + 1, state / 65536)?;
    }
    Ok(out)
}
