//! The list of the parts of a text: a line for each, with its name and its number of bytes.
#![tactic(auto)]

ghost use Rattle.std.specs.Prelude.{◌≡◌, ◌≤◌, ◌<◌, ◌+◌, ◌++◌, ◌∷◌, [], All, IfOk, OnOk, length};
ghost use Rattle.std.specs.Fmt.{decimal};
ghost use Rattle.part_writer.specs.Parts.{IsRangeOf, parts_from};
ghost use Rattle.part_list.specs.Lists.{four_digits, part_name, part_line, list_of};

use item_tree::NoMemory;
use itoa::Buffer;
use std::alloc::{AllocError, Global};

// Puts a digit.
fn push_digit(out: &mut Vec<u8>, digit: u32) -> Result<(), AllocError>
    requires { digit < 10 }
    ensures { OnOk result (out.new.items ≡ out.old.items ++ (48 + digit) ∷ []) }
{
    out.push(b'0' + digit as u8)?;
    Ok(())
}

// Puts a number of up to four digits with zeros in front.
fn push_four_digits(out: &mut Vec<u8>, number: u32) -> Result<(), AllocError>
    requires { number < 10000 }
    ensures { OnOk result (out.new.items ≡ out.old.items ++ four_digits number) }
{
    push_digit(out, number / 1000)?;
    push_digit(out, number / 100 % 10)?;
    push_digit(out, number / 10 % 10)?;
    push_digit(out, number % 10)
}

/// Puts the name of the part of this number.
pub fn push_part_name(out: &mut Vec<u8>, number: u32) -> Result<(), AllocError>
    requires { number < 10000 }
    ensures { OnOk result (out.new.items ≡ out.old.items ++ part_name number) }
{
    out.extend_from_slice(b"part-")?;
    push_four_digits(out, number)
}

// Puts the line of a part.
fn push_part_line(out: &mut Vec<u8>, number: u32, bytes: &[u8]) -> Result<(), AllocError>
    requires { number < 10000 }
    ensures { OnOk result (out.new.items ≡ out.old.items ++ part_line (number, bytes.now)) }
{
    push_part_name(out, number)?;
    out.push(b' ')?;
    let mut buffer = Buffer::new();
    out.extend_from_slice(buffer.format(bytes.len()).as_bytes())?;
    out.push(b'\n')?;
    Ok(())
}

/// The list of the parts that stand in these ranges of a text.
pub fn list_parts(
    alloc: Global,
    text: &[u8],
    ranges: &[(usize, usize)],
) -> Result<Vec<u8>, NoMemory>
    requires few { length ranges.now ≤ 1000 }
    requires within { All (IsRangeOf text.now) ranges.now }
    ensures { IfOk result (λ list. list.items ≡ list_of (parts_from 0 text.now ranges.now)) }
{
    let mut list = Vec::new(alloc);
    for (number, range) in ranges.iter().enumerate() {
        push_part_line(&mut list, number as u32, &text[range.0..range.1])?;
    }
    Ok(list)
}
