//! Numbers. Most are short, and those take no buffer.

ghost use Rattle.std.specs.Prelude.{◌≡◌, ◌++◌, ◌∷◌, [], IfSome, OnOk, OnErr};
ghost use Rattle.std.specs.Fmt.{signed_decimal};
ghost use Rattle.item_tree.specs.ItemText.{decimal_text};
ghost use Rattle.item_printer.specs.Cut.{IsCut};

use crate::append::{append, append_byte};
use item_tree::{DecimalBuffer, NoMemory, Units, Whole};
use itoa::Buffer;

// The digit of a number that has no other. Where none is given the number is printed in another
// way, and has the same text.
#[tactic(auto, using(std::proofs::lemmas::Fmt::decimal_digit))]
fn only_digit(n: i128) -> Option<u8>
    ensures { IfSome result (λ digit. signed_decimal n ≡ digit ∷ []) }
{
    if 0 <= n && n < 10 {
        Some(b'0' + n as u8)
    } else {
        None
    }
}

// The digits of a number that has two, in the same way.
#[tactic(auto, using(crate::proofs::ShortNumbers::two_digits))]
fn two_digits(n: i128) -> Option<[u8; 2]>
    ensures { IfSome result (λ digits. signed_decimal n ≡ digits) }
{
    if 10 <= n && n < 100 {
        let n = n as u8;
        Some([b'0' + n / 10, b'0' + n % 10])
    } else {
        None
    }
}

#[inline(always)]
pub(crate) fn print_integer(n: Whole, out: &mut Vec<u8>) -> Result<(), NoMemory>
    ensures ok { OnOk result (out.new.items ≡ out.old.items ++ signed_decimal n) }
    ensures err { OnErr result (IsCut (signed_decimal n) out.old.items out.new.items) }
{
    let n = n.get();
    match only_digit(n) {
        Some(digit) => append_byte(digit, out),
        None => print_digits(n, out),
    }
}

#[inline(never)]
fn print_digits(n: i128, out: &mut Vec<u8>) -> Result<(), NoMemory>
    ensures ok { OnOk result (out.new.items ≡ out.old.items ++ signed_decimal n) }
    ensures err { OnErr result (IsCut (signed_decimal n) out.old.items out.new.items) }
{
    match two_digits(n) {
        Some(digits) => append(&digits, out),
        None => print_long_integer(n, out),
    }
}

#[inline(never)]
fn print_long_integer(n: i128, out: &mut Vec<u8>) -> Result<(), NoMemory>
    ensures ok { OnOk result (out.new.items ≡ out.old.items ++ signed_decimal n) }
    ensures err { OnErr result (IsCut (signed_decimal n) out.old.items out.new.items) }
{
    let mut buffer = Buffer::new();
    append(buffer.format(n).as_bytes(), out)
}

// Without trailing zeros, and without a point where it is whole.
#[inline(never)]
pub(crate) fn print_decimal(m: Units, out: &mut Vec<u8>) -> Result<(), NoMemory>
    ensures ok { OnOk result (out.new.items ≡ out.old.items ++ decimal_text m) }
    ensures err { OnErr result (IsCut (decimal_text m) out.old.items out.new.items) }
{
    let mut buffer = DecimalBuffer::new();
    append(buffer.format(m).as_bytes(), out)
}
