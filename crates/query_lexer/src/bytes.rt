//! Classes of bytes.

ghost use Rattle.std.specs.Prelude.{◌≡◌};
ghost use Rattle.query_lexer.specs.Bytes.{is_letter, is_name_byte, is_blank, next_passes};

/// An ASCII letter or `_`.
#[tactic(auto, unfolding(crate::specs::Bytes::is_letter))]
pub(crate) fn is_letter(b: u8) -> bool
    ensures { result ≡ is_letter b }
{
    b.is_ascii_lowercase() || b.is_ascii_uppercase() || b == b'_'
}

#[tactic(auto, unfolding(crate::specs::Bytes::is_name_byte))]
pub(crate) fn is_name_byte(b: u8) -> bool
    ensures { result ≡ is_name_byte b }
{
    is_letter(b) || b.is_ascii_digit() || b == b'-'
}

#[tactic(auto, unfolding(crate::specs::Bytes::is_blank))]
fn is_blank(b: u8) -> bool
    ensures { result ≡ is_blank b }
{
    b == b' ' || b == b'\t' || b == b'\r' || b == b'\n'
}

pub(crate) fn next_is_letter(text: &[u8]) -> bool
    ensures { result ≡ next_passes is_letter text.now }
{
    match text {
        [first, ..] => is_letter(*first),
        [] => false,
    }
}

pub(crate) fn next_is_name_byte(text: &[u8]) -> bool
    ensures { result ≡ next_passes is_name_byte text.now }
{
    match text {
        [first, ..] => is_name_byte(*first),
        [] => false,
    }
}

pub(crate) fn next_is_blank(text: &[u8]) -> bool
    ensures { result ≡ next_passes is_blank text.now }
{
    match text {
        [first, ..] => is_blank(*first),
        [] => false,
    }
}
