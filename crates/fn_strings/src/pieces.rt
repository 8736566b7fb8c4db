//! Functions that cut texts at blanks.

ghost use Rattle.std.specs.Prelude.{◌≡◌, ◌<◌, ◌≤◌, ◌∷◌, [], length, drop, map, Ok, MatchOption, IfSome, IfOk, IfErr};
ghost use Rattle.std.specs.List.{prefix_len, position_or_len};
ghost use Rattle.std.specs.Str.{chars};
ghost use Rattle.std.specs.String.{string_bytes};
ghost use Rattle.item_tree.specs.Datum.{text as text_datum};
ghost use Rattle.item_tree.specs.Item.{datums};
ghost use Rattle.value_rules.specs.Operands.{FailsWith};
ghost use Rattle.value_rules.specs.Strings.{is_blank, words_of, joined_by, normalize_space, tokenize};

use crate::atom_texts::push;
use crate::results::one_string;
use item_tree::{Item, NoMemory, OpFault, Str};
use std::alloc::Global;
use value_rules::optional_string;

/// The pieces between blanks, which are space, tab, carriage return and line feed, joined by one
/// space. Memory for the text is taken once.
pub fn normalize_space(alloc: Global, text: &[Item]) -> Result<Vec<Item>, OpFault>
    ensures value { IfOk result
        (λ xs. normalize_space (datums text.now) ≡ Ok (datums xs.items)) }
    ensures fault { IfErr result (FailsWith (normalize_space (datums text.now))) }
{
    let text = optional_string(text)?;
    Ok(one_string(alloc, spaced(alloc, text)?)?)
}

/// The pieces between blanks, which are space, tab, carriage return and line feed.
pub fn tokenize(alloc: Global, text: &[Item]) -> Result<Vec<Item>, OpFault>
    ensures value { IfOk result (λ xs. tokenize (datums text.now) ≡ Ok (datums xs.items)) }
    ensures fault { IfErr result (FailsWith (tokenize (datums text.now))) }
{
    Ok(pieces(alloc, optional_string(text)?)?)
}

fn pieces(alloc: Global, text: &str) -> Result<Vec<Item>, NoMemory>
    ensures { IfOk result (λ xs. datums xs.items ≡ map text_datum (words_of (chars text.now))) }
{
    let mut items = Vec::new(alloc);
    let mut rest = text;
    while let Some((piece, more)) = next_piece(rest) {
        items.push(Item::Text(Str::of(alloc, piece)?))?;
        rest = more;
    }
    Ok(items)
}

fn spaced(alloc: Global, text: &str) -> Result<String, NoMemory>
    ensures { IfOk result
        (λ s. chars (string_bytes s) ≡ joined_by (32 ∷ []) (words_of (chars text.now))) }
{
    let mut line = String::with_capacity(alloc, text.len())?;
    let Some((first, more)) = next_piece(text) else {
        return Ok(line);
    };
    push(&mut line, first)?;
    let mut rest = more;
    while let Some((piece, more)) = next_piece(rest) {
        push(&mut line, " ")?;
        push(&mut line, piece)?;
        rest = more;
    }
    Ok(line)
}

fn is_blank(b: u8) -> bool
    ensures { result ≡ is_blank b }
{
    b == b' ' || b == b'\t' || b == b'\r' || b == b'\n'
}

// The first piece, if there is one, and what stands behind it.
fn next_piece(text: &str) -> Option<(&str, &str)>
    ensures pieces { MatchOption result (words_of (chars text.now) ≡ [])
        (λ p. words_of (chars text.now) ≡ chars p.0.now ∷ words_of (chars p.1.now)) }
    ensures shorter { IfSome result (λ p. length p.1.now < length text.now) }
{
    let bare = without_first_blanks(text);
    let len = piece_len(bare.as_bytes());
    if len == 0 {
        return None;
    }
    Some(bare.split_at(len))
}

fn without_first_blanks(text: &str) -> &str
    ensures { result.now ≡ drop (prefix_len is_blank text.now) text.now }
{
    &text[blanks_len(text.as_bytes())..]
}

fn blanks_len(text: &[u8]) -> usize
    ensures value { result ≡ prefix_len is_blank text.now }
    ensures within { result ≤ length text.now }
{
    text.iter().take_while(|b| is_blank(**b)).count()
}

fn piece_len(text: &[u8]) -> usize
    ensures value { result ≡ position_or_len is_blank text.now }
    ensures within { result ≤ length text.now }
{
    text.iter().take_while(|b| !is_blank(**b)).count()
}
