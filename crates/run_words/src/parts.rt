//! The words of a run whose result is written as numbered parts. There are few of them, so they
//! are read without `clap`.

ghost use Rattle.std.specs.Prelude.{◌≡◌, ◌≤◌, ◌<◌, ◌^◌, Some, None, map, drop, IfOk, IfSome, IsErrOf, codes};
ghost use Rattle.std.specs.Str.{encode_utf8_all};
ghost use Rattle.run_words.specs.Given.{after};
ghost use Rattle.run_words.specs.PartsAsked.{number_in, workers_given, size_given, argument_given, joined_given, option_given, value_given, word_given, words_given, none_given, task_given, begins_parts, parts_asked, InBounds, PartsWithin};

use crate::given::{Phase, is_dashed, is_number_in, is_settled, rest_of};
use crate::read::number_or;
use crate::table::Name;
use crate::task::{PartsTask, WordFault};
use item_tree::Str;
use std::alloc::Global;

/// Where the reading of the words stands, the numbers that are given so far, and which word is the
/// query.
#[derive(Clone, Copy, Debug, PartialEq, Eq)]
pub(crate) struct PartsRead {
    phase: Phase,
    workers: Option<u32>,
    size: Option<u32>,
    query: Option<usize>,
    count: Option<u32>,
}

fn number_in(low: u32, high: u32, text: &str) -> Option<u32>
    requires { high < 2 ^ 32 }
    ensures value { result ≡ number_in low high text.now }
    ensures within { IfSome result (λ n. (low ≤ n) × (n ≤ high)) }
{
    if is_number_in(low, high, text) {
        Some(number_or(0, Some(text)))
    } else {
        None
    }
}

fn workers_given(read: PartsRead, value: &str) -> Option<PartsRead>
    ensures value { result ≡ workers_given read value.now }
    ensures within { InBounds read → IfSome result InBounds }
{
    if read.workers.is_some() {
        return None;
    }
    let workers = number_in(1, 64, value)?;
    Some(PartsRead {
        phase: Phase::Free,
        workers: Some(workers),
        ..read
    })
}

fn size_given(read: PartsRead, value: &str) -> Option<PartsRead>
    ensures value { result ≡ size_given read value.now }
    ensures within { InBounds read → IfSome result InBounds }
{
    if read.size.is_some() {
        return None;
    }
    let size = number_in(1, 1 << 30, value)?;
    Some(PartsRead {
        phase: Phase::Free,
        size: Some(size),
        ..read
    })
}

fn argument_given(read: PartsRead, at: usize, word: &str) -> Option<PartsRead>
    ensures value { result ≡ argument_given read at word.now }
    ensures within { InBounds read → IfSome result InBounds }
{
    if read.query.is_none() {
        return Some(PartsRead {
            query: Some(at),
            ..read
        });
    }
    if read.count.is_some() {
        return None;
    }
    let count = number_in(1, 1000, word)?;
    Some(PartsRead {
        count: Some(count),
        ..read
    })
}

// An option with its value in one word.
fn joined_given(read: PartsRead, word: &str) -> Option<PartsRead>
    ensures value { result ≡ joined_given read (after (codes "--workers=") word.now)
        (after (codes "--partition=") word.now) }
    ensures within { InBounds read → IfSome result InBounds }
{
    match rest_of("--workers=", word) {
        Some(value) => workers_given(read, value),
        None => match rest_of("--partition=", word) {
            Some(value) => size_given(read, value),
            None => None,
        },
    }
}

// A word that begins with `-`.
fn option_given(read: PartsRead, word: &str) -> Option<PartsRead>
    ensures value { result ≡ option_given read word.now }
    ensures within { InBounds read → IfSome result InBounds }
{
    let phase = match word {
        "--" => Phase::Over,
        "--workers" => Phase::Waits(Name::Workers),
        "--partition" => Phase::Waits(Name::Partition),
        _ => return joined_given(read, word),
    };
    Some(PartsRead { phase, ..read })
}

// The value of the option before it.
fn value_given(read: PartsRead, name: Name, word: &str) -> Option<PartsRead>
    ensures value { result ≡ value_given read name word.now }
    ensures within { InBounds read → IfSome result InBounds }
{
    match name {
        Name::Workers => workers_given(read, word),
        Name::Partition => size_given(read, word),
        _ => None,
    }
}

// The word at this place.
fn word_given(read: PartsRead, at: usize, word: &str) -> Option<PartsRead>
    ensures value { result ≡ word_given read.phase read at word.now }
    ensures within { InBounds read → IfSome result InBounds }
{
    match read.phase {
        Phase::Over => argument_given(read, at, word),
        Phase::Waits(name) => {
            if is_dashed(word) {
                None
            } else {
                value_given(read, name, word)
            }
        }
        Phase::Free => {
            if is_dashed(word) {
                option_given(read, word)
            } else {
                argument_given(read, at, word)
            }
        }
    }
}

fn words_given(words: &[Str]) -> Option<PartsRead>
    ensures value { result ≡ words_given none_given 0 (map encode_utf8_all words.now) }
    ensures within { IfSome result InBounds }
{
    let mut read = PartsRead {
        phase: Phase::Free,
        workers: None,
        size: None,
        query: None,
        count: None,
    };
    for (at, word) in words.iter().enumerate() {
        let Some(next) = word_given(read, at, word.as_str()) else {
            return None;
        };
        read = next;
    }
    Some(read)
}

// The task that is given, where it is whole.
fn task_given(alloc: Global, words: &[Str], read: PartsRead) -> Result<PartsTask, WordFault>
    requires { InBounds read }
    ensures task { IfOk result (λ t. task_given (map encode_utf8_all words.now) read ≡ Some t) }
    ensures within { IfOk result PartsWithin }
    ensures usage { IsErrOf result WordFault.Usage →
        task_given (map encode_utf8_all words.now) read ≡ None }
{
    let (Some(at), Some(count)) = (read.query, read.count) else {
        return Err(WordFault::Usage);
    };
    let Some(query) = words.get(at) else {
        return Err(WordFault::Usage);
    };
    if !is_settled(read.phase) {
        return Err(WordFault::Usage);
    }
    let query = Str::of(alloc, query.as_str())?;
    Ok(PartsTask {
        query,
        count,
        workers: read.workers.unwrap_or(4),
        size: u64::from(read.size.unwrap_or(1_048_576)),
    })
}

/// Whether the first word is `parts`.
pub fn begins_parts(words: &[Str]) -> bool
    ensures { result ≡ begins_parts (map encode_utf8_all words.now) }
{
    match words.first() {
        Some(first) => first.as_str() == "parts",
        None => false,
    }
}

/// What the words ask for, without the program's own name, where the first is `parts`. The others
/// are read by the rules of `read_words`.
///
/// # Errors
///
/// `Usage` comes exactly where the words ask for nothing, and `NoMemory` where memory runs out.
pub fn read_parts(alloc: Global, words: &[Str]) -> Result<PartsTask, WordFault>
    ensures task { IfOk result (λ t. parts_asked (map encode_utf8_all words.now) ≡ Some t) }
    ensures within { IfOk result PartsWithin }
    ensures usage { IsErrOf result WordFault.Usage →
        parts_asked (map encode_utf8_all words.now) ≡ None }
{
    let Some((first, rest)) = words.split_first() else {
        return Err(WordFault::Usage);
    };
    if first.as_str() != "parts" {
        return Err(WordFault::Usage);
    }
    let Some(read) = words_given(rest) else {
        return Err(WordFault::Usage);
    };
    task_given(alloc, rest, read)
}
