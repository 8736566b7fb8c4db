//! Whether words are of the table. It is tested without memory, by what each word changes.

ghost use Rattle.std.specs.Prelude.{◌≡◌, ◌^◌, ◌<◌, ◌&&◌, Some, None, [], map, codes, option_map, option_and_then, is_some};
ghost use Rattle.std.specs.Str.{encode_utf8_all};
ghost use Rattle.run_words.specs.Table.{is_number_in, fits, last_of};
ghost use Rattle.run_words.specs.Given.{given, is_settled, exactly, offered, is_dashed, after, alone, joined};
ghost use Rattle.run_words.specs.inside.Marks.{is_marked, marked, taken, valued_marks, option_marks, argument_marks, met_marks, reads_marks, marks_of};

use crate::table::{Name, Verb, has_option, last_of, next_of};
use item_tree::Str;

/// Where the reading of the words stands: before `--`, before the value of an option, or behind
/// `--`.
#[derive(Clone, Copy, Debug, PartialEq, Eq)]
pub(crate) enum Phase {
    Free,
    Waits(Name),
    Over,
}

/// Which names are given so far.
#[derive(Clone, Copy, Debug, PartialEq, Eq)]
pub(crate) struct Seen {
    workers: bool,
    partition: bool,
    mode: bool,
    stats: bool,
    query: bool,
    number: bool,
    lines: bool,
}

fn is_marked(name: Name, seen: Seen) -> bool
    ensures { result ≡ is_marked name seen }
{
    match name {
        Name::Workers => seen.workers,
        Name::Partition => seen.partition,
        Name::Mode => seen.mode,
        Name::Stats => seen.stats,
        Name::Query => seen.query,
        Name::Number => seen.number,
        Name::Lines => seen.lines,
    }
}

fn marked(name: Name, seen: Seen) -> Seen
    ensures { result ≡ marked name seen }
{
    match name {
        Name::Workers => Seen {
            workers: true,
            ..seen
        },
        Name::Partition => Seen {
            partition: true,
            ..seen
        },
        Name::Mode => Seen { mode: true, ..seen },
        Name::Stats => Seen {
            stats: true,
            ..seen
        },
        Name::Query => Seen {
            query: true,
            ..seen
        },
        Name::Number => Seen {
            number: true,
            ..seen
        },
        Name::Lines => Seen {
            lines: true,
            ..seen
        },
    }
}

pub(crate) fn is_number_in(low: u32, high: u32, text: &str) -> bool
    requires { high < 2 ^ 32 }
    ensures { result ≡ is_number_in low high text.now }
{
    match text.parse::<u32>() {
        Ok(number) => low <= number && number <= high,
        Err(_) => false,
    }
}

fn fits(name: Name, value: &str) -> bool
    ensures { result ≡ fits name value.now }
{
    match name {
        Name::Workers => is_number_in(1, 64, value),
        Name::Partition => is_number_in(1, 1 << 30, value),
        Name::Mode => value == "auto" || value == "local",
        Name::Stats => value == "true",
        Name::Query => true,
        Name::Number => is_number_in(0, (1 << 31) - 1, value),
        Name::Lines => is_number_in(0, 1_000_000, value),
    }
}

// One more use of a name that isn't given yet.
fn taken(phase: Phase, name: Name, value: &str, seen: Seen) -> Option<(Phase, Seen)>
    ensures { result ≡ taken phase name value.now seen }
{
    if is_marked(name, seen) {
        None
    } else if fits(name, value) {
        Some((phase, marked(name, seen)))
    } else {
        None
    }
}

fn exactly(text: &str, word: &str, then: Option<(Phase, Seen)>) -> Option<(Phase, Seen)>
    ensures { result ≡ exactly text.now word.now then }
{
    if word == text { then } else { None }
}

/// What follows this beginning of the word.
pub(crate) fn rest_of<'a>(front: &str, word: &'a str) -> Option<&'a str>
    ensures { option_map (λ s. s.now) result ≡ after front.now word.now }
{
    word.strip_prefix(front)
}

fn value_taken(name: Name, value: Option<&str>, seen: Seen) -> Option<(Phase, Seen)>
    ensures { result ≡ option_and_then (λ v. taken Phase.Free name v seen)
        (option_map (λ s. s.now) value.entry) }
{
    match value {
        Some(value) => taken(Phase::Free, name, value, seen),
        None => None,
    }
}

// The word may be an option that takes a value, with the value or without.
fn valued(name: Name, option: &str, front: &str, word: &str, seen: Seen) -> Option<(Phase, Seen)>
    requires option { option.now ≡ alone name }
    requires front { front.now ≡ joined name }
    ensures { result ≡ valued_marks name word.now seen }
{
    let waits = exactly(option, word, Some((Phase::Waits(name), seen)));
    let has_value = value_taken(name, rest_of(front, word), seen);
    waits.or(has_value)
}

// Only where the command has this option.
fn offered(verb: Verb, name: Name, met: Option<(Phase, Seen)>) -> Option<(Phase, Seen)>
    ensures { result ≡ offered verb name met }
{
    if has_option(verb, name) { met } else { None }
}

fn workers_met(verb: Verb, word: &str, seen: Seen) -> Option<(Phase, Seen)>
    ensures { result ≡ offered verb Name.Workers (valued_marks Name.Workers word.now seen) }
{
    let met = valued(Name::Workers, "--workers", "--workers=", word, seen);
    offered(verb, Name::Workers, met)
}

fn partition_met(verb: Verb, word: &str, seen: Seen) -> Option<(Phase, Seen)>
    ensures { result ≡ offered verb Name.Partition (valued_marks Name.Partition word.now seen) }
{
    let met = valued(Name::Partition, "--partition", "--partition=", word, seen);
    offered(verb, Name::Partition, met)
}

fn mode_met(verb: Verb, word: &str, seen: Seen) -> Option<(Phase, Seen)>
    ensures { result ≡ offered verb Name.Mode (valued_marks Name.Mode word.now seen) }
{
    let met = valued(Name::Mode, "--mode", "--mode=", word, seen);
    offered(verb, Name::Mode, met)
}

fn stats_met(verb: Verb, word: &str, seen: Seen) -> Option<(Phase, Seen)>
    ensures { result ≡ offered verb Name.Stats
        (exactly (alone Name.Stats) word.now (taken Phase.Free Name.Stats (codes "true") seen)) }
{
    let met = exactly(
        "--stats",
        word,
        taken(Phase::Free, Name::Stats, "true", seen),
    );
    offered(verb, Name::Stats, met)
}

// A word that begins with `-`.
fn option_met(verb: Verb, word: &str, seen: Seen) -> Option<(Phase, Seen)>
    ensures { result ≡ option_marks verb word.now seen }
{
    let end = exactly("--", word, Some((Phase::Over, seen)));
    let stats = stats_met(verb, word, seen);
    let workers = workers_met(verb, word, seen);
    let partition = partition_met(verb, word, seen);
    let mode = mode_met(verb, word, seen);
    end.or(stats.or(workers.or(partition.or(mode))))
}

fn argument_met(verb: Verb, phase: Phase, word: &str, seen: Seen) -> Option<(Phase, Seen)>
    ensures { result ≡ argument_marks verb phase word.now seen }
{
    taken(phase, next_of(verb, seen.number), word, seen)
}

pub(crate) fn is_dashed(word: &str) -> bool
    ensures { result ≡ is_dashed word.now }
{
    match word.as_bytes().first() {
        Some(first) => *first == b'-',
        None => false,
    }
}

// The next word.
fn met(verb: Verb, phase: Phase, seen: Seen, word: &str) -> Option<(Phase, Seen)>
    ensures { result ≡ met_marks verb phase seen word.now }
{
    match phase {
        Phase::Over => argument_met(verb, Phase::Over, word, seen),
        Phase::Waits(name) => {
            if is_dashed(word) {
                None
            } else {
                taken(Phase::Free, name, word, seen)
            }
        }
        Phase::Free => {
            if is_dashed(word) {
                option_met(verb, word, seen)
            } else {
                argument_met(verb, Phase::Free, word, seen)
            }
        }
    }
}

fn met_word(verb: Verb, phase: Phase, seen: Seen, word: &Str) -> Option<(Phase, Seen)>
    ensures { result ≡ met_marks verb phase seen (encode_utf8_all word.now) }
{
    met(verb, phase, seen, word.as_str())
}

fn read_rest(verb: Verb, words: &[Str]) -> Option<(Phase, Seen)>
    ensures { result ≡ reads_marks verb (Phase.Free, marks_of []) (map encode_utf8_all words.now) }
{
    let mut phase = Phase::Free;
    let mut seen = Seen {
        workers: false,
        partition: false,
        mode: false,
        stats: false,
        query: false,
        number: false,
        lines: false,
    };
    for word in words {
        let Some(next) = met_word(verb, phase, seen, word) else {
            return None;
        };
        phase = next.0;
        seen = next.1;
    }
    Some((phase, seen))
}

pub(crate) fn is_settled(phase: Phase) -> bool
    ensures { result ≡ is_settled phase }
{
    match phase {
        Phase::Waits(_) => false,
        Phase::Free | Phase::Over => true,
    }
}

fn is_whole(verb: Verb, phase: Phase, seen: Seen) -> bool
    ensures { result ≡ (is_settled phase && is_marked (last_of verb) seen) }
{
    is_settled(phase) && is_marked(last_of(verb), seen)
}

/// Whether the words after the first one are of the table.
pub(crate) fn is_given(verb: Verb, words: &[Str]) -> bool
    ensures { result ≡ is_some (given verb (map encode_utf8_all words.now)) }
{
    match read_rest(verb, words) {
        Some((phase, seen)) => is_whole(verb, phase, seen),
        None => false,
    }
}
