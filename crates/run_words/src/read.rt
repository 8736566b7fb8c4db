//! From the words to the task.

ghost use Rattle.std.specs.Prelude.{◌≡◌, Some, None, true, [], map, drop, option_map, option_and_then, is_some, unwrap_or, IfOk, IsErrOf, codes, Bool};
ghost use Rattle.std.specs.Str.{encode_utf8_all, chars};
ghost use Rattle.clap.specs.Words.{first_value, found_of, one_text};
ghost use Rattle.run_words.specs.Table.{id_of};
ghost use Rattle.run_words.specs.Given.{given};
ghost use Rattle.run_words.specs.Asked.{asked, IsWithin, task_of, task_from, number_or, is_text};
ghost use Rattle.run_words.specs.inside.Numbers.{IsNumberText};
ghost use Rattle.run_words.specs.inside.Command.{flag_text};
ghost use Rattle.run_words.specs.inside.Asking.{verb_asked};

use crate::command::matches_of;
use crate::given::is_given;
use crate::table::{Verb, verb_of};
use crate::task::{Task, WordFault};
use clap::ArgMatches;
use item_tree::{NoMemory, Str};
use std::alloc::Global;

pub(crate) fn number_or(default: u32, text: Option<&str>) -> u32
    requires { IsNumberText (option_map (λ s. s.now) text) }
    ensures { result ≡ number_or default (option_map (λ s. s.now) text.entry) }
{
    match text {
        None => default,
        Some(text) => match text.parse::<u32>() {
            Ok(number) => number,
            Err(_) => unreachable!(),
        },
    }
}

fn is_text(wanted: &str, text: Option<&str>) -> bool
    ensures { result ≡ is_text wanted.now (option_map (λ s. s.now) text.entry) }
{
    match text {
        None => false,
        Some(text) => text == wanted,
    }
}

// The name of the query.
fn query_of(alloc: Global, matches: &ArgMatches<'_>) -> Result<Str, NoMemory>
    ensures { IfOk result (λ s.
        s ≡ chars (unwrap_or (first_value (found_of matches.now) (codes "query")) [])) }
{
    match matches.get_str("query") {
        Some(query) => Str::of(alloc, query),
        None => Str::of(alloc, ""),
    }
}

// The task that the matches of a run tell.
fn run_of(alloc: Global, matches: &ArgMatches<'_>, stats: bool) -> Result<Task, NoMemory>
    requires workers { IsNumberText (first_value (found_of matches.now) (codes "workers")) }
    requires partition { IsNumberText (first_value (found_of matches.now) (codes "partition")) }
    ensures { IfOk result (λ t.
        t ≡ task_from Verb.Run (λ n. first_value (found_of matches.now) (id_of n)) stats) }
{
    let workers = number_or(4, matches.get_str("workers"));
    let size = number_or(1_048_576, matches.get_str("partition"));
    let local = is_text("local", matches.get_str("mode"));
    let query = query_of(alloc, matches)?;
    Ok(Task::Run {
        query,
        workers,
        size: u64::from(size),
        local,
        stats,
    })
}

// The task that the matches of a trial tell.
fn trial_of(matches: &ArgMatches<'_>) -> Task
    requires workers { IsNumberText (first_value (found_of matches.now) (codes "workers")) }
    requires partition { IsNumberText (first_value (found_of matches.now) (codes "partition")) }
    requires number { IsNumberText (first_value (found_of matches.now) (codes "number")) }
    requires lines { IsNumberText (first_value (found_of matches.now) (codes "lines")) }
    ensures { (stats : Bool) → result
        ≡ task_from Verb.Trial (λ n. first_value (found_of matches.now) (id_of n)) stats }
{
    let workers = number_or(4, matches.get_str("workers"));
    let size = number_or(1_048_576, matches.get_str("partition"));
    let number = number_or(0, matches.get_str("number"));
    let lines = number_or(0, matches.get_str("lines"));
    Task::Trial {
        number,
        lines,
        workers,
        size: u64::from(size),
    }
}

// The words as texts.
fn texts_of<'a>(alloc: Global, words: &'a [Str]) -> Result<Vec<&'a str>, NoMemory>
    ensures { IfOk result (λ v. map (λ t. t.now) v.items ≡ map encode_utf8_all words.now) }
{
    let mut texts = Vec::with_capacity(alloc, words.len())?;
    for word in words {
        texts.push(word.as_str())?;
    }
    Ok(texts)
}

// The task that the matches of a command tell.
fn task_from(alloc: Global, verb: Verb, matches: &ArgMatches<'_>) -> Result<Task, NoMemory>
    requires workers { IsNumberText (first_value (found_of matches.now) (codes "workers")) }
    requires partition { IsNumberText (first_value (found_of matches.now) (codes "partition")) }
    requires number { IsNumberText (first_value (found_of matches.now) (codes "number")) }
    requires lines { IsNumberText (first_value (found_of matches.now) (codes "lines")) }
    ensures { IfOk result (λ t. (stats : Bool)
        → (verb ≡ Verb.Run → one_text (found_of matches.now) (codes "stats") ≡ flag_text stats)
        → t ≡ task_from verb (λ n. first_value (found_of matches.now) (id_of n)) stats) }
{
    match verb {
        Verb::Run => run_of(alloc, matches, matches.get_flag("stats")),
        Verb::Check => {
            let query = query_of(alloc, matches)?;
            Ok(Task::Check { query })
        }
        Verb::Explain => {
            let query = query_of(alloc, matches)?;
            Ok(Task::Explain { query })
        }
        Verb::Trial => Ok(trial_of(matches)),
    }
}

// The task of words that are of the table.
fn task_of(alloc: Global, verb: Verb, texts: &[&str]) -> Result<Task, NoMemory>
    requires { is_some (given verb (drop 1 (map (λ t. t.now) texts.now))) ≡ true }
    ensures { IfOk result (λ t. task_of verb (drop 1 (map (λ t. t.now) texts.now)) ≡ Some t) }
{
    let Ok(matches) = matches_of(alloc, verb, texts) else {
        return Err(NoMemory);
    };
    task_from(alloc, verb, &matches)
}

// The command of words that are of the table.
fn verb_asked(words: &[Str]) -> Option<Verb>
    ensures { result ≡ verb_asked (map encode_utf8_all words.now) }
{
    let (first, rest) = words.split_first()?;
    let verb = verb_of(first.as_str())?;
    if is_given(verb, rest) {
        Some(verb)
    } else {
        None
    }
}

/// What the words of a command line ask for, without the program's own name.
///
/// The first word is the command, in exactly this spelling; the others come in any order. An
/// option is `--name value` or `--name=value`, and each comes at most once. Behind a word `--` all
/// words are arguments. Before it every other word that begins with `-` is refused, also as an
/// option's value.
///
/// # Errors
///
/// `Usage` comes exactly where the words ask for nothing, and `NoMemory` where memory runs out.
pub fn read_words(alloc: Global, words: &[Str]) -> Result<Task, WordFault>
    ensures task { IfOk result (λ t. asked (map encode_utf8_all words.now) ≡ Some t) }
    ensures within { IfOk result IsWithin }
    ensures usage { IsErrOf result WordFault.Usage →
        asked (map encode_utf8_all words.now) ≡ None }
{
    let Some(verb) = verb_asked(words) else {
        return Err(WordFault::Usage);
    };
    let texts = texts_of(alloc, words)?;
    let task = task_of(alloc, verb, &texts)?;
    Ok(task)
}
