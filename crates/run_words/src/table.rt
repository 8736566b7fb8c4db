//! The table of commands: their first words, their options and their arguments.

ghost use Rattle.std.specs.Prelude.{◌≡◌};
ghost use Rattle.run_words.specs.Table.{verb_of, has_option, id_of, next_of, last_of};

/// The first word of a command line.
#[derive(Clone, Copy, Debug, PartialEq, Eq)]
pub(crate) enum Verb {
    Run,
    Check,
    Explain,
    Trial,
}

/// What a value is given for: an option or an argument.
#[derive(Clone, Copy, Debug, PartialEq, Eq)]
pub(crate) enum Name {
    Workers,
    Partition,
    Mode,
    Stats,
    Query,
    Number,
    Lines,
}

/// The command with this first word.
pub(crate) fn verb_of(word: &str) -> Option<Verb>
    ensures { result ≡ verb_of word.now }
{
    match word {
        "run" => Some(Verb::Run),
        "check" => Some(Verb::Check),
        "explain" => Some(Verb::Explain),
        "trial" => Some(Verb::Trial),
        _ => None,
    }
}

/// Whether a command has this option.
pub(crate) fn has_option(verb: Verb, name: Name) -> bool
    ensures { result ≡ has_option verb name }
{
    match verb {
        Verb::Run => matches!(
            name,
            Name::Workers | Name::Partition | Name::Mode | Name::Stats
        ),
        Verb::Trial => matches!(name, Name::Workers | Name::Partition),
        Verb::Check | Verb::Explain => false,
    }
}

/// The argument that comes next, by whether the number of a trial is given.
pub(crate) fn next_of(verb: Verb, has_number: bool) -> Name
    ensures { result ≡ next_of verb has_number }
{
    match verb {
        Verb::Run | Verb::Check | Verb::Explain => Name::Query,
        Verb::Trial => {
            if has_number {
                Name::Lines
            } else {
                Name::Number
            }
        }
    }
}

/// The last argument of a command.
pub(crate) fn last_of(verb: Verb) -> Name
    ensures { result ≡ last_of verb }
{
    match verb {
        Verb::Run | Verb::Check | Verb::Explain => Name::Query,
        Verb::Trial => Name::Lines,
    }
}

/// The name as it is written.
pub(crate) fn id_of(name: Name) -> &'static str
    ensures { result.now ≡ id_of name }
{
    match name {
        Name::Workers => "workers",
        Name::Partition => "partition",
        Name::Mode => "mode",
        Name::Stats => "stats",
        Name::Query => "query",
        Name::Number => "number",
        Name::Lines => "lines",
    }
}
