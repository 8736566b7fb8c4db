//! The commands of `clap` that read the words.

ghost use Rattle.std.specs.Prelude.{◌≡◌, IfOk, IfErr, Some, true, false, codes, map, drop, is_some, List, if◌then◌else◌};
ghost use Rattle.clap.specs.Words.{app_of, first_value, found_of, kind_of, one_text, rule_of};
ghost use Rattle.run_words.specs.Table.{id_of};
ghost use Rattle.run_words.specs.Given.{Use, given, value_of, has};
ghost use Rattle.run_words.specs.inside.Command.{working_app, run_app, query_app, trial_app, app_for, option_rule, flag_rule, argument_rule, is_flag, flag_text};

use crate::table::{Name, Verb};
use clap::error::ErrorKind;
use clap::{Arg, ArgAction, ArgMatches, Command, Error};
use std::alloc::{AllocError, Global};
use std::convert::AsStr;

fn option<'a>(alloc: Global, name: &'a str) -> Arg<'a>
    ensures rule { rule_of result ≡ option_rule name.now }
    ensures plain { result.global ≡ false }
{
    Arg::new(alloc, name).long(name).action(ArgAction::Set)
}

fn flag<'a>(alloc: Global, name: &'a str) -> Arg<'a>
    ensures rule { rule_of result ≡ flag_rule name.now }
    ensures plain { result.global ≡ false }
{
    Arg::new(alloc, name).long(name).action(ArgAction::SetTrue)
}

fn argument<'a>(alloc: Global, name: &'a str) -> Arg<'a>
    ensures rule { rule_of result ≡ argument_rule name.now }
    ensures plain { result.global ≡ false }
{
    Arg::new(alloc, name).action(ArgAction::Set)
}

// A command with the options that a run and a trial have.
fn working_command<'a>(alloc: Global, name: &'a str) -> Result<Command<'a>, AllocError>
    ensures { IfOk result (λ c. app_of c ≡ working_app name.now) }
{
    Command::new(alloc, name)
        .arg(option(alloc, "workers"))?
        .arg(option(alloc, "partition"))
}

fn run_command<'a>(alloc: Global) -> Result<Command<'a>, AllocError>
    ensures { IfOk result (λ c. app_of c ≡ run_app) }
{
    working_command(alloc, "run")?
        .arg(option(alloc, "mode"))?
        .arg(flag(alloc, "stats"))?
        .arg(argument(alloc, "query"))
}

fn query_command<'a>(alloc: Global, name: &'a str) -> Result<Command<'a>, AllocError>
    ensures { IfOk result (λ c. app_of c ≡ query_app name.now) }
{
    Command::new(alloc, name).arg(argument(alloc, "query"))
}

fn trial_command<'a>(alloc: Global) -> Result<Command<'a>, AllocError>
    ensures { IfOk result (λ c. app_of c ≡ trial_app) }
{
    working_command(alloc, "trial")?
        .arg(argument(alloc, "number"))?
        .arg(argument(alloc, "lines"))
}

// The command of each first word.
fn command_for<'a>(alloc: Global, verb: Verb) -> Result<Command<'a>, AllocError>
    ensures { IfOk result (λ c. app_of c ≡ app_for verb) }
{
    match verb {
        Verb::Run => run_command(alloc),
        Verb::Check => query_command(alloc, "check"),
        Verb::Explain => query_command(alloc, "explain"),
        Verb::Trial => trial_command(alloc),
    }
}

/// The matches of words that are of the table. It takes each such list, so that only memory can be
/// wanting.
pub(crate) fn matches_of<'a, S: AsStr>(
    alloc: Global,
    verb: Verb,
    words: &'a [S],
) -> Result<ArgMatches<'a>, Error>
    requires { is_some (given verb (drop 1 (map S.text words.now))) ≡ true }
    ensures memory { IfErr result (λ e. kind_of e ≡ ErrorKind.OutOfMemory) }
    ensures values { IfOk result (λ m. (uses : List Use)
        → given verb (drop 1 (map S.text words.now)) ≡ Some uses → (name : Name)
        → is_flag name ≡ false → first_value (found_of m) (id_of name) ≡ value_of name uses) }
    ensures stats { IfOk result (λ m. verb ≡ Verb.Run → (uses : List Use)
        → given verb (drop 1 (map S.text words.now)) ≡ Some uses
        → one_text (found_of m) (codes "stats") ≡ flag_text (has Name.Stats uses)) }
{
    let command = command_for(alloc, verb)?;
    command.try_get_matches_from(words)
}
