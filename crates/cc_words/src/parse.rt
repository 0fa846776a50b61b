//! The words, read by a command of clap.
ghost use Rattle.std.specs.Prelude.{◌≡◌, ◌≢◌, false, IfOk, None, map, option_and_then, string_bytes};
ghost use Rattle.clap.specs.Matches.{found_of};
ghost use Rattle.clap.specs.Simple.{App, app_of, on_top, with_rule};
ghost use Rattle.clap.specs.Values.{kind_of};
ghost use Rattle.clap.specs.Walk.{first_of, rows_of, rule_of};
ghost use Rattle.cc_words.specs.Readings.{bare_command, given_in, option_rule, reading};
ghost use Rattle.cc_words.specs.Readings as readings;
ghost use Rattle.cc_words.specs.Requests as requests;
ghost use Rattle.cc_words.specs.Views.{plain_asked, plain_given, plain_text};

use crate::asked::Asked;
use crate::given::Given;
use cc_defs::OutOfMemory;
use clap::error::ErrorKind;
use clap::{Arg, ArgAction, ArgMatches, Command, Error};
use std::alloc::{AllocError, Global};

/// An option that takes one value.
fn option<'a>(alloc: Global, name: &'a str) -> Arg<'a>
    ensures rule { rule_of result ≡ option_rule name.entry.now }
    ensures local { result.global ≡ false }
{
    Arg::new(alloc, name).long(name).action(ArgAction::Set)
}

/// A command with no arguments and no option for help, for words without the program's name.
fn bare<'a>(alloc: Global) -> Command<'a>
    ensures { app_of result ≡ bare_command }
{
    Command::new(alloc, "ccalc")
        .no_binary_name(true)
        .disable_help_flag(true)
}

/// A command that was made takes an option of this name, too.
fn with_option<'a>(
    command: Result<Command<'a>, AllocError>,
    alloc: Global,
    name: &'a str,
) -> Result<Command<'a>, AllocError>
    ensures { (app : App) → IfOk command.entry (λ before. app_of before ≡ app) →
        IfOk result (λ after. app_of after ≡ with_rule app (option_rule name.entry.now)) }
{
    match command {
        Ok(command) => command.arg(option(alloc, name)),
        Err(error) => Err(error),
    }
}

/// A command that takes an option of each name.
fn with_options<'a>(alloc: Global, names: &[&'a str]) -> Result<Command<'a>, AllocError>
    ensures { IfOk result (λ command. app_of command ≡ on_top (λ shape. record shape {
      rules = map (λ name. option_rule name.now) names.now;
    }) bare_command) }
{
    let mut command = Ok(bare(alloc));
    for name in names {
        command = with_option(command, alloc, name);
    }
    command
}

/// The eleven options, and the file.
fn command<'a>(alloc: Global) -> Result<Command<'a>, AllocError>
    ensures { IfOk result (λ command. app_of command ≡ readings.command) }
{
    let names = &[
        "mode", "query", "count", "budget", "after", "log", "form", "to", "key", "horizon", "size",
    ];
    match with_options(alloc, names) {
        Ok(command) => command.arg(Arg::new(alloc, "FILE")),
        Err(error) => Err(error),
    }
}

fn value<'a>(matches: &ArgMatches<'a>, name: &str) -> Option<&'a str>
    ensures { plain_text result ≡ first_of name.now (rows_of (found_of matches.now)) }
{
    matches.get_str(name)
}

fn given_by<'a>(matches: &ArgMatches<'a>) -> Given<'a>
    ensures { plain_given result ≡ given_in (rows_of (found_of matches.now)) }
{
    Given {
        mode: value(matches, "mode"),
        query: value(matches, "query"),
        count: value(matches, "count"),
        budget: value(matches, "budget"),
        after: value(matches, "after"),
        log: value(matches, "log"),
        form: value(matches, "form"),
        to: value(matches, "to"),
        key: value(matches, "key"),
        horizon: value(matches, "horizon"),
        size: value(matches, "size"),
        file: value(matches, "FILE"),
    }
}

/// Words that give an error ask for nothing, unless memory was wanting.
fn refused<'a>(error: &Error) -> Result<Option<Asked<'a>>, OutOfMemory>
    ensures { IfOk result (λ asked.
        (asked ≡ None) × (kind_of error.now ≢ ErrorKind.OutOfMemory)) }
{
    if error.kind() == ErrorKind::OutOfMemory {
        return Err(OutOfMemory);
    }
    Ok(None)
}

/// What the words ask for by the command; `None` where it does not take them.
fn asked_of<'a>(command: Command<'a>, words: &'a [String]) -> Result<Option<Asked<'a>>, OutOfMemory>
    requires { app_of command ≡ readings.command }
    ensures { IfOk result (λ asked. plain_asked asked
        ≡ option_and_then requests.asked_of (reading (map string_bytes words.entry.now))) }
{
    match command.try_get_matches_from(words) {
        Ok(matches) => Ok(given_by(&matches).asked()),
        Err(error) => refused(&error),
    }
}

/// What the words ask for, without the program's name; `None` where they have no reading.
pub(crate) fn asked_by<'a>(
    alloc: Global,
    words: &'a [String],
) -> Result<Option<Asked<'a>>, OutOfMemory>
    ensures { IfOk result (λ asked. plain_asked asked
        ≡ option_and_then requests.asked_of (reading (map string_bytes words.entry.now))) }
{
    match command(alloc) {
        Ok(command) => asked_of(command, words),
        Err(_) => Err(OutOfMemory),
    }
}
