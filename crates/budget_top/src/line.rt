//! Finds the options and the mode word of a command line, by the crate `clap`.
ghost use Rattle.std.specs.Prelude.{◌≡◌, IfOk, IsUtf8, map, false};
ghost use Rattle.std.specs.List.{All};
ghost use Rattle.clap.specs.Words.{app_of, rule_of, rows_of, found_of, matches_of, with_rule, fault_of, FailsBy};
ghost use Rattle.budget_top.specs.Clap.{option_rule, mode_rule, bare_app, plan_app, IsFoundIn};
ghost use Rattle.budget_top.specs.Clap.{wants_value, hyphen_for_value};

use clap::error::ErrorKind;
use clap::{Arg, ArgAction, ArgMatches, Command, Error};
use field_values::NoMemory;
use std::alloc::{AllocError, Global};

/// An option that takes one value.
fn option<'a>(alloc: Global, id: &'a str) -> Arg<'a>
    ensures rule { rule_of result ≡ option_rule id.entry.now }
    ensures local { result.global ≡ false }
{
    Arg::new(alloc, id).long(id).action(ArgAction::Set)
}

/// The command with one more option.
fn with_option<'a>(
    alloc: Global,
    command: Command<'a>,
    id: &'a str,
) -> Result<Command<'a>, AllocError>
    ensures { IfOk result (λ r. app_of r ≡ with_rule (app_of command.entry) (option_rule id.entry.now)) }
{
    command.arg(option(alloc, id))
}

/// The command with the mode word alone.
fn with_mode<'a>(alloc: Global) -> Result<Command<'a>, AllocError>
    ensures { IfOk result (λ r. app_of r ≡ with_rule bare_app mode_rule) }
{
    let mode = Arg::new(alloc, "mode")
        .required(true)
        .action(ArgAction::Set);
    Command::new(alloc, "gizsorved")
        .no_binary_name(true)
        .disable_help_flag(true)
        .arg(mode)
}

/// The command with the mode word and all options.
fn plan_command<'a>(alloc: Global) -> Result<Command<'a>, AllocError>
    ensures { IfOk result (λ r. app_of r ≡ plan_app) }
{
    let command = with_mode(alloc)?;
    let command = with_option(alloc, command, "store")?;
    let command = with_option(alloc, command, "node")?;
    let command = with_option(alloc, command, "token")?;
    let command = with_option(alloc, command, "file")?;
    let command = with_option(alloc, command, "group")?;
    let command = with_option(alloc, command, "count")?;
    let command = with_option(alloc, command, "listen")?;
    with_option(alloc, command, "peer")
}

/// What `clap` finds in the words.
fn plan_matches<'a>(alloc: Global, words: &'a [&'a str]) -> Result<ArgMatches<'a>, Error>
    ensures rows { IfOk result (λ m. rows_of (found_of m) ≡ matches_of plan_app (map (λ w. w.now) words.entry.now)) }
    ensures fails { FailsBy (fault_of plan_app (map (λ w. w.now) words.entry.now)) result }
{
    let command = plan_command(alloc)?;
    command.try_get_matches_from(words)
}

/// Whether a word is written as an option without its value.
fn is_alone(word: &str) -> bool
    ensures { result ≡ wants_value word.now }
{
    match word.as_bytes() {
        [b'-', b'-', rest @ ..] => !rest.is_empty() && !rest.contains(&b'='),
        _ => false,
    }
}

/// Whether a hyphen alone stands behind an option that wants a value. `clap` would take it.
fn has_hyphen_for_value(words: &[&str]) -> bool
    ensures { result ≡ hyphen_for_value (map (λ w. w.now) words.now) }
{
    let mut is_wanted = false;
    for word in words {
        if is_wanted && *word == "-" {
            return true;
        }
        is_wanted = is_alone(word);
    }
    false
}

/// What is found in the words, where they are a command line.
pub fn line_matches<'a>(
    alloc: Global,
    words: &'a [&'a str],
) -> Result<Option<ArgMatches<'a>>, NoMemory>
    requires { All (λ w. IsUtf8 w.now) words.now }
    ensures { IfOk result (IsFoundIn (map (λ w. w.now) words.entry.now)) }
{
    if has_hyphen_for_value(words) {
        return Ok(None);
    }
    match plan_matches(alloc, words) {
        Ok(matches) => Ok(Some(matches)),
        Err(error) => {
            if error.kind() == ErrorKind::OutOfMemory {
                return Err(NoMemory);
            }
            Ok(None)
        }
    }
}
