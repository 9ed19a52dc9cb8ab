//! The options of `serve`, by the command that defines them.

ghost use Rattle.std.specs.Prelude.{◌≡◌, map, IfOk, codes};
ghost use Rattle.clap.specs.Words.{app_of, new_app, fault_of, FailsBy, with_rule};
ghost use Rattle.serve_words.specs.ServeApp.{serve_app, reads_all, needed, defaulted, optional};
ghost use Rattle.serve_words.specs.Told.{values_of, told};

use clap::{Arg, ArgAction, Command, Error};
use std::alloc::{AllocError, Global};

/// The values of the options, where they have one.
#[derive(Debug, Drop)]
pub struct Options<'a> {
    pub listen: Option<&'a str>,
    pub dir: Option<&'a str>,
    pub user: Option<&'a str>,
    pub password: Option<&'a str>,
    pub members: Option<&'a str>,
}

/// The command without its options. Its words begin behind the command's name.
fn bare_command<'a>(alloc: Global) -> Command<'a>
    ensures { app_of result ≡ reads_all (new_app (codes "serve")) }
{
    Command::new(alloc, "serve").no_binary_name(true)
}

/// Adds an option that must be there.
fn with_needed<'a>(
    alloc: Global,
    command: Command<'a>,
    name: &'a str,
) -> Result<Command<'a>, AllocError>
    ensures { IfOk result (λ c. app_of c ≡ with_rule (app_of command.entry) (needed name.entry.now)) }
{
    let option = Arg::new(alloc, name)
        .long(name)
        .required(true)
        .action(ArgAction::Set);
    command.arg(option)
}

/// Adds an option that has a value where it isn't there.
fn with_defaulted<'a>(
    alloc: Global,
    command: Command<'a>,
    name: &'a str,
    value: &'a str,
) -> Result<Command<'a>, AllocError>
    ensures { IfOk result (λ c. app_of c ≡ with_rule (app_of command.entry) (defaulted name.entry.now value.entry.now)) }
{
    let option = Arg::new(alloc, name)
        .long(name)
        .action(ArgAction::Set)
        .default_value(value);
    command.arg(option)
}

/// Adds an option that may be left out.
fn with_optional<'a>(
    alloc: Global,
    command: Command<'a>,
    name: &'a str,
) -> Result<Command<'a>, AllocError>
    ensures { IfOk result (λ c. app_of c ≡ with_rule (app_of command.entry) (optional name.entry.now)) }
{
    let option = Arg::new(alloc, name).long(name).action(ArgAction::Set);
    command.arg(option)
}

/// The command that the words behind `serve` are read by.
fn serve_command<'a>(alloc: Global) -> Result<Command<'a>, AllocError>
    ensures { IfOk result (λ c. app_of c ≡ serve_app) }
{
    let command = bare_command(alloc);
    let command = with_needed(alloc, command, "listen")?;
    let command = with_needed(alloc, command, "dir")?;
    let command = with_defaulted(alloc, command, "user", "guest")?;
    let command = with_defaulted(alloc, command, "password", "guest")?;
    with_optional(alloc, command, "members")
}

/// The options that these words set. It refuses exactly what the command refuses, and for want of memory.
pub fn read_options<'a>(alloc: Global, words: &'a [&'a str]) -> Result<Options<'a>, Error>
    ensures refusals { FailsBy (fault_of serve_app (map (λ w. w.now) words.now)) result }
    ensures told { IfOk result (λ o. values_of o ≡ told (map (λ w. w.now) words.now)) }
{
    let command = serve_command(alloc)?;
    let matches = command.try_get_matches_from(words)?;
    Ok(Options {
        listen: matches.get_str("listen"),
        dir: matches.get_str("dir"),
        user: matches.get_str("user"),
        password: matches.get_str("password"),
        members: matches.get_str("members"),
    })
}
