//! The command line as clap reads it.

use crate::commands::{CONTENT, CommandRow, KIND, PATH, Word, Words};
use crate::help::{HELP, USAGE, VERSION};
use crate::options::OPTIONS;
use clap::builder::ValueParser;
use clap::{Arg, ArgAction, Command};
use std::alloc::{AllocError, Global};

/// The first word after a command that takes one word, or one word and then others.
pub(crate) const FIRST: &str = "FIRST";

/// What `place` puts at a path.
pub(crate) const SECOND: &str = "SECOND";

/// The target or the text of what `place` puts at a path.
pub(crate) const THIRD: &str = "THIRD";

/// The words after a command that takes any number of them.
pub(crate) const WORDS: &str = "WORDS";

/// What `place` puts at a path.
const PLACED: &[&str] = &["link", "file"];

fn one<'a>(alloc: Global, id: &'a str, word: Word, required: bool) -> Arg<'a> {
    Arg::new(alloc, id)
        .value_name(word.0)
        .help(word.1)
        .required(required)
        .action(ArgAction::Set)
}

fn many<'a>(alloc: Global, word: Word, required: bool) -> Arg<'a> {
    Arg::new(alloc, WORDS)
        .value_name(word.0)
        .help(word.1)
        .required(required)
        .num_args(1..)
        .action(ArgAction::Append)
}

fn with_placed<'a>(alloc: Global, command: Command<'a>) -> Result<Command<'a>, AllocError> {
    let kind = one(alloc, SECOND, KIND, true)
        .value_parser(ValueParser::Names(PLACED))
        .hide_possible_values(true);
    command
        .arg(one(alloc, FIRST, PATH, true))?
        .arg(kind)?
        .arg(one(alloc, THIRD, CONTENT, false))
}

fn with_words<'a>(
    alloc: Global,
    command: Command<'a>,
    words: Words,
) -> Result<Command<'a>, AllocError> {
    match words {
        Words::Nothing => Ok(command),
        Words::At(word) => command.arg(one(alloc, FIRST, word, true)),
        Words::Maybe(word) => command.arg(one(alloc, FIRST, word, false)),
        Words::Many(word) => command.arg(many(alloc, word, true)),
        Words::Any(word) => command.arg(many(alloc, word, false)),
        Words::AtMany(first, word) => command
            .arg(one(alloc, FIRST, first, true))?
            .arg(many(alloc, word, true)),
        Words::Placed => with_placed(alloc, command),
    }
}

/// Adds all options: those of the program if there is no row, and those of a command otherwise.
/// Each command takes all of them, as systemctl does, and its help shows its own.
fn with_options<'a>(
    alloc: Global,
    mut command: Command<'a>,
    row: Option<&CommandRow>,
) -> Result<Command<'a>, AllocError> {
    for option in &OPTIONS {
        let shown = row.is_some_and(|row| row.shows(option.0));
        command = command.arg(option.arg(alloc, shown))?;
    }
    Ok(command)
}

/// A command line in which options may be repeated, and be cut off as long as they are clear, as
/// getopt_long(3) has it.
fn new_command<'a>(alloc: Global, name: &'a str) -> Command<'a> {
    Command::new(alloc, name)
        .version(VERSION)
        .args_override_self(true)
        .infer_long_args(true)
}

fn program<'a>(alloc: Global) -> Result<Command<'a>, AllocError> {
    let command = new_command(alloc, "unitroot")
        .override_usage(USAGE)
        .override_help(HELP)
        .disable_help_subcommand(true);
    with_options(alloc, command, None)
}

/// The options before the command. The command and what is after it is taken as it is.
pub(crate) fn before_command<'a>(alloc: Global) -> Result<Command<'a>, AllocError> {
    Ok(program(alloc)?.allow_external_subcommands(true))
}

fn bare_command<'a>(alloc: Global, row: &CommandRow) -> Command<'a> {
    Command::new(alloc, row.0)
}

/// As `before_command`, but the names of the commands are known, and no other.
pub(crate) fn known_commands<'a>(
    alloc: Global,
    commands: &[CommandRow],
) -> Result<Command<'a>, AllocError> {
    let mut command = program(alloc)?;
    for row in commands {
        command = command.subcommand(bare_command(alloc, row))?;
    }
    Ok(command)
}

/// Gives the command the name that its help and its version have.
fn with_names<'a>(
    alloc: Global,
    command: Command<'a>,
    row: &CommandRow,
) -> Result<Command<'a>, AllocError> {
    let name = row.0;
    let shown = format!(in alloc; "unitroot {name}")?;
    command.bin_name(shown.as_str())?.display_name("unitroot")
}

/// The options and words after a command.
pub(crate) fn after_command<'a>(
    alloc: Global,
    row: &CommandRow,
) -> Result<Command<'a>, AllocError> {
    let command = new_command(alloc, row.0)
        .no_binary_name(true)
        .disable_version_flag(true)
        .about(row.4)
        .after_help(row.5);
    let command = with_names(alloc, command, row)?;
    let command = with_words(alloc, command, row.2)?;
    let command = with_options(alloc, command, Some(row))?;
    command.arg(
        Arg::new(alloc, "version")
            .long("version")
            .action(ArgAction::Version)
            .hide(true),
    )
}
