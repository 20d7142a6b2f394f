//! What the words ask for.

use crate::asked::{
    AddedAs, Asked, Command, Listed, LogAsked, PresetMode, RowsOf, UnitsVerb, Wait,
};
use crate::building::{after_command, before_command, known_commands};
use crate::commands::{COMMANDS, CommandRow, Verb, command_named};
use crate::given::Given;
use crate::options::FOREVER;
use crate::refusals::{check_options, refused_command};
use crate::words_error::WordsError;
use clap::ArgMatches;
use std::alloc::{AllocError, Global};

/// The types of units, as `--type` has them.
const TYPES: [&str; 11] = [
    "service",
    "mount",
    "swap",
    "socket",
    "target",
    "device",
    "automount",
    "timer",
    "path",
    "slice",
    "scope",
];

/// States in which units are loaded, which `--type` takes too.
const LOAD_STATES: [&str; 7] = [
    "stub",
    "loaded",
    "not-found",
    "bad-setting",
    "error",
    "merged",
    "masked",
];

/// `--max`, if it isn't given.
const DEFAULT_MAX: u32 = 256;

/// `--max` is at most this number.
const GREATEST_MAX: u32 = 65_536;

fn mode_of(given: &Given<'_, '_, '_>) -> PresetMode {
    match given.last("preset-mode") {
        Some("enable-only") => PresetMode::EnableOnly,
        Some("disable-only") => PresetMode::DisableOnly,
        _ => PresetMode::Full,
    }
}

fn units(alloc: Global, verb: UnitsVerb, given: &Given<'_, '_, '_>) -> Result<Command, AllocError> {
    Ok(Command::Units {
        verb,
        runtime: given.flag("runtime"),
        mode: match verb {
            UnitsVerb::Preset => mode_of(given),
            UnitsVerb::Enable
            | UnitsVerb::Disable
            | UnitsVerb::Reenable
            | UnitsVerb::Mask
            | UnitsVerb::Unmask => PresetMode::Full,
        },
        names: given.words(alloc)?,
    })
}

fn add(alloc: Global, added: AddedAs, given: &Given<'_, '_, '_>) -> Result<Command, AllocError> {
    let target = given.first(alloc)?;
    Ok(Command::Add {
        added,
        runtime: given.flag("runtime"),
        target,
        names: given.words(alloc)?,
    })
}

fn list_dependencies(alloc: Global, given: &Given<'_, '_, '_>) -> Result<Command, AllocError> {
    let unit = match given.word() {
        Some(word) => word,
        None => "default.target",
    };
    Ok(Command::ListDependencies {
        reverse: given.flag("reverse"),
        unit: String::from_str(alloc, unit)?,
    })
}

/// Adds the parts of a list with commas, without empty ones.
fn push_parts(alloc: Global, parts: &mut Vec<String>, list: &str) -> Result<(), WordsError> {
    for part in list.split(',') {
        if !part.is_empty() {
            parts.push(String::from_str(alloc, part)?)?;
        }
    }
    Ok(())
}

/// The error of an option with an empty value.
fn no_value(alloc: Global, option: &str) -> WordsError {
    WordsError::refused_words(alloc, &["--", option, "= is without a value"])
}

/// The parts of all values of an option.
fn parts_of(
    alloc: Global,
    given: &Given<'_, '_, '_>,
    option: &str,
) -> Result<Vec<String>, WordsError> {
    let lists = given.all(alloc, option)?;
    let mut parts = Vec::new(alloc);
    for list in &lists {
        if list.is_empty() {
            return Err(no_value(alloc, option));
        }
        push_parts(alloc, &mut parts, list.as_str())?;
    }
    Ok(parts)
}

/// Adds what `--type` gives to the types, or to the states if it is a state.
fn push_type(alloc: Global, listed: &mut Listed, given: String) -> Result<(), WordsError> {
    if TYPES.iter().any(|known| *known == given.as_str()) {
        listed.types.push(given)?;
        Ok(())
    } else if LOAD_STATES.iter().any(|known| *known == given.as_str()) {
        listed.states.push(given)?;
        Ok(())
    } else {
        Err(WordsError::refused_words(
            alloc,
            &[
                given.as_str(),
                " is no type of units; the types are service, mount, swap, socket, target, device, \
                automount, timer, path, slice and scope",
            ],
        ))
    }
}

fn list_unit_files(alloc: Global, given: &Given<'_, '_, '_>) -> Result<Command, WordsError> {
    let types = parts_of(alloc, given, "type")?;
    let mut listed = Listed {
        patterns: given.words(alloc)?,
        types: Vec::new(alloc),
        states: parts_of(alloc, given, "state")?,
    };
    for part in types {
        push_type(alloc, &mut listed, part)?;
    }
    Ok(Command::ListUnitFiles(listed))
}

fn number_of(word: &str) -> Option<u32> {
    // `parse` takes a `+` too.
    if word.starts_with('+') {
        return None;
    }
    match word.parse::<u32>() {
        Ok(0) => None,
        Ok(number) => Some(number),
        Err(_) => None,
    }
}

/// As `number_of`, of a row that is a word after a command with this name.
///
/// Errors: the word is no number of a row.
fn row_number(alloc: Global, name: &str, word: &str) -> Result<u32, WordsError> {
    match number_of(word) {
        Some(number) => Ok(number),
        None => Err(bad_row(alloc, name, word)),
    }
}

fn bad_row(alloc: Global, name: &str, word: &str) -> WordsError {
    WordsError::refused_words(
        alloc,
        &[
            name,
            " ",
            word,
            ": ROW is a whole number from 1 to 4,294,967,295",
        ],
    )
}

/// The numbers of rows after a command with this name.
fn row_numbers(
    alloc: Global,
    name: &str,
    given: &Given<'_, '_, '_>,
) -> Result<Vec<u32>, WordsError> {
    let words = given.words(alloc)?;
    let mut numbers = Vec::new(alloc);
    for word in &words {
        let number = row_number(alloc, name, word.as_str())?;
        numbers.push(number)?;
    }
    Ok(numbers)
}

fn undo(alloc: Global, given: &Given<'_, '_, '_>) -> Result<Command, WordsError> {
    let rows = row_numbers(alloc, "undo", given)?;
    let with_later = given.flag("with-later");
    if with_later && rows.len() > 1 {
        return Err(WordsError::refused(
            alloc,
            "undo --with-later takes one ROW, and finds the other rows itself",
        ));
    }
    Ok(Command::Undo { rows, with_later })
}

/// The value of an option, for keeps.
///
/// Errors: it is empty.
fn value_of(
    alloc: Global,
    given: &Given<'_, '_, '_>,
    option: &str,
) -> Result<Option<String>, WordsError> {
    match given.last(option) {
        None => Ok(None),
        Some("") => Err(no_value(alloc, option)),
        Some(value) => Ok(Some(String::from_str(alloc, value)?)),
    }
}

fn lines_of(alloc: Global, given: &Given<'_, '_, '_>) -> Result<Option<u32>, WordsError> {
    let Some(text) = given.last("lines") else {
        return Ok(None);
    };
    match number_of(text) {
        Some(number) => Ok(Some(number)),
        None => Err(WordsError::refused_words(
            alloc,
            &[
                "--lines=",
                text,
                ": N is a whole number from 1 to 4,294,967,295",
            ],
        )),
    }
}

fn log(alloc: Global, given: &Given<'_, '_, '_>) -> Result<Command, WordsError> {
    let lines = lines_of(alloc, given)?;
    let unit = value_of(alloc, given, "unit")?;
    let operator = value_of(alloc, given, "operator")?;
    Ok(Command::Log(LogAsked {
        unit,
        operator,
        since: value_of(alloc, given, "since")?,
        lines,
        full: given.flag("full"),
    }))
}

fn show(alloc: Global, given: &Given<'_, '_, '_>) -> Result<Command, WordsError> {
    let word = given.word().unwrap_or("");
    Ok(Command::Show(row_number(alloc, "show", word)?))
}

fn rows_of(given: &Given<'_, '_, '_>) -> Option<RowsOf> {
    match given.last("rows") {
        Some("history") => Some(RowsOf::History),
        Some(_) => Some(RowsOf::Run),
        None => None,
    }
}

fn command_of(alloc: Global, verb: Verb, given: &Given<'_, '_, '_>) -> Result<Command, WordsError> {
    Ok(match verb {
        Verb::Units(verb) => units(alloc, verb, given)?,
        Verb::PresetAll => Command::PresetAll {
            runtime: given.flag("runtime"),
            mode: mode_of(given),
        },
        Verb::Link => Command::Link {
            runtime: given.flag("runtime"),
            paths: given.words(alloc)?,
        },
        Verb::Add(added) => add(alloc, added, given)?,
        Verb::SetDefault => Command::SetDefault(given.first(alloc)?),
        Verb::GetDefault => Command::GetDefault,
        Verb::IsEnabled => Command::IsEnabled(given.words(alloc)?),
        Verb::ListUnitFiles => list_unit_files(alloc, given)?,
        Verb::ListDependencies => list_dependencies(alloc, given)?,
        Verb::Status => Command::Status(given.words(alloc)?),
        Verb::Place => Command::Place(given.placed(alloc)?),
        Verb::Remove => Command::Remove(given.first(alloc)?),
        Verb::Run => Command::Run {
            file: given.file(alloc)?,
            rows: rows_of(given),
        },
        Verb::Keep => Command::Keep {
            anew: given.flag("anew"),
        },
        Verb::Log => log(alloc, given)?,
        Verb::Show => show(alloc, given)?,
        Verb::Undo => undo(alloc, given)?,
        Verb::Redo => Command::Redo(row_numbers(alloc, "redo", given)?),
        Verb::Recover => Command::Recover,
        Verb::Forget => Command::Forget,
        Verb::Capture => Command::Capture {
            all: given.flag("all"),
        },
        Verb::Diff => Command::Diff(given.first(alloc)?),
        Verb::Apply => Command::Apply(given.file(alloc)?),
    })
}

/// The directory that this option has. If it has an empty one, the sentence is the error.
fn directory_of(
    alloc: Global,
    given: &Given<'_, '_, '_>,
    option: &str,
    sentence: &str,
) -> Result<Option<String>, WordsError> {
    match given.last(option) {
        None => Ok(None),
        Some("") => Err(WordsError::refused(alloc, sentence)),
        Some(directory) => Ok(Some(String::from_str(alloc, directory)?)),
    }
}

fn root_of(alloc: Global, given: &Given<'_, '_, '_>) -> Result<Option<String>, WordsError> {
    directory_of(
        alloc,
        given,
        "root",
        "--root= is without a directory; that of this machine is --root=/",
    )
}

fn history_of(alloc: Global, given: &Given<'_, '_, '_>) -> Result<Option<String>, WordsError> {
    directory_of(
        alloc,
        given,
        "history",
        "--history= is without a directory; a history in the root needs no option",
    )
}

fn wait_of(alloc: Global, given: &Given<'_, '_, '_>) -> Result<Wait, WordsError> {
    let Some(text) = given.last("wait") else {
        return Ok(Wait::No);
    };
    if text == FOREVER {
        return Ok(Wait::Forever);
    }
    match text.parse::<u32>() {
        Ok(seconds) => Ok(Wait::Seconds(seconds)),
        Err(_) => Err(WordsError::refused_words(
            alloc,
            &[
                "--wait=",
                text,
                ": SECONDS is a whole number up to 4,294,967,295",
            ],
        )),
    }
}

/// The number of MiB that are read from the root at most.
fn max_of(alloc: Global, given: &Given<'_, '_, '_>) -> Result<u32, WordsError> {
    let Some(text) = given.last("max") else {
        return Ok(DEFAULT_MAX);
    };
    match number_of(text) {
        Some(number) if number <= GREATEST_MAX => Ok(number),
        _ => Err(WordsError::refused_words(
            alloc,
            &["--max=", text, ": MIB is a whole number from 1 to 65,536"],
        )),
    }
}

fn asked_of(
    alloc: Global,
    row: &CommandRow,
    given: &Given<'_, '_, '_>,
) -> Result<Asked, WordsError> {
    check_options(alloc, row, given)?;
    let root = root_of(alloc, given)?;
    let operator = given.text(alloc, "as")?;
    let with = given.all(alloc, "with")?;
    let wait = wait_of(alloc, given)?;
    let history = history_of(alloc, given)?;
    let max = max_of(alloc, given)?;
    Ok(Asked {
        root,
        how: given.how(),
        output: given.output(),
        operator,
        with,
        wait,
        history,
        adopt: given.flag("adopt"),
        max,
        command: command_of(alloc, row.1, given)?,
    })
}

/// The error of a command that there isn't: what is said of it, or what clap says.
fn unknown_command(
    alloc: Global,
    commands: &[CommandRow],
    name: &str,
    given: &[String],
) -> WordsError {
    if let Some(refused) = refused_command(alloc, name) {
        return refused;
    }
    match known_commands(alloc, commands) {
        Ok(command) => match command.try_get_matches_from(given) {
            Ok(_) => WordsError::refused_words(alloc, &[name, " is no command"]),
            Err(e) => WordsError::from(e),
        },
        Err(e) => WordsError::from(e),
    }
}

/// Whether `--` is before the command, which is before this number of words.
fn is_after_end(given: &[String], after: usize) -> bool {
    let at = given.len().saturating_sub(after).saturating_sub(2);
    0 < at && given.get(at).is_some_and(|word| word.as_str() == "--")
}

/// The words after the command. A `--` before the command is one of them.
fn words_after<'w>(
    alloc: Global,
    given: &[String],
    unread: &ArgMatches<'w>,
) -> Result<Vec<&'w str>, AllocError> {
    let after = unread.get_strs("").unwrap_or(&[]);
    let mut words = Vec::new(alloc);
    if is_after_end(given, after.len()) {
        words.push("--")?;
    }
    for word in after {
        words.push(*word)?;
    }
    Ok(words)
}

fn read_after(
    alloc: Global,
    row: &CommandRow,
    before: &ArgMatches<'_>,
    words: &[&str],
) -> Result<Asked, WordsError> {
    let after = after_command(alloc, row)?.try_get_matches_from(words)?;
    let given = Given {
        before,
        after: &after,
    };
    asked_of(alloc, row, &given)
}

/// What the words ask for, if these are all commands.
fn read_by(alloc: Global, commands: &[CommandRow], given: &[String]) -> Result<Asked, WordsError> {
    let before = before_command(alloc)?.try_get_matches_from(given)?;
    let Some((name, unread)) = before.subcommand() else {
        return Err(WordsError::refused(
            alloc,
            "the command is missing; unitroot --help has all of them",
        ));
    };
    match command_named(commands, name) {
        Some(row) => {
            let words = words_after(alloc, given, unread)?;
            read_after(alloc, &row, &before, words.as_slice())
        }
        None => Err(unknown_command(alloc, commands, name, given)),
    }
}

/// What the words, of which the first is the program's own, ask for. Options may be before the
/// command, after it and between its words, as getopt_long(3) has it, and the last one counts if
/// it takes one value. After `--` there are words alone, of which the first is the command if
/// there is none before. `-` as the file of `run` or the inventory of `apply` is standard input, as
/// if there were none. systemctl(1).
///
/// Errors:
/// - `Clap`: `--help`, `--version`, unknown commands and options, words that are missing or too
///   many, and values that an option doesn't take.
/// - `Refused`: commands and options of systemctl(1) that work on a running machine or aren't
///   offered, options that mean nothing for the command, unknown types of units, an empty
///   `--root=`, `--history=`, `--type=`, `--state=`, `--unit=`, `--operator=` or `--since=`, a
///   `--wait=` without a number, a `--max=` that is no number from 1 to 65,536, a row or a `--lines=`
///   that is no number from 1 to 4,294,967,295, `--with-later` with two rows or more, and no command
///   at all.
/// - `OutOfMemory`.
pub fn read_words(alloc: Global, given: &[String]) -> Result<Asked, WordsError> {
    read_by(alloc, &COMMANDS, given)
}
