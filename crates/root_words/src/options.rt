//! The options, each with its text in the help of commands.

use clap::builder::ValueParser;
use clap::{Arg, ArgAction};
use std::alloc::Global;

/// What follows an option.
#[derive(Clone, Copy)]
pub(crate) enum Follows {
    /// Nothing: the option is given or it isn't.
    Nothing,
    /// A value, and the last one counts. Help calls it this.
    Value(&'static str),
    /// A value, and each one counts.
    Values(&'static str),
    /// One of these words, and the last one counts.
    OneOf(&'static str, &'static [&'static str]),
    /// A word for yes or no.
    Truth,
    /// A number of seconds after `=`, or nothing; the last one counts.
    Seconds,
}

/// The value of an option that takes seconds, if none are given.
pub(crate) const FOREVER: &str = "forever";

/// An option: its long name, by which it is read back too, its letter, what follows it, and what
/// help says.
#[derive(Clone, Copy)]
pub(crate) struct OptionRow(
    pub &'static str,
    pub Option<char>,
    pub Follows,
    pub &'static str,
);

const NONE: Follows = Follows::Nothing;

const MODES: &[&str] = &["full", "enable-only", "disable-only"];

const ROWS_OF: &[&str] = &["history", "run"];

/// All options, in the order in which help shows them. Those without a text are in no help of a
/// command. The ones of systemctl(1) are taken by each command, as there.
pub(crate) const OPTIONS: [OptionRow; 41] = [
    OptionRow(
        "root",
        None,
        Follows::Value("DIR"),
        "The root directory of an image",
    ),
    OptionRow(
        "as",
        None,
        Follows::Value("OPERATOR"),
        "In whose name the call is made",
    ),
    OptionRow(
        "runtime",
        None,
        NONE,
        "Makes changes beneath /run/systemd/system",
    ),
    OptionRow(
        "preset-mode",
        None,
        Follows::OneOf("MODE", MODES),
        "full, enable-only or disable-only",
    ),
    OptionRow(
        "dry-run",
        None,
        NONE,
        "Changes nothing: shows what would be changed",
    ),
    OptionRow("vendor", None, NONE, "Makes changes beneath /usr too"),
    OptionRow(
        "keep-going",
        None,
        NONE,
        "Makes the other calls if some are refused",
    ),
    OptionRow(
        "rows",
        None,
        Follows::OneOf("history|run", ROWS_OF),
        "Whose rows undo and redo name in the script",
    ),
    OptionRow(
        "anew",
        None,
        NONE,
        "Begins a new history if there is one already",
    ),
    OptionRow(
        "unit",
        None,
        Follows::Value("NAME"),
        "Only rows that concern this unit",
    ),
    OptionRow(
        "operator",
        None,
        Follows::Value("NAME"),
        "Only rows of this operator",
    ),
    OptionRow(
        "since",
        None,
        Follows::Value("TIME"),
        "Only runs at this time or later: 2026-12-01, or\n'2026-12-01 08:30'",
    ),
    OptionRow(
        "lines",
        Some('n'),
        Follows::Value("N"),
        "Only the last N rows",
    ),
    OptionRow(
        "full",
        Some('l'),
        NONE,
        "Doesn't cut calls to fit the terminal",
    ),
    OptionRow(
        "with-later",
        None,
        NONE,
        "Also takes back the later rows that must be undone\nfirst",
    ),
    OptionRow(
        "reverse",
        None,
        NONE,
        "Lists the units that depend on the unit",
    ),
    OptionRow(
        "type",
        Some('t'),
        Follows::Values("TYPE,.."),
        "Only units of these types",
    ),
    OptionRow(
        "state",
        None,
        Follows::Values("STATE,.."),
        "Only unit files in these states",
    ),
    OptionRow(
        "all",
        Some('a'),
        NONE,
        "Everything beneath the directories of units",
    ),
    OptionRow(
        "with",
        None,
        Follows::Values("PATH"),
        "Reads what is at this path of the root too",
    ),
    OptionRow(
        "max",
        None,
        Follows::Value("MIB"),
        "How many MiB of the root are read at most: 256\nwithout this option",
    ),
    OptionRow(
        "wait",
        None,
        Follows::Seconds,
        "Waits for another run that holds the root",
    ),
    OptionRow(
        "history",
        None,
        Follows::Value("DIR"),
        "The directory of the history, outside of the root",
    ),
    OptionRow(
        "adopt",
        None,
        NONE,
        "Goes on with the history of another root, or after\nover 1,000 changes by others",
    ),
    OptionRow(
        "no-legend",
        None,
        NONE,
        "Prints neither a head nor a length",
    ),
    OptionRow("json", None, NONE, "Prints one JSON object a line"),
    OptionRow("quiet", Some('q'), NONE, "Prints no messages about changes"),
    OptionRow("legend", None, Follows::Truth, ""),
    OptionRow("no-pager", None, NONE, ""),
    OptionRow("plain", None, NONE, ""),
    OptionRow("system", None, NONE, ""),
    OptionRow("no-reload", None, NONE, ""),
    OptionRow("no-warn", None, NONE, ""),
    OptionRow("no-ask-password", None, NONE, ""),
    OptionRow("now", None, NONE, ""),
    OptionRow("force", Some('f'), NONE, ""),
    OptionRow("user", None, NONE, ""),
    OptionRow("global", None, NONE, ""),
    OptionRow("image", None, Follows::Value("IMAGE"), ""),
    OptionRow("host", Some('H'), Follows::Value("HOST"), ""),
    OptionRow("machine", Some('M'), Follows::Value("MACHINE"), ""),
];

impl OptionRow {
    /// The option for clap, which help shows or doesn't.
    pub(crate) fn arg<'a>(&self, alloc: Global, shown: bool) -> Arg<'a> {
        let arg = Arg::new(alloc, self.0)
            .long(self.0)
            .help(self.3)
            .hide(!shown)
            .hide_possible_values(true);
        self.2.follow(match self.1 {
            Some(letter) => arg.short(letter),
            None => arg,
        })
    }
}

impl Follows {
    fn follow<'a>(self, arg: Arg<'a>) -> Arg<'a> {
        match self {
            Follows::Nothing => arg.action(ArgAction::SetTrue),
            Follows::Value(name) => arg.action(ArgAction::Set).value_name(name),
            Follows::Values(name) => arg.action(ArgAction::Append).value_name(name),
            Follows::OneOf(name, words) => arg
                .action(ArgAction::Set)
                .value_name(name)
                .value_parser(ValueParser::Names(words)),
            Follows::Truth => arg
                .action(ArgAction::Set)
                .value_parser(ValueParser::Boolish),
            Follows::Seconds => arg
                .action(ArgAction::Set)
                .value_name("SECONDS")
                .num_args(0..=1)
                .require_equals(true)
                .default_missing_value(FOREVER),
        }
    }
}
