//! The commands, each with its words, its options and its help.

use crate::asked::{AddedAs, UnitsVerb};
use crate::commands::Verb::Units;
use crate::commands::Words::{Any, At, AtMany, Many, Maybe, Nothing, Placed};

/// A command without its words.
#[derive(Clone, Copy)]
pub(crate) enum Verb {
    Units(UnitsVerb),
    PresetAll,
    Link,
    Add(AddedAs),
    SetDefault,
    GetDefault,
    IsEnabled,
    ListUnitFiles,
    ListDependencies,
    Status,
    Place,
    Remove,
    Run,
    Keep,
    Log,
    Show,
    Undo,
    Redo,
    Recover,
    Forget,
    Capture,
    Diff,
    Apply,
}

/// What help calls a word, and what it says of it.
pub(crate) type Word = (&'static str, &'static str);

/// Which words follow a command.
#[derive(Clone, Copy)]
pub(crate) enum Words {
    Nothing,
    /// One word.
    At(Word),
    /// One word or none.
    Maybe(Word),
    /// One word or more.
    Many(Word),
    /// Any number of words.
    Any(Word),
    /// One word, and then one word or more.
    AtMany(Word, Word),
    /// A path, `link` or `file`, and a target, or a text or none.
    Placed,
}

/// A command: its name, which it is, its words, the options that its help shows, what it does, and
/// an example.
#[derive(Clone, Copy)]
pub(crate) struct CommandRow(
    pub &'static str,
    pub Verb,
    pub Words,
    pub &'static [&'static str],
    pub &'static str,
    pub &'static str,
);

const UNIT: Word = ("UNIT", "A unit: ssh.service, or ssh");

const UNIT_OR_PATH: Word = (
    "UNIT|PATH",
    "A unit, or the path of a unit file in the root",
);

const UNIT_FILE: Word = ("PATH", "The path of a unit file in the root");

const TARGET: Word = ("TARGET", "A target: multi-user.target, or multi-user");

const PATTERN: Word = ("PATTERN", "A name, or a pattern with *, ? and [..]");

const SCRIPT: Word = ("FILE", "The file of the script");

const INVENTORY: Word = ("INVENTORY", "The file of the inventory");

const OTHER: Word = ("OTHER", "The directory of another root, or an inventory");

const ROW: Word = (
    "ROW",
    "The number of a row of the history, from 1 to 4294967295",
);

/// The path at which `place` puts something and `remove` removes it.
pub(crate) const PATH: Word = ("PATH", "An absolute path in the root");

/// What `place` puts at a path.
pub(crate) const KIND: Word = ("link|file", "What is put there");

/// What the link or file has that `place` puts at a path.
pub(crate) const CONTENT: Word = (
    "TARGET|TEXT|-",
    "The target of the link, or the text of the file",
);

/// The options of a call that changes something.
const CHANGE: &[&str] = &[
    "root", "as", "runtime", "dry-run", "vendor", "with", "max", "wait", "history", "adopt",
    "json", "quiet",
];

/// As `CHANGE`, of a call without `--runtime`.
const LASTING: &[&str] = &[
    "root", "as", "dry-run", "vendor", "with", "max", "wait", "history", "adopt", "json", "quiet",
];

const PRESET: &[&str] = &[
    "root",
    "as",
    "runtime",
    "preset-mode",
    "dry-run",
    "vendor",
    "with",
    "max",
    "wait",
    "history",
    "adopt",
    "json",
    "quiet",
];

/// The options of a command that has no calls, and works on the history.
const HISTORY: &[&str] = &["root", "max", "wait", "history", "adopt", "json", "quiet"];

/// The options of a call that asks.
const ASK: &[&str] = &["root", "as", "with", "max", "wait", "json", "quiet"];

/// All commands, in the order of help. (A function that names a large array is proved with all that
/// is in it: one function names this one, and gives it to the others.)
pub(crate) const COMMANDS: [CommandRow; 29] = [
    CommandRow(
        "list-unit-files",
        Verb::ListUnitFiles,
        Any(PATTERN),
        &[
            "root",
            "type",
            "state",
            "with",
            "max",
            "wait",
            "no-legend",
            "json",
            "quiet",
        ],
        "Lists unit files with their state and preset: all, or those whose name matches\n\
         a pattern.",
        "Example:\n  unitroot --root=./image list-unit-files --state=enabled '*.timer'",
    ),
    CommandRow(
        "enable",
        Units(UnitsVerb::Enable),
        Many(UNIT_OR_PATH),
        CHANGE,
        "Makes the links that the [Install] sections of the units ask for. A path of a\n\
         unit file is linked too.",
        "Example:\n  unitroot --root=./image enable ssh.service cron",
    ),
    CommandRow(
        "disable",
        Units(UnitsVerb::Disable),
        Many(UNIT),
        CHANGE,
        "Removes the links that enable the units.",
        "Example:\n  unitroot --root=./image disable ssh.service",
    ),
    CommandRow(
        "reenable",
        Units(UnitsVerb::Reenable),
        Many(UNIT),
        CHANGE,
        "Removes the links that enable the units, and makes those that their [Install]\n\
         sections ask for.",
        "Example:\n  unitroot --root=./image reenable ssh.service",
    ),
    CommandRow(
        "preset",
        Units(UnitsVerb::Preset),
        Many(UNIT),
        PRESET,
        "Enables or disables the units, as the preset files say.",
        "Example:\n  unitroot --root=./image preset ssh.service --preset-mode=enable-only",
    ),
    CommandRow(
        "preset-all",
        Verb::PresetAll,
        Nothing,
        PRESET,
        "Enables or disables all units with an [Install] section, as the preset files\n\
         say.",
        "Example:\n  unitroot --root=./image --dry-run preset-all",
    ),
    CommandRow(
        "is-enabled",
        Verb::IsEnabled,
        Many(UNIT),
        ASK,
        "Prints the state of each unit file. The status is 0 if one of them is enabled,\n\
         1 if some exist and none is enabled, and 4 if none exists.",
        "Example:\n  unitroot --root=./image is-enabled ssh.service",
    ),
    CommandRow(
        "mask",
        Units(UnitsVerb::Mask),
        Many(UNIT),
        CHANGE,
        "Links the units to /dev/null, so that they can't be started.",
        "Example:\n  unitroot --root=./image mask systemd-resolved.service",
    ),
    CommandRow(
        "unmask",
        Units(UnitsVerb::Unmask),
        Many(UNIT),
        CHANGE,
        "Removes the links to /dev/null that mask the units.",
        "Example:\n  unitroot --root=./image unmask systemd-resolved.service",
    ),
    CommandRow(
        "link",
        Verb::Link,
        Many(UNIT_FILE),
        CHANGE,
        "Links unit files from elsewhere in the root, so that they are found.",
        "Example:\n  unitroot --root=./image link /opt/app/app.service",
    ),
    CommandRow(
        "add-wants",
        Verb::Add(AddedAs::Wants),
        AtMany(TARGET, UNIT),
        CHANGE,
        "Makes the target want the units.",
        "Example:\n  unitroot --root=./image add-wants multi-user.target ssh.service",
    ),
    CommandRow(
        "add-requires",
        Verb::Add(AddedAs::Requires),
        AtMany(TARGET, UNIT),
        CHANGE,
        "Makes the target require the units.",
        "Example:\n  unitroot --root=./image add-requires multi-user.target ssh.service",
    ),
    CommandRow(
        "get-default",
        Verb::GetDefault,
        Nothing,
        ASK,
        "Prints the target that default.target is.",
        "Example:\n  unitroot --root=./image get-default",
    ),
    CommandRow(
        "set-default",
        Verb::SetDefault,
        At(TARGET),
        LASTING,
        "Makes default.target a link to the target.",
        "Example:\n  unitroot --root=./image set-default multi-user.target",
    ),
    CommandRow(
        "list-dependencies",
        Verb::ListDependencies,
        Maybe(UNIT),
        &[
            "root", "as", "reverse", "with", "max", "wait", "json", "quiet",
        ],
        "Lists the units that links make the unit, or default.target, depend on.",
        "Example:\n  unitroot --root=./image list-dependencies --reverse ssh.service",
    ),
    CommandRow(
        "status",
        Verb::Status,
        Many(UNIT),
        &["root", "with", "max", "wait", "history", "adopt", "json"],
        "Shows where the units are found, their state and preset, and which links enable\n\
         or mask them. If there is a history, it also shows which rows made them.",
        "Example:\n  unitroot --root=./image status ssh.service",
    ),
    CommandRow(
        "place",
        Verb::Place,
        Placed,
        LASTING,
        "Puts a link or a file at an empty path. With - the text of the file is read\n\
         from standard input.",
        "Example:\n  unitroot --root=./image place /etc/systemd/system/a.service \
         file - < a.service",
    ),
    CommandRow(
        "remove",
        Verb::Remove,
        At(PATH),
        LASTING,
        "Removes the link or file at a path.",
        "Example:\n  unitroot --root=./image remove /etc/systemd/system/a.service",
    ),
    CommandRow(
        "run",
        Verb::Run,
        Maybe(SCRIPT),
        &[
            "root",
            "dry-run",
            "vendor",
            "keep-going",
            "rows",
            "with",
            "max",
            "wait",
            "history",
            "adopt",
            "json",
            "quiet",
        ],
        "Runs a script: a call a line, as OPERATOR COMMAND WORDS... Without a file, or\n\
         with -, the script is read from standard input.",
        "Example:\n  unitroot --root=./image run --keep-going script",
    ),
    CommandRow(
        "keep",
        Verb::Keep,
        Nothing,
        &[
            "root", "anew", "with", "max", "wait", "history", "adopt", "json", "quiet",
        ],
        "Remembers all runs from now on, so that undo takes their rows back. The history\n\
         is in the root, at /var/lib/unitroot, or where --history has it.",
        "Example:\n  unitroot --root=./image keep",
    ),
    CommandRow(
        "log",
        Verb::Log,
        Nothing,
        &[
            "root",
            "unit",
            "operator",
            "since",
            "lines",
            "full",
            "wait",
            "history",
            "adopt",
            "no-legend",
            "json",
        ],
        "Shows the history, a row a line: its number and time, its operator and call,\n\
         how many changes it made, and which row undid it.",
        "Example:\n  unitroot --root=./image log --unit=ssh.service -n 10",
    ),
    CommandRow(
        "show",
        Verb::Show,
        At(ROW),
        &["root", "wait", "history", "adopt", "json"],
        "Shows one row of the history: its run and its call, what that changed and looked\n\
         at, and whether it can be undone, or with which later rows.",
        "Example:\n  unitroot --root=./image show 3",
    ),
    CommandRow(
        "undo",
        Verb::Undo,
        Many(ROW),
        &[
            "root",
            "as",
            "with-later",
            "dry-run",
            "vendor",
            "with",
            "max",
            "wait",
            "history",
            "adopt",
            "json",
            "quiet",
        ],
        "Takes rows of the history back, one after another: all or none.",
        "Example:\n  unitroot --root=./image undo 3",
    ),
    CommandRow(
        "redo",
        Verb::Redo,
        Many(ROW),
        LASTING,
        "Makes rows of the history again that were taken back: all or none.",
        "Example:\n  unitroot --root=./image redo 3",
    ),
    CommandRow(
        "recover",
        Verb::Recover,
        Nothing,
        HISTORY,
        "Finishes a run that was cut short, and does nothing else. The next run that\n\
         changes something would do so first.",
        "Example:\n  unitroot --root=./image recover",
    ),
    CommandRow(
        "forget",
        Verb::Forget,
        Nothing,
        HISTORY,
        "Removes the history. The root stays as it is, and later runs aren't\n\
         remembered.",
        "Example:\n  unitroot --root=./image forget",
    ),
    CommandRow(
        "capture",
        Verb::Capture,
        Nothing,
        &["root", "all", "with", "max", "wait", "json"],
        "Writes the inventory of the root to standard output: the links and files of\n\
         units and presets.",
        "Example:\n  unitroot --root=./image capture > inventory",
    ),
    CommandRow(
        "diff",
        Verb::Diff,
        At(OTHER),
        &["root", "with", "max", "wait", "json"],
        "Shows how the root differs from another root, or from an inventory. The status\n\
         is 1 if it does.",
        "Example:\n  unitroot --root=./image diff ./image.old",
    ),
    CommandRow(
        "apply",
        Verb::Apply,
        Maybe(INVENTORY),
        &[
            "root", "dry-run", "vendor", "with", "max", "wait", "history", "adopt", "json", "quiet",
        ],
        "Makes the links and files of the root as the inventory has them. Without one,\n\
         or with -, it is read from standard input.",
        "Example:\n  unitroot --root=./image apply inventory",
    ),
];

impl CommandRow {
    /// Whether the help of the command shows this option.
    pub(crate) fn shows(&self, option: &str) -> bool {
        self.3.iter().any(|shown| *shown == option)
    }
}

/// The one of these commands that has this name.
pub(crate) fn command_named(commands: &[CommandRow], name: &str) -> Option<CommandRow> {
    commands.iter().copied().find(|row| row.0 == name)
}
