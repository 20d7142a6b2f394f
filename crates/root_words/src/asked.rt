//! What a command line of `unitroot` asks for.

/// What a command line asks for.
#[derive(Debug, Drop)]
pub struct Asked {
    /// `--root`. Without it the program takes what the environment gives.
    pub root: Option<String>,
    pub how: How,
    pub output: Output,
    /// `--as`: in whose name calls are made.
    pub operator: Option<String>,
    /// Each `--with`: paths that are captured too.
    pub with: Vec<String>,
    /// `--wait`: how long to wait for another run that holds the root.
    pub wait: Wait,
    /// `--history`: the directory of the history. Without it the history is in the root.
    pub history: Option<String>,
    /// `--adopt`: a history of another root, or one in which others changed very much, is used.
    pub adopt: bool,
    /// `--max`: at most this number of MiB of files and targets is read from the root.
    pub max: u32,
    pub command: Command,
}

/// How long to wait for another run.
#[derive(Clone, Copy, Debug, PartialEq, Eq)]
pub enum Wait {
    /// Not at all.
    No,
    /// At most this many seconds: `--wait=SECONDS`.
    Seconds(u32),
    /// Until it has ended: `--wait`.
    Forever,
}

/// How changes are made.
#[derive(Clone, Copy, Debug, PartialEq, Eq)]
pub struct How {
    /// Nothing is changed: what would be changed is reported.
    pub dry_run: bool,
    /// The accepted calls are made even if others were refused.
    pub keep_going: bool,
    /// Changes beneath /usr are made too.
    pub vendor: bool,
}

/// What is printed, and how.
#[derive(Clone, Copy, Debug, PartialEq, Eq)]
pub struct Output {
    /// No messages about changes: `-q`.
    pub quiet: bool,
    /// One JSON object a line.
    pub json: bool,
    /// Tables have a head and a last line with their length.
    pub legend: bool,
}

/// A verb that takes names of units. systemctl(1), "Unit File Commands".
#[derive(Clone, Copy, Debug, PartialEq, Eq)]
pub enum UnitsVerb {
    Enable,
    Disable,
    Reenable,
    Preset,
    Mask,
    Unmask,
}

/// Which part of a preset is carried out: `--preset-mode`. systemctl(1).
#[derive(Clone, Copy, Debug, PartialEq, Eq)]
pub enum PresetMode {
    Full,
    EnableOnly,
    DisableOnly,
}

/// Under which key a target depends on the units that are added to it.
#[derive(Clone, Copy, Debug, PartialEq, Eq)]
pub enum AddedAs {
    Wants,
    Requires,
}

/// Whose rows `undo` and `redo` mean in a script: `--rows`.
#[derive(Clone, Copy, Debug, PartialEq, Eq)]
pub enum RowsOf {
    /// Those of the history.
    History,
    /// Those of this run: its calls are counted from 1.
    Run,
}

/// A command with its words, which are as they were given: names may lack their type.
#[derive(Debug, Drop)]
pub enum Command {
    /// A verb with names of units. Those of `enable` may also be paths of unit files. The mode is
    /// that of `preset`, and full for the other verbs.
    Units {
        verb: UnitsVerb,
        runtime: bool,
        mode: PresetMode,
        names: Vec<String>,
    },
    PresetAll {
        runtime: bool,
        mode: PresetMode,
    },
    Link {
        runtime: bool,
        paths: Vec<String>,
    },
    Add {
        added: AddedAs,
        runtime: bool,
        target: String,
        names: Vec<String>,
    },
    SetDefault(String),
    GetDefault,
    IsEnabled(Vec<String>),
    ListUnitFiles(Listed),
    ListDependencies {
        reverse: bool,
        unit: String,
    },
    /// What a unit is, and what enables or masks it.
    Status(Vec<String>),
    /// An entry is put at a path: the path, `link` or `file`, and the target or text, as in a
    /// script.
    Place(Vec<String>),
    /// The entry at a path is removed.
    Remove(String),
    /// The script of this file, or of standard input. Without `--rows`, which rows its `undo` and
    /// `redo` mean isn't said.
    Run {
        file: Option<String>,
        rows: Option<RowsOf>,
    },
    /// From now on runs are remembered. With `--anew` a new history begins if there is one already.
    Keep {
        anew: bool,
    },
    /// The history, a row a line.
    Log(LogAsked),
    /// One row of the history.
    Show(u32),
    /// These rows of the history are taken back, one after another. With `--with-later` there is
    /// one, and those that must be undone before are taken back too.
    Undo {
        rows: Vec<u32>,
        with_later: bool,
    },
    /// Rows that were taken back are made again, one after another.
    Redo(Vec<u32>),
    /// A run that was cut short is finished.
    Recover,
    /// The history is removed, and the root stays as it is.
    Forget,
    /// The inventory of the root.
    Capture {
        all: bool,
    },
    /// How the root differs from another root, or from an inventory.
    Diff(String),
    /// The root is made as the inventory of this file, or of standard input.
    Apply(Option<String>),
}

/// Which rows a log shows, and how: all, or those that each option which is given leaves.
#[derive(Debug, Drop)]
pub struct LogAsked {
    /// `--unit`: only rows that have to do with this unit. Its name may lack the type.
    pub unit: Option<String>,
    /// `--operator`: only rows of this operator.
    pub operator: Option<String>,
    /// `--since`: only runs at this time or later.
    pub since: Option<String>,
    /// `--lines`: only the last rows, at most this number of them.
    pub lines: Option<u32>,
    /// `--full`: calls aren't cut to fit the terminal.
    pub full: bool,
}

/// Which unit files are listed: all, or those that match one of the patterns, have one of the types
/// and are in one of the states, if any of these are given. systemctl(1), `list-unit-files`.
#[derive(Debug, Drop)]
pub struct Listed {
    pub patterns: Vec<String>,
    pub types: Vec<String>,
    pub states: Vec<String>,
}
