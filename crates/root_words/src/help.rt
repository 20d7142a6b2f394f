//! The texts of `--help` and `--version`.

/// What `--version` says after the program's name.
pub(crate) const VERSION: &str = "1 (rules 1, as systemctl 252; inventories 1, histories 1)";

pub(crate) const USAGE: &str = "unitroot --root=DIR [OPTIONS] COMMAND [WORDS..]";

/// The help of the program. Its lines are at most 80 columns wide.
pub(crate) const HELP: &str = "\
Enables, disables, masks and presets systemd units in the root directory of an
image, as systemctl --root does.

Usage: unitroot --root=DIR [OPTIONS] COMMAND [WORDS..]

Options may be before the command, after it, and between its words. After --
there are words alone. unitroot COMMAND --help says more about a command.

Unit file commands, as systemctl has them:
  list-unit-files [PATTERN..]       Lists unit files with their state and preset
  enable UNIT|PATH..                Makes the links that the units ask for
  disable UNIT..                    Removes the links that enable the units
  reenable UNIT..                   Removes these links, and makes them again
  preset UNIT..                     Enables or disables, as preset files say
  preset-all                        As preset, for all units
  is-enabled UNIT..                 Prints the state of unit files
  mask UNIT..                       Links the units to /dev/null
  unmask UNIT..                     Removes the links to /dev/null
  link PATH..                       Links unit files from elsewhere in the root
  add-wants TARGET UNIT..           Makes the target want the units
  add-requires TARGET UNIT..        Makes the target require the units
  get-default                       Prints the target that default.target is
  set-default TARGET                Makes default.target a link to the target
  list-dependencies [UNIT]          Lists units that the unit depends on

Commands of unitroot:
  status UNIT..                     Shows where units are found, and their state
  place PATH link TARGET            Puts a link at an empty path
  place PATH file [TEXT|-]          Puts a file there: - is standard input
  remove PATH                       Removes the link or file at a path
  run [FILE]                        Runs a script: a call of an operator a line
  keep                              Remembers runs from now on: a history begins
  log                               Shows the history, a row a line
  show ROW                          Shows one row, and whether it can be undone
  undo ROW..                        Takes rows of the history back
  redo ROW..                        Makes rows again that were taken back
  recover                           Finishes a run that was cut short
  forget                            Removes the history: the root stays as it is
  capture                           Writes the inventory of the root
  diff OTHER                        Shows how another root or inventory differs
  apply [INVENTORY]                 Makes the root as the inventory has it

Options:
      --root=DIR                    The root directory of an image. Without it,
                                    the environment has it as UNITROOT_ROOT
      --as=OPERATOR                 In whose name the call is made
      --dry-run                     Changes nothing: shows what would be changed
      --vendor                      Makes changes beneath /usr too
      --keep-going                  run: makes other calls if some are refused
      --rows=history|run            run: whose rows its undo and redo name
      --anew                        keep: begins again, if there is a history
      --with-later                  undo: also takes back the later rows that
                                    must be undone first
      --unit=NAME                   log: only rows that concern this unit
      --operator=NAME               log: only rows of this operator
      --since=TIME                  log: only runs at this time or later
  -n, --lines=N                     log: only the last N rows
  -l, --full                        log: doesn't cut calls to fit the terminal
      --with=PATH                   Reads what is at this path of the root too
      --max=MIB                     How many MiB of the root are read at most:
                                    256 without this option
      --wait[=SECONDS]              Waits for another run that holds the root
      --history=DIR                 The directory of the history. Without it the
                                    history is in the root: /var/lib/unitroot
      --adopt                       Goes on with the history of another root, or
                                    after over 1,000 changes by others
      --runtime                     Makes changes beneath /run/systemd/system
      --preset-mode=MODE            preset: full, enable-only or disable-only
      --reverse                     list-dependencies: units that depend on it
  -t, --type=TYPE,..                list-unit-files: only units of these types
      --state=STATE,..              list-unit-files: only units in these states
  -a, --all                         capture: all files beneath the directories
      --no-legend, --legend=BOOL    Whether lists have a head and a length
      --json                        Prints one JSON object a line
  -q, --quiet                       Prints no messages about changes
  -h, --help                        Prints help
  -V, --version                     Prints the version

Accepted for compatibility, without effect:
      --system, --no-reload, --no-warn, --no-ask-password, --no-pager, --plain

Exit status:
  0  done
  1  failed, or the command was refused: the root is unchanged. Of diff: there
     are differences. Of list-unit-files: no unit file is listed
  2  bad arguments
  3  run: a call was refused, and the root is unchanged, or with --keep-going
     the other calls were made
  4  something else changed the root meanwhile: what was made was taken back
  5  half of the changes are made, and could not be taken back; or all are made,
     or taken back, and that may not last. If there is a history, the next run
     finishes them
  6  the changes are made, but standard output could not be written
is-enabled: 0 if one of the units is enabled, 1 if some of them exist and none
is enabled, 4 if none exists

Examples:
  unitroot --root=./image enable ssh.service
  unitroot --root=./image preset ssh cron --dry-run
  unitroot --root=./image list-unit-files --state=enabled
  unitroot --root=./image run script
  unitroot --root=./image undo 3
  unitroot --root=./image capture > inventory
";
