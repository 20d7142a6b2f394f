//! What `unitroot` doesn't do.

use crate::commands::{CommandRow, Verb};
use crate::given::Given;
use crate::words_error::WordsError;
use std::alloc::Global;

/// The commands of systemctl(1) that need a running manager or machine.
const RUNNING: [&str; 61] = [
    "list-units",
    "list-automounts",
    "list-paths",
    "list-sockets",
    "list-timers",
    "is-active",
    "is-failed",
    "start",
    "stop",
    "reload",
    "restart",
    "try-restart",
    "condrestart",
    "try-reload",
    "condreload",
    "condstop",
    "force-reload",
    "reload-or-restart",
    "reload-or-try-restart",
    "try-reload-or-restart",
    "isolate",
    "kill",
    "clean",
    "freeze",
    "thaw",
    "set-property",
    "bind",
    "mount-image",
    "service-log-level",
    "service-log-target",
    "reset-failed",
    "check",
    "whoami",
    "list-machines",
    "list-jobs",
    "cancel",
    "show-environment",
    "set-environment",
    "unset-environment",
    "import-environment",
    "daemon-reload",
    "daemon-reexec",
    "log-level",
    "log-target",
    "service-watchdogs",
    "is-system-running",
    "default",
    "rescue",
    "emergency",
    "halt",
    "poweroff",
    "reboot",
    "kexec",
    "soft-reboot",
    "exit",
    "switch-root",
    "suspend",
    "hibernate",
    "hybrid-sleep",
    "suspend-then-hibernate",
    "sleep",
];

/// Other commands of systemctl(1) that `unitroot` doesn't have, with what is said of each.
const OTHERS: [(&str, &str); 4] = [
    (
        "cat",
        "cat is not offered: status shows where a unit is found, and the file can be read there",
    ),
    (
        "edit",
        "edit is not offered: edit the unit file itself, or add one by place PATH file",
    ),
    (
        "revert",
        "revert is not offered: remove PATH removes a file or link, and unmask a mask",
    ),
    (
        "help",
        "help is an option here: unitroot --help, or unitroot COMMAND --help",
    ),
];

/// Options of systemctl(1) without a value that `unitroot` doesn't have, with what is said of each.
const FLAGS: [(&str, &str); 4] = [
    (
        "now",
        "--now starts and stops units on a running machine; unitroot changes files alone",
    ),
    (
        "force",
        "--force is not offered: remove PATH removes the link that is in the way",
    ),
    (
        "user",
        "--user is not offered: unitroot knows the units of the system alone",
    ),
    (
        "global",
        "--global is not offered: unitroot knows the units of the system alone",
    ),
];

/// As `FLAGS`, for options with a value.
const VALUES: [(&str, &str); 3] = [
    (
        "image",
        "--image is not offered: mount the image, and give its directory to --root",
    ),
    (
        "host",
        "--host works on another machine; unitroot changes files beneath --root alone",
    ),
    (
        "machine",
        "--machine works on a running container; unitroot changes files beneath --root alone",
    ),
];

/// Options with a value that only `unitroot` has, and that only some commands have.
const OWN_VALUES: [&str; 8] = [
    "as", "with", "history", "rows", "unit", "operator", "since", "lines",
];

/// As `OWN_VALUES`, for options without a value.
const OWN_FLAGS: [&str; 5] = ["vendor", "keep-going", "adopt", "anew", "with-later"];

/// What is said of a command that `unitroot` doesn't have. `None` if systemctl(1) hasn't it either.
pub(crate) fn refused_command(alloc: Global, name: &str) -> Option<WordsError> {
    if let Some(other) = OTHERS.iter().find(|other| other.0 == name) {
        return Some(WordsError::refused(alloc, other.1));
    }
    if RUNNING.iter().any(|running| *running == name) {
        return Some(WordsError::refused_words(
            alloc,
            &[
                name,
                " works on a running machine; unitroot changes files alone",
            ],
        ));
    }
    None
}

/// What is said of an option of systemctl(1) that is given and that `unitroot` doesn't have.
fn refused_option(given: &Given<'_, '_, '_>) -> Option<&'static str> {
    match FLAGS.iter().find(|flag| given.flag(flag.0)) {
        Some(flag) => Some(flag.1),
        None => {
            let value = VALUES.iter().find(|value| given.last(value.0).is_some())?;
            Some(value.1)
        }
    }
}

/// Whether the command changes something, and can't show first what it would change.
fn has_no_dry_run(verb: Verb) -> bool {
    matches!(verb, Verb::Keep | Verb::Recover | Verb::Forget)
}

/// The option of `unitroot` that is given and that means nothing for this command. What systemctl
/// has, it takes with each command, and so does `unitroot`.
fn stray_option(row: &CommandRow, given: &Given<'_, '_, '_>) -> Option<&'static str> {
    if given.flag("dry-run") && has_no_dry_run(row.1) {
        return Some("dry-run");
    }
    let stray_value = OWN_VALUES.iter().copied().find(|option| given.last(option).is_some()
        && !row.shows(option));
    match stray_value {
        Some(option) => Some(option),
        None => OWN_FLAGS
            .iter()
            .copied()
            .find(|option| given.flag(option) && !row.shows(option)),
    }
}

/// Whether all options that are given may be given with this command.
///
/// Errors: the first that may not, as a sentence.
pub(crate) fn check_options(
    alloc: Global,
    row: &CommandRow,
    given: &Given<'_, '_, '_>,
) -> Result<(), WordsError> {
    if let Some(sentence) = refused_option(given) {
        return Err(WordsError::refused(alloc, sentence));
    }
    match stray_option(row, given) {
        Some(option) => Err(WordsError::refused_words(
            alloc,
            &["--", option, " is no option of ", row.0],
        )),
        None => Ok(()),
    }
}
