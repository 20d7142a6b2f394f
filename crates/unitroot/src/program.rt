//! What the program does for each command.

use crate::commands::{place_input, run_command, run_preset_all};
use crate::scripts::run_script;
use history::Operator;
use root_histories::{
    Context, Failure, canonical_root, paths_of, print_messages, recover_root, variable,
};
use root_log::{show_log, show_row};
use root_reports::path_for_input;
use root_runs::login_operator;
use root_words::{Asked, Command};
use std::alloc::AllocError;
use std::env::VarError;
use std::{env, fs};
use whole_roots::{
    apply_inventory, forget, keep, list_unit_files, report_differences, show_status, write_capture,
};

/// The root of the command line, or that of the environment.
fn root_of(rt: &HostRuntime, asked: &Asked) -> Result<String, Failure> {
    match &asked.root {
        Some(root) => Ok(root.clone()?),
        None => match env::var(rt, "UNITROOT_ROOT") {
            Ok(root) if !root.is_empty() => Ok(root),
            Err(VarError::OutOfMemory) => Err(Failure::OutOfMemory),
            Ok(_) | Err(VarError::NotPresent | VarError::NotUnicode) => Err(Failure::NoRoot),
        },
    }
}

/// The operator that the environment names.
fn operator_around(rt: &HostRuntime) -> Result<Operator, Failure> {
    if let Some(name) = variable(rt, "UNITROOT_OPERATOR") {
        return match Operator::parse(name.as_str().as_bytes()) {
            Ok(operator) => Ok(operator),
            Err(_) => Err(Failure::BadOperatorAround),
        };
    }
    let (sudo_user, logname) = (variable(rt, "SUDO_USER"), variable(rt, "LOGNAME"));
    Ok(login_operator(bytes_of(&sudo_user), bytes_of(&logname)))
}

fn bytes_of(text: &Option<String>) -> &[u8] {
    match text {
        Some(text) => text.as_str().as_bytes(),
        None => b"",
    }
}

/// In whose name calls are made: as the command line says, else as the environment says.
fn operator_of(rt: &HostRuntime, asked: &Asked) -> Result<Vec<u8>, Failure> {
    match &asked.operator {
        Some(operator) => Ok(Vec::from_slice(rt.alloc(), operator.as_str().as_bytes())?),
        None => Ok(Vec::from_slice(rt.alloc(), operator_around(rt)?.text())?),
    }
}

/// Whether something is at a path beneath a root.
fn has(rt: &HostRuntime, root: &str, path: &str) -> bool {
    match format!(in rt.alloc(); "{root}/{path}") {
        Ok(path) => fs::symlink_metadata(rt, &path).is_ok(),
        Err(AllocError) => true,
    }
}

/// Warns if a root has no directory of systemd: it may be a wrong one.
fn warn_without_systemd(rt: &HostRuntime, root: &str) {
    let is_there = has(rt, root, ".");
    let has_systemd = has(rt, root, "etc/systemd")
        || has(rt, root, "usr/lib/systemd")
        || has(rt, root, "lib/systemd");
    if is_there && !has_systemd {
        let text = b"unitroot: the root has no etc/systemd, usr/lib/systemd or lib/systemd\n";
        print_messages(rt, text);
    }
}

/// Runs a command that makes calls in the name of an operator.
fn run_as_operator(cx: Context<'_>) -> Result<u8, Failure> {
    let operator = operator_of(cx.rt, cx.asked)?;
    match &cx.asked.command {
        Command::PresetAll { runtime, mode } => run_preset_all(cx, &operator, *runtime, *mode),
        command => match path_for_input(command) {
            Some(path) => place_input(cx, &operator, path),
            None => run_command(cx, &operator),
        },
    }
}

/// Runs a command on a root.
fn run_on_root(cx: Context<'_>) -> Result<u8, Failure> {
    let (rt, asked, root) = (cx.rt, cx.asked, cx.root);
    match &asked.command {
        Command::Run { file, rows } => run_script(cx, name_of(file), *rows),
        Command::Capture { all } => write_capture(rt, asked, root, *all),
        Command::Diff(other) => report_differences(rt, asked, root, other.as_str()),
        Command::Apply(file) => apply_inventory(cx, name_of(file)),
        Command::ListUnitFiles(listed) => list_unit_files(rt, asked, root, listed),
        Command::Status(units) => show_status(cx, units.as_slice()),
        Command::Keep { anew } => keep(cx, *anew),
        Command::Recover => recover_root(cx),
        Command::Forget => forget(cx),
        Command::Log(wanted) => show_log(cx, wanted),
        Command::Show(row) => show_row(cx, *row),
        Command::Units { .. } | Command::PresetAll { .. } | Command::Link { .. } => {
            run_as_operator(cx)
        }
        Command::Add { .. } | Command::SetDefault(_) | Command::GetDefault => run_as_operator(cx),
        Command::IsEnabled(_) | Command::ListDependencies { .. } => run_as_operator(cx),
        Command::Place(_) | Command::Remove(_) => run_as_operator(cx),
        Command::Undo { .. } | Command::Redo(_) => run_as_operator(cx),
    }
}

/// Refuses a bad path of `--with`, also if the command captures nothing.
fn check_with(rt: &HostRuntime, asked: &Asked) -> Result<(), Failure> {
    let _paths = paths_of(rt.alloc(), &asked.with)?;
    Ok(())
}

/// Does what is asked for, and returns the status.
pub(crate) fn run_asked(rt: &HostRuntime, asked: &Asked) -> Result<u8, Failure> {
    check_with(rt, asked)?;
    let root = root_of(rt, asked)?;
    let root = root.as_str();
    if !asked.output.quiet && !asked.output.json {
        warn_without_systemd(rt, root);
    }
    let path = canonical_root(rt, root)?;
    run_on_root(Context {
        rt,
        asked,
        root,
        path: path.as_str(),
    })
}

fn name_of(file: &Option<String>) -> Option<&str> {
    match file {
        Some(name) => Some(name.as_str()),
        None => None,
    }
}
