//! Commands of systemctl: each makes a call or a few, and answers as systemctl does.

use history::Operator;
use kept_calls::{Wanted, check_operator, line_of_file, lines_of_calls, run_on_kept};
use link_tree::Scope;
use real_roots::RealDisk;
use root_histories::{Context, Failure, Taken, bad_call, note_promise, read_text, take, take_root};
use root_reports::{
    call_for_input, is_question, mode_of, path_of, run_all_in_mode, run_calls, run_in_mode,
};
use root_runs::{CallError, CallWords, calls_of, script_of};
use root_words::{Command, PresetMode};
use std::alloc::Global;
use unit_lists::Mode;
use unit_script::Call;

fn calls_of_words(
    alloc: Global,
    operator: &[u8],
    script: &[CallWords],
) -> Result<Vec<Call>, Failure> {
    match calls_of(alloc, operator, script) {
        Ok(calls) => Ok(calls),
        Err(CallError::Fault(fault)) => {
            Err(Failure::BadWords(bad_call(alloc, operator, script, fault)?))
        }
        Err(CallError::OutOfMemory) => Err(Failure::OutOfMemory),
    }
}

fn scope_of(runtime: bool) -> Scope {
    if runtime { Scope::Run } else { Scope::Etc }
}

/// The part of a `preset` that is carried out.
fn mode_asked(command: &Command) -> Mode {
    match command {
        Command::Units { mode, .. } => mode_of(*mode),
        _ => Mode::Full,
    }
}

/// Asks a root, whether it has a history or not.
fn ask(cx: Context<'_>, calls: Vec<Call>) -> Result<u8, Failure> {
    let mut disk = take_root(cx.rt, cx.asked, cx.root)?;
    note_promise(cx.rt, &mut disk, cx.asked.output.json)?;
    run_calls(cx, disk, calls, &[])
}

/// Makes the calls of a command on a root without a history. There is no row to undo.
fn run_plain(cx: Context<'_>, disk: RealDisk<'_>, calls: Vec<Call>) -> Result<u8, Failure> {
    match (&cx.asked.command, mode_asked(&cx.asked.command)) {
        (Command::Undo { .. } | Command::Redo(_), _) => Err(Failure::NoHistory),
        (_, Mode::Full) => run_calls(cx, disk, calls, &[]),
        (_, mode) => run_in_mode(cx, disk, mode, &calls),
    }
}

/// The operator of calls that were read with this name.
fn parsed(operator: &[u8]) -> Result<Operator, Failure> {
    match Operator::parse(operator) {
        Ok(operator) => Ok(operator),
        Err(_) => Err(Failure::BadOperator),
    }
}

/// What a command asks for on a root with a history, with the lines of its calls.
fn wanted_of<'w>(command: &Command, operator: Operator, lines: &'w [u8]) -> Wanted<'w> {
    if let Command::Undo {
        rows,
        with_later: true,
    } = command
        && let [row] = rows.as_slice()
    {
        return Wanted::WithLater(operator, *row);
    }
    match mode_asked(command) {
        Mode::Full => Wanted::Lines(lines),
        mode => Wanted::InMode(lines, mode),
    }
}

/// Makes the calls of a command on a root that is locked.
fn run_taken(
    cx: Context<'_>,
    operator: &[u8],
    script: &[CallWords],
    calls: Vec<Call>,
) -> Result<u8, Failure> {
    let alloc = cx.rt.alloc();
    match take(cx)? {
        Taken::Plain(disk) => run_plain(cx, disk, calls),
        Taken::Kept(root) => {
            let operator = parsed(operator)?;
            let lines = lines_of_calls(alloc, &operator, script)?;
            let wanted = wanted_of(&cx.asked.command, operator, &lines);
            run_on_kept(cx, root, &wanted, &[])
        }
    }
}

/// Runs a command that makes calls.
pub(crate) fn run_command(cx: Context<'_>, operator: &[u8]) -> Result<u8, Failure> {
    let alloc = cx.rt.alloc();
    let Some(script) = script_of(alloc, &cx.asked.command)? else {
        return Err(Failure::NoHistory);
    };
    let calls = calls_of_words(alloc, operator, &script)?;
    if is_question(&cx.asked.command) {
        return ask(cx, calls);
    }
    run_taken(cx, operator, &script, calls)
}

/// Puts a file with these bytes at a path.
fn place(cx: Context<'_>, operator: Operator, path: &str, bytes: &[u8]) -> Result<u8, Failure> {
    let alloc = cx.rt.alloc();
    let mut calls = Vec::new(alloc);
    calls.push(call_for_input(alloc, operator, path, bytes)?)?;
    match take(cx)? {
        Taken::Plain(disk) => run_calls(cx, disk, calls, &[]),
        Taken::Kept(root) => {
            let lines = line_of_file(alloc, &operator, path.as_bytes(), bytes)?;
            run_on_kept(cx, root, &Wanted::Lines(&lines), &[])
        }
    }
}

/// Puts a file with the bytes of standard input at a path.
pub(crate) fn place_input(cx: Context<'_>, operator: &[u8], path: &str) -> Result<u8, Failure> {
    let _path = path_of(cx.rt.alloc(), path)?;
    let bytes = read_text(cx.rt, None)?;
    place(cx, parsed(operator)?, path, &bytes)
}

/// Runs `preset-all`.
pub(crate) fn run_preset_all(
    cx: Context<'_>,
    operator: &[u8],
    runtime: bool,
    mode: PresetMode,
) -> Result<u8, Failure> {
    let operator = parsed(operator)?;
    let (scope, mode) = (scope_of(runtime), mode_of(mode));
    match take(cx)? {
        Taken::Plain(disk) => run_all_in_mode(cx, disk, operator, scope, mode),
        Taken::Kept(root) => {
            check_operator(operator.text())?;
            run_on_kept(cx, root, &Wanted::PresetAll(operator, scope, mode), &[])
        }
    }
}
