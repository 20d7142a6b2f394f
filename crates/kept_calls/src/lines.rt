//! The lines by which the calls of a run are kept.
ghost use Rattle.std.specs.Prelude.{◌≡◌, map as list_map, IfErr, IfOk};
ghost use Rattle.unit_script.specs.Script.{words_of};
ghost use Rattle.root_access.specs.declared.failure.Failure.TheVariants as failures;
ghost use Rattle.kept_calls.specs.Lines as lined;

use crate::fitting::Turn;
use crate::with_later::lines_with_later;
use byte_streams::ReadError;
use footprint::Units;
use history::{Operator, Request};
use kept_rows::{can_be_word, push_line};
use link_tree::{Scope, Tree, push_decimal};
use root_histories::{Context, Failure, KeptRoot, refused_word};
use root_reports::{choose_all, left_out_text, units_in_mode};
use root_runs::CallWords;
use root_words::RowsOf;
use script_words::push_escaped;
use std::alloc::{AllocError, Global};
use unit_lists::Mode;
use unit_script::{Action, Call, call_of_line, words_of};

/// The name that others have in a history.
const OUTSIDE: &[u8] = b"outside";

/// The calls that a run is to make.
#[derive(Drop)]
pub enum Wanted<'w> {
    /// Those of these lines.
    Lines(&'w [u8]),
    /// The same, but `undo` and `redo` count rows from the first of this run.
    LinesOfRun(&'w [u8]),
    /// Those of these lines, but each `preset` has only the units that the mode takes.
    InMode(&'w [u8], Mode),
    PresetAll(Operator, Scope, Mode),
    /// The undo of this row and, before it, of all rows that must be undone first.
    WithLater(Operator, u32),
}

impl<'w> Wanted<'w> {
    /// Lines that name the paths at which calls may look.
    pub fn named(&self) -> &'w [u8] {
        match self {
            Wanted::Lines(lines) | Wanted::LinesOfRun(lines) => *lines,
            Wanted::InMode(..) | Wanted::PresetAll(..) | Wanted::WithLater(..) => &[],
        }
    }

    /// The lines of the calls, in the turn in which they are made.
    pub fn lines(
        &self,
        cx: Context<'_>,
        root: &mut KeptRoot<'_>,
        turn: &Turn,
    ) -> Result<Vec<u8>, Failure> {
        let alloc = cx.rt.alloc();
        match self {
            Wanted::Lines(lines) => Ok(Vec::from_slice(alloc, *lines)?),
            Wanted::LinesOfRun(lines) => Ok(counted_from(alloc, *lines, turn.before)?),
            Wanted::InMode(lines, mode) => Ok(lines_in_mode(alloc, &turn.tree, *mode, *lines)?),
            Wanted::PresetAll(operator, scope, mode) => {
                lines_for_all(cx, root, &turn.tree, *operator, *scope, *mode)
            }
            Wanted::WithLater(operator, row) => {
                Ok(lines_with_later(cx, root, turn.kept.history(), operator, *row)?)
            }
        }
    }
}

/// Whether the verb of a call names a row.
fn names_row(verb: &[u8]) -> bool
    ensures { result ≡ lined.names_row verb.now }
{
    verb == b"undo".as_slice() || verb == b"redo".as_slice()
}

/// The number of a row, if a word is one.
fn row_of(word: &[u8]) -> Option<u32> {
    let text = str::from_utf8(word).ok()?;
    text.parse::<u32>().ok()
}

/// The row of the history that a row of this run is. No row has the number 0.
fn row_in_history(row: u32, before: usize) -> u32
    ensures { result ≡ lined.row_in_history row before }
{
    if row == 0 {
        return 0;
    }
    row.saturating_add(u32::try_from(before).unwrap_or(u32::MAX))
}

/// Appends a line of which the row counts from the first of this run.
fn push_counted(
    alloc: Global,
    text: &mut Vec<u8>,
    line: &[u8],
    before: usize,
) -> Result<(), AllocError> {
    let words = words_of(alloc, line)?;
    match words.as_slice() {
        [operator, verb, number] if names_row(*verb) && let Some(row) = row_of(*number) => {
            text.extend_from_slice(*operator)?;
            text.push(b' ')?;
            text.extend_from_slice(*verb)?;
            text.push(b' ')?;
            push_decimal(text, row_in_history(row, before) as usize)?;
        }
        _ => text.extend_from_slice(line)?,
    }
    Ok(text.push(b'\n')?)
}

/// Lines of which rows count from the first of this run, with the numbers that these have in the
/// history.
fn counted_from(alloc: Global, lines: &[u8], before: usize) -> Result<Vec<u8>, AllocError> {
    let mut text = Vec::new(alloc);
    for line in lines.split(|b| *b == b'\n') {
        push_counted(alloc, &mut text, line, before)?;
    }
    Ok(text)
}

/// Appends the line of a call with units, unless there are none.
fn push_units_line(
    alloc: Global,
    text: &mut Vec<u8>,
    operator: &Operator,
    verb: &[u8],
    scope: Scope,
    units: &Units,
) -> Result<(), AllocError> {
    if units.as_slice().is_empty() {
        return Ok(());
    }
    let mut words = Vec::new(alloc);
    words.push(verb)?;
    if let Scope::Run = scope {
        words.push(b"--runtime")?;
    }
    for name in units.as_slice() {
        words.push(name.text())?;
    }
    push_line(text, operator, &words)
}

/// Appends the line of a `preset` with only the units that the mode takes, unless there are none.
fn push_in_mode(
    alloc: Global,
    text: &mut Vec<u8>,
    tree: &Tree,
    mode: Mode,
    call: &Call,
) -> Result<(), AllocError> {
    if let Request::Do(Action::Preset(preset)) = &call.request {
        let units = units_in_mode(alloc, tree, mode, &preset.units)?;
        push_units_line(alloc, text, &call.operator, b"preset", preset.scope, &units)?;
    }
    Ok(())
}

/// The same for the call of a line. The line was read before, and is no bad one.
fn push_line_in_mode(
    alloc: Global,
    text: &mut Vec<u8>,
    tree: &Tree,
    mode: Mode,
    line: &[u8],
) -> Result<(), AllocError> {
    match call_of_line(alloc, line) {
        Ok(Some(call)) => push_in_mode(alloc, text, tree, mode, &call),
        Ok(None) | Err(ReadError::Fault(_) | ReadError::ReadFault) => Ok(()),
        Err(ReadError::OutOfMemory) => Err(AllocError),
    }
}

/// The lines of calls, of which each `preset` has only the units that the mode takes.
fn lines_in_mode(
    alloc: Global,
    tree: &Tree,
    mode: Mode,
    lines: &[u8],
) -> Result<Vec<u8>, AllocError> {
    let mut text = Vec::new(alloc);
    for line in lines.split(|b| *b == b'\n') {
        push_line_in_mode(alloc, &mut text, tree, mode, line)?;
    }
    Ok(text)
}

/// The lines of `preset-all` on a tree. What they leave out is noted.
fn lines_for_all(
    cx: Context<'_>,
    root: &mut KeptRoot<'_>,
    tree: &Tree,
    operator: Operator,
    scope: Scope,
    mode: Mode,
) -> Result<Vec<u8>, Failure> {
    let alloc = cx.rt.alloc();
    let chosen = choose_all(alloc, tree, operator, mode)?;
    if !cx.asked.output.json
        && let Some(text) = left_out_text(alloc, &chosen)?
    {
        root.notes.say(text.as_str())?;
    }
    let mut text = Vec::new(alloc);
    push_units_line(alloc, &mut text, &operator, b"disable", scope, &chosen.bare)?;
    push_units_line(alloc, &mut text, &operator, b"preset", scope, &chosen.names)?;
    Ok(text)
}

/// The name of others is no operator's on a root with a history.
///
/// Error: `OutsideAsOperator` if this is it.
pub fn check_operator(operator: &[u8]) -> Result<(), Failure>
    ensures { result ≡ lined.checked_operator operator.now }
{
    if operator == OUTSIDE {
        Err(Failure::OutsideAsOperator)
    } else {
        Ok(())
    }
}

/// Appends the line of a call. A word that no line can hold is refused.
fn push_call_line(
    alloc: Global,
    text: &mut Vec<u8>,
    operator: &Operator,
    call: &CallWords,
) -> Result<(), Failure> {
    let mut words = Vec::new(alloc);
    for word in call.as_slice() {
        if !can_be_word(word.bytes()) {
            return Err(unkept_word(alloc, word.bytes())?);
        }
        words.push(word.bytes())?;
    }
    Ok(push_line(text, operator, &words)?)
}

/// A word can't be kept.
fn unkept_word(alloc: Global, word: &[u8]) -> Result<Failure, AllocError> {
    let reason = "no line of a history can have this word";
    Ok(Failure::BadWords(refused_word(alloc, None, reason, word)?))
}

/// The lines of the calls of a command.
///
/// Errors: those of `check_operator`; a word is one that no line can have; out of memory.
pub fn lines_of_calls(
    alloc: Global,
    operator: &Operator,
    calls: &[CallWords],
) -> Result<Vec<u8>, Failure> {
    check_operator(operator.text())?;
    let mut text = Vec::new(alloc);
    for call in calls {
        push_call_line(alloc, &mut text, operator, call)?;
    }
    Ok(text)
}

/// The text of a file as a word of a line.
fn escaped(alloc: Global, bytes: &[u8]) -> Result<Vec<u8>, AllocError> {
    let mut text = Vec::new(alloc);
    push_escaped(&mut text, bytes)?;
    Ok(text)
}

/// The line of the call that puts a file with these bytes at a path.
///
/// Errors: those of `lines_of_calls`.
pub fn line_of_file(
    alloc: Global,
    operator: &Operator,
    path: &[u8],
    bytes: &[u8],
) -> Result<Vec<u8>, Failure> {
    check_operator(operator.text())?;
    if !can_be_word(path) {
        return Err(unkept_word(alloc, path)?);
    }
    let word = escaped(alloc, bytes)?;
    let mut words = Vec::new(alloc);
    words.push(b"place".as_slice())?;
    words.push(path)?;
    words.push(b"file".as_slice())?;
    if !word.is_empty() {
        words.push(word.as_slice())?;
    }
    let mut text = Vec::new(alloc);
    push_line(&mut text, operator, &words)?;
    Ok(text)
}

/// What keeps a line of a script from being run on a root with a history.
fn fault_of_line(
    alloc: Global,
    rows: Option<RowsOf>,
    line: &[u8],
) -> Result<Option<Failure>, AllocError>
    ensures { IfOk result (λ fault. fault ≡ lined.line_fault rows (words_of line.now)) }
{
    let words = words_of(alloc, line)?;
    match words.as_slice() {
        [operator, ..] if operator.starts_with(b"#") => Ok(None),
        [operator, ..] if *operator == OUTSIDE => Ok(Some(Failure::OutsideAsOperator)),
        [_, verb, ..] if names_row(*verb) && rows.is_none() => Ok(Some(Failure::RowsUnsaid)),
        _ => Ok(None),
    }
}

/// Checks that a script can be run on a root with a history: no call is one of others, and if there
/// is an `undo` or a `redo`, it is said whose rows they name.
///
/// Errors: `OutsideAsOperator`, `RowsUnsaid`; out of memory.
pub fn check_script(alloc: Global, rows: Option<RowsOf>, lines: &[u8]) -> Result<(), Failure> {
    for line in lines.split(|b| *b == b'\n') {
        if let Some(failure) = fault_of_line(alloc, rows, line)? {
            return Err(failure);
        }
    }
    Ok(())
}

/// The calls of a script.
pub fn wanted_lines<'w>(rows: Option<RowsOf>, lines: &'w [u8]) -> Wanted<'w> {
    match rows {
        Some(RowsOf::Run) => Wanted::LinesOfRun(lines),
        Some(RowsOf::History) | None => Wanted::Lines(lines),
    }
}
