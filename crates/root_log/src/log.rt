//! `log`: the rows of a history.
ghost use Rattle.std.specs.Prelude.{◌≡◌, ◌+◌, ◌==◌, false, string_bytes, IfErr, IfOk, IfSome};
ghost use Rattle.std.specs.Option.{option_map};
ghost use Rattle.history.specs.Operators.{is_operator};
ghost use Rattle.root_access.specs.declared.failure.Failure.TheVariants as failures;

use crate::shown_row::{ShownRow, lines_of_rows, words_of_call};
use crate::zone::LocalZone;
use history::{Operator, Row};
use kept_log::{Filter, LogLine, RunPlace, changes_of, next_run, push_log, rows_of_log};
use kept_texts::Time;
use root_histories::{
    Context, Done, Failure, Kept, KeptRoot, Stop, Taken, end, name_of, note_promise_of, print,
    read_kept, take, variable,
};
use root_json::push_log_row;
use root_words::LogAsked;
use std::alloc::{AllocError, Global};
use unit_name::UnitName;
use unit_script::Action;

/// How wide a table is if `COLUMNS` doesn't say it.
const COLUMNS: usize = 80;

fn since_of(
    alloc: Global,
    zone: &LocalZone,
    word: &Option<String>,
) -> Result<Option<Time>, Failure> {
    let Some(word) = word else {
        return Ok(None);
    };
    match zone.time_of(alloc, word.as_str().as_bytes())? {
        Some(time) => Ok(Some(time)),
        None => {
            let reason = "bad time: no YYYY-MM-DD, YYYY-MM-DD HH:MM[:SS] or YYYY-MM-DDTHH:MM:SSZ";
            Err(Failure::bad_word(alloc, reason, word.as_str())?)
        }
    }
}

fn unit_of(alloc: Global, word: &Option<String>) -> Result<Option<UnitName>, Failure> {
    match word {
        Some(word) => Ok(Some(name_of(alloc, word.as_str())?)),
        None => Ok(None),
    }
}

fn operator_of(word: &Option<String>) -> Result<Option<Operator>, Failure>
    ensures ok { IfOk result (λ operator. operator ≡ option_map string_bytes word.now) }
    ensures err { IfErr result (λ failure. (failure ≡ failures.BadOperator) × IfSome word.now (λ word. is_operator (string_bytes word) ≡ false)) }
{
    match word {
        Some(word) => match Operator::parse(word.as_str().as_bytes()) {
            Ok(operator) => Ok(Some(operator)),
            Err(_) => Err(Failure::BadOperator),
        },
        None => Ok(None),
    }
}

/// Which rows are shown.
fn filter_of(alloc: Global, zone: &LocalZone, wanted: &LogAsked) -> Result<Filter, Failure> {
    let operator = operator_of(&wanted.operator)?;
    let since = since_of(alloc, zone, &wanted.since)?;
    Ok(Filter {
        unit: unit_of(alloc, &wanted.unit)?,
        operator,
        since,
        lines: wanted.lines,
    })
}

/// Whether a number is that of the row at this place.
fn is_at(number: u32, place: usize) -> bool {
    number as usize == place.saturating_add(1)
}

/// The rows of these numbers, which rise, each with its run. One pass over rows and runs finds them.
fn shown_rows<'k>(
    alloc: Global,
    kept: &'k Kept,
    numbers: &[u32],
) -> Result<Vec<ShownRow<'k>>, AllocError> {
    let runs = kept.text().runs();
    let lines = lines_of_rows(alloc, kept)?;
    let mut place = RunPlace::first();
    let mut left = numbers;
    let mut shown = Vec::new(alloc);
    for (before, row) in kept.history().rows().iter().enumerate() {
        let run = next_run(runs, &mut place);
        let line = lines.get(before).copied().unwrap_or(&[]);
        if let Some((number, rest)) = left.split_first()
            && is_at(*number, before)
        {
            left = rest;
            shown.push(ShownRow {
                number: *number,
                row,
                run,
                line,
            })?;
        }
    }
    Ok(shown)
}

/// The line of a row in a table.
fn line_of(
    alloc: Global,
    zone: &LocalZone,
    rows: &[Row<Action>],
    shown: &ShownRow<'_>,
) -> Result<LogLine, AllocError> {
    let time = shown.time(alloc, zone)?;
    Ok(LogLine {
        number: shown.number,
        time,
        operator: shown.row.operator,
        call: shown.call(alloc)?,
        changes: changes_of(rows, shown.row).len(),
        undone_by: shown.row.undone_by,
    })
}

/// How wide a table may be: as wide as the terminal, which `COLUMNS` says.
fn columns_of(rt: &HostRuntime, full: bool) -> Option<usize> {
    if full {
        return None;
    }
    match variable(rt, "COLUMNS") {
        Some(text) => Some(text.parse::<usize>().unwrap_or(COLUMNS)),
        None => Some(COLUMNS),
    }
}

/// The table of rows.
fn table_of(
    cx: Context<'_>,
    kept: &Kept,
    zone: &LocalZone,
    shown: &[ShownRow<'_>],
    full: bool,
) -> Result<Vec<u8>, AllocError> {
    let alloc = cx.rt.alloc();
    let mut lines = Vec::new(alloc);
    for row in shown {
        lines.push(line_of(alloc, zone, kept.history().rows(), row)?)?;
    }
    let columns = columns_of(cx.rt, full);
    let mut text = Vec::new(alloc);
    push_log(&mut text, columns, cx.asked.output.legend, &lines)?;
    Ok(text)
}

/// Rows as JSON, one a line.
fn json_of(alloc: Global, kept: &Kept, shown: &[ShownRow<'_>]) -> Result<Vec<u8>, AllocError> {
    let rows = kept.history().rows();
    let mut text = Vec::new(alloc);
    for one in shown {
        let words = words_of_call(alloc, one.line)?;
        push_log_row(&mut text, rows, one.number, one.row, &one.kept_call(&words))?;
    }
    Ok(text)
}

fn text_of(
    cx: Context<'_>,
    kept: &Kept,
    zone: &LocalZone,
    filter: &Filter,
    full: bool,
) -> Result<Vec<u8>, AllocError> {
    let alloc = cx.rt.alloc();
    let numbers = rows_of_log(alloc, kept.history().rows(), kept.text().runs(), filter)?;
    let shown = shown_rows(alloc, kept, &numbers)?;
    if cx.asked.output.json {
        json_of(alloc, kept, &shown)
    } else {
        table_of(cx, kept, zone, &shown, full)
    }
}

/// Prints the log of a root with a history, as the history is: a run that was cut short is only
/// mentioned.
fn print_log(
    cx: Context<'_>,
    root: &mut KeptRoot<'_>,
    zone: &LocalZone,
    filter: &Filter,
    full: bool,
) -> Result<u8, Stop> {
    note_promise_of(root)?;
    let kept = read_kept(cx, root)?;
    let text = text_of(cx, &kept, zone, filter, full)?;
    print(cx.rt, &text, Done::Nothing)?;
    Ok(0)
}

/// Shows the rows of a history that a filter takes, the oldest first.
pub fn show_log(cx: Context<'_>, wanted: &LogAsked) -> Result<u8, Failure> {
    let zone = LocalZone::read(cx.rt);
    let filter = filter_of(cx.rt.alloc(), &zone, wanted)?;
    match take(cx)? {
        Taken::Plain(_) => Err(Failure::NoHistory),
        Taken::Kept(root) => {
            let mut root = root;
            let ended = print_log(cx, &mut root, &zone, &filter, wanted.full);
            end(cx, root, ended)
        }
    }
}
