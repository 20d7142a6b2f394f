//! Rows and answers as JSON, an object a line: docs/JSON.md.

use crate::made::Made;
use footprint::Answer;
use history::{Request, Row, RowReply};
use root_json::{CallPlace, Summary, push_row, push_state, push_summary, push_unit};
use root_runs::{Plan, count_refused};
use std::alloc::{AllocError, Global};
use unit_name::UnitName;
use unit_script::Action;

/// Appends the rows of a run, each with the number of its line in the script, if it is of a script.
fn push_rows(
    out: &mut Vec<u8>,
    made: &Made<'_>,
    is_made: bool,
    numbers: &[usize],
) -> Result<(), AllocError> {
    let all = made.history.rows();
    let mut number = u32::try_from(made.before).unwrap_or(u32::MAX);
    let mut lines = numbers.iter();
    for row in made.rows() {
        let line = lines.next().and_then(|line| u32::try_from(*line).ok());
        number = number.saturating_add(1);
        let place = CallPlace {
            made: is_made,
            line,
            words: &[],
        };
        push_row(out, all, number, row, &place)?;
    }
    Ok(())
}

/// The rows of calls, and what the accepted ones change in all: nothing if a refused one keeps them
/// from being made.
pub fn rows_text(
    alloc: Global,
    made: &Made<'_>,
    plan: Plan,
    dry_run: bool,
    numbers: &[usize],
) -> Result<Vec<u8>, AllocError> {
    let is_made = plan == Plan::Make;
    let rows = made.rows();
    let mut out = Vec::new(alloc);
    push_rows(&mut out, made, is_made, numbers)?;
    let summary = Summary {
        calls: rows.len(),
        refused: count_refused(rows),
        dry_run,
        made: is_made,
    };
    let changes = if plan == Plan::Leave {
        &[]
    } else {
        made.changes.as_slice()
    };
    push_summary(&mut out, summary, changes)?;
    Ok(out)
}

/// The unit of which `is-enabled` asks.
fn asked_unit(request: &Request<Action>) -> Option<&UnitName> {
    match request {
        Request::Do(Action::IsEnabled(question)) => Some(&question.unit),
        Request::Do(Action::GetDefault(_) | Action::Dependencies(_)) => None,
        Request::Do(Action::Enable(_) | Action::Disable(_) | Action::Reenable(_)) => None,
        Request::Do(Action::Preset(_) | Action::Mask(_) | Action::Unmask(_)) => None,
        Request::Do(Action::LinkUnits(_) | Action::AddTo(_) | Action::SetDefault(_)) => None,
        Request::Do(Action::PlaceEntry(_) | Action::RemoveEntry(_)) => None,
        Request::Undo(_) | Request::Redo(_) => None,
    }
}

fn push_units(out: &mut Vec<u8>, names: &[UnitName]) -> Result<(), AllocError> {
    for name in names {
        push_unit(out, name)?;
    }
    Ok(())
}

/// Appends a row of a single call.
fn push_single_row(
    out: &mut Vec<u8>,
    rows: &[Row<Action>],
    number: u32,
    row: &Row<Action>,
) -> Result<(), AllocError> {
    let place = CallPlace {
        made: false,
        line: None,
        words: &[],
    };
    push_row(out, rows, number, row, &place)
}

/// Appends the answer to a question; why it was refused is a row.
fn push_answer(
    out: &mut Vec<u8>,
    rows: &[Row<Action>],
    number: u32,
    row: &Row<Action>,
) -> Result<(), AllocError> {
    match &row.reply {
        RowReply::Answered(Answer::State(state)) => match asked_unit(&row.request) {
            Some(unit) => push_state(out, unit, *state),
            None => push_single_row(out, rows, number, row),
        },
        RowReply::Answered(Answer::Name(name)) => push_unit(out, name),
        RowReply::Answered(Answer::Names(names)) => push_units(out, names.as_slice()),
        RowReply::Answered(Answer::Done(_) | Answer::Refused(_)) => {
            push_single_row(out, rows, number, row)
        }
        RowReply::Undid(_) | RowReply::UndoRefused(_) => push_single_row(out, rows, number, row),
        RowReply::Redid(_) | RowReply::RedoRefused(_) => push_single_row(out, rows, number, row),
    }
}

/// The answers to questions.
pub fn answers_text(alloc: Global, rows: &[Row<Action>]) -> Result<Vec<u8>, AllocError> {
    let mut out = Vec::new(alloc);
    let mut number: u32 = 0;
    for row in rows {
        number = number.saturating_add(1);
        push_answer(&mut out, rows, number, row)?;
    }
    Ok(out)
}
