//! Which rows a log shows, which run a row is of, and the lines of calls.

use super::sample::{Kept, made};
use history::{MAX_ROWS, Operator, Row as HistoryRow};
use kept_log::{Filter, RunPlace, call_lines, next_run, rows_of_log, run_of_row};
use kept_texts::{Run, Time};
use link_tree::push_decimal;
use sample_rows::{Row, assert_rows};
use sample_values::name;
use std::alloc::{AllocError, Global};
use std::str;
use std::test::Fail;
use unit_script::Action;

const ROWS: &[u8] = b"\
    all\t2026-12-01T08:30:05Z\\na mask x.service\t\t1\\n\n\
    # a call names the unit, or a change is at its path or leads to one\n\
    unit\t2026-12-01T08:30:05Z\\na enable u.service\\na mask x.service\\na unmask e.service\\n\
        a place /etc/systemd/system/l.service link /usr/lib/systemd/system/u.service\t\
        u.service\t1\\n4\\n\n\
    unit\t2026-12-01T08:30:05Z\\na enable none.service\\na mask x.service\tnone.service\t1\\n\n\
    # an undo and a redo concern what their row does\n\
    unit\t2026-12-01T08:30:05Z\\na mask x.service\\na mask y.service\\nb undo 1\\nb redo 1\\n\
        b undo 9\tx.service\t1\\n3\\n4\\n\n\
    operator\t2026-12-01T08:30:05Z\\na mask x.service\\nb mask y.service\tb\t2\\n\n\
    # a run at the very time is shown; so are all rows of one whose clock was wrong\n\
    since\t2026-12-02T08:30:05Z\\na mask x.service;2026-12-01T08:30:05Z\\na mask y.service;\
        2026-12-03T08:30:05Z\\na mask z.service\t2026-12-02T08:30:05Z\t1\\n3\\n\n\
    lines\t2026-12-01T08:30:05Z\\na mask x.service\\na mask y.service\\na mask z.service\t2\t\
        2\\n3\\n\n\
    lines\t2026-12-01T08:30:05Z\\na mask x.service\t7\t1\\n\n\
    lines\t2026-12-01T08:30:05Z\\na mask x.service\t0\t\n\
    # the run of each row, by itself and in one pass; a run may have no rows\n\
    runs\t2026-12-01T08:30:05Z\\na mask x.service\\na mask y.service;2026-12-02T08:30:05Z;\
        2026-12-03T08:30:05Z\\na mask z.service\t\t\
        2026-12-01T08:30:05Z\\n2026-12-01T08:30:05Z\\n2026-12-03T08:30:05Z\\nnone\\n\n\
    calls\t2026-12-01T08:30:05Z\\na mask x.service;2026-12-03T08:30:05Z\\nb undo 1\t\t\
        a mask x.service\\nb undo 1\\n\n\
    ";

/// Whether a word is this one.
fn is(word: &[u8], wanted: &[u8]) -> bool {
    word == wanted
}

fn none() -> Filter {
    Filter {
        unit: None,
        operator: None,
        since: None,
        lines: None,
    }
}

/// The number that a word is.
fn number_of(word: &[u8]) -> Option<u32> {
    let text = str::from_utf8(word).ok()?;
    text.parse::<u32>().ok()
}

/// The filter of a row.
fn filter_of(alloc: Global, row: &Row) -> Result<Filter, AllocError> {
    let mut filter = none();
    if is(&row.kind, b"unit") {
        filter.unit = Some(name(alloc, &row.two)?);
    }
    if is(&row.kind, b"operator") {
        filter.operator = Operator::parse(&row.two).ok();
    }
    if is(&row.kind, b"since") {
        filter.since = Time::parse(&row.two);
    }
    if is(&row.kind, b"lines") {
        filter.lines = number_of(&row.two);
    }
    Ok(filter)
}

/// Appends the numbers of the rows that a log shows.
fn push_numbers(
    alloc: Global,
    out: &mut Vec<u8>,
    rows: &[HistoryRow<Action>],
    runs: &[Run],
    filter: &Filter,
) -> Result<(), AllocError> {
    if rows.len() > MAX_ROWS {
        return Ok(());
    }
    for n in &rows_of_log(alloc, rows, runs, filter)? {
        push_decimal(out, *n as usize)?;
        out.push(b'\n')?;
    }
    Ok(())
}

/// Appends the time of a run.
fn push_time(out: &mut Vec<u8>, run: Option<&Run>) -> Result<(), AllocError> {
    match run {
        Some(run) => out.extend_from_slice(run.words.time.text())?,
        None => out.extend_from_slice(b"none")?,
    }
    Ok(out.push(b'\n')?)
}

fn time_of<'r>(run: Option<&'r Run>) -> &'r [u8] {
    match run {
        Some(run) => run.words.time.text(),
        None => b"none",
    }
}

/// Appends the times of the runs of all rows, and of the one after the last. If both ways to find
/// them differ, a line says so.
fn push_times(out: &mut Vec<u8>, runs: &[Run], count: u32) -> Result<(), AllocError> {
    let mut place = RunPlace::first();
    for before in 0..count {
        let next = next_run(runs, &mut place);
        let one = run_of_row(runs, before.saturating_add(1));
        if time_of(next) != time_of(one) {
            out.extend_from_slice(b"they differ\n")?;
        }
        push_time(out, one)?;
    }
    Ok(())
}

fn push_calls(alloc: Global, out: &mut Vec<u8>, kept: &Kept) -> Result<(), AllocError> {
    let first = match kept.text.runs().first() {
        Some(run) => run.line,
        None => 0,
    };
    for line in &call_lines(alloc, kept.text.bytes(), first)? {
        out.extend_from_slice(*line)?;
        out.push(b'\n')?;
    }
    Ok(())
}

fn push_asked(alloc: Global, out: &mut Vec<u8>, kept: &Kept, row: &Row) -> Result<(), AllocError> {
    let (rows, runs) = (kept.history.rows(), kept.text.runs());
    if is(&row.kind, b"runs") {
        let count = u32::try_from(rows.len()).unwrap_or(0);
        return push_times(out, runs, count.saturating_add(1));
    }
    if is(&row.kind, b"calls") {
        return push_calls(alloc, out, kept);
    }
    push_numbers(alloc, out, rows, runs, &filter_of(alloc, row)?)
}

fn answer(alloc: Global, row: &Row) -> Result<Vec<u8>, AllocError> {
    let kept = made(alloc, &row.one)?;
    let mut out = Vec::new(alloc);
    push_asked(alloc, &mut out, &kept, row)?;
    Ok(out)
}

#[test]
fn logs_have_their_rows(rt: HostRuntime) -> Result<(), Fail> {
    assert_rows(rt.alloc(), ROWS, answer)
}
