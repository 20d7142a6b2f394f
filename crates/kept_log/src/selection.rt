//! Which rows a log shows.
ghost use Rattle.std.specs.Prelude.{◌≡◌, ◌≤◌, ◌++◌, ◌∷◌, ℕ, List, if◌then◌else◌, length, IfOk, OnOk};
ghost use Rattle.std.specs.Option.{option_copied};
ghost use Rattle.history.specs.declared.history.TheConstants.{MAX_ROWS};
ghost use Rattle.kept_log.specs.Filters.{is_since, is_of_unit, is_of_operator, is_run_since, is_of_time, meets, met_after, last_of, rows_of_log};

use crate::filter::Filter;
use crate::of_units::concerns;
use crate::runs::{RunPlace, next_run};
use history::{Operator, Row};
use kept_texts::{Run, Time};
use std::alloc::{AllocError, Global};
use unit_name::UnitName;
use unit_script::Action;

/// Whether a time is this one or a later one.
fn is_since(since: &Time, time: &Time) -> bool
    ensures { result ≡ is_since since.now time.now }
{
    since.text().cmp(time.text()).is_le()
}

fn is_of_unit(unit: &Option<UnitName>, rows: &[Row<Action>], row: &Row<Action>) -> bool
    ensures { result ≡ is_of_unit unit.now rows.now row.now }
{
    match unit {
        Some(unit) => concerns(unit, rows, row),
        None => true,
    }
}

fn is_of_operator(operator: &Option<Operator>, row: &Row<Action>) -> bool
    ensures { result ≡ is_of_operator operator.now row.now }
{
    match operator {
        Some(operator) => row.operator.text() == operator.text(),
        None => true,
    }
}

fn is_run_since(since: &Time, run: Option<&Run>) -> bool
    ensures { result ≡ is_run_since since.now (option_copied run.entry) }
{
    match run {
        Some(run) => is_since(since, &run.words.time),
        None => false,
    }
}

fn is_of_time(since: &Option<Time>, run: Option<&Run>) -> bool
    ensures { result ≡ is_of_time since.now (option_copied run.entry) }
{
    match since {
        Some(since) => is_run_since(since, run),
        None => true,
    }
}

/// Whether a row of this run meets all that a filter asks for.
fn meets(filter: &Filter, rows: &[Row<Action>], run: Option<&Run>, row: &Row<Action>) -> bool
    ensures { result ≡ meets filter.now rows.now (option_copied run.entry) row.now }
{
    is_of_operator(&filter.operator, row)
        && is_of_time(&filter.since, run)
        && is_of_unit(&filter.unit, rows, row)
}

/// Adds the number of a row, if it meets a filter.
fn push_if_met(
    numbers: &mut Vec<u32>,
    filter: &Filter,
    rows: &[Row<Action>],
    run: Option<&Run>,
    number: u32,
    row: &Row<Action>,
) -> Result<(), AllocError>
    ensures { OnOk result ((more : List ℕ) → numbers.new.items ++ more ≡ numbers.old.items ++ (if meets filter.now rows.now (option_copied run.entry) row.now then number ∷ more else more)) }
{
    if meets(filter, rows, run, row) {
        numbers.push(number)?;
    }
    Ok(())
}

/// The numbers of the rows that meet a filter.
fn met(
    alloc: Global,
    rows: &[Row<Action>],
    runs: &[Run],
    filter: &Filter,
) -> Result<Vec<u32>, AllocError>
    requires { length rows.now ≤ MAX_ROWS }
    ensures { IfOk result (λ numbers. numbers.items ≡ met_after filter.now rows.now runs.now 0 rows.now) }
{
    let mut numbers = Vec::new(alloc);
    let mut place = RunPlace::first();
    let mut number = 0;
    for row in rows {
        number += 1;
        let run = next_run(runs, &mut place);
        push_if_met(&mut numbers, filter, rows, run, number, row)?;
    }
    Ok(numbers)
}

/// The last numbers, at most this many.
fn last_of(alloc: Global, numbers: Vec<u32>, lines: Option<u32>) -> Result<Vec<u32>, AllocError>
    ensures { IfOk result (λ last. last.items ≡ last_of lines numbers.items) }
{
    match lines {
        Some(lines) => {
            let over = numbers.len().saturating_sub(lines as usize);
            Vec::from_slice(alloc, &numbers[over..])
        }
        None => Ok(numbers),
    }
}

/// The numbers of the rows that a log shows, in their order: the last of those that meet the filter.
/// A row that none of the runs has is of no time, so it is shown only if `since` isn't given. It
/// takes one pass over rows and runs. Fails only if memory runs out.
pub fn rows_of_log(
    alloc: Global,
    rows: &[Row<Action>],
    runs: &[Run],
    filter: &Filter,
) -> Result<Vec<u32>, AllocError>
    requires { length rows.now ≤ MAX_ROWS }
    ensures { IfOk result (λ numbers. numbers.items ≡ rows_of_log rows.now runs.now filter.now) }
{
    let numbers = met(alloc, rows, runs, filter)?;
    last_of(alloc, numbers, filter.lines)
}
