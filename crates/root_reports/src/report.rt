//! What a run of calls prints, and its status.
ghost use Rattle.std.specs.Prelude.{◌≡◌, IfOk};
ghost use Rattle.root_runs.specs.declared.plan.Plan.TheVariants as plans;
ghost use Rattle.root_reports.specs.Runs as runs;

use crate::json::{answers_text, rows_text};
use crate::made::Made;
use crate::missing::push_warnings;
use crate::statics::push_static_warnings;
use disk::Disk;
use root_access::{Done, Failure, print, print_messages, shown_lines};
use root_runs::{
    Plan, call_lines, enabled_status, push_answers, push_change_messages, push_messages,
    push_refusals, push_report, push_unmade,
};
use root_words::{Asked, Command};
use std::alloc::{AllocError, Global};

/// The status if a call was refused.
const REFUSED: u8 = 1;

/// The same for a script.
const REFUSED_IN_SCRIPT: u8 = 3;

/// What a run of calls prints. It is made before anything is changed, so that only writing it can
/// fail after that.
#[derive(Drop)]
pub struct Report {
    pub plan: Plan,
    /// For standard error.
    messages: Vec<u8>,
    /// For standard output.
    out: Vec<u8>,
}

fn is_script(asked: &Asked) -> bool {
    match &asked.command {
        Command::Run { .. } => true,
        _ => false,
    }
}

/// Whether a command only asks.
pub fn is_question(command: &Command) -> bool
    ensures { result ≡ runs.is_question command.now }
{
    match command {
        Command::IsEnabled(_) | Command::GetDefault | Command::ListDependencies { .. } => true,
        _ => false,
    }
}

/// What standard error gets for a command: what was or would be changed, skipped words, refusals,
/// warnings.
fn command_messages<D: Disk>(
    alloc: Global,
    asked: &Asked,
    root: &str,
    disk: &mut D,
    made: &Made<'_>,
) -> Result<Vec<u8>, AllocError> {
    let mut text = Vec::new(alloc);
    let is_refused = made.is_refused();
    let json = asked.output.json;
    if asked.output.quiet && !is_refused {
        return Ok(text);
    }
    if !json && !asked.output.quiet && !is_refused {
        let root = root.as_bytes();
        push_change_messages(&mut text, root, asked.how.dry_run, &made.changes)?;
    }
    // With --json the rows have the words that were skipped, and why calls were refused.
    if !json {
        push_messages(&mut text, made.rows())?;
    }
    for row in made.rows() {
        push_warnings(alloc, &mut text, disk, row, json)?;
    }
    push_static_warnings(alloc, &mut text, made, json)?;
    Ok(text)
}

/// What standard output gets for a command: the answers to questions, unless `is-enabled` is to
/// print none; with `--json` the rows of commands too.
fn command_out(
    alloc: Global,
    asked: &Asked,
    made: &Made<'_>,
    plan: Plan,
) -> Result<Vec<u8>, AllocError> {
    let mut text = Vec::new(alloc);
    match &asked.command {
        Command::IsEnabled(_) if asked.output.quiet => {}
        command if asked.output.json && is_question(command) => {
            return answers_text(alloc, made.rows());
        }
        _ if asked.output.json => {
            return rows_text(alloc, made, plan, asked.how.dry_run, &[]);
        }
        _ => push_answers(&mut text, made.rows())?,
    }
    shown_lines(alloc, &text)
}

/// What standard error gets for a script: how many calls were refused, and each of them.
fn script_messages(
    alloc: Global,
    asked: &Asked,
    made: &Made<'_>,
    numbers: &[usize],
) -> Result<Vec<u8>, AllocError> {
    let mut text = Vec::new(alloc);
    if made.is_refused() && !asked.output.json {
        push_refusals(&mut text, numbers, made.rows())?;
    }
    Ok(text)
}

/// What standard output gets for a script: the rows, and what they change in all; nothing if the
/// run must be quiet. If nothing is made since calls were refused, the first line says it.
fn script_out(
    alloc: Global,
    asked: &Asked,
    made: &Made<'_>,
    plan: Plan,
    numbers: &[usize],
) -> Result<Vec<u8>, AllocError> {
    let dry_run = asked.how.dry_run;
    if asked.output.json {
        return rows_text(alloc, made, plan, dry_run, numbers);
    }
    let mut text = Vec::new(alloc);
    if asked.output.quiet {
        return Ok(text);
    }
    match plan {
        Plan::Leave => push_unmade(&mut text, made.history, made.before)?,
        Plan::Forbid | Plan::Report | Plan::Make => {
            push_report(&mut text, made.history, made.before, &made.changes, dry_run)?;
        }
    }
    shown_lines(alloc, &text)
}

/// The numbers of the lines of a script that have calls, if they are needed.
fn numbers_of(
    alloc: Global,
    asked: &Asked,
    made: &Made<'_>,
    script: &[u8],
) -> Result<Vec<usize>, AllocError> {
    if asked.output.json || made.is_refused() {
        call_lines(alloc, script)
    } else {
        Ok(Vec::new(alloc))
    }
}

fn report_of_script(
    alloc: Global,
    asked: &Asked,
    made: &Made<'_>,
    script: &[u8],
) -> Result<Report, AllocError>
    ensures { IfOk result (λ report. report.plan ≡ runs.plan_for asked.now.how made.now) }
{
    let plan = made.plan(asked.how);
    let numbers = numbers_of(alloc, asked, made, script)?;
    Ok(Report {
        plan,
        messages: script_messages(alloc, asked, made, &numbers)?,
        out: script_out(alloc, asked, made, plan, &numbers)?,
    })
}

fn report_of_command<D: Disk>(
    alloc: Global,
    asked: &Asked,
    root: &str,
    disk: &mut D,
    made: &Made<'_>,
) -> Result<Report, AllocError>
    ensures { IfOk result (λ report. report.plan ≡ runs.plan_for asked.now.how made.now) }
{
    let plan = made.plan(asked.how);
    Ok(Report {
        plan,
        messages: command_messages(alloc, asked, root, disk, made)?,
        out: command_out(alloc, asked, made, plan)?,
    })
}

/// What a run prints. The script is that of `run`.
pub fn report_of<D: Disk>(
    alloc: Global,
    asked: &Asked,
    root: &str,
    disk: &mut D,
    made: &Made<'_>,
    script: &[u8],
) -> Result<Report, AllocError>
    ensures { IfOk result (λ report. report.plan ≡ runs.plan_for asked.now.how made.now) }
{
    if is_script(asked) {
        report_of_script(alloc, asked, made, script)
    } else {
        report_of_command(alloc, asked, root, disk, made)
    }
}

fn status_of(asked: &Asked, made: &Made<'_>) -> u8
    ensures { result ≡ runs.status_of asked.now.command made.now }
{
    match &asked.command {
        Command::IsEnabled(_) => enabled_status(made.rows()),
        Command::Run { .. } if made.is_refused() => REFUSED_IN_SCRIPT,
        _ if made.is_refused() => REFUSED,
        _ => 0,
    }
}

/// Prints why nothing may be changed, in a dry run after what would be.
fn print_forbidden(
    rt: &HostRuntime,
    asked: &Asked,
    made: &Made<'_>,
    report: &Report,
) -> Result<u8, Failure>
    ensures { IfOk result (λ status. ⊥) }
{
    if asked.how.dry_run {
        print_messages(rt, &report.messages);
        if is_script(asked) {
            print(rt, &report.out, Done::Nothing)?;
        }
    }
    Err(made.forbidden(rt.alloc()))
}

/// Prints a report, and returns the status.
pub fn print_report(
    rt: &HostRuntime,
    asked: &Asked,
    made: &Made<'_>,
    report: &Report,
    done: Done,
) -> Result<u8, Failure>
    ensures status { IfOk result (λ status. status ≡ runs.status_of asked.now.command made.now) }
    ensures forbidden { IfOk result (λ status. report.now.plan ≡ plans.Forbid → ⊥) }
{
    if report.plan == Plan::Forbid {
        return print_forbidden(rt, asked, made, report);
    }
    print_messages(rt, &report.messages);
    print(rt, &report.out, done)?;
    Ok(status_of(asked, made))
}
