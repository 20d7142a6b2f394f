//! Calls on a root without a history.

use crate::made::{Made, made_in, made_on};
use crate::preset_calls::{calls_in_mode, preset_all_calls};
use crate::presets::{choose_all, left_out_text};
use crate::report::{Report, print_report, report_of};
use history::{History, Operator};
use link_tree::Scope;
use real_roots::RealDisk;
use root_access::{Context, Done, Failure, capture_for, print_messages};
use root_runs::Plan;
use std::alloc::AllocError;
use unit_lists::{Chosen, Mode};
use unit_script::{Action, Call};

/// Reports how many names `preset-all` leaves out, if there are any.
fn report_left_out(rt: &HostRuntime, chosen: &Chosen) -> Result<(), AllocError> {
    if let Some(text) = left_out_text(rt.alloc(), chosen)? {
        let line = format!(in rt.alloc(); "unitroot: {text}\n")?;
        print_messages(rt, line.as_str().as_bytes());
    }
    Ok(())
}

/// Makes the changes of calls, if any are made, and prints the report.
fn carry_out(
    cx: Context<'_>,
    disk: RealDisk<'_>,
    made: &Made<'_>,
    report: &Report,
) -> Result<u8, Failure> {
    let done = if report.plan == Plan::Make && !made.changes.is_empty() {
        made.make(cx.rt.alloc(), disk)?;
        Done::Changes
    } else {
        Done::Nothing
    };
    print_report(cx.rt, cx.asked, made, report, done)
}

/// Reports the calls of a history, and makes their changes.
fn report_and_make(
    cx: Context<'_>,
    disk: RealDisk<'_>,
    history: &History<Action>,
    script: &[u8],
) -> Result<u8, Failure> {
    let mut disk = disk;
    let alloc = cx.rt.alloc();
    let made = Made::of(alloc, history)?;
    let report = report_of(alloc, cx.asked, cx.root, &mut disk, &made, script)?;
    carry_out(cx, disk, &made, &report)
}

/// Makes calls on a root without a history. The script is that of `run`.
///
/// Errors: the root can't be captured, changed, or brought to the disk; something of the vendor's
/// may not be changed; standard output fails. A call that is refused is no error: the status
/// reports it.
pub fn run_calls(
    cx: Context<'_>,
    disk: RealDisk<'_>,
    calls: Vec<Call>,
    script: &[u8],
) -> Result<u8, Failure> {
    let mut disk = disk;
    let history = made_in(cx.rt.alloc(), &mut disk, calls)?;
    report_and_make(cx, disk, &history, script)
}

/// The history of calls of which each `preset` has only the units that the mode takes. That is
/// judged on the whole root.
fn made_in_mode(
    cx: Context<'_>,
    disk: &mut RealDisk<'_>,
    mode: Mode,
    calls: &[Call],
) -> Result<History<Action>, Failure> {
    let alloc = cx.rt.alloc();
    let tree = capture_for(alloc, cx.asked, disk)?;
    let calls = calls_in_mode(alloc, &tree, mode, calls)?;
    made_on(alloc, &tree, calls)
}

/// Makes calls on a root without a history, of which each `preset` has only the units that the
/// mode takes.
///
/// Errors: those of `run_calls`.
pub fn run_in_mode(
    cx: Context<'_>,
    disk: RealDisk<'_>,
    mode: Mode,
    calls: &[Call],
) -> Result<u8, Failure> {
    let mut disk = disk;
    let history = made_in_mode(cx, &mut disk, mode, calls)?;
    report_and_make(cx, disk, &history, &[])
}

/// The history of the calls of `preset-all`. What they leave out is reported.
fn preset_all_in(
    cx: Context<'_>,
    disk: &mut RealDisk<'_>,
    operator: Operator,
    scope: Scope,
    mode: Mode,
) -> Result<History<Action>, Failure> {
    let alloc = cx.rt.alloc();
    let tree = capture_for(alloc, cx.asked, disk)?;
    let chosen = choose_all(alloc, &tree, operator, mode)?;
    if !cx.asked.output.quiet && !cx.asked.output.json {
        report_left_out(cx.rt, &chosen)?;
    }
    made_on(
        alloc,
        &tree,
        preset_all_calls(alloc, &chosen, operator, scope)?,
    )
}

/// Runs `preset-all` on a root without a history.
///
/// Errors: those of `run_calls`, and of `choose_all`.
pub fn run_all_in_mode(
    cx: Context<'_>,
    disk: RealDisk<'_>,
    operator: Operator,
    scope: Scope,
    mode: Mode,
) -> Result<u8, Failure> {
    let mut disk = disk;
    let history = preset_all_in(cx, &mut disk, operator, scope, mode)?;
    report_and_make(cx, disk, &history, &[])
}
