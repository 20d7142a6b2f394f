//! Runs on a root with a history.
ghost use Rattle.std.specs.Prelude.{◌≡◌, IfOk};
ghost use Rattle.kept_calls.specs.Runs.{done_with};

use crate::committing::commit_to;
use crate::fitting::Turn;
use crate::lines::Wanted;
use crate::rounds::made_in_rounds;
use root_histories::{Context, Done, Failure, KeptRoot, Stop, begin_run, end};
use root_reports::{Made, Report, print_report, report_of};
use root_runs::Plan;

/// Writes the history and makes the changes, if a run is made and kept.
fn make(cx: Context<'_>, root: &mut KeptRoot<'_>, turn: &Turn, plan: Plan) -> Result<Done, Stop>
    ensures { IfOk result (λ done. done ≡ done_with plan turn.now.kept.is_written) }
{
    if plan == Plan::Make && turn.kept.is_written() {
        commit_to(cx.rt.alloc(), root, &turn.tree, &turn.kept)?;
        return Ok(Done::Changes);
    }
    Ok(Done::Nothing)
}

/// Makes what was called, if it is made, and prints the report.
fn carry_out(
    cx: Context<'_>,
    root: &mut KeptRoot<'_>,
    turn: &Turn,
    made: &Made<'_>,
    report: &Report,
) -> Result<u8, Stop> {
    let done = make(cx, root, turn, report.plan)?;
    root.notes.print(cx.rt);
    Ok(print_report(cx.rt, cx.asked, made, report, done)?)
}

/// Makes the report of calls before anything is made, and carries them out.
fn report_and_make(
    cx: Context<'_>,
    root: &mut KeptRoot<'_>,
    turn: &Turn,
    script: &[u8],
) -> Result<u8, Stop> {
    let alloc = cx.rt.alloc();
    let made = Made::since(alloc, turn.kept.history(), turn.before, &turn.tree)?;
    let report = report_of(alloc, cx.asked, cx.root, &mut root.disk, &made, script)?;
    carry_out(cx, root, turn, &made, &report)
}

fn run_calls(
    cx: Context<'_>,
    root: &mut KeptRoot<'_>,
    wanted: &Wanted<'_>,
    script: &[u8],
) -> Result<u8, Stop> {
    begin_run(cx, root)?;
    root.notes.print(cx.rt);
    let turn = made_in_rounds(cx, root, wanted)?;
    report_and_make(cx, root, &turn, script)
}

/// Makes calls on a root with a history. The script is that of `run`, for the numbers of its lines.
///
/// Errors: the root can't be captured; its history can't be read or fitted to it; a call isn't one
/// that a history can have; the changes can't be made, or may not last; standard output fails. A
/// call that is refused is no error: the status reports it.
pub fn run_on_kept(
    cx: Context<'_>,
    root: KeptRoot<'_>,
    wanted: &Wanted<'_>,
    script: &[u8],
) -> Result<u8, Failure> {
    let mut root = root;
    let ended = run_calls(cx, &mut root, wanted, script);
    end(cx, root, ended)
}
