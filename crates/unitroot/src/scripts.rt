//! Scripts that are run on a root.

use byte_streams::{FromRead, ReadError};
use kept_calls::{check_script, run_on_kept, wanted_lines};
use root_histories::{Context, Failure, Taken, bad_lines_of, read_text, take};
use root_reports::run_calls;
use root_words::RowsOf;
use std::alloc::Global;
use unit_script::{Call, read_script};

/// The calls of a script's lines.
fn calls_of_lines(alloc: Global, lines: &[u8]) -> Result<Vec<Call>, Failure> {
    let mut script = Vec::from_slice(alloc, b"== calls\n")?;
    script.extend_from_slice(lines)?;
    match read_script(alloc, &mut FromRead::new(script.as_slice())) {
        Ok(calls) => Ok(calls),
        Err(ReadError::Fault(fault)) => Err(Failure::BadLines(bad_lines_of(alloc, lines, fault)?)),
        Err(ReadError::ReadFault) => Err(Failure::Input),
        Err(ReadError::OutOfMemory) => Err(Failure::OutOfMemory),
    }
}

/// Runs the calls of a script on a root that is locked.
fn run_lines(
    cx: Context<'_>,
    taken: Taken<'_>,
    rows: Option<RowsOf>,
    calls: Vec<Call>,
    lines: &[u8],
) -> Result<u8, Failure> {
    match taken {
        Taken::Plain(_) if rows == Some(RowsOf::History) => Err(Failure::NoRowsOfHistory),
        Taken::Plain(disk) => run_calls(cx, disk, calls, lines),
        Taken::Kept(root) => {
            check_script(cx.rt.alloc(), rows, lines)?;
            run_on_kept(cx, root, &wanted_lines(rows, lines), lines)
        }
    }
}

/// Runs the script of a file, or of standard input: all calls, or none if one is refused.
pub(crate) fn run_script(
    cx: Context<'_>,
    file: Option<&str>,
    rows: Option<RowsOf>,
) -> Result<u8, Failure> {
    // A relative name is of the directory in which the program was started: roots are entered later.
    let lines = read_text(cx.rt, file)?;
    let calls = calls_of_lines(cx.rt.alloc(), &lines)?;
    run_lines(cx, take(cx)?, rows, calls, &lines)
}
