//! The header of a history, which says for which root it was begun.
ghost use Rattle.std.specs.Prelude.{◌≡◌, [], length, Ok, IfOk};
ghost use Rattle.root_histories.specs.Readings.{checked_length};

use crate::marks::{label_of, new_id};
use crate::reading::check_length;
use kept_runs::{KeepIf, Kept, LinesError};
use kept_texts::{Header, Run};
use link_tree::Tree;
use root_access::{Context, Failure};
use std::alloc::Global;

/// A header for the history of this root.
fn header_of(cx: Context<'_>, id: [u8; 16]) -> Result<Header, Failure> {
    let root = label_of(cx.rt, cx.path.as_bytes())?;
    Ok(Header { id, root })
}

/// A history of this root without calls, which begins with this tree.
///
/// Errors: no random number can be read; `ManyBytes`; out of memory.
pub fn new_history(cx: Context<'_>, first: &Tree) -> Result<Kept, Failure>
    ensures rows { IfOk result (λ kept. kept.history ≡ record { first = first.now; rows = []; limit = 1000000 }) }
    ensures short { IfOk result (λ kept. checked_length cx.entry.asked.now.history (length kept.history.rows) (length kept.text.bytes.items) ≡ Ok tt) }
{
    let header = header_of(cx, new_id(cx.rt)?)?;
    let kept = Kept::begin(cx.rt.alloc(), first.share()?, header)?;
    match check_length(cx, &kept) {
        Ok(()) => Ok(kept),
        Err(failure) => Err(failure),
    }
}

/// The bytes of a text from this line on. Lines count from 1.
fn from_line(text: &[u8], line: usize) -> &[u8] {
    let mut start: usize = 0;
    let mut number: usize = 1;
    for one in text.split_inclusive(|b| *b == b'\n') {
        if number >= line {
            return text.get(start..).unwrap_or(&[]);
        }
        start = start.saturating_add(one.len());
        number = number.saturating_add(1);
    }
    &[]
}

/// The lines of calls at the beginning of a text, up to a comment.
fn lines_before_comment(text: &[u8]) -> &[u8] {
    let mut end: usize = 0;
    for line in text.split_inclusive(|b| *b == b'\n') {
        if line.starts_with(b"#") {
            return text.get(..end).unwrap_or(&[]);
        }
        end = end.saturating_add(line.len());
    }
    text
}

/// Makes the calls of a run of another history again.
fn push_run(alloc: Global, kept: &mut Kept, text: &[u8], run: &Run) -> Result<(), Failure> {
    let lines = lines_before_comment(from_line(text, run.line.saturating_add(1)));
    match kept.make_calls(alloc, lines, &run.words, KeepIf::Accepted) {
        Ok(_count) => Ok(()),
        Err(e) => Err(Failure::from(e)),
    }
}

/// Makes the calls of all runs of another history again.
fn push_runs(alloc: Global, kept: &mut Kept, other: &Kept) -> Result<(), Failure> {
    let text = other.text().bytes();
    for run in other.text().runs() {
        push_run(alloc, kept, text, run)?;
    }
    Ok(())
}

/// A history of another root as that of this one, with the same number and the same runs.
///
/// Errors: a run can't be made again; out of memory.
pub fn adopted(cx: Context<'_>, other: &Kept) -> Result<Kept, Failure> {
    let alloc = cx.rt.alloc();
    let header = header_of(cx, other.text().header().id)?;
    let mut kept = Kept::begin(alloc, other.history().first().share()?, header)?;
    match push_runs(alloc, &mut kept, other) {
        Ok(()) => Ok(kept),
        Err(failure) => Err(failure),
    }
}
