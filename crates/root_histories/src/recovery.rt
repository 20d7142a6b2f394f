//! Finishing a run that was cut short.

use crate::ending::{Stop, disk_after, end};
use crate::finding::{Taken, note_promise_of, take};
use crate::kept_root::KeptRoot;
use crate::promise::{Promise, is_before_calls, promise_of};
use crate::reading::{is_of_text, kept_of, most_bytes, read_kept, shown};
use kept_roots::HistoryFile;
use kept_runs::{Kept, recover};
use link_tree::Change;
use real_roots::RealDisk;
use root_access::{Context, Failure};
use std::alloc::{AllocError, Global};

/// What is said before the failure if the history of a promised run can't be read.
const UNREADABLE: &str = "history.next, with the run that is promised, can't be read";

/// The text that a run which was cut short was about to write. Before it is read, the directory is
/// synced. What runs left that were cut short before their promise was removed when it was locked.
fn promised_text(cx: Context<'_>, root: &mut KeptRoot<'_>) -> Result<Option<Vec<u8>>, Failure> {
    let most = most_bytes(cx);
    let directory = root.disk.directory();
    directory.sync()?;
    Ok(directory.read(HistoryFile::Next, most)?)
}

/// The history that a run was about to write. If its text is at fault, that is said first, since
/// the failure itself names lines of "history" alone.
fn read_new(cx: Context<'_>, root: &mut KeptRoot<'_>, next: Vec<u8>) -> Result<Kept, Failure> {
    match kept_of(cx.rt.alloc(), next) {
        Ok(new) => Ok(new),
        Err(failure) => {
            if is_of_text(&failure) {
                root.notes.warn(UNREADABLE)?;
            }
            Err(failure)
        }
    }
}

/// The promise of a run, with the history that it goes on from.
fn read_promise(
    cx: Context<'_>,
    root: &mut KeptRoot<'_>,
    next: Vec<u8>,
) -> Result<Promise, Failure> {
    let new = read_new(cx, root, next)?;
    match read_kept(cx, root) {
        Ok(old) => promise_of(old, new),
        Err(failure) => Err(failure),
    }
}

/// `1 row` or `N rows`.
pub fn rows_text(alloc: Global, count: usize) -> Result<String, AllocError> {
    if count == 1 {
        String::from_str(alloc, "1 row")
    } else {
        format!(in alloc; "{count} rows")
    }
}

/// Says that the history was written, with these rows of others.
fn note_written(cx: Context<'_>, root: &mut KeptRoot<'_>, count: usize) -> Result<(), AllocError> {
    if count == 0 {
        return root.notes.say("finished writing the history");
    }
    let alloc = cx.rt.alloc();
    let rows = rows_text(alloc, count)?;
    let line = format!(in alloc; "finished writing the history: {rows} by outside")?;
    root.notes.say(line.as_str())
}

/// Says which run was finished, of this number of rows.
fn note_run(
    cx: Context<'_>,
    root: &mut KeptRoot<'_>,
    promise: &Promise,
    count: usize,
) -> Result<(), AllocError> {
    let alloc = cx.rt.alloc();
    let rows = rows_text(alloc, count)?;
    match promise.new.text().runs().last() {
        Some(run) => {
            let time = shown(alloc, run.words.time.text())?;
            let login = shown(alloc, run.words.login.text())?;
            let line = format!(in alloc; "finished a run of {time} by {login}: {rows}")?;
            root.notes.say(line.as_str())
        }
        None => Ok(()),
    }
}

/// Says what was finished.
fn note_finished(
    cx: Context<'_>,
    root: &mut KeptRoot<'_>,
    promise: &Promise,
) -> Result<(), AllocError> {
    let before = promise.old.history().rows().len();
    let count = promise.new.history().rows().len().saturating_sub(before);
    if is_before_calls(promise) {
        note_written(cx, root, count)
    } else {
        note_run(cx, root, promise, count)
    }
}

/// Says which paths were left as others made them.
fn note_foreign(
    cx: Context<'_>,
    root: &mut KeptRoot<'_>,
    foreign: &[Change],
) -> Result<(), AllocError> {
    let alloc = cx.rt.alloc();
    for change in foreign {
        let path = shown(alloc, change.path.text())?;
        let line = format!(in alloc; "{path}: changed by others: left")?;
        root.notes.warn(line.as_str())?;
    }
    Ok(())
}

/// Finishes a run, and says so. If it has no steps, what others have changed since stays as it is.
fn finish(cx: Context<'_>, root: &mut KeptRoot<'_>, promise: &Promise) -> Result<(), Stop> {
    let from = if is_before_calls(promise) {
        &promise.new
    } else {
        &promise.old
    };
    match recover(cx.rt.alloc(), &mut root.disk, from, &promise.new) {
        Ok(foreign) => {
            note_finished(cx, root, promise)?;
            Ok(note_foreign(cx, root, &foreign)?)
        }
        Err(e) => Err(Stop::Unfinished(e)),
    }
}

/// Finishes a run that was cut short, if there is one.
pub fn finish_promised(cx: Context<'_>, root: &mut KeptRoot<'_>) -> Result<(), Stop> {
    match promised_text(cx, root)? {
        Some(next) => {
            let promise = read_promise(cx, root, next)?;
            finish(cx, root, &promise)
        }
        None => Ok(()),
    }
}

/// Finishes a run that was cut short, before something else is done: if only the last sync fails,
/// that isn't done.
///
/// Errors: a history can't be read; a step can't be made; `NotBegun` if all was done, and may not
/// last.
pub fn finish_before(cx: Context<'_>, root: &mut KeptRoot<'_>) -> Result<(), Stop> {
    match finish_promised(cx, root) {
        Err(Stop::Unfinished(_)) if root.disk.is_ending() => Err(Stop::NotBegun),
        finished => finished,
    }
}

/// What a run that may change the root does first: it finishes one that was cut short. A dry run
/// only says that there is one.
///
/// Errors: those of `finish_before`.
pub fn begin_run(cx: Context<'_>, root: &mut KeptRoot<'_>) -> Result<(), Stop> {
    if cx.asked.how.dry_run {
        return Ok(note_promise_of(root)?);
    }
    finish_before(cx, root)
}

/// Finishes a run that was cut short, and returns the root's disk.
///
/// Errors: those of `begin_run`, as the failure of this run.
pub fn disk_after_recovery<'a>(
    cx: Context<'_>,
    root: KeptRoot<'a>,
) -> Result<RealDisk<'a>, Failure> {
    let mut root = root;
    let begun = begin_run(cx, &mut root);
    disk_after(cx, root, begun)
}

fn recovered(cx: Context<'_>, root: &mut KeptRoot<'_>) -> Result<u8, Stop> {
    if cx.asked.how.dry_run {
        note_promise_of(root)?;
    } else {
        finish_promised(cx, root)?;
    }
    Ok(0)
}

/// Finishes a run that was cut short, and does nothing else.
///
/// Errors: `NoHistory` if the root has none; a history can't be read; the run can't be finished, or
/// may not last.
pub fn recover_root(cx: Context<'_>) -> Result<u8, Failure> {
    match take(cx)? {
        Taken::Plain(_) => Err(Failure::NoHistory),
        Taken::Kept(root) => {
            let mut root = root;
            let ended = recovered(cx, &mut root);
            end(cx, root, ended)
        }
    }
}
