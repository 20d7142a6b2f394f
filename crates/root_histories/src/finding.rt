//! Whether a root has a history, and where.
ghost use Rattle.std.specs.Prelude.{IfOk};
ghost use Rattle.root_histories.specs.Readings.{IsTakenBy};

use crate::kept_root::KeptRoot;
use kept_roots::{HistoryDirectory, HistoryFile, HistoryPlace, open_directory};
use real_roots::{RealDisk, Trouble, at};
use root_access::{
    Context, Failure, hold_of, patience_of, print_messages, push_message, take_root,
};
use std::alloc::AllocError;
use std::{fs, io};

/// The history's directory, beneath a root.
const IN_ROOT: &str = "/var/lib/unitroot";

const HISTORY: &str = "history";

/// The history that a run is about to write.
const PROMISE: &str = "history.next";

/// What is said if a run was cut short.
const PROMISED: &str = "a run is promised: the next run that changes something finishes it";

/// A root that this run has locked.
#[derive(Drop)]
pub enum Taken<'a> {
    Plain(RealDisk<'a>),
    Kept(KeptRoot<'a>),
}

/// Where the history is. The root must not be locked yet, since a relative path is resolved in the
/// working directory.
pub fn place_of(cx: Context<'_>) -> Result<HistoryPlace, Failure> {
    match &cx.asked.history {
        Some(directory) => Ok(HistoryPlace::outside(cx.rt, cx.root, directory.as_str())?),
        None => Ok(HistoryPlace::InRoot),
    }
}

/// Whether there is a history in a directory, or one is promised.
///
/// Errors: the system's own.
pub fn has_history(directory: &HistoryDirectory<'_>) -> Result<bool, Trouble> {
    Ok(directory.has(HistoryFile::Current)? || directory.has(HistoryFile::Next)?)
}

/// The directory of the history of a root, if it has a history.
pub fn directory_of<'a>(
    cx: Context<'a>,
    disk: &mut RealDisk<'a>,
    place: &HistoryPlace,
) -> Result<Option<HistoryDirectory<'a>>, Failure> {
    let (hold, patience) = (hold_of(cx.asked), patience_of(cx.asked.wait));
    match open_directory(cx.rt, disk, place, hold, patience) {
        Ok(Some(directory)) if has_history(&directory)? => Ok(Some(directory)),
        Ok(_) => Ok(None),
        Err(e) => Err(Failure::from(e)),
    }
}

/// A root that is locked, with its history, which is locked too, if it has one at this place.
///
/// Errors: the history can't be locked, or can't be looked at.
pub fn with_history<'a>(
    cx: Context<'a>,
    disk: RealDisk<'a>,
    place: &HistoryPlace,
) -> Result<Taken<'a>, Failure> {
    let mut disk = disk;
    match directory_of(cx, &mut disk, place) {
        Ok(Some(directory)) => Ok(Taken::Kept(KeptRoot::new(cx, disk, directory))),
        Ok(None) => Ok(Taken::Plain(disk)),
        Err(failure) => Err(failure),
    }
}

/// Locks a root, and its history if it has one.
///
/// Errors: the root or its history can't be locked, or can't be looked at; `NoHistory` if
/// `--history` names a directory without one.
pub fn take(cx: Context<'_>) -> Result<Taken<'_>, Failure>
    ensures { IfOk result (IsTakenBy cx.entry.asked.now.history) }
{
    let place = place_of(cx)?;
    let disk = take_root(cx.rt, cx.asked, cx.root)?;
    match with_history(cx, disk, &place)? {
        Taken::Plain(_) if cx.asked.history.is_some() => Err(Failure::NoHistory),
        Taken::Plain(disk) => Ok(Taken::Plain(disk)),
        Taken::Kept(root) => Ok(Taken::Kept(root)),
    }
}

/// Whether a file of the history in a root exists.
fn is_in_root(rt: &HostRuntime, disk: &mut RealDisk<'_>, name: &str) -> Result<bool, Trouble> {
    let is_there = match disk.go_to(IN_ROOT, false) {
        Ok(true) => exists(rt, name),
        Ok(false) => Ok(false),
        Err(trouble) => Err(trouble),
    };
    disk.leave();
    is_there
}

/// Whether the working directory has a file of this name, or anything else.
fn exists(rt: &HostRuntime, name: &str) -> Result<bool, Trouble> {
    match fs::symlink_metadata(rt, name) {
        Ok(_) => Ok(true),
        Err(e) if e.kind() == io::ErrorKind::NotFound => Ok(false),
        Err(e) => at(rt.alloc(), IN_ROOT, Err(e)),
    }
}

/// Whether a root has a history of its own, wherever `--history` is.
///
/// Errors: the system's own.
pub fn has_history_in_root(rt: &HostRuntime, disk: &mut RealDisk<'_>) -> Result<bool, Trouble> {
    Ok(is_in_root(rt, disk, HISTORY)? || is_in_root(rt, disk, PROMISE)?)
}

/// Says on standard error if a run on a root that is only looked at was cut short. If that can't be
/// seen, it says nothing: others may look at a root, too.
pub fn note_promise(
    rt: &HostRuntime,
    disk: &mut RealDisk<'_>,
    json: bool,
) -> Result<(), AllocError> {
    if is_in_root(rt, disk, PROMISE).unwrap_or(false) {
        let mut text = Vec::new(rt.alloc());
        push_message(rt.alloc(), &mut text, PROMISED.as_bytes(), 0, json)?;
        print_messages(rt, &text);
    }
    Ok(())
}

/// The same for what only looks at a root with a history, or is a dry run on one.
pub fn note_promise_of(root: &mut KeptRoot<'_>) -> Result<(), Failure> {
    if root.disk.directory().has(HistoryFile::Next)? {
        root.notes.warn(PROMISED)?;
    }
    Ok(())
}
