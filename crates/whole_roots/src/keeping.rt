//! `keep`: a history begins.

use disk::capture;
use kept_roots::{HistoryDirectory, HistoryFile, HistoryPlace, make_directory};
use link_tree::Tree;
use real_roots::RealDisk;
use root_histories::{
    Context, Failure, Kept, KeptRoot, Stop, Taken, after_nothing, captured_in, end, finish_before,
    has_history, has_history_in_root, is_of_nothing, new_history, paths_of, patience_of, place_of,
    read_kept, rows_text, set_aside, take_root, unless_of_text, with_history,
};
use std::alloc::{AllocError, Global};

/// Says where the history is.
fn note_place(cx: Context<'_>, root: &mut KeptRoot<'_>) -> Result<(), AllocError> {
    let path = root.disk.directory().shown_path();
    let line = format!(in cx.rt.alloc(); "the history is in {path}")?;
    root.notes.say(line.as_str())
}

/// Says what is lost to `undo`: the rows of the history so far, if it can be read.
fn note_lost(
    cx: Context<'_>,
    root: &mut KeptRoot<'_>,
    number: u32,
    rows: Option<usize>,
) -> Result<(), AllocError> {
    let alloc = cx.rt.alloc();
    let line = match rows {
        Some(rows) => {
            let rows = rows_text(alloc, rows)?;
            format!(in alloc;
                "{rows} can no longer be undone: the history so far is history.{number}"
            )?
        }
        None => format!(in alloc; "the history so far, which can't be read, is history.{number}")?,
    };
    root.notes.say(line.as_str())
}

/// Finishes a run that was cut short. Returns whether it can't be finished, since its history is at
/// fault.
fn finish_or_leave(cx: Context<'_>, root: &mut KeptRoot<'_>) -> Result<bool, Stop> {
    match finish_before(cx, root) {
        Ok(()) => Ok(false),
        Err(Stop::Failed(failure)) => {
            unless_of_text(failure)?;
            Ok(true)
        }
        Err(stop) => Err(stop),
    }
}

/// Says that a run which was cut short is not finished: a new history begins with the root as it
/// is.
fn warn_unfinished(root: &mut KeptRoot<'_>) -> Result<(), AllocError> {
    let line = "a run was promised that can't be finished: it was given up";
    root.notes.warn(line)
}

/// Withdraws the promise of a run that can't be finished.
fn withdraw(root: &mut KeptRoot<'_>) -> Result<(), Failure> {
    let directory = root.disk.directory();
    directory.withdraw()?;
    directory.sync()?;
    Ok(warn_unfinished(root)?)
}

/// How many rows the history so far has; `None` if its text is at fault.
fn rows_so_far(cx: Context<'_>, root: &mut KeptRoot<'_>) -> Result<Option<usize>, Failure> {
    match read_kept(cx, root) {
        Ok(kept) => Ok(Some(kept.history().rows().len())),
        Err(failure) => {
            unless_of_text(failure)?;
            Ok(None)
        }
    }
}

/// The root with a history, as it is.
fn kept_tree_of_today(cx: Context<'_>, root: &mut KeptRoot<'_>) -> Result<Tree, Stop> {
    let alloc = cx.rt.alloc();
    let paths = paths_of(alloc, &cx.asked.with)?;
    Ok(capture(alloc, &mut root.disk, &paths)?)
}

/// The text of another history, which begins with the root as it is.
fn text_of_another(cx: Context<'_>, root: &mut KeptRoot<'_>) -> Result<Vec<u8>, Stop> {
    match kept_tree_of_today(cx, root) {
        Ok(first) => Ok(text_of_tree(cx, &first)?),
        Err(stop) => Err(stop),
    }
}

/// Begins a history where only the promise of a run is left. Its text takes the place of the
/// promise first, so that one of the two files is always there.
fn begin_for_promise(root: &mut KeptRoot<'_>, text: &[u8]) -> Result<(), Failure> {
    warn_unfinished(root)?;
    let directory = root.disk.directory();
    directory.promise(text)?;
    directory.sync()?;
    directory.commit()?;
    match directory.sync() {
        Ok(()) => Ok(()),
        Err(trouble) => Err(Failure::Unsynced(trouble)),
    }
}

/// Lets another history begin with this text, and withdraws the promise of a run if one is left.
/// The history so far becomes `history.N`, and N is returned; `None` if it is gone.
fn replace(
    root: &mut KeptRoot<'_>,
    text: &[u8],
    is_promised: bool,
) -> Result<Option<u32>, Failure> {
    if !root.disk.directory().has(HistoryFile::Current)? {
        begin_for_promise(root, text)?;
        return Ok(None);
    }
    if is_promised {
        withdraw(root)?;
    }
    Ok(Some(set_aside(root, text)?))
}

/// Begins again on a root with a history.
fn keep_anew(cx: Context<'_>, root: &mut KeptRoot<'_>) -> Result<u8, Stop> {
    let is_promised = finish_or_leave(cx, root)?;
    let rows = rows_so_far(cx, root)?;
    let text = text_of_another(cx, root)?;
    if let Some(number) = replace(root, &text, is_promised)? {
        note_lost(cx, root, number, rows)?;
    }
    note_place(cx, root)?;
    Ok(0)
}

/// Begins a history in a directory that was made for it, unless another run has begun one there
/// since this one looked.
fn begin_in(cx: Context<'_>, root: &mut KeptRoot<'_>, text: &[u8]) -> Result<u8, Failure> {
    if has_history(root.disk.directory())? {
        return Err(Failure::HasHistory);
    }
    root.disk.directory().begin(text)?;
    note_place(cx, root)?;
    Ok(0)
}

/// The root as it is.
fn tree_of_today(cx: Context<'_>, disk: &mut RealDisk<'_>) -> Result<Tree, Failure> {
    let alloc = cx.rt.alloc();
    let paths = paths_of(alloc, &cx.asked.with)?;
    captured_in(alloc, disk, &paths)
}

fn copied_text(alloc: Global, kept: &Kept) -> Result<Vec<u8>, Failure> {
    Ok(Vec::from_slice(alloc, kept.text().bytes())?)
}

/// The text of a history that begins with a tree.
fn text_of_tree(cx: Context<'_>, first: &Tree) -> Result<Vec<u8>, Failure> {
    match new_history(cx, first) {
        Ok(kept) => copied_text(cx.rt.alloc(), &kept),
        Err(failure) => Err(failure),
    }
}

/// The text of a history that begins with the root as it is.
fn text_of_today(cx: Context<'_>, disk: &mut RealDisk<'_>) -> Result<Vec<u8>, Failure> {
    match tree_of_today(cx, disk) {
        Ok(first) => text_of_tree(cx, &first),
        Err(failure) => Err(failure),
    }
}

/// The directory for the history.
fn made_directory<'a>(
    cx: Context<'a>,
    disk: &mut RealDisk<'_>,
    place: &HistoryPlace,
) -> Result<HistoryDirectory<'a>, Failure> {
    match make_directory(cx.rt, disk, place, patience_of(cx.asked.wait)) {
        Ok(directory) => Ok(directory),
        Err(e) => Err(Failure::from(e)),
    }
}

/// Refuses a second history of a root: one in the root, and one that `--history` names.
fn refuse_second(cx: Context<'_>, disk: &mut RealDisk<'_>) -> Result<(), Failure> {
    if cx.asked.history.is_some() && has_history_in_root(cx.rt, disk)? {
        Err(Failure::HasHistoryInRoot)
    } else {
        Ok(())
    }
}

/// Locks a root, and its history if it has one at this place.
///
/// Error: `HasHistoryInRoot` if the root has another one.
fn take<'a>(cx: Context<'a>, place: &HistoryPlace) -> Result<Taken<'a>, Failure> {
    let mut disk = take_root(cx.rt, cx.asked, cx.root)?;
    match refuse_second(cx, &mut disk) {
        Ok(()) => with_history(cx, disk, place),
        Err(failure) => Err(failure),
    }
}

/// Begins the first history of a root.
fn keep_first(cx: Context<'_>, disk: RealDisk<'_>, place: &HistoryPlace) -> Result<u8, Failure> {
    let mut disk = disk;
    let text = text_of_today(cx, &mut disk)?;
    match made_directory(cx, &mut disk, place) {
        Ok(directory) => begin_first(cx, KeptRoot::new(cx, disk, directory), &text),
        Err(failure) => Err(after_nothing(&mut disk, failure)),
    }
}

/// Begins the first history of a root, in its directory.
fn begin_first(cx: Context<'_>, root: KeptRoot<'_>, text: &[u8]) -> Result<u8, Failure> {
    let mut root = root;
    let begun = match begin_in(cx, &mut root, text) {
        Ok(status) => Ok(status),
        Err(failure) => Err(Stop::Failed(take_back(&mut root, failure))),
    };
    end(cx, root, begun)
}

/// Removes a directory that was made for a history that could not be begun.
fn take_back(root: &mut KeptRoot<'_>, failure: Failure) -> Failure {
    match root.disk.directory().take_back() {
        Err(trouble) if is_of_nothing(&failure) => Failure::NotSettledBack(trouble),
        _ => failure,
    }
}

/// Begins a history, or with `--anew` another one.
///
/// Errors: `HasHistory` if there is one, without `--anew`; `HasHistoryInRoot`; `ManyBytes`; the
/// root can't be captured; the system's own.
pub fn keep(cx: Context<'_>, anew: bool) -> Result<u8, Failure> {
    let place = place_of(cx)?;
    match take(cx, &place)? {
        Taken::Plain(disk) => keep_first(cx, disk, &place),
        Taken::Kept(_) if !anew => Err(Failure::HasHistory),
        Taken::Kept(root) => {
            let mut root = root;
            let ended = keep_anew(cx, &mut root);
            end(cx, root, ended)
        }
    }
}
