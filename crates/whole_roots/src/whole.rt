//! Commands on a whole root: its inventory, how it differs, and making it as an inventory says.
ghost use Rattle.std.specs.Prelude.{◌≡◌, false, IfErr, IfOk};
ghost use Rattle.link_tree.specs.Trees.{after_changes};
ghost use Rattle.tree_steps.specs.Steps.{slot_changes_between};
ghost use Rattle.whole_roots.specs.Slots.{is_forbidden, IsForbidden};

use crate::json::{applied_text, changes_text};
use byte_streams::ToWrite;
use link_tree::{Change, Tree, write_inventory};
use real_roots::RealDisk;
use root_histories::{
    Context, Done, Failure, Taken, capture_failure, capture_for, captured_in, disk_after_recovery,
    forbidden, make_tree, note_promise, paths_of, print, push_everything, read_tree, shown_lines,
    take, take_root,
};
use root_runs::first_of_vendor;
use root_words::Asked;
use std::alloc::{AllocError, Global};
use std::{fs, io};
use tree_steps::slot_changes_between;
use unit_script::push_changes;

/// Captures the slots of a root and the paths of `--with`, or all that is in its directories.
fn captured_whole(
    alloc: Global,
    asked: &Asked,
    disk: &mut RealDisk<'_>,
    all: bool,
) -> Result<Tree, Failure> {
    let mut paths = paths_of(alloc, &asked.with)?;
    if all && let Err(e) = push_everything(alloc, disk, &mut paths) {
        return Err(capture_failure(alloc, disk, e));
    }
    captured_in(alloc, disk, &paths)
}

/// Takes a root that is only looked at. If a run on it was cut short, that is said.
fn take_to_look<'a>(
    rt: &'a HostRuntime,
    asked: &Asked,
    root: &str,
) -> Result<RealDisk<'a>, Failure> {
    let mut disk = take_root(rt, asked, root)?;
    note_promise(rt, &mut disk, asked.output.json)?;
    Ok(disk)
}

/// Writes the inventory of a root.
///
/// Errors: the root can't be captured; standard output fails.
pub fn write_capture(
    rt: &HostRuntime,
    asked: &Asked,
    root: &str,
    all: bool,
) -> Result<u8, Failure> {
    let alloc = rt.alloc();
    let mut disk = take_to_look(rt, asked, root)?;
    let tree = captured_whole(alloc, asked, &mut disk, all)?;
    match write_inventory(alloc, &tree, &mut ToWrite::new(io::writer(rt))) {
        Ok(()) => Ok(0),
        Err(_) => Err(Failure::Output),
    }
}

fn is_directory(rt: &HostRuntime, name: &str) -> bool {
    match fs::metadata(rt, name) {
        Ok(found) => found.is_dir(),
        Err(_) => false,
    }
}

/// A path that doesn't depend on the working directory, which is a root's once it is taken.
fn absolute(rt: &HostRuntime, path: &str) -> Result<String, Failure> {
    match fs::canonicalize(rt, path) {
        Ok(path) => Ok(path.into_string()),
        Err(e) => Err(Failure::File(String::from_str(rt.alloc(), path)?, e)),
    }
}

/// The changes from a tree to that of another root, which is taken.
fn changes_to_taken(
    alloc: Global,
    asked: &Asked,
    tree: &Tree,
    other: &mut RealDisk<'_>,
) -> Result<Vec<Change>, Failure> {
    let other = capture_for(alloc, asked, other)?;
    Ok(slot_changes_between(alloc, tree, &other)?)
}

/// The changes from the tree of a root, which is taken, to that of another root.
fn changes_from_taken(
    rt: &HostRuntime,
    asked: &Asked,
    disk: &mut RealDisk<'_>,
    other: &str,
) -> Result<Vec<Change>, Failure> {
    let mut other = take_root(rt, asked, other)?;
    let tree = capture_for(rt.alloc(), asked, disk)?;
    changes_to_taken(rt.alloc(), asked, &tree, &mut other)
}

/// The changes from the tree of a root to that of another root. Both are found before one is
/// entered, since a path may be relative.
fn changes_to_root(
    rt: &HostRuntime,
    asked: &Asked,
    root: &str,
    other: &str,
) -> Result<Vec<Change>, Failure> {
    let other = absolute(rt, other)?;
    let mut disk = take_to_look(rt, asked, root)?;
    changes_from_taken(rt, asked, &mut disk, other.as_str())
}

/// The changes from the tree of a root to another tree.
fn changes_to_tree(
    rt: &HostRuntime,
    asked: &Asked,
    root: &str,
    other: &Tree,
) -> Result<Vec<Change>, Failure> {
    let mut disk = take_to_look(rt, asked, root)?;
    let tree = capture_for(rt.alloc(), asked, &mut disk)?;
    Ok(slot_changes_between(rt.alloc(), &tree, other)?)
}

/// The changes from the tree of a root to that of another root, or of an inventory.
fn changes_to(
    rt: &HostRuntime,
    asked: &Asked,
    root: &str,
    other: &str,
) -> Result<Vec<Change>, Failure> {
    if is_directory(rt, other) {
        return changes_to_root(rt, asked, root, other);
    }
    let other = read_tree(rt, Some(other))?;
    changes_to_tree(rt, asked, root, &other)
}

/// How a root differs, as text or as JSON.
fn differences_text(alloc: Global, asked: &Asked, changes: &[Change]) -> Result<Vec<u8>, Failure> {
    if asked.output.json {
        Ok(changes_text(alloc, changes)?)
    } else {
        text_of(alloc, changes)
    }
}

/// Reports at which slots another root, or an inventory, differs from a root: status 1 if there is
/// such a slot.
///
/// Errors: one of the two can't be captured, or the inventory can't be read; standard output fails.
pub fn report_differences(
    rt: &HostRuntime,
    asked: &Asked,
    root: &str,
    other: &str,
) -> Result<u8, Failure> {
    let changes = changes_to(rt, asked, root, other)?;
    let text = differences_text(rt.alloc(), asked, &changes)?;
    print(rt, &text, Done::Nothing)?;
    Ok(if changes.is_empty() { 0 } else { 1 })
}

fn text_of(alloc: Global, changes: &[Change]) -> Result<Vec<u8>, Failure> {
    let mut text = Vec::new(alloc);
    push_changes(&mut text, changes)?;
    Ok(shown_lines(alloc, &text)?)
}

/// How the slots of a root must change to be as an inventory has them.
///
/// Error: something of the vendor's would change.
fn slot_changes(
    alloc: Global,
    asked: &Asked,
    captured: &Tree,
    inventory: &Tree,
) -> Result<Vec<Change>, Failure>
    ensures changes { IfOk result (λ changes. changes.items ≡ slot_changes_between captured.now inventory.now) }
    ensures allowed { IfOk result (λ changes. is_forbidden asked.now.how.vendor changes.items ≡ false) }
    ensures forbidden { IfErr result IsForbidden }
{
    let changes = slot_changes_between(alloc, captured, inventory)?;
    let vendors = first_of_vendor(&changes);
    if vendors.is_some() && !asked.how.vendor {
        return Err(forbidden(alloc, vendors));
    }
    Ok(changes)
}

/// What an `apply` prints: nothing if the run must be quiet.
fn applied(alloc: Global, asked: &Asked, changes: &[Change]) -> Result<Vec<u8>, Failure> {
    if asked.output.json {
        Ok(applied_text(alloc, changes, asked.how.dry_run)?)
    } else if asked.output.quiet {
        Ok(Vec::new(alloc))
    } else {
        text_of(alloc, changes)
    }
}

/// A tree with the slots of an inventory.
fn with_slots_of(alloc: Global, captured: &Tree, inventory: &Tree) -> Result<Tree, AllocError>
    ensures { IfOk result (λ tree. tree ≡ after_changes (slot_changes_between captured.now inventory.now) captured.now) }
{
    let changes = slot_changes_between(alloc, captured, inventory)?;
    captured.with_changes(&changes)
}

/// Makes the slots of a root, from which this tree was captured, as an inventory has them.
fn make_all(
    alloc: Global,
    disk: RealDisk<'_>,
    captured: &Tree,
    inventory: &Tree,
) -> Result<(), Failure> {
    let tree = with_slots_of(alloc, captured, inventory)?;
    make_tree(alloc, disk, captured, &tree)
}

/// Makes the changes, or only reports them. The text is made first, so that only writing it can
/// fail after the changes.
fn make_or_report(
    cx: Context<'_>,
    disk: RealDisk<'_>,
    captured: &Tree,
    inventory: &Tree,
) -> Result<u8, Failure> {
    let alloc = cx.rt.alloc();
    let changes = slot_changes(alloc, cx.asked, captured, inventory)?;
    let text = applied(alloc, cx.asked, &changes)?;
    let done = if cx.asked.how.dry_run {
        Done::Nothing
    } else {
        make_all(alloc, disk, captured, inventory)?;
        Done::Changes
    };
    print(cx.rt, &text, done)?;
    Ok(0)
}

/// Makes the slots of a root as an inventory has them.
fn make_slots(cx: Context<'_>, disk: RealDisk<'_>, inventory: &Tree) -> Result<u8, Failure> {
    let mut disk = disk;
    let alloc = cx.rt.alloc();
    let captured = capture_for(alloc, cx.asked, &mut disk)?;
    make_or_report(cx, disk, &captured, inventory)
}

/// The files of a root. If it has a history, a run that was cut short is finished first; the
/// history takes what is changed now as done by others.
fn disk_of(cx: Context<'_>) -> Result<RealDisk<'_>, Failure> {
    match take(cx)? {
        Taken::Plain(disk) => Ok(disk),
        Taken::Kept(root) => disk_after_recovery(cx, root),
    }
}

/// Makes the slots of a root as an inventory has them, all or none.
///
/// Errors: the inventory can't be read; the root can't be captured, changed, or brought to the
/// disk; something of the vendor's may not be changed; a run that was cut short can't be finished;
/// standard output fails.
pub fn apply_inventory(cx: Context<'_>, inventory: Option<&str>) -> Result<u8, Failure> {
    let inventory = read_tree(cx.rt, inventory)?;
    make_slots(cx, disk_of(cx)?, &inventory)
}
