//! Which rows of a history made what is at paths of a root that is only looked at.
ghost use Rattle.std.specs.Prelude.{◌≡◌, true};
ghost use Rattle.std.specs.List.{list_any};
ghost use Rattle.std.specs.Str.{bytes_eq};
ghost use Rattle.std.specs.FinMap as map;
ghost use Rattle.whole_roots.specs.Makers.{IsPassedOver};

use history::{History, Operator};
use link_tree::{PathError, Tree, TreePath};
use real_roots::RealDisk;
use root_histories::{
    Context, Failure, Kept, KeptRoot, directory_of, note_promise_of, place_of, print_messages,
    push_message, read_kept, take_root,
};
use row_makers::maker_of;
use std::alloc::{AllocError, Global};
use unit_lists::UnitStatus;
use unit_script::Action;

/// The row that made what is at a path.
#[derive(Drop)]
pub struct MadeBy {
    pub path: TreePath,
    pub row: u32,
    pub operator: Operator,
}

/// Whether the same is at a path of two trees.
fn are_same_at(one: &Tree, other: &Tree, path: &TreePath) -> bool
    ensures yes { result ≡ true → map.get one.now path.now ≡ map.get other.now path.now }
    ensures no { map.get one.now path.now ≡ map.get other.now path.now → result ≡ true }
{
    match (one.get(path), other.get(path)) {
        (Some(one), Some(other)) => one.same(other),
        (None, None) => true,
        (Some(_), None) | (None, Some(_)) => false,
    }
}

/// Whether a path has its row already: a link that leads nowhere is a unit's path, and one of its
/// links too.
fn has_maker(makers: &[MadeBy], path: &TreePath) -> bool
    ensures { result ≡ list_any (λ made. bytes_eq made.path path.now) makers.now }
{
    makers.iter().any(|made| made.path.text() == path.text())
}

/// Adds the row that made what is at a path of the root, if one did. What others changed since the
/// last run has no row yet.
fn push_maker(
    makers: &mut Vec<MadeBy>,
    history: &History<Action>,
    tree: &Tree,
    path: &TreePath,
) -> Result<(), AllocError> {
    if has_maker(makers, path) || !are_same_at(history.tree(), tree, path) {
        return Ok(());
    }
    let Some(row) = maker_of(history, path) else {
        return Ok(());
    };
    match history.rows().get((row as usize).saturating_sub(1)) {
        Some(made) => Ok(makers.push(MadeBy {
            path: path.copy()?,
            row,
            operator: made.operator,
        })?),
        None => Ok(()),
    }
}

fn push_makers(
    makers: &mut Vec<MadeBy>,
    history: &History<Action>,
    tree: &Tree,
    paths: &[TreePath],
) -> Result<(), AllocError> {
    for path in paths {
        push_maker(makers, history, tree, path)?;
    }
    Ok(())
}

/// The rows that made what a status shows: the unit's file or what masks it, and its links.
pub fn makers_of(
    alloc: Global,
    history: &History<Action>,
    tree: &Tree,
    status: &UnitStatus,
) -> Result<Vec<MadeBy>, AllocError> {
    let mut makers = Vec::new(alloc);
    match TreePath::parse(alloc, status.path()) {
        Ok(path) => push_maker(&mut makers, history, tree, &path)?,
        Err(PathError::BadPath) => {}
        Err(PathError::OutOfMemory) => return Err(AllocError),
    }
    push_makers(&mut makers, history, tree, &status.etc)?;
    push_makers(&mut makers, history, tree, &status.run)?;
    Ok(makers)
}

/// Says why no rows are named. If `--history` names the history, it must be readable.
fn check_passed_over(cx: Context<'_>, failure: Failure) -> Result<(), Failure>
    ensures { IsPassedOver cx.entry.asked.now.history failure result }
{
    if cx.asked.history.is_some() {
        return Err(failure);
    }
    let alloc = cx.rt.alloc();
    let line = format!(in alloc; "{failure}: no rows are named")?;
    let mut text = Vec::new(alloc);
    push_message(
        alloc,
        &mut text,
        line.as_str().as_bytes(),
        0,
        cx.asked.output.json,
    )?;
    print_messages(cx.rt, &text);
    Ok(())
}

/// Reads the history of a root that is only looked at.
fn read_history(cx: Context<'_>, root: &mut KeptRoot<'_>) -> Result<Kept, Failure> {
    note_promise_of(root)?;
    root.notes.print(cx.rt);
    read_kept(cx, root)
}

/// The history of a root, if it can be read.
fn history_of(cx: Context<'_>, root: &mut KeptRoot<'_>) -> Result<Option<Kept>, Failure> {
    match read_history(cx, root) {
        Ok(kept) => Ok(Some(kept)),
        Err(failure) => {
            check_passed_over(cx, failure)?;
            Ok(None)
        }
    }
}

/// Takes a root that is only looked at, with its history, if it has one that can be read.
pub fn look_at_root(cx: Context<'_>) -> Result<(RealDisk<'_>, Option<Kept>), Failure> {
    let place = place_of(cx)?;
    let mut disk = take_root(cx.rt, cx.asked, cx.root)?;
    match directory_of(cx, &mut disk, &place) {
        Ok(Some(directory)) => {
            let mut root = KeptRoot::new(cx, disk, directory);
            let kept = history_of(cx, &mut root)?;
            Ok((root.disk.into_disk(), kept))
        }
        Ok(None) if cx.asked.history.is_some() => Err(Failure::NoHistory),
        Ok(None) => Ok((disk, None)),
        Err(failure) => {
            check_passed_over(cx, failure)?;
            Ok((disk, None))
        }
    }
}
