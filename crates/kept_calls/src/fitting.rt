//! Fitting a history to a root: what others did since the last run, and what is at no slot.
ghost use Rattle.std.specs.Prelude.{◌≡◌, is_some, IfOk};
ghost use Rattle.std.specs.List.{list_all};
ghost use Rattle.link_tree.specs.Differences.{changes_between};
ghost use Rattle.unit_paths.specs.Slots.{is_slot};

use crate::committing::write_to;
use link_tree::{Slot, Tree};
use root_histories::{
    Context, Failure, Kept, KeptRoot, OthersError, Stop, adopted, check_length, is_of_other_root,
    new_history, rows_text, set_aside, shown_path, words_of_run,
};
use std::alloc::{AllocError, Global};
use tree_steps::{are_same, changes_between};

/// More rows of others in one run are refused without `--adopt`: it may be another root.
const MOST_OF_OTHERS: usize = 1_000;

/// A history in the midst of a run.
#[derive(Drop)]
pub struct Turn {
    pub kept: Kept,
    /// Whether it differs from the one on the disk.
    pub is_new: bool,
    /// How many rows it has before the calls of this run.
    pub before: usize,
    /// Its tree before the calls of this run.
    pub tree: Tree,
}

/// Whether two trees are equal but for slots.
fn are_same_elsewhere(alloc: Global, one: &Tree, other: &Tree) -> Result<bool, AllocError>
    ensures { IfOk result (λ same. same ≡ list_all (λ change. is_slot change.path) (changes_between one.now other.now)) }
{
    let changes = changes_between(alloc, one, other)?;
    Ok(
        changes
            .iter()
            .all(|change| Slot::of(&change.path).is_some()),
    )
}

/// Writes the path of this root into the header of a history of another root.
fn adopt(cx: Context<'_>, turn: &mut Turn) -> Result<(), Failure> {
    if is_of_other_root(cx, &turn.kept) {
        turn.kept = adopted(cx, &turn.kept)?;
        turn.is_new = true;
    }
    Ok(())
}

/// Gives the first tree what is at no slot of the root. Returns whether all rows are the same on it.
fn rebase(alloc: Global, turn: &mut Turn, captured: &Tree) -> Result<bool, Failure> {
    if are_same_elsewhere(alloc, turn.kept.history().tree(), captured)? {
        return Ok(true);
    }
    match turn.kept.rebased(alloc, captured)? {
        Some(kept) => {
            turn.kept = kept;
            turn.is_new = true;
            Ok(true)
        }
        None => Ok(false),
    }
}

/// Says which rows are those of others.
fn note_others(
    cx: Context<'_>,
    root: &mut KeptRoot<'_>,
    first: usize,
    count: usize,
) -> Result<(), AllocError> {
    let alloc = cx.rt.alloc();
    let last = first.saturating_add(count);
    let first = first.saturating_add(1);
    let rows = if count == 1 {
        format!(in alloc; "row {first}")?
    } else {
        format!(in alloc; "rows {first} to {last}")?
    };
    let line = format!(in alloc; "others changed the root since the last run: {rows} by outside")?;
    root.notes.say(line.as_str())
}

/// Takes in what others did. Returns why no rows can say it, if none can.
fn take_in(
    cx: Context<'_>,
    root: &mut KeptRoot<'_>,
    turn: &mut Turn,
    captured: &Tree,
) -> Result<Option<String>, Failure> {
    let alloc = cx.rt.alloc();
    let words = words_of_run(cx.rt, true)?;
    let before = turn.kept.history().rows().len();
    match turn.kept.take_in_others(alloc, captured, &words) {
        Ok(0) => Ok(None),
        Ok(_) if !turn.kept.is_written() => {
            let why = "no lines can say what others did";
            Ok(Some(String::from_str(alloc, why)?))
        }
        Ok(count) if count > MOST_OF_OTHERS && !cx.asked.adopt => Err(Failure::ManyOthers(count)),
        Ok(count) => {
            turn.is_new = true;
            note_others(cx, root, before, count)?;
            Ok(None)
        }
        Err(OthersError::NotWritable(path)) => {
            let path = shown_path(alloc, &path)?;
            Ok(Some(format!(in alloc; "{path}: no line can say what others did")?))
        }
        Err(OthersError::TooManyLines) => Err(Failure::ManyLines),
        Err(OthersError::Full) => Err(Failure::Full),
        Err(OthersError::OutOfMemory) => Err(Failure::OutOfMemory),
    }
}

/// Fits the history to what was captured. Returns why it can't go on, if it can't.
fn fit_rows(
    cx: Context<'_>,
    root: &mut KeptRoot<'_>,
    turn: &mut Turn,
    captured: &Tree,
) -> Result<Option<String>, Failure> {
    let alloc = cx.rt.alloc();
    if are_same(turn.kept.history().tree(), captured) {
        return Ok(None);
    }
    if !rebase(alloc, turn, captured)? {
        let why = "what a row looked at outside of the slots has changed";
        return Ok(Some(String::from_str(alloc, why)?));
    }
    take_in(cx, root, turn, captured)
}

/// Says that a new history begins.
fn note_anew(
    cx: Context<'_>,
    root: &mut KeptRoot<'_>,
    why: &str,
    rows: usize,
    number: Option<u32>,
) -> Result<(), AllocError> {
    let alloc = cx.rt.alloc();
    let rows = rows_text(alloc, rows)?;
    let line = match number {
        Some(number) => {
            let lost = format!(in alloc;
                "history.{number} has {rows} that can't be undone any more"
            )?;
            format!(in alloc; "{why}: a new history begins, and {lost}")?
        }
        None => format!(in alloc; "{why}: a new history would begin, without {rows}")?,
    };
    root.notes.warn(line.as_str())
}

/// Begins a new history with what was captured.
fn begin_anew(
    cx: Context<'_>,
    root: &mut KeptRoot<'_>,
    turn: &mut Turn,
    captured: &Tree,
    why: &str,
) -> Result<(), Failure> {
    let rows = turn.kept.history().rows().len();
    turn.kept = new_history(cx, captured)?;
    turn.is_new = false;
    let number = if cx.asked.how.dry_run {
        None
    } else {
        Some(set_aside_first(root, turn.kept.text().bytes())?)
    };
    Ok(note_anew(cx, root, why, rows, number)?)
}

/// Sets the history so far aside, before calls are made: if that may not last, none is made.
fn set_aside_first(root: &mut KeptRoot<'_>, text: &[u8]) -> Result<u32, Failure> {
    match set_aside(root, text) {
        Err(Failure::Unsynced(trouble)) => Err(Failure::Root(trouble)),
        number => number,
    }
}

/// Writes the history as it was fitted, with no steps, since the root is already as it says.
fn write_fitted(cx: Context<'_>, root: &mut KeptRoot<'_>, turn: &mut Turn) -> Result<(), Stop> {
    if turn.is_new {
        check_length(cx, &turn.kept)?;
        write_to(cx.rt.alloc(), root, &turn.kept)?;
        turn.is_new = false;
    }
    Ok(())
}

/// Fits the history of a turn to what was captured, and writes it unless this is a dry run.
pub fn fit(
    cx: Context<'_>,
    root: &mut KeptRoot<'_>,
    turn: &mut Turn,
    captured: &Tree,
) -> Result<(), Stop> {
    adopt(cx, turn)?;
    if let Some(why) = fit_rows(cx, root, turn, captured)? {
        begin_anew(cx, root, turn, captured, why.as_str())?;
    }
    if !cx.asked.how.dry_run {
        write_fitted(cx, root, turn)?;
        root.notes.print(cx.rt);
    }
    Ok(())
}
