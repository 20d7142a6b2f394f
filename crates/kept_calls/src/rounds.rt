//! Calls on a root with a history. They are made on all that its slots have, and on what else they
//! look at, which is captured round after round.
ghost use Rattle.std.specs.Prelude.{◌≡◌, false, length, if◌then◌else◌, Ok, IfOk};
ghost use Rattle.root_histories.specs.Readings.{checked_length};
ghost use Rattle.kept_calls.specs.Runs as runs;

use crate::fitting::{Turn, fit};
use crate::lines::Wanted;
use crate::paths::Paths;
use disk::capture;
use root_histories::{
    Context, Failure, KeepIf, KeptRoot, Stop, check_length, paths_of, read_kept, words_of_run,
};
use std::alloc::AllocError;

/// After this number of rounds a run is refused: each but the last finds a path more.
const MAX_ROUNDS: u32 = 65_537;

/// A turn with the history that is on the disk.
fn new_turn(cx: Context<'_>, root: &mut KeptRoot<'_>) -> Result<Turn, Failure>
    ensures { IfOk result (λ turn. (turn.is_new ≡ false) × (turn.before ≡ 0)) }
{
    let kept = read_kept(cx, root)?;
    match kept.history().tree().share() {
        Ok(tree) => Ok(Turn {
            kept,
            is_new: false,
            before: 0,
            tree,
        }),
        Err(_) => Err(Failure::OutOfMemory),
    }
}

/// Captures the root, and fits the history to it.
fn fit_to_root(
    cx: Context<'_>,
    root: &mut KeptRoot<'_>,
    paths: &mut Paths,
    turn: &mut Turn,
) -> Result<(), Stop> {
    let also = paths.with_tree(cx.rt.alloc(), turn.kept.history().tree())?;
    let captured = capture(cx.rt.alloc(), &mut root.disk, &also)?;
    fit(cx, root, turn, &captured)
}

/// When a run is kept.
fn keep_if(cx: Context<'_>) -> KeepIf
    ensures { result ≡ runs.keep_if cx.entry.asked.now.how.keep_going }
{
    if cx.asked.how.keep_going {
        KeepIf::Accepted
    } else {
        KeepIf::NoneRefused
    }
}

/// Makes the calls.
fn make_calls(
    cx: Context<'_>,
    root: &mut KeptRoot<'_>,
    wanted: &Wanted<'_>,
    turn: &mut Turn,
) -> Result<(), Failure> {
    turn.before = turn.kept.history().rows().len();
    turn.tree = turn.kept.history().tree().share()?;
    let lines = wanted.lines(cx, root, turn)?;
    let words = words_of_run(cx.rt, false)?;
    match turn
        .kept
        .make_calls(cx.rt.alloc(), &lines, &words, keep_if(cx))
    {
        Ok(_count) => Ok(()),
        Err(e) => Err(Failure::from(e)),
    }
}

/// One round.
fn make_turn(
    cx: Context<'_>,
    root: &mut KeptRoot<'_>,
    wanted: &Wanted<'_>,
    paths: &mut Paths,
) -> Result<Turn, Stop> {
    root.notes.clear();
    let mut turn = new_turn(cx, root)?;
    match fill_turn(cx, root, wanted, paths, &mut turn) {
        Ok(()) => Ok(turn),
        Err(stop) => Err(stop),
    }
}

fn fill_turn(
    cx: Context<'_>,
    root: &mut KeptRoot<'_>,
    wanted: &Wanted<'_>,
    paths: &mut Paths,
    turn: &mut Turn,
) -> Result<(), Stop> {
    fit_to_root(cx, root, paths, turn)?;
    make_calls(cx, root, wanted, turn)?;
    Ok(check_written(cx, turn)?)
}

/// Refuses a run whose history no later run could read. One that isn't kept has no text.
fn check_written(cx: Context<'_>, turn: &Turn) -> Result<(), Failure>
    ensures { result ≡ (if turn.now.kept.is_written then checked_length cx.entry.asked.now.history (length turn.now.kept.history.rows) (length turn.now.kept.text.bytes.items) else Ok tt) }
{
    if turn.kept.is_written() {
        check_length(cx, &turn.kept)
    } else {
        Ok(())
    }
}

/// Adds the paths at which the calls of a turn looked, and that were not captured. Returns whether
/// there are any.
fn add_looked_at(paths: &mut Paths, turn: &Turn) -> Result<bool, AllocError> {
    let rows = turn.kept.history().rows().get(turn.before..).unwrap_or(&[]);
    paths.add_looked_at(&turn.tree, rows)
}

/// The paths of `--with`, and those that calls name.
fn first_paths(cx: Context<'_>, wanted: &Wanted<'_>) -> Result<Paths, Failure> {
    let alloc = cx.rt.alloc();
    let mut paths = Paths::none(alloc);
    for path in &paths_of(alloc, &cx.asked.with)? {
        let _is_new = paths.add(path)?;
    }
    paths.add_named(alloc, wanted.named())?;
    Ok(paths)
}

/// Makes calls on a root with a history, in memory. What others did since the last run is written to
/// the history, unless this is a dry run.
pub fn made_in_rounds(
    cx: Context<'_>,
    root: &mut KeptRoot<'_>,
    wanted: &Wanted<'_>,
) -> Result<Turn, Stop> {
    let mut paths = first_paths(cx, wanted)?;
    for _ in 0..MAX_ROUNDS {
        let turn = make_turn(cx, root, wanted, &mut paths)?;
        if !add_looked_at(&mut paths, &turn)? {
            return Ok(turn);
        }
    }
    Err(Stop::Failed(Failure::TooMany))
}
