//! Whole runs: rows of others, calls, a commit that is cut short, and its recovery.
use super::memory_root::MemoryRoot;
use super::samples::{begun, entries};
use crate::words::{TIME, words};
use kept_runs::{KeepIf, Kept, KeptError, LinesError, commit, commit_others, recover};
use link_tree::Tree;
use std::alloc::{AllocError, Global};
use std::test::Fail;
use tree_steps::are_same;
use unit_name::ample;
use unit_script::Reason;

const FIRST: &[u8] =
    b"L\t/etc/systemd/system/a.service\t/opt/a.service\nL\t/opt/b.service\t/opt/c\n";

/// The first tree, after somebody else has removed a link and has put another at no slot.
const TODAY: &[u8] = b"L\t/opt/b.service\t/opt/d\n";

const LINES: &[u8] = b"anna place /etc/systemd/system/b.service file\n# x\n\nbob mask c.service\n";

/// Reads the text of a history.
fn read(alloc: Global, text: &[u8]) -> Result<Box<Kept>, AllocError> {
    match Kept::read(alloc, Vec::from_slice(alloc, text)?, 1) {
        Ok(kept) => Ok(Box::new(alloc, kept)?),
        Err(_) => Err(AllocError),
    }
}

/// A history with rows of others and of calls.
fn with_runs(alloc: Global, first: &Tree, today: &Tree) -> Result<Box<Kept>, AllocError> {
    let mut kept = begun(alloc, first)?;
    let words = words(alloc, TIME, b"anna")?;
    match kept.take_in_others(alloc, today, &words) {
        Ok(_count) => {}
        Err(_) => return Err(AllocError),
    }
    match kept.make_calls(alloc, LINES, &words, KeepIf::NoneRefused) {
        Ok(_count) => Ok(kept),
        Err(_) => Err(AllocError),
    }
}

/// Whether the root is at rest with the text and the tree of this history.
fn is_at_rest(root: &MemoryRoot, kept: &Kept) -> bool {
    root.next.is_none()
        && root.history.as_slice() == kept.text().bytes()
        && are_same(&root.tree, kept.history().tree())
}

/// Whether no other run than that to the new history is promised.
fn may_be_promised(root: &MemoryRoot, new: &Kept) -> bool {
    match &root.next {
        Some(text) => text.as_slice() == new.text().bytes(),
        None => true,
    }
}

/// Recovers a root in which the run from the old history to the new one may be promised: whether it
/// then is at rest with one of them.
fn recovered(
    alloc: Global,
    root: &mut MemoryRoot,
    old: &Kept,
    new: &Kept,
) -> Result<bool, AllocError> {
    if !may_be_promised(root, new) {
        return Ok(false);
    }
    if root.next.is_some() && recover(alloc, root, old, new).is_err() {
        return Err(AllocError);
    }
    Ok(is_at_rest(root, old) || is_at_rest(root, new))
}

/// Whether the root is at rest after a commit that is cut short after so many events, and its
/// recovery.
fn is_whole_after(alloc: Global, fuel: usize, old: &Kept, new: &Kept) -> Result<bool, AllocError> {
    let first = old.history().tree();
    let mut root = MemoryRoot::new(alloc, first, old.text().bytes())?;
    root.fuel = fuel;
    let _cut = commit(alloc, &mut *root, first, new);
    root.fuel = 1_000;
    recovered(alloc, &mut root, old, new)
}

/// The first number of events after which a commit is cut short and recovery doesn't leave the root
/// at rest, up to 40.
fn first_half(alloc: Global) -> Result<Option<usize>, AllocError> {
    let first = entries(alloc, FIRST)?;
    let old = begun(alloc, &first)?;
    let new = with_runs(alloc, &first, &first)?;
    for fuel in 0..40 {
        if !is_whole_after(alloc, fuel, &old, &new)? {
            return Ok(Some(fuel));
        }
    }
    Ok(None)
}

#[test]
fn no_commit_leaves_a_half(rt: HostRuntime) -> Result<(), Fail> {
    assert_eq!(rt; ample!(first_half(rt.alloc()), AllocError)?, None);
    Ok(())
}

/// Whether the text of the root is read as a history that is at rest with the root's tree.
fn is_read_again(alloc: Global, root: &MemoryRoot) -> Result<bool, AllocError> {
    let kept = read(alloc, &root.history)?;
    Ok(is_at_rest(root, &kept))
}

/// Takes in what others did, and writes it.
fn commit_rows_of_others(
    alloc: Global,
    root: &mut MemoryRoot,
    kept: &mut Kept,
    today: &Tree,
) -> Result<(), AllocError> {
    let words = words(alloc, TIME, b"anna")?;
    if kept.take_in_others(alloc, today, &words).is_err()
        || commit_others(alloc, root, kept).is_err()
    {
        return Err(AllocError);
    }
    Ok(())
}

/// Makes the calls of `LINES`, and commits their run.
fn commit_calls(
    alloc: Global,
    root: &mut MemoryRoot,
    kept: &mut Kept,
    today: &Tree,
) -> Result<(), AllocError> {
    let words = words(alloc, TIME, b"anna")?;
    let made = kept.make_calls(alloc, LINES, &words, KeepIf::Accepted);
    if made.is_err() || commit(alloc, root, today, kept).is_err() {
        return Err(AllocError);
    }
    Ok(())
}

/// Others' rows are committed, and then a run: whether each is kept and is read again.
fn committed(alloc: Global) -> Result<(bool, bool, usize), AllocError> {
    let first = entries(alloc, FIRST)?;
    let gone = entries(alloc, b"L\t/opt/b.service\t/opt/c\n")?;
    let mut kept = begun(alloc, &first)?;
    let mut root = MemoryRoot::new(alloc, &gone, kept.text().bytes())?;
    commit_rows_of_others(alloc, &mut root, &mut kept, &gone)?;
    let others = is_read_again(alloc, &root)?;
    commit_calls(alloc, &mut root, &mut kept, &gone)?;
    let run = is_read_again(alloc, &root)? && kept.is_written();
    Ok((others, run, kept.history().rows().len()))
}

#[test]
fn runs_are_committed(rt: HostRuntime) -> Result<(), Fail> {
    assert_eq!(rt; ample!(committed(rt.alloc()), AllocError)?, (true, true, 3));
    Ok(())
}

/// The rows that these lines add, and whether they are in the text.
fn made_once(
    alloc: Global,
    lines: &[u8],
    keep_if: KeepIf,
) -> Result<(Result<usize, LinesError>, bool), AllocError> {
    let first = entries(alloc, FIRST)?;
    let mut kept = begun(alloc, &first)?;
    let words = words(alloc, TIME, b"anna")?;
    let made = kept.make_calls(alloc, lines, &words, keep_if);
    if made == Err(LinesError::OutOfMemory) {
        return Err(AllocError);
    }
    let again = read(alloc, kept.text().bytes())?;
    let same = again.history().rows().len() == kept.history().rows().len();
    Ok((made, kept.is_written() && same))
}

/// The same, again if a growth was refused.
fn made(
    alloc: Global,
    lines: &[u8],
    keep_if: KeepIf,
) -> Result<(Result<usize, LinesError>, bool), AllocError> {
    ample!(made_once(alloc, lines, keep_if), AllocError)
}

#[test]
fn runs_are_kept_if_they_should_be(rt: HostRuntime) -> Result<(), Fail> {
    let alloc = rt.alloc();
    assert_eq!(rt; made(alloc, LINES, KeepIf::NoneRefused)?, (Ok(2), true));
    assert_eq!(rt; made(alloc, b"", KeepIf::Accepted)?, (Ok(0), false));
    assert_eq!(rt;
        made(alloc, b"anna undo 7\n", KeepIf::Accepted)?,
        (Ok(1), false)
    );
    let both = b"anna mask a.service\nanna mask d.service";
    assert_eq!(rt; made(alloc, both, KeepIf::Accepted)?, (Ok(2), true));
    let refused = b"anna mask d.service\nanna undo 7\n";
    assert_eq!(rt; made(alloc, refused, KeepIf::Accepted)?, (Ok(2), true));
    assert_eq!(rt; made(alloc, refused, KeepIf::NoneRefused)?, (Ok(2), false));
    let bad = made(alloc, b"anna mask d.service\nanna frob\n", KeepIf::Accepted)?;
    assert_eq!(rt; bad, (Err(LinesError::Bad(2, Reason::UnknownVerb)), true));
    Ok(())
}

/// Whether a history is rebased on what is there today, and how many entries it begins with.
fn rebased(alloc: Global) -> Result<Option<usize>, AllocError> {
    let first = entries(alloc, FIRST)?;
    let kept = with_runs(alloc, &first, &first)?;
    let today = entries(alloc, TODAY)?;
    match kept.rebased(alloc, &today)? {
        Some(other) => Ok(Some(other.history().first().len())),
        None => Ok(None),
    }
}

#[test]
fn histories_are_rebased(rt: HostRuntime) -> Result<(), Fail> {
    assert_eq!(rt; ample!(rebased(rt.alloc()), AllocError)?, Some(2));
    Ok(())
}

/// Why a text of other rules isn't read.
fn of_other_rules(alloc: Global) -> Result<Option<KeptError>, AllocError> {
    let first = entries(alloc, FIRST)?;
    let kept = with_runs(alloc, &first, &first)?;
    let text = Vec::from_slice(alloc, kept.text().bytes())?;
    match Kept::read(alloc, text, 2) {
        Ok(_kept) => Ok(None),
        Err(KeptError::OutOfMemory) => Err(AllocError),
        Err(fault) => Ok(Some(fault)),
    }
}

#[test]
fn other_rules_are_refused(rt: HostRuntime) -> Result<(), Fail> {
    let expected = Some(KeptError::RulesDiffer { run: 1, rules: 1 });
    let found = ample!(of_other_rules(rt.alloc()), AllocError)?;
    assert_eq!(rt; found, expected);
    Ok(())
}
