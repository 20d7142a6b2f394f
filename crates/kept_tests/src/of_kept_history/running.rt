//! Each way in which a run and a recovery end.
use super::answers::{push_state, push_steps};
use super::contents::Contents;
use super::failing::failing_calls;
use super::memory_disk::MemoryDisk;
use super::names::{NEW_TEXT, Names, Text};
use super::recovering::recover;
use super::trees::Trees;
use disk::{DiskError, Oddity, StepError};
use kept_history::{
    FinishError, RunError, acknowledged_runs_last, finish, recovery_mends,
    roots_are_always_at_rest, run, run_between, runs_are_promised, runs_are_whole,
    withdrawals_are_whole, withdrawn_runs_last, writes_are_whole,
};
use sample_rows::{Row, assert_rows, is};
use std::alloc::{AllocError, Global};
use std::test::Fail;
use tree_steps::steps_between;
use unit_name::ample;

const RUNS: &[u8] = b"\
    # between: a run of five steps on a root with the tree TWO. run: the same steps are handed\n\
    # in. run twice: each of them twice. Of the system calls those of ONE fail: `3`, that one;\n\
    # `3 7`, that one, and the other and all after it. The answer has the events that were done,\n\
    # by their letters, and what is there then.\n\
    between\t\told\tdone; phmmmmmsch; history new, next none, tree new; failed 0\n\
    run\t\told\tdone; phmmmmmsch; history new, next none, tree new; failed 0\n\
    # Refused: something else is at a path, or what is there is no entry, or a look fails.\n\
    between\t\tother\tstep 0: changed meanwhile; ; history old, next none, tree other; failed 0\n\
    between\t\tlast other\t\
        step 4: changed meanwhile; ; history old, next none, tree last other; failed 0\n\
    run\t\tnew\tstep 0: changed meanwhile; ; history old, next none, tree new; failed 0\n\
    between\t\todd old\t\
        step 0: neither a file nor a link; ; history old, next none, tree old; failed 0\n\
    between\t3\told\tstep 3: disk failure; ; history old, next none, tree old; failed 1\n\
    # Not promised: the new history is not written, or not synced, or not renamed.\n\
    between\t5\told\t\
        history not written: disk failure; ; history old, next none, tree old; failed 1\n\
    between\t6\told\t\
        history not written: disk failure; ; history old, next none, tree old; failed 1\n\
    run\t7\told\t\
        history not written: disk failure; ; history old, next none, tree old; failed 1\n\
    # Withdrawn: a step is not made.\n\
    between\t9\told\t\
        step 0: disk failure; phswh; history old, next none, tree old; failed 1\n\
    between\t11\told\t\
        step 0: disk failure; phswh; history old, next none, tree old; failed 1\n\
    between\t15\told\t\
        step 1: disk failure; phmmswh; history old, next none, tree old; failed 1\n\
    run\t20\told\t\
        step 3: disk failure; phmmmmmmswh; history old, next none, tree old; failed 1\n\
    run twice\t\told\t\
        step 5: changed meanwhile; phmmmmmmmmmmswh; history old, next none, tree \
        old; failed 0\n\
    # The file that was linked to its path is not removed under its first name: it is replaced by\n\
    # the next that is made in that directory, if there is one.\n\
    between\t12\told\tdone; phmmmmmsch; history new, next none, tree new; failed 0\n\
    # Unfinished: a sync or the last rename fails.\n\
    between\t8\told\t\
        promised, the next run finishes it: disk failure; p; history old, next new, \
        tree old; failed 1\n\
    between\t23\told\t\
        promised, the next run finishes it: disk failure; phmmmmm; history old, next \
        new, tree new; failed 1\n\
    between\t25\told\t\
        promised, the next run finishes it: disk failure; phmmmmm; history old, next \
        new, tree new; failed 1\n\
    run\t26\told\t\
        promised, the next run finishes it: disk failure; phmmmmms; history old, next \
        new, tree new; failed 1\n\
    run\t27\told\t\
        promised, the next run finishes it: disk failure; phmmmmmsc; history new, next \
        none, tree new; failed 1\n\
    # Half withdrawn: all fails after a step that is not made, or from later on.\n\
    between\t9 10\told\t\
        step 0: disk failure; promised, the next run finishes it: disk failure; phs; \
        history old, next new, tree old; failed 2\n\
    between\t9 11\told\t\
        step 0: disk failure; promised, the next run finishes it: disk failure; phsw; \
        history old, next none, tree old; failed 2\n\
    run\t19 20\told\t\
        step 3: disk failure; promised, the next run finishes it: disk failure; phmmm; \
        history old, next new, tree unknown; failed 2\n";

const FINISHES: &[u8] = b"\
    # finish: a run is promised, and the root has the tree TWO. The answer also has the steps\n\
    # that are not made, since somebody else has changed what is there.\n\
    finish\t\told\tdone, others':; hxmmmmmsch; history new, next none, tree new; failed 0\n\
    finish\t\thalf\tdone, others':; hxmmsch; history new, next none, tree new; failed 0\n\
    finish\t\tnew\tdone, others':; hxsch; history new, next none, tree new; failed 0\n\
    finish\t\tother\t\
        done, others': c-F dFF; hxmmmsch; history new, next none, tree other new; failed \
        0\n\
    finish\t\todd old\t\
        done, others': c-F c-L; hxmmmsch; history new, next none, tree unknown; failed 0\n\
    # A look fails, the first sync, a step, a sync of steps, the rename, the last sync.\n\
    finish\t0\told\tdisk failure; ; history old, next new, tree old; failed 1\n\
    finish\t5\told\tdisk failure; ; history old, next new, tree old; failed 1\n\
    finish\t6\told\tdisk failure; hx; history old, next new, tree old; failed 1\n\
    finish\t20\told\tdisk failure; hxmmmmm; history old, next new, tree new; failed 1\n\
    finish\t23\told\tdisk failure; hxmmmmms; history old, next new, tree new; failed 1\n\
    finish\t24\told\tdisk failure; hxmmmmmsc; history new, next none, tree new; failed 1\n\
    # recover: no run is promised.\n\
    recover\t\told\tdone, others':; h; history old, next none, tree old; failed 0\n\
    recover\t0\told\tdisk failure; ; history old, next none, tree old; failed 1\n";

/// A disk on which nothing has happened.
fn disk_of(
    alloc: Global,
    trees: &Trees,
    row: &Row,
    next: Option<Text>,
) -> Result<Box<MemoryDisk>, AllocError> {
    let (tree, odd) = match row.two.strip_prefix(b"odd ") {
        Some(word) => (trees.named(word), Some(Oddity::Directory)),
        None => (trees.named(&row.two), None),
    };
    let contents = Contents {
        names: Names {
            next,
            ..Names::AT_REST
        },
        tree: tree.share()?,
        leftovers: 0,
    };
    let mut disk = MemoryDisk::new(alloc, contents)?;
    disk.files.odd = odd;
    disk.files.failing = failing_calls(&row.one);
    Ok(disk)
}

pub(crate) fn is_memory_gone(error: RunError) -> bool {
    match error {
        RunError::Refused { step: _, why } => why == StepError::OutOfMemory,
        RunError::NotPromised(why) => why == DiskError::OutOfMemory,
        RunError::Withdrawn { step: _, why } => why == StepError::OutOfMemory,
        RunError::Unfinished(why) => why == DiskError::OutOfMemory,
        RunError::HalfWithdrawn { step: _, why, back } => {
            why == StepError::OutOfMemory || back == StepError::OutOfMemory
        }
    }
}

/// The words of an answer. If memory ran out, the row is asked again.
fn words_of(alloc: Global, answer: Result<(), RunError>) -> Result<Vec<u8>, AllocError> {
    match answer {
        Ok(()) => Vec::from_slice(alloc, b"done"),
        Err(error) if is_memory_gone(error) => Err(AllocError),
        Err(error) => Ok(format!(in alloc; "{error}")?.into_bytes()),
    }
}

fn run_answer(alloc: Global, trees: &Trees, row: &Row) -> Result<Vec<u8>, AllocError> {
    let mut disk = disk_of(alloc, trees, row, None)?;
    let result = if is(row, b"between") {
        run_between(alloc, &mut *disk, NEW_TEXT, &trees.old, &trees.new)
    } else {
        let mut steps = steps_between(alloc, &trees.old, &trees.new)?;
        if is(row, b"run twice") {
            let mut again = steps_between(alloc, &trees.old, &trees.new)?;
            steps.append(&mut again)?;
        }
        run(alloc, &mut *disk, NEW_TEXT, &steps)
    };
    let mut text = words_of(alloc, result)?;
    push_state(alloc, &disk, trees, &mut text)?;
    Ok(text)
}

#[test]
fn runs_end_in_each_way(rt: HostRuntime) -> Result<(), Fail> {
    let trees = ample!(Trees::new(rt.alloc()), AllocError)?;
    assert_rows(
        rt.alloc(),
        RUNS,
        |alloc, row| run_answer(alloc, &trees, row),
    )
}

fn is_memory_gone_in(error: FinishError) -> bool {
    match error {
        FinishError::DiskFailed(why) => why == DiskError::OutOfMemory,
        FinishError::NotMade(why) => why == StepError::OutOfMemory,
    }
}

fn finish_answer(alloc: Global, trees: &Trees, row: &Row) -> Result<Vec<u8>, AllocError> {
    let next = if is(row, b"recover") {
        None
    } else {
        Some(Text::New)
    };
    let mut disk = disk_of(alloc, trees, row, next)?;
    let result = if is(row, b"finish") {
        finish(alloc, &mut *disk, &trees.old, &trees.new)
    } else {
        recover(alloc, &mut disk, trees)
    };
    let mut text = Vec::new(alloc);
    match result {
        Ok(foreign) => {
            text.extend_from_slice(b"done, others':")?;
            push_steps(&mut text, &foreign)?;
        }
        Err(error) if is_memory_gone_in(error) => return Err(AllocError),
        Err(error) => text.extend_from_slice(format!(in alloc; "{error}")?.as_bytes())?,
    }
    push_state(alloc, &disk, trees, &mut text)?;
    Ok(text)
}

#[test]
fn recoveries_end_in_each_way(rt: HostRuntime) -> Result<(), Fail> {
    let trees = ample!(Trees::new(rt.alloc()), AllocError)?;
    assert_rows(
        rt.alloc(),
        FINISHES,
        |alloc, row| finish_answer(alloc, &trees, row),
    )
}

#[test]
fn laws_are_called(_rt: HostRuntime) -> Result<(), Fail> {
    runs_are_whole();
    writes_are_whole();
    withdrawals_are_whole();
    acknowledged_runs_last();
    withdrawn_runs_last();
    runs_are_promised();
    roots_are_always_at_rest();
    recovery_mends();
    Ok(())
}
