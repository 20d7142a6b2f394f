//! Runs and recoveries that are cut short at a system call: killed, or by a power failure.
use super::answers::{End, end_of};
use super::contents::Contents;
use super::failing::Failing;
use super::memory_disk::MemoryDisk;
use super::names::{NEW_TEXT, Names};
use super::recovering::recover;
use super::running::is_memory_gone;
use super::trees::Trees;
use disk::{DiskError, StepError};
use kept_history::{FinishError, RunError, run, run_between};
use link_tree::Tree;
use std::alloc::{AllocError, Global};

/// What a failure leaves of what was not synced.
#[derive(Clone, Copy)]
pub(crate) enum Loss {
    /// The program is killed: nothing is lost.
    Killed,
    /// The power fails. What is kept is a choice of this number.
    PowerFailed(u32),
}

/// At which system call a program is cut short, and what is lost then.
#[derive(Clone, Copy)]
pub(crate) struct Cut {
    pub(crate) call: u32,
    pub(crate) loss: Loss,
}

impl Cut {
    pub(crate) const FIRST: Cut = Cut {
        call: 0,
        loss: Loss::Killed,
    };
}

/// A run that is cut short.
#[derive(Clone, Copy)]
pub(crate) struct Way {
    /// Whether the root is already as the new history says, so that the run only writes.
    pub(crate) is_write: bool,
    /// The call that fails by itself, so that the run is withdrawn.
    pub(crate) fails: u32,
    /// At most this number of ways is tried for each call: if there are more, a choice of them.
    pub(crate) most_ways: u32,
}

/// What became of a program that was cut short.
#[derive(Clone, Copy)]
pub(crate) struct Stopped {
    /// Whether it was still running.
    pub(crate) was_running: bool,
    /// In how many ways a power failure could leave what was not synced then.
    pub(crate) ways: u32,
}

/// The bits of the changes that are kept: of few ways all of them, of many a choice by a number.
fn kept_bits(choice: u32, ways: u32, most_ways: u32) -> u32 {
    if ways <= most_ways {
        choice
    } else {
        choice.wrapping_add(1).wrapping_mul(2_654_435_761) / 8
    }
}

/// Cuts a program short that has made its calls.
fn cut_off(disk: &mut MemoryDisk, cut: Cut, most_ways: u32) -> Result<Stopped, AllocError> {
    let ways = disk.files.ways();
    let was_running = disk.files.calls > cut.call;
    if let Loss::PowerFailed(choice) = cut.loss {
        disk.files.lose(kept_bits(choice, ways, most_ways))?;
    }
    disk.files.failing = Failing::NEVER;
    disk.files.calls = 0;
    Ok(Stopped { was_running, ways })
}

/// The tree of the root before a run.
fn tree_before(trees: &Trees, way: Way) -> &Tree {
    if way.is_write { &trees.new } else { &trees.old }
}

/// A disk with the old history, at rest. Its looks aren't counted: cut short at a look, a program
/// has done what it has done at the next call.
pub(crate) fn disk_before(
    alloc: Global,
    trees: &Trees,
    way: Way,
) -> Result<Box<MemoryDisk>, AllocError> {
    let contents = Contents {
        names: Names::AT_REST,
        tree: tree_before(trees, way).share()?,
        leftovers: 0,
    };
    let mut disk = MemoryDisk::new(alloc, contents)?;
    disk.files.counts_looks = false;
    Ok(disk)
}

/// What a run answered, or `None` if memory ran out.
fn run_result(
    alloc: Global,
    disk: &mut MemoryDisk,
    trees: &Trees,
    way: Way,
) -> Result<Result<(), RunError>, AllocError> {
    let result = if way.is_write {
        run(alloc, disk, NEW_TEXT, &[])
    } else {
        run_between(alloc, disk, NEW_TEXT, &trees.old, &trees.new)
    };
    if let Err(error) = result
        && is_memory_gone(error)
    {
        return Err(AllocError);
    }
    Ok(result)
}

/// What a run left, and what it answered if it was not cut short.
#[derive(Drop)]
pub(crate) struct Left {
    pub(crate) disk: Box<MemoryDisk>,
    pub(crate) stopped: Stopped,
    result: Result<(), RunError>,
}

/// Makes a run that is cut short.
pub(crate) fn run_cut(
    alloc: Global,
    trees: &Trees,
    way: Way,
    cut: Cut,
) -> Result<Left, AllocError> {
    let mut disk = disk_before(alloc, trees, way)?;
    disk.files.failing = Failing {
        once: way.fails,
        from: cut.call,
    };
    let result = run_result(alloc, &mut disk, trees, way)?;
    let stopped = cut_off(&mut disk, cut, way.most_ways)?;
    Ok(Left {
        disk,
        stopped,
        result,
    })
}

/// Recovers a disk. Whether that is done, without a step of somebody else.
fn recover_whole(alloc: Global, disk: &mut MemoryDisk, trees: &Trees) -> Result<bool, AllocError> {
    match recover(alloc, disk, trees) {
        Ok(foreign) => Ok(foreign.is_empty()),
        Err(FinishError::DiskFailed(DiskError::OutOfMemory)) => Err(AllocError),
        Err(FinishError::NotMade(StepError::OutOfMemory)) => Err(AllocError),
        Err(_) => Ok(false),
    }
}

/// Recovers a disk, and is cut short.
pub(crate) fn recover_cut(
    alloc: Global,
    disk: &mut MemoryDisk,
    trees: &Trees,
    way: Way,
    cut: Cut,
) -> Result<Stopped, AllocError> {
    disk.files.failing = Failing::from(cut.call);
    let _whole = recover_whole(alloc, disk, trees)?;
    cut_off(disk, cut, way.most_ways)
}

/// How a run ends that was cut short, once it is recovered and the power has failed again. A run
/// that returned before must end as it answered.
pub(crate) fn end_after(
    alloc: Global,
    trees: &Trees,
    way: Way,
    left: &mut Left,
) -> Result<End, AllocError> {
    let is_whole = recover_whole(alloc, &mut left.disk, trees)?;
    left.disk.files.lose(0)?;
    let end = end_of(&left.disk, tree_before(trees, way), trees);
    let is_as_answered = left.stopped.was_running || is_as_answered(left.result, end);
    if is_whole && is_as_answered {
        Ok(end)
    } else {
        Ok(End::Half)
    }
}

fn is_as_answered(answer: Result<(), RunError>, end: End) -> bool {
    match answer {
        Ok(()) => end == End::New,
        Err(RunError::Refused { .. }) => end == End::Old,
        Err(RunError::NotPromised(_)) => end == End::Old,
        Err(RunError::Withdrawn { .. }) => end == End::Old,
        Err(RunError::Unfinished(_)) => true,
        Err(RunError::HalfWithdrawn { .. }) => true,
    }
}
