//! Runs and recoveries that are cut short at each of their system calls.
use super::answers::End;
use super::cutting::{Cut, Loss, Stopped, Way, end_after, recover_cut, run_cut};
use super::failing::failing_calls;
use super::trees::Trees;
use sample_rows::{Row, assert_rows, is};
use std::alloc::{AllocError, Global};
use std::test::Fail;

/// More than the cuts of a run or of a recovery.
const MOST_CUTS: u32 = 100_000;

const ROWS: &[u8] = b"\
    # run: a run of five steps, of which the call ONE fails by itself. It is killed at each of\n\
    # its system calls but looks, and the power fails there: of what was not synced any part may\n\
    # be lost. write: a run without steps. once: then it is recovered. twice: that is cut short\n\
    # too, at each of its calls, and recovered again. The answer says how often each of these\n\
    # ends with the old history and the old tree, with the new ones, or half done.\n\
    run\t\tonce\t19 kills, 136 power failures: 10 old, 145 new, 0 half\n\
    write\t\tonce\t7 kills, 13 power failures: 10 old, 10 new, 0 half\n\
    run\t5\tonce\t10 kills, 30 power failures: 20 old, 20 new, 0 half\n\
    run\t8\tonce\t15 kills, 104 power failures: 20 old, 99 new, 0 half\n\
    run\t12\tonce\t25 kills, 252 power failures: 14 old, 263 new, 0 half\n\
    run\t\ttwice\t525 kills, 875 power failures: 51 old, 1349 new, 0 half\n\
    write\t\ttwice\t65 kills, 78 power failures: 51 old, 92 new, 0 half\n\
    run\t8\ttwice\t461 kills, 803 power failures: 79 old, 1185 new, 0 half\n";

/// What became of what was tried.
#[derive(Clone, Copy)]
struct Tally {
    killed: u64,
    powerless: u64,
    old: u64,
    new: u64,
    half: u64,
}

impl Tally {
    const NONE: Tally = Tally {
        killed: 0,
        powerless: 0,
        old: 0,
        new: 0,
        half: 0,
    };

    fn add(&mut self, loss: Loss, end: End) {
        match loss {
            Loss::Killed => self.killed = self.killed.saturating_add(1),
            Loss::PowerFailed(_) => self.powerless = self.powerless.saturating_add(1),
        }
        match end {
            End::Old => self.old = self.old.saturating_add(1),
            End::New => self.new = self.new.saturating_add(1),
            End::Half => self.half = self.half.saturating_add(1),
        }
    }
}

/// What follows a loss at one call: the next loss there, or none.
fn next_loss(loss: Loss, stopped: Stopped, most_ways: u32) -> Option<Loss> {
    let choice = match loss {
        Loss::Killed => 0,
        Loss::PowerFailed(choice) => choice.saturating_add(1),
    };
    if choice < stopped.ways.min(most_ways) {
        Some(Loss::PowerFailed(choice))
    } else {
        None
    }
}

/// The next cut of a program, after what became of this one: one of those after its last call is
/// the last.
fn next_cut(cut: Cut, stopped: Stopped, most_ways: u32) -> Option<Cut> {
    match next_loss(cut.loss, stopped, most_ways) {
        Some(loss) => Some(Cut { loss, ..cut }),
        None if stopped.was_running => Some(Cut {
            call: cut.call.saturating_add(1),
            loss: Loss::Killed,
        }),
        None => None,
    }
}

/// A run is cut short, and then recovered.
fn try_once(
    alloc: Global,
    trees: &Trees,
    way: Way,
    cut: Cut,
    tally: &mut Tally,
) -> Result<Stopped, AllocError> {
    let mut left = run_cut(alloc, trees, way, cut)?;
    let end = end_after(alloc, trees, way, &mut left)?;
    tally.add(cut.loss, end);
    Ok(left.stopped)
}

/// The same, and its recovery is cut short at each of its calls too.
fn try_twice(
    alloc: Global,
    trees: &Trees,
    way: Way,
    first: Cut,
    tally: &mut Tally,
) -> Result<Stopped, AllocError> {
    let mut second = Cut::FIRST;
    for _ in 0..MOST_CUTS {
        let mut left = run_cut(alloc, trees, way, first)?;
        let stopped = recover_cut(alloc, &mut left.disk, trees, way, second)?;
        let end = end_after(alloc, trees, way, &mut left)?;
        tally.add(second.loss, end);
        match next_cut(second, stopped, way.most_ways) {
            Some(next) => second = next,
            None => return Ok(left.stopped),
        }
    }
    Err(AllocError)
}

/// Cuts a run short at each of its calls, in each way.
fn try_all(alloc: Global, way: Way, is_twice: bool) -> Result<Tally, AllocError> {
    let trees = Trees::new(alloc)?;
    let mut tally = Tally::NONE;
    let mut cut = Cut::FIRST;
    for _ in 0..MOST_CUTS {
        let stopped = if is_twice {
            try_twice(alloc, &trees, way, cut, &mut tally)?
        } else {
            try_once(alloc, &trees, way, cut, &mut tally)?
        };
        match next_cut(cut, stopped, way.most_ways) {
            Some(next) => cut = next,
            None => return Ok(tally),
        }
    }
    Err(AllocError)
}

fn answer(alloc: Global, row: &Row) -> Result<Vec<u8>, AllocError> {
    let is_twice = row.two.as_slice() == b"twice".as_slice();
    let way = Way {
        is_write: is(row, b"write"),
        fails: failing_calls(&row.one).once,
        most_ways: if is_twice { 2 } else { 16 },
    };
    let tally = try_all(alloc, way, is_twice)?;
    let (killed, powerless) = (tally.killed, tally.powerless);
    let (old, new, half) = (tally.old, tally.new, tally.half);
    let text = format!(in alloc;
        "{killed} kills, {powerless} power failures: {old} old, {new} new, {half} half"
    )?;
    Ok(text.into_bytes())
}

#[test]
fn nothing_is_left_half_done(rt: HostRuntime) -> Result<(), Fail> {
    assert_rows(rt.alloc(), ROWS, answer)
}
