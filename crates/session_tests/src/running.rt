//! Runs of sessions in threads of their own, whose result doesn't depend on which comes first.

use crate::scripts::{Open, Ran, asks, operators, push_run, works};
use link_tree::Tree;
use sample_rows::{Row, assert_rows};
use sample_steps::is;
use sessions::{Gate, run_desk, run_sessions};
use std::alloc::{AllocError, Global};
use std::sync::Wait;
use std::test::Fail;
use std::thread::Threads;

/// Works that are run, and what results from the run. Operators who are fed, their asks, and what
/// results from these.
const ROWS: &[u8] = b"\
    run\talice put:a put:a undo:1\t\tlogs:1 alice:ok alice:exists:a alice:undid:1\n\
    run\talice put:a undo:1 redo:1 redo:1\t\t\
        logs:1 alice:ok alice:undid:1 alice:redid:1 alice:not-undone\n\
    run\talice / bob put:b\t\tlogs:2 bob:ok\n\
    run\talice put:a / bob / alice\t\tan-operator-twice\n\
    run\talice / bob / c / d / e / f / g / h / i / j / k / l / m / n / o / p / alice put:a\t\t\
        too-many-sessions\n\
    feed\talice bob\tbob:put:a bob:put:a bob:remove:a\tlogs:2 bob:ok bob:exists:a bob:ok\n\
    feed\talice bob\tbob:put:a bob:undo:1 bob:redo:1\tlogs:2 bob:ok bob:undid:1 bob:redid:1\n\
    feed\talice bob alice\talice:put:a\tan-operator-twice\n\
    feed\talice bob c d e f g h i j k l m n o p alice\talice:put:a\ttoo-many-sessions\n\
    ";

/// Runs works on an empty tree.
pub(crate) fn ran<R: Threads + Wait + Sync, G: Gate + Sync>(
    rt: &R,
    alloc: Global,
    script: &[u8],
    gate: &G,
) -> Result<Box<Ran>, AllocError> {
    let works = works(alloc, script)?;
    let ran = run_sessions(rt, alloc, Tree::empty(alloc)?, works, gate);
    Ok(Box::new(alloc, ran)?)
}

/// What results from a run of works.
pub(crate) fn text_of_run<R: Threads + Wait + Sync, G: Gate + Sync>(
    rt: &R,
    alloc: Global,
    script: &[u8],
    gate: &G,
) -> Result<Vec<u8>, AllocError> {
    let mut out = Vec::new(alloc);
    push_run(&mut out, &*ran(rt, alloc, script, gate)?)?;
    Ok(out)
}

/// Which operators are fed, their names; the asks of a script, and how many times.
pub(crate) type Feed<'a> = (&'a [u8], &'a [u8], usize);

/// Feeds operators, on an empty tree.
pub(crate) fn fed<R: Threads + Wait + Sync, G: Gate + Sync>(
    rt: &R,
    alloc: Global,
    (names, script, times): Feed<'_>,
    gate: &G,
) -> Result<Box<Ran>, AllocError> {
    let operators = operators(alloc, names)?;
    let asks = asks(alloc, script, times)?;
    if !asks.are_of(operators.as_slice()) {
        return Err(AllocError);
    }
    let ran = run_desk(rt, alloc, Tree::empty(alloc)?, operators, asks, gate);
    Ok(Box::new(alloc, ran)?)
}

/// What results from feeding operators.
pub(crate) fn text_of_feed<R: Threads + Wait + Sync, G: Gate + Sync>(
    rt: &R,
    alloc: Global,
    feed: Feed<'_>,
    gate: &G,
) -> Result<Vec<u8>, AllocError> {
    let mut out = Vec::new(alloc);
    push_run(&mut out, &*fed(rt, alloc, feed, gate)?)?;
    Ok(out)
}

fn answer<R: Threads + Wait + Sync>(
    rt: &R,
    alloc: Global,
    row: &Row,
) -> Result<Vec<u8>, AllocError> {
    if is(&row.kind, b"run") {
        return text_of_run(rt, alloc, &row.one, &Open);
    }
    if is(&row.kind, b"feed") {
        return text_of_feed(rt, alloc, (&row.one, &row.two, 1), &Open);
    }
    Vec::from_slice(alloc, b"unknown kind")
}

#[test]
fn sessions_run_side_by_side(rt: HostRuntime) -> Result<(), Fail> {
    assert_rows(rt.alloc(), ROWS, |alloc, row| answer(&rt, alloc, row))
}
