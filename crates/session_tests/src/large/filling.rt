//! Runs that find their history full: one request more than there may be rows.

use crate::large::assert_text;
use crate::scripts::{Open, Ran, operators, push_run};
use history::{MAX_ROWS, Request};
use link_tree::Tree;
use sample_steps::{Step, operator};
use sessions::{Ask, Asks, Requests, Work, Works, run_desk, run_sessions};
use std::alloc::{AllocError, Global};
use std::sync::Wait;
use std::test::Fail;
use std::thread::Threads;

/// The undo of a row that isn't there: it is refused, and makes a row.
const UNDO: u32 = 0;

/// One request more of alice's than there may be rows.
fn works(alloc: Global) -> Result<Works<Step>, AllocError> {
    let mut requests = Requests::none(alloc);
    for _ in 0..=MAX_ROWS {
        requests.push(Request::Undo(UNDO))?;
    }
    let mut works = Works::none(alloc);
    works.push(Work {
        operator: operator(b"alice")?,
        requests,
    })?;
    Ok(works)
}

/// The same, one after another.
fn asks(alloc: Global) -> Result<Asks<Step>, AllocError> {
    let mut asks = Asks::none(alloc);
    for _ in 0..=MAX_ROWS {
        asks.push(Ask {
            operator: operator(b"alice")?,
            request: Request::Undo(UNDO),
        })?;
    }
    Ok(asks)
}

/// Runs them in a session.
fn ran<R: Threads + Wait + Sync>(rt: &R, alloc: Global) -> Result<Box<Ran>, AllocError> {
    let works = works(alloc)?;
    let ran = run_sessions(rt, alloc, Tree::empty(alloc)?, works, &Open);
    Ok(Box::new(alloc, ran)?)
}

/// Feeds a session with them.
fn fed<R: Threads + Wait + Sync>(rt: &R, alloc: Global) -> Result<Box<Ran>, AllocError> {
    let operators = operators(alloc, b"alice")?;
    let asks = asks(alloc)?;
    if !asks.are_of(operators.as_slice()) {
        return Err(AllocError);
    }
    let ran = run_desk(rt, alloc, Tree::empty(alloc)?, operators, asks, &Open);
    Ok(Box::new(alloc, ran)?)
}

/// What results from a run.
fn text_of(alloc: Global, ran: &Ran) -> Result<Vec<u8>, AllocError> {
    let mut out = Vec::new(alloc);
    push_run(&mut out, ran)?;
    Ok(out)
}

#[test]
fn a_session_finds_its_history_full(rt: HostRuntime) -> Result<(), Fail> {
    let text = text_of(rt.alloc(), &*ran(&rt, rt.alloc())?)?;
    assert_text(&rt, &text, b"full");
    Ok(())
}

#[test]
fn a_session_that_is_fed_finds_its_history_full(rt: HostRuntime) -> Result<(), Fail> {
    let text = text_of(rt.alloc(), &*fed(&rt, rt.alloc())?)?;
    assert_text(&rt, &text, b"full");
    Ok(())
}
