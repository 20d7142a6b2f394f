//! Workers that can't be started: `tests/no-worker` refuses one thread after another.

use crate::large::assert_text;
use crate::running::ran;
use crate::scripts::{Open, Ran};
use sample_steps::is;
use sessions::RunError;
use std::alloc::{AllocError, Global};
use std::env;
use std::sync::Wait;
use std::test::Fail;
use std::thread::Threads;

/// What three operators ask for.
const WORKS: &[u8] = b"alice put:a / bob put:b / carol put:c";

fn word_of(ran: &Ran) -> &'static [u8] {
    match ran {
        Ok(_) => b"ran",
        Err(RunError::NoWorker) => b"no-worker",
        Err(_) => b"another-error",
    }
}

/// What results from the run.
fn end_of_run<R: Threads + Wait + Sync>(
    rt: &R,
    alloc: Global,
) -> Result<&'static [u8], AllocError> {
    Ok(word_of(&*ran(rt, alloc, WORKS, &Open)?))
}

/// What results if the thread of this number is refused: `tools/refuse_thread.c` reads it, too.
fn wanted_of(number: &[u8]) -> &'static [u8] {
    if is(number, b"1") || is(number, b"2") || is(number, b"3") {
        return b"no-worker";
    }
    b"ran"
}

#[test]
fn a_worker_that_cannot_be_started_is_reported(rt: HostRuntime) -> Result<(), Fail> {
    let wanted = match env::var(&rt, "REFUSE_THREAD") {
        Ok(number) => wanted_of(number.as_bytes()),
        Err(_) => wanted_of(b""),
    };
    let end = end_of_run(&rt, rt.alloc())?;
    assert_text(&rt, end, wanted);
    Ok(())
}
