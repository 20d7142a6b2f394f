//! Requests that wait for a worker that is held up.

use crate::large::{LONGEST, assert_counts, wait_for};
use crate::running::text_of_feed;
use history::Operator;
use sample_steps::is;
use sessions::Gate;
use std::alloc::{AllocError, Global};
use std::process::Abort;
use std::sync::Wait;
use std::sync::atomic::{AtomicU64, Ordering};
use std::test::Fail;
use std::thread::Threads;
use std::time::Clock;

/// Holds alice's first call up until bob's first comes, for a limited number of milliseconds, and
/// notes whether it came.
#[derive(Drop)]
struct Holding<'a, R: Clock> {
    rt: &'a R,
    most: u32,
    bob_came: &'a AtomicU64,
    has_met: &'a AtomicU64,
}

impl<'a, R: Clock> Gate for Holding<'a, R> {
    fn between(&self, operator: Operator, call: u64, _attempt: u8) {
        if call != 1 {
            return;
        }
        if is(operator.text(), b"alice") {
            wait_for(self.rt, self.bob_came, self.most);
            let bob_came = self.bob_came.load(Ordering::SeqCst);
            self.has_met.store(bob_came, Ordering::SeqCst);
        } else {
            self.bob_came.fetch_add(1, Ordering::SeqCst);
        }
    }
}

/// A number of requests of alice's, and then one of bob's.
fn script_of_waiting(alloc: Global, requests: usize) -> Result<Vec<u8>, AllocError> {
    let mut script = Vec::new(alloc);
    for _ in 0..requests {
        script.extend_from_slice(b"alice:look:a ")?;
    }
    script.extend_from_slice(b"bob:look:a")?;
    Ok(script)
}

/// The logs and rows once this number of requests of alice's were fed, and then one of bob's; and
/// whether bob's was planned while alice's first was held up.
fn text_of_waiting<R: Threads + Wait + Sync + Clock>(
    rt: &R,
    alloc: Global,
    requests: usize,
    most: u32,
) -> Result<(Vec<u8>, u64), AllocError> {
    let bob_came = AtomicU64::new(0);
    let has_met = AtomicU64::new(0);
    let gate = Holding {
        rt,
        most,
        bob_came: &bob_came,
        has_met: &has_met,
    };
    let script = script_of_waiting(alloc, requests)?;
    let text = text_of_feed(rt, alloc, (b"alice bob", &script, 1), &gate)?;
    Ok((text, has_met.load(Ordering::SeqCst)))
}

fn assert_waiting<R: Threads + Wait + Sync + Clock + Abort>(
    rt: &R,
    alloc: Global,
    requests: usize,
    most: u32,
    wanted: u64,
) -> Result<(), AllocError> {
    let (text, has_met) = text_of_waiting(rt, alloc, requests, most)?;
    assert_counts(rt, &text, b"logs:2 ", requests.wrapping_add(1));
    assert_eq!(rt; has_met, wanted);
    Ok(())
}

/// While a worker is held up with one request, sixteen more wait for it. The next one isn't taken
/// until then, and so bob's, which comes after it, isn't either.
#[test]
fn a_request_waits_behind_sixteen_that_wait(rt: HostRuntime) -> Result<(), Fail> {
    assert_waiting(&rt, rt.alloc(), 17, LONGEST, 1)?;
    assert_waiting(&rt, rt.alloc(), 18, 200, 0)?;
    Ok(())
}
