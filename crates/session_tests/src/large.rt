//! Runs that are long, or in which one session waits for another: `tools/each-growth` leaves them
//! out.

use crate::running::{text_of_feed, text_of_run};
use crate::scripts::Open;
use history::Operator;
use sample_steps::is;
use sessions::Gate;
use std::alloc::{AllocError, Global};
use std::process::Abort;
use std::str::from_utf8;
use std::sync::Wait;
use std::sync::atomic::{AtomicU64, Ordering};
use std::test::Fail;
use std::thread;
use std::thread::Threads;
use std::time::{Clock, Duration};

mod commands;
mod filling;
mod starting;
mod waiting;

/// Holds alice's first call up until bob's call of this number comes, and bob's first until alice's
/// first comes, ten seconds at most.
#[derive(Drop)]
pub(crate) struct Meeting<'a, R: Clock> {
    pub(crate) rt: &'a R,
    pub(crate) until: u64,
    pub(crate) alice_came: &'a AtomicU64,
    pub(crate) bob_came: &'a AtomicU64,
}

/// The longest that a call is held up, in milliseconds.
pub(crate) const LONGEST: u32 = 10_000;

/// Waits until a call came, at most this number of milliseconds.
pub(crate) fn wait_for<R: Clock>(rt: &R, came: &AtomicU64, most: u32) {
    for _ in 0..most {
        if came.load(Ordering::SeqCst) > 0 {
            return;
        }
        thread::sleep(rt, Duration::from_millis(1));
    }
}

impl<'a, R: Clock> Gate for Meeting<'a, R> {
    fn between(&self, operator: Operator, call: u64, _attempt: u8) {
        let is_alice = is(operator.text(), b"alice");
        if is_alice && call == 1 {
            self.alice_came.fetch_add(1, Ordering::SeqCst);
            wait_for(self.rt, self.bob_came, LONGEST);
        } else if !is_alice && call == 1 {
            wait_for(self.rt, self.alice_came, LONGEST);
        } else if !is_alice && call == self.until {
            self.bob_came.fetch_add(1, Ordering::SeqCst);
        }
    }
}

/// Bob's first call is accepted; alice's, planned before it and made again, is refused; bob's
/// second comes before that or after it.
fn assert_bob_came_first(rt: &impl Abort, text: &[u8], alice_came: u64) {
    let is_last = text == b"logs:2 bob:ok bob:ok alice:exists:a".as_slice();
    let is_second = text == b"logs:2 bob:ok alice:exists:a bob:ok".as_slice();
    assert!(rt; is_last || is_second);
    assert_eq!(rt; alice_came, 2);
}

#[test]
fn gate_two_sessions(rt: HostRuntime) -> Result<(), Fail> {
    let alice_came = AtomicU64::new(0);
    let bob_came = AtomicU64::new(0);
    let gate = Meeting {
        rt: &rt,
        until: 2,
        alice_came: &alice_came,
        bob_came: &bob_came,
    };
    let text = text_of_run(&rt, rt.alloc(), b"alice put:a / bob put:a put:b", &gate)?;
    assert_bob_came_first(&rt, &text, alice_came.load(Ordering::SeqCst));
    Ok(())
}

#[test]
fn gate_desk(rt: HostRuntime) -> Result<(), Fail> {
    let alice_came = AtomicU64::new(0);
    let bob_came = AtomicU64::new(0);
    let gate = Meeting {
        rt: &rt,
        until: 2,
        alice_came: &alice_came,
        bob_came: &bob_came,
    };
    let text = text_of_feed(
        &rt,
        rt.alloc(),
        (b"alice bob", b"alice:put:a bob:put:a bob:put:b", 1),
        &gate,
    )?;
    assert_bob_came_first(&rt, &text, alice_came.load(Ordering::SeqCst));
    Ok(())
}

const NAMES: [&[u8]; 16] = [
    b"alice", b"bob", b"c", b"d", b"e", b"f", b"g", b"h", b"i", b"j", b"k", b"l", b"m", b"n", b"o",
    b"p",
];

/// Works of sixteen operators with twenty requests each: a file is put at one slot, and removed.
fn script_of_many(alloc: Global) -> Result<Vec<u8>, AllocError> {
    let mut script = Vec::new(alloc);
    for name in &NAMES {
        if !script.is_empty() {
            script.extend_from_slice(b" / ")?;
        }
        script.extend_from_slice(name)?;
        for _ in 0..10 {
            script.extend_from_slice(b" put:a remove:a")?;
        }
    }
    Ok(script)
}

pub(crate) fn assert_text(rt: &impl Abort, text: &[u8], wanted: &[u8]) {
    assert_eq!(rt;
        from_utf8(text).unwrap_or("no text"),
        from_utf8(wanted).unwrap_or("no text")
    );
}

/// The text begins with these logs, and has a word for each of this many rows after them.
pub(crate) fn assert_counts(rt: &impl Abort, text: &[u8], logs: &[u8], rows: usize) {
    assert!(rt; text.starts_with(logs));
    let words = text.split(|b| *b == b' ').count();
    assert_eq!(rt; words, rows.wrapping_add(1));
}

#[test]
fn sixteen_sessions_of_twenty_calls(rt: HostRuntime) -> Result<(), Fail> {
    let script = script_of_many(rt.alloc())?;
    let text = text_of_run(&rt, rt.alloc(), &script, &Open)?;
    assert_counts(&rt, &text, b"logs:16 ", 320);
    Ok(())
}

#[test]
fn two_operators_are_fed_forty_calls_each(rt: HostRuntime) -> Result<(), Fail> {
    let text = text_of_feed(
        &rt,
        rt.alloc(),
        (b"alice bob", b"alice:put:a bob:remove:a", 40),
        &Open,
    )?;
    assert_counts(&rt, &text, b"logs:2 ", 80);
    Ok(())
}
