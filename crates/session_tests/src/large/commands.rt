//! Runs of real commands.

use crate::commands::{
    OF_ONE_UNIT, OF_TWO_UNITS, Ran, SSH, feed_lines, push_answers, push_left, run_lines,
};
use crate::large::{Meeting, assert_text};
use crate::scripts::Open;
use link_tree::push_decimal;
use sessions::Gate;
use std::alloc::{AllocError, Global};
use std::process::Abort;
use std::str;
use std::sync::Wait;
use std::sync::atomic::{AtomicU64, Ordering};
use std::test::Fail;
use std::thread::Threads;
use std::time::Clock;

const EMPTY: &[u8] = b"unitadm-inventory 1\nend\n";

/// Runs lines in sessions, or feeds them.
fn run_or_feed<R: Threads + Wait + Sync, G: Gate + Sync>(
    rt: &R,
    alloc: Global,
    lines: &[u8],
    feeds: bool,
    gate: &G,
) -> Result<Box<Ran>, AllocError> {
    if feeds {
        return feed_lines(rt, alloc, (SSH, lines), gate);
    }
    run_lines(rt, alloc, (SSH, lines), gate)
}

/// What alice and bob are answered if her first call is held up until his call of this number
/// comes, and how often she was at the gate.
fn text_of_meeting<R: Threads + Wait + Sync + Clock>(
    rt: &R,
    alloc: Global,
    (lines, until): (&[u8], u64),
    feeds: bool,
) -> Result<Vec<u8>, AllocError> {
    let alice_came = AtomicU64::new(0);
    let bob_came = AtomicU64::new(0);
    let gate = Meeting {
        rt,
        until,
        alice_came: &alice_came,
        bob_came: &bob_came,
    };
    let mut out = Vec::new(alloc);
    push_answers(&mut out, &*run_or_feed(rt, alloc, lines, feeds, &gate)?)?;
    out.extend_from_slice(b"attempts:")?;
    push_decimal(&mut out, alice_came.load(Ordering::SeqCst) as usize)?;
    Ok(out)
}

fn assert_meeting<R: Threads + Wait + Sync + Clock + Abort>(
    rt: &R,
    alloc: Global,
    meeting: (&[u8], u64),
    feeds: bool,
    wanted: &[u8],
) -> Result<(), AllocError> {
    let text = text_of_meeting(rt, alloc, meeting, feeds)?;
    assert_text(rt, &text, wanted);
    Ok(())
}

/// Alice's enable is refused at her second attempt if bob masks the unit, and accepted at her first
/// if he masks another one. Bob's answers don't depend on which thread comes first.
fn assert_answers<R: Threads + Wait + Sync + Clock + Abort>(
    rt: &R,
    alloc: Global,
    feeds: bool,
) -> Result<(), AllocError> {
    assert_meeting(
        rt,
        alloc,
        (OF_ONE_UNIT, 2),
        feeds,
        b"alice ssh.service is masked\nbob ok\nbob masked\nattempts:2",
    )?;
    assert_meeting(
        rt,
        alloc,
        (OF_TWO_UNITS, 3),
        feeds,
        b"alice ok\nbob ok\nbob disabled\nbob masked\nattempts:1",
    )
}

#[test]
fn gate_two_sessions_of_commands(rt: HostRuntime) -> Result<(), Fail> {
    assert_answers(&rt, rt.alloc(), false)?;
    Ok(())
}

#[test]
fn gate_desk_of_commands(rt: HostRuntime) -> Result<(), Fail> {
    assert_answers(&rt, rt.alloc(), true)?;
    Ok(())
}

/// Adds a line of an operator.
fn push_line(lines: &mut Vec<u8>, operator: usize, verb: &[u8]) -> Result<(), AllocError> {
    lines.extend_from_slice(b"o")?;
    push_decimal(lines, operator)?;
    lines.extend_from_slice(verb)?;
    lines.extend_from_slice(b" x.service\n")
}

/// Adds twenty lines of an operator, with two verbs in turn.
fn push_turns(
    lines: &mut Vec<u8>,
    operator: usize,
    first: &[u8],
    second: &[u8],
) -> Result<(), AllocError> {
    for _ in 0..10 {
        push_line(lines, operator, first)?;
        push_line(lines, operator, second)?;
    }
    Ok(())
}

/// Adds the lines of an operator, who masks and unmasks a unit; from the ninth on they begin with
/// the unmask.
fn push_operator(lines: &mut Vec<u8>, operator: usize) -> Result<(), AllocError> {
    if operator < 9 {
        return push_turns(lines, operator, b" mask", b" unmask");
    }
    push_turns(lines, operator, b" unmask", b" mask")
}

/// The lines of this number of operators: o1, o2, and so on.
fn lines_of_many(alloc: Global, operators: usize) -> Result<Vec<u8>, AllocError> {
    let mut lines = Vec::new(alloc);
    for before in 0..operators {
        if before > 0 {
            lines.extend_from_slice(b"#\n")?;
        }
        push_operator(&mut lines, before.wrapping_add(1))?;
    }
    Ok(lines)
}

/// What is left of a run of operators on the empty tree, who mask and unmask a unit.
fn text_of_masks<R: Threads + Wait + Sync>(
    rt: &R,
    alloc: Global,
    operators: usize,
) -> Result<Vec<u8>, AllocError> {
    let lines = lines_of_many(alloc, operators)?;
    let mut out = Vec::new(alloc);
    push_left(
        alloc,
        &mut out,
        &*run_lines(rt, alloc, (EMPTY, &lines), &Open)?,
    )?;
    Ok(out)
}

/// All commands are accepted, and the unit is masked if the last is a mask.
fn assert_last_counts(rt: &impl Abort, text: &[u8]) {
    let is_masked = text == b"logs:16 rows:320 commands:320 mask entries:1 masked".as_slice();
    let is_unmasked = text
        == b"logs:16 rows:320 commands:320 unmask entries:0 not-masked".as_slice();
    assert!(rt; is_masked || is_unmasked, "{:?}", str::from_utf8(text));
}

#[test]
fn sixteen_operators_mask_and_unmask_a_unit(rt: HostRuntime) -> Result<(), Fail> {
    let text = text_of_masks(&rt, rt.alloc(), 16)?;
    assert_last_counts(&rt, &text);
    let refused = text_of_masks(&rt, rt.alloc(), 17)?;
    assert_text(&rt, &refused, b"too-many-sessions");
    Ok(())
}

/// What is left once alice and bob were fed forty masks of a unit each, on the empty tree.
fn text_of_fed_masks<R: Threads + Wait + Sync>(
    rt: &R,
    alloc: Global,
) -> Result<Vec<u8>, AllocError> {
    let mut lines = Vec::new(alloc);
    for _ in 0..40 {
        lines.extend_from_slice(b"alice mask x.service\nbob mask x.service\n")?;
    }
    let mut out = Vec::new(alloc);
    push_left(
        alloc,
        &mut out,
        &*feed_lines(rt, alloc, (EMPTY, &lines), &Open)?,
    )?;
    Ok(out)
}

#[test]
fn two_operators_are_fed_forty_masks_each(rt: HostRuntime) -> Result<(), Fail> {
    let text = text_of_fed_masks(&rt, rt.alloc())?;
    assert_text(
        &rt,
        &text,
        b"logs:2 rows:80 commands:80 mask entries:1 masked",
    );
    Ok(())
}
