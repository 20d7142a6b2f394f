//! Many runs of sixteen sessions: `tools/each-growth` leaves them out.

use crate::SessionsFault;
use crate::serving::serve;
use byte_streams::FromRead;
use history::{History, MAX_ROWS};
use std::alloc::{AllocError, Global};
use std::sync::Wait;
use std::test::Fail;
use std::thread::Threads;
use unit_script::{Action, Call, Input, RunFault, history_of, push_rows, read_input};

/// A small server.
const SERVER: &[u8] = b"unitadm-inventory 1\n\
    F\t0\t/usr/lib/systemd/system/multi-user.target\n\n\
    F\t56\t/usr/lib/systemd/system/ssh.service\n\
    [Install]\nWantedBy=multi-user.target\nAlias=sshd.service\n\n\
    F\t37\t/usr/lib/systemd/system/cron.service\n\
    [Install]\nWantedBy=multi-user.target\n\n\
    F\t53\t/usr/lib/systemd/system/getty@.service\n\
    [Install]\nWantedBy=getty.target\nDefaultInstance=tty1\n\n\
    F\t9\t/usr/lib/systemd/system-preset/90-systemd.preset\n\
    enable *\n\n\
    end\n\
    == calls\n";

/// The operators' requests, in turn.
const WANTED: [&[u8]; 11] = [
    b"enable ssh.service",
    b"disable ssh.service",
    b"mask cron.service",
    b"unmask cron.service",
    b"preset ssh.service cron.service",
    b"enable getty@tty2.service",
    b"is-enabled ssh.service",
    b"undo 2",
    b"reenable ssh.service",
    b"dependencies multi-user.target",
    b"undo 20",
];

/// Sixteen operators make four calls each.
const CALLS: usize = 64;

fn push_call(text: &mut Vec<u8>, n: usize) -> Result<(), AllocError> {
    text.extend_from_slice(b"operator-")?;
    text.extend_from_slice(&[b'a' + (n % 16) as u8, b' '])?;
    text.extend_from_slice(WANTED[n % 11])?;
    text.extend_from_slice(b"\n")
}

fn input(alloc: Global) -> Result<Vec<u8>, AllocError> {
    let mut text = Vec::new(alloc);
    text.extend_from_slice(SERVER)?;
    for n in 0..CALLS {
        push_call(&mut text, n)?;
    }
    Ok(text)
}

fn served<R: Threads + Wait + Sync>(
    rt: &R,
    alloc: Global,
    text: &[u8],
) -> Result<History<Action>, SessionsFault> {
    match read_input(alloc, &mut FromRead::new(text)) {
        Ok(Input { tree, calls }) => serve(rt, alloc, tree, calls),
        Err(e) => Err(SessionsFault::Run(e.run_fault())),
    }
}

/// The same requests, made by one thread in the order of the rows.
fn replayed(alloc: Global, history: &History<Action>) -> Result<History<Action>, AllocError> {
    let mut calls = Vec::new(alloc);
    for row in history.rows() {
        calls.push(Call {
            operator: row.operator,
            request: row.request.copy()?,
        })?;
    }
    let first = history.first().copy()?;
    if calls.len() > MAX_ROWS {
        return Err(AllocError);
    }
    history_of(alloc, first, calls)
}

fn text_of(alloc: Global, history: &History<Action>) -> Result<Vec<u8>, AllocError> {
    let mut text = Vec::new(alloc);
    push_rows(&mut text, history.rows())?;
    Ok(text)
}

/// Whether one thread gets the same replies as the sessions, and each call made a row.
fn is_as_one_thread(alloc: Global, history: &History<Action>) -> Result<bool, AllocError> {
    let again = replayed(alloc, history)?;
    let text = text_of(alloc, history)?;
    Ok(text == text_of(alloc, &again)? && history.rows().len() == CALLS)
}

#[test]
fn a_hundred_runs_are_as_one_thread(rt: HostRuntime) -> Result<(), Fail> {
    let text = input(rt.alloc())?;
    for _ in 0..100 {
        match served(&rt, rt.alloc(), &text) {
            Ok(history) => {
                let is_well = is_as_one_thread(rt.alloc(), &history)?;
                assert!(rt; is_well);
            }
            Err(_) => assert!(rt; false),
        }
    }
    Ok(())
}
