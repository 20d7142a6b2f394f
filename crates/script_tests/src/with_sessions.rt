//! Runs with sessions, for which memory may run out, or a worker may not start: `tests/no-worker`
//! refuses one thread after another. Nothing is written then, and the same run is made again.

use byte_streams::{FromRead, ToWrite};
use sample_rows::{Row, assert_rows};
use session_script::{SessionsFault, run_with_sessions};
use std::alloc::{AllocError, Global};
use std::sync::Wait;
use std::test::Fail;
use std::thread::Threads;
use unit_script::RunFault;

/// Calls on two units. What is written, up to the units' files: if bob's call comes first, and if
/// alice's does, or all calls are hers.
const ROWS: &[u8] = b"\
    # they are in each other's way\n\
    sessions\talice enable ssh.service\\nbob mask ssh.service\\n\t\
        1 bob ok\\n  \
        + /etc/systemd/system/ssh.service -> /dev/null\\n\
        2 alice refused: ssh.service is masked\\n\
        == tree\\nunitadm-inventory 1\\n\
        L\\t/etc/systemd/system/ssh.service\\t/dev/null\\n\t\
        1 alice ok\\n  \
        + /etc/systemd/system/multi-user.target.wants/ssh.service \
        -> /usr/lib/systemd/system/ssh.service\\n  \
        + /etc/systemd/system/sshd.service -> /usr/lib/systemd/system/ssh.service\\n\
        2 bob ok\\n  \
        + /etc/systemd/system/ssh.service -> /dev/null\\n\
        == tree\\nunitadm-inventory 1\\n\
        L\\t/etc/systemd/system/multi-user.target.wants/ssh.service\
        \\t/usr/lib/systemd/system/ssh.service\\n\
        L\\t/etc/systemd/system/ssh.service\\t/dev/null\\n\
        L\\t/etc/systemd/system/sshd.service\\t/usr/lib/systemd/system/ssh.service\\n\n\
    # they are not\n\
    sessions\talice mask ssh.service\\nbob enable getty@tty2.service\\n\t\
        1 bob ok\\n  \
        + /etc/systemd/system/getty.target.wants/getty@tty2.service \
        -> /usr/lib/systemd/system/getty@.service\\n\
        2 alice ok\\n  \
        + /etc/systemd/system/ssh.service -> /dev/null\\n\
        == tree\\nunitadm-inventory 1\\n\
        L\\t/etc/systemd/system/getty.target.wants/getty@tty2.service\
        \\t/usr/lib/systemd/system/getty@.service\\n\
        L\\t/etc/systemd/system/ssh.service\\t/dev/null\\n\t\
        1 alice ok\\n  \
        + /etc/systemd/system/ssh.service -> /dev/null\\n\
        2 bob ok\\n  \
        + /etc/systemd/system/getty.target.wants/getty@tty2.service \
        -> /usr/lib/systemd/system/getty@.service\\n\
        == tree\\nunitadm-inventory 1\\n\
        L\\t/etc/systemd/system/getty.target.wants/getty@tty2.service\
        \\t/usr/lib/systemd/system/getty@.service\\n\
        L\\t/etc/systemd/system/ssh.service\\t/dev/null\\n\n\
    # one operator's calls are made in their order\n\
    sessions\talice mask ssh.service\\nalice is-enabled ssh.service\\n\
        alice undo 1\\nalice redo 1\\n\t\t\
        1 alice ok\\n  \
        + /etc/systemd/system/ssh.service -> /dev/null\\n\
        2 alice state masked no\\n\
        3 alice undid 1\\n  \
        - /etc/systemd/system/ssh.service -> /dev/null\\n\
        4 alice redid 1\\n  \
        + /etc/systemd/system/ssh.service -> /dev/null\\n\
        == tree\\nunitadm-inventory 1\\n\
        L\\t/etc/systemd/system/ssh.service\\t/dev/null\\n\n\
    ";

const FIRST_LINE: &[u8] = b"unitadm-inventory 1\n";

/// The units' files, in their order in an inventory, and its end.
const FILES: &[u8] = b"F\t53\t/usr/lib/systemd/system/getty@.service\n\
    [Install]\nWantedBy=getty.target\nDefaultInstance=tty1\n\n\
    F\t56\t/usr/lib/systemd/system/ssh.service\n\
    [Install]\nWantedBy=multi-user.target\nAlias=sshd.service\n\n\
    end\n";

/// What has been written before a run.
const BEFORE: &[u8] = b"before\n";

/// More bytes than are written.
const ROOM: usize = 2000;

/// The input with these calls.
fn input_of(alloc: Global, calls: &[u8]) -> Result<Vec<u8>, AllocError> {
    let mut input = Vec::from_slice(alloc, FIRST_LINE)?;
    input.extend_from_slice(FILES)?;
    input.extend_from_slice(b"== calls\n")?;
    input.extend_from_slice(calls)?;
    Ok(input)
}

/// Makes a run, whose output is added.
fn run_once<R: Threads + Wait + Sync>(
    rt: &R,
    alloc: Global,
    input: &[u8],
    out: &mut Vec<u8>,
) -> Result<(), SessionsFault> {
    run_with_sessions(rt, alloc, &mut FromRead::new(input), &mut ToWrite::new(out))
}

/// Whether memory ran out for a run, or a worker could not be started.
fn lacks_something(ended: &Result<(), SessionsFault>) -> bool {
    matches!(
        ended,
        Err(SessionsFault::Run(RunFault::OutOfMemory) | SessionsFault::NoWorker)
    )
}

fn push_fault(
    alloc: Global,
    ended: &Result<(), SessionsFault>,
    out: &mut Vec<u8>,
) -> Result<(), AllocError> {
    match ended {
        Ok(()) => Ok(()),
        Err(fault) => out.extend_from_slice(format!(in alloc; "{fault}")?.as_bytes()),
    }
}

/// Makes a run, and makes it again if it lacked memory or a worker. Adds its output, and what is
/// wrong: nothing may have been written by a run that failed.
fn push_run<R: Threads + Wait + Sync>(
    rt: &R,
    alloc: Global,
    input: &[u8],
    out: &mut Vec<u8>,
) -> Result<(), AllocError> {
    let mut ended = run_once(rt, alloc, input, out);
    if lacks_something(&ended) {
        if out.as_slice() != BEFORE {
            return out.extend_from_slice(b"is written by a run that failed");
        }
        ended = run_once(rt, alloc, input, out);
    }
    push_fault(alloc, &ended, out)
}

/// What is written between what was there before and the units' files. If it is not between these,
/// all of it.
fn written(out: &[u8]) -> &[u8] {
    match out.strip_prefix(BEFORE) {
        Some(rest) => rest.strip_suffix(FILES).unwrap_or(out),
        None => out,
    }
}

/// What is written. The other possible output counts as this one.
fn answer<R: Threads + Wait + Sync>(
    rt: &R,
    alloc: Global,
    row: &Row,
) -> Result<Vec<u8>, AllocError> {
    let input = input_of(alloc, &row.one)?;
    let mut out = Vec::with_capacity(alloc, ROOM)?;
    out.extend_from_slice(BEFORE)?;
    push_run(rt, alloc, &input, &mut out)?;
    let text = written(&out);
    let is_other = text == row.two.as_slice();
    let said = if is_other {
        row.answer.as_slice()
    } else {
        text
    };
    Vec::from_slice(alloc, said)
}

#[test]
fn without_memory_or_a_worker_nothing_is_written(rt: HostRuntime) -> Result<(), Fail> {
    assert_rows(rt.alloc(), ROWS, |alloc, row| answer(&rt, alloc, row))
}
