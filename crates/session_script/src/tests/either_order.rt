//! What is written if two operators' calls may be made in either order.

use crate::{SessionsFault, run_with_sessions};
use byte_streams::{FromRead, ToWrite};
use std::alloc::Global;
use std::sync::Wait;
use std::test::Fail;
use std::thread::Threads;
use unit_script::RunFault;

const INPUT: &[u8] = b"unitadm-inventory 1\n\
    F\t56\t/usr/lib/systemd/system/ssh.service\n\
    [Install]\nWantedBy=multi-user.target\nAlias=sshd.service\n\n\
    F\t53\t/usr/lib/systemd/system/getty@.service\n\
    [Install]\nWantedBy=getty.target\nDefaultInstance=tty1\n\n\
    end\n\
    == calls\n\
    alice enable ssh.service\n\
    bob enable getty@tty2.service\n";

/// More bytes than are written.
const ROOM: usize = 2000;

fn written<R: Threads + Wait + Sync>(rt: &R, alloc: Global) -> Result<Vec<u8>, SessionsFault> {
    let Ok(mut out) = Vec::with_capacity(alloc, ROOM) else {
        return Err(SessionsFault::Run(RunFault::OutOfMemory));
    };
    run_with_sessions(
        rt,
        alloc,
        &mut FromRead::new(INPUT),
        &mut ToWrite::new(&mut out),
    )?;
    Ok(out)
}

/// What is written before the tree, if alice's call comes first or bob's does.
const ALICE_FIRST: &[u8] = b"1 alice ok\n  \
    + /etc/systemd/system/multi-user.target.wants/ssh.service -> /usr/lib/systemd/system/ssh.service\n  \
    + /etc/systemd/system/sshd.service -> /usr/lib/systemd/system/ssh.service\n\
    2 bob ok\n  \
    + /etc/systemd/system/getty.target.wants/getty@tty2.service -> /usr/lib/systemd/system/getty@.service\n\
    == tree\n";

const BOB_FIRST: &[u8] = b"1 bob ok\n  \
    + /etc/systemd/system/getty.target.wants/getty@tty2.service -> /usr/lib/systemd/system/getty@.service\n\
    2 alice ok\n  \
    + /etc/systemd/system/multi-user.target.wants/ssh.service -> /usr/lib/systemd/system/ssh.service\n  \
    + /etc/systemd/system/sshd.service -> /usr/lib/systemd/system/ssh.service\n\
    == tree\n";

#[test]
fn two_operators_come_in_either_order(rt: HostRuntime) -> Result<(), Fail> {
    let out = match written(&rt, rt.alloc()) {
        Err(SessionsFault::Run(RunFault::OutOfMemory)) | Err(SessionsFault::NoWorker) => {
            written(&rt, rt.alloc())
        }
        answer => answer,
    };
    match out {
        Ok(out) => assert!(rt; out.starts_with(ALICE_FIRST) || out.starts_with(BOB_FIRST)),
        Err(_) => assert!(rt; false),
    }
    Ok(())
}
