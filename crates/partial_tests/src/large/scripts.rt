//! Scripts on roots: the replies and the changes are those on all of the root.
use crate::comparing::{Stop, compared, on_part};
use crate::root::Root;
use link_tree::Tree;
use sample_rows::{Row, assert_rows};
use sample_values::{path, tree};
use std::alloc::{AllocError, Global};
use std::test::Fail;
use unit_name::ample;

/// Units of each directory, links of each kind, presets, and files elsewhere.
const UNITS: &[u8] = b"unitadm-inventory 1
F\t7\t/usr/lib/systemd/system/multi-user.target
[Unit]

F\t31\t/usr/lib/systemd/system/graphical.target
[Install]
Alias=default.target

L\t/usr/lib/systemd/system/default.target\tgraphical.target
F\t74\t/usr/lib/systemd/system/ssh.service
[Install]
WantedBy=multi-user.target
Alias=sshd.service
Also=keys.service

F\t33\t/usr/lib/systemd/system/keys.service
[Install]
RequiredBy=ssh.service

F\t37\t/usr/lib/systemd/system/cron.service
[Install]
WantedBy=multi-user.target

F\t37\t/usr/lib/systemd/system/watch.service
[Install]
UpheldBy=multi-user.target

F\t53\t/usr/lib/systemd/system/getty@.service
[Install]
WantedBy=getty.target
DefaultInstance=tty1

L\t/usr/lib/systemd/system/getty.target.wants/log.service\t../log.service
F\t7\t/usr/lib/systemd/system/log.service
[Unit]

F\t29\t/usr/lib/systemd/system-preset/90-systemd.preset
enable ssh.service
disable *

F\t7\t/usr/local/lib/systemd/system/local.service
[Unit]

F\t7\t/run/systemd/system/run.service
[Unit]

L\t/etc/systemd/system/app.service\t/opt/app.service
L\t/etc/systemd/system/none.service\t/srv/none.service
L\t/opt/app.service\t../srv/app.service
F\t37\t/srv/app.service
[Install]
WantedBy=multi-user.target

L\t/etc/systemd/system/multi-user.target.wants/cron.service\t/usr/lib/systemd/system/cron.service
L\t/etc/systemd/system/multi-user.target.upholds/watch.service\t/usr/lib/systemd/system/watch.service
L\t/etc/systemd/system/getty.target.requires/keys.service\t/usr/lib/systemd/system/keys.service
F\t7\t/srv/other.service
[Unit]

end
";

const ROWS: &[u8] = b"\
    # A script; TWO, if it is there, is the path of a directory: whether its replies and its\n\
    # changes in all are those on all of the root, and how many entries were found.\n\
    alice mask x.service\t\t\t1 rows as on all; 0 of 21 entries\n\
    alice mask cron.service; bob undo 1; alice redo 1\t\t\t3 rows as on all; 0 of 21 entries\n\
    alice enable ssh.service\t\t\t1 rows as on all; 2 of 21 entries\n\
    alice enable app.service; bob is-enabled app.service\t\t\t2 rows as on all; 8 of 21 entries\n\
    alice disable cron.service watch.service\t\t\t1 rows as on all; 7 of 21 entries\n\
    alice preset ssh.service cron.service\t\t\t1 rows as on all; 9 of 21 entries\n\
    alice get-default; bob set-default multi-user.target; alice get-default\t\t\t\
        3 rows as on all; 3 of 21 entries\n\
    alice dependencies multi-user.target; alice dependencies --reverse keys.service\t\t\t\
        2 rows as on all; 4 of 21 entries\n\
    alice is-enabled cron.service\t\t\t1 rows as on all; 7 of 21 entries\n\
    alice add-requires multi-user.target log.service run.service local.service\t\t\t\
        1 rows as on all; 4 of 21 entries\n\
    alice link /srv/other.service; bob enable getty@.service; alice unmask cron.service\t\t\t\
        3 rows as on all; 2 of 21 entries\n\
    # Several operators undo and redo rows of one another.\n\
    alice mask cron.service; bob enable ssh.service; alice disable cron.service; bob undo 1; \
        alice preset cron.service; bob is-enabled cron.service; alice undo 2; bob redo 2; \
        bob redo 1; alice undo 5; alice undo 12; bob reenable watch.service; \
        bob dependencies multi-user.target\t\t\t13 rows as on all; 9 of 21 entries\n\
    # What no call looks at stops none.\n\
    alice mask x.service\t\t/usr/lib/systemd/system/cron.service\t\
        1 rows as on all; 0 of 21 entries\n\
    alice disable x.service\t\t/run/systemd/system/odd.service\t1 rows as on all; 5 of 21 entries\n\
    alice enable cron.service\t\t/opt/cron.service\t1 rows as on all; 2 of 21 entries\n\
    # What a call looks at does, alone or in a directory.\n\
    alice enable cron.service\t\t/usr/lib/systemd/system/cron.service\tstopped: Odd\n\
    alice disable x.service\t\t/etc/systemd/system/odd.service\tstopped: Odd\n\
    alice preset ssh.service\t\t/run/systemd/system-preset/odd.preset\tstopped: Odd\n\
    # Elsewhere it counts as nothing: here a link leads to it.\n\
    alice enable none.service\t\t/srv/none.service\t1 rows as on all; 1 of 21 entries\n";

fn answer(alloc: Global, units: &Tree, row: &Row) -> Result<Vec<u8>, AllocError> {
    let mut root = Root::new(alloc, units)?;
    if !row.two.is_empty() {
        root.odd = Some(path(alloc, &row.two)?);
    }
    compared(alloc, &mut root, &row.kind)
}

#[test]
fn replies_are_those_on_all(rt: HostRuntime) -> Result<(), Fail> {
    let units = tree(rt.alloc(), UNITS)?;
    assert_rows(rt.alloc(), ROWS, |alloc, row| answer(alloc, &units, row))
}

/// A script that lists a directory and looks at several paths.
const SCRIPT: &[u8] = b"alice enable app.service; bob disable cron.service";

/// Whether a run of which one call fails reports that, and failed once; or if there is no such
/// call, whether all is made.
fn is_reported(alloc: Global, units: &Tree, call: u32) -> Result<bool, AllocError> {
    let mut root = Root::new(alloc, units)?;
    root.failing = Some(call);
    let stop = match on_part(alloc, &mut root, SCRIPT)? {
        Ok(_ran) => None,
        Err(stop) => Some(stop),
    };
    let has_failed = call < root.calls;
    let expected = if has_failed { Some(Stop::Failed) } else { None };
    Ok(stop == expected && root.failures == u64::from(has_failed))
}

/// The first of this many calls whose failure isn't reported, if there is one.
fn unreported(alloc: Global, calls: u32) -> Result<Option<u32>, AllocError> {
    let units = tree(alloc, UNITS)?;
    for call in 0..calls {
        if !is_reported(alloc, &units, call)? {
            return Ok(Some(call));
        }
    }
    Ok(None)
}

/// Each call of the disk fails in turn, and that is reported.
#[test]
fn failures_are_reported(rt: HostRuntime) -> Result<(), Fail> {
    assert_eq!(rt; ample!(unreported(rt.alloc(), 80), AllocError)?, None);
    Ok(())
}
