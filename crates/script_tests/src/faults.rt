//! Runs over sources and sinks that fail.

use crate::streams::{Faulty, Narrow};
use byte_streams::MAX_INTERRUPTIONS;
use link_tree::{InventoryError, Tree, WriteError, read_inventory, write_inventory};
use std::alloc::Global;
use std::process::Abort;
use std::test::Fail;
use unit_name::ample;
use unit_script::{RunFault, run};

const INPUT: &[u8] = b"unitadm-inventory 1\n\
    end\n\
    == calls\n\
    alice mask x.service\n\
    bob unmask x.service\n\
    alice undo 2\n";

const OUTPUT: &[u8] = b"1 alice ok\n  \
      + /etc/systemd/system/x.service -> /dev/null\n\
    2 bob ok\n  \
      - /etc/systemd/system/x.service -> /dev/null\n\
    3 alice undid 2\n  \
      + /etc/systemd/system/x.service -> /dev/null\n\
    == tree\n\
    unitadm-inventory 1\n\
    L\t/etc/systemd/system/x.service\t/dev/null\n\
    end\n";

/// More bytes than any of these inputs has.
const ALL: usize = 1000;

/// A run from `INPUT` after some interruptions before each byte, until the source fails.
fn run_from(
    alloc: Global,
    until_failure: usize,
    interruptions: u64,
    sink: &mut Narrow,
) -> Result<(), RunFault> {
    ample!(
        run(
            alloc,
            &mut Faulty::new(INPUT, until_failure, interruptions),
            sink
        ),
        RunFault::OutOfMemory
    )
}

/// A run into the sink ends in this way, and the sink has taken these bytes then.
fn assert_run(
    rt: &impl Abort,
    alloc: Global,
    (until_failure, interruptions): (usize, u64),
    sink: &mut Narrow,
    (ended, taken): (Result<(), RunFault>, &[u8]),
) {
    let run = run_from(alloc, until_failure, interruptions, sink);
    assert_eq!(rt; run, ended, "after {until_failure} bytes");
    assert_eq!(rt; sink.taken(), taken);
}

#[test]
fn a_source_may_fail_anywhere(rt: HostRuntime) {
    for k in 0..=INPUT.len() {
        let fault = match k {
            0..=19 => RunFault::InventoryRead(0),
            20..=23 => RunFault::InventoryRead(1),
            _ => RunFault::ReadFault,
        };
        let mut sink = Narrow::new(ALL, ALL, true);
        assert_run(&rt, rt.alloc(), (k, 0), &mut sink, (Err(fault), b""));
    }
}

/// A run into the sink fails when it has taken this number of bytes.
fn assert_cut(rt: &impl Abort, alloc: Global, sink: &mut Narrow, sent: usize) {
    let taken = OUTPUT.get(..sent).unwrap_or(&[]);
    let fault = RunFault::WriteFault(sent);
    assert_run(rt, alloc, (ALL, 0), sink, (Err(fault), taken));
}

#[test]
fn a_sink_may_fail_anywhere(rt: HostRuntime) {
    for k in 0..OUTPUT.len() {
        let mut sink = Narrow::new(k, ALL, true);
        assert_cut(&rt, rt.alloc(), &mut sink, k);
    }
}

/// A source that is interrupted as often as it may be, and once more.
fn assert_interrupted(rt: &impl Abort, alloc: Global) {
    let most = u64::from(MAX_INTERRUPTIONS);
    let mut sink = Narrow::new(ALL, ALL, true);
    assert_run(rt, alloc, (ALL, most - 1), &mut sink, (Ok(()), OUTPUT));
    let fault = RunFault::InventoryRead(0);
    let mut unused = Narrow::new(ALL, ALL, true);
    assert_run(rt, alloc, (ALL, most), &mut unused, (Err(fault), b""));
}

#[test]
fn a_run_answers_each_call_and_may_be_held_back(rt: HostRuntime) {
    let mut slow = Narrow::new(ALL, 7, true);
    assert_run(&rt, rt.alloc(), (ALL, 0), &mut slow, (Ok(()), OUTPUT));
    assert_interrupted(&rt, rt.alloc());
    let mut idle = Narrow::new(ALL, 0, true);
    assert_cut(&rt, rt.alloc(), &mut idle, 0);
    let mut unflushed = Narrow::new(ALL, ALL, false);
    assert_cut(&rt, rt.alloc(), &mut unflushed, OUTPUT.len());
}

/// Two links and a file in no order, and the same in byte order of path.
const ENTRIES: &[u8] = b"unitadm-inventory 1\nF\t3\t/c\nx y\nL\t/b\t/x\nL\t/a/c\ty\nend\n";

const IN_ORDER: &[u8] = b"unitadm-inventory 1\nL\t/a/c\ty\nL\t/b\t/x\nF\t3\t/c\nx y\nend\n";

/// The inventory of `ENTRIES` after some interruptions before each byte, until the source fails.
fn read_from(
    alloc: Global,
    until_failure: usize,
    interruptions: u64,
) -> Result<Tree, InventoryError> {
    ample!(
        read_inventory(
            alloc,
            &mut Faulty::new(ENTRIES, until_failure, interruptions)
        ),
        InventoryError::OutOfMemory
    )
}

fn fault(alloc: Global, until_failure: usize, interruptions: u64) -> Option<InventoryError> {
    match read_from(alloc, until_failure, interruptions) {
        Ok(_) => None,
        Err(fault) => Some(fault),
    }
}

/// A fault is reported with the number of the entry in which it is, to which the bytes of a file
/// belong.
fn assert_faults(rt: &impl Abort, alloc: Global) {
    let mut number = 0;
    for k in 0..ENTRIES.len() {
        assert_eq!(rt;
            fault(alloc, k, 0),
            Some(InventoryError::ReadFault(number)),
            "after {k} bytes"
        );
        if ENTRIES.get(k) == Some(&b'\n') && !ENTRIES.get(..k).unwrap_or(&[]).ends_with(b"/c") {
            number = number.saturating_add(1);
        }
    }
}

/// The inventory is written until the sink fails, which has taken this number of bytes then.
fn assert_written(rt: &impl Abort, alloc: Global, tree: &Tree, sink: &mut Narrow, sent: usize) {
    let written = ample!(write_inventory(alloc, tree, sink), WriteError::OutOfMemory);
    assert_eq!(rt; written, Err(WriteError::Fault(sent)));
    assert_eq!(rt; sink.taken(), IN_ORDER.get(..sent).unwrap_or(&[]));
}

#[test]
fn an_inventory_may_fail_anywhere(rt: HostRuntime) -> Result<(), Fail> {
    assert_faults(&rt, rt.alloc());
    let tree = read_from(rt.alloc(), ALL, 0)?;
    for k in 0..IN_ORDER.len() {
        let mut sink = Narrow::new(k, 3, true);
        assert_written(&rt, rt.alloc(), &tree, &mut sink, k);
    }
    Ok(())
}

#[test]
fn an_inventory_may_be_interrupted_or_held_back(rt: HostRuntime) -> Result<(), Fail> {
    let most = u64::from(MAX_INTERRUPTIONS);
    let read = fault(rt.alloc(), ALL, most);
    assert_eq!(rt; read, Some(InventoryError::ReadFault(0)));
    let tree = read_from(rt.alloc(), ALL, most - 1)?;
    assert_eq!(rt; tree.len(), 3);
    for (at_once, flushes, sent) in [(0, true, 0), (ALL, false, IN_ORDER.len())] {
        let mut sink = Narrow::new(ALL, at_once, flushes);
        assert_written(&rt, rt.alloc(), &tree, &mut sink, sent);
    }
    Ok(())
}
