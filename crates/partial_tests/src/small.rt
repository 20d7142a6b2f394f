//! Scripts on a root of three entries: few enough growths of memory to refuse each in turn.
use crate::comparing::compared;
use crate::root::Root;
use sample_rows::{Row, assert_rows};
use sample_values::tree;
use std::alloc::{AllocError, Global};
use std::test::Fail;
use unit_name::ample;

const UNITS: &[u8] = b"unitadm-inventory 1
F\t34\t/usr/lib/systemd/system/a.service
[Install]
WantedBy=b.target
Also=

L\t/etc/systemd/system/b.target.wants/c.service\t../c.service
F\t0\t/usr/lib/systemd/system/d.service

end
";

const ROWS: &[u8] = b"\
    # A script, and whether its replies and its changes in all are those on all of the root.\n\
    alice mask c.service; bob undo 1; bob redo 1\t\t\t3 rows as on all; 0 of 3 entries\n\
    alice enable a.service\t\t\t1 rows as on all; 1 of 3 entries\n\
    alice disable c.service\t\t\t1 rows as on all; 1 of 3 entries\n";

fn answer(alloc: Global, row: &Row) -> Result<Vec<u8>, AllocError> {
    let units = tree(alloc, UNITS)?;
    let mut root = Root::new(alloc, &units)?;
    compared(alloc, &mut root, &row.kind)
}

#[test]
fn replies_are_those_on_all(rt: HostRuntime) -> Result<(), Fail> {
    assert_rows(rt.alloc(), ROWS, answer)
}
