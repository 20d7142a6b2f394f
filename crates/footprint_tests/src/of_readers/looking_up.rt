//! Which rows are found by a change.
use super::indexes::{found, listed};
use crate::changes::change;
use link_tree::Change;
use readers::Readers;
use sample_rows::{Row, assert_rows, is};
use std::alloc::{AllocError, Global};
use std::test::Fail;

const ROWS: &[u8] = b"\
    # found: the rows that looked at what the change ONE touches: its path, the entry before and\n\
    # the one after.\n\
    # A link of a unit: its cell, and its name in its scope.\n\
    found\t/etc/systemd/system/a.service||/usr/lib/systemd/system/a.service\t\t156\n\
    found\t/run/systemd/system/a.service||/usr/lib/systemd/system/a.service\t\t3\n\
    # The entry before counts too, and the end of a target. A target needs no slash.\n\
    found\t/etc/systemd/system/c.service|b.service|\t\t27\n\
    found\t/etc/systemd/system/c.service||/usr/lib/systemd/system/b.service\t\t27\n\
    found\t/etc/systemd/system/c.service|/opt/a.service|/opt/b.service\t\t1267\n\
    # A file belongs to no name, nor does a link to /dev/null.\n\
    found\t/etc/systemd/system/a.service||:\t\t15\n\
    found\t/etc/systemd/system/a.service|/dev/null|\t\t15\n\
    found\t/run/systemd/system/a.service|../../../dev/null|/dev/null\t\t\n\
    # A dependency: its name and that of its file, and the links.\n\
    found\t/etc/systemd/system/m.target.wants/a.service||/opt/c.service\t\t136\n\
    found\t/run/systemd/system/m.target.requires/x.service||/opt/b.service\t\t36\n\
    # An instance has no links but those of its own name. Its template has these too.\n\
    found\t/etc/systemd/system/x.service||/usr/lib/systemd/system/web@a.service\t\t\n\
    found\t/etc/systemd/system/x.service||/usr/lib/systemd/system/web@.service\t\t4\n\
    found\t/etc/systemd/system/web@a.service||/opt/x.service\t\t4\n\
    # The presets.\n\
    found\t/etc/systemd/system-preset/1.preset||:\t\t26\n";

fn answer(alloc: Global, row: &Row) -> Result<Vec<u8>, AllocError> {
    if !is(row, b"found") {
        return Vec::from_slice(alloc, b"unknown kind");
    }
    let readers = listed(alloc)?;
    let change = change(alloc, &row.one)?;
    found(alloc, &readers, &change)
}

#[test]
fn rows_are_found_by_each_kind_of_key(rt: HostRuntime) -> Result<(), Fail> {
    assert_rows(rt.alloc(), ROWS, answer)
}
