//! set-default.
use crate::lines::arguments;
use crate::questions::{OfLine, asked};
use sample_rows::{Row, assert_rows};
use sample_values::name;
use slot_commands::SetDefault;
use std::alloc::{AllocError, Global};
use std::test::Fail;

/// What each tree has in addition to the default target.
const REST: &[u8] = b"F\t1\t/usr/lib/systemd/system/multi-user.target\nm\n\
    L\t/usr/lib/systemd/system/runlevel3.target\tmulti-user.target\n\
    F\t1\t/usr/lib/systemd/system/ssh.service\ns\n\
    F\t1\t/usr/lib/systemd/system/ssh@.service\ns\n\
    L\t/usr/lib/systemd/system/sshd.service\tssh.service\n\
    F\t1\t/usr/lib/systemd/system/t@.target\nt\n\
    L\t/usr/lib/systemd/system/u@.target\tt@.target\n\
    L\t/etc/systemd/system/d.target\tnone\n\
    L\t/etc/systemd/system/m.service\t/dev/null\n\
    end\n";

const NULL: &[u8] = b"L\t/etc/systemd/system/default.target\t/dev/null\n";

const NOWHERE: &[u8] = b"L\t/etc/systemd/system/default.target\tnowhere\n";

const SPELT: &[u8] =
    b"L\t/etc/systemd/system/default.target\t/lib/systemd/system/multi-user.target\n";

const FILE: &[u8] = b"F\t1\t/etc/systemd/system/default.target\nd\n";

/// Trees are named by what is at `default.target` in `/etc`: nothing, if there is no name.
const ROWS: &[u8] = b"\
    # A link is made, or leads elsewhere than before\n\
    run\tset-default runlevel3.target\t\tdone\\n\
    + /etc/systemd/system/default.target -> /usr/lib/systemd/system/multi-user.target\n\
    run\tset-default runlevel3.target\tnull\tdone\\n\
    - /etc/systemd/system/default.target -> /dev/null\\n\
    + /etc/systemd/system/default.target -> /usr/lib/systemd/system/multi-user.target\n\
    run\tset-default runlevel3.target\tnowhere\tdone\\n\
    - /etc/systemd/system/default.target -> nowhere\\n\
    + /etc/systemd/system/default.target -> /usr/lib/systemd/system/multi-user.target\n\
    # A link that leads there in another spelling is left as it is\n\
    run\tset-default multi-user.target\tspelt\tdone\n\
    # It is refused by what is found, before it looks at the file that is in the way\n\
    run\tset-default none.service\tfile\tnot found: none.service\n\
    run\tset-default m.service\tfile\tmasked: m.service\n\
    run\tset-default d.target\tfile\tdangling: /etc/systemd/system/d.target\n\
    # Only a target is a default\n\
    run\tset-default sshd.service\tfile\tbad type: sshd.service\n\
    run\tset-default ssh@.service\tfile\tbad type: ssh@.service\n\
    run\tset-default u@.target\tfile\tneeds instance: t@.target\n\
    # A file is in the way\n\
    run\tset-default multi-user.target\tfile\texists: /etc/systemd/system/default.target\n\
    run\tset-default default.target\tfile\texists: /etc/systemd/system/default.target\n\
    # The default is looked at if a target is found, and not if the command is refused before\n\
    reads\tset-default runlevel3.target\t\t\
    /etc/systemd/system/default.target\\n\
    /etc/systemd/system/runlevel3.target\\n\
    /run/systemd/system/runlevel3.target\\n\
    /usr/lib/systemd/system/multi-user.target\\n\
    /usr/lib/systemd/system/runlevel3.target\\n\
    /usr/local/lib/systemd/system/runlevel3.target\n\
    reads\tset-default m.service\t\t/etc/systemd/system/m.service\n\
    # Another target makes it another command\n\
    same\tset-default a.target\tset-default b.target\tno\n";

impl OfLine for SetDefault {
    fn of_line(alloc: Global, line: &[u8]) -> Result<SetDefault, AllocError> {
        let unit = name(alloc, arguments(line))?;
        Ok(SetDefault { unit })
    }
}

/// The entry of the default target.
fn default_of(tree: &[u8]) -> &'static [u8] {
    if tree == b"null".as_slice() {
        NULL
    } else if tree == b"nowhere".as_slice() {
        NOWHERE
    } else if tree == b"spelt".as_slice() {
        SPELT
    } else if tree == b"file".as_slice() {
        FILE
    } else {
        b""
    }
}

fn inventory(alloc: Global, tree: &[u8]) -> Result<Vec<u8>, AllocError> {
    let mut text = Vec::new(alloc);
    text.extend_from_slice(b"unitadm-inventory 1\n")?;
    text.extend_from_slice(default_of(tree))?;
    text.extend_from_slice(REST)?;
    Ok(text)
}

fn answer(alloc: Global, row: &Row) -> Result<Vec<u8>, AllocError> {
    let inventory = inventory(alloc, &row.two)?;
    asked::<SetDefault>(alloc, row, &inventory)
}

#[test]
fn the_default_is_a_link_to_the_target_that_is_found(rt: HostRuntime) -> Result<(), Fail> {
    assert_rows(rt.alloc(), ROWS, answer)
}
