//! Commands that follow one another.
use super::commands::answer_in;
use sample_rows::{Row, assert_rows};
use std::alloc::{AllocError, Global};
use std::test::Fail;

/// `a` names `b`, and both are wanted.
const PAIR: &[u8] = b"unitadm-inventory 1\n\
    F\t41\t/usr/lib/systemd/system/a.service\n[Install]\nAlso=b.service\nAlias=x.service\n\n\
    F\t28\t/usr/lib/systemd/system/b.service\n[Install]\nWantedBy=m.target\n\n\
    end\n";

/// The instance dangles, until the link that leads to its template is made.
const DANGLING: &[u8] = b"unitadm-inventory 1\n\
    L\t/etc/systemd/system/a@1.service\t/etc/systemd/system/b@.service\n\
    F\t44\t/usr/lib/systemd/system/a@.service\n[Install]\nAlso=a@1.service\nAlias=b@.service\n\n\
    end\n";

/// A link is the way to `a`, and hides a file of that name in another directory.
const HIDDEN_FILE: &[u8] = b"unitadm-inventory 1\n\
    L\t/etc/systemd/system/a.service\t/opt/a.service\n\
    L\t/etc/systemd/system/m.target.wants/b.service\t/usr/lib/systemd/system/b.service\n\
    F\t1\t/opt/a.service\n#\n\
    F\t25\t/usr/lib/systemd/system/a.service\n[Install]\nAlso=b.service\n\n\
    F\t1\t/usr/lib/systemd/system/b.service\n#\n\
    end\n";

/// The alias that `a` asks for hides `b`.
const HIDING_ALIAS: &[u8] = b"unitadm-inventory 1\n\
    F\t41\t/usr/lib/systemd/system/a.service\n[Install]\nAlso=b.service\nAlias=b.service\n\n\
    F\t28\t/usr/lib/systemd/system/b.service\n[Install]\nWantedBy=m.target\n\n\
    end\n";

/// An instance of the template has an alias.
const TEMPLATE: &[u8] = b"unitadm-inventory 1\n\
    F\t45\t/usr/lib/systemd/system/a@.service\n[Install]\nWantedBy=m.target\nAlias=b@.service\n\n\
    end\n";

const ROWS: &[u8] = b"\
    # A second enable changes nothing, and a disable takes an enable back\n\
    run\tenable a.service, enable a.service\tpair\tdone\\n\
    + /etc/systemd/system/m.target.wants/b.service -> /usr/lib/systemd/system/b.service\\n\
    + /etc/systemd/system/x.service -> /usr/lib/systemd/system/a.service\n\
    run\tenable a.service, disable a.service\tpair\tdone\n\
    # A second enable may find more: the instance joins by Also= once the link that leads to its template is made\n\
    run\tenable a@.service\tdangling\tdone\\n  ! a@.service: Also a@1.service: dangling\\n\
    + /etc/systemd/system/b@.service -> /usr/lib/systemd/system/a@.service\n\
    run\tenable a@.service, enable a@.service\tdangling\tdone\\n  ! a@.service: Also a@1.service: dangling\\n\
    + /etc/systemd/system/b@.service -> /usr/lib/systemd/system/a@.service\\n\
    + /etc/systemd/system/b@1.service -> /usr/lib/systemd/system/a@.service\n\
    # A second disable may find another file: once the link that was the way to the unit is removed\n\
    run\tdisable a.service\thidden file\tdone\\n- /etc/systemd/system/a.service -> /opt/a.service\n\
    run\tdisable a.service, disable a.service\thidden file\tdone\\n\
    - /etc/systemd/system/a.service -> /opt/a.service\\n\
    - /etc/systemd/system/m.target.wants/b.service -> /usr/lib/systemd/system/b.service\n\
    # A disable may leave a unit: one that the alias that was made hides, so that it is named no more\n\
    run\tenable a.service, disable a.service\thiding alias\tdone\\n  ! a.service: Also b.service: is an alias\\n\
    + /etc/systemd/system/m.target.wants/b.service -> /usr/lib/systemd/system/b.service\n\
    # A disable leaves the alias of an instance, which belongs to none of the names\n\
    run\tenable a@1.service, disable a@1.service\ttemplate\tdone\\n\
    + /etc/systemd/system/b@1.service -> /usr/lib/systemd/system/a@.service\n";

fn inventory(tree: &[u8]) -> &'static [u8] {
    if tree == b"dangling".as_slice() {
        DANGLING
    } else if tree == b"hidden file".as_slice() {
        HIDDEN_FILE
    } else if tree == b"hiding alias".as_slice() {
        HIDING_ALIAS
    } else if tree == b"template".as_slice() {
        TEMPLATE
    } else {
        PAIR
    }
}

fn answer(alloc: Global, row: &Row) -> Result<Vec<u8>, AllocError> {
    answer_in(alloc, row, inventory(&row.two))
}

#[test]
fn a_second_command_finds_what_the_first_has_made(rt: HostRuntime) -> Result<(), Fail> {
    assert_rows(rt.alloc(), ROWS, answer)
}
