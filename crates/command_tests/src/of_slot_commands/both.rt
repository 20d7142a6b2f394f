//! Two commands, one after the other.
use crate::lines::have_verbs;
use crate::questions::{asked, no_such_verb};
use sample_rows::{Row, assert_rows};
use slot_commands::{AddTo, LinkUnits, Mask, PlaceEntry, Unmask};
use std::alloc::{AllocError, Global};
use std::test::Fail;
use two_operations::Then;

const EMPTY: &[u8] = b"unitadm-inventory 1\nend\n";

/// A file outside the directories of units, and a target.
const FILES: &[u8] = b"unitadm-inventory 1\n\
    F\t1\t/opt/app.service\na\n\
    F\t1\t/usr/lib/systemd/system/multi-user.target\nm\n\
    end\n";

/// A link is in the way of a mask of `x`.
const LINK: &[u8] = b"unitadm-inventory 1\n\
    L\t/etc/systemd/system/x.service\t/a\n\
    end\n";

/// `c` is masked.
const MASKED: &[u8] = b"unitadm-inventory 1\n\
    L\t/etc/systemd/system/c.service\t/dev/null\n\
    end\n";

const ROWS: &[u8] = b"\
    # What is masked and unmasked is no change\n\
    run\tmask x.service, unmask x.service\tempty\tdone\n\
    reads\tmask x.service, unmask x.service\tempty\t/etc/systemd/system/x.service\n\
    # The second finds what the first has made\n\
    run\tlink /opt/app.service, add-wants multi-user.target app.service\tfiles\tdone\\n\
    + /etc/systemd/system/app.service -> /opt/app.service\\n\
    + /etc/systemd/system/multi-user.target.wants/app.service -> /opt/app.service\n\
    reads\tlink /opt/app.service, add-wants multi-user.target app.service\tfiles\t\
    /etc/systemd/system/app.service\\n\
    /etc/systemd/system/multi-user.target\\n\
    /etc/systemd/system/multi-user.target.wants/app.service\\n\
    /opt/app.service\\n\
    /run/systemd/system/multi-user.target\\n\
    /usr/lib/systemd/system/multi-user.target\\n\
    /usr/local/lib/systemd/system/multi-user.target\n\
    # A second that is refused drops the changes of the first\n\
    run\tmask x.service y.service, place /etc/systemd/system/y.service file\tempty\t\
    exists: /etc/systemd/system/y.service\n\
    reads\tmask x.service y.service, place /etc/systemd/system/y.service file\tempty\t\
    /etc/systemd/system/x.service\\n/etc/systemd/system/y.service\n\
    # Nothing is run after a first that is refused\n\
    run\tmask x.service, mask y.service\tlink\texists: /etc/systemd/system/x.service\n\
    reads\tmask x.service, mask y.service\tlink\t/etc/systemd/system/x.service\n\
    # A second takes a part of the first back\n\
    run\tmask a.service b.service, unmask c.service b.service\tmasked\tdone\\n\
    + /etc/systemd/system/a.service -> /dev/null\\n\
    - /etc/systemd/system/c.service -> /dev/null\n\
    # Each of the two makes them other commands\n\
    same\tmask a.service, mask b.service\tmask a.service, mask c.service\tno\n\
    same\tmask a.service, mask b.service\tmask b.service, mask b.service\tno\n";

fn inventory(tree: &[u8]) -> &'static [u8] {
    if tree == b"files".as_slice() {
        FILES
    } else if tree == b"link".as_slice() {
        LINK
    } else if tree == b"masked".as_slice() {
        MASKED
    } else {
        EMPTY
    }
}

fn answer(alloc: Global, row: &Row) -> Result<Vec<u8>, AllocError> {
    let inventory = inventory(&row.two);
    if have_verbs(&row.one, b"mask", b"unmask") {
        asked::<Then<Mask, Unmask>>(alloc, row, inventory)
    } else if have_verbs(&row.one, b"link", b"add-wants") {
        asked::<Then<LinkUnits, AddTo>>(alloc, row, inventory)
    } else if have_verbs(&row.one, b"mask", b"place") {
        asked::<Then<Mask, PlaceEntry>>(alloc, row, inventory)
    } else if have_verbs(&row.one, b"mask", b"mask") {
        asked::<Then<Mask, Mask>>(alloc, row, inventory)
    } else {
        no_such_verb(alloc)
    }
}

#[test]
fn two_commands_are_run_one_after_the_other(rt: HostRuntime) -> Result<(), Fail> {
    assert_rows(rt.alloc(), ROWS, answer)
}
