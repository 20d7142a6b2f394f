//! disable.
use super::commands::answer_in;
use sample_rows::{Row, assert_rows};
use std::alloc::{AllocError, Global};
use std::test::Fail;

/// `a` names `b`, both are enabled, `a` by hand too; `null` is masked, and `gone` has links but no
/// file.
const TREE: &[u8] = b"unitadm-inventory 1\n\
    L\t/etc/systemd/system/alias.service\t/usr/lib/systemd/system/a.service\n\
    L\t/etc/systemd/system/m.target.wants/a.service\t/usr/lib/systemd/system/a.service\n\
    L\t/etc/systemd/system/m.target.wants/b.service\t/usr/lib/systemd/system/b.service\n\
    L\t/etc/systemd/system/m.target.wants/gone.service\t/usr/lib/systemd/system/gone.service\n\
    L\t/etc/systemd/system/n.target.wants/other.service\t../a.service\n\
    L\t/etc/systemd/system/null.service\t/dev/null\n\
    L\t/run/systemd/system/m.target.wants/a.service\t/usr/lib/systemd/system/a.service\n\
    F\t36\t/usr/lib/systemd/system/a.service\n[Install]\nAlso=b.service no.service\n\n\
    F\t1\t/usr/lib/systemd/system/b.service\n#\n\
    end\n";

const ROWS: &[u8] = b"\
    # All links of the units are removed\n\
    run\tdisable alias.service\t\tdone\\n  ! a.service: Also no.service: not found\\n\
    - /etc/systemd/system/alias.service -> /usr/lib/systemd/system/a.service\\n\
    - /etc/systemd/system/m.target.wants/a.service -> /usr/lib/systemd/system/a.service\\n\
    - /etc/systemd/system/m.target.wants/b.service -> /usr/lib/systemd/system/b.service\\n\
    - /etc/systemd/system/n.target.wants/other.service -> ../a.service\n\
    # Links of the scope alone are removed\n\
    run\tdisable --runtime a.service\t\tdone\\n  ! a.service: Also no.service: not found\\n\
    - /run/systemd/system/m.target.wants/a.service -> /usr/lib/systemd/system/a.service\n\
    # Names without a unit are disabled too\n\
    run\tdisable gone.service null.service nowhere.service\t\tdone\\n\
    - /etc/systemd/system/m.target.wants/gone.service -> /usr/lib/systemd/system/gone.service\n\
    # It looks at names and at links\n\
    reads\tdisable b.service\t\t\
    /etc/systemd/system/b.service\\n\
    /etc/systemd/system/m.target.wants/b.service\\n\
    /run/systemd/system/b.service\\n\
    /usr/lib/systemd/system/b.service\\n\
    /usr/local/lib/systemd/system/b.service\\n\
    etc b.service\n\
    # Each of its parts makes it another command\n\
    same\tdisable --runtime a.service\tdisable a.service\tno\n\
    same\tdisable --runtime a.service\tdisable --runtime b.service\tno\n";

fn answer(alloc: Global, row: &Row) -> Result<Vec<u8>, AllocError> {
    answer_in(alloc, row, TREE)
}

#[test]
fn all_links_of_the_units_are_removed(rt: HostRuntime) -> Result<(), Fail> {
    assert_rows(rt.alloc(), ROWS, answer)
}
