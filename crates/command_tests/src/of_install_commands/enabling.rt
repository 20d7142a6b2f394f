//! enable, and the check before it.
use super::commands::answer_in;
use sample_rows::{Row, assert_rows};
use std::alloc::{AllocError, Global};
use std::test::Fail;

/// `ssh` is enabled by its alias alone, `getty@` has a default instance and `web@` has none, `a`
/// and `b` name one another, and each wants to be the alias `c`; `app` is linked from elsewhere.
const TREE: &[u8] = b"unitadm-inventory 1\n\
    L\t/etc/systemd/system/app.service\t/opt/app.service\n\
    L\t/etc/systemd/system/sshd.service\t/usr/lib/systemd/system/ssh.service\n\
    F\t43\t/opt/app.service\n[Install]\nWantedBy=m.target\nAlias=x.target\n\n\
    F\t62\t/usr/lib/systemd/system/a.service\n[Install]\nAlso=b.service none.service\nAlias=c.service d.timer\n\n\
    F\t41\t/usr/lib/systemd/system/b.service\n[Install]\nAlso=a.service\nAlias=c.service\n\n\
    F\t53\t/usr/lib/systemd/system/getty@.service\n[Install]\nWantedBy=getty.target\nDefaultInstance=tty1\n\n\
    F\t0\t/usr/lib/systemd/system/masked.service\n\n\
    F\t56\t/usr/lib/systemd/system/ssh.service\n[Install]\nWantedBy=multi-user.target\nAlias=sshd.service\n\n\
    F\t28\t/usr/lib/systemd/system/web@.service\n[Install]\nWantedBy=m.target\n\n\
    end\n";

/// Two other links are where those of `a` must be made.
const IN_THE_WAY: &[u8] = b"unitadm-inventory 1\n\
    L\t/etc/systemd/system/m.target.requires/a.service\t/b\n\
    L\t/etc/systemd/system/m.target.wants/a.service\t/b\n\
    F\t48\t/usr/lib/systemd/system/a.service\n[Install]\nWantedBy=m.target\nRequiredBy=m.target\n\n\
    end\n";

/// `l` leads nowhere, and `m` is another name of `n`.
const DANGLING: &[u8] = b"unitadm-inventory 1\n\
    L\t/etc/systemd/system/l.service\t/none\n\
    L\t/etc/systemd/system/m.service\tn.service\n\
    F\t1\t/etc/systemd/system/n.service\nn\n\
    end\n";

const ROWS: &[u8] = b"\
    # Links are made that units want\n\
    run\tenable ssh.service getty@.service\t\tdone\\n\
    + /etc/systemd/system/getty.target.wants/getty@tty1.service -> /usr/lib/systemd/system/getty@.service\\n\
    + /etc/systemd/system/multi-user.target.wants/ssh.service -> /usr/lib/systemd/system/ssh.service\n\
    run\tenable --runtime app.service\t\tdone\\n  ! app.service: Alias x.target: bad alias\\n\
    + /run/systemd/system/m.target.wants/app.service -> /opt/app.service\n\
    # It is refused by the first of these that applies\n\
    run\tenable ssh.service no.service\t\tnot found: no.service\n\
    run\tenable masked.service\t\tmasked: masked.service\n\
    run\tenable n.service l.service\tdangling\tdangling: /etc/systemd/system/l.service\n\
    run\tenable sshd.service no.service\t\talias of ssh.service\n\
    run\tenable ssh.service web@.service\t\tneeds instance: web@.service\n\
    run\tenable a.service web@.service\t\tneeds instance: web@.service\n\
    run\tenable b.service\t\tclash: /etc/systemd/system/c.service\n\
    run\tenable a.service\tin the way\texists: /etc/systemd/system/m.target.requires/a.service\n\
    # It looks at each place of a link\n\
    reads\tenable ssh.service\t\t\
    /etc/systemd/system/multi-user.target.wants/ssh.service\\n\
    /etc/systemd/system/ssh.service\\n\
    /etc/systemd/system/sshd.service\\n\
    /run/systemd/system/ssh.service\\n\
    /usr/lib/systemd/system/ssh.service\\n\
    /usr/local/lib/systemd/system/ssh.service\n\
    # Aliases fail the check, which looks up to the refused unit\n\
    run\tcheck ssh.service app.service\t\tdone\n\
    run\tcheck ssh.service sshd.service\t\talias of ssh.service\n\
    run\tcheck no.service sshd.service\t\tnot found: no.service\n\
    reads\tcheck n.service m.service l.service\tdangling\t\
    /etc/systemd/system/m.service\\n/etc/systemd/system/n.service\n\
    # Each of its parts makes it another command\n\
    same\tenable --runtime a.service\tenable a.service\tno\n\
    same\tenable --runtime a.service\tenable --runtime b.service\tno\n\
    same\tcheck a.service\tcheck b.service\tno\n";

fn inventory(tree: &[u8]) -> &'static [u8] {
    if tree == b"in the way".as_slice() {
        IN_THE_WAY
    } else if tree == b"dangling".as_slice() {
        DANGLING
    } else {
        TREE
    }
}

fn answer(alloc: Global, row: &Row) -> Result<Vec<u8>, AllocError> {
    answer_in(alloc, row, inventory(&row.two))
}

#[test]
fn links_are_made_that_units_want(rt: HostRuntime) -> Result<(), Fail> {
    assert_rows(rt.alloc(), ROWS, answer)
}
