//! Chains of links.
use super::trees::{Named, answer_in};
use sample_rows::{Row, assert_rows};
use std::alloc::{AllocError, Global};
use std::test::Fail;

/// What is found under a name or at the end of a path, and how many paths are looked at.
const ROWS: &[u8] = b"\
    # Eight links are followed.\n\
    find\tnine links\ta2.service\tae.service in /etc/systemd/system/ae.service, from Etc\n\
    count\tnine links\ta2.service\t9\n\
    follow\tnine links\t/etc/systemd/system/a2.service\t\
        file /etc/systemd/system/ae.service, 9 looked at\n\
    \n\
    # The path of an entry that is followed is not looked at.\n\
    follow entry\tnine links\t/etc/systemd/system/a8.service\t\
        /etc/systemd/system/a9.service\\n\
        /etc/systemd/system/ae.service\\n\n\
    \n\
    # A ninth link is not followed, not even one to /dev/null.\n\
    find\tnine links\ta1.service\tdangling at /etc/systemd/system/a8.service\n\
    follow\tnine links\t/etc/systemd/system/a1.service\t\
        dangling at /etc/systemd/system/a8.service, 9 looked at\n\
    follow\tnine links to null\t/etc/systemd/system/a1.service\t\
        dangling at /etc/systemd/system/a8.service, 9 looked at\n\
    follow\tnine links to null\t/etc/systemd/system/a2.service\t/dev/null, 8 looked at\n\
    \n\
    # Links may go round.\n\
    find\tround\ta.service\tdangling at /etc/systemd/system/b.service\n\
    look at\tround\ta.service\t\
        /etc/systemd/system/a.service\\n\
        /etc/systemd/system/b.service\\n\n\
    \n\
    # Any path is followed.\n\
    follow\tanywhere\t/opt/a\tfile /usr/lib/systemd/system/a.service, 2 looked at\n\
    follow\tanywhere\t/lib/systemd/system/b.service\t\
        file /usr/lib/systemd/system/a.service, 2 looked at\n\
    follow\tanywhere\t/usr/lib/systemd/system/a.service\t\
        file /usr/lib/systemd/system/a.service, 1 looked at\n\
    follow\tanywhere\t/opt/b\tdangling at /opt/b, 1 looked at\n\
    follow\tanywhere\t/lib/systemd/system/a.service\tmissing, 1 looked at\n";

const TREES: [Named; 4] = [
    (b"nine links", NINE_LINKS),
    (b"nine links to null", NINE_LINKS_TO_NULL),
    (b"round", ROUND),
    (b"anywhere", ANYWHERE),
];

/// Nine links to a file.
const NINE_LINKS: &[u8] = b"unitadm-inventory 1\n\
F\t7\t/etc/systemd/system/ae.service\n\
[Unit]\n\
\n\
L\t/etc/systemd/system/a1.service\ta2.service\n\
L\t/etc/systemd/system/a2.service\ta3.service\n\
L\t/etc/systemd/system/a3.service\ta4.service\n\
L\t/etc/systemd/system/a4.service\ta5.service\n\
L\t/etc/systemd/system/a5.service\ta6.service\n\
L\t/etc/systemd/system/a6.service\ta7.service\n\
L\t/etc/systemd/system/a7.service\ta8.service\n\
L\t/etc/systemd/system/a8.service\ta9.service\n\
L\t/etc/systemd/system/a9.service\tae.service\n\
end\n";

/// Nine links to /dev/null.
const NINE_LINKS_TO_NULL: &[u8] = b"unitadm-inventory 1\n\
F\t7\t/etc/systemd/system/ae.service\n\
[Unit]\n\
\n\
L\t/etc/systemd/system/a1.service\ta2.service\n\
L\t/etc/systemd/system/a2.service\ta3.service\n\
L\t/etc/systemd/system/a3.service\ta4.service\n\
L\t/etc/systemd/system/a4.service\ta5.service\n\
L\t/etc/systemd/system/a5.service\ta6.service\n\
L\t/etc/systemd/system/a6.service\ta7.service\n\
L\t/etc/systemd/system/a7.service\ta8.service\n\
L\t/etc/systemd/system/a8.service\ta9.service\n\
L\t/etc/systemd/system/a9.service\t/dev/null\n\
end\n";

/// Two links that lead to each other.
const ROUND: &[u8] = b"unitadm-inventory 1\n\
L\t/etc/systemd/system/a.service\tb.service\n\
L\t/etc/systemd/system/b.service\ta.service\n\
end\n";

/// Links at paths that don't belong to a unit, to a unit's file.
const ANYWHERE: &[u8] = b"unitadm-inventory 1\n\
L\t/lib/systemd/system/b.service\ta.service\n\
L\t/opt/a\t/lib/systemd/system/a.service\n\
L\t/opt/b\t/\n\
F\t7\t/usr/lib/systemd/system/a.service\n[Unit]\n\n\
end\n";

fn answer(alloc: Global, row: &Row) -> Result<Vec<u8>, AllocError> {
    answer_in(alloc, row, &TREES)
}

#[test]
fn eight_links_are_followed(rt: HostRuntime) -> Result<(), Fail> {
    assert_rows(rt.alloc(), ROWS, answer)
}
