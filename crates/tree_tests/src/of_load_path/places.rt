//! Directories, masks and the paths that are looked at.
use super::trees::{Named, answer_in};
use sample_rows::{Row, assert_rows};
use std::alloc::{AllocError, Global};
use std::test::Fail;

/// What is found under a name, and what is looked at.
const ROWS: &[u8] = b"\
    # The first directory that has an entry counts.\n\
    find\tin directories\ta.service\t\
        a.service in /usr/local/lib/systemd/system/a.service, from Local\n\
    find\tin directories\tb.service\tb.service in /usr/lib/systemd/system/b.service, from Run\n\
    look at\tin directories\ta.service\t\
        /etc/systemd/system/a.service\\n\
        /run/systemd/system/a.service\\n\
        /usr/local/lib/systemd/system/a.service\\n\n\
    look at\tin directories\tb.service\t\
        /etc/systemd/system/b.service\\n\
        /run/systemd/system/b.service\\n\
        /usr/lib/systemd/system/b.service\\n\n\
    \n\
    # An instance is looked for before its template.\n\
    find\ttemplates\ta@x.service\ta@x.service in /usr/lib/systemd/system/a@x.service, from Vendor\n\
    find\ttemplates\tb@x.service\tb@x.service in /run/systemd/system/b@.service, from Run\n\
    look at\ttemplates\tb@x.service\t\
        /etc/systemd/system/b@x.service\\n\
        /run/systemd/system/b@x.service\\n\
        /usr/local/lib/systemd/system/b@x.service\\n\
        /usr/lib/systemd/system/b@x.service\\n\
        /etc/systemd/system/b@.service\\n\
        /run/systemd/system/b@.service\\n\n\
    \n\
    # A unit without an entry is missing.\n\
    find\tplain\ta@.service\tmissing\n\
    find\tplain\ta@x.service\tmissing\n\
    look at\tplain\ta@.service\t\
        /etc/systemd/system/a@.service\\n\
        /run/systemd/system/a@.service\\n\
        /usr/local/lib/systemd/system/a@.service\\n\
        /usr/lib/systemd/system/a@.service\\n\n\
    count\tplain\ta@x.service\t8\n\
    \n\
    # /dev/null is not looked at.\n\
    find\tlinks to null\ta.service\tmasked in Etc\n\
    look at\tlinks to null\ta.service\t\
        /etc/systemd/system/a.service\\n\
        /run/systemd/system/b.service\\n\n\
    \n\
    # What is absent is looked at.\n\
    find\tlinks to nothing\ta.service\tdangling at /etc/systemd/system/b.service\n\
    find\tlinks to nothing\tc.service\tdangling at /run/systemd/system/c.service\n\
    find\tlinks to nothing\td.service\tdangling at /run/systemd/system/c.service\n\
    look at\tlinks to nothing\ta.service\t\
        /etc/systemd/system/a.service\\n\
        /etc/systemd/system/b.service\\n\
        /opt/a.service\\n\n\
    \n\
    # Units are masked in each directory.\n\
    find\tmasks in Etc\ta.service\tmasked in Etc\n\
    find\tmasks in Etc\tb.service\tmasked in Etc\n\
    find\tmasks in Etc\tc.service\tmasked in Etc\n\
    find\tmasks in Etc\td.service\tmasked in Etc\n\
    find\tmasks in Etc\te.service\tmasked in Etc\n\
    find\tmasks in Etc\tf.service\tmasked in Etc\n\
    find\tmasks in Etc\tg@.service\tmasked in Etc\n\
    find\tmasks in Etc\tg@x.service\tmasked in Etc\n\
    find\tmasks in Run\ta.service\tmasked in Run\n\
    find\tmasks in Run\tb.service\tmasked in Run\n\
    find\tmasks in Run\tc.service\tmasked in Run\n\
    find\tmasks in Run\td.service\tmasked in Run\n\
    find\tmasks in Run\te.service\tmasked in Run\n\
    find\tmasks in Run\tf.service\tmasked in Run\n\
    find\tmasks in Run\tg@.service\tmasked in Run\n\
    find\tmasks in Run\tg@x.service\tmasked in Run\n\
    find\tmasks in Local\ta.service\tmasked in Local\n\
    find\tmasks in Local\tb.service\tmasked in Local\n\
    find\tmasks in Local\tc.service\tmasked in Local\n\
    find\tmasks in Local\td.service\tmasked in Local\n\
    find\tmasks in Local\te.service\tmasked in Local\n\
    find\tmasks in Local\tf.service\tmasked in Local\n\
    find\tmasks in Local\tg@.service\tmasked in Local\n\
    find\tmasks in Local\tg@x.service\tmasked in Local\n\
    find\tmasks in Vendor\ta.service\tmasked in Vendor\n\
    find\tmasks in Vendor\tb.service\tmasked in Vendor\n\
    find\tmasks in Vendor\tc.service\tmasked in Vendor\n\
    find\tmasks in Vendor\td.service\tmasked in Vendor\n\
    find\tmasks in Vendor\te.service\tmasked in Vendor\n\
    find\tmasks in Vendor\tf.service\tmasked in Vendor\n\
    find\tmasks in Vendor\tg@.service\tmasked in Vendor\n\
    find\tmasks in Vendor\tg@x.service\tmasked in Vendor\n";

const TREES: [Named; 9] = [
    (b"in directories", IN_DIRECTORIES),
    (b"templates", TEMPLATES),
    (b"plain", PLAIN),
    (b"links to null", LINKS_TO_NULL),
    (b"links to nothing", LINKS_TO_NOTHING),
    (b"masks in Etc", MASKS_IN_ETC),
    (b"masks in Run", MASKS_IN_RUN),
    (b"masks in Local", MASKS_IN_LOCAL),
    (b"masks in Vendor", MASKS_IN_VENDOR),
];

const IN_DIRECTORIES: &[u8] = b"unitadm-inventory 1\n\
F\t7\t/usr/lib/systemd/system/a.service\n[Unit]\n\n\
F\t7\t/usr/local/lib/systemd/system/a.service\n[Unit]\n\n\
F\t7\t/usr/lib/systemd/system/b.service\n[Unit]\n\n\
L\t/run/systemd/system/b.service\t/usr/lib/systemd/system/b.service\n\
end\n";

const TEMPLATES: &[u8] = b"unitadm-inventory 1\n\
F\t7\t/etc/systemd/system/a@.service\n[Unit]\n\n\
F\t7\t/usr/lib/systemd/system/a@x.service\n[Unit]\n\n\
F\t7\t/run/systemd/system/b@.service\n[Unit]\n\n\
end\n";

const PLAIN: &[u8] = b"unitadm-inventory 1\n\
F\t7\t/etc/systemd/system/a.service\n[Unit]\n\n\
end\n";

const LINKS_TO_NULL: &[u8] = b"unitadm-inventory 1\n\
L\t/etc/systemd/system/a.service\t/run/systemd/system/b.service\n\
L\t/run/systemd/system/b.service\t/dev/null\n\
F\t7\t/usr/lib/systemd/system/a.service\n[Unit]\n\n\
end\n";

const LINKS_TO_NOTHING: &[u8] = b"unitadm-inventory 1\n\
L\t/etc/systemd/system/a.service\tb.service\n\
L\t/etc/systemd/system/b.service\t/opt/a.service\n\
L\t/run/systemd/system/c.service\t/\n\
L\t/run/systemd/system/d.service\tc.service\n\
end\n";

/// Masks of each form.
const MASKS_IN_ETC: &[u8] = b"unitadm-inventory 1\n\
L\t/etc/systemd/system/a.service\t/dev/null\n\
L\t/etc/systemd/system/b.service\t../../../../../dev/null\n\
L\t/etc/systemd/system/c.service\t/dev//null\n\
F\t0\t/etc/systemd/system/d.service\n\n\
L\t/etc/systemd/system/e.service\td.service\n\
L\t/etc/systemd/system/f.service\t./b.service\n\
L\t/etc/systemd/system/g@.service\t/dev/null\n\
end\n";

const MASKS_IN_RUN: &[u8] = b"unitadm-inventory 1\n\
L\t/run/systemd/system/a.service\t/dev/null\n\
L\t/run/systemd/system/b.service\t../../../../../dev/null\n\
L\t/run/systemd/system/c.service\t/dev//null\n\
F\t0\t/run/systemd/system/d.service\n\n\
L\t/run/systemd/system/e.service\td.service\n\
L\t/run/systemd/system/f.service\t./b.service\n\
L\t/run/systemd/system/g@.service\t/dev/null\n\
end\n";

const MASKS_IN_LOCAL: &[u8] = b"unitadm-inventory 1\n\
L\t/usr/local/lib/systemd/system/a.service\t/dev/null\n\
L\t/usr/local/lib/systemd/system/b.service\t../../../../../dev/null\n\
L\t/usr/local/lib/systemd/system/c.service\t/dev//null\n\
F\t0\t/usr/local/lib/systemd/system/d.service\n\n\
L\t/usr/local/lib/systemd/system/e.service\td.service\n\
L\t/usr/local/lib/systemd/system/f.service\t./b.service\n\
L\t/usr/local/lib/systemd/system/g@.service\t/dev/null\n\
end\n";

const MASKS_IN_VENDOR: &[u8] = b"unitadm-inventory 1\n\
L\t/usr/lib/systemd/system/a.service\t/dev/null\n\
L\t/usr/lib/systemd/system/b.service\t../../../../../dev/null\n\
L\t/usr/lib/systemd/system/c.service\t/dev//null\n\
F\t0\t/usr/lib/systemd/system/d.service\n\n\
L\t/usr/lib/systemd/system/e.service\td.service\n\
L\t/usr/lib/systemd/system/f.service\t./b.service\n\
L\t/usr/lib/systemd/system/g@.service\t/dev/null\n\
end\n";

fn answer(alloc: Global, row: &Row) -> Result<Vec<u8>, AllocError> {
    answer_in(alloc, row, &TREES)
}

#[test]
fn the_first_directory_counts(rt: HostRuntime) -> Result<(), Fail> {
    assert_rows(rt.alloc(), ROWS, answer)
}
