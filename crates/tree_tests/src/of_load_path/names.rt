//! Aliases, and the files that belong to no unit.
use super::trees::{Named, answer_in, answer_of};
use load_path::put_in;
use sample_rows::{Row, assert_rows, is, number_of};
use sample_values::{name, tree};
use std::alloc::{AllocError, Global};
use std::test::Fail;
use unit_name::{Kind, UnitName};

/// What is found under a name.
const ROWS: &[u8] = b"\
    # Aliases lead to units.\n\
    find\taliases\tb.service\ta.service in /usr/lib/systemd/system/a.service, from Etc\n\
    find\taliases\tu@.service\tt@.service in /usr/lib/systemd/system/t@.service, from Etc\n\
    find\taliases\tu@x.service\tt@x.service in /usr/lib/systemd/system/t@x.service, from Etc\n\
    find\taliases\tu@y.service\tt@y.service in /usr/lib/systemd/system/t@.service, from Etc\n\
    find\taliases\tv@x.service\tt@x.service in /usr/lib/systemd/system/t@.service, from Run\n\
    find\taliases\tt@a@b.service\t\
        t@a@b.service in /usr/lib/systemd/system/t@.service, from Vendor\n\
    \n\
    # Files of another type, or of another kind of name, are no units of a name.\n\
    find\tother files\ta.socket\tdangling at /etc/systemd/system/a.socket\n\
    find\tother files\tb.service\tdangling at /etc/systemd/system/b.service\n\
    find\tother files\tc.service\tdangling at /etc/systemd/system/c.service\n\
    find\tother files\td@.service\tdangling at /etc/systemd/system/d@.service\n\
    find\tother files\te@.service\tdangling at /etc/systemd/system/e@.service\n\
    find\tother files\tf@x.service\tdangling at /etc/systemd/system/f@x.service\n\
    find\tother files\tg@y.service\tdangling at /etc/systemd/system/g@y.service\n\
    find\tother files\td@x.service\tdangling at /etc/systemd/system/d@.service\n\
    \n\
    # With so many bytes of instance a name has 255: that of the template's file would be too long.\n\
    find\tlong names\t245\tdangling at /etc/systemd/system/u@.service\n\
    count\tlong names\t245\t6\n\
    \n\
    # Templates take instances.\n\
    put in\ttty1\t\tt@tty1.service\n\
    put in\ta@b\t\tt@a@b.service\n\
    put in\t\t\tt@.service\n\
    put in\ta/b\t\tnone\n\
    put in long\t246\t\tnone\n\
    put in nothing\t\t\tnone\n";

const TREES: [Named; 2] = [(b"aliases", ALIASES), (b"other files", OTHER_FILES)];

const ALIASES: &[u8] = b"unitadm-inventory 1\n\
F\t7\t/usr/lib/systemd/system/a.service\n[Unit]\n\n\
F\t7\t/usr/lib/systemd/system/t@.service\n[Unit]\n\n\
F\t7\t/usr/lib/systemd/system/t@x.service\n[Unit]\n\n\
L\t/etc/systemd/system/b.service\t/lib/systemd/system/a.service\n\
L\t/etc/systemd/system/u@.service\t/usr/lib/systemd/system/t@.service\n\
L\t/etc/systemd/system/u@x.service\t/usr/lib/systemd/system/t@x.service\n\
L\t/run/systemd/system/v@x.service\t/usr/lib/systemd/system/t@.service\n\
end\n";

const OTHER_FILES: &[u8] = b"unitadm-inventory 1\n\
F\t7\t/usr/lib/systemd/system/a.service\n[Unit]\n\n\
F\t7\t/usr/lib/systemd/system/t@.service\n[Unit]\n\n\
F\t7\t/usr/lib/systemd/system/t@x.service\n[Unit]\n\n\
L\t/etc/systemd/system/a.socket\t/usr/lib/systemd/system/a.service\n\
L\t/etc/systemd/system/b.service\t/usr/lib/systemd/system/t@.service\n\
L\t/etc/systemd/system/c.service\t/usr/lib/systemd/system/t@x.service\n\
L\t/etc/systemd/system/d@.service\t/usr/lib/systemd/system/a.service\n\
L\t/etc/systemd/system/e@.service\t/usr/lib/systemd/system/t@x.service\n\
L\t/etc/systemd/system/f@x.service\t/usr/lib/systemd/system/a.service\n\
L\t/etc/systemd/system/g@y.service\t/usr/lib/systemd/system/t@x.service\n\
end\n";

/// An alias of a template whose name has 100 bytes.
const LONG_NAMES: &[u8] = b"unitadm-inventory 1\n\
F\t7\t/etc/systemd/system/\
aaaaaaaaaaaaaaaaaaaaaaaaaaaaaaaaaaaaaaaaaaaaaaaaaaaaaaaaaaaaaaaaaaaaaaaaaaaaaaaaaaaaaaaaaaa@.service\n\
[Unit]\n\n\
L\t/etc/systemd/system/u@.service\t\
aaaaaaaaaaaaaaaaaaaaaaaaaaaaaaaaaaaaaaaaaaaaaaaaaaaaaaaaaaaaaaaaaaaaaaaaaaaaaaaaaaaaaaaaaaa@.service\n\
end\n";

/// A name with an instance of this number of bytes.
fn long_name(alloc: Global, len: usize) -> Result<Vec<u8>, AllocError> {
    let instance = Vec::from_elem(alloc, b'b', len)?;
    [b"u@", instance.as_slice(), b".service"].concat(alloc)
}

fn answer_of_long(alloc: Global, row: &Row) -> Result<Vec<u8>, AllocError> {
    let tree = tree(alloc, LONG_NAMES)?;
    let name = long_name(alloc, number_of(&row.two))?;
    answer_of(alloc, &tree, row, &name)
}

/// The instance of a template; none for any other name.
fn instance_of(
    alloc: Global,
    template: &UnitName,
    instance: Option<&[u8]>,
) -> Result<Option<UnitName>, AllocError> {
    match template.kind() {
        Kind::Template => put_in(alloc, template, instance),
        Kind::Plain | Kind::Instance => Ok(None),
    }
}

/// The template `t@.service` with this instance.
fn with_instance(alloc: Global, instance: Option<&[u8]>) -> Result<Vec<u8>, AllocError> {
    let template = name(alloc, b"t@.service")?;
    match instance_of(alloc, &template, instance)? {
        Some(name) => Vec::from_slice(alloc, name.text()),
        None => Vec::from_slice(alloc, b"none"),
    }
}

fn with_long_instance(alloc: Global, len: usize) -> Result<Vec<u8>, AllocError> {
    let instance = Vec::from_elem(alloc, b'x', len)?;
    with_instance(alloc, Some(&instance))
}

fn answer(alloc: Global, row: &Row) -> Result<Vec<u8>, AllocError> {
    if row.one.as_slice() == b"long names".as_slice() {
        answer_of_long(alloc, row)
    } else if is(row, b"put in") {
        with_instance(alloc, Some(&row.one))
    } else if is(row, b"put in long") {
        with_long_instance(alloc, number_of(&row.one))
    } else if is(row, b"put in nothing") {
        with_instance(alloc, None)
    } else {
        answer_in(alloc, row, &TREES)
    }
}

#[test]
fn aliases_lead_to_units(rt: HostRuntime) -> Result<(), Fail> {
    assert_rows(rt.alloc(), ROWS, answer)
}
