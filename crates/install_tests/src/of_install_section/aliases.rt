//! Which aliases units may have.
use crate::of_install_section::units::wanted_text;
use link_tree::Scope;
use sample_rows::{Row, assert_rows, is};
use std::alloc::{AllocError, Global};
use std::test::Fail;

const ROWS: &[u8] = b"\
    # alias: the links that the unit ONE wants whose file says `Alias=TWO`, and the notices. An\n\
    # alias has the type of the unit.\n\
    alias\ta.service\tb.socket\t  ! a.service: Alias b.socket: bad alias\\n\n\
    # It is another name of the same kind: a plain one, or a template.\n\
    alias\ta.service\ta.service\t  ! a.service: Alias a.service: bad alias\\n\n\
    alias\ta.service\tb@.service\t  ! a.service: Alias b@.service: bad alias\\n\n\
    alias\ta.service\tb@i.service\t  ! a.service: Alias b@i.service: bad alias\\n\n\
    alias\ta@.service\tb@.service\t\
        /etc/systemd/system/b@.service -> /usr/lib/systemd/system/a@.service\\n\n\
    alias\ta@.service\tb.service b@i.service\t  ! a@.service: Alias b.service: bad alias\\n  \
        ! a@.service: Alias b@i.service: bad alias\\n\n\
    # Specifiers are expanded.\n\
    alias\ta.service\t%p-b.service\t\
        /etc/systemd/system/a-b.service -> /usr/lib/systemd/system/a.service\\n\n\
    alias\ta.service\t%z b\t  ! a.service: Alias %z: bad specifier\\n  \
        ! a.service: Alias b: bad name\\n\n\
    # Units of four types have no aliases.\n\
    alias\ta.mount\tb.mount\t  ! a.mount: Alias b.mount: bad alias\\n\n\
    alias\ta.automount\tb.automount\t  ! a.automount: Alias b.automount: bad alias\\n\n\
    alias\ta.swap\tb.swap\t  ! a.swap: Alias b.swap: bad alias\\n\n\
    alias\ta.slice\tb.slice\t  ! a.slice: Alias b.slice: bad alias\\n\n\
    alias\ta.scope\tb.scope\t/etc/systemd/system/b.scope -> /usr/lib/systemd/system/a.scope\\n\n\
    # alias in a@.service: the same of an instance, whose file is that of its template. A\n\
    # template as an alias means its instance of the same name. Another instance is no alias.\n\
    alias in a@.service\ta@i.service\tb@.service\t\
        /etc/systemd/system/b@i.service -> /usr/lib/systemd/system/a@.service\\n\n\
    alias in a@.service\ta@i.service\tb@i.service\t\
        /etc/systemd/system/b@i.service -> /usr/lib/systemd/system/a@.service\\n\n\
    alias in a@.service\ta@i.service\tb@j.service a@.service b.service\t  \
        ! a@i.service: Alias a@.service: bad alias\\n  \
        ! a@i.service: Alias b.service: bad alias\\n  \
        ! a@i.service: Alias b@j.service: bad alias\\n\n\
    # The template has 200 bytes, so with the instance of 60 the name is too long.\n\
    alias in a@.service\ta@iiiiiiiiiiiiiiiiiiiiiiiiiiiiiiiiiiiiiiiiiiiiiiiiiiiiiiiiiiii.service\t\
        bbbbbbbbbbbbbbbbbbbbbbbbbbbbbbbbbbbbbbbbbbbbbbbbbbbbbbbbbbbbbbbbbbbbbbbbbbbbbbbbbbbbbbbbbbbbbbbbbbbbbbbbbbbbbbbbbbbbbbbbbbbbbbbbbbbbbbbbbbbbbbbbbbbbbbbbbbbbbbbbbbbbbbbbbbbbbbbbbbbbbbbbbbbbbbb@.service\t  \
        ! a@iiiiiiiiiiiiiiiiiiiiiiiiiiiiiiiiiiiiiiiiiiiiiiiiiiiiiiiiiiii.service: Alias bbbbbbbbbbbbbbbbbbbbbbbbbbbbbbbbbbbbbbbbbbbbbbbbbbbbbbbbbbbbbbbbbbbbbbbbbbbbbbbbbbbbbbbbbbbbbbbbbbbbbbbbbbbbbbbbbbbbbbbbbbbbbbbbbbbbbbbbbbbbbbbbbbbbbbbbbbbbbbbbbbbbbbbbbbbbbbbbbbbbbbbbbbbbbbb@.service: bad name\\n\n";

/// What a unit wants, if a file says this about its aliases.
fn alias(alloc: Global, file: &[u8], unit: &[u8], words: &[u8]) -> Result<Vec<u8>, AllocError> {
    let mut tree = Vec::from_slice(alloc, file)?;
    tree.extend_from_slice(b" [Install]\nAlias=")?;
    tree.extend_from_slice(words)?;
    tree.extend_from_slice(b"\n")?;
    wanted_text(alloc, &tree, unit, Scope::Etc, false)
}

fn answer(alloc: Global, row: &Row) -> Result<Vec<u8>, AllocError> {
    if is(row, b"alias") {
        return alias(alloc, &row.one, &row.one, &row.two);
    }
    if is(row, b"alias in a@.service") {
        return alias(alloc, b"a@.service", &row.one, &row.two);
    }
    Vec::from_slice(alloc, b"unknown kind")
}

#[test]
fn aliases_are_of_type_and_kind_of_the_unit(rt: HostRuntime) -> Result<(), Fail> {
    assert_rows(rt.alloc(), ROWS, answer)
}
