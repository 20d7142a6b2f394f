//! Which links units want.
use crate::of_install_section::units::{closed, names, text_of_count, wanted_text};
use crate::trees::tree;
use install_section::{Links, Wanted, wanted, wanted_into};
use link_tree::{Scope, Tree};
use load_path::Cells;
use sample_rows::{Row, assert_rows, is};
use sample_values::path;
use std::alloc::{AllocError, Global};
use std::test::Fail;
use unit_name::UnitName;

const SSH: &[u8] = b"ssh.service [Install]\nWantedBy=multi-user.target\nAlias=sshd.service\n";

/// Two units have the same two aliases.
const CLASHES: &[u8] = b"\
    a.service [Install]\nAlias=d.service c.service\n|\
    b.service [Install]\nAlias=d.service c.service\n|\
    t@.service [Install]\nWantedBy=m.target\n";

const TEMPLATES: &[u8] = b"\
    getty@.service [Install]\nWantedBy=getty.target\nDefaultInstance=tty1\n|\
    web@.service [Install]\nWantedBy=getty.target\n|\
    odd@.service [Install]\nRequiredBy=getty.target\nDefaultInstance=a/b\n|\
    monitor@.service [Install]\nWantedBy=container@.target\nDefaultInstance=x\n";

const ROWS: &[u8] = b"\
    # wanted: the links that the units TWO want in the tree ONE, and the notices. The tree is one\n\
    # of those above, or it is written out.\n\
    wanted\tssh\tssh.service\t\
        /etc/systemd/system/multi-user.target.wants/ssh.service -> /usr/lib/systemd/system/ssh.service\\n\
        /etc/systemd/system/sshd.service -> /usr/lib/systemd/system/ssh.service\\n\n\
    wanted --runtime\tssh\tssh.service\t\
        /run/systemd/system/multi-user.target.wants/ssh.service -> /usr/lib/systemd/system/ssh.service\\n\
        /run/systemd/system/sshd.service -> /usr/lib/systemd/system/ssh.service\\n\n\
    # Equal targets are no clash.\n\
    wanted\ta.service [Install]\\nWantedBy=m.target m.target\\nRequiredBy=m.target\\n\
        Alias=b.service b.service\\n\ta.service a.service\t\
        /etc/systemd/system/b.service -> /usr/lib/systemd/system/a.service\\n\
        /etc/systemd/system/m.target.requires/a.service -> /usr/lib/systemd/system/a.service\\n\
        /etc/systemd/system/m.target.wants/a.service -> /usr/lib/systemd/system/a.service\\n\n\
    # The least path that two units want with different targets is reported, unless an instance\n\
    # is needed.\n\
    wanted\tclashes\ta.service b.service\tclash at /etc/systemd/system/c.service\n\
    wanted\tclashes\tb.service a.service\tclash at /etc/systemd/system/c.service\n\
    wanted\tclashes\ta.service b.service t@.service\tneeds an instance: t@.service\n\
    # A template stands for its default instance, unless a template lists it.\n\
    wanted\ttemplates\tgetty@.service\t\
        /etc/systemd/system/getty.target.wants/getty@tty1.service -> /usr/lib/systemd/system/getty@.service\\n\n\
    wanted\ttemplates\tgetty@tty2.service\t\
        /etc/systemd/system/getty.target.wants/getty@tty2.service -> /usr/lib/systemd/system/getty@.service\\n\n\
    wanted\ttemplates\tmonitor@.service\t\
        /etc/systemd/system/container@.target.wants/monitor@.service -> /usr/lib/systemd/system/monitor@.service\\n\n\
    # The least template that has none is reported. `a/b` is no instance.\n\
    wanted\ttemplates\tweb@.service\tneeds an instance: web@.service\n\
    wanted\ttemplates\todd@.service\tneeds an instance: odd@.service\n\
    wanted\ttemplates\tweb@.service odd@.service\tneeds an instance: odd@.service\n\
    wanted\ttemplates\todd@.service web@.service\tneeds an instance: odd@.service\n\
    # wanted, skipping: a word that would need an instance is left out, without a notice.\n\
    wanted, skipping\ttemplates\tweb@.service getty@.service\t\
        /etc/systemd/system/getty.target.wants/getty@tty1.service -> /usr/lib/systemd/system/getty@.service\\n\n\
    # Words that ask for no link are reported. A name without a unit wants nothing.\n\
    wanted\ta.service [Install]\\nWantedBy=%q m\\nRequiredBy=m.conf\\n\ta.service none.service\t  \
        ! a.service: RequiredBy m.conf: bad name\\n  ! a.service: WantedBy %q: bad specifier\\n  \
        ! a.service: WantedBy m: bad name\\n\n\
    # how many links, link at: among the links that the units ONE of the tree `ssh` want.\n\
    how many links\tssh.service\t\t2\n\
    link at\tssh.service\t/etc/systemd/system/sshd.service\t/usr/lib/systemd/system/ssh.service\n\
    link at\tssh.service\t/etc/systemd/system/ssh.service\tnone\n\
    # paths looked at: for the same links, each as often as it is looked at. The one unit is\n\
    # found by four paths, and its file is looked at once more. There is no other unit.\n\
    paths looked at\tssh.service none.service\t\t9\n";

/// The text of the tree that a word names, or which the word is.
fn tree_named(word: &[u8]) -> &[u8] {
    if word == b"ssh".as_slice() {
        return SSH;
    }
    if word == b"clashes".as_slice() {
        return CLASHES;
    }
    if word == b"templates".as_slice() {
        return TEMPLATES;
    }
    word
}

fn boxed(alloc: Global, tree: &Tree, units: &[UnitName]) -> Result<Box<Wanted>, AllocError> {
    let closure = closed(alloc, tree, units)?;
    match wanted(alloc, tree, &closure, Scope::Etc, false) {
        Ok(wanted) => Ok(Box::new(alloc, wanted)?),
        Err(_) => Err(AllocError),
    }
}

/// What units of the tree `ssh` want.
fn wanted_of_ssh(alloc: Global, units: &[u8]) -> Result<Box<Wanted>, AllocError> {
    let tree = tree(alloc, SSH)?;
    let units = names(alloc, units)?;
    boxed(alloc, &tree, &units)
}

fn how_many(alloc: Global, units: &[u8]) -> Result<Vec<u8>, AllocError> {
    let wanted = wanted_of_ssh(alloc, units)?;
    text_of_count(alloc, wanted.links.len(), wanted.links.is_empty())
}

fn target(alloc: Global, links: &Links, at: &[u8]) -> Result<Vec<u8>, AllocError> {
    let at = path(alloc, at)?;
    match links.get(&at) {
        Some(file) => Vec::from_slice(alloc, file.text()),
        None => Vec::from_slice(alloc, b"none"),
    }
}

fn link_at(alloc: Global, units: &[u8], at: &[u8]) -> Result<Vec<u8>, AllocError> {
    let wanted = wanted_of_ssh(alloc, units)?;
    target(alloc, &wanted.links, at)
}

fn looks(alloc: Global, tree: &Tree, units: &[UnitName]) -> Result<usize, AllocError> {
    let mut cells = Cells::new(alloc);
    let _wanted = wanted_into(alloc, tree, units, Scope::Etc, false, &mut cells)?;
    Ok(cells.as_slice().len())
}

fn paths_looked_at(alloc: Global, units: &[u8]) -> Result<Vec<u8>, AllocError> {
    let tree = tree(alloc, SSH)?;
    let units = names(alloc, units)?;
    let looks = looks(alloc, &tree, &units)?;
    text_of_count(alloc, looks, looks == 0)
}

fn answer(alloc: Global, row: &Row) -> Result<Vec<u8>, AllocError> {
    let tree = tree_named(&row.one);
    if is(row, b"wanted") {
        return wanted_text(alloc, tree, &row.two, Scope::Etc, false);
    }
    if is(row, b"wanted --runtime") {
        return wanted_text(alloc, tree, &row.two, Scope::Run, false);
    }
    if is(row, b"wanted, skipping") {
        return wanted_text(alloc, tree, &row.two, Scope::Etc, true);
    }
    if is(row, b"how many links") {
        return how_many(alloc, &row.one);
    }
    if is(row, b"link at") {
        return link_at(alloc, &row.one, &row.two);
    }
    if is(row, b"paths looked at") {
        return paths_looked_at(alloc, &row.one);
    }
    Vec::from_slice(alloc, b"unknown kind")
}

#[test]
fn links_are_wanted_by_the_words_of_units(rt: HostRuntime) -> Result<(), Fail> {
    assert_rows(rt.alloc(), ROWS, answer)
}
