//! Readings, and whether trees agree with them.
use super::texts::{push_key, read_as};
use crate::keys::{EMPTY, reading};
use footprint::agrees;
use link_tree::Tree;
use sample_rows::{Row, assert_rows, is};
use sample_values::tree;
use std::alloc::{AllocError, Global};
use std::test::Fail;

/// An alias, a dependency, a mask and a preset file.
const SMALL: &[u8] = b"unitadm-inventory 1
F\t9\t/etc/systemd/system-preset/1.preset
enable *

L\t/etc/systemd/system/b.service\ta.service
L\t/etc/systemd/system/c.target.wants/a.service\t/usr/lib/systemd/system/a.service
L\t/run/systemd/system/a.service\t/dev/null
end
";

const ROWS: &[u8] = b"\
    # reads: what SMALL is read as by the keys ONE, each key once and in their order: the entry\n\
    # at a path, or the inventory of what a set has.\n\
    reads\t\
        links run:a.service etc:b.service presets /etc/systemd/system/b.service etc:a.service \
        links presets etc:b.service /etc/systemd/system/a.service /etc/systemd/system/b.service\t\t\
        /etc/systemd/system/a.service absent\\n\
        /etc/systemd/system/b.service a.service\\n\
        etc:a.service\\n\
        unitadm-inventory 1\\n\
        L\\t/etc/systemd/system/b.service\\ta.service\\n\
        L\\t/etc/systemd/system/c.target.wants/a.service\\t/usr/lib/systemd/system/a.service\\n\
        end\\n\
        etc:b.service\\n\
        unitadm-inventory 1\\n\
        L\\t/etc/systemd/system/b.service\\ta.service\\n\
        end\\n\
        run:a.service\\n\
        unitadm-inventory 1\\n\
        end\\n\
        presets\\n\
        unitadm-inventory 1\\n\
        F\\t9\\t/etc/systemd/system-preset/1.preset\\n\
        enable *\\n\
        \\n\
        end\\n\
        links\\n\
        unitadm-inventory 1\\n\
        L\\t/etc/systemd/system/c.target.wants/a.service\\t/usr/lib/systemd/system/a.service\\n\
        end\\n\n\
    # Three sets have entries in common.\n\
    reads\tlinks etc:b.service /etc/systemd/system/b.service etc:a.service\t\t\
        /etc/systemd/system/b.service a.service\\n\
        etc:a.service\\n\
        unitadm-inventory 1\\n\
        L\\t/etc/systemd/system/b.service\\ta.service\\n\
        L\\t/etc/systemd/system/c.target.wants/a.service\\t/usr/lib/systemd/system/a.service\\n\
        end\\n\
        etc:b.service\\n\
        unitadm-inventory 1\\n\
        L\\t/etc/systemd/system/b.service\\ta.service\\n\
        end\\n\
        links\\n\
        unitadm-inventory 1\\n\
        L\\t/etc/systemd/system/c.target.wants/a.service\\t/usr/lib/systemd/system/a.service\\n\
        end\\n\n\
    # conflict: the first of the keys ONE, by which SMALL is read, that says something else of\n\
    # the tree TWO. A tree agrees with its own reading.\n\
    conflict\tlinks etc:x.service etc:b.service presets\tsmall\tnone\n\
    conflict\tlinks etc:x.service etc:b.service presets\t\
        /etc/systemd/system/x.service -> /dev/null\tetc:b.service\n\
    # conflict with nothing: the same of a tree without entries that is read.\n\
    conflict with nothing\t/etc/systemd/system/x.service\t\tnone\n\
    conflict with nothing\t/etc/systemd/system/x.service\t\
        /etc/systemd/system/x.service -> /dev/null\t/etc/systemd/system/x.service\n\
    conflict with nothing\tlinks etc:x.service etc:b.service presets\t\tnone\n\
    # Sets are compared whole: one link more, none, and another target are conflicts. A mask is\n\
    # no dependency.\n\
    conflict\tlinks\t\
        /etc/systemd/system/c.target.wants/a.service -> /usr/lib/systemd/system/a.service|\
        /etc/systemd/system/x.service -> /dev/null\tnone\n\
    conflict\tlinks\t\
        /etc/systemd/system/c.target.wants/a.service -> /usr/lib/systemd/system/a.service|\
        /run/systemd/system/c.target.requires/a.service -> /usr/lib/systemd/system/a.service\t\
        links\n\
    conflict\tlinks\t\tlinks\n\
    conflict\tlinks\t\
        /etc/systemd/system/c.target.wants/a.service -> /usr/local/lib/systemd/system/a.service\t\
        links\n\
    # So are the links that belong to a name in a scope.\n\
    conflict\tetc:b.service\t/etc/systemd/system/b.service -> a.service|\
        /etc/systemd/system/x.service -> /dev/null|/run/systemd/system/b.service -> a.service\t\
        none\n\
    conflict\tetc:b.service\t/etc/systemd/system/b.service -> a.service|\
        /etc/systemd/system/x.service -> b.service\tetc:b.service\n\
    conflict\tetc:b.service\t\tetc:b.service\n\
    conflict\tetc:b.service\t/etc/systemd/system/b.service -> c.service\tetc:b.service\n";

/// Adds a link to an inventory: its path, an arrow and its target.
fn push_link(inventory: &mut Vec<u8>, link: &[u8]) -> Result<(), AllocError> {
    let mut words = link.split(|b| *b == b' ');
    inventory.extend_from_slice(b"L\t")?;
    inventory.extend_from_slice(words.next().unwrap_or(b""))?;
    let _arrow = words.next();
    inventory.extend_from_slice(b"\t")?;
    inventory.extend_from_slice(words.next().unwrap_or(b""))?;
    inventory.extend_from_slice(b"\n")
}

fn inventory_of(alloc: Global, links: &[u8]) -> Result<Vec<u8>, AllocError> {
    let mut inventory = Vec::from_slice(alloc, b"unitadm-inventory 1\n")?;
    for link in links.split(|b| *b == b'|') {
        if !link.is_empty() {
            push_link(&mut inventory, link)?;
        }
    }
    inventory.extend_from_slice(b"end\n")?;
    Ok(inventory)
}

/// The tree `small`, or one of links separated by `|`.
fn tree_of(alloc: Global, text: &[u8]) -> Result<Box<Tree>, AllocError> {
    if text == b"small".as_slice() {
        return tree(alloc, SMALL);
    }
    let inventory = inventory_of(alloc, text)?;
    tree(alloc, &inventory)
}

/// The first of these keys, by which the tree of an inventory is read, that reads something else in
/// another tree.
fn conflict(
    alloc: Global,
    inventory: &[u8],
    keys: &[u8],
    other: &[u8],
) -> Result<Vec<u8>, AllocError> {
    let other = tree_of(alloc, other)?;
    let reading = reading(alloc, inventory, keys)?;
    let mut text = Vec::new(alloc);
    match agrees(&other, &reading) {
        Ok(()) => text.extend_from_slice(b"none")?,
        Err(key) => push_key(&mut text, key)?,
    }
    Ok(text)
}

fn answer(alloc: Global, row: &Row) -> Result<Vec<u8>, AllocError> {
    if is(row, b"reads") {
        return read_as(alloc, SMALL, &row.one);
    }
    if is(row, b"conflict") {
        return conflict(alloc, SMALL, &row.one, &row.two);
    }
    if is(row, b"conflict with nothing") {
        return conflict(alloc, EMPTY, &row.one, &row.two);
    }
    Vec::from_slice(alloc, b"unknown kind")
}

#[test]
fn sets_of_links_are_read_and_compared_whole(rt: HostRuntime) -> Result<(), Fail> {
    assert_rows(rt.alloc(), ROWS, answer)
}
