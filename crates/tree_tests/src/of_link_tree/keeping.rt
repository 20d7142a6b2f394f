//! Trees that are changed, and entries that are made and copied. If memory runs out for a call,
//! what it was given is as it was, and the call is made again.
use crate::of_link_tree::changes::{are_from, change};
use crate::of_link_tree::entries::entry_of;
use crate::of_link_tree::names::LINKS;
use crate::of_link_tree::writing::inventory_of;
use crate::rows::texts_of;
use link_tree::{
    Change, Entry, FileError, PlacedEntry, Scope, Slot, TargetError, Tree, TreePath, copy_of,
};
use sample_rows::{Row, assert_rows, is, number_of};
use sample_values::{name, path, tree};
use std::alloc::{AllocError, Global};
use std::test::Fail;

const ROWS: &[u8] = b"\
    # The link at the slot ONE of a tree of ten entries is made one to TWO, or is removed: how many\n\
    # entries there are then, and the links that belong to ssh.service.\n\
    with changes\t/etc/systemd/system/a.service\t/lib/systemd/system/ssh.service\t\
        11\\n/etc/systemd/system/a.service\\n\
        /etc/systemd/system/multi-user.target.wants/ssh.service\\n\
        /etc/systemd/system/rescue.target.wants/ssh.service\\n/etc/systemd/system/sshd.service\\n\n\
    with changes\t/etc/systemd/system/sshd.service\t\t\
        9\\n/etc/systemd/system/multi-user.target.wants/ssh.service\\n\
        /etc/systemd/system/rescue.target.wants/ssh.service\\n\n\
    make changes\t/etc/systemd/system/a.service\t/lib/systemd/system/ssh.service\t\
        11\\n/etc/systemd/system/a.service\\n\
        /etc/systemd/system/multi-user.target.wants/ssh.service\\n\
        /etc/systemd/system/rescue.target.wants/ssh.service\\n/etc/systemd/system/sshd.service\\n\n\
    make changes\t/etc/systemd/system/sshd.service\t/dev/null\t\
        10\\n/etc/systemd/system/multi-user.target.wants/ssh.service\\n\
        /etc/systemd/system/rescue.target.wants/ssh.service\\n\n\
    set\t/etc/systemd/system/a.service\t/lib/systemd/system/ssh.service\t\
        11\\n/etc/systemd/system/a.service\\n\
        /etc/systemd/system/multi-user.target.wants/ssh.service\\n\
        /etc/systemd/system/rescue.target.wants/ssh.service\\n/etc/systemd/system/sshd.service\\n\n\
    set\t/etc/systemd/system/sshd.service\t\t\
        9\\n/etc/systemd/system/multi-user.target.wants/ssh.service\\n\
        /etc/systemd/system/rescue.target.wants/ssh.service\\n\n\
    set as in\t/etc/systemd/system/sshd.service\tother.service\t\
        10\\n/etc/systemd/system/multi-user.target.wants/ssh.service\\n\
        /etc/systemd/system/rescue.target.wants/ssh.service\\n\n\
    share in\t/etc/systemd/system/a.service\t/lib/systemd/system/ssh.service\t\
        11\\n/etc/systemd/system/a.service\\n\
        /etc/systemd/system/multi-user.target.wants/ssh.service\\n\
        /etc/systemd/system/rescue.target.wants/ssh.service\\n/etc/systemd/system/sshd.service\\n\n\
    # Two changes, at ONE and at TWO: a link to ssh.service is made, or what is there is removed.\n\
    with both\t/etc/systemd/system/a.service\t/etc/systemd/system/a.target.wants/ssh.service\t\
        12\\n/etc/systemd/system/a.service\\n/etc/systemd/system/a.target.wants/ssh.service\\n\
        /etc/systemd/system/multi-user.target.wants/ssh.service\\n\
        /etc/systemd/system/rescue.target.wants/ssh.service\\n/etc/systemd/system/sshd.service\\n\n\
    with both\t/etc/systemd/system/a.service\t/etc/systemd/system/sshd.service\t\
        10\\n/etc/systemd/system/a.service\\n\
        /etc/systemd/system/multi-user.target.wants/ssh.service\\n\
        /etc/systemd/system/rescue.target.wants/ssh.service\\n\n\
    make both\t/etc/systemd/system/a.service\t/etc/systemd/system/a.target.wants/ssh.service\t\
        12\\n/etc/systemd/system/a.service\\n/etc/systemd/system/a.target.wants/ssh.service\\n\
        /etc/systemd/system/multi-user.target.wants/ssh.service\\n\
        /etc/systemd/system/rescue.target.wants/ssh.service\\n/etc/systemd/system/sshd.service\\n\n\
    make both\t/etc/systemd/system/sshd.service\t/etc/systemd/system/a.service\t\
        10\\n/etc/systemd/system/a.service\\n\
        /etc/systemd/system/multi-user.target.wants/ssh.service\\n\
        /etc/systemd/system/rescue.target.wants/ssh.service\\n\n\
    \n\
    # A file of the bytes ONE, or of this many, and a link to ONE.\n\
    file\tab\t\tas written\n\
    file\t\t\tas written\n\
    file of size\t1048576\t\tas written\n\
    file of size\t1048577\t\tfile too large\n\
    link\t../b.service\t\tas written\n\
    link\t\t\tbad target\n\
    \n\
    # A copy of an entry, or of none.\n\
    copied\tfile of ab\t\tthe same\n\
    copied\tlink to a\t\tthe same\n\
    copied\tnone\t\tthe same\n";

/// All that a tree says: its entries, and the links that belong to three names.
fn text_of(alloc: Global, tree: &Tree) -> Result<Vec<u8>, AllocError> {
    let mut text = inventory_of(alloc, tree)?;
    for unit in [b"ssh.service".as_slice(), b"sshd.service", b"other.service"] {
        let unit = name(alloc, unit)?;
        text.extend_from_slice(&texts_of(alloc, tree.belonging(Scope::Etc, &unit))?)?;
        text.extend_from_slice(&texts_of(alloc, tree.belonging(Scope::Run, &unit))?)?;
    }
    Ok(text)
}

fn push_side(text: &mut Vec<u8>, side: &Option<Entry>) -> Result<(), AllocError> {
    if let Some(entry) = side {
        let kind = if matches!(entry, Entry::File(_)) {
            b'F'
        } else {
            b'L'
        };
        text.push(kind)?;
        text.extend_from_slice(entry.bytes())?;
    }
    text.extend_from_slice(b"\n")
}

/// All that a call is given: a tree, and changes of it.
fn text_of_given(alloc: Global, tree: &Tree, changes: &[Change]) -> Result<Vec<u8>, AllocError> {
    let mut text = text_of(alloc, tree)?;
    for change in changes {
        text.extend_from_slice(change.path.text())?;
        text.push(b'\n')?;
        push_side(&mut text, &change.before)?;
        push_side(&mut text, &change.after)?;
    }
    Ok(text)
}

/// Makes changes by the call that is named.
fn change_by(tree: &mut Tree, row: &Row, changes: &[Change]) -> Result<(), AllocError> {
    if !are_from(tree, changes) {
        return Err(AllocError);
    }
    if is(row, b"make changes") || is(row, b"make both") {
        return tree.make_changes(changes);
    }
    *tree = tree.with_changes(changes)?;
    Ok(())
}

/// Puts an entry of another tree at its slot.
fn share_in(tree: &mut Tree, placed: Option<&PlacedEntry>) -> Result<(), AllocError> {
    match placed {
        Some(placed) if Slot::of(placed.path()).is_some() => tree.share_in(placed),
        _ => Err(AllocError),
    }
}

/// Leaves at a slot what another tree has there, by the call that is named.
fn set_by(tree: &mut Tree, row: &Row, slot: &TreePath, other: &Tree) -> Result<(), AllocError> {
    if Slot::of(slot).is_none() {
        return Err(AllocError);
    }
    if is(row, b"share in") {
        return share_in(tree, other.placed(slot));
    }
    if is(row, b"set as in") {
        return tree.set_as_in(slot, other);
    }
    match other.get(slot) {
        Some(entry) => tree.set(slot, Some(entry.copy()?)),
        None => tree.set(slot, None),
    }
}

/// Makes a change of a tree, to what another tree has.
fn change_once(
    tree: &mut Tree,
    row: &Row,
    changes: &[Change],
    other: &Tree,
) -> Result<(), AllocError> {
    match changes {
        [change] if !is(row, b"make changes") && !is(row, b"with changes") => {
            set_by(tree, row, &change.path, other)
        }
        _ => change_by(tree, row, changes),
    }
}

/// The change by which a link to ssh.service is made at a slot, or what is there is removed.
fn turned(alloc: Global, tree: &Tree, slot: &[u8]) -> Result<Change, AllocError> {
    let slot = path(alloc, slot)?;
    let target: &[u8] = match tree.get(&slot) {
        Some(_) => b"",
        None => b"/lib/systemd/system/ssh.service",
    };
    change(alloc, tree, slot, target)
}

/// The changes of a row, one or two.
fn changes_of(alloc: Global, row: &Row, tree: &Tree) -> Result<Vec<Change>, AllocError> {
    let mut changes = Vec::new(alloc);
    if is(row, b"with both") || is(row, b"make both") {
        changes.push(turned(alloc, tree, &row.one)?)?;
        changes.push(turned(alloc, tree, &row.two)?)?;
    } else {
        changes.push(change(alloc, tree, path(alloc, &row.one)?, &row.two)?)?;
    }
    Ok(changes)
}

/// The tree with a change, without changing the tree itself.
fn other_of(alloc: Global, tree: &Tree, changes: &[Change]) -> Result<Box<Tree>, AllocError> {
    if !are_from(tree, changes) {
        return Err(AllocError);
    }
    Ok(Box::new(alloc, tree.with_changes(changes)?)?)
}

/// Makes changes of a tree, and makes them again if memory runs out. Returns whether the tree and
/// the changes were as before then, and the tree is the other tree in the end.
fn change_kept(
    alloc: Global,
    tree: &mut Tree,
    row: &Row,
    changes: &[Change],
    other: &Tree,
) -> Result<bool, AllocError> {
    let before = text_of_given(alloc, tree, changes)?;
    if change_once(tree, row, changes, other).is_err() {
        if text_of_given(alloc, tree, changes)? != before {
            return Ok(false);
        }
        change_once(tree, row, changes, other)?;
    }
    Ok(text_of(alloc, tree)? == text_of(alloc, other)?)
}

/// How many entries a tree has, and the links that belong to ssh.service.
fn told_of(alloc: Global, tree: &Tree) -> Result<Vec<u8>, AllocError> {
    let unit = name(alloc, b"ssh.service")?;
    let count = tree.len();
    let mut text = format!(in alloc; "{count}\n")?.into_bytes();
    text.extend_from_slice(&texts_of(alloc, tree.belonging(Scope::Etc, &unit))?)?;
    Ok(text)
}

fn changed(alloc: Global, row: &Row) -> Result<Vec<u8>, AllocError> {
    let mut tree = tree(alloc, LINKS)?;
    let changes = changes_of(alloc, row, &tree)?;
    let other = other_of(alloc, &tree, &changes)?;
    if change_kept(alloc, &mut tree, row, &changes, &other)? {
        told_of(alloc, &tree)
    } else {
        Vec::from_slice(alloc, b"another tree")
    }
}

/// The entry of these words, or none.
fn entry_or_none(alloc: Global, words: &[u8]) -> Result<Option<Entry>, AllocError> {
    if words == b"none".as_slice() {
        return Ok(None);
    }
    Ok(Some(entry_of(alloc, words)?))
}

fn are_same(one: &Option<Entry>, other: &Option<Entry>) -> bool {
    match (one, other) {
        (Some(one), Some(other)) => one.same(other),
        (None, None) => true,
        _ => false,
    }
}

fn told_of_copy(
    alloc: Global,
    copy: &Option<Entry>,
    same: &Option<Entry>,
) -> Result<Vec<u8>, AllocError> {
    let told: &[u8] = if are_same(copy, same) {
        b"the same"
    } else {
        b"another"
    };
    Vec::from_slice(alloc, told)
}

/// What a copy of an entry is. If memory runs out, the entry is the same as one of the same words,
/// and is copied again.
fn copied(alloc: Global, words: &[u8]) -> Result<Vec<u8>, AllocError> {
    let entry = entry_or_none(alloc, words)?;
    let same = entry_or_none(alloc, words)?;
    if let Ok(copy) = copy_of(&entry) {
        return told_of_copy(alloc, &copy, &same);
    }
    if !are_same(&entry, &same) {
        return Vec::from_slice(alloc, b"the entry is changed");
    }
    let copy = copy_of(&entry)?;
    told_of_copy(alloc, &copy, &same)
}

/// Whether a file has these bytes, or why there is none.
fn told_of_file(alloc: Global, bytes: &[u8]) -> Result<&'static [u8], AllocError> {
    match Entry::file(alloc, bytes) {
        Ok(file) if file.bytes() == bytes => Ok(b"as written"),
        Ok(_) => Ok(b"another file"),
        Err(FileError::TooLarge) => Ok(b"file too large"),
        Err(FileError::OutOfMemory) => Err(AllocError),
    }
}

/// Whether a link has this target, or why there is none.
fn told_of_link(alloc: Global, target: &[u8]) -> Result<&'static [u8], AllocError> {
    match Entry::link(alloc, target) {
        Ok(link) if link.bytes() == target => Ok(b"as written"),
        Ok(_) => Ok(b"another link"),
        Err(TargetError::BadTarget) => Ok(b"bad target"),
        Err(TargetError::OutOfMemory) => Err(AllocError),
    }
}

fn told_of_entry(alloc: Global, row: &Row, bytes: &[u8]) -> Result<&'static [u8], AllocError> {
    if is(row, b"link") {
        told_of_link(alloc, bytes)
    } else {
        told_of_file(alloc, bytes)
    }
}

/// What an entry is that is made of these bytes. If memory runs out, the bytes are as they were,
/// and it is made again.
fn made_of(alloc: Global, row: &Row, bytes: &[u8]) -> Result<&'static [u8], AllocError> {
    let before = Vec::from_slice(alloc, bytes)?;
    if let Ok(told) = told_of_entry(alloc, row, bytes) {
        return Ok(told);
    }
    if before.as_slice() != bytes {
        return Ok(b"the bytes are changed");
    }
    told_of_entry(alloc, row, bytes)
}

fn made(alloc: Global, row: &Row) -> Result<Vec<u8>, AllocError> {
    if is(row, b"file of size") {
        let bytes = Vec::from_elem(alloc, b'x', number_of(&row.one))?;
        return Vec::from_slice(alloc, made_of(alloc, row, &bytes)?);
    }
    Vec::from_slice(alloc, made_of(alloc, row, &row.one)?)
}

fn answer(alloc: Global, row: &Row) -> Result<Vec<u8>, AllocError> {
    if is(row, b"copied") {
        copied(alloc, &row.one)
    } else if is(row, b"file") || is(row, b"file of size") || is(row, b"link") {
        made(alloc, row)
    } else {
        changed(alloc, row)
    }
}

#[test]
fn trees_are_changed_or_as_they_were(rt: HostRuntime) -> Result<(), Fail> {
    assert_rows(rt.alloc(), ROWS, answer)
}
