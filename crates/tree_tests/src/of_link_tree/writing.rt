//! Trees that are written, changed and shared.
use crate::of_link_tree::changes::{change, changed, empty};
use link_tree::{Change, Slot, ToWrite, Tree, write_before_inventory, write_inventory};
use sample_rows::{Row, assert_rows, is, number_of, yes_or_no};
use sample_values::{path, tree};
use std::alloc::{AllocError, Global};
use std::test::Fail;

const ROWS: &[u8] = b"\
    # Entries are written in order.\n\
    written\tthree entries\t\tunitadm-inventory 1\\n\
        F\\t4\\t/a-b/c\\na\\nb\\n\\nF\\t0\\t/a/b/c\\n\\nL\\t/a/z\\ty\\nend\\n\n\
    written\tno entry\t\tunitadm-inventory 1\\nend\\n\n\
    \n\
    # A file of so many bytes, which is longer than the write buffer, is written behind a text.\n\
    file behind\t70000\t== tree\\n\tyes\n\
    \n\
    # A tree of three entries, in which a slot is filled with a link.\n\
    filled\t/etc/systemd/system/sshd.service\tssh.service\t3 entries before, 4 after, 4 copied\n\
    \n\
    # Changes that mask no unit, one and two result in the same in place as on a copy.\n\
    mask\t\t\tyes\n\
    mask\t/etc/systemd/system/a.service\t\tyes\n\
    mask\t/etc/systemd/system/a.service\t/etc/systemd/system/b.service\tyes\n\
    \n\
    # To share a tree or to copy it takes no memory: it works whatever growth is refused.\n\
    share\t\t\tyes\n\
    copy\t\t\tyes\n\
    \n\
    # An entry is put from one tree into another that has none, and then into it again.\n\
    share in\t\t\tyes\n";

/// Three entries in no order; byte order of path isn't the order of directories.
const ENTRIES: &[u8] =
    b"unitadm-inventory 1\nL\t/a/z\ty\nF\t4\t/a-b/c\na\nb\n\nF\t0\t/a/b/c\n\nend\n";

/// One unit file.
const ONE: &[u8] = b"unitadm-inventory 1\n\
F\t37\t/usr/lib/systemd/system/ssh.service\n[Install]\nWantedBy=multi-user.target\n\n\
end\n";

pub(crate) fn inventory_of(alloc: Global, tree: &Tree) -> Result<Vec<u8>, AllocError> {
    let mut out = Vec::new(alloc);
    match write_inventory(alloc, tree, &mut ToWrite::new(&mut out)) {
        Ok(()) => Ok(out),
        Err(_) => Err(AllocError),
    }
}

/// What is written for the tree of `ENTRIES`, or for one without entries.
fn written_of(alloc: Global, words: &[u8]) -> Result<Vec<u8>, AllocError> {
    let tree = if words == b"three entries".as_slice() {
        tree(alloc, ENTRIES)?
    } else {
        empty(alloc)?
    };
    inventory_of(alloc, &tree)
}

/// An inventory of one file.
fn file_inventory(alloc: Global, size: usize) -> Result<Vec<u8>, AllocError> {
    let mut text = format!(in alloc; "unitadm-inventory 1\nF\t{size}\t/a/b\n")?.into_bytes();
    text.extend_from_slice(&Vec::from_elem(alloc, b'a', size)?)?;
    text.extend_from_slice(b"\nend\n")?;
    Ok(text)
}

/// What is written into a list, which accepts everything unless memory runs out.
fn written(alloc: Global, before: &[u8], tree: &Tree) -> Result<Vec<u8>, AllocError> {
    let mut out = Vec::new(alloc);
    match write_before_inventory(alloc, before, tree, &mut ToWrite::new(&mut out)) {
        Ok(()) => Ok(out),
        Err(_) => Err(AllocError),
    }
}

/// Whether an inventory is written as it was read, after another text.
fn is_written_behind(alloc: Global, before: &[u8], text: &[u8]) -> Result<bool, AllocError> {
    let tree = tree(alloc, text)?;
    let written = written(alloc, before, &tree)?;
    Ok(written.strip_prefix(before) == Some(text))
}

fn file_is_written_behind(
    alloc: Global,
    size: usize,
    before: &[u8],
) -> Result<Vec<u8>, AllocError> {
    let text = file_inventory(alloc, size)?;
    yes_or_no(alloc, is_written_behind(alloc, before, &text)?)
}

/// How many entries of a tree are the same in its copy.
fn count_copied(tree: &Tree) -> Result<u32, AllocError> {
    let copy = tree.copy()?;
    let mut count = 0u32;
    for (path, entry) in copy.iter() {
        match tree.get(path) {
            Some(there) if there.bytes() == entry.bytes() => count = count.saturating_add(1),
            _ => {}
        }
    }
    Ok(count)
}

/// How many entries there are before and after a change that fills a slot with a link, whether its
/// entry is there after it alone, and how many entries a copy has of the changed tree.
fn told_of_filling(
    alloc: Global,
    slot: &[u8],
    target: &[u8],
) -> Result<(usize, usize, bool, u32), AllocError> {
    let tree = tree(alloc, ENTRIES)?;
    let slot = path(alloc, slot)?;
    let changes = [change(alloc, &tree, slot.copy()?, target)?];
    let changed = changed(alloc, &tree, &changes, false)?;
    let is_new = changed.get(&slot).is_some() && tree.get(&slot).is_none();
    Ok((tree.len(), changed.len(), is_new, count_copied(&changed)?))
}

fn filled(alloc: Global, slot: &[u8], target: &[u8]) -> Result<Vec<u8>, AllocError> {
    let (before, after, is_new, copied) = told_of_filling(alloc, slot, target)?;
    if !is_new {
        return Vec::from_slice(alloc, b"no new entry");
    }
    let words = format!(in alloc; "{before} entries before, {after} after, {copied} copied")?;
    Ok(words.into_bytes())
}

/// What is written for the tree with these changes.
fn written_changed(
    alloc: Global,
    tree: &Tree,
    changes: &[Change],
    in_place: bool,
) -> Result<Vec<u8>, AllocError> {
    let changed = changed(alloc, tree, changes, in_place)?;
    written(alloc, b"", &changed)
}

/// Whether the changes give the same result in place as on a copy.
fn are_made_alike(alloc: Global, tree: &Tree, changes: &[Change]) -> Result<bool, AllocError> {
    let in_place = written_changed(alloc, tree, changes, true)?;
    Ok(in_place == written_changed(alloc, tree, changes, false)?)
}

/// The changes that mask these units, except those with an empty path.
fn masks(alloc: Global, tree: &Tree, slots: &[&[u8]]) -> Result<Vec<Change>, AllocError> {
    let mut changes = Vec::new(alloc);
    for slot in slots {
        if !slot.is_empty() {
            changes.push(change(alloc, tree, path(alloc, slot)?, b"/dev/null")?)?;
        }
    }
    Ok(changes)
}

/// Whether changes that mask these units give the same result in place as on a copy.
fn masks_are_made_alike(alloc: Global, slots: &[&[u8]]) -> Result<Vec<u8>, AllocError> {
    let tree = tree(alloc, ENTRIES)?;
    let changes = masks(alloc, &tree, slots)?;
    yes_or_no(alloc, are_made_alike(alloc, &tree, &changes)?)
}

/// Whether a tree is shared or copied. It isn't tried again, so that it fails if it takes memory.
fn takes_nothing(alloc: Global, is_copy: bool) -> Result<Vec<u8>, AllocError> {
    let tree = tree(alloc, ONE)?;
    let done = if is_copy { tree.copy() } else { tree.share() };
    yes_or_no(alloc, done.is_ok())
}

/// Puts the one entry of a tree into another. Returns whether it is there then, and is the last
/// one.
fn shares_in(one: &Tree, other: &mut Tree) -> Result<bool, AllocError> {
    let mut entries = one.iter();
    let Some(placed) = entries.next_placed() else {
        return Ok(false);
    };
    if Slot::of(placed.path()).is_none() {
        return Ok(false);
    }
    other.share_in(placed)?;
    let is_there = match other.get(placed.path()) {
        Some(entry) => entry.same(placed.entry()),
        None => false,
    };
    Ok(is_there && entries.next_placed().is_none())
}

/// A tree without entries, and then one that has the file: both accept the file.
fn others_share_in(alloc: Global) -> Result<bool, AllocError> {
    let one = tree(alloc, ONE)?;
    let mut other = empty(alloc)?;
    Ok(shares_in(&one, &mut other)? && shares_in(&one, &mut other)? && other.len() == 1)
}

fn answer(alloc: Global, row: &Row) -> Result<Vec<u8>, AllocError> {
    if is(row, b"written") {
        written_of(alloc, &row.one)
    } else if is(row, b"file behind") {
        file_is_written_behind(alloc, number_of(&row.one), &row.two)
    } else if is(row, b"filled") {
        filled(alloc, &row.one, &row.two)
    } else if is(row, b"mask") {
        masks_are_made_alike(alloc, &[row.one.as_slice(), row.two.as_slice()])
    } else if is(row, b"share") || is(row, b"copy") {
        takes_nothing(alloc, is(row, b"copy"))
    } else if is(row, b"share in") {
        yes_or_no(alloc, others_share_in(alloc)?)
    } else {
        Vec::from_slice(alloc, b"unknown kind")
    }
}

#[test]
fn trees_are_written_changed_and_shared(rt: HostRuntime) -> Result<(), Fail> {
    assert_rows(rt.alloc(), ROWS, answer)
}
