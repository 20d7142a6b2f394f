//! Trees of over 100,000 entries and texts of over 1 GiB. No contract says when memory runs out, so
//! code that reported this for such a tree or text could still be proved correct.
ghost use Rattle.std.specs.Prelude.{None};

use crate::of_link_tree::changes::{change, changed, empty, set_link};
use crate::of_link_tree::names::{are_all_of_each, relink};
use link_tree::{
    Change, Contents, Entry, Slot, ToWrite, Tree, TreePath, push_decimal, write_before_inventory,
    write_inventory,
};
use sample_values::path;
use std::alloc::{AllocError, Global};
use std::io;
use std::io::Write;
use std::process::Abort;
use std::test::Fail;
use unit_name::ample;

mod sharing;

/// The units of the large tree are named by numbers of six digits, so that the paths have the order
/// of the numbers.
const FIRST: u32 = 100_000;

const MIDDLE: u32 = 150_000;

const LAST: u32 = 200_099;

/// How many there are, from the first to the last.
const COUNT: u32 = 100_100;

const ENTRIES: usize = COUNT as usize;

/// Numbers with other digits: their paths come before all others, after the middle one, and after
/// all others.
const NEW_FIRST: u32 = 0;

const NEW_MIDDLE: u32 = 1_500_005;

const NEW_LAST: u32 = 9;

/// The slot of the unit of this number.
fn slot(alloc: Global, number: u32) -> Result<TreePath, AllocError> {
    let text = format!(in alloc; "/etc/systemd/system/{number}.service")?;
    path(alloc, text.as_bytes())
}

/// Makes the unit of this number such a link, or removes it.
fn set(alloc: Global, tree: &mut Tree, number: u32, target: &[u8]) -> Result<(), AllocError> {
    set_link(alloc, tree, &slot(alloc, number)?, target)
}

/// A tree of this number of units, all masked: a piece has at most 128 of them.
fn tree_of(alloc: Global, count: u32) -> Result<Box<Tree>, AllocError> {
    let mut tree = empty(alloc)?;
    for place in 0..count {
        let number = place.saturating_add(FIRST);
        set(alloc, &mut tree, number, b"/dev/null")?;
    }
    Ok(tree)
}

/// Whether the unit of this number is a link with this target, or nothing if that is empty.
fn is_link(alloc: Global, tree: &Tree, number: u32, target: &[u8]) -> Result<bool, AllocError> {
    match tree.get(&slot(alloc, number)?) {
        Some(entry) => Ok(entry.bytes() == target),
        None => Ok(target.is_empty()),
    }
}

/// Numbers of units, the targets to which they become links, and the number of entries then.
const SETS: [(u32, &[u8], usize); 9] = [
    (NEW_FIRST, b"a.service", ENTRIES + 1),
    (NEW_MIDDLE, b"a.service", ENTRIES + 2),
    (NEW_LAST, b"a.service", ENTRIES + 3),
    (FIRST, b"a.service", ENTRIES + 3),
    (MIDDLE, b"a.service", ENTRIES + 3),
    (LAST, b"a.service", ENTRIES + 3),
    (FIRST, b"", ENTRIES + 2),
    (MIDDLE, b"", ENTRIES + 1),
    (LAST, b"", ENTRIES),
];

/// Makes the unit of this number such a link, or removes it. Returns whether it is so then, and the
/// tree has this number of entries.
fn sets(
    alloc: Global,
    tree: &mut Tree,
    number: u32,
    target: &[u8],
    len: usize,
) -> Result<bool, AllocError> {
    set(alloc, tree, number, target)?;
    Ok(tree.len() == len && is_link(alloc, tree, number, target)?)
}

fn assert_sets(
    rt: &impl Abort,
    alloc: Global,
    tree: &mut Tree,
    rows: &[(u32, &[u8], usize)],
) -> Result<(), Fail> {
    for (number, target, len) in rows {
        let is_set = ample!(sets(alloc, tree, *number, target, *len), AllocError)?;
        assert!(rt; is_set);
    }
    Ok(())
}

#[test]
fn units_of_a_large_tree_are_set(rt: HostRuntime) -> Result<(), Fail> {
    let alloc = rt.alloc();
    let mut tree = ample!(tree_of(alloc, COUNT), AllocError)?;
    assert_eq!(rt; tree.len(), ENTRIES);
    assert_sets(&rt, alloc, &mut tree, &SETS)
}

/// The changes of these units to such links, or to nothing.
fn changes(
    alloc: Global,
    tree: &Tree,
    numbers: &[u32],
    target: &[u8],
) -> Result<Vec<Change>, AllocError> {
    let mut changes = Vec::with_capacity(alloc, numbers.len())?;
    for number in numbers {
        changes.push(change(alloc, tree, slot(alloc, *number)?, target)?)?;
    }
    Ok(changes)
}

/// The tree with these units changed to such links, or removed.
fn with_links(
    alloc: Global,
    tree: &Tree,
    numbers: &[u32],
    target: &[u8],
    in_place: bool,
) -> Result<Box<Tree>, AllocError> {
    let changes = changes(alloc, tree, numbers, target)?;
    changed(alloc, tree, &changes, in_place)
}

/// Whether all of these units are such links, or none exists.
fn are_links(
    alloc: Global,
    tree: &Tree,
    numbers: &[u32],
    target: &[u8],
) -> Result<bool, AllocError> {
    for number in numbers {
        if !is_link(alloc, tree, *number, target)? {
            return Ok(false);
        }
    }
    Ok(true)
}

/// Whether the tree with these units changed to such links, or removed, has this number of entries,
/// and they are there.
fn changes_to(
    alloc: Global,
    tree: &Tree,
    numbers: &[u32],
    target: &[u8],
    len: usize,
    in_place: bool,
) -> Result<bool, AllocError> {
    let made = with_links(alloc, tree, numbers, target, in_place)?;
    Ok(made.len() == len && are_links(alloc, &made, numbers, target)?)
}

/// Numbers of units, the target of the links to which they change, and the number of entries then.
type Changes = (&'static [u32], &'static [u8], usize);

const CHANGES: [Changes; 7] = [
    (&[], b"", ENTRIES),
    (&[NEW_FIRST], b"a.service", ENTRIES + 1),
    (&[MIDDLE], b"a.service", ENTRIES),
    (&[LAST], b"", ENTRIES - 1),
    (
        &[NEW_FIRST, NEW_MIDDLE, NEW_LAST],
        b"a.service",
        ENTRIES + 3,
    ),
    (&[FIRST, MIDDLE, LAST], b"a.service", ENTRIES),
    (&[FIRST, MIDDLE, LAST], b"", ENTRIES - 3),
];

/// Makes each of these changes of a tree, which isn't changed itself.
fn assert_changed(
    rt: &impl Abort,
    alloc: Global,
    tree: &Tree,
    rows: &[Changes],
) -> Result<(), Fail> {
    for (numbers, target, len) in rows {
        for in_place in [false, true] {
            let is_made = ample!(
                changes_to(alloc, tree, numbers, target, *len, in_place),
                AllocError
            )?;
            assert!(rt; is_made);
        }
    }
    assert_eq!(rt; tree.len(), ENTRIES);
    Ok(())
}

#[test]
fn a_large_tree_is_changed(rt: HostRuntime) -> Result<(), Fail> {
    let tree = ample!(tree_of(rt.alloc(), COUNT), AllocError)?;
    assert_changed(&rt, rt.alloc(), &tree, &CHANGES)
}

/// The number of units in the tree that is shared.
const SHARED: u32 = 1_000;

/// Whether the units up to this one are links, and all others are still masked.
fn are_changed_up_to(alloc: Global, tree: &Tree, last: u32) -> Result<bool, AllocError> {
    for number in FIRST..FIRST + SHARED {
        let target = if number <= last {
            b"a.service".as_slice()
        } else {
            b"/dev/null".as_slice()
        };
        if !is_link(alloc, tree, number, target)? {
            return Ok(false);
        }
    }
    Ok(tree.len() == SHARED as usize)
}

/// Whether the units up to this one are links, and this one is still masked in the tree before.
fn changed_alone(
    alloc: Global,
    tree: &Tree,
    before: &Tree,
    number: u32,
) -> Result<bool, AllocError> {
    Ok(are_changed_up_to(alloc, tree, number)? && is_link(alloc, before, number, b"/dev/null")?)
}

/// A tree that shares its entries with this one.
fn shared(alloc: Global, tree: &Tree) -> Result<Box<Tree>, AllocError> {
    Ok(Box::new(alloc, tree.share()?)?)
}

/// Makes the next unit a link in a tree: only that tree changes, and not one that shares the
/// entries.
fn assert_next_changes(
    rt: &impl Abort,
    alloc: Global,
    tree: &mut Tree,
    number: u32,
) -> Result<(), AllocError> {
    let before = ample!(shared(alloc, tree), AllocError)?;
    ample!(set(alloc, tree, number, b"a.service"), AllocError)?;
    let is_alone = ample!(changed_alone(alloc, tree, &before, number), AllocError)?;
    assert!(rt; is_alone);
    Ok(())
}

/// Makes the units links in a tree that shares its entries with another, one after another.
fn assert_changes_alone(rt: &impl Abort, alloc: Global, first: &Tree) -> Result<(), AllocError> {
    let mut tree = ample!(shared(alloc, first), AllocError)?;
    for number in FIRST..FIRST + SHARED {
        assert_next_changes(rt, alloc, &mut tree, number)?;
    }
    Ok(())
}

#[test]
fn a_shared_tree_is_changed_at_each_entry(rt: HostRuntime) -> Result<(), Fail> {
    let first = ample!(tree_of(rt.alloc(), SHARED), AllocError)?;
    assert_changes_alone(&rt, rt.alloc(), &first)?;
    let are_masked = ample!(are_changed_up_to(rt.alloc(), &first, FIRST - 1), AllocError)?;
    assert!(rt; are_masked);
    Ok(())
}

/// Its path comes after that of the unit 100064, and before that of 100065.
const NEW_INSIDE: u32 = 1_000_640;

/// Whether the paths are in ascending order, and there is this number of them.
fn are_in_order(tree: &Tree, count: usize) -> bool {
    let mut before: Option<&TreePath> = None;
    for (path, _) in tree.iter() {
        if before.is_some_and(|before| *before >= *path) {
            return false;
        }
        before = Some(path);
    }
    tree.len() == count
}

/// Removes a unit. Returns whether it is gone then, and this number of units is left, in order,
/// including this one.
fn takes(
    alloc: Global,
    tree: &mut Tree,
    number: u32,
    rest: usize,
    left: u32,
) -> Result<bool, AllocError> {
    set(alloc, tree, number, b"")?;
    Ok(
        are_in_order(tree, rest)
            && is_link(alloc, tree, number, b"")?
            && is_link(alloc, tree, left, b"a.service")?,
    )
}

/// Removes this number of units, one after another, and finally the one that is left.
fn assert_emptied(
    rt: &impl Abort,
    alloc: Global,
    tree: &mut Tree,
    count: u32,
    left: u32,
) -> Result<(), AllocError> {
    for place in 0..count {
        let number = place.saturating_add(FIRST);
        let rest = count.saturating_sub(place) as usize;
        let is_taken = ample!(takes(alloc, tree, number, rest, left), AllocError)?;
        assert!(rt; is_taken);
    }
    ample!(set(alloc, tree, left, b""), AllocError)?;
    assert!(rt; tree.is_empty());
    Ok(())
}

/// A tree of this number of units, to which a new one is added, which splits a full piece, and is
/// then removed again.
fn assert_cut_and_emptied(
    rt: &impl Abort,
    alloc: Global,
    count: u32,
    new: u32,
) -> Result<(), AllocError> {
    let mut tree = ample!(tree_of(alloc, count), AllocError)?;
    assert!(rt; are_in_order(&tree, count as usize));
    ample!(set(alloc, &mut tree, new, b"a.service"), AllocError)?;
    assert!(rt; are_in_order(&tree, (count as usize).saturating_add(1)));
    assert_emptied(rt, alloc, &mut tree, count, new)
}

#[test]
fn pieces_are_cut_and_emptied(rt: HostRuntime) -> Result<(), Fail> {
    for count in [127u32, 128, 129, 255, 256, 257] {
        for new in [NEW_FIRST, NEW_INSIDE, NEW_LAST] {
            assert_cut_and_emptied(&rt, rt.alloc(), count, new)?;
        }
    }
    Ok(())
}

/// Discards bytes, and counts them.
#[derive(Drop)]
struct Counted {
    bytes: usize,
}

impl Write for Counted {
    ghost contents = { λ _. None };

    fn write(&mut self, bytes: &[u8]) -> io::Result<usize> {
        self.bytes = self.bytes.saturating_add(bytes.len());
        Ok(bytes.len())
    }

    fn flush(&mut self) -> io::Result<()> {
        Ok(())
    }
}

/// How many bytes are written for a tree, and for a text before it, if there is one.
fn written_len(alloc: Global, text: Option<&[u8]>, tree: &Tree) -> Result<usize, AllocError> {
    let mut counted = Counted { bytes: 0 };
    let mut sink = ToWrite::new(&mut counted);
    let written = match text {
        Some(text) => write_before_inventory(alloc, text, tree, &mut sink),
        None => write_inventory(alloc, tree, &mut sink),
    };
    match written {
        Ok(()) => Ok(counted.bytes),
        Err(_) => Err(AllocError),
    }
}

fn large_written_len(alloc: Global, text: Option<&[u8]>) -> Result<usize, AllocError> {
    let tree = tree_of(alloc, COUNT)?;
    written_len(alloc, text, &tree)
}

/// A line has 47 bytes: `L`, a path of 34, a target of 9, two tabs and the line end. The first line
/// has 20, and `end` 4.
#[test]
fn a_large_tree_is_written(rt: HostRuntime) -> Result<(), Fail> {
    let len = ample!(large_written_len(rt.alloc(), None), AllocError)?;
    assert_eq!(rt; len, 20 + ENTRIES * 47 + 4);
    let len = ample!(
        large_written_len(rt.alloc(), Some(b"== tree\n")),
        AllocError
    )?;
    assert_eq!(rt; len, 8 + 20 + ENTRIES * 47 + 4);
    Ok(())
}

/// Makes the unit of this number a file.
fn set_file(
    alloc: Global,
    tree: &mut Tree,
    number: u32,
    contents: &Contents,
) -> Result<(), AllocError> {
    let slot = slot(alloc, number)?;
    if Slot::of(&slot).is_none() {
        return Err(AllocError);
    }
    tree.set(&slot, Some(Entry::File(contents.copy()?)))
}

/// A tree of 1,100 files, which share 1,048,576 bytes.
fn shared_files(alloc: Global) -> Result<Box<Tree>, AllocError> {
    let bytes = Vec::from_elem(alloc, b'x', 1_048_576)?;
    let Ok(contents) = Contents::copied(alloc, &bytes) else {
        return Err(AllocError);
    };
    let mut tree = empty(alloc)?;
    for number in 1000..2100 {
        set_file(alloc, &mut tree, number, &contents)?;
    }
    Ok(tree)
}

/// How many files there are, and how many bytes are written for them.
fn shared_files_written(alloc: Global) -> Result<(usize, usize), AllocError> {
    let tree = shared_files(alloc)?;
    Ok((tree.len(), written_len(alloc, None, &tree)?))
}

/// The line of a file has 43 bytes: `F`, the length in 7 digits, a path of 32 bytes, two tabs and
/// the line end. Another line end comes after the file.
#[test]
fn files_of_over_a_gibibyte_are_written(rt: HostRuntime) -> Result<(), Fail> {
    let (count, len) = ample!(shared_files_written(rt.alloc()), AllocError)?;
    assert_eq!(rt; count, 1100);
    assert_eq!(rt; len, 20 + 1100 * (43 + 1_048_576 + 1) + 4);
    Ok(())
}

/// A text of one gibibyte and one byte, with room for another byte.
fn long_text(alloc: Global) -> Result<Vec<u8>, AllocError> {
    let mebibyte = Vec::from_elem(alloc, b'x', 1_048_576)?;
    let mut text = Vec::with_capacity(alloc, 1_073_741_826)?;
    for _part in 0..1024 {
        text.extend_from_slice(&mebibyte)?;
    }
    text.push(b'\n')?;
    Ok(text)
}

/// How many bytes are written for the text, with an empty tree after it.
fn long_text_written_len(alloc: Global) -> Result<usize, AllocError> {
    let text = long_text(alloc)?;
    let tree = empty(alloc)?;
    written_len(alloc, Some(&text), &tree)
}

/// How long the text is with one more digit.
fn long_text_len_with_digit(alloc: Global) -> Result<usize, AllocError> {
    let mut text = long_text(alloc)?;
    push_decimal(&mut text, 7)?;
    Ok(text.len())
}

#[test]
fn a_text_of_over_a_gibibyte_is_written(rt: HostRuntime) -> Result<(), Fail> {
    let len = ample!(long_text_written_len(rt.alloc()), AllocError)?;
    assert_eq!(rt; len, 1_073_741_825 + 20 + 4);
    let len = ample!(long_text_len_with_digit(rt.alloc()), AllocError)?;
    assert_eq!(rt; len, 1_073_741_826);
    Ok(())
}

/// Relinks a unit. Returns whether the lists are right then. They are checked only after every
/// tenth change.
fn follow(alloc: Global, tree: &mut Tree, number: u32) -> Result<bool, AllocError> {
    relink(alloc, tree, number)?;
    Ok(number % 10 != 9 || are_all_of_each(alloc, tree)?)
}

fn assert_lists_follow(rt: &impl Abort, alloc: Global, tree: &mut Tree) -> Result<(), Fail> {
    for number in 0..1000u32 {
        let are_right = ample!(follow(alloc, tree, number), AllocError)?;
        assert!(rt; are_right);
    }
    Ok(())
}

#[test]
fn lists_follow_a_thousand_changes(rt: HostRuntime) -> Result<(), Fail> {
    let mut tree = ample!(empty(rt.alloc()), AllocError)?;
    assert_lists_follow(&rt, rt.alloc(), &mut tree)
}
