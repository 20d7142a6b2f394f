//! mask and unmask.
use crate::lines::{arguments, has_verb, scope_and_units, without_last_end};
use crate::questions::{OfLine, asked, outcome};
use crate::readings::push_key;
use footprint::{Key, Outcome, agrees, touches};
use link_tree::{Change, Scope, Tree};
use sample_rows::{Row, assert_rows, is};
use sample_values::{name, path, tree};
use slot_commands::{Mask, Unmask};
use std::alloc::{AllocError, Global};
use std::test::Fail;

/// `a` and `d` are masked, the second in another spelling, `e` is an empty file, `f` is a file, `x`
/// a link, and `r` is masked until the next start.
const TREE: &[u8] = b"unitadm-inventory 1\n\
    L\t/etc/systemd/system/a.service\t/dev/null\n\
    L\t/etc/systemd/system/d.service\t../../../dev/./null\n\
    F\t0\t/etc/systemd/system/e.service\n\n\
    F\t1\t/etc/systemd/system/f.service\nf\n\
    L\t/etc/systemd/system/x.service\t/a\n\
    L\t/run/systemd/system/r.service\t/dev/null\n\
    end\n";

const EMPTY: &[u8] = b"unitadm-inventory 1\nend\n";

/// `x` is masked.
const MASKED: &[u8] = b"unitadm-inventory 1\n\
    L\t/etc/systemd/system/x.service\t/dev/null\n\
    end\n";

/// Two more kinds: `agrees` says whether TREE agrees with what a mask of the empty tree has looked
/// at, or at which key it doesn't, and `touches` whether the one change of that mask touches the
/// key that is there instead of TREE.
const ROWS: &[u8] = b"\
    # Empty slots are filled\n\
    run\tmask z.service a.service b@.socket z.service d.service\t\tdone\\n\
    + /etc/systemd/system/b@.socket -> /dev/null\\n\
    + /etc/systemd/system/z.service -> /dev/null\n\
    run\tmask --runtime x.service\t\tdone\\n+ /run/systemd/system/x.service -> /dev/null\n\
    # Other entries are in the way\n\
    run\tmask z.service x.service\t\texists: /etc/systemd/system/x.service\n\
    run\tmask z.service e.service\t\texists: /etc/systemd/system/e.service\n\
    run\tmask z.service f.service\t\texists: /etc/systemd/system/f.service\n\
    # Masks are removed, and no other entries\n\
    run\tunmask x.service d.service a.service e.service r.service f.service d.service\t\tdone\\n\
    - /etc/systemd/system/a.service -> /dev/null\\n\
    - /etc/systemd/system/d.service -> ../../../dev/./null\\n\
    - /etc/systemd/system/e.service file \n\
    # Each slot is looked at once, up to the one that refuses the command\n\
    reads\tmask z.service x.service b.service\t\t/etc/systemd/system/x.service\\n/etc/systemd/system/z.service\n\
    reads\tunmask --runtime r.service b.service r.service\t\t\
    /run/systemd/system/b.service\\n/run/systemd/system/r.service\n\
    # Each of its parts makes it another command\n\
    same\tmask x.service\tmask y.service\tno\n\
    same\tmask x.service\tmask --runtime x.service\tno\n\
    same\tunmask x.service\tunmask x.service y.service\tno\n\
    same\tunmask x.service\tunmask --runtime x.service\tno\n\
    # The slot is what a mask looks at and what it changes\n\
    agrees\tmask x.service\tempty\tyes\n\
    agrees\tmask x.service\tmasked\t/etc/systemd/system/x.service\n\
    touches\tmask x.service\t/etc/systemd/system/x.service\tyes\n\
    touches\tmask x.service\tetc x.service\tno\n\
    touches\tmask x.service\tpresets\tno\n\
    touches\tmask x.service\tlinks\tno\n";

impl OfLine for Mask {
    fn of_line(alloc: Global, line: &[u8]) -> Result<Mask, AllocError> {
        let (scope, units) = scope_and_units(alloc, line)?;
        Ok(Mask { scope, units })
    }
}

impl OfLine for Unmask {
    fn of_line(alloc: Global, line: &[u8]) -> Result<Unmask, AllocError> {
        let (scope, units) = scope_and_units(alloc, line)?;
        Ok(Unmask { scope, units })
    }
}

fn inventory(tree: &[u8]) -> &'static [u8] {
    if tree == b"empty".as_slice() {
        EMPTY
    } else if tree == b"masked".as_slice() {
        MASKED
    } else {
        TREE
    }
}

fn masked_in(alloc: Global, line: &[u8], tree: &Tree) -> Result<Box<Outcome>, AllocError> {
    let mask = Mask::of_line(alloc, line)?;
    outcome(alloc, &mask, tree)
}

/// What the mask of a line results in, in the empty tree.
fn masked(alloc: Global, line: &[u8]) -> Result<Box<Outcome>, AllocError> {
    let tree = Box::new(alloc, Tree::empty(alloc)?)?;
    masked_in(alloc, line, &tree)
}

/// `yes`, or the key that a tree does not agree on.
fn agreement_text(alloc: Global, agreed: Result<(), &Key>) -> Result<Vec<u8>, AllocError> {
    let mut text = Vec::new(alloc);
    match agreed {
        Ok(()) => text.extend_from_slice(b"yes\n")?,
        Err(key) => push_key(&mut text, key)?,
    }
    without_last_end(text)
}

/// Whether a tree agrees with what the mask of a line has looked at in the empty tree.
fn agreement(alloc: Global, line: &[u8], tree: &Tree) -> Result<Vec<u8>, AllocError> {
    let outcome = masked(alloc, line)?;
    agreement_text(alloc, agrees(tree, &outcome.reading))
}

/// The key that `push_key` writes so: a path, a unit in `/etc`, the preset files or the links.
fn key_of(alloc: Global, text: &[u8]) -> Result<Key, AllocError> {
    if text == b"presets".as_slice() {
        Ok(Key::Presets)
    } else if text == b"links".as_slice() {
        Ok(Key::Links)
    } else if text.starts_with(b"etc ") {
        Ok(Key::Marked(Scope::Etc, name(alloc, arguments(text))?))
    } else {
        Ok(Key::Cell(path(alloc, text)?))
    }
}

fn touched_text(changes: &[Change], key: &Key) -> &'static [u8] {
    match changes {
        [change] if touches(change, key) => b"yes",
        [_change] => b"no",
        _ => b"not one change",
    }
}

/// Whether the one change of a mask of the empty tree touches a key.
fn touched(alloc: Global, line: &[u8], key: &Key) -> Result<Vec<u8>, AllocError> {
    let outcome = masked(alloc, line)?;
    Vec::from_slice(alloc, touched_text(outcome.changes.as_slice(), key))
}

fn agrees_in(alloc: Global, row: &Row) -> Result<Vec<u8>, AllocError> {
    let tree = tree(alloc, inventory(&row.two))?;
    agreement(alloc, &row.one, &tree)
}

fn touches_at(alloc: Global, row: &Row) -> Result<Vec<u8>, AllocError> {
    let key = key_of(alloc, &row.two)?;
    touched(alloc, &row.one, &key)
}

fn answer(alloc: Global, row: &Row) -> Result<Vec<u8>, AllocError> {
    if is(row, b"agrees") {
        agrees_in(alloc, row)
    } else if is(row, b"touches") {
        touches_at(alloc, row)
    } else if has_verb(&row.one, b"mask") {
        asked::<Mask>(alloc, row, inventory(&row.two))
    } else {
        asked::<Unmask>(alloc, row, inventory(&row.two))
    }
}

#[test]
fn masks_fill_empty_slots_and_are_removed(rt: HostRuntime) -> Result<(), Fail> {
    assert_rows(rt.alloc(), ROWS, answer)
}
