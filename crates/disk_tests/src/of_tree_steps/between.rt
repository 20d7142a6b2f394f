//! Changes and steps between small trees.
use link_tree::{Change, Entry, Tree};
use sample_rows::{Row, assert_rows, is};
use sample_values::tree;
use std::alloc::{AllocError, Global};
use std::test::Fail;
use tree_steps::{are_same, changes_between, steps_between};

const EMPTY: &[u8] = b"unitadm-inventory 1\nend\n";

const OLD: &[u8] = b"unitadm-inventory 1
L\t/etc/systemd/system/a.service\tb.service
F\t1\t/etc/systemd/system/b.service
b
L\t/etc/systemd/system/c.service\tb.service
F\t1\t/etc/systemd/system/d.service
d
F\t1\t/etc/systemd/system/e.service
e
L\t/etc/systemd/system/k.service\tz.service
L\t/etc/systemd/system/z.service\t/dev/null
end
";

const NEW: &[u8] = b"unitadm-inventory 1
L\t/etc/systemd/system/a.service\te.service
L\t/etc/systemd/system/d.service\te.service
F\t1\t/etc/systemd/system/e.service
E
L\t/etc/systemd/system/f.service\tg.service
F\t1\t/etc/systemd/system/g.service
g
L\t/etc/systemd/system/k.service\tz.service
F\t0\t/etc/systemd/system/z.service

end
";

const ROWS: &[u8] = b"\
    # changes: what differs between the trees ONE and TWO, by the letters of names, each with\n\
    # what is there before and after: a file, a link, or nothing.\n\
    changes\told\tnew\ta LL, b F-, c L-, d FL, e FF, f -L, g -F, z LF\n\
    changes\tempty\told\ta -L, b -F, c -L, d -F, e -F, k -L, z -L\n\
    changes\told\tempty\ta L-, b F-, c L-, d F-, e F-, k L-, z L-\n\
    changes\tnew\tnew\t\n\
    # steps: the same in the order in which it is made. Files come first and are removed last.\n\
    steps\told\tnew\te FF, g -F, z LF, a LL, d FL, f -L, c L-, b F-\n\
    steps\tempty\told\tb -F, d -F, e -F, a -L, c -L, k -L, z -L\n\
    steps\told\tempty\ta L-, c L-, k L-, z L-, b F-, d F-, e F-\n\
    steps\tnew\tnew\t\n\
    # same: whether the trees are the same.\n\
    same\told\tnew\tno\n\
    same\tnew\told\tno\n\
    same\tempty\told\tno\n\
    same\told\tempty\tno\n\
    same\tnew\tnew\tyes\n";

fn tree_named(alloc: Global, word: &[u8]) -> Result<Box<Tree>, AllocError> {
    if word == b"old".as_slice() {
        return tree(alloc, OLD);
    }
    if word == b"new".as_slice() {
        return tree(alloc, NEW);
    }
    tree(alloc, EMPTY)
}

fn letter(entry: &Option<Entry>) -> u8 {
    match entry {
        Some(Entry::File(_)) => b'F',
        Some(Entry::Link(_)) => b'L',
        None => b'-',
    }
}

fn push_change(text: &mut Vec<u8>, change: &Change) -> Result<(), AllocError> {
    if !text.is_empty() {
        text.extend_from_slice(b", ")?;
    }
    text.extend_from_slice(change.path.file_name().get(..1).unwrap_or(b"?"))?;
    text.push(b' ')?;
    text.push(letter(&change.before))?;
    text.push(letter(&change.after))?;
    Ok(())
}

/// The first letter of each name, with the kinds of what is there before and after.
fn text_of(alloc: Global, changes: &[Change]) -> Result<Vec<u8>, AllocError> {
    let mut text = Vec::new(alloc);
    for change in changes {
        push_change(&mut text, change)?;
    }
    Ok(text)
}

fn changes(alloc: Global, old: &Tree, new: &Tree) -> Result<Vec<u8>, AllocError> {
    let changes = changes_between(alloc, old, new)?;
    text_of(alloc, &changes)
}

fn steps(alloc: Global, old: &Tree, new: &Tree) -> Result<Vec<u8>, AllocError> {
    let steps = steps_between(alloc, old, new)?;
    text_of(alloc, &steps)
}

fn same(alloc: Global, old: &Tree, new: &Tree) -> Result<Vec<u8>, AllocError> {
    Vec::from_slice(alloc, if are_same(old, new) { b"yes" } else { b"no" })
}

fn answer(alloc: Global, row: &Row) -> Result<Vec<u8>, AllocError> {
    let old = tree_named(alloc, &row.one)?;
    let new = tree_named(alloc, &row.two)?;
    if is(row, b"changes") {
        return changes(alloc, &old, &new);
    }
    if is(row, b"steps") {
        return steps(alloc, &old, &new);
    }
    if is(row, b"same") {
        return same(alloc, &old, &new);
    }
    Vec::from_slice(alloc, b"unknown kind")
}

#[test]
fn files_come_first_and_go_last(rt: HostRuntime) -> Result<(), Fail> {
    assert_rows(rt.alloc(), ROWS, answer)
}
