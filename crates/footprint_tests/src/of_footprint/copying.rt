//! Copies, and what is equal to its copy.
use super::at_once::push_change;
use super::texts::inventory_of;
use crate::keys::{key, keys, reading};
use footprint::{
    Answer, Changes, Key, Notice, NoticeKey, Notices, Reading, Reason, Refusal, StateWord, Units,
    agrees,
};
use link_tree::{Slot, Tree, TreePath};
use sample_rows::{Row, assert_rows, is};
use sample_values::{link, name, path, tree};
use std::alloc::{AllocError, Global};
use std::fmt::Debug;
use std::test::Fail;
use transaction::Transaction;
use unit_file::Word;

const TREE: &[u8] = b"unitadm-inventory 1
L\t/etc/systemd/system/a.service\tc.service
F\t1\t/etc/systemd/system/b.service
b
end
";

const ROWS: &[u8] = b"\
    # key, reading, changes, answer: whether a copy is the same as another of the same words, or is\n\
    # shown alike.\n\
    key\t/a/b\t\tthe same\n\
    key\tetc:a.service\t\tthe same\n\
    key\trun:b.service\t\tthe same\n\
    key\tpresets\t\tthe same\n\
    key\tlinks\t\tthe same\n\
    # A tree is read by the keys ONE: how many observations there are, each key once.\n\
    observed\t/etc/systemd/system/a.service /a etc:a.service links presets /a\t\t5, agreed: yes\n\
    # A reading by the keys ONE, and how many observations its copy has.\n\
    reading\t/etc/systemd/system/a.service /a etc:a.service links\t\t4, shown alike\n\
    reading\tpresets run:b.service\t\t2, shown alike\n\
    # The changes of TREE if ONE is linked elsewhere and TWO is removed, and how many their copy\n\
    # has.\n\
    changes\t/etc/systemd/system/a.service\t/etc/systemd/system/b.service\t2, shown alike\n\
    # The same changes taken back: for each the entry before (-) and the one after (+).\n\
    inverse\t/etc/systemd/system/a.service\t/etc/systemd/system/b.service\t\
        a.service - b.service + c.service\\nb.service + b\\n\n\
    answer\tdone\t\tthe same, shown alike\n\
    answer\tstate\t\tthe same, shown alike\n\
    answer\tname\t\tthe same, shown alike\n\
    answer\tnames\t\tthe same, shown alike\n\
    answer\trefused\t\tthe same, shown alike\n";

/// What is reported for a call that ran out of memory, if what it was given isn't as it was.
const CHANGED: &[u8] = b"what was given is changed";

/// Whether a copy of a key is equal to another key of the same text.
fn told_of_key(alloc: Global, copy: &Key, same: &Key) -> Result<Vec<u8>, AllocError> {
    match copy == same {
        true => Vec::from_slice(alloc, b"the same"),
        false => Vec::from_slice(alloc, b"another"),
    }
}

/// What a copy of a key is. If memory runs out, the key is equal to another of its text, and is
/// copied again.
fn key_copied(alloc: Global, text: &[u8]) -> Result<Vec<u8>, AllocError> {
    let original = key(alloc, text)?;
    let same = key(alloc, text)?;
    if let Ok(copy) = original.copy() {
        return told_of_key(alloc, &copy, &same);
    }
    if original != same {
        return Vec::from_slice(alloc, CHANGED);
    }
    let copy = original.copy()?;
    told_of_key(alloc, &copy, &same)
}

/// Whether two values are shown by the same text.
fn are_shown_alike<T: Debug>(alloc: Global, one: &T, other: &T) -> Result<bool, AllocError> {
    let one = format!(in alloc; "{one:?}")?;
    let other = format!(in alloc; "{other:?}")?;
    Ok(one == other)
}

fn count_text(alloc: Global, count: usize, are_alike: bool) -> Result<Vec<u8>, AllocError> {
    let shown = if are_alike { "alike" } else { "otherwise" };
    Ok(format!(in alloc; "{count}, shown {shown}")?.into_bytes())
}

/// What keys read in a tree. If memory runs out, the tree is as it was, and is read again.
fn read_or_kept(
    alloc: Global,
    tree: &Tree,
    texts: &[u8],
) -> Result<Option<Box<Reading>>, AllocError> {
    let first = keys(alloc, texts)?;
    let second = keys(alloc, texts)?;
    let before = inventory_of(alloc, tree)?;
    if let Ok(reading) = Reading::of(alloc, tree, first) {
        return Ok(Some(Box::new(alloc, reading)?));
    }
    if inventory_of(alloc, tree)? != before {
        return Ok(None);
    }
    Ok(Some(Box::new(alloc, Reading::of(alloc, tree, second)?)?))
}

/// How many observations a reading of a tree has, and whether the tree agrees with it.
fn observed(alloc: Global, inventory: &[u8], texts: &[u8]) -> Result<Vec<u8>, AllocError> {
    let tree = tree(alloc, inventory)?;
    match read_or_kept(alloc, &tree, texts)? {
        Some(reading) => {
            let count = reading.as_slice().len();
            let agreed = if agrees(&tree, &reading).is_ok() {
                "yes"
            } else {
                "no"
            };
            Ok(format!(in alloc; "{count}, agreed: {agreed}")?.into_bytes())
        }
        None => Vec::from_slice(alloc, CHANGED),
    }
}

/// A copy of a reading.
fn copy_of_reading(alloc: Global, reading: &Reading) -> Result<Box<Reading>, AllocError> {
    Ok(Box::new(alloc, reading.copy()?)?)
}

/// How many observations a copy has, and whether it is shown as another reading.
fn told_of_reading(alloc: Global, copy: &Reading, same: &Reading) -> Result<Vec<u8>, AllocError> {
    let are_alike = are_shown_alike(alloc, copy, same)?;
    count_text(alloc, copy.as_slice().len(), are_alike)
}

/// What a copy of a reading is. If memory runs out, the reading is shown as another one by the same
/// keys, and is copied again.
fn reading_copied(alloc: Global, keys: &[u8]) -> Result<Vec<u8>, AllocError> {
    let inventory = b"unitadm-inventory 1\nL\t/etc/systemd/system/a.service\tb.service\nend\n";
    let original = reading(alloc, inventory, keys)?;
    let same = reading(alloc, inventory, keys)?;
    if let Ok(copy) = copy_of_reading(alloc, &original) {
        return told_of_reading(alloc, &copy, &same);
    }
    if !are_shown_alike(alloc, &*original, &*same)? {
        return Vec::from_slice(alloc, CHANGED);
    }
    let copy = copy_of_reading(alloc, &original)?;
    told_of_reading(alloc, &copy, &same)
}

/// The changes if one slot is linked elsewhere, and another is cleared.
fn edited(
    alloc: Global,
    tree: &Tree,
    relinked: &TreePath,
    cleared: &TreePath,
) -> Result<Changes, AllocError> {
    let link = link(alloc, b"b.service")?;
    if Slot::of(relinked).is_none() || Slot::of(cleared).is_none() {
        return Err(AllocError);
    }
    let mut txn = Transaction::new(alloc, tree);
    txn.put(alloc, relinked, Some(link))?;
    txn.put(alloc, cleared, None)?;
    Ok(txn.outcome_of_steps(alloc, Ok(()))?.changes)
}

fn changes(alloc: Global, relinked: &[u8], cleared: &[u8]) -> Result<Changes, AllocError> {
    let tree = tree(alloc, TREE)?;
    let relinked = path(alloc, relinked)?;
    let cleared = path(alloc, cleared)?;
    edited(alloc, &tree, &relinked, &cleared)
}

/// How many changes a copy has, and whether it is shown as others.
fn told_of_changes(alloc: Global, copy: &Changes, same: &Changes) -> Result<Vec<u8>, AllocError> {
    let are_alike = are_shown_alike(alloc, copy, same)?;
    count_text(alloc, copy.as_slice().len(), are_alike)
}

/// What a copy of changes is. If memory runs out, the changes are shown as others of the same edit,
/// and are copied again.
fn changes_copied(alloc: Global, relinked: &[u8], cleared: &[u8]) -> Result<Vec<u8>, AllocError> {
    let original = changes(alloc, relinked, cleared)?;
    let same = changes(alloc, relinked, cleared)?;
    if let Ok(copy) = original.copy() {
        return told_of_changes(alloc, &copy, &same);
    }
    if !are_shown_alike(alloc, &original, &same)? {
        return Vec::from_slice(alloc, CHANGED);
    }
    let copy = original.copy()?;
    told_of_changes(alloc, &copy, &same)
}

/// The changes that undo changes. If memory runs out, the changes are as they were, and they are
/// undone then.
fn taken_back(alloc: Global, changes: &Changes) -> Result<Changes, AllocError> {
    let before = changes.copy()?;
    if let Ok(inverse) = changes.inverse() {
        return Ok(inverse);
    }
    if are_shown_alike(alloc, changes, &before)? {
        changes.inverse()
    } else {
        Ok(before)
    }
}

fn inverse_text(alloc: Global, relinked: &[u8], cleared: &[u8]) -> Result<Vec<u8>, AllocError> {
    let changes = changes(alloc, relinked, cleared)?;
    let inverse = taken_back(alloc, &changes)?;
    let mut text = Vec::new(alloc);
    for change in inverse.as_slice() {
        push_change(&mut text, change)?;
    }
    Ok(text)
}

fn notice(alloc: Global) -> Result<Notice, AllocError> {
    Ok(Notice {
        unit: name(alloc, b"a.service")?,
        key: NoticeKey::Alias,
        word: Word::from_slice(alloc, b"%q.service")?,
        reason: Reason::BadSpecifier,
    })
}

fn notices(alloc: Global) -> Result<Notices, AllocError> {
    let mut notices = Notices::none(alloc);
    notices.add(notice(alloc)?)?;
    Ok(notices)
}

fn push_name(alloc: Global, names: &mut Units, text: &[u8]) -> Result<(), AllocError> {
    let name = name(alloc, text)?;
    names.push(name)
}

fn names(alloc: Global) -> Result<Units, AllocError> {
    let mut names = Units::none(alloc);
    for text in [b"a.service", b"b@.socket"] {
        push_name(alloc, &mut names, text)?;
    }
    Ok(names)
}

fn answer_of(alloc: Global, word: &[u8]) -> Result<Answer, AllocError> {
    if word == b"done".as_slice() {
        return Ok(Answer::Done(notices(alloc)?));
    }
    if word == b"state".as_slice() {
        return Ok(Answer::State(StateWord::LinkedRuntime));
    }
    if word == b"name".as_slice() {
        return Ok(Answer::Name(name(alloc, b"a.target")?));
    }
    if word == b"names".as_slice() {
        return Ok(Answer::Names(names(alloc)?));
    }
    Ok(Answer::Refused(Refusal::Clash(path(alloc, b"/b")?)))
}

fn answer_named(alloc: Global, word: &[u8]) -> Result<Box<Answer>, AllocError> {
    Ok(Box::new(alloc, answer_of(alloc, word)?)?)
}

/// A copy of an answer.
fn boxed_copy(alloc: Global, answer: &Answer) -> Result<Box<Answer>, AllocError> {
    Ok(Box::new(alloc, answer.copy()?)?)
}

/// What a copy is of an answer that has the same word.
fn told_of_answer(alloc: Global, copy: &Answer, same: &Answer) -> Result<Vec<u8>, AllocError> {
    let are_alike = are_shown_alike(alloc, copy, same)?;
    match (copy.same(same), are_alike) {
        (true, true) => Vec::from_slice(alloc, b"the same, shown alike"),
        (true, false) => Vec::from_slice(alloc, b"the same, shown otherwise"),
        (false, _) => Vec::from_slice(alloc, b"another"),
    }
}

/// What a copy of an answer is. If memory runs out, the answer is the same as another of its word,
/// and is copied again.
fn answer_copied(alloc: Global, word: &[u8]) -> Result<Vec<u8>, AllocError> {
    let answer = answer_named(alloc, word)?;
    let same = answer_named(alloc, word)?;
    if let Ok(copy) = boxed_copy(alloc, &answer) {
        return told_of_answer(alloc, &copy, &same);
    }
    if !answer.same(&same) {
        return Vec::from_slice(alloc, CHANGED);
    }
    let copy = boxed_copy(alloc, &answer)?;
    told_of_answer(alloc, &copy, &same)
}

fn answer(alloc: Global, row: &Row) -> Result<Vec<u8>, AllocError> {
    if is(row, b"key") {
        return key_copied(alloc, &row.one);
    }
    if is(row, b"observed") {
        return observed(alloc, TREE, &row.one);
    }
    if is(row, b"reading") {
        return reading_copied(alloc, &row.one);
    }
    if is(row, b"changes") {
        return changes_copied(alloc, &row.one, &row.two);
    }
    if is(row, b"inverse") {
        return inverse_text(alloc, &row.one, &row.two);
    }
    if is(row, b"answer") {
        return answer_copied(alloc, &row.one);
    }
    Vec::from_slice(alloc, b"unknown kind")
}

#[test]
fn copies_are_the_same_and_shown_alike(rt: HostRuntime) -> Result<(), Fail> {
    assert_rows(rt.alloc(), ROWS, answer)
}
