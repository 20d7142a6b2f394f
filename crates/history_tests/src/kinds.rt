//! What blocks an undo, by keys of each kind.

use crate::texts::text_of;
use crate::watching::{Watch, looking};
use history::{History, RowReply};
use link_tree::Tree;
use sample_rows::{Row, assert_rows};
use sample_steps::{operator, push_numbered, push_reply};
use std::alloc::{AllocError, Global};
use std::test::Fail;

/// A slot at which the first row makes a link; the key by which the second row looks; how many rows
/// looked at the link, and the reply to the undo of the first row.
const ROWS: &[u8] = b"\
    # a link of a unit is seen by its slot and by its name\n\
    link\t/etc/systemd/system/a.service\tslot:a.service\treaders:2 blocked:2\n\
    link\t/etc/systemd/system/a.service\tslot:b.service\treaders:1 undid:1\n\
    link\t/etc/systemd/system/a.service\tname:a.service\treaders:2 blocked:2\n\
    link\t/etc/systemd/system/a.service\tname:b.service\treaders:1 undid:1\n\
    link\t/etc/systemd/system/a.service\tpresets\treaders:1 undid:1\n\
    link\t/etc/systemd/system/a.service\tlinks\treaders:1 undid:1\n\
    # a dependency is seen by its unit's name, and among links\n\
    link\t/etc/systemd/system/m.target.wants/a.service\tslot:a.service\treaders:1 undid:1\n\
    link\t/etc/systemd/system/m.target.wants/a.service\tname:a.service\treaders:2 blocked:2\n\
    link\t/etc/systemd/system/m.target.wants/a.service\tname:m.target\treaders:1 undid:1\n\
    link\t/etc/systemd/system/m.target.wants/a.service\tpresets\treaders:1 undid:1\n\
    link\t/etc/systemd/system/m.target.wants/a.service\tlinks\treaders:2 blocked:2\n\
    # a preset is seen among presets alone\n\
    link\t/etc/systemd/system-preset/1.preset\tslot:a.service\treaders:1 undid:1\n\
    link\t/etc/systemd/system-preset/1.preset\tname:a.service\treaders:1 undid:1\n\
    link\t/etc/systemd/system-preset/1.preset\tpresets\treaders:2 blocked:2\n\
    link\t/etc/systemd/system-preset/1.preset\tlinks\treaders:1 undid:1\n\
    ";

/// The call of a watch. If memory runs out, the operation that came back is run. Returns whether
/// the history was as before then, and the row is made.
fn call(
    alloc: Global,
    history: &mut History<Watch>,
    watch: Box<Watch>,
) -> Result<bool, AllocError> {
    let alice = operator(b"alice")?;
    let before = text_of(alloc, history)?;
    let unrun = match history.call(alloc, alice, Box::into_inner(watch)) {
        Ok(_) => return Ok(true),
        Err(unrun) => unrun,
    };
    let is_kept = text_of(alloc, history)? == before;
    let again = history.call(alloc, alice, unrun.operation);
    Ok(is_kept && again.is_ok())
}

/// How many rows looked at what the first one changed.
fn readers_of_the_first(alloc: Global, history: &History<Watch>) -> Result<u32, AllocError> {
    let Some(row) = history.rows().first() else {
        return Ok(0);
    };
    match row.changes.as_slice() {
        [change] => {
            let readers = history.readers(alloc, change)?;
            Ok(u32::try_from(readers.len()).unwrap_or(99))
        }
        _ => Ok(0),
    }
}

/// The reply of the last row.
fn push_last(out: &mut Vec<u8>, history: &History<Watch>) -> Result<(), AllocError> {
    match history.rows().last() {
        Some(row) => push_reply(out, &row.reply),
        None => out.extend_from_slice(b"no-row"),
    }
}

/// A history of the empty tree.
fn begun(alloc: Global) -> Result<Box<History<Watch>>, AllocError> {
    let history = History::new(alloc, Tree::empty(alloc)?)?;
    Ok(Box::new(alloc, history)?)
}

/// Makes the two rows. Returns whether they are made, and the history was kept whenever memory ran
/// out.
fn looked(
    alloc: Global,
    history: &mut History<Watch>,
    slot: &[u8],
    key: &[u8],
) -> Result<bool, AllocError> {
    let first = call(alloc, history, looking(alloc, b"slot:y.service", slot)?)?;
    let later = looking(alloc, key, b"/run/systemd/system/z.service")?;
    Ok(call(alloc, history, later)? && first)
}

/// The undo of the first row. If memory runs out, it is called again. Returns whether the history
/// was as before then, and the row of the undo is made.
fn undo(alloc: Global, history: &mut History<Watch>) -> Result<bool, AllocError> {
    let alice = operator(b"alice")?;
    let before = text_of(alloc, history)?;
    if history.undo(alloc, alice, 1).is_ok() {
        return Ok(true);
    }
    let is_kept = text_of(alloc, history)? == before;
    Ok(history.undo(alloc, alice, 1).is_ok() && is_kept)
}

/// How many rows looked at the link, and what results from the undo.
fn told(alloc: Global, history: &mut History<Watch>) -> Result<Vec<u8>, AllocError> {
    let mut out = Vec::new(alloc);
    push_numbered(&mut out, b"readers", readers_of_the_first(alloc, history)?)?;
    out.extend_from_slice(b" ")?;
    if !undo(alloc, history)? {
        out.extend_from_slice(b"changed ")?;
    }
    push_last(&mut out, history)?;
    Ok(out)
}

fn answer(alloc: Global, row: &Row) -> Result<Vec<u8>, AllocError> {
    let mut history = begun(alloc)?;
    if !looked(alloc, &mut history, &row.one, &row.two)? {
        return Vec::from_slice(alloc, b"changed");
    }
    told(alloc, &mut history)
}

#[test]
fn a_link_is_seen_by_these_keys(rt: HostRuntime) -> Result<(), Fail> {
    assert_rows(rt.alloc(), ROWS, answer)
}
