//! What a tree says about one unit.
use crate::trees::tree;
use link_tree::{Tree, TreePath};
use sample_rows::{Row, assert_rows, is};
use sample_values::{name, path};
use std::alloc::{AllocError, Global};
use std::test::Fail;
use unit_lists::{PathNote, UnitStatus, push_status, unit_status};

const ROWS: &[u8] = b"\
    # What the tree ONE says of the unit TWO.\n\
    status\t\ta.service\ta.service\\n     Loaded: not-found\\n\n\
    status\tS/a.service x\ta.service\ta.service\\n\
        \x20    Loaded: loaded (/usr/lib/systemd/system/a.service; static)\\n\n\
    status\tS/a.service [Install]\\nWantedBy=m.target\\n|E/m.target.wants/a.service -> S/a.service|\
        R/b.service -> S/a.service|P/1.preset disable *\ta.service\ta.service\\n\
        \x20    Loaded: loaded (/usr/lib/systemd/system/a.service; enabled; preset: disabled)\\n\
        \x20      Link: /etc/systemd/system/m.target.wants/a.service\\n\
        \x20      Link: /run/systemd/system/b.service\\n\n\
    status\tS/a.service x|R/b.service -> S/a.service\tb.service\tb.service\\n\
        \x20    Loaded: loaded (/usr/lib/systemd/system/a.service; alias)\\n\
        \x20  Alias of: a.service\\n\
        \x20      Link: /run/systemd/system/b.service\\n\n\
    status\tS/a.service x|R/a.service -> /dev/null\ta.service\ta.service\\n\
        \x20    Loaded: masked (/run/systemd/system/a.service; masked-runtime; preset: enabled)\\n\n\
    status\tS/a@.service x|E/a@.service -> /dev/null\ta@1.service\ta@1.service\\n\
        \x20    Loaded: masked (/etc/systemd/system/a@.service; masked; preset: enabled)\\n\n\
    status\tE/a.service -> b.service|E/b.service -> c.service\ta.service\ta.service\\n\
        \x20    Loaded: bad (/etc/systemd/system/b.service; bad; preset: enabled)\\n\
        \x20      Link: /etc/systemd/system/a.service\\n\n\
    # The same with notes on a path: the first of two on it counts.\n\
    noted\tS/a.service [Install]\\nWantedBy=m.target\\n|E/m.target.wants/a.service -> S/a.service|\
        R/b.service -> S/a.service\ta.service\ta.service\\n\
        \x20    Loaded: loaded (/usr/lib/systemd/system/a.service; enabled; preset: enabled)\\n\
        \x20      Link: /etc/systemd/system/m.target.wants/a.service (row 3)\\n\
        \x20      Link: /run/systemd/system/b.service\\n\n\
    noted\tS/a.service x|R/a.service -> /dev/null\ta.service\ta.service\\n\
        \x20    Loaded: masked (/run/systemd/system/a.service; masked-runtime; preset: enabled)\
        \x20(row 2)\\n\n";

fn boxed_status(alloc: Global, tree: &Tree, unit: &[u8]) -> Result<Box<UnitStatus>, AllocError> {
    let unit = name(alloc, unit)?;
    Ok(Box::new(alloc, unit_status(alloc, tree, &unit)?)?)
}

/// The text of a status, with notes on two paths, of which one has two.
fn push_noted(alloc: Global, text: &mut Vec<u8>, status: &UnitStatus) -> Result<(), AllocError> {
    let wants = path(alloc, b"/etc/systemd/system/m.target.wants/a.service")?;
    let mask = path(alloc, b"/run/systemd/system/a.service")?;
    let notes = [
        note(&mask, b" (row 2)"),
        note(&wants, b" (row 3)"),
        note(&wants, b" (row 4)"),
    ];
    push_status(text, status, &notes)
}

fn note<'a>(path: &'a TreePath, text: &'a [u8]) -> PathNote<'a> {
    PathNote { path, text }
}

fn answer(alloc: Global, row: &Row) -> Result<Vec<u8>, AllocError> {
    let tree = tree(alloc, &row.one)?;
    let status = boxed_status(alloc, &tree, &row.two)?;
    let mut text = Vec::new(alloc);
    if is(row, b"noted") {
        push_noted(alloc, &mut text, &status)?;
    } else {
        push_status(&mut text, &status, &[])?;
    }
    Ok(text)
}

#[test]
fn units_have_a_status(rt: HostRuntime) -> Result<(), Fail> {
    assert_rows(rt.alloc(), ROWS, answer)
}
