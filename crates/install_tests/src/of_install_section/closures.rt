//! Which units are enabled together.
use crate::of_install_section::units::{closure_text, names, text_of_count};
use crate::trees::tree;
use install_section::{Closed, Closure, ClosureFault, Members, closure, closure_into};
use link_tree::Tree;
use load_path::Cells;
use sample_rows::{Row, assert_rows, is};
use sample_values::name;
use std::alloc::{AllocError, Global};
use std::test::Fail;
use unit_name::UnitName;

const AB: &[u8] = b"\
    a.service [Install]\nWantedBy=m.target\nAlso=b.service none.service\n|\
    b.service [Install]\nWantedBy=m.target\nAlso=a.service\n";

const TEMPLATES: &[u8] = b"\
    w@.service [Install]\nDefaultInstance=one\nAlso=h@%i.service %p.socket\n|\
    h@.service [Install]\n|\
    w.socket [Socket]\n";

/// A unit that names others, each of which isn't found as itself for a reason of its own.
const REASONS: &[u8] = b"\
    x.service [Install]\nAlso=%z x none.service masked.service loose.service other.service empty.service\n|\
    masked.service -> /dev/null|\
    loose.service -> /nowhere|\
    other.service -> y.service|\
    y.service [Install]\n|\
    empty.service";

const ROWS: &[u8] = b"\
    # together: the units of the tree ONE that are enabled together with TWO, and the notices.\n\
    # Units that name one another are there once.\n\
    together\tab\ta.service\ta.service\\nb.service\\n  \
        ! a.service: Also none.service: not found\\n\n\
    together\tab\ta.service b.service a.service\ta.service\\nb.service\\n  \
        ! a.service: Also none.service: not found\\n\n\
    together\tab\tb.service\tb.service\\na.service\\n  \
        ! a.service: Also none.service: not found\\n\n\
    # A name without a unit names nothing.\n\
    together\tab\tnone.service\tnone.service\\n\n\
    # Words are expanded with the identity, here that of the default instance.\n\
    together\ttemplates\tw@.service\tw@.service\\nh@one.service\\nw.socket\\n\n\
    together\ttemplates\tw@two.service\tw@two.service\\nh@two.service\\nw.socket\\n\n\
    # Each reason why a word names no unit has its notice.\n\
    together\treasons\tx.service\tx.service\\n  ! x.service: Also %z: bad specifier\\n  \
        ! x.service: Also empty.service: masked\\n  ! x.service: Also loose.service: dangling\\n  \
        ! x.service: Also masked.service: masked\\n  ! x.service: Also none.service: not found\\n  \
        ! x.service: Also other.service: is an alias\\n  ! x.service: Also x: bad name\\n\n\
    # paths looked at: each as often as it is looked at. A unit in the last directory is found by\n\
    # four paths, and for its words its file is looked at once more. A word is looked up as often\n\
    # as it is written.\n\
    paths looked at\ta.service [Install]\\n|b.service [Install]\\n\ta.service\t5\n\
    paths looked at\ta.service [Install]\\nAlso=b.service\\n|b.service [Install]\\n\ta.service\t\
        14\n\
    paths looked at\ta.service [Install]\\nAlso=b.service b.service\\n|b.service [Install]\\n\t\
        a.service\t18\n\
    paths looked at\ta.service [Install]\\nAlso=a.service\\n|b.service [Install]\\n\ta.service\t9\n\
    # paths: each once, in the order in which they are looked at first.\n\
    paths\tab\ta.service\t/etc/systemd/system/a.service\\n/run/systemd/system/a.service\\n\
        /usr/local/lib/systemd/system/a.service\\n/usr/lib/systemd/system/a.service\\n\
        /etc/systemd/system/b.service\\n/run/systemd/system/b.service\\n\
        /usr/local/lib/systemd/system/b.service\\n/usr/lib/systemd/system/b.service\\n\
        /etc/systemd/system/none.service\\n/run/systemd/system/none.service\\n\
        /usr/local/lib/systemd/system/none.service\\n/usr/lib/systemd/system/none.service\\n\n\
    # how many, contains, unit: among the units of the tree `ab` that are enabled together with\n\
    # ONE. Places are counted from 0.\n\
    how many\ta.service\t\t2\n\
    contains\ta.service\tb.service\tyes\n\
    contains\ta.service\tnone.service\tno\n\
    unit\ta.service\t1\tb.service\n\
    unit\ta.service\t2\tnone\n";

/// The text of the tree that a word names, or which the word is.
fn tree_named(word: &[u8]) -> &[u8] {
    if word == b"ab".as_slice() {
        return AB;
    }
    if word == b"templates".as_slice() {
        return TEMPLATES;
    }
    if word == b"reasons".as_slice() {
        return REASONS;
    }
    word
}

fn looks(alloc: Global, tree: &Tree, given: &[UnitName]) -> Result<usize, AllocError> {
    let mut cells = Cells::new(alloc);
    let _closed = closure_into(alloc, tree, given, &mut cells)?;
    Ok(cells.as_slice().len())
}

fn paths_looked_at(alloc: Global, tree_text: &[u8], given: &[u8]) -> Result<Vec<u8>, AllocError> {
    let tree = tree(alloc, tree_text)?;
    let given = names(alloc, given)?;
    let looks = looks(alloc, &tree, &given)?;
    text_of_count(alloc, looks, looks == 0)
}

fn cells_text(alloc: Global, cells: &Cells) -> Result<Vec<u8>, AllocError> {
    let mut text = Vec::new(alloc);
    for cell in cells.as_slice() {
        text.extend_from_slice(cell.text())?;
        text.push(b'\n')?;
    }
    Ok(text)
}

fn boxed(alloc: Global, tree: &Tree, given: &[UnitName]) -> Result<Box<Closure>, AllocError> {
    match closure(alloc, tree, given) {
        Ok(closure) => Ok(Box::new(alloc, closure)?),
        Err(_) => Err(AllocError),
    }
}

fn paths(alloc: Global, tree_text: &[u8], given: &[u8]) -> Result<Vec<u8>, AllocError> {
    let tree = tree(alloc, tree_text)?;
    let given = names(alloc, given)?;
    let closure = boxed(alloc, &tree, &given)?;
    cells_text(alloc, &closure.cells)
}

fn closed(alloc: Global, tree: &Tree, given: &[UnitName]) -> Result<Box<Closed>, AllocError> {
    let mut cells = Cells::new(alloc);
    match closure_into(alloc, tree, given, &mut cells)? {
        Ok(closed) => Ok(Box::new(alloc, closed)?),
        Err(ClosureFault::TooMany) => Err(AllocError),
    }
}

/// The units of the tree `ab` that are enabled together with these.
fn closed_of_ab(alloc: Global, given: &[u8]) -> Result<Box<Closed>, AllocError> {
    let tree = tree(alloc, AB)?;
    let given = names(alloc, given)?;
    closed(alloc, &tree, &given)
}

fn how_many(alloc: Global, given: &[u8]) -> Result<Vec<u8>, AllocError> {
    let closed = closed_of_ab(alloc, given)?;
    text_of_count(alloc, closed.units.len(), closed.units.is_empty())
}

fn has(alloc: Global, units: &Members, unit: &[u8]) -> Result<Vec<u8>, AllocError> {
    let unit = name(alloc, unit)?;
    Vec::from_slice(alloc, if units.contains(&unit) { b"yes" } else { b"no" })
}

fn contains(alloc: Global, given: &[u8], unit: &[u8]) -> Result<Vec<u8>, AllocError> {
    let closed = closed_of_ab(alloc, given)?;
    has(alloc, &closed.units, unit)
}

/// The unit at a place, which is a digit.
fn unit_at(alloc: Global, given: &[u8], place: &[u8]) -> Result<Vec<u8>, AllocError> {
    let closed = closed_of_ab(alloc, given)?;
    let digit = place.first().copied().unwrap_or(b'0');
    match closed.units.get(usize::from(digit.wrapping_sub(b'0'))) {
        Some(unit) => Vec::from_slice(alloc, unit.text()),
        None => Vec::from_slice(alloc, b"none"),
    }
}

fn answer(alloc: Global, row: &Row) -> Result<Vec<u8>, AllocError> {
    let tree = tree_named(&row.one);
    if is(row, b"together") {
        return closure_text(alloc, tree, &row.two);
    }
    if is(row, b"paths looked at") {
        return paths_looked_at(alloc, tree, &row.two);
    }
    if is(row, b"paths") {
        return paths(alloc, tree, &row.two);
    }
    if is(row, b"how many") {
        return how_many(alloc, &row.one);
    }
    if is(row, b"contains") {
        return contains(alloc, &row.one, &row.two);
    }
    if is(row, b"unit") {
        return unit_at(alloc, &row.one, &row.two);
    }
    Vec::from_slice(alloc, b"unknown kind")
}

#[test]
fn units_that_name_one_another_are_enabled_together(rt: HostRuntime) -> Result<(), Fail> {
    assert_rows(rt.alloc(), ROWS, answer)
}
