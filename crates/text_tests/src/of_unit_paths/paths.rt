use crate::texts::in_full;
use sample_rows::{Row, assert_rows, is, yes_or_no};
use sample_values::path;
use std::alloc::{AllocError, Global};
use std::cmp::Ordering;
use std::test::Fail;
use unit_paths::{PathError, TreePath};

const ROWS: &[u8] = b"\
    # A path is absolute, without empty parts, `.` and `..`, and has at most 4,095 bytes.\n\
    parse\t/a/b\t\ta path\n\
    parse\t/a\t\ta path\n\
    parse\t/a/...\t\ta path\n\
    parse\t/.a/a.\t\ta path\n\
    parse\t/a b/\\x01\t\ta path\n\
    parse\t\t\tbad path\n\
    parse\ta\t\tbad path\n\
    parse\t/\t\tbad path\n\
    parse\t/a/\t\tbad path\n\
    parse\t/a//b\t\tbad path\n\
    parse\t/a/../b\t\tbad path\n\
    parse\t/a/.\t\tbad path\n\
    parse\t/..\t\tbad path\n\
    parse\t//a\t\tbad path\n\
    parse\t/a\\x00\t\tbad path\n\
    parse\t/a\\tb\t\tbad path\n\
    parse\t/a\\nb\t\tbad path\n\
    parse long\t/a*4094\t\ta path\n\
    parse long\t/a*4095\t\tbad path\n\
    \n\
    # Paths are ordered by their bytes.\n\
    compare\t/a\t/a\tequal\n\
    compare\t/a\t/b\tless\n\
    compare\t/a/b\t/a.b\tgreater\n\
    compare\t/a\t/a/b\tless\n\
    compare\t/B\t/a\tless\n\
    \n\
    # A path has a name and a directory, which is a path unless it is the root.\n\
    parts\t/a\t\ta in '', beneath no path\n\
    parts\t/a/b\t\tb in '/a', beneath /a\n\
    parts\t/a.b/c.d/e.f\t\te.f in '/a.b/c.d', beneath /a.b/c.d\n\
    \n\
    # What the first path in byte order has behind the path that it can be beneath.\n\
    first beneath\t/a/b\t\t/\\x01\n\
    first beneath long\t/a*4092\t\t/\\x01\n\
    first beneath long\t/a*4093\t\tno path\n\
    \n\
    # Whether a path is beneath another.\n\
    beneath\t/a/b\t/a\tyes\n\
    beneath\t/a/b/c\t/a\tyes\n\
    beneath\t/a/b/c\t/a/b\tyes\n\
    beneath\t/a\t/a\tno\n\
    beneath\t/a\t/a/b\tno\n\
    beneath\t/ab\t/a\tno\n\
    beneath\t/b/a/c\t/a\tno\n";

fn parsed(alloc: Global, text: &[u8]) -> Result<Vec<u8>, AllocError> {
    match TreePath::parse(alloc, text) {
        Ok(path) if path.text() == text => Vec::from_slice(alloc, b"a path"),
        Ok(_) => Vec::from_slice(alloc, b"another path"),
        Err(PathError::BadPath) => Vec::from_slice(alloc, b"bad path"),
        Err(PathError::OutOfMemory) => Err(AllocError),
    }
}

fn is_as_its_copy(path: &TreePath) -> Result<bool, AllocError> {
    let copy = path.copy()?;
    Ok(copy == *path)
}

/// How two paths compare. They are equal if they compare so.
fn order_of(one: &TreePath, other: &TreePath) -> &'static [u8] {
    match (one.cmp(other), one == other) {
        (Ordering::Less, false) => b"less",
        (Ordering::Equal, true) => b"equal",
        (Ordering::Greater, false) => b"greater",
        _ => b"otherwise equal",
    }
}

fn compared(alloc: Global, one: &[u8], other: &[u8]) -> Result<Vec<u8>, AllocError> {
    let one = path(alloc, one)?;
    let other = path(alloc, other)?;
    if !is_as_its_copy(&one)? {
        return Vec::from_slice(alloc, b"another copy");
    }
    Vec::from_slice(alloc, order_of(&one, &other))
}

/// The name, the directory and the parent.
fn parts_of(alloc: Global, text: &[u8]) -> Result<Vec<u8>, AllocError> {
    let path = path(alloc, text)?;
    let pieces = [path.file_name(), b" in '", path.directory(), b"', beneath "];
    let mut parts = pieces.concat(alloc)?;
    match path.into_parent() {
        Some(parent) => parts.extend_from_slice(parent.text())?,
        None => parts.extend_from_slice(b"no path")?,
    }
    Ok(parts)
}

/// What the first path in byte order that can be beneath one has after it, if there is one.
fn first_beneath(alloc: Global, above: &[u8]) -> Result<Vec<u8>, AllocError> {
    let path = path(alloc, above)?;
    match path.first_beneath()? {
        Some(first) => match first.text().strip_prefix(above) {
            Some(rest) => Vec::from_slice(alloc, rest),
            None => Vec::from_slice(alloc, b"a path elsewhere"),
        },
        None => Vec::from_slice(alloc, b"no path"),
    }
}

fn is_beneath(alloc: Global, below: &[u8], above: &[u8]) -> Result<Vec<u8>, AllocError> {
    let below = path(alloc, below)?;
    let above = path(alloc, above)?;
    yes_or_no(alloc, below.is_beneath(&above))
}

fn answer(alloc: Global, row: &Row) -> Result<Vec<u8>, AllocError> {
    if is(row, b"parse") {
        parsed(alloc, &row.one)
    } else if is(row, b"parse long") {
        parsed(alloc, &in_full(alloc, &row.one)?)
    } else if is(row, b"compare") {
        compared(alloc, &row.one, &row.two)
    } else if is(row, b"parts") {
        parts_of(alloc, &row.one)
    } else if is(row, b"first beneath") {
        first_beneath(alloc, &row.one)
    } else if is(row, b"first beneath long") {
        first_beneath(alloc, &in_full(alloc, &row.one)?)
    } else if is(row, b"beneath") {
        is_beneath(alloc, &row.one, &row.two)
    } else {
        Vec::from_slice(alloc, b"unknown kind")
    }
}

#[test]
fn paths_have_parts_and_an_order(rt: HostRuntime) -> Result<(), Fail> {
    assert_rows(rt.alloc(), ROWS, answer)
}
