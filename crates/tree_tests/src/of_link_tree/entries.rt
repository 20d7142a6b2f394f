//! Files, links and their changes.
use link_tree::{Change, Entry, FileError, is_null_link};
use sample_rows::{Row, assert_rows, is, number_of, yes_or_no};
use sample_values::{file, link, path};
use std::alloc::{AllocError, Global};
use std::test::Fail;

const ROWS: &[u8] = b"\
    # A file has at most a mebibyte.\n\
    size\t0\t\ta file\n\
    size\t1\t\ta file\n\
    size\t4096\t\ta file\n\
    size\t1048576\t\ta file\n\
    size\t1048577\t\tfile too large\n\
    \n\
    # A link to /dev/null masks.\n\
    mask\t/dev/null\t\tyes\n\
    mask\t../../../dev/null\t\tyes\n\
    mask\t//dev/./null\t\tyes\n\
    mask\t/../dev/x/../null/\t\tyes\n\
    mask\tdev/null\t\tno\n\
    mask\t/dev/null/x\t\tno\n\
    mask\t/dev\t\tno\n\
    mask\t/lib/systemd/null\t\tno\n\
    mask\t/dev/nul\t\tno\n\
    \n\
    # Which of five entries an entry is the same as: it is so by its kind and its bytes.\n\
    same as\tfile of \t\tfile of ;\n\
    same as\tfile of a\t\tfile of a;\n\
    same as\tfile of ab\t\tfile of ab;\n\
    same as\tlink to a\t\tlink to a;\n\
    same as\tlink to ab\t\tlink to ab;\n\
    \n\
    # A change of a link, taken back.\n\
    taken back\tb.service\t/dev/null\t/etc/systemd/system/a.service from /dev/null to b.service\n";

/// Whether the entry and its copy are files with these bytes.
fn are_files(entry: &Entry, bytes: &[u8]) -> Result<bool, AllocError> {
    let copy = entry.copy()?;
    Ok(entry.bytes() == bytes && matches!(copy, Entry::File(_)) && copy.bytes() == bytes)
}

/// Whether this number of bytes makes a file, and all are in it and in its copy.
fn make_file(alloc: Global, size: usize) -> Result<bool, FileError> {
    let bytes = Vec::from_elem(alloc, b'x', size)?;
    let entry = Entry::file(alloc, &bytes)?;
    Ok(are_files(&entry, &bytes)?)
}

fn file_of_size(alloc: Global, size: usize) -> Result<Vec<u8>, AllocError> {
    match make_file(alloc, size) {
        Ok(true) => Vec::from_slice(alloc, b"a file"),
        Ok(false) => Vec::from_slice(alloc, b"another file"),
        Err(FileError::TooLarge) => Vec::from_slice(alloc, b"file too large"),
        Err(FileError::OutOfMemory) => Err(AllocError),
    }
}

/// Whether a link with this target masks a unit.
fn is_mask(alloc: Global, target: &[u8]) -> Result<Vec<u8>, AllocError> {
    let from = path(alloc, b"/etc/systemd/system/x.service")?;
    let link = link(alloc, target)?;
    yes_or_no(alloc, is_null_link(&from, &link))
}

const ENTRIES: [&[u8]; 5] = [
    b"file of ",
    b"file of a",
    b"file of ab",
    b"link to a",
    b"link to ab",
];

/// A file of these bytes, or a link to this target.
pub(crate) fn entry_of(alloc: Global, words: &[u8]) -> Result<Entry, AllocError> {
    match (
        words.strip_prefix(b"file of "),
        words.strip_prefix(b"link to "),
    ) {
        (Some(bytes), _) => file(alloc, bytes),
        (_, Some(target)) => link(alloc, target),
        _ => Err(AllocError),
    }
}

/// Whether an entry is the same as a copy of another.
fn are_same(alloc: Global, one: &[u8], other: &[u8]) -> Result<bool, AllocError> {
    let one = entry_of(alloc, one)?;
    let copy = entry_of(alloc, other)?.copy()?;
    Ok(one.same(&copy))
}

/// Those of some entries that an entry is the same as.
fn all_same(alloc: Global, one: &[u8], entries: &[&[u8]]) -> Result<Vec<u8>, AllocError> {
    let mut same = Vec::new(alloc);
    for other in entries {
        if are_same(alloc, one, other)? {
            same.extend_from_slice(other)?;
            same.extend_from_slice(b";")?;
        }
    }
    Ok(same)
}

fn change_in_words(alloc: Global, change: &Change) -> Result<Vec<u8>, AllocError> {
    match (&change.before, &change.after) {
        (Some(before), Some(after)) => {
            let words = [
                change.path.text(),
                b" from ",
                before.bytes(),
                b" to ",
                after.bytes(),
            ];
            words.concat(alloc)
        }
        _ => Vec::from_slice(alloc, b"from or to nothing"),
    }
}

/// The change of a link at a slot to another, undone.
fn taken_back(alloc: Global, before: &[u8], after: &[u8]) -> Result<Vec<u8>, AllocError> {
    let change = Change {
        path: path(alloc, b"/etc/systemd/system/a.service")?,
        before: Some(link(alloc, before)?),
        after: Some(link(alloc, after)?),
    };
    let back = change.taken_back()?;
    change_in_words(alloc, &back)
}

fn answer(alloc: Global, row: &Row) -> Result<Vec<u8>, AllocError> {
    if is(row, b"size") {
        file_of_size(alloc, number_of(&row.one))
    } else if is(row, b"mask") {
        is_mask(alloc, &row.one)
    } else if is(row, b"same as") {
        all_same(alloc, &row.one, &ENTRIES)
    } else if is(row, b"taken back") {
        taken_back(alloc, &row.one, &row.two)
    } else {
        Vec::from_slice(alloc, b"unknown kind")
    }
}

#[test]
fn entries_are_files_and_links(rt: HostRuntime) -> Result<(), Fail> {
    assert_rows(rt.alloc(), ROWS, answer)
}
