//! Reading of inventories.
use link_tree::{
    Entry, FromRead, InventoryError, InventoryFault, Line, Tree, read_inventory, read_line,
};
use sample_rows::{Row, assert_rows, is, number_of};
use sample_values::{path, tree};
use std::alloc::{AllocError, Global};
use std::test::Fail;

/// What is read from an inventory: `entries` are those after its first line.
const ROWS: &[u8] = b"\
    # The first fault is reported, and the number of its entry.\n\
    inventory\t\t\tinventory entry 0: bad header\n\
    inventory\tunitadm-inventory 1\t\tinventory entry 0: bad header\n\
    inventory\tunitadm-inventory 2\\nend\\n\t\tinventory entry 0: bad header\n\
    inventory\tunitadm-inventory 1\\r\\nend\\n\t\tinventory entry 0: bad header\n\
    \n\
    entries\t\t\tinventory entry 1: truncated\n\
    entries\tend\t\tinventory entry 1: truncated\n\
    entries\tL\\t/a\\tb\t\tinventory entry 1: truncated\n\
    entries\tL\\t/a\\tb\\nen\t\tinventory entry 2: truncated\n\
    entries\t\\n\t\tinventory entry 1: bad line\n\
    entries\tend \\n\t\tinventory entry 1: bad line\n\
    entries\tL\\t/a\\n\t\tinventory entry 1: bad line\n\
    entries\tL /a\\tb\\n\t\tinventory entry 1: bad line\n\
    entries\tL\\t/a\\tb\\tc\\n\t\tinventory entry 1: bad line\n\
    entries\tL\\ta\\tb\\tc\\n\t\tinventory entry 1: bad line\n\
    entries\tL\\t\\tb\\n\t\tinventory entry 1: bad path\n\
    entries\tL\\ta\\tb\\n\t\tinventory entry 1: bad path\n\
    entries\tL\\t/a\\t\\n\t\tinventory entry 1: bad path\n\
    entries\tL\\t/a\\x00\\tb\\n\t\tinventory entry 1: bad path\n\
    entries\tL\\t/a\\tb\\x00\\n\t\tinventory entry 1: bad path\n\
    entries\tL\\t/etc/../a\\tb\\n\t\tinventory entry 1: bad path\n\
    entries\tL\\t/a\\tb\\nL\\t/a\\tb\\n\t\tinventory entry 2: duplicate\n\
    entries\tL\\t/a\\tb\\nL\\t/a/c/d\\tb\\n\t\tinventory entry 2: under another entry\n\
    entries\tL\\t/a/c/d\\tb\\nL\\t/a\\tb\\n\t\tinventory entry 2: under another entry\n\
    entries\tL\\t/a-b\\tb\\nL\\t/a/c\\tb\\nL\\t/a\\tb\\n\
        \t\tinventory entry 3: under another entry\n\
    entries\tL\\t/etc/systemd/system/a.path\\tb\\nL\\t/etc/systemd/system/a.path/c\\tb\\n\
        \t\tinventory entry 2: under another entry\n\
    entries\tL\\t/etc/systemd/system/x.target.wants\\t/y\\n\t\tinventory entry 1: bad shape\n\
    entries\tL\\t/etc/systemd/system/a.service/b\\t/y\\n\t\tinventory entry 1: bad shape\n\
    entries\tL\\t/usr/lib/systemd/system/a.target.wants/a.path/b\\t/y\\n\
        \t\tinventory entry 1: bad shape\n\
    entries\tL\\t/run/systemd/system-preset\\t/y\\n\t\tinventory entry 1: bad shape\n\
    entries\tL\\t/usr/local/lib\\t/y\\n\t\tinventory entry 1: bad shape\n\
    entries\tL\\t/etc\\t/y\\n\t\tinventory entry 1: bad shape\n\
    \n\
    # The first fault of a file.\n\
    entries\tF\\t1\\t/a\t\tinventory entry 1: truncated\n\
    entries\tF\\t1\\t/a\\n\t\tinventory entry 1: truncated\n\
    entries\tF\\t1\\t/a\\nx\t\tinventory entry 1: truncated\n\
    entries\tF\\t1\\t/a\\nx\\n\t\tinventory entry 2: truncated\n\
    entries\tF\\t1\\t/a\\nxy\\nend\\n\t\tinventory entry 1: bad line\n\
    entries\tF\\t2\\t/a\\nx\\nend\\n\t\tinventory entry 1: bad line\n\
    entries\tF\\t1\\n\t\tinventory entry 1: bad line\n\
    entries\tF\\t1\\t/a\\tb\\nx\\n\t\tinventory entry 1: bad line\n\
    entries\tF\\t\\t/a\\nx\\n\t\tinventory entry 1: bad line\n\
    entries\tF\\t01\\t/a\\nx\\n\t\tinventory entry 1: bad line\n\
    entries\tF\\t00\\t/a\\n\\n\t\tinventory entry 1: bad line\n\
    entries\tF\\t+1\\t/a\\nx\\n\t\tinventory entry 1: bad line\n\
    entries\tF\\t-1\\t/a\\nx\\n\t\tinventory entry 1: bad line\n\
    entries\tF\\t1 \\t/a\\nx\\n\t\tinventory entry 1: bad line\n\
    entries\tF\\t0x1\\t/a\\nx\\n\t\tinventory entry 1: bad line\n\
    entries\tf\\t1\\t/a\\nx\\n\t\tinventory entry 1: bad line\n\
    entries\tF\\t1\\ta\\nx\\n\t\tinventory entry 1: bad path\n\
    entries\tF\\t1\\t\\nx\\n\t\tinventory entry 1: bad path\n\
    entries\tF\\t1048577\\ta\\n\t\tinventory entry 1: bad path\n\
    entries\tF\\t1048577\\t/a\\n\t\tinventory entry 1: file too large\n\
    entries\tF\\t36893488147419103232\\t/a\\n\t\tinventory entry 1: file too large\n\
    entries\tF\\t1048576\\t/a\\n\t\tinventory entry 1: truncated\n\
    entries\tL\\t/a\\tb\\nF\\t1\\t/a\\nxy\\n\t\tinventory entry 2: bad line\n\
    entries\tL\\t/a\\tb\\nF\\t1\\t/a\\nx\\n\t\tinventory entry 2: duplicate\n\
    entries\tF\\t0\\t/a\\n\\nF\\t1\\t/a/b\\nx\\n\t\tinventory entry 2: under another entry\n\
    entries\tF\\t1\\t/etc\\nx\\n\t\tinventory entry 1: bad shape\n\
    \n\
    # A line has at most 16,384 bytes.\n\
    line of\t16384\t\tinventory entry 1: truncated\n\
    line of\t16385\t\tinventory entry 1: bad line\n\
    \n\
    # Behind 24 links. They come into the tree sixteen at a time: when what follows is read, 7.path is\n\
    # in it, and 25.path is pending.\n\
    behind many\t\t\tinventory entry 25: truncated\n\
    behind many\tL\\n\t\tinventory entry 25: bad line\n\
    behind many\tL\\t/etc/systemd/system/7.path\\t/x\\nend\\n\t\tinventory entry 25: duplicate\n\
    behind many\tL\\t/etc/systemd/system/25.path\\t/x\\nL\\n\t\tinventory entry 25: duplicate\n\
    behind many\tL\\t/etc/systemd/system/7.path\\t/x\\nL\\t/etc/systemd/system/25.path\\t/x\\n\
        L\\t/etc/systemd/system/0.path\\t/x\\nL\\n\t\tinventory entry 25: duplicate\n\
    behind many\tL\\t/etc/systemd/system/z.path\\t/x\\nL\\t/etc/systemd/system/z.path\\t/x\\n\
        L\\t/etc/systemd/system/25.path\\t/x\\n\t\tinventory entry 26: duplicate\n\
    behind many\tL\\t/etc/systemd/system/25.path\\t/x\\nL\\t/etc\\t/x\\nend\\n\
        \t\tinventory entry 25: duplicate\n\
    behind many\tL\\t/etc/systemd/system/z.path\\t/x\\nL\\t/etc\\t/x\\nend\\n\
        \t\tinventory entry 26: under another entry\n\
    behind many\tL\\t/etc/systemd/system/25.path/a\\t/x\\nend\\n\
        \t\tinventory entry 25: under another entry\n\
    behind many\tL\\t/a\\t/x\\nL\\t/a\\t/x\\nL\\t/etc/systemd/system/25.path\\t/x\\nend\\n\
        \t\tinventory entry 26: duplicate\n\
    behind many\tL\\t/a\\t/x\\nL\\t/etc/systemd/system/z.path\\t/x\\nend\\n\t\t26 entries\n\
    \n\
    # What follows an inventory is left: here the first line of it.\n\
    followed by\tL\\t/b\\t/x\\nL\\t/a/c\\ty\\nend\\n== calls\\n\t\t2 entries, then == calls\n\
    \n\
    # A file's bytes may look like anything.\n\
    file\tF\\t10\\t/b\\nend\\n\\n\\x00\\tL\\t/\\nF\\t0\\t/a\\n\\nend\\n\t/b\t\
        end\\n\\n\\x00\\tL\\t/\n\
    file\tF\\t10\\t/b\\nend\\n\\n\\x00\\tL\\t/\\nF\\t0\\t/a\\n\\nend\\n\t/a\t\n";

/// An inventory of these entries.
fn inventory(alloc: Global, entries: &[u8]) -> Result<Vec<u8>, AllocError> {
    [b"unitadm-inventory 1\n".as_slice(), entries].concat(alloc)
}

/// How many entries an inventory has.
fn count(alloc: Global, input: &[u8]) -> Result<usize, InventoryError> {
    Ok(read_inventory(alloc, &mut FromRead::new(input))?.len())
}

/// How many entries an inventory has, or its first fault.
fn read(alloc: Global, input: &[u8]) -> Result<Vec<u8>, AllocError> {
    match count(alloc, input) {
        Ok(count) => Ok(format!(in alloc; "{count} entries")?.into_bytes()),
        Err(InventoryError::OutOfMemory) => Err(AllocError),
        Err(fault) => Ok(format!(in alloc; "{fault}")?.into_bytes()),
    }
}

fn read_entries(alloc: Global, entries: &[u8]) -> Result<Vec<u8>, AllocError> {
    let text = inventory(alloc, entries)?;
    read(alloc, &text)
}

fn read_long_line(alloc: Global, len: usize) -> Result<Vec<u8>, AllocError> {
    let line = Vec::from_elem(alloc, b'x', len)?;
    read_entries(alloc, &line)
}

/// 24 links at slots, in no order, and what follows them.
fn many(alloc: Global, rest: &[u8]) -> Result<Vec<u8>, AllocError> {
    let mut text = Vec::new(alloc);
    for i in 0..24u32 {
        let line = format!(in alloc; "L\t/etc/systemd/system/{}.path\t/x\n", i * 7 % 29)?;
        text.extend_from_slice(line.as_bytes())?;
    }
    text.extend_from_slice(rest)?;
    Ok(text)
}

fn read_many(alloc: Global, rest: &[u8]) -> Result<Vec<u8>, AllocError> {
    let entries = many(alloc, rest)?;
    read_entries(alloc, &entries)
}

/// The line that follows, if it is a whole one.
fn line_behind(alloc: Global, source: &mut FromRead<&[u8]>) -> Result<Vec<u8>, AllocError> {
    match read_line(alloc, source, 80, InventoryFault::BadLine) {
        Ok(Line::Whole(line)) => Ok(line),
        Ok(Line::Last(_)) => Vec::from_slice(alloc, b"a line without end"),
        Err(_) => Err(AllocError),
    }
}

/// How many entries an inventory has, and the line that follows it.
fn read_with_line(alloc: Global, input: &[u8]) -> Result<Vec<u8>, AllocError> {
    let mut source = FromRead::new(input);
    let count = match read_inventory(alloc, &mut source) {
        Ok(tree) => tree.len(),
        Err(_) => return Err(AllocError),
    };
    let line = line_behind(alloc, &mut source)?;
    let mut words = format!(in alloc; "{count} entries, then ")?.into_bytes();
    words.extend_from_slice(&line)?;
    Ok(words)
}

fn followed_by(alloc: Global, entries: &[u8]) -> Result<Vec<u8>, AllocError> {
    let text = inventory(alloc, entries)?;
    read_with_line(alloc, &text)
}

/// The bytes of a file at a path of the tree.
fn file_at(alloc: Global, tree: &Tree, at: &[u8]) -> Result<Vec<u8>, AllocError> {
    let path = path(alloc, at)?;
    match tree.get(&path) {
        Some(Entry::File(contents)) => Vec::from_slice(alloc, contents.bytes()),
        _ => Vec::from_slice(alloc, b"no file"),
    }
}

fn file_of(alloc: Global, entries: &[u8], at: &[u8]) -> Result<Vec<u8>, AllocError> {
    let text = inventory(alloc, entries)?;
    let tree = tree(alloc, &text)?;
    file_at(alloc, &tree, at)
}

fn answer(alloc: Global, row: &Row) -> Result<Vec<u8>, AllocError> {
    if is(row, b"inventory") {
        read(alloc, &row.one)
    } else if is(row, b"entries") {
        read_entries(alloc, &row.one)
    } else if is(row, b"line of") {
        read_long_line(alloc, number_of(&row.one))
    } else if is(row, b"behind many") {
        read_many(alloc, &row.one)
    } else if is(row, b"followed by") {
        followed_by(alloc, &row.one)
    } else if is(row, b"file") {
        file_of(alloc, &row.one, &row.two)
    } else {
        Vec::from_slice(alloc, b"unknown kind")
    }
}

#[test]
fn inventories_are_read_up_to_their_first_fault(rt: HostRuntime) -> Result<(), Fail> {
    assert_rows(rt.alloc(), ROWS, answer)
}
