//! Rows that are listed, and rows that no longer are.
use super::indexes::{found, list, listed};
use crate::changes::change;
use crate::keys::{EMPTY, reading};
use footprint::Reading;
use link_tree::Change;
use readers::Readers;
use sample_rows::{Row, assert_rows, is};
use std::alloc::{AllocError, Global};
use std::process::Abort;
use std::test::Fail;
use unit_name::ample;

/// A change that adds the link of a dependency.
const LINK: &[u8] = b"/etc/systemd/system/m.target.wants/a.service||/opt/b.service";

const ROWS: &[u8] = b"\
    # found: the rows that looked at what LINK touches, after these changes to the index: `-6\n\
    # KEYS`, row 6 is listed under these keys no longer; `+9 KEYS`, row 9 is listed under them. A\n\
    # row is listed under its own keys alone.\n\
    found\t\t\t1236\n\
    found\t-6 etc:a.service\t\t1236\n\
    found\t-6 etc:a.service|-6 etc:a.service run:b.service presets links\t\t123\n\
    found\t-6 etc:a.service|-6 etc:a.service run:b.service presets links|\
        -1 etc:a.service run:b.service presets links\t\t23\n\
    found\t-6 etc:a.service|-6 etc:a.service run:b.service presets links|\
        -1 etc:a.service run:b.service presets links|+9 links\t\t239\n";

/// Removes a row from the lists of the keys of a text.
fn unlist(alloc: Global, readers: &mut Readers, n: u32, texts: &[u8]) -> Result<(), AllocError> {
    let reading = reading(alloc, EMPTY, texts)?;
    readers.remove(&reading, n);
    Ok(())
}

fn relist(alloc: Global, readers: &mut Readers, text: &[u8]) -> Result<(), AllocError> {
    match text {
        [b'-', digit, b' ', keys @ ..] => {
            unlist(alloc, readers, u32::from(digit.wrapping_sub(b'0')), keys)
        }
        [b'+', digit, b' ', keys @ ..] => {
            list(alloc, readers, u32::from(digit.wrapping_sub(b'0')), keys)
        }
        _ => Ok(()),
    }
}

fn relisted(alloc: Global, texts: &[u8]) -> Result<Box<Readers>, AllocError> {
    let mut readers = listed(alloc)?;
    for text in texts.split(|b| *b == b'|') {
        relist(alloc, &mut readers, text)?;
    }
    Ok(readers)
}

fn answer(alloc: Global, row: &Row) -> Result<Vec<u8>, AllocError> {
    if !is(row, b"found") {
        return Vec::from_slice(alloc, b"unknown kind");
    }
    let readers = relisted(alloc, &row.one)?;
    let change = change(alloc, LINK)?;
    found(alloc, &readers, &change)
}

#[test]
fn a_row_is_listed_under_its_own_keys_alone(rt: HostRuntime) -> Result<(), Fail> {
    assert_rows(rt.alloc(), ROWS, answer)
}

fn assert_found(
    rt: &impl Abort,
    alloc: Global,
    readers: &Readers,
    change: &Change,
    expected: &[u8],
) -> Result<(), Fail> {
    let found = ample!(found(alloc, readers, change), AllocError)?;
    assert_eq!(rt; found.as_slice(), expected);
    Ok(())
}

/// Tries to list a row. If memory runs out, finds what was found before, and then tries once more.
fn assert_listed_or_as_before(
    rt: &impl Abort,
    alloc: Global,
    readers: &mut Readers,
    change: &Change,
    reading: &Reading,
) -> Result<(), Fail> {
    if let Err(AllocError) = readers.add(alloc, reading, 8) {
        assert_found(rt, alloc, readers, change, b"1236")?;
        readers.add(alloc, reading, 8)?;
    }
    assert_found(rt, alloc, readers, change, b"12368")
}

fn assert_listed(rt: &impl Abort, alloc: Global, readers: &mut Readers) -> Result<(), Fail> {
    let change = change(alloc, LINK)?;
    let keys =
        b"/etc/systemd/system/x.service etc:a.service etc:x.service run:x.service presets links";
    let reading = reading(alloc, EMPTY, keys)?;
    assert_listed_or_as_before(rt, alloc, readers, &change, &reading)
}

#[test]
fn a_row_is_listed_or_nothing_changes(rt: HostRuntime) -> Result<(), Fail> {
    let mut readers = listed(rt.alloc())?;
    assert_listed(&rt, rt.alloc(), &mut readers)
}
