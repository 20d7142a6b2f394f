//! Which row is found next.
use super::indexes::listed;
use crate::changes::change;
use link_tree::Change;
use sample_rows::{Row, assert_rows, is};
use std::alloc::{AllocError, Global};
use std::test::Fail;

const ROWS: &[u8] = b"\
    # after: the first row after row TWO that looked at what the change ONE touches.\n\
    after\t/etc/systemd/system/a.service||x.service\t0\t1\n\
    after\t/etc/systemd/system/a.service||x.service\t1\t5\n\
    after\t/etc/systemd/system/a.service||x.service\t4\t5\n\
    after\t/etc/systemd/system/a.service||x.service\t5\t6\n\
    after\t/etc/systemd/system/a.service||x.service\t6\tnone\n\
    # first after: the first of all that looked at what one of several changes touches. They have\n\
    # spaces between them.\n\
    first after\t/etc/systemd/system-preset/1.preset||: /etc/systemd/system/c.service|:|\t0\t2\n\
    first after\t/etc/systemd/system-preset/1.preset||: /etc/systemd/system/c.service|:|\t2\t6\n\
    first after\t/etc/systemd/system-preset/1.preset||: /etc/systemd/system/c.service|:|\t6\t7\n\
    first after\t/etc/systemd/system-preset/1.preset||: /etc/systemd/system/c.service|:|\t7\tnone\n\
    # No change touches anything.\n\
    first after\t\t0\tnone\n";

fn push_change(alloc: Global, changes: &mut Vec<Change>, text: &[u8]) -> Result<(), AllocError> {
    let change = change(alloc, text)?;
    Ok(changes.push(change)?)
}

fn changes(alloc: Global, texts: &[u8]) -> Result<Vec<Change>, AllocError> {
    let mut changes = Vec::new(alloc);
    for text in texts.split(|b| *b == b' ') {
        if !text.is_empty() {
            push_change(alloc, &mut changes, text)?;
        }
    }
    Ok(changes)
}

/// The row of a digit.
fn row_of(text: &[u8]) -> u32 {
    let digit = text.first().copied().unwrap_or(b'0');
    u32::from(digit.wrapping_sub(b'0'))
}

fn number_text(alloc: Global, number: Option<u32>) -> Result<Vec<u8>, AllocError> {
    match number {
        Some(number) => Ok(format!(in alloc; "{number}")?.into_bytes()),
        None => Vec::from_slice(alloc, b"none"),
    }
}

fn after(alloc: Global, text: &[u8], n: u32) -> Result<Vec<u8>, AllocError> {
    let readers = listed(alloc)?;
    let change = change(alloc, text)?;
    number_text(alloc, readers.after(&change, n))
}

fn first_after(alloc: Global, texts: &[u8], n: u32) -> Result<Vec<u8>, AllocError> {
    let readers = listed(alloc)?;
    let changes = changes(alloc, texts)?;
    number_text(alloc, readers.first_after(&changes, n))
}

fn answer(alloc: Global, row: &Row) -> Result<Vec<u8>, AllocError> {
    if is(row, b"after") {
        return after(alloc, &row.one, row_of(&row.two));
    }
    if is(row, b"first after") {
        return first_after(alloc, &row.one, row_of(&row.two));
    }
    Vec::from_slice(alloc, b"unknown kind")
}

#[test]
fn rows_are_found_after_a_row(rt: HostRuntime) -> Result<(), Fail> {
    assert_rows(rt.alloc(), ROWS, answer)
}
