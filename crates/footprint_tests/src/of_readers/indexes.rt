//! Indexes from texts, and what is found in them.
use crate::keys::{EMPTY, reading};
use link_tree::Change;
use readers::Readers;
use std::alloc::{AllocError, Global};
use unit_name::ample;

/// Lists a row under the keys of a text.
pub(crate) fn list(
    alloc: Global,
    readers: &mut Readers,
    n: u32,
    texts: &[u8],
) -> Result<(), AllocError> {
    let reading = reading(alloc, EMPTY, texts)?;
    ample!(readers.add(alloc, &reading, n), AllocError)
}

/// The keys that each row looked at, from row 1 on.
const LOOKED: &[u8] = b"\
    /etc/systemd/system/a.service etc:a.service|\
    etc:b.service presets|\
    run:a.service links|\
    etc:web@.service etc:web@a.service|\
    /etc/systemd/system/a.service /etc/systemd/system/b.service|\
    etc:a.service run:b.service presets links|\
    /etc/systemd/system/c.service";

fn none(alloc: Global) -> Result<Box<Readers>, AllocError> {
    Ok(Box::new(alloc, Readers::none(alloc))?)
}

/// An index of these rows.
pub(crate) fn listed(alloc: Global) -> Result<Box<Readers>, AllocError> {
    let mut readers = ample!(none(alloc), AllocError)?;
    let mut n = 0u32;
    for texts in LOOKED.split(|b| *b == b'|') {
        n = n.wrapping_add(1);
        list(alloc, &mut readers, n, texts)?;
    }
    Ok(readers)
}

/// All rows that looked at what a change touches, each as a digit.
pub(crate) fn found(
    alloc: Global,
    readers: &Readers,
    change: &Change,
) -> Result<Vec<u8>, AllocError> {
    let numbers = readers.all(alloc, change)?;
    let mut text = Vec::new(alloc);
    for n in numbers.as_slice() {
        text.push(u8::try_from(*n).map_or(b'?', |n| b'0'.wrapping_add(n)))?;
    }
    Ok(text)
}
