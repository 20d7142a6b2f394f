//! Names, their parts and their order.
use crate::texts::in_full;
use sample_rows::{Row, assert_rows, is};
use sample_values::name;
use std::alloc::{AllocError, Global};
use std::collections::{BTreeSet, HashSet};
use std::test::Fail;
use unit_name::{NameError, UnitName, ample, is_unit_name};

const ROWS: &[u8] = b"\
    # A name has a kind, a type and, unless it is plain, an instance.\n\
    name\tssh.service\t\tPlain Service\n\
    name\tgetty@.service\t\tTemplate Service ''\n\
    name\tgetty@tty1.service\t\tInstance Service 'tty1'\n\
    name\ta@b@.service\t\tInstance Service 'b@'\n\
    name\ta@@.socket\t\tInstance Socket '@'\n\
    name\ta.b.service.target\t\tPlain Target\n\
    name\ta.b@c.d.mount\t\tInstance Mount 'c.d'\n\
    name\t-.slice\t\tPlain Slice\n\
    name\tdev-disk\\\\x2dby.device\t\tPlain Device\n\
    \n\
    # Other texts have a first fault.\n\
    name\t\t\tname without prefix\n\
    name\t@x.service\t\tname without prefix\n\
    name\t.service\t\tname without prefix\n\
    name\ta b.service\t\tbad character in name\n\
    name\ta/b\t\tbad character in name\n\
    name\t\\xc3\\xa9.service\t\tbad character in name\n\
    name\ta\t\tbad type of name\n\
    name\ta.conf\t\tbad type of name\n\
    name\ta.Service\t\tbad type of name\n\
    name\ta.service.\t\tbad type of name\n\
    name\t@\t\tname without prefix\n\
    long name\t *256\t\tname too long\n\
    \n\
    # A name has at most 255 bytes.\n\
    long name\ta*247.service\t\tPlain Service\n\
    long name\ta*248.service\t\tname too long\n\
    \n\
    # Each type ends a name, by its own text.\n\
    type\ta.service\t\tService service\n\
    type\ta.socket\t\tSocket socket\n\
    type\ta.device\t\tDevice device\n\
    type\ta.mount\t\tMount mount\n\
    type\ta.automount\t\tAutomount automount\n\
    type\ta.swap\t\tSwap swap\n\
    type\ta.target\t\tTarget target\n\
    type\ta.path\t\tPath path\n\
    type\ta.timer\t\tTimer timer\n\
    type\ta.slice\t\tSlice slice\n\
    type\ta.scope\t\tScope scope\n\
    \n\
    # Of all bytes, these are allowed in a name.\n\
    bytes\t\t\t-.0123456789:@ABCDEFGHIJKLMNOPQRSTUVWXYZ\\\\_abcdefghijklmnopqrstuvwxyz\n\
    \n\
    # Names are sorted and hashed by their bytes.\n\
    sorted\t\t\ta-b.service\\na.service\\nb.service\\n\n\
    hashed\ta-b.service\t\t3 names with this one\n";

const NAMES: [&[u8]; 4] = [b"b.service", b"a.service", b"a-b.service", b"b.service"];

/// The kind, the type and the instance.
fn parts_of(alloc: Global, name: &UnitName) -> Result<Vec<u8>, AllocError> {
    let kind = name.kind();
    let unit_type = name.unit_type();
    let mut parts = format!(in alloc; "{kind:?} {unit_type:?}")?.into_bytes();
    if let Some(instance) = name.instance() {
        parts.extend_from_slice(b" '")?;
        parts.extend_from_slice(instance)?;
        parts.extend_from_slice(b"'")?;
    }
    Ok(parts)
}

fn is_copied(name: &UnitName) -> Result<bool, AllocError> {
    let copy = name.copy()?;
    Ok(copy.text() == name.text())
}

/// The parts of a name that has this text, as its copy has.
fn parsed(alloc: Global, text: &[u8]) -> Result<Vec<u8>, NameError> {
    let name = UnitName::parse(alloc, text)?;
    if name.text() != text || !is_unit_name(text) || !is_copied(&name)? {
        return Ok(Vec::from_slice(alloc, b"a name of another text")?);
    }
    Ok(parts_of(alloc, &name)?)
}

fn parts_or_fault(alloc: Global, text: &[u8]) -> Result<Vec<u8>, AllocError> {
    match parsed(alloc, text) {
        Ok(parts) => Ok(parts),
        Err(NameError::OutOfMemory) => Err(AllocError),
        Err(NameError::Bad(_)) if is_unit_name(text) => Vec::from_slice(alloc, b"refused"),
        Err(NameError::Bad(fault)) => Ok(format!(in alloc; "{fault}")?.into_bytes()),
    }
}

fn type_of(alloc: Global, text: &[u8]) -> Result<Vec<u8>, AllocError> {
    let unit_type = name(alloc, text)?.unit_type();
    let text = unit_type.text();
    Ok(format!(in alloc; "{unit_type:?} {text}")?.into_bytes())
}

/// The bytes that may be in a name.
fn allowed_bytes(alloc: Global) -> Result<Vec<u8>, AllocError> {
    let mut bytes = Vec::new(alloc);
    for byte in 0..=255u8 {
        if is_unit_name(&[b'a', byte, b'.', b's', b'l', b'i', b'c', b'e']) {
            bytes.push(byte)?;
        }
    }
    Ok(bytes)
}

/// Adds a name. If memory runs out, the names are as before, and it is added again.
fn add_sorted(
    alloc: Global,
    names: &mut BTreeSet<UnitName>,
    text: &[u8],
) -> Result<(), AllocError> {
    names.insert(name(alloc, text)?)?;
    Ok(())
}

/// The names in their order.
fn sorted(alloc: Global, texts: &[&[u8]]) -> Result<Vec<u8>, AllocError> {
    let mut names = BTreeSet::new(alloc);
    for text in texts {
        ample!(add_sorted(alloc, &mut names, text), AllocError)?;
    }
    let mut sorted = Vec::new(alloc);
    for name in names.iter() {
        sorted.extend_from_slice(name.text())?;
        sorted.push(b'\n')?;
    }
    Ok(sorted)
}

/// Adds a name. If memory runs out, the names are as before, and it is added again.
fn add_hashed(alloc: Global, names: &mut HashSet<UnitName>, text: &[u8]) -> Result<(), AllocError> {
    names.insert(name(alloc, text)?)?;
    Ok(())
}

/// How many names there are, and whether one has this text.
fn hashed(alloc: Global, texts: &[&[u8]], text: &[u8]) -> Result<(usize, bool), AllocError> {
    let mut names = HashSet::new(alloc);
    for text in texts {
        ample!(add_hashed(alloc, &mut names, text), AllocError)?;
    }
    let name = name(alloc, text)?;
    Ok((names.len(), names.contains(&name)))
}

fn count_hashed(alloc: Global, text: &[u8]) -> Result<Vec<u8>, AllocError> {
    let (count, has_text) = hashed(alloc, &NAMES, text)?;
    let with = if has_text { "with" } else { "without" };
    Ok(format!(in alloc; "{count} names {with} this one")?.into_bytes())
}

fn answer(alloc: Global, row: &Row) -> Result<Vec<u8>, AllocError> {
    if is(row, b"name") {
        parts_or_fault(alloc, &row.one)
    } else if is(row, b"long name") {
        parts_or_fault(alloc, &in_full(alloc, &row.one)?)
    } else if is(row, b"type") {
        type_of(alloc, &row.one)
    } else if is(row, b"bytes") {
        allowed_bytes(alloc)
    } else if is(row, b"sorted") {
        sorted(alloc, &NAMES)
    } else if is(row, b"hashed") {
        count_hashed(alloc, &row.one)
    } else {
        Vec::from_slice(alloc, b"unknown kind")
    }
}

#[test]
fn names_have_their_parts(rt: HostRuntime) -> Result<(), Fail> {
    assert_rows(rt.alloc(), ROWS, answer)
}
