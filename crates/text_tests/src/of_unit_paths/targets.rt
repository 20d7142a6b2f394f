use crate::texts::in_full;
use sample_rows::{Row, assert_rows, is, yes_or_no};
use sample_values::path;
use std::alloc::{AllocError, Global};
use std::test::Fail;
use unit_paths::{Target, TargetError, canonical, is_null_target};

const ROWS: &[u8] = b"\
    # A target is a text of at most 4,095 bytes.\n\
    parse\ta\t\ta target\n\
    parse\t/\t\ta target\n\
    parse\t../../b\t\ta target\n\
    parse\t \t\ta target\n\
    parse\t\t\tbad target\n\
    parse\ta\\x00\t\tbad target\n\
    parse\ta\\tb\t\tbad target\n\
    parse\t\\n\t\tbad target\n\
    parse long\ta*4095\t\ta target\n\
    parse long\ta*4096\t\tbad target\n\
    \n\
    # Where a link at a path leads.\n\
    link\t/a/b\tc\t/a/c\n\
    link\t/a/b\t/c/d\t/c/d\n\
    link\t/a/b\t../..\tno path\n\
    link\t/a/b\t..\tno path\n\
    link\t/a/b\t.\t/a\n\
    link\t/a/b/c\t../d\t/a/d\n\
    link\t/a/b\t//c//d/\t/c/d\n\
    link\t/a/b\t/./c/./d\t/c/d\n\
    link\t/a/b\t/../../c\t/c\n\
    link\t/a/b\t../../../../c\t/c\n\
    link\t/a/b\t/lib/systemd\t/lib/systemd\n\
    link\t/a/b\t/lib/systemdx/c\t/lib/systemdx/c\n\
    link\t/a/b\t/x/lib/systemd/c\t/x/lib/systemd/c\n\
    link\t/a/b\t/lib/systemd/\t/lib/systemd\n\
    link\t/etc/systemd/system/multi-user.target.wants/ssh.service\t\
        ../../../../lib/systemd/system/ssh.service\t/usr/lib/systemd/system/ssh.service\n\
    link\t/etc/systemd/system/multi-user.target.wants/ssh.service\t\
        /lib/systemd/system/ssh.service\t/usr/lib/systemd/system/ssh.service\n\
    long link\t/a/b\t/a*4094\tits target\n\
    long link\t/a/b\t/a*4095\tno path\n\
    \n\
    # A link to /dev/null masks.\n\
    mask\t/dev/null\t\tyes\n\
    mask\t../../../dev/null\t\tyes\n\
    mask\t//dev/./null\t\tyes\n\
    mask\t/../dev/x/../null/\t\tyes\n\
    mask\tdev/null\t\tno\n\
    mask\t/dev/null/x\t\tno\n\
    mask\t/dev\t\tno\n\
    mask\t/lib/systemd/null\t\tno\n\
    mask\t/dev/nul\t\tno\n";

/// Whether a target and its copy have this text.
fn has_text(alloc: Global, text: &[u8]) -> Result<bool, TargetError> {
    let target = Target::parse(alloc, text)?;
    let copy = target.copy()?;
    Ok(target.text() == text && copy.text() == text)
}

fn parsed(alloc: Global, text: &[u8]) -> Result<Vec<u8>, AllocError> {
    match has_text(alloc, text) {
        Ok(true) => Vec::from_slice(alloc, b"a target"),
        Ok(false) => Vec::from_slice(alloc, b"another target"),
        Err(TargetError::BadTarget) => Vec::from_slice(alloc, b"bad target"),
        Err(TargetError::OutOfMemory) => Err(AllocError),
    }
}

/// Where a link leads.
fn end_of(alloc: Global, from: &[u8], target: &[u8]) -> Result<Vec<u8>, AllocError> {
    let from = path(alloc, from)?;
    match canonical(alloc, &from, target)? {
        Some(end) => Vec::from_slice(alloc, end.text()),
        None => Vec::from_slice(alloc, b"no path"),
    }
}

/// Where a link leads, if not to its target as it is written.
fn end_of_long(alloc: Global, from: &[u8], target: &[u8]) -> Result<Vec<u8>, AllocError> {
    let end = end_of(alloc, from, target)?;
    if end.as_slice() == target {
        return Vec::from_slice(alloc, b"its target");
    }
    Ok(end)
}

/// Whether a link with this target masks a unit.
fn masks(alloc: Global, target: &[u8]) -> Result<bool, TargetError> {
    let from = path(alloc, b"/etc/systemd/system/x.service")?;
    let target = Target::parse(alloc, target)?;
    Ok(is_null_target(&from, &target))
}

fn is_mask(alloc: Global, target: &[u8]) -> Result<Vec<u8>, AllocError> {
    match masks(alloc, target) {
        Ok(masks) => yes_or_no(alloc, masks),
        Err(_) => Err(AllocError),
    }
}

fn answer(alloc: Global, row: &Row) -> Result<Vec<u8>, AllocError> {
    if is(row, b"parse") {
        parsed(alloc, &row.one)
    } else if is(row, b"parse long") {
        parsed(alloc, &in_full(alloc, &row.one)?)
    } else if is(row, b"link") {
        end_of(alloc, &row.one, &row.two)
    } else if is(row, b"long link") {
        end_of_long(alloc, &row.one, &in_full(alloc, &row.two)?)
    } else if is(row, b"mask") {
        is_mask(alloc, &row.one)
    } else {
        Vec::from_slice(alloc, b"unknown kind")
    }
}

#[test]
fn links_lead_to_canonical_paths(rt: HostRuntime) -> Result<(), Fail> {
    assert_rows(rt.alloc(), ROWS, answer)
}
