//! Which unit a template is for, and under which name it is listed.
use super::read;
use crate::texts::in_full;
use sample_rows::{Row, assert_rows, is, yes_or_no};
use sample_values::name;
use std::alloc::{AllocError, Global};
use std::test::Fail;
use unit_file::{Word, identity, is_template, listed_name};
use unit_name::UnitName;

const ROWS: &[u8] = b"\
    # A template has the identity of its DefaultInstance=, if that gives a name.\n\
    identity\tgetty@.service\ttty1\tgetty@tty1.service\n\
    identity\tgetty@.service\t\tgetty@.service\n\
    identity\tgetty@.service\ta/b\tgetty@.service\n\
    identity\tgetty@.service\ta b\tgetty@.service\n\
    identity\tgetty@.service\t%i\tgetty@.service\n\
    identity\ta@.mount\tb@c.d\ta@b@c.d.mount\n\
    identity\tgetty@tty2.service\ttty1\tgetty@tty2.service\n\
    identity\tssh.service\ttty1\tssh.service\n\
    identity\tssh.service\t\tssh.service\n\
    long identity\tgetty@.service\t/*300\tgetty@.service\n\
    long identity\tgetty@.service\tx*242\tgetty@.service\n\
    \n\
    # With DefaultInstance=tty1, a unit is listed so among those that another needs.\n\
    listed\tgetty.target\tgetty@.service\tgetty@tty1.service\n\
    listed\tgetty@tty2.service\tgetty@.service\tgetty@tty1.service\n\
    listed\tother@.service\tgetty@.service\tgetty@.service\n\
    listed\tgetty.target\tgetty@tty3.service\tgetty@tty3.service\n\
    listed\tgetty.target\tssh.service\tssh.service\n\
    listed\tother@.service\tssh.service\tssh.service\n\
    \n\
    # Without an instance a template is listed nowhere.\n\
    template\tgetty.target\t\tno\n\
    template\tgetty@.service\t\tyes\n\
    listed as itself\tgetty.target\tgetty@.service\tnowhere\n\
    \n\
    # Words are copied.\n\
    copy of word\t\t\t\n\
    copy of word\ta\t\ta\n\
    copy of word\t%i.service\t\t%i.service\n\
    copy of word\t\\xff \\n\t\t\\xff \\n\n";

/// The identity of a unit whose file has this `DefaultInstance=`, or none.
fn identity_with(
    alloc: Global,
    unit: &UnitName,
    default: Option<&[u8]>,
) -> Result<UnitName, AllocError> {
    let mut text = read(alloc, b"")?;
    if let Some(default) = default {
        text.default_instance = Some(Word::from_slice(alloc, default)?);
    }
    identity(alloc, unit, &text)
}

/// The identity of a unit whose file has this `DefaultInstance=`. Without one, the unit is its own.
fn identity_of(alloc: Global, unit: &[u8], default: &[u8]) -> Result<Vec<u8>, AllocError> {
    let unit = name(alloc, unit)?;
    if identity_with(alloc, &unit, None)? != unit {
        return Vec::from_slice(alloc, b"another without an instance");
    }
    let identity = identity_with(alloc, &unit, Some(default))?;
    Vec::from_slice(alloc, identity.text())
}

fn listed(
    alloc: Global,
    by: &UnitName,
    unit: &UnitName,
    identity: &UnitName,
) -> Result<Vec<u8>, AllocError> {
    match listed_name(by, unit, identity) {
        Some(name) => Vec::from_slice(alloc, name.text()),
        None => Vec::from_slice(alloc, b"nowhere"),
    }
}

/// How a unit with `DefaultInstance=tty1` is listed among those that another needs.
fn listed_with_tty1(alloc: Global, by: &[u8], unit: &[u8]) -> Result<Vec<u8>, AllocError> {
    let by = name(alloc, by)?;
    let unit = name(alloc, unit)?;
    let identity = identity_with(alloc, &unit, Some(b"tty1"))?;
    listed(alloc, &by, &unit, &identity)
}

/// How a unit without an instance is listed among those that another needs.
fn listed_as_itself(alloc: Global, by: &[u8], unit: &[u8]) -> Result<Vec<u8>, AllocError> {
    let by = name(alloc, by)?;
    let unit = name(alloc, unit)?;
    listed(alloc, &by, &unit, &unit)
}

fn copy_of_word(alloc: Global, bytes: &[u8]) -> Result<Vec<u8>, AllocError> {
    let word = Word::from_slice(alloc, bytes)?;
    if word.bytes() != bytes {
        return Vec::from_slice(alloc, b"another word");
    }
    let copy = word.copy()?;
    Vec::from_slice(alloc, copy.bytes())
}

fn answer(alloc: Global, row: &Row) -> Result<Vec<u8>, AllocError> {
    if is(row, b"identity") {
        identity_of(alloc, &row.one, &row.two)
    } else if is(row, b"long identity") {
        identity_of(alloc, &row.one, &in_full(alloc, &row.two)?)
    } else if is(row, b"listed") {
        listed_with_tty1(alloc, &row.one, &row.two)
    } else if is(row, b"template") {
        let name = name(alloc, &row.one)?;
        yes_or_no(alloc, is_template(&name))
    } else if is(row, b"listed as itself") {
        listed_as_itself(alloc, &row.one, &row.two)
    } else if is(row, b"copy of word") {
        copy_of_word(alloc, &row.one)
    } else {
        Vec::from_slice(alloc, b"unknown kind")
    }
}

#[test]
fn templates_have_the_identity_of_an_instance(rt: HostRuntime) -> Result<(), Fail> {
    assert_rows(rt.alloc(), ROWS, answer)
}
