//! Instances of templates, and specifiers in words.
use crate::texts::{in_full, in_short};
use sample_rows::{Row, assert_rows, is};
use sample_values::name;
use std::alloc::{AllocError, Global};
use std::test::Fail;
use unit_name::{ExpandError, InstanceError, Kind, UnitName, expand};

const ROWS: &[u8] = b"\
    # A template and its instances have one template.\n\
    template\tgetty@tty1.service\t\tgetty@.service\n\
    template\tgetty@.service\t\tgetty@.service\n\
    \n\
    # Both take another instance.\n\
    instance\tgetty@.service\ttty1\tgetty@tty1.service\n\
    instance\tgetty@tty1.service\t\tgetty@.service\n\
    instance\tgetty@tty1.service\ta@b.c\tgetty@a@b.c.service\n\
    instance\tgetty@.service\ta/b\tbad character in name\n\
    instance\tgetty@.service\t \tbad character in name\n\
    \n\
    # 241 bytes and the 14 of the template are as many as a name may have.\n\
    long instance\tgetty@.service\tx*241\t255 bytes\n\
    long instance\tgetty@.service\tx*242\tname too long\n\
    long instance\tgetty@.service\t/*242\tname too long\n\
    long instance\tgetty@.service\tx*1000\tname too long\n\
    \n\
    # The specifiers of a word are expanded.\n\
    expand\tfoo-bar@x.service\t%p-%i-%j-%%\tfoo-bar-x-bar-%\n\
    expand\tfoo-bar@x.service\t%N\tfoo-bar@x\n\
    expand\tfoo-bar@x.service\t%n\tfoo-bar@x.service\n\
    expand\tfoo-bar@.service\t%i|%p\t|foo-bar\n\
    expand\ta.b.service\t%i|%N|%p|%j\t|a.b|a.b|a.b\n\
    expand\ta-b-.slice\t%j\t\n\
    expand\ta.service\t\t\n\
    expand\ta.service\t%%%%n\t%%n\n\
    expand\ta.service\tplain/ \\xff\tplain/ \\xff\n\
    \n\
    # Other specifiers are refused.\n\
    expand\ta.service\t%z\tunknown specifier\n\
    expand\ta.service\ta%\tunknown specifier\n\
    expand\ta.service\t%\tunknown specifier\n\
    expand\ta.service\t%%%\tunknown specifier\n\
    expand\ta.service\t%I\tunknown specifier\n\
    expand\ta.service\tx% y\tunknown specifier\n";

fn template_of(alloc: Global, text: &[u8]) -> Result<Vec<u8>, AllocError> {
    let name = name(alloc, text)?;
    if name.kind() == Kind::Plain {
        return Vec::from_slice(alloc, b"a plain name");
    }
    let template = name.template(alloc)?;
    if template.kind() != Kind::Template {
        return Vec::from_slice(alloc, b"no template");
    }
    Vec::from_slice(alloc, template.text())
}

/// A name with another instance.
fn changed(alloc: Global, text: &[u8], instance: &[u8]) -> Result<UnitName, InstanceError> {
    let name = name(alloc, text)?;
    if name.kind() == Kind::Plain {
        return Err(InstanceError::OutOfMemory);
    }
    name.with_instance(alloc, instance)
}

fn instance_of(alloc: Global, text: &[u8], instance: &[u8]) -> Result<Vec<u8>, AllocError> {
    match changed(alloc, text, instance) {
        Ok(name) => in_short(alloc, name.text()),
        Err(InstanceError::OutOfMemory) => Err(AllocError),
        Err(InstanceError::Bad(fault)) => Ok(format!(in alloc; "{fault}")?.into_bytes()),
    }
}

fn expanded(alloc: Global, text: &[u8], word: &[u8]) -> Result<Vec<u8>, AllocError> {
    let name = name(alloc, text)?;
    match expand(alloc, word, &name) {
        Ok(text) => Ok(text),
        Err(ExpandError::OutOfMemory) => Err(AllocError),
        Err(ExpandError::UnknownSpecifier) => Vec::from_slice(alloc, b"unknown specifier"),
    }
}

fn answer(alloc: Global, row: &Row) -> Result<Vec<u8>, AllocError> {
    if is(row, b"template") {
        template_of(alloc, &row.one)
    } else if is(row, b"instance") {
        instance_of(alloc, &row.one, &row.two)
    } else if is(row, b"long instance") {
        instance_of(alloc, &row.one, &in_full(alloc, &row.two)?)
    } else if is(row, b"expand") {
        expanded(alloc, &row.one, &row.two)
    } else {
        Vec::from_slice(alloc, b"unknown kind")
    }
}

#[test]
fn names_take_instances_and_expand_words(rt: HostRuntime) -> Result<(), Fail> {
    assert_rows(rt.alloc(), ROWS, answer)
}
