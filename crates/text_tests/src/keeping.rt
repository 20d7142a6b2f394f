//! Calls on names, words, files and paths. Each is made once. If memory runs out for it, all that
//! it was given is as it was, and it is made again.
use crate::of_unit_file::{push_lines, read};
use sample_rows::{Row, assert_rows, is};
use sample_values::{name, path};
use std::alloc::{AllocError, Global};
use std::test::Fail;
use unit_file::{InstallError, InstallText, identity, install_of};
use unit_name::{
    ExpandError, InstanceError, InstanceFault, Kind, NameError, NameFault, UnitName, expand,
    is_unit_name,
};
use unit_paths::{PathError, Target, TargetError, TreePath, canonical};

const ROWS: &[u8] = b"\
    # A name is read from ONE and copied.\n\
    name\ta@b@.service\t\ta@b@.service\n\
    name\ta b.service\t\tbad character in name\n\
    name\t@x.service\t\tname without prefix\n\
    name\ta.conf\t\tbad type of name\n\
    copy of name\tssh.service\t\tssh.service\n\
    \n\
    # The name ONE is made one of its template, and one with the instance TWO.\n\
    template\tgetty@tty1.service\t\tgetty@.service\n\
    template\tgetty@.service\t\tgetty@.service\n\
    instance\tgetty@.service\ttty1\tgetty@tty1.service\n\
    instance\tgetty@tty1.service\t\tgetty@.service\n\
    instance\tgetty@.service\ta/b\tbad character in name\n\
    \n\
    # The specifiers of TWO are expanded for the name ONE; some text comes before the last one.\n\
    expand\tfoo-bar@x.service\t%p-%i-%j-%%\tfoo-bar-x-bar-%\n\
    expand\tfoo-bar@x.service\t%N\tfoo-bar@x\n\
    expand\tfoo-bar@x.service\tx%z\tunknown specifier\n\
    expand\tfoo-bar@x.service\t%p%N%na%\tunknown specifier\n\
    \n\
    # The section of the file TWO is read and copied.\n\
    file\t\t[Install]\\nWantedBy=a.target \\\\\\n# c\\nb.target\\nWantedBy=\\nWantedBy=c.target\\n\
        [X]\\nWantedBy=d.target\\n\tWantedBy=c.target\\n\n\
    file\t\t[Install]\\nWantedBy=a.target \\\\\\n# c\\nb.target\\nWantedBy=c.target\\n\
        [X]\\nWantedBy=d.target\\n\tWantedBy=a.target b.target c.target\\n\n\
    file\t\t[Install]\\nAlso=a\\nAlso=\\nAlso=b\\n\tAlso=a b\\n\n\
    file\t\t[Install]\\nAlias=a.service\\nRequiredBy=r.target\\nUpheldBy=u.target\\n\
        DefaultInstance=tty1\\n\t\
        RequiredBy=r.target\\nUpheldBy=u.target\\nAlias=a.service\\nDefaultInstance=tty1\\n\n\
    copy of file\t\t[Install]\\nWantedBy=a.target b.target\\nAlso=c.service\\nAlias=a.service\\n\
        RequiredBy=r.target\\nUpheldBy=u.target\\nDefaultInstance=tty1\\n\t\
        WantedBy=a.target b.target\\nRequiredBy=r.target\\nUpheldBy=u.target\\nAlias=a.service\\n\
        Also=c.service\\nDefaultInstance=tty1\\n\n\
    \n\
    # The identity of the unit ONE whose file is TWO.\n\
    identity\tgetty@.service\t[Install]\\nDefaultInstance=tty1\\n\tgetty@tty1.service\n\
    identity\tgetty@.service\t[Install]\\nDefaultInstance=a/b\\n\tgetty@.service\n\
    identity\tssh.service\t[Install]\\nDefaultInstance=tty1\\n\tssh.service\n\
    \n\
    # A path is read from ONE and copied. What the first path is that can be beneath it.\n\
    path\t/a/b\t\t/a/b\n\
    path\t/a/../b\t\tbad path\n\
    copy of path\t/etc/systemd/system/ssh.service\t\t/etc/systemd/system/ssh.service\n\
    first beneath\t/a/b\t\t/a/b/\\x01\n\
    \n\
    # A target is read from TWO. Where a link at ONE leads that has it.\n\
    target\t\t../../b\t../../b\n\
    target\t\ta\\tb\tbad target\n\
    canonical\t/a/b\t../..\tno path\n\
    canonical\t/etc/systemd/system/multi-user.target.wants/ssh.service\t\
        ../../../../lib/systemd/system/ssh.service\t/usr/lib/systemd/system/ssh.service\n";

/// What a call may be given: the name and the path that ONE is, or any others if it is none, and
/// the section of the file TWO.
#[derive(Drop)]
struct Given {
    name: UnitName,
    path: TreePath,
    text: Box<InstallText>,
}

fn fault_of_name(fault: NameFault) -> &'static [u8] {
    match fault {
        NameFault::TooLong => b"name too long",
        NameFault::BadCharacter => b"bad character in name",
        NameFault::NoPrefix => b"name without prefix",
        NameFault::BadType => b"bad type of name",
    }
}

fn fault_of_instance(fault: InstanceFault) -> &'static [u8] {
    match fault {
        InstanceFault::TooLong => b"name too long",
        InstanceFault::BadCharacter => b"bad character in name",
    }
}

/// Adds the name that a text is, or its fault.
fn push_name(alloc: Global, text: &[u8], out: &mut Vec<u8>) -> Result<(), AllocError> {
    match UnitName::parse(alloc, text) {
        Ok(name) => out.extend_from_slice(name.text()),
        Err(NameError::Bad(fault)) => out.extend_from_slice(fault_of_name(fault)),
        Err(NameError::OutOfMemory) => Err(AllocError),
    }
}

fn push_copy_of_name(name: &UnitName, out: &mut Vec<u8>) -> Result<(), AllocError> {
    let copy = name.copy()?;
    out.extend_from_slice(copy.text())
}

/// Adds the name of a template.
fn push_template(alloc: Global, name: &UnitName, out: &mut Vec<u8>) -> Result<(), AllocError> {
    if name.kind() == Kind::Plain {
        return out.extend_from_slice(b"a plain name");
    }
    let template = name.template(alloc)?;
    out.extend_from_slice(template.text())
}

/// Adds the name with this instance, or its fault.
fn push_instance(
    alloc: Global,
    name: &UnitName,
    instance: &[u8],
    out: &mut Vec<u8>,
) -> Result<(), AllocError> {
    if name.kind() == Kind::Plain {
        return out.extend_from_slice(b"a plain name");
    }
    match name.with_instance(alloc, instance) {
        Ok(name) => out.extend_from_slice(name.text()),
        Err(InstanceError::Bad(fault)) => out.extend_from_slice(fault_of_instance(fault)),
        Err(InstanceError::OutOfMemory) => Err(AllocError),
    }
}

/// Adds a word with its specifiers expanded.
fn push_expanded(
    alloc: Global,
    word: &[u8],
    name: &UnitName,
    out: &mut Vec<u8>,
) -> Result<(), AllocError> {
    match expand(alloc, word, name) {
        Ok(text) => out.extend_from_slice(&text),
        Err(ExpandError::UnknownSpecifier) => out.extend_from_slice(b"unknown specifier"),
        Err(ExpandError::OutOfMemory) => Err(AllocError),
    }
}

/// Adds the section of a file.
fn push_section(alloc: Global, bytes: &[u8], out: &mut Vec<u8>) -> Result<(), AllocError> {
    match install_of(alloc, bytes) {
        Ok(text) => push_lines(out, &text),
        Err(InstallError::Bad(_)) => out.extend_from_slice(b"line too long"),
        Err(InstallError::OutOfMemory) => Err(AllocError),
    }
}

fn push_copy_of_section(text: &InstallText, out: &mut Vec<u8>) -> Result<(), AllocError> {
    let copy = text.copy()?;
    push_lines(out, &copy)
}

/// Adds the identity of a unit with this section.
fn push_identity(
    alloc: Global,
    unit: &UnitName,
    text: &InstallText,
    out: &mut Vec<u8>,
) -> Result<(), AllocError> {
    let identity = identity(alloc, unit, text)?;
    out.extend_from_slice(identity.text())
}

/// Adds the path that a text is, or its fault.
fn push_path(alloc: Global, text: &[u8], out: &mut Vec<u8>) -> Result<(), AllocError> {
    match TreePath::parse(alloc, text) {
        Ok(path) => out.extend_from_slice(path.text()),
        Err(PathError::BadPath) => out.extend_from_slice(b"bad path"),
        Err(PathError::OutOfMemory) => Err(AllocError),
    }
}

fn push_copy_of_path(path: &TreePath, out: &mut Vec<u8>) -> Result<(), AllocError> {
    let copy = path.copy()?;
    out.extend_from_slice(copy.text())
}

/// Adds the target that a text is, or its fault.
fn push_target(alloc: Global, text: &[u8], out: &mut Vec<u8>) -> Result<(), AllocError> {
    match Target::parse(alloc, text) {
        Ok(target) => out.extend_from_slice(target.text()),
        Err(TargetError::BadTarget) => out.extend_from_slice(b"bad target"),
        Err(TargetError::OutOfMemory) => Err(AllocError),
    }
}

/// Adds the first path that can be beneath one.
fn push_first_beneath(path: &TreePath, out: &mut Vec<u8>) -> Result<(), AllocError> {
    match path.first_beneath()? {
        Some(first) => out.extend_from_slice(first.text()),
        None => out.extend_from_slice(b"no path"),
    }
}

/// Adds where a link leads.
fn push_end(
    alloc: Global,
    link: &TreePath,
    target: &[u8],
    out: &mut Vec<u8>,
) -> Result<(), AllocError> {
    match canonical(alloc, link, target)? {
        Some(end) => out.extend_from_slice(end.text()),
        None => out.extend_from_slice(b"no path"),
    }
}

/// The calls of files and paths.
fn push_of_files(
    alloc: Global,
    row: &Row,
    given: &Given,
    out: &mut Vec<u8>,
) -> Result<(), AllocError> {
    if is(row, b"file") {
        push_section(alloc, &row.two, out)
    } else if is(row, b"copy of file") {
        push_copy_of_section(&given.text, out)
    } else if is(row, b"path") {
        push_path(alloc, &row.one, out)
    } else if is(row, b"copy of path") {
        push_copy_of_path(&given.path, out)
    } else if is(row, b"first beneath") {
        push_first_beneath(&given.path, out)
    } else if is(row, b"target") {
        push_target(alloc, &row.two, out)
    } else if is(row, b"canonical") {
        push_end(alloc, &given.path, &row.two, out)
    } else {
        out.extend_from_slice(b"unknown kind")
    }
}

/// Makes the call of a row, and adds what it returns. There is room for that, so that memory runs
/// out for the call alone.
fn push_call(alloc: Global, row: &Row, given: &Given, out: &mut Vec<u8>) -> Result<(), AllocError> {
    if is(row, b"name") {
        push_name(alloc, &row.one, out)
    } else if is(row, b"copy of name") {
        push_copy_of_name(&given.name, out)
    } else if is(row, b"template") {
        push_template(alloc, &given.name, out)
    } else if is(row, b"instance") {
        push_instance(alloc, &given.name, &row.two, out)
    } else if is(row, b"expand") {
        push_expanded(alloc, &row.two, &given.name, out)
    } else if is(row, b"identity") {
        push_identity(alloc, &given.name, &given.text, out)
    } else {
        push_of_files(alloc, row, given, out)
    }
}

/// The name that a text is, or another one.
fn name_of(alloc: Global, text: &[u8]) -> Result<UnitName, AllocError> {
    if is_unit_name(text) {
        return name(alloc, text);
    }
    name(alloc, b"other.service")
}

/// The path of a row, or another one if it has none that is surely good.
fn path_of(alloc: Global, row: &Row) -> Result<TreePath, AllocError> {
    if row.one.starts_with(b"/") && !is(row, b"path") {
        return path(alloc, &row.one);
    }
    path(alloc, b"/other")
}

fn given_of(alloc: Global, row: &Row) -> Result<Given, AllocError> {
    Ok(Given {
        name: name_of(alloc, &row.one)?,
        path: path_of(alloc, row)?,
        text: read(alloc, &row.two)?,
    })
}

/// All that is given to a call.
fn text_of(alloc: Global, given: &Given) -> Result<Vec<u8>, AllocError> {
    let mut text = Vec::new(alloc);
    text.extend_from_slice(given.name.text())?;
    text.extend_from_slice(b"\n")?;
    text.extend_from_slice(given.path.text())?;
    text.extend_from_slice(b"\n")?;
    push_lines(&mut text, &given.text)?;
    Ok(text)
}

/// Makes the call of a row, and makes it again if memory runs out. Adds what it returns, or what is
/// wrong.
fn push_answer(
    alloc: Global,
    row: &Row,
    given: &Given,
    out: &mut Vec<u8>,
) -> Result<(), AllocError> {
    let before = text_of(alloc, given)?;
    if push_call(alloc, row, given, out).is_ok() {
        return Ok(());
    }
    if text_of(alloc, given)? != before {
        return out.extend_from_slice(b"what was given is changed");
    }
    match push_call(alloc, row, given, out) {
        Ok(()) => Ok(()),
        Err(AllocError) => out.extend_from_slice(b"out of memory twice"),
    }
}

/// More bytes than an answer has.
const ROOM: usize = 1000;

fn answer(alloc: Global, row: &Row) -> Result<Vec<u8>, AllocError> {
    let given = given_of(alloc, row)?;
    let mut out = Vec::with_capacity(alloc, ROOM)?;
    push_answer(alloc, row, &given, &mut out)?;
    Ok(out)
}

#[test]
fn what_is_given_is_as_it_was_without_memory(rt: HostRuntime) -> Result<(), Fail> {
    assert_rows(rt.alloc(), ROWS, answer)
}
