//! Lines that are no rows.

use crate::refusals::is;
use footprint::StateWord;
use link_tree::{Change, Entry};
use root_json::{
    ErrorPlace, Summary, push_change, push_error, push_maker, push_state, push_summary, push_unit,
    push_unit_file, push_unit_status, push_warning,
};
use sample_rows::{Row, assert_rows};
use sample_values::{file, link, name, path, tree};
use std::alloc::{AllocError, Global};
use std::str;
use std::test::Fail;
use unit_lists::unit_status;

/// Changes, ends of runs, unit files with a preset and without one, units, their states, and errors
/// with a word and without one.
const ROWS: &[u8] = b"\
    change\t/a/b\t/c d\t{\"after\":{\"link\":\"/c d\"},\"before\":null,\"path\":\"/a/b\"}\\n\n\
    # a blank, a quote, a control byte, and what is no UTF-8: a byte that begins nothing, half a\n\
    # character, a surrogate, and a NUL that is written in two bytes\n\
    change\t/a\"b\\x1b\t\\x7f\\r\t\
        {\"after\":{\"link\":\"\\x7f\\\\r\"},\"before\":null,\"path\":\"/a\\\\\"b\\\\u001b\"}\\n\n\
    change\t/\\xff\tb\t{\"after\":{\"link\":\"b\"},\"before\":null,\"path\":{\"bytes\":\"2fff\"}}\\n\n\
    change\t/a\t\\xc3\t{\"after\":{\"link\":{\"bytes\":\"c3\"}},\"before\":null,\"path\":\"/a\"}\\n\n\
    change\t/a\t\\xed\\xa0\\x80\t\
        {\"after\":{\"link\":{\"bytes\":\"eda080\"}},\"before\":null,\"path\":\"/a\"}\\n\n\
    change\t/a\t\\xc0\\x80\t\
        {\"after\":{\"link\":{\"bytes\":\"c080\"}},\"before\":null,\"path\":\"/a\"}\\n\n\
    # the name of a device has backslashes, which JSON doubles\n\
    unit\tdev-sda\\\\x2d1.swap\t\t{\"unit\":\"dev-sda\\\\\\\\x2d1.swap\"}\\n\n\
    removal\t/a/b\tabc\t{\"after\":null,\"before\":{\"file\":3},\"path\":\"/a/b\"}\\n\n\
    summary\t/a/b\tabc\t\
        {\"calls\":44,\"changes\":[{\"after\":null,\"before\":{\"file\":3},\"path\":\"/a/b\"}],\
        \"dry_run\":true,\"made\":false,\"refused\":6}\\n\n\
    preset\tssh.service\tenabled\t\
        {\"preset\":\"enabled\",\"state\":\"static\",\"unit_file\":\"ssh.service\"}\\n\n\
    no preset\tssh.service\t\t\
        {\"preset\":null,\"state\":\"static\",\"unit_file\":\"ssh.service\"}\\n\n\
    bad link\tssh.service\t\t\
        {\"preset\":null,\"state\":\"bad\",\"unit_file\":\"ssh.service\"}\\n\n\
    states\ta.service\t\t\
        {\"enabled\":false,\"state\":\"not-found\",\"unit\":\"a.service\"}\\n\
        {\"enabled\":false,\"state\":\"masked\",\"unit\":\"a.service\"}\\n\
        {\"enabled\":false,\"state\":\"masked-runtime\",\"unit\":\"a.service\"}\\n\
        {\"enabled\":true,\"state\":\"alias\",\"unit\":\"a.service\"}\\n\
        {\"enabled\":true,\"state\":\"enabled\",\"unit\":\"a.service\"}\\n\
        {\"enabled\":true,\"state\":\"enabled-runtime\",\"unit\":\"a.service\"}\\n\
        {\"enabled\":false,\"state\":\"linked\",\"unit\":\"a.service\"}\\n\
        {\"enabled\":false,\"state\":\"linked-runtime\",\"unit\":\"a.service\"}\\n\
        {\"enabled\":true,\"state\":\"static\",\"unit\":\"a.service\"}\\n\
        {\"enabled\":true,\"state\":\"indirect\",\"unit\":\"a.service\"}\\n\
        {\"enabled\":false,\"state\":\"disabled\",\"unit\":\"a.service\"}\\n\n\
    error\tbad name\tssh\t{\"error\":\"bad name\",\"line\":3,\"status\":2,\"word\":\"ssh\"}\\n\n\
    error\tbad name\t\\xff\t\
        {\"error\":\"bad name\",\"line\":3,\"status\":2,\"word\":{\"bytes\":\"ff\"}}\\n\n\
    warning\ta.service\tdoes not exist\t\
        {\"unit\":\"a.service\",\"warning\":\"does not exist\"}\\n\n\
    status\ta.service\t\t\
        {\"links\":[],\"load\":\"not-found\",\"path\":null,\"preset\":\"enabled\",\
        \"runtime_links\":[],\"state\":\"not-found\",\"unit\":\"a.service\"}\\n\n\
    status\tb.service\t\t\
        {\"links\":[\"/etc/systemd/system/m.target.wants/b.service\"],\"load\":\"loaded\",\
        \"path\":\"/usr/lib/systemd/system/b.service\",\"preset\":\"enabled\",\
        \"runtime_links\":[\"/run/systemd/system/m.target.wants/b.service\"],\
        \"state\":\"enabled\",\"unit\":\"b.service\"}\\n\n\
    status\tc.service\t\t\
        {\"links\":[],\"load\":\"masked\",\
        \"path\":\"/etc/systemd/system/c.service\",\"preset\":\"enabled\",\
        \"runtime_links\":[],\"state\":\"masked\",\"unit\":\"c.service\"}\\n\n\
    status\td.service\t\t\
        {\"links\":[],\"load\":\"loaded\",\"path\":\"/usr/lib/systemd/system/d.service\",\
        \"preset\":null,\"runtime_links\":[],\"state\":\"static\",\"unit\":\"d.service\"}\\n\n\
    # Row 4294967295 of anna made what is at a path.\n\
    maker\ta.service\t/etc/systemd/system/a.service\t\
        {\"made_by\":4294967295,\"operator\":\"anna\",\
        \"path\":\"/etc/systemd/system/a.service\",\"unit\":\"a.service\"}\\n\n\
    plain error\tno root\t\t{\"error\":\"no root\",\"status\":1}\\n\n\
    ";

/// The tree whose units have a status.
const TREE: &[u8] = b"unitadm-inventory 1\n\
    L\t/etc/systemd/system/c.service\t/dev/null\n\
    L\t/etc/systemd/system/m.target.wants/b.service\t/usr/lib/systemd/system/b.service\n\
    L\t/run/systemd/system/m.target.wants/b.service\t/usr/lib/systemd/system/b.service\n\
    F\t28\t/usr/lib/systemd/system/b.service\n\
    [Install]\nWantedBy=m.target\n\n\
    F\t7\t/usr/lib/systemd/system/d.service\n\
    [Unit]\n\n\
    end\n";

const STATES: [StateWord; 11] = [
    StateWord::NotFound,
    StateWord::Masked,
    StateWord::MaskedRuntime,
    StateWord::Alias,
    StateWord::Enabled,
    StateWord::EnabledRuntime,
    StateWord::Linked,
    StateWord::LinkedRuntime,
    StateWord::Static,
    StateWord::Indirect,
    StateWord::Disabled,
];

/// A change at a path.
fn change(
    alloc: Global,
    at: &[u8],
    before: Option<Entry>,
    after: Option<Entry>,
) -> Result<Box<[Change; 1]>, AllocError> {
    let change = Change {
        path: path(alloc, at)?,
        before,
        after,
    };
    Ok(Box::new(alloc, [change])?)
}

/// The line of a link that is new, or of a file that is removed.
fn push_changed(out: &mut Vec<u8>, alloc: Global, row: &Row) -> Result<(), AllocError> {
    let changes = if is(&row.kind, b"change") {
        change(alloc, &row.one, None, Some(link(alloc, &row.two)?))?
    } else {
        change(alloc, &row.one, Some(file(alloc, &row.two)?), None)?
    };
    for change in changes.as_slice() {
        push_change(out, change)?;
    }
    Ok(())
}

/// The end of a run that removed a file.
fn push_end(out: &mut Vec<u8>, alloc: Global, row: &Row) -> Result<(), AllocError> {
    let changes = change(alloc, &row.one, Some(file(alloc, &row.two)?), None)?;
    let summary = Summary {
        calls: 44,
        refused: 6,
        dry_run: true,
        made: false,
    };
    push_summary(out, summary, changes.as_slice())
}

/// The line of a unit file. The preset is a text.
fn push_file(out: &mut Vec<u8>, alloc: Global, row: &Row) -> Result<(), AllocError> {
    let name = name(alloc, &row.one)?;
    let preset = if is(&row.kind, b"preset") {
        str::from_utf8(&row.two).ok()
    } else {
        None
    };
    let state = if is(&row.kind, b"bad link") {
        StateWord::NotFound
    } else {
        StateWord::Static
    };
    push_unit_file(out, &name, state, preset)
}

/// A line for each state.
fn push_states(out: &mut Vec<u8>, alloc: Global, text: &[u8]) -> Result<(), AllocError> {
    let name = name(alloc, text)?;
    for state in &STATES {
        push_state(out, &name, *state)?;
    }
    Ok(())
}

/// All that is known of a unit of the tree.
fn push_known(out: &mut Vec<u8>, alloc: Global, text: &[u8]) -> Result<(), AllocError> {
    let tree = tree(alloc, TREE)?;
    let name = name(alloc, text)?;
    let status = Box::new(alloc, unit_status(alloc, &tree, &name)?)?;
    push_unit_status(out, &status)
}

fn push_fault(out: &mut Vec<u8>, row: &Row) -> Result<(), AllocError> {
    let place = if is(&row.kind, b"error") {
        ErrorPlace {
            status: 2,
            line: Some(3),
            word: Some(&row.two),
        }
    } else {
        ErrorPlace {
            status: 1,
            line: None,
            word: None,
        }
    };
    push_error(out, &row.one, &place)
}

/// Appends what a row asks for.
fn push_asked(out: &mut Vec<u8>, alloc: Global, row: &Row) -> Result<(), AllocError> {
    if is(&row.kind, b"change") || is(&row.kind, b"removal") {
        return push_changed(out, alloc, row);
    }
    if is(&row.kind, b"summary") {
        return push_end(out, alloc, row);
    }
    let is_file = is(&row.kind, b"preset") || is(&row.kind, b"no preset");
    if is_file || is(&row.kind, b"bad link") {
        return push_file(out, alloc, row);
    }
    if is(&row.kind, b"unit") {
        return push_unit(out, &name(alloc, &row.one)?);
    }
    if is(&row.kind, b"states") {
        return push_states(out, alloc, &row.one);
    }
    if is(&row.kind, b"warning") {
        return push_warning(out, &name(alloc, &row.one)?, &row.two);
    }
    if is(&row.kind, b"status") {
        return push_known(out, alloc, &row.one);
    }
    if is(&row.kind, b"maker") {
        let path = path(alloc, &row.two)?;
        return push_maker(out, &name(alloc, &row.one)?, &path, 4294967295, b"anna");
    }
    push_fault(out, row)
}

fn answer(alloc: Global, row: &Row) -> Result<Vec<u8>, AllocError> {
    let mut out = Vec::new(alloc);
    if push_asked(&mut out, alloc, row).is_err() {
        if !out.ends_with(b"\n") && !out.is_empty() {
            return Vec::from_slice(alloc, b"a part was left");
        }
        out.clear();
        push_asked(&mut out, alloc, row)?;
    }
    Ok(out)
}

#[test]
fn lines_have_their_members(rt: HostRuntime) -> Result<(), Fail> {
    assert_rows(rt.alloc(), ROWS, answer)
}
