//! What others did, as calls and as lines, and the lines of other calls.
use history::{Operator, Request};
use kept_rows::{
    LineKind, calls_of_others, can_be_word, can_be_written, line_kind, push_line,
    push_lines_of_others,
};
use link_tree::{Change, Tree};
use sample_rows::{Row, assert_rows, is};
use sample_values::tree;
use std::alloc::{AllocError, Global};
use std::test::Fail;
use tree_steps::slot_changes_between;
use unit_script::{Action, Call};

const ROWS: &[u8] = b"\
    # Two inventories without their first and last lines: the lines of what leads from one to the\n\
    # other at slots, how many calls these are, and which of the changes can't be written.\n\
    others\tL\\t/etc/systemd/system/a.service\\t/opt/a\\n\tL\\t/etc/systemd/system/a.service\\t/opt/a\\n\t0 calls\\n\n\
    others\tL\\t/etc/systemd/system/a.service\\t/opt/a\\n\t\t\
        outside remove /etc/systemd/system/a.service\\n1 calls\\n\n\
    others\t\tL\\t/etc/systemd/system/a.service\\t/opt/a\\n\t\
        outside place /etc/systemd/system/a.service link /opt/a\\n1 calls\\n\n\
    others\tL\\t/etc/systemd/system/a.service\\t/opt/a\\n\tF\\t0\\t/etc/systemd/system/a.service\\n\\n\t\
        outside remove /etc/systemd/system/a.service\\n\
        outside place /etc/systemd/system/a.service file\\n2 calls\\n\n\
    others\t\tF\\t8\\t/run/systemd/system/a.service\\na b\\tc\\nd\\\\\\n\t\
        outside place /run/systemd/system/a.service file a\\\\sb\\\\tc\\\\nd\\\\\\\\\\n1 calls\\n\n\
    # What is at no slot is left out.\n\
    others\t\tL\\t/opt/a.service\\t/opt/a\\nL\\t/opt/b.service\\t/opt/b\\n\t0 calls\\n\n\
    # A space in the name of a preset file, and in a target.\n\
    others\t\tF\\t0\\t/etc/systemd/system-preset/9 a.preset\\n\\n\t\
        outside place /etc/systemd/system-preset/9 a.preset file\\n1 calls\\n\
        /etc/systemd/system-preset/9 a.preset can't be written\\n\n\
    others\t\tL\\t/etc/systemd/system/a.service\\t/opt/a b\\n\t\
        outside place /etc/systemd/system/a.service link /opt/a b\\n1 calls\\n\
        /etc/systemd/system/a.service can't be written\\n\n\
    # A line of an operator and two words, of which some can't be words.\n\
    line\tenable\ta.service\tanna enable a.service\\n\n\
    line\tlink\t/opt/a b\tanna link /opt/a b\\nno word: /opt/a b\\n\n\
    line\tundo\t1\\n2\tanna undo 1\\n2\\nno word: 1\\n2\\n\n\
    line\tundo\t\tanna undo \\nno word: \\n\n\
    # What lines are.\n\
    kind\t# run 2026-11-27\t\trun\n\
    kind\t# end \t\tend\n\
    kind\t# end\t\tcomment\n\
    kind\t #\t\tcall\n\
    kind\t\t\tcall\n";

/// The tree of these entries.
fn entries(alloc: Global, lines: &[u8]) -> Result<Box<Tree>, AllocError> {
    let mut inventory = Vec::from_slice(alloc, b"unitadm-inventory 1\n")?;
    inventory.extend_from_slice(lines)?;
    inventory.extend_from_slice(b"end\n")?;
    tree(alloc, &inventory)
}

/// How many of the calls are placements and removals of `outside`.
fn count_of_others(calls: &[Call]) -> usize {
    calls.iter().filter(|call| is_of_others(call)).count()
}

fn is_of_others(call: &Call) -> bool {
    let is_outside = call.operator.text() == b"outside".as_slice();
    is_outside
        && matches!(
            &call.request,
            Request::Do(Action::PlaceEntry(_) | Action::RemoveEntry(_))
        )
}

fn push_count(alloc: Global, text: &mut Vec<u8>, changes: &[Change]) -> Result<(), AllocError> {
    let calls = calls_of_others(alloc, changes)?;
    let count = count_of_others(&calls);
    let line = format!(in alloc; "{count} calls\n")?;
    text.extend_from_slice(line.as_bytes())
}

fn push_unwritten(text: &mut Vec<u8>, alloc: Global, change: &Change) -> Result<(), AllocError> {
    if !can_be_written(alloc, change)? {
        text.extend_from_slice(change.path.text())?;
        text.extend_from_slice(b" can't be written\n")?;
    }
    Ok(())
}

fn told(alloc: Global, changes: &[Change]) -> Result<Vec<u8>, AllocError> {
    let mut text = Vec::new(alloc);
    push_lines_of_others(&mut text, changes)?;
    push_count(alloc, &mut text, changes)?;
    for change in changes {
        push_unwritten(&mut text, alloc, change)?;
    }
    Ok(text)
}

fn changes(alloc: Global, row: &Row) -> Result<Vec<Change>, AllocError> {
    let left = entries(alloc, &row.one)?;
    let captured = entries(alloc, &row.two)?;
    slot_changes_between(alloc, &left, &captured)
}

fn line(alloc: Global, one: &[u8], two: &[u8]) -> Result<Vec<u8>, AllocError> {
    let mut text = Vec::new(alloc);
    let operator = match Operator::parse(b"anna") {
        Ok(operator) => operator,
        Err(_) => return Err(AllocError),
    };
    push_line(&mut text, &operator, &[one, two])?;
    if !can_be_word(two) {
        text.extend_from_slice(b"no word: ")?;
        text.extend_from_slice(two)?;
        text.extend_from_slice(b"\n")?;
    }
    Ok(text)
}

fn kind(line: &[u8]) -> &'static [u8] {
    match line_kind(line) {
        LineKind::Run => b"run",
        LineKind::End => b"end",
        LineKind::Comment => b"comment",
        LineKind::Call => b"call",
    }
}

fn answer(alloc: Global, row: &Row) -> Result<Vec<u8>, AllocError> {
    if is(row, b"line") {
        return line(alloc, &row.one, &row.two);
    }
    if is(row, b"kind") {
        return Vec::from_slice(alloc, kind(&row.one));
    }
    let changes = changes(alloc, row)?;
    told(alloc, &changes)
}

#[test]
fn others_and_lines_are_written(rt: HostRuntime) -> Result<(), Fail> {
    assert_rows(rt.alloc(), ROWS, answer)
}
