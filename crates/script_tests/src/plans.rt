//! Events on a history of real commands: what results from each, and what the rows say then.
ghost use Rattle.std.specs.Prelude.{◌<◌, All, IfOk, OnOk};
ghost use Rattle.shared_admin.specs.Events.{HasSlot};

use crate::lines::{action, is, whole_call};
use footprint::Key;
use history::{History, MAX_ROWS, Operator, Request};
use link_tree::push_decimal;
use sample_rows::{Row, assert_rows};
use sample_values::tree;
use shared_admin::{Event, EventReply, drive};
use std::alloc::{AllocError, Global};
use std::test::Fail;
use unit_script::{Action, Call, push_rows};

/// What happens on the inventory of ssh.service: `snapshot` takes one in slot 0, `plan` plans what
/// its line asks for on it, alice commits that by `commit`, and a line of its own is a call. Then
/// what results from each, the lines of all rows, and how many entries the tree has.
const ROWS: &[u8] = b"\
    # bob masks the unit while alice plans to enable it; she plans anew, is refused,\n\
    # and bob takes his mask back\n\
    ssh.service\tsnapshot; plan alice enable ssh.service; bob mask ssh.service; commit; \
        snapshot; plan alice enable ssh.service; commit; bob undo 1\t\t\
        taken\\nplanned\\nrow 1\\nstale at /etc/systemd/system/ssh.service\\n\
        taken\\nplanned\\nrow 2\\nrow 3\\n\
        1 bob ok\\n  + /etc/systemd/system/ssh.service -> /dev/null\\n\
        2 alice refused: ssh.service is masked\\n\
        3 bob undid 1\\n  - /etc/systemd/system/ssh.service -> /dev/null\\n\
        1 entries\n\
    # an enable is committed beside a mask of another unit\n\
    ssh.service\tsnapshot; plan alice enable ssh.service; bob mask x.service; commit\t\t\
        taken\\nplanned\\nrow 1\\nrow 2\\n\
        1 bob ok\\n  + /etc/systemd/system/x.service -> /dev/null\\n\
        2 alice ok\\n  \
        + /etc/systemd/system/multi-user.target.wants/ssh.service \
        -> /usr/lib/systemd/system/ssh.service\\n  \
        + /etc/systemd/system/sshd.service -> /usr/lib/systemd/system/ssh.service\\n\
        4 entries\n\
    # the tree agrees again once the mask is undone\n\
    ssh.service\tsnapshot; plan alice enable ssh.service; \
        bob mask ssh.service; bob undo 1; commit\t\t\
        taken\\nplanned\\nrow 1\\nrow 2\\nrow 3\\n\
        1 bob ok\\n  + /etc/systemd/system/ssh.service -> /dev/null\\n\
        2 bob undid 1\\n  - /etc/systemd/system/ssh.service -> /dev/null\\n\
        3 alice ok\\n  \
        + /etc/systemd/system/multi-user.target.wants/ssh.service \
        -> /usr/lib/systemd/system/ssh.service\\n  \
        + /etc/systemd/system/sshd.service -> /usr/lib/systemd/system/ssh.service\\n\
        3 entries\n\
    # a redo of the mask makes the plan stale again\n\
    ssh.service\tsnapshot; plan alice enable ssh.service; \
        bob mask ssh.service; bob undo 1; bob redo 1; commit\t\t\
        taken\\nplanned\\nrow 1\\nrow 2\\nrow 3\\nstale at /etc/systemd/system/ssh.service\\n\
        1 bob ok\\n  + /etc/systemd/system/ssh.service -> /dev/null\\n\
        2 bob undid 1\\n  - /etc/systemd/system/ssh.service -> /dev/null\\n\
        3 bob redid 1\\n  + /etc/systemd/system/ssh.service -> /dev/null\\n\
        2 entries\n\
    # a plan that was stale is in its slot no longer\n\
    ssh.service\tsnapshot; plan alice enable ssh.service; bob mask ssh.service; commit; commit\t\t\
        taken\\nplanned\\nrow 1\\nstale at /etc/systemd/system/ssh.service\\nnothing\\n\
        1 bob ok\\n  + /etc/systemd/system/ssh.service -> /dev/null\\n\
        2 entries\n\
    ";

/// The inventory of one unit, which wants two links.
const SSH: &[u8] = b"unitadm-inventory 1\n\
    F\t56\t/usr/lib/systemd/system/ssh.service\n\
    [Install]\nWantedBy=multi-user.target\nAlias=sshd.service\n\n\
    end\n";

/// One more event.
fn add(events: &mut Vec<Event<Action>>, event: Event<Action>) -> Result<(), AllocError>
    requires before { All (HasSlot {O = Action}) events.old.items }
    requires slot { HasSlot event }
    ensures ok { OnOk result (All (HasSlot {O = Action}) events.new.items) }
{
    Ok(events.push(event)?)
}

/// The line's own call.
fn add_call(alloc: Global, line: &[u8], events: &mut Vec<Event<Action>>) -> Result<(), AllocError>
    requires before { All (HasSlot {O = Action}) events.old.items }
    ensures ok { OnOk result (All (HasSlot {O = Action}) events.new.items) }
{
    let Call { operator, request } = Box::into_inner(whole_call(alloc, line)?);
    match request {
        Request::Do(action) => add(events, Event::Call(operator, action)),
        Request::Undo(n) => add(events, Event::Undo(operator, n)),
        Request::Redo(n) => add(events, Event::Redo(operator, n)),
    }
}

/// The plan of a line.
fn add_plan(alloc: Global, line: &[u8], events: &mut Vec<Event<Action>>) -> Result<(), AllocError>
    requires before { All (HasSlot {O = Action}) events.old.items }
    ensures ok { OnOk result (All (HasSlot {O = Action}) events.new.items) }
{
    let action = Box::into_inner(action(alloc, line)?);
    add(events, Event::Plan(0, action))
}

fn add_happening(
    alloc: Global,
    happening: &[u8],
    events: &mut Vec<Event<Action>>,
) -> Result<(), AllocError>
    requires before { All (HasSlot {O = Action}) events.old.items }
    ensures ok { OnOk result (All (HasSlot {O = Action}) events.new.items) }
{
    if is(happening, b"snapshot") {
        return add(events, Event::Snap(0));
    }
    if is(happening, b"commit") {
        return add(events, Event::Commit(0, operator(b"alice")?));
    }
    match happening.strip_prefix(b"plan ") {
        Some(line) => add_plan(alloc, line, events),
        None => add_call(alloc, happening, events),
    }
}

/// The operator of this name.
pub(crate) fn operator(name: &[u8]) -> Result<Operator, AllocError> {
    match Operator::parse(name) {
        Ok(operator) => Ok(operator),
        Err(_) => Err(AllocError),
    }
}

fn events(alloc: Global, script: &[u8]) -> Result<Vec<Event<Action>>, AllocError>
    ensures { IfOk result (λ events. All (HasSlot {O = Action}) events.items) }
{
    let mut events = Vec::new(alloc);
    for happening in script.split(|b| *b == b';') {
        add_happening(alloc, happening.trim_ascii(), &mut events)?;
    }
    Ok(events)
}

fn push_line(out: &mut Vec<u8>, words: &[u8], last: &[u8]) -> Result<(), AllocError> {
    out.extend_from_slice(words)?;
    out.extend_from_slice(last)?;
    out.extend_from_slice(b"\n")
}

fn push_reply(out: &mut Vec<u8>, reply: &EventReply) -> Result<(), AllocError> {
    match reply {
        EventReply::Taken => push_line(out, b"taken", b""),
        EventReply::Planned => push_line(out, b"planned", b""),
        EventReply::Nothing => push_line(out, b"nothing", b""),
        EventReply::Committed(n) => {
            out.extend_from_slice(b"row ")?;
            push_decimal(out, *n as usize)?;
            out.extend_from_slice(b"\n")
        }
        EventReply::Stale(Key::Cell(path)) => push_line(out, b"stale at ", path.text()),
        EventReply::Stale(_) => push_line(out, b"stale", b""),
        EventReply::Full => push_line(out, b"full", b""),
    }
}

fn push_replies(out: &mut Vec<u8>, replies: &[EventReply]) -> Result<(), AllocError> {
    for reply in replies {
        push_reply(out, reply)?;
    }
    Ok(())
}

/// The lines of all rows, then how many entries the tree has.
fn push_history(out: &mut Vec<u8>, history: &History<Action>) -> Result<(), AllocError> {
    let rows = history.rows();
    if rows.len() <= MAX_ROWS {
        push_rows(out, rows)?;
    }
    push_decimal(out, history.tree().len())?;
    out.extend_from_slice(b" entries")
}

/// What is left of events on the unit's inventory, and the replies.
type Driven = (History<Action>, Vec<EventReply>);

fn driven(alloc: Global, script: &[u8]) -> Result<Box<Driven>, AllocError> {
    let events = events(alloc, script)?;
    let driven = drive(alloc, Box::into_inner(tree(alloc, SSH)?), events)?;
    Ok(Box::new(alloc, driven)?)
}

/// A line for each reply, then the history.
fn answer(alloc: Global, row: &Row) -> Result<Vec<u8>, AllocError> {
    let mut out = Vec::new(alloc);
    let driven = driven(alloc, &row.one)?;
    push_replies(&mut out, &driven.1)?;
    push_history(&mut out, &driven.0)?;
    Ok(out)
}

#[test]
fn an_enable_is_planned_and_committed(rt: HostRuntime) -> Result<(), Fail> {
    assert_rows(rt.alloc(), ROWS, answer)
}

/// The unit isn't masked in the snapshot, so that the plan is of a slot without an entry.
const UNMASK: &[u8] = b"\
    x.service\tsnapshot; bob mask x.service; plan alice unmask x.service; commit\t\t\
        taken\\nrow 1\\nplanned\\nstale at /etc/systemd/system/x.service\\n\
        1 bob ok\\n  + /etc/systemd/system/x.service -> /dev/null\\n\
        2 entries\n";

#[test]
fn a_plan_on_a_snapshot_before_a_mask_is_stale(rt: HostRuntime) -> Result<(), Fail> {
    assert_rows(rt.alloc(), UNMASK, answer)
}
