//! Events on a history, one after another.
ghost use Rattle.std.specs.Prelude.{◌≡◌, ◌≢◌, [], Some, None, All, IfOk, OnOk, OnErr, length, replicate};
ghost use Rattle.history.specs.Plans.{Planned, AgreesWith};
ghost use Rattle.history.specs.Rows.{calls_of, run};
ghost use Rattle.history.specs.declared.history.CallError.TheVariants as errors;
ghost use Rattle.history.specs.declared.row.Request.TheVariants.{Do, Undo, Redo};
ghost use Rattle.shared_admin.specs.declared.event.EventReply.TheVariants as replies;
ghost use Rattle.shared_admin.specs.Events.{HasSlot, nothing_kept, empty_slots, Snaps, Plans, TakesPlan, Calls, Happens, HasRoom, Plays, IsDriven};

use crate::event::{Event, EventReply};
use crate::snapshot::{Snapshot, plan, snapshot_of};
use footprint::Operation;
use history::{CallError, Commit, History, Operator, Plan, Uncommitted};
use link_tree::Tree;
use std::alloc::{AllocError, Global};

/// How many slots a run of events has.
pub const SLOTS: usize = 16;

/// What a slot keeps: the last snapshot that was taken there, and the last plan that was made on
/// it.
#[derive(Drop)]
pub struct Kept<P> {
    snapshot: Option<Snapshot>,
    plan: Option<P>,
}

/// Runs events one after another, on a history of this tree without rows and with empty slots.
/// Returns the history after them, which may have a million rows, and the reply to each event, in
/// order.
///
/// The slots of the events are from 0 to 15. Fails only if memory runs out.
pub fn drive<O: Operation>(
    alloc: Global,
    tree: Tree,
    events: Vec<Event<O>>,
) -> Result<(History<O>, Vec<EventReply>), AllocError>
    requires { All (HasSlot {O = O}) events.items }
    ensures driven { IfOk result (λ r. IsDriven O.asks O.meaning tree events.items r.0 r.1.items) }
    ensures first { IfOk result (λ r. r.0.first ≡ tree) }
    ensures legal { IfOk result (λ r. r.0.rows ≡ run O.asks O.meaning tree [] (calls_of r.0.rows)) }
{
    let mut history = History::new(alloc, tree)?;
    let replies = drive_on(alloc, &mut history, events)?;
    Ok((history, replies))
}

/// Runs events one after another on a history, with slots that are empty at first.
fn drive_on<O: Operation>(
    alloc: Global,
    history: &mut History<O>,
    events: Vec<Event<O>>,
) -> Result<Vec<EventReply>, AllocError>
    requires { All (HasSlot {O = O}) events.items }
    ensures { IfOk result (λ replies. Plays O.asks O.meaning history.old empty_slots events.items history.new replies.items) }
{
    let mut slots = empty_slots(alloc)?;
    let mut replies = Vec::new(alloc);
    for event in events {
        let reply = happen(alloc, history, &mut slots, event)?;
        replies.push(reply)?;
    }
    Ok(replies)
}

/// Sixteen empty slots. Fails only if memory runs out.
pub fn empty_slots<P: Drop>(alloc: Global) -> Result<Vec<Kept<P>>, AllocError>
    ensures { IfOk result (λ slots. slots.items ≡ replicate 16 nothing_kept) }
{
    let mut slots = Vec::new(alloc);
    for _ in 0..SLOTS {
        slots.push(Kept {
            snapshot: None,
            plan: None,
        })?;
    }
    Ok(slots)
}

/// Runs one event on a history and its slots, for events that arrive one at a time: `drive` does
/// the same with a list of them.
///
/// There are sixteen slots, and that of the event is from 0 to 15. Fails only if memory runs out,
/// and then history and slots are unchanged. If the history is full, the reply is `Full`, whether
/// or not memory runs out.
pub fn happen<O: Operation>(
    alloc: Global,
    history: &mut History<O>,
    slots: &mut Vec<Kept<Plan<O>>>,
    event: Event<O>,
) -> Result<EventReply, AllocError>
    requires sixteen { length slots.old.items ≡ 16 }
    requires slot { HasSlot event }
    ensures sixteen { length slots.new.items ≡ 16 }
    ensures happens { IfOk result (λ reply. Happens O.asks O.meaning history.old slots.old.items event history.new slots.new.items reply) }
    ensures history_kept { OnErr result (history.new ≡ history.old) }
    ensures slots_kept { OnErr result (slots.new.items ≡ slots.old.items) }
    ensures room { OnErr result (HasRoom O.asks O.meaning history.old slots.old.items event) }
{
    match event {
        Event::Snap(slot) => snap(history, &mut slots[usize::from(slot)]),
        Event::Plan(slot, operation) => plan_in(alloc, &mut slots[usize::from(slot)], operation),
        Event::Commit(slot, operator) => take_plan(
            history,
            &mut slots[usize::from(slot)],
            operator,
        ),
        Event::Call(operator, operation) => call(alloc, history, operator, operation),
        Event::Undo(operator, n) => undo(alloc, history, operator, n),
        Event::Redo(operator, n) => redo(alloc, history, operator, n),
    }
}

fn snap<O: Operation>(
    history: &History<O>,
    slot: &mut Kept<Plan<O>>,
) -> Result<EventReply, AllocError>
    ensures snaps { IfOk result (λ reply. Snaps O.asks O.meaning history.now slot.old history.now slot.new reply) }
    ensures kept { OnErr result (slot.new ≡ slot.old) }
{
    slot.snapshot = Some(snapshot_of(history)?);
    Ok(EventReply::Taken)
}

fn plan_in<O: Operation>(
    alloc: Global,
    slot: &mut Kept<Plan<O>>,
    operation: O,
) -> Result<EventReply, AllocError>
    ensures plans { IfOk result (λ reply. Plans O.meaning slot.old operation slot.new reply) }
    ensures kept { OnErr result (slot.new ≡ slot.old) }
{
    let Some(snapshot) = &slot.snapshot else {
        return Ok(EventReply::Nothing);
    };
    match plan(alloc, snapshot, operation) {
        Ok(plan) => {
            slot.plan = Some(plan);
            Ok(EventReply::Planned)
        }
        Err(_) => Err(AllocError),
    }
}

fn take_plan<O: Operation>(
    history: &mut History<O>,
    slot: &mut Kept<Plan<O>>,
    operator: Operator,
) -> Result<EventReply, AllocError>
    ensures takes { IfOk result (λ reply. TakesPlan O.asks O.meaning history.old slot.old operator history.new slot.new reply) }
    ensures history_kept { OnErr result (history.new ≡ history.old) }
    ensures kept { OnErr result (slot.new ≡ slot.old) }
    ensures room { OnErr result ((plan : Planned O) → slot.old.plan ≡ Some plan → AgreesWith O.asks O.meaning history.old plan → length history.old.rows ≢ history.old.limit) }
{
    let Some(plan) = slot.plan.take() else {
        return Ok(EventReply::Nothing);
    };
    match history.commit(operator, plan) {
        Ok(Commit::Committed(n)) => Ok(EventReply::Committed(n)),
        Ok(Commit::Stale { plan, at }) => {
            drop(plan);
            Ok(EventReply::Stale(at))
        }
        Err(left) => uncommitted(slot, left),
    }
}

/// The reply to a commit that made no row. If memory ran out, the plan is put back into the slot.
fn uncommitted<O: Operation>(
    slot: &mut Kept<Plan<O>>,
    left: Uncommitted<Plan<O>>,
) -> Result<EventReply, AllocError>
    requires { slot.old.plan ≡ None }
    ensures full { IfOk result (λ reply. (reply ≡ replies.Full) × (left.why ≡ errors.Full)) }
    ensures stays { OnOk result (slot.new ≡ slot.old) }
    ensures want { OnErr result (left.why ≡ errors.OutOfMemory) }
    ensures kept { OnErr result (slot.new ≡ record { snapshot = slot.old.snapshot; plan = Some left.plan }) }
{
    let Uncommitted { plan, why } = left;
    match no_row(why) {
        Ok(reply) => {
            drop(plan);
            Ok(reply)
        }
        Err(AllocError) => {
            slot.plan = Some(plan);
            Err(AllocError)
        }
    }
}

fn call<O: Operation>(
    alloc: Global,
    history: &mut History<O>,
    operator: Operator,
    operation: O,
) -> Result<EventReply, AllocError>
    ensures calls { IfOk result (λ reply. Calls O.asks O.meaning history.old (operator, Do operation) history.new reply) }
    ensures kept { OnErr result (history.new ≡ history.old) }
    ensures room { OnErr result (length history.old.rows ≢ history.old.limit) }
{
    match history.call(alloc, operator, operation) {
        Ok(n) => Ok(EventReply::Committed(n)),
        Err(unrun) => no_row(unrun.why),
    }
}

fn undo<O: Operation>(
    alloc: Global,
    history: &mut History<O>,
    operator: Operator,
    n: u32,
) -> Result<EventReply, AllocError>
    ensures calls { IfOk result (λ reply. Calls O.asks O.meaning history.old (operator, Undo n) history.new reply) }
    ensures kept { OnErr result (history.new ≡ history.old) }
    ensures room { OnErr result (length history.old.rows ≢ history.old.limit) }
{
    match history.undo(alloc, operator, n) {
        Ok(n) => Ok(EventReply::Committed(n)),
        Err(why) => no_row(why),
    }
}

fn redo<O: Operation>(
    alloc: Global,
    history: &mut History<O>,
    operator: Operator,
    n: u32,
) -> Result<EventReply, AllocError>
    ensures calls { IfOk result (λ reply. Calls O.asks O.meaning history.old (operator, Redo n) history.new reply) }
    ensures kept { OnErr result (history.new ≡ history.old) }
    ensures room { OnErr result (length history.old.rows ≢ history.old.limit) }
{
    match history.redo(alloc, operator, n) {
        Ok(n) => Ok(EventReply::Committed(n)),
        Err(why) => no_row(why),
    }
}

/// The reply to an event that made no row because the history is full. Out of memory isn't a reply:
/// it is this function's error.
fn no_row(why: CallError) -> Result<EventReply, AllocError>
    ensures full { IfOk result (λ reply. (reply ≡ replies.Full) × (why ≡ errors.Full)) }
    ensures want { OnErr result (why ≡ errors.OutOfMemory) }
{
    match why {
        CallError::Full => Ok(EventReply::Full),
        CallError::OutOfMemory => Err(AllocError),
    }
}
