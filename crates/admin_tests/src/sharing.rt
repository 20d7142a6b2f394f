//! Calls on a shared history, one after another on one thread.
//!
//! | Word | What is done | Result |
//! |---|---|---|
//! | `snapshot` | a snapshot is taken | `rows:0:entries:1` |
//! | `plan:put:a` | a plan of the step is made on the snapshot | `planned` |
//! | `alice:commit` | alice commits the plan | `row:1:ok`; `stale:a`, `no-plan` |
//! | `bob:put:a`, `bob:undo:1`, `bob:redo:1` | bob calls it | `row:1:ok`, and other replies |
//!
//! A plan that is stale is kept.

use history::{CallError, MAX_ROWS, Operator, Plan, Uncommitted};
use link_tree::{Tree, push_decimal};
use sample_rows::{Row, assert_rows};
use sample_steps::{
    Step, begin_word, is, number, operator, parts, push_numbered, push_pair, push_reply, step,
    unit_at,
};
use sample_values::tree;
use shared_admin::{NewRow, OpenError, Operators, Settled, SharedAdmin, Snapshot, plan};
use std::alloc::{AllocError, Global};
use std::sync::Wait;
use std::test::Fail;

/// Calls on a history that alice and bob share, and their results. Operators, and what results
/// from opening a history for them. Whether a snapshot is taken after calls.
const ROWS: &[u8] = b"\
    # bob comes first, so alice's plan is stale; made again on a new snapshot it is refused,\n\
    # in row 2; after bob's undo a third is accepted\n\
    calls\tsnapshot plan:put:a bob:put:a alice:commit snapshot plan:put:a alice:commit \
        bob:undo:1 snapshot plan:put:a alice:commit\t\t\
        rows:0:entries:1 planned row:1:ok stale:a rows:1:entries:2 planned row:2:exists:a \
        row:3:undid:1 rows:3:entries:1 planned row:4:ok\n\
    # a plan that is stale comes back, and commits once the tree agrees again\n\
    calls\tsnapshot plan:put:a bob:put:a alice:commit bob:undo:1 alice:commit alice:commit\t\t\
        rows:0:entries:1 planned row:1:ok stale:a row:2:undid:1 row:3:ok no-plan\n\
    # the snapshot stays as it was while others call, so each plan on it is stale\n\
    calls\tsnapshot bob:put:a plan:put:a alice:commit plan:remove:a alice:commit \
        plan:ask:a alice:commit plan:put:b alice:commit\t\t\
        rows:0:entries:1 row:1:ok planned stale:a planned stale:a planned stale:a \
        planned row:2:ok\n\
    # the replies are those of the rows\n\
    calls\talice:put:a alice:put:a alice:ask:a alice:remove:b bob:put:b\t\t\
        row:1:ok row:2:exists:a row:3:static row:4:absent:b row:5:ok\n\
    calls\talice:put:a alice:undo:9 alice:undo:1 alice:undo:1 alice:undo:2 \
        alice:put:a bob:look:a alice:undo:6\t\t\
        row:1:ok row:2:no-such-row row:3:undid:1 row:4:already-undone:3 row:5:not-a-command \
        row:6:ok row:7:ok row:8:blocked:7\n\
    # a row is redone before a later one that looked elsewhere\n\
    calls\talice:put:a alice:undo:1 alice:put:b alice:redo:1 snapshot\t\t\
        row:1:ok row:2:undid:1 row:3:ok row:4:redid:1 rows:4:entries:3\n\
    # a later row that looked at the same slot hinders that\n\
    calls\talice:put:a alice:undo:1 alice:look:a alice:redo:1 snapshot\t\t\
        row:1:ok row:2:undid:1 row:3:ok row:4:hindered:3 rows:4:entries:1\n\
    # an earlier row hinders that as long as it isn't redone itself\n\
    calls\talice:put:a alice:look:a alice:undo:2 alice:undo:1 alice:redo:2 alice:redo:1 \
        alice:redo:2 alice:redo:2 alice:redo:99 alice:redo:6 snapshot\t\t\
        row:1:ok row:2:ok row:3:undid:2 row:4:undid:1 row:5:hindered:1 row:6:redid:1 \
        row:7:redid:2 row:8:not-undone row:9:no-row-to-redo row:10:no-command-to-redo \
        rows:10:entries:2\n\
    # a plan that was made while a row was undone is stale once the row is redone\n\
    calls\tbob:put:a bob:undo:1 snapshot plan:put:a bob:redo:1 alice:commit snapshot\t\t\
        row:1:ok row:2:undid:1 rows:2:entries:1 planned row:3:redid:1 stale:a \
        rows:3:entries:2\n\
    \n\
    # limited: the history may have only this many rows; whatever would add one more is refused\n\
    limited\talice:put:a alice:undo:1 alice:redo:1 alice:undo:9 bob:put:b snapshot\t2\t\
        row:1:ok row:2:undid:1 full full full rows:2:entries:1\n\
    # a plan is stale before the history is full; one that is not stale comes back\n\
    limited\tsnapshot plan:put:b bob:put:a alice:commit alice:commit plan:put:a alice:commit \
        snapshot\t1\t\
        rows:0:entries:1 planned row:1:ok full full planned stale:a rows:1:entries:2\n\
    \n\
    # a snapshot takes no memory: it is taken whatever growth is refused\n\
    snapshot\talice:put:a\t\tis taken\n\
    \n\
    # at most sixteen operators, each once\n\
    operators\t\t\tis shared\n\
    operators\ta b\t\tis shared\n\
    operators\ta b c d e f g h i j k l m n o p\t\tis shared\n\
    operators\ta b c d e f g h i j k l m n o p q\t\ttoo many sessions\n\
    operators\ta b c d e f g h i j k l m n o p a\t\ttoo many sessions\n\
    operators\ta b c d e f g h i j k l m n o a\t\tan operator twice\n\
    operators\ta a\t\tan operator twice\n\
    ";

/// A shared history, a snapshot and a plan.
#[derive(Drop)]
pub(crate) struct Bench {
    pub(crate) admin: Box<SharedAdmin<Step>>,
    pub(crate) snapshot: Box<Snapshot>,
    plan: Option<Box<Plan<Step>>>,
}

/// Adds that the history is full. Fails if it isn't: then memory ran out.
fn push_full(out: &mut Vec<u8>, why: CallError) -> Result<(), AllocError> {
    match why {
        CallError::Full => out.extend_from_slice(b"full"),
        CallError::OutOfMemory => Err(AllocError),
    }
}

/// The operators of these names, of which there may be none.
pub(crate) fn operators(alloc: Global, names: &[u8]) -> Result<Operators, AllocError> {
    let mut operators = Operators::none(alloc);
    for name in names.split(|b| *b == b' ') {
        if !name.is_empty() {
            operators.push(operator(name)?)?;
        }
    }
    Ok(operators)
}

/// A tree with one entry, a link at the slot of c.
pub(crate) const FIRST: &[u8] =
    b"unitadm-inventory 1\nL\t/etc/systemd/system/c.service\tx.service\nend\n";

/// A history of that tree with at most this many rows, shared by alice and bob.
fn shared(alloc: Global, limit: usize) -> Result<Box<SharedAdmin<Step>>, AllocError> {
    if limit == 0 || limit > MAX_ROWS {
        return Err(AllocError);
    }
    let first = Box::into_inner(tree(alloc, FIRST)?);
    match SharedAdmin::with_limit(alloc, first, operators(alloc, b"alice bob")?, limit) {
        Ok(admin) => Ok(Box::new(alloc, admin)?),
        Err(_) => Err(AllocError),
    }
}

fn begun(alloc: Global, rt: &impl Wait, limit: usize) -> Result<Bench, AllocError> {
    let admin = shared(alloc, limit)?;
    let snapshot = Box::new(alloc, admin.snapshot(rt)?)?;
    Ok(Bench {
        admin,
        snapshot,
        plan: None,
    })
}

/// Adds a row's number and its reply.
pub(crate) fn push_new_row(out: &mut Vec<u8>, row: &NewRow) -> Result<(), AllocError> {
    push_numbered(out, b"row", row.number)?;
    out.extend_from_slice(b":")?;
    push_reply(out, &row.reply)
}

/// An undo or a redo of the row of this number.
#[derive(Clone, Copy)]
pub(crate) enum Toggle {
    Undo(u32),
    Redo(u32),
}

/// Adds what an undo or a redo returns. Returns whether memory was enough for it.
fn push_toggled(
    out: &mut Vec<u8>,
    toggled: &Result<NewRow, CallError>,
) -> Result<bool, AllocError> {
    match toggled {
        Ok(row) => push_new_row(out, row)?,
        Err(CallError::Full) => out.extend_from_slice(b"full")?,
        Err(CallError::OutOfMemory) => return Ok(false),
    }
    Ok(true)
}

/// A plan of a step on a snapshot.
pub(crate) fn planned(
    alloc: Global,
    snapshot: &Snapshot,
    step: Step,
) -> Result<Box<Plan<Step>>, AllocError> {
    match plan(alloc, snapshot, step) {
        Ok(plan) => Ok(Box::new(alloc, plan)?),
        Err(_) => Err(AllocError),
    }
}

/// What a commit returns.
pub(crate) type Settling = Result<Settled<Plan<Step>>, Uncommitted<Plan<Step>>>;

pub(crate) fn push_settled(out: &mut Vec<u8>, settling: &Settling) -> Result<(), AllocError> {
    match settling {
        Ok(Settled::Committed(row)) => push_new_row(out, row),
        Ok(Settled::Stale { plan: _, at }) => push_pair(out, b"stale", unit_at(at)),
        Err(left) => push_full(out, left.why),
    }
}

/// The plan, if it made no row.
pub(crate) fn kept_plan(
    alloc: Global,
    settling: Box<Settling>,
) -> Result<Option<Box<Plan<Step>>>, AllocError> {
    match Box::into_inner(settling) {
        Ok(Settled::Committed(_)) => Ok(None),
        Ok(Settled::Stale { plan, at: _ }) => Ok(Some(Box::new(alloc, plan)?)),
        Err(left) => Ok(Some(Box::new(alloc, left.plan)?)),
    }
}

impl Bench {
    fn snap(&mut self, alloc: Global, rt: &impl Wait, out: &mut Vec<u8>) -> Result<(), AllocError> {
        self.snapshot = Box::new(alloc, self.admin.snapshot(rt)?)?;
        push_numbered(out, b"rows", self.snapshot.front)?;
        out.extend_from_slice(b":entries:")?;
        push_decimal(out, self.snapshot.tree.len())
    }

    fn plan(&mut self, alloc: Global, word: &[u8], out: &mut Vec<u8>) -> Result<(), AllocError> {
        self.plan = Some(planned(alloc, &self.snapshot, step(alloc, word)?)?);
        out.extend_from_slice(b"planned")
    }

    /// Commits the plan. One that is stale is kept.
    fn commit(
        &mut self,
        alloc: Global,
        rt: &impl Wait,
        operator: Operator,
        out: &mut Vec<u8>,
    ) -> Result<(), AllocError> {
        let Some(plan) = self.plan.take() else {
            return out.extend_from_slice(b"no-plan");
        };
        let settling = self.admin.commit(rt, operator, Box::into_inner(plan));
        let settling = Box::new(alloc, settling)?;
        push_settled(out, &settling)?;
        self.plan = kept_plan(alloc, settling)?;
        Ok(())
    }

    fn call(
        &self,
        rt: &impl Wait,
        alloc: Global,
        operator: Operator,
        step: Step,
        out: &mut Vec<u8>,
    ) -> Result<(), AllocError> {
        let called = Box::new(alloc, self.admin.call(rt, alloc, operator, step))?;
        match &*called {
            Ok(row) => push_new_row(out, row),
            Err(unrun) => push_full(out, unrun.why),
        }
    }

    /// How many rows there are, and how many entries the tree has.
    fn counts(&self, alloc: Global, rt: &impl Wait) -> Result<(u32, usize), AllocError> {
        let now = Box::new(alloc, self.admin.snapshot(rt)?)?;
        Ok((now.front, now.tree.len()))
    }

    fn toggled(
        &self,
        rt: &impl Wait,
        alloc: Global,
        operator: Operator,
        toggle: Toggle,
    ) -> Result<NewRow, CallError> {
        match toggle {
            Toggle::Undo(n) => self.admin.undo(rt, alloc, operator, n),
            Toggle::Redo(n) => self.admin.redo(rt, alloc, operator, n),
        }
    }

    /// Adds what an undo or a redo returns, and returns whether memory was enough for it.
    pub(crate) fn push_toggle(
        &self,
        rt: &impl Wait,
        alloc: Global,
        operator: Operator,
        toggle: Toggle,
        out: &mut Vec<u8>,
    ) -> Result<bool, AllocError> {
        let toggled = Box::new(alloc, self.toggled(rt, alloc, operator, toggle))?;
        push_toggled(out, &toggled)
    }

    /// An undo or a redo. If memory runs out, nothing is changed, and it is called again.
    fn toggle(
        &self,
        rt: &impl Wait,
        alloc: Global,
        operator: Operator,
        toggle: Toggle,
        out: &mut Vec<u8>,
    ) -> Result<(), AllocError> {
        let before = self.counts(alloc, rt)?;
        if self.push_toggle(rt, alloc, operator, toggle, out)? {
            return Ok(());
        }
        if self.counts(alloc, rt)? != before {
            return out.extend_from_slice(b"changed");
        }
        if self.push_toggle(rt, alloc, operator, toggle, out)? {
            Ok(())
        } else {
            Err(AllocError)
        }
    }

    /// What an operator does: a commit, an undo, a redo, or the call of a step.
    fn answer_to(
        &mut self,
        rt: &impl Wait,
        alloc: Global,
        operator: Operator,
        word: &[u8],
        out: &mut Vec<u8>,
    ) -> Result<(), AllocError> {
        let (first, rest) = parts(word);
        if is(first, b"commit") {
            return self.commit(alloc, rt, operator, out);
        }
        if is(first, b"undo") {
            return self.toggle(rt, alloc, operator, Toggle::Undo(number(rest)), out);
        }
        if is(first, b"redo") {
            return self.toggle(rt, alloc, operator, Toggle::Redo(number(rest)), out);
        }
        self.call(rt, alloc, operator, step(alloc, word)?, out)
    }

    /// Does what a word says, and adds the result.
    fn answer(
        &mut self,
        rt: &impl Wait,
        alloc: Global,
        word: &[u8],
        out: &mut Vec<u8>,
    ) -> Result<(), AllocError> {
        let (first, rest) = parts(word);
        if is(first, b"snapshot") {
            return self.snap(alloc, rt, out);
        }
        if is(first, b"plan") {
            return self.plan(alloc, rest, out);
        }
        self.answer_to(rt, alloc, operator(first)?, rest, out)
    }

    /// Adds the results of the words of a script.
    fn play(
        &mut self,
        rt: &impl Wait,
        alloc: Global,
        script: &[u8],
        out: &mut Vec<u8>,
    ) -> Result<(), AllocError> {
        for word in script.split(|b| *b == b' ') {
            begin_word(out)?;
            self.answer(rt, alloc, word, out)?;
        }
        Ok(())
    }
}

/// What is left of a script on that tree; the results of its words are added.
pub(crate) fn run(
    alloc: Global,
    rt: &impl Wait,
    script: &[u8],
    out: &mut Vec<u8>,
) -> Result<Bench, AllocError> {
    let mut bench = begun(alloc, rt, MAX_ROWS)?;
    bench.play(rt, alloc, script, out)?;
    Ok(bench)
}

/// The results of the words of a script, on a history with at most this many rows.
fn said(alloc: Global, rt: &impl Wait, script: &[u8], limit: usize) -> Result<Vec<u8>, AllocError> {
    let mut out = Vec::new(alloc);
    let mut bench = begun(alloc, rt, limit)?;
    bench.play(rt, alloc, script, &mut out)?;
    Ok(out)
}

/// Whether a snapshot is taken after a script. It isn't tried again, so that it fails if it takes
/// memory.
fn snapshot_taken(alloc: Global, rt: &impl Wait, script: &[u8]) -> Result<Vec<u8>, AllocError> {
    let mut said = Vec::new(alloc);
    let bench = run(alloc, rt, script, &mut said)?;
    if bench.admin.snapshot(rt).is_ok() {
        return Vec::from_slice(alloc, b"is taken");
    }
    Vec::from_slice(alloc, b"out of memory")
}

/// What results from sharing a history of a tree.
type Opened = Result<SharedAdmin<Step>, OpenError>;

fn shared_by(alloc: Global, names: &[u8]) -> Result<Box<Opened>, AllocError> {
    let operators = operators(alloc, names)?;
    let tree = Tree::empty(alloc)?;
    Ok(Box::new(alloc, SharedAdmin::new(alloc, tree, operators))?)
}

/// What results from opening a history for these operators.
fn opened(alloc: Global, names: &[u8]) -> Result<Vec<u8>, AllocError> {
    let opened = shared_by(alloc, names)?;
    text_of_opened(alloc, &opened)
}

fn text_of_opened(alloc: Global, opened: &Opened) -> Result<Vec<u8>, AllocError> {
    match opened {
        Ok(_) => Vec::from_slice(alloc, b"is shared"),
        Err(OpenError::TooManySessions) => Vec::from_slice(alloc, b"too many sessions"),
        Err(OpenError::SameOperator) => Vec::from_slice(alloc, b"an operator twice"),
        Err(OpenError::OutOfMemory) => Err(AllocError),
    }
}

fn answer(rt: &impl Wait, alloc: Global, row: &Row) -> Result<Vec<u8>, AllocError> {
    if is(&row.kind, b"calls") {
        return said(alloc, rt, &row.one, MAX_ROWS);
    }
    if is(&row.kind, b"limited") {
        return said(alloc, rt, &row.one, number(&row.two) as usize);
    }
    if is(&row.kind, b"snapshot") {
        return snapshot_taken(alloc, rt, &row.one);
    }
    if is(&row.kind, b"operators") {
        return opened(alloc, &row.one);
    }
    Vec::from_slice(alloc, b"unknown kind")
}

#[test]
fn each_call_is_one_step(rt: HostRuntime) -> Result<(), Fail> {
    assert_rows(rt.alloc(), ROWS, |alloc, row| answer(&rt, alloc, row))
}
