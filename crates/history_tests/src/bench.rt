//! A history and a plan, and what words do with them.
//!
//! | Word | What is done | Result |
//! |---|---|---|
//! | `put:a`, `undo:1`, `redo:1` and the like | alice calls it | the reply of the row; `full` |
//! | `plan:put:a` | a plan of the step is made, on the tree as it is | `planned` |
//! | `commit` | bob commits the plan | `row:2`; `stale:a`, `full`, `no-plan` |
//! | `answer` | the answer of the plan is read | `accepted` or `refused`; `no-plan` |
//! | `take-apart:put:a` | the plan, which is of this step, is taken apart | `put:a`; `no-plan` |
//! | `index` | each row is looked up | `1:read-by:1,2:blocked-by:2 2:unread` (`index.rt`) |
//!
//! A plan that is stale is kept, and so is one that is committed to a full history.
//!
//! If memory runs out for a call, a commit, an undo or a redo, the history is compared with what it
//! was before, and what comes back with what was handed in. Then the call is made again.

ghost use Rattle.std.specs.Prelude.{◌≤◌};

use crate::index::{agrees, push_index};
use crate::texts::text_of;
use footprint::{Answer, Operation};
use history::{CallError, Commit, History, MAX_ROWS, Plan, Request, RowReply, Uncommitted, Unrun};
use link_tree::{Tree, push_decimal};
use sample_steps::{
    Step, begin_word, is, number, operator, parts, push_numbered, push_pair, push_reply, push_row,
    step, unit_at,
};
use std::alloc::{AllocError, Global};

#[derive(Clone, Copy)]
enum Toggle {
    Undo,
    Redo,
}

#[derive(Drop)]
pub(crate) struct Bench {
    pub(crate) history: Box<History<Step>>,
    plan: Option<Box<Plan<Step>>>,
    /// The word of the plan's step.
    planned: Vec<u8>,
}

/// A history of the empty tree.
fn begun(alloc: Global, limit: usize) -> Result<Box<History<Step>>, AllocError>
    requires some { 1 ≤ limit }
    requires few { limit ≤ 1000000 }
{
    let history = History::with_limit(alloc, Tree::empty(alloc)?, limit)?;
    Ok(Box::new(alloc, history)?)
}

impl Bench {
    /// A history of the empty tree, and no plan. One that is short has room for one row.
    pub(crate) fn new(alloc: Global, is_short: bool) -> Result<Bench, AllocError> {
        let limit = if is_short { 1 } else { MAX_ROWS };
        Ok(Bench {
            history: begun(alloc, limit)?,
            plan: None,
            planned: Vec::new(alloc),
        })
    }

    /// Adds the reply of the last row.
    fn push_last(&self, out: &mut Vec<u8>) -> Result<(), AllocError> {
        match self.history.rows().last() {
            Some(row) => push_reply(out, &row.reply),
            None => out.extend_from_slice(b"no-row"),
        }
    }

    /// Whether the history is as it was, and what it looks up is what a walk finds.
    fn is_as_before(&self, alloc: Global, before: &[u8]) -> Result<bool, AllocError> {
        let now = text_of(alloc, &*self.history)?;
        Ok(now.as_slice() == before && agrees(alloc, &self.history)?)
    }

    /// If memory ran out, calls the operation that came back. It is the step of the word.
    fn call_again(
        &mut self,
        alloc: Global,
        unrun: Unrun<Step>,
        word: &[u8],
        out: &mut Vec<u8>,
    ) -> Result<(), AllocError> {
        let Unrun { operation, why } = unrun;
        if why == CallError::Full {
            return push_if_same(alloc, &operation, word, b"full", out);
        }
        push_if_same(alloc, &operation, word, b"", out)?;
        match self.history.call(alloc, operator(b"alice")?, operation) {
            Ok(_) => self.push_last(out),
            Err(_) => out.extend_from_slice(TWICE),
        }
    }

    /// Alice's call of the step of a word.
    fn call(&mut self, alloc: Global, word: &[u8], out: &mut Vec<u8>) -> Result<(), AllocError> {
        let before = text_of(alloc, &*self.history)?;
        let step = step(alloc, word)?;
        let unrun = match self.history.call(alloc, operator(b"alice")?, step) {
            Ok(_) => return self.push_last(out),
            Err(unrun) => unrun,
        };
        if self.is_as_before(alloc, &before)? {
            self.call_again(alloc, unrun, word, out)
        } else {
            out.extend_from_slice(b"changed")
        }
    }

    /// Alice undoes or redoes a row.
    fn toggle(&mut self, alloc: Global, toggle: Toggle, n: u32) -> Result<(), CallError> {
        let alice = operator(b"alice")?;
        match toggle {
            Toggle::Undo => self.history.undo(alloc, alice, n)?,
            Toggle::Redo => self.history.redo(alloc, alice, n)?,
        };
        Ok(())
    }

    /// If memory ran out, undoes or redoes the row then.
    fn toggle_again(
        &mut self,
        alloc: Global,
        toggle: Toggle,
        n: u32,
        why: CallError,
        out: &mut Vec<u8>,
    ) -> Result<(), AllocError> {
        if why == CallError::Full {
            return out.extend_from_slice(b"full");
        }
        match self.toggle(alloc, toggle, n) {
            Ok(()) => self.push_last(out),
            Err(_) => out.extend_from_slice(TWICE),
        }
    }

    /// Alice's undo or redo of a row.
    fn answer_toggle(
        &mut self,
        alloc: Global,
        toggle: Toggle,
        n: u32,
        out: &mut Vec<u8>,
    ) -> Result<(), AllocError> {
        let before = text_of(alloc, &*self.history)?;
        let why = match self.toggle(alloc, toggle, n) {
            Ok(()) => return self.push_last(out),
            Err(why) => why,
        };
        if self.is_as_before(alloc, &before)? {
            self.toggle_again(alloc, toggle, n, why, out)
        } else {
            out.extend_from_slice(b"changed")
        }
    }

    fn plan(&mut self, alloc: Global, word: &[u8], out: &mut Vec<u8>) -> Result<(), AllocError> {
        self.plan = Some(planned(alloc, self.history.tree(), step(alloc, word)?)?);
        self.planned = Vec::from_slice(alloc, word)?;
        out.extend_from_slice(b"planned")
    }

    /// Bob commits the plan, which is kept if it makes no row.
    fn commit(&mut self, alloc: Global, out: &mut Vec<u8>) -> Result<(), AllocError> {
        let Some(plan) = self.plan.take() else {
            return out.extend_from_slice(b"no-plan");
        };
        let text = text_of_plan(alloc, &plan)?;
        let committing = self.committed_once_more(alloc, plan, out)?;
        push_committed(out, &committing)?;
        self.plan = kept_plan(alloc, committing)?;
        self.push_unless_kept(alloc, &text, out)
    }

    /// Commits the plan. If memory runs out, the plan that came back is committed, and what has
    /// changed is added.
    fn committed_once_more(
        &mut self,
        alloc: Global,
        plan: Box<Plan<Step>>,
        out: &mut Vec<u8>,
    ) -> Result<Box<Committing>, AllocError> {
        let before = text_of(alloc, &*self.history)?;
        let committing = committed(alloc, &mut self.history, plan)?;
        if !lacks_memory(&committing) {
            return Ok(committing);
        }
        if !self.is_as_before(alloc, &before)? {
            out.extend_from_slice(b"changed ")?;
        }
        match kept_plan(alloc, committing)? {
            Some(plan) => committed(alloc, &mut self.history, plan),
            None => Err(AllocError),
        }
    }

    /// Adds what is wrong, unless the plan that is kept, or the row of the one that isn't, is of the
    /// step and has the answer that the plan had.
    fn push_unless_kept(
        &self,
        alloc: Global,
        text: &[u8],
        out: &mut Vec<u8>,
    ) -> Result<(), AllocError> {
        let is_kept = match &self.plan {
            Some(plan) => text_of_plan(alloc, plan)?.as_slice() == text,
            None => self.has_row(alloc, text)?,
        };
        if is_kept {
            return Ok(());
        }
        out.extend_from_slice(b" another-plan")
    }

    /// Whether the last row is bob's, and is of the step of the plan and has its answer.
    fn has_row(&self, alloc: Global, text: &[u8]) -> Result<bool, AllocError> {
        let wanted = Request::Do(step(alloc, &self.planned)?);
        let Some(row) = self.history.rows().last() else {
            return Ok(false);
        };
        let mut reply = Vec::new(alloc);
        push_row(&mut reply, row)?;
        Ok(reply.as_slice() == text && row.request.same(&wanted))
    }

    /// The answer of the plan.
    fn answered(&self) -> &'static [u8] {
        match &self.plan {
            Some(plan) if matches!(plan.answer(), Answer::Refused(_)) => b"refused",
            Some(_) => b"accepted",
            None => b"no-plan",
        }
    }

    /// Takes apart the plan, which is of the step of a word.
    fn take_apart(
        &mut self,
        alloc: Global,
        word: &[u8],
        out: &mut Vec<u8>,
    ) -> Result<(), AllocError> {
        match self.plan.take() {
            Some(plan) => {
                let operation = Box::into_inner(plan).into_op();
                push_if_same(alloc, &operation, word, word, out)
            }
            None => out.extend_from_slice(b"no-plan"),
        }
    }

    /// Does what a word says, and adds the result.
    pub(crate) fn answer(
        &mut self,
        alloc: Global,
        word: &[u8],
        out: &mut Vec<u8>,
    ) -> Result<(), AllocError> {
        let (first, rest) = parts(word);
        if is(first, b"undo") {
            return self.answer_toggle(alloc, Toggle::Undo, number(rest), out);
        }
        if is(first, b"redo") {
            return self.answer_toggle(alloc, Toggle::Redo, number(rest), out);
        }
        if is(first, b"plan") {
            return self.plan(alloc, rest, out);
        }
        if is(first, b"commit") {
            return self.commit(alloc, out);
        }
        if is(first, b"answer") {
            return out.extend_from_slice(self.answered());
        }
        if is(first, b"take-apart") {
            return self.take_apart(alloc, rest, out);
        }
        if is(first, b"index") {
            return push_index(alloc, &self.history, out);
        }
        self.call(alloc, word, out)
    }

    /// Adds the results of the words of a script.
    fn play(&mut self, alloc: Global, script: &[u8], out: &mut Vec<u8>) -> Result<(), AllocError> {
        for word in script.split(|b| *b == b' ') {
            begin_word(out)?;
            self.answer(alloc, word, out)?;
        }
        Ok(())
    }

    /// Adds how many entries the first tree has, and how many the tree has now.
    fn push_entries(&self, out: &mut Vec<u8>) -> Result<(), AllocError> {
        out.extend_from_slice(b" / entries:")?;
        push_decimal(out, self.history.first().len())?;
        out.extend_from_slice(b" to:")?;
        push_decimal(out, self.history.tree().len())
    }
}

/// A plan. If memory runs out, it is made of the operation that came back.
fn planned(alloc: Global, tree: &Tree, step: Step) -> Result<Box<Plan<Step>>, AllocError> {
    let made = match Plan::make(alloc, step, tree) {
        Err(unrun) => Plan::make(alloc, unrun.operation, tree),
        plan => plan,
    };
    match made {
        Ok(plan) => Ok(Box::new(alloc, plan)?),
        Err(_) => Err(AllocError),
    }
}

/// What a commit returns.
type Committing = Result<Commit<Plan<Step>>, Uncommitted<Plan<Step>>>;

/// What is wrong if a call that is made again has too little memory: one growth alone is refused.
const TWICE: &[u8] = b"out-of-memory-twice";

/// What the row of a plan says once bob has committed it.
fn text_of_plan(alloc: Global, plan: &Plan<Step>) -> Result<Vec<u8>, AllocError> {
    let mut text = Vec::new(alloc);
    push_pair(&mut text, b"bob", b"")?;
    let reply = Box::new(alloc, RowReply::Answered(plan.answer().copy()?))?;
    push_reply(&mut text, &reply)?;
    Ok(text)
}

/// Bob commits a plan.
fn committed(
    alloc: Global,
    history: &mut History<Step>,
    plan: Box<Plan<Step>>,
) -> Result<Box<Committing>, AllocError> {
    let bob = operator(b"bob")?;
    let committing = history.commit(bob, Box::into_inner(plan));
    Ok(Box::new(alloc, committing)?)
}

/// Whether memory ran out for a commit.
fn lacks_memory(committing: &Committing) -> bool {
    match committing {
        Ok(_) => false,
        Err(left) => left.why == CallError::OutOfMemory,
    }
}

fn push_committed(out: &mut Vec<u8>, committing: &Committing) -> Result<(), AllocError> {
    match committing {
        Ok(Commit::Committed(n)) => push_numbered(out, b"row", *n),
        Ok(Commit::Stale { plan: _, at }) => push_pair(out, b"stale", unit_at(at)),
        Err(left) if left.why == CallError::Full => out.extend_from_slice(b"full"),
        Err(_) => out.extend_from_slice(TWICE),
    }
}

/// The plan, if it made no row.
fn kept_plan(
    alloc: Global,
    committing: Box<Committing>,
) -> Result<Option<Box<Plan<Step>>>, AllocError> {
    match Box::into_inner(committing) {
        Ok(Commit::Committed(_)) => Ok(None),
        Ok(Commit::Stale { plan, at: _ }) => Ok(Some(Box::new(alloc, plan)?)),
        Err(left) => Ok(Some(Box::new(alloc, left.plan)?)),
    }
}

/// Adds a word for a step that came back, if it is the step of the word.
fn push_if_same(
    alloc: Global,
    operation: &Step,
    word: &[u8],
    said: &[u8],
    out: &mut Vec<u8>,
) -> Result<(), AllocError> {
    if operation.same(&step(alloc, word)?) {
        out.extend_from_slice(said)
    } else {
        out.extend_from_slice(b"another-step")
    }
}

/// The results of the words of a script on a history of the empty tree, and how many entries the
/// first tree and the last one have.
pub(crate) fn said(alloc: Global, is_short: bool, script: &[u8]) -> Result<Vec<u8>, AllocError> {
    let mut out = Vec::new(alloc);
    let mut bench = Bench::new(alloc, is_short)?;
    bench.play(alloc, script, &mut out)?;
    bench.push_entries(&mut out)?;
    Ok(out)
}
