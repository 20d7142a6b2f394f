//! A plan of a question on a shared history of real commands, which is stale when it is committed.

use crate::lines::action;
use crate::plans::operator;
use footprint::{Answer, Key};
use history::{CallError, Plan, Uncommitted, Unrun};
use link_tree::push_decimal;
use sample_rows::assert_rows;
use sample_values::tree;
use shared_admin::{Operators, Settled, SharedAdmin, plan};
use std::alloc::{AllocError, Global};
use std::sync::Wait;
use std::test::Fail;
use unit_script::Action;

/// How many units the question's answer names, and what the commit of its plan returns.
const ROWS: &[u8] = b"stale question\t\t\t2 named, stale at links\n";

/// A unit that depends on two others.
const LINKS: &[u8] = b"unitadm-inventory 1\n\
    L\t/etc/systemd/system/a.target.wants/b.service\t/usr/lib/systemd/system/b.service\n\
    L\t/etc/systemd/system/a.target.wants/c.service\t/usr/lib/systemd/system/c.service\n\
    end\n";

/// The question on which units the target depends. It looks at the links of dependencies, and at
/// nothing else.
const QUESTION: &[u8] = b"alice dependencies a.target";

/// Removes one of the links.
const REMOVAL: &[u8] = b"bob remove /etc/systemd/system/a.target.wants/b.service";

fn operators(alloc: Global) -> Result<Operators, AllocError> {
    let mut operators = Operators::none(alloc);
    operators.push(operator(b"alice")?)?;
    operators.push(operator(b"bob")?)?;
    Ok(operators)
}

/// A history of that tree, shared by alice and bob.
fn shared(alloc: Global) -> Result<Box<SharedAdmin<Action>>, AllocError> {
    let first = Box::into_inner(tree(alloc, LINKS)?);
    match SharedAdmin::new(alloc, first, operators(alloc)?) {
        Ok(admin) => Ok(Box::new(alloc, admin)?),
        Err(_) => Err(AllocError),
    }
}

/// The plan that results from planning.
fn plan_of(
    alloc: Global,
    planned: Box<Result<Plan<Action>, Unrun<Action>>>,
) -> Result<Box<Plan<Action>>, AllocError> {
    match Box::into_inner(planned) {
        Ok(plan) => Ok(Box::new(alloc, plan)?),
        Err(_) => Err(AllocError),
    }
}

/// A plan of the question on the tree as it is.
fn planned(
    rt: &impl Wait,
    alloc: Global,
    admin: &SharedAdmin<Action>,
) -> Result<Box<Plan<Action>>, AllocError> {
    let snapshot = Box::new(alloc, admin.snapshot(rt)?)?;
    let question = Box::into_inner(action(alloc, QUESTION)?);
    plan_of(alloc, Box::new(alloc, plan(alloc, &snapshot, question))?)
}

/// Bob removes one of the links.
fn remove(rt: &impl Wait, alloc: Global, admin: &SharedAdmin<Action>) -> Result<(), AllocError> {
    let bob = operator(b"bob")?;
    let removal = Box::into_inner(action(alloc, REMOVAL)?);
    let called = Box::new(alloc, admin.call(rt, alloc, bob, removal))?;
    if called.is_ok() {
        return Ok(());
    }
    Err(AllocError)
}

/// How many units an answer names.
fn count_named(answer: &Answer) -> usize {
    match answer {
        Answer::Names(names) => names.as_slice().len(),
        Answer::Done(_) | Answer::State(_) | Answer::Name(_) | Answer::Refused(_) => 0,
    }
}

/// What a commit returns.
type Settling = Result<Settled<Plan<Action>>, Uncommitted<Plan<Action>>>;

/// Alice's commit of a plan.
fn committed(
    rt: &impl Wait,
    alloc: Global,
    admin: &SharedAdmin<Action>,
    plan: Box<Plan<Action>>,
) -> Result<Box<Settling>, AllocError> {
    let alice = operator(b"alice")?;
    let settling = admin.commit(rt, alice, Box::into_inner(plan));
    Ok(Box::new(alloc, settling)?)
}

fn word_of(settling: &Settling) -> &'static [u8] {
    match settling {
        Ok(Settled::Committed(_)) => b"committed",
        Ok(
            Settled::Stale {
                plan: _,
                at: Key::Links,
            },
        ) => b"stale at links",
        Ok(Settled::Stale { plan: _, at: _ }) => b"stale",
        Err(left) if left.why == CallError::Full => b"full",
        Err(_) => b"out of memory",
    }
}

/// How many units the question's answer names, and what the commit of its plan returns once bob has
/// removed a link.
fn said(rt: &impl Wait, alloc: Global) -> Result<Vec<u8>, AllocError> {
    let admin = shared(alloc)?;
    let plan = planned(rt, alloc, &admin)?;
    let mut out = Vec::new(alloc);
    push_decimal(&mut out, count_named(plan.answer()))?;
    remove(rt, alloc, &admin)?;
    out.extend_from_slice(b" named, ")?;
    let settling = committed(rt, alloc, &admin, plan)?;
    out.extend_from_slice(word_of(&settling))?;
    Ok(out)
}

/// The commit takes no memory, since the key has no path and the answer isn't copied. It isn't
/// tried again, so that the row has another result if it takes some.
#[test]
fn a_commit_of_a_stale_plan_copies_no_answer(rt: HostRuntime) -> Result<(), Fail> {
    assert_rows(rt.alloc(), ROWS, |alloc, _row| said(&rt, alloc))
}
