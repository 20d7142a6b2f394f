//! Five hundred random histories: each surviving row with the rows that must be undone so that it
//! is, which are compared with what undos are refused for.
use crate::histories::{order, played, redo, undo};
use history::History;
use link_tree::push_decimal;
use std::alloc::{AllocError, Global};
use std::test::Fail;
use unit_script::Action;

/// What is called, on few units, so that the calls look at what others changed. The number of a row
/// is added to an undo and to a redo.
const CALLS: [&[u8]; 32] = [
    b"mask a.service",
    b"mask b.service",
    b"mask c.service",
    b"mask a.service c.service",
    b"mask a.service b.service c.service",
    b"unmask a.service",
    b"unmask b.service",
    b"unmask c.service",
    b"unmask a.service b.service",
    b"unmask b.service c.service",
    b"enable a.service",
    b"enable b.service",
    b"enable --runtime a.service",
    b"disable a.service",
    b"disable b.service",
    b"reenable b.service",
    b"preset a.service",
    b"add-wants m.target c.service",
    b"add-requires m.target a.service b.service",
    b"add-wants a.service d.service",
    b"set-default m.target",
    b"place /etc/systemd/system/d.service file",
    b"place /run/systemd/system/c.service file",
    b"remove /etc/systemd/system/d.service",
    b"remove /etc/systemd/system/c.service",
    b"is-enabled a.service",
    b"dependencies m.target",
    b"undo ",
    b"undo ",
    b"undo ",
    b"redo ",
    b"redo ",
];

fn next(random: u32) -> u32 {
    random.wrapping_mul(1_664_525).wrapping_add(1_013_904_223)
}

/// A number from 0 that is less than this one, by the upper bits of a random number.
fn below(random: u32, end: u32) -> u32 {
    (u64::from(random).wrapping_mul(u64::from(end)) >> 32) as u32
}

/// Adds a call, before which there are this many.
fn push_call(random: &mut u32, before: u32, script: &mut Vec<u8>) -> Result<(), AllocError> {
    let call = CALLS[(*random >> 27) as usize];
    *random = next(*random);
    if before != 0 {
        script.extend_from_slice(b";")?;
    }
    script.extend_from_slice(b"alice ")?;
    script.extend_from_slice(call)?;
    if call.ends_with(b"do ") {
        push_decimal(script, below(*random, before) as usize + 1)?;
        *random = next(*random);
    }
    Ok(())
}

/// A script of 10 to 60 calls.
fn script(alloc: Global, random: &mut u32) -> Result<Vec<u8>, AllocError> {
    let mut script = Vec::new(alloc);
    *random = next(*random);
    let calls = below(*random, 51).saturating_add(10);
    *random = next(*random);
    for before in 0..calls {
        push_call(random, before, &mut script)?;
    }
    Ok(script)
}

/// The numbers of the rows that survive.
fn survivors(alloc: Global, history: &History<Action>) -> Result<Vec<u32>, AllocError> {
    let mut numbers = Vec::new(alloc);
    for (before, row) in history.rows().iter().enumerate() {
        if row.survives() {
            numbers.push((before as u32).saturating_add(1))?;
        }
    }
    Ok(numbers)
}

/// Undoes each row in this order: whether none is refused.
fn undo_each(
    alloc: Global,
    history: &mut History<Action>,
    numbers: &[u32],
) -> Result<bool, AllocError> {
    for n in numbers {
        if !undo(alloc, history, *n)? {
            return Ok(false);
        }
    }
    Ok(true)
}

/// Redoes each row, the last one first: whether none is refused.
fn redo_each(
    alloc: Global,
    history: &mut History<Action>,
    numbers: &[u32],
) -> Result<bool, AllocError> {
    for n in numbers.iter().rev() {
        if !redo(alloc, history, *n)? {
            return Ok(false);
        }
    }
    Ok(true)
}

/// Whether the rows that survive are those of before, without these.
fn are_without(before: &[u32], without: &[u32], now: &[u32]) -> bool {
    before
        .iter()
        .all(|n| without.contains(n) != now.contains(n))
        && now.iter().all(|n| before.contains(n))
}

/// Undoes these rows in this order, and redoes them in the other one: whether no call is refused,
/// and between them all others survive as before.
fn are_undone_alone(
    alloc: Global,
    history: &mut History<Action>,
    numbers: &[u32],
) -> Result<bool, AllocError> {
    let before = survivors(alloc, history)?;
    if !undo_each(alloc, history, numbers)? {
        return Ok(false);
    }
    let between = survivors(alloc, history)?;
    let are_back = redo_each(alloc, history, numbers)?;
    Ok(are_back && are_without(&before, numbers, &between))
}

/// Undoes row n, and before each row those that its undo is refused for, one after another: the
/// rows in the order in which they are undone.
fn undo_by_blockers(
    alloc: Global,
    history: &mut History<Action>,
    n: u32,
) -> Result<Vec<u32>, AllocError> {
    let mut undone = Vec::new(alloc);
    let mut waiting = Vec::new(alloc);
    waiting.push(n)?;
    for _turn in 0..200 {
        let Some(last) = waiting.last().copied() else {
            break;
        };
        match history.blocker(last) {
            Some(later) => waiting.push(later)?,
            None => {
                if !undo(alloc, history, last)? {
                    break;
                }
                undone.push(last)?;
                waiting.pop();
            }
        }
    }
    Ok(undone)
}

/// Whether these are the rows that are undone by blockers, in whatever order.
fn are_those_of_blockers(
    alloc: Global,
    history: &mut History<Action>,
    n: u32,
    numbers: &[u32],
) -> Result<bool, AllocError> {
    let undone = undo_by_blockers(alloc, history, n)?;
    let are_back = redo_each(alloc, history, &undone)?;
    Ok(are_back && undone.len() == numbers.len() && undone.iter().all(|m| numbers.contains(m)))
}

/// What was found for a row.
enum Found {
    /// The row must be undone alone.
    Alone,
    /// Others must be undone before it.
    WithOthers,
    Wrong,
}

fn found_for(alloc: Global, history: &mut History<Action>, n: u32) -> Result<Found, AllocError> {
    let Ok(numbers) = order(alloc, history, n)? else {
        return Ok(Found::Wrong);
    };
    if !are_undone_alone(alloc, history, &numbers)?
        || !are_those_of_blockers(alloc, history, n, &numbers)?
    {
        return Ok(Found::Wrong);
    }
    Ok(if numbers.len() == 1 {
        Found::Alone
    } else {
        Found::WithOthers
    })
}

/// How many rows were found to be undone alone, with others, or wrongly.
#[derive(Clone, Copy)]
struct Counts {
    alone: u32,
    with_others: u32,
    wrong: u32,
}

impl Counts {
    fn count(&mut self, found: Found) {
        match found {
            Found::Alone => self.alone = self.alone.saturating_add(1),
            Found::WithOthers => self.with_others = self.with_others.saturating_add(1),
            Found::Wrong => self.wrong = self.wrong.saturating_add(1),
        }
    }
}

/// Counts what is found for each surviving row of a random history.
fn count_rows(alloc: Global, random: &mut u32, counts: &mut Counts) -> Result<(), AllocError> {
    let script = script(alloc, random)?;
    let mut history = played(alloc, &script)?;
    for n in survivors(alloc, &history)? {
        let found = found_for(alloc, &mut history, n)?;
        counts.count(found);
    }
    Ok(())
}

fn counted(alloc: Global) -> Result<Counts, AllocError> {
    let mut random = 1;
    let mut counts = Counts {
        alone: 0,
        with_others: 0,
        wrong: 0,
    };
    for _history in 0..500 {
        count_rows(alloc, &mut random, &mut counts)?;
    }
    Ok(counts)
}

#[test]
fn what_undos_are_refused_for_must_be_undone(rt: HostRuntime) -> Result<(), Fail> {
    let counts = counted(rt.alloc())?;
    assert_eq!(rt; counts.wrong, 0);
    assert!(rt; counts.alone > 500, "{}", counts.alone);
    assert!(rt; counts.with_others > 500, "{}", counts.with_others);
    Ok(())
}
