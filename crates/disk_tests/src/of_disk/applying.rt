//! Making steps on a disk that fails at each call in turn.
use super::fake::{Failing, Fake};
use disk::{ApplyError, Oddity, StepError, apply};
use link_tree::{Change, Tree};
use sample_rows::{Row, assert_rows};
use sample_values::tree;
use std::alloc::{AllocError, Global};
use std::test::Fail;
use tree_steps::{are_same, steps_between};

const OLD: &[u8] = b"unitadm-inventory 1
L\t/etc/systemd/system/a.service\tb.service
F\t1\t/etc/systemd/system/b.service
b
end
";

/// The result of three steps from the tree above: `c.service` is put, `a.service` becomes another
/// link, `b.service` is removed.
const NEW: &[u8] = b"unitadm-inventory 1
L\t/etc/systemd/system/a.service\tc.service
F\t1\t/etc/systemd/system/c.service
c
end
";

/// The first tree, except for the bytes of the file that is removed last.
const OTHER: &[u8] = b"unitadm-inventory 1
L\t/etc/systemd/system/a.service\tb.service
F\t1\t/etc/systemd/system/b.service
B
end
";

const ROWS: &[u8] = b"\
    # there, back: what three steps result in from OLD to NEW, and from NEW to OLD, if the calls\n\
    # ONE of the disk fail: `3`, that one; `3 on`, that one and all after it; `3 5`, both. Behind\n\
    # that are the tree that the disk holds now, how many calls failed, and how often something\n\
    # was put or removed.\n\
    there\t\t\tdone; new tree, failed calls 0, changes 3\n\
    back\t\t\tdone; new tree, failed calls 0, changes 3\n\
    # Each path is looked at, and then each is looked at again and changed: nine calls. One\n\
    # fails, and what was made is taken back.\n\
    there\t0\t\tstep 0: disk failure; old tree, failed calls 1, changes 0\n\
    there\t1\t\tstep 1: disk failure; old tree, failed calls 1, changes 0\n\
    there\t2\t\tstep 2: disk failure; old tree, failed calls 1, changes 0\n\
    there\t3\t\tstep 0: disk failure; old tree, failed calls 1, changes 0\n\
    there\t4\t\tstep 0: disk failure; old tree, failed calls 1, changes 0\n\
    there\t5\t\tstep 1: disk failure; old tree, failed calls 1, changes 2\n\
    there\t6\t\tstep 1: disk failure; old tree, failed calls 1, changes 2\n\
    there\t7\t\tstep 2: disk failure; old tree, failed calls 1, changes 4\n\
    there\t8\t\tstep 2: disk failure; old tree, failed calls 1, changes 4\n\
    there\t9\t\tdone; new tree, failed calls 0, changes 3\n\
    # there from another: the disk holds OTHER. The last step is not from what is there, so\n\
    # nothing is changed.\n\
    there from another\t\t\tstep 2: changed meanwhile; old tree, failed calls 0, changes 0\n\
    # there twice: all steps come a second time. The first of these is not due when its turn\n\
    # comes, and the first three are taken back.\n\
    there twice\t\t\tstep 3: changed meanwhile; old tree, failed calls 0, changes 6\n\
    # there among directories: a directory is where a file is to be put.\n\
    there among directories\t\t\t\
        step 0: neither a file nor a link; old tree, failed calls 0, changes 0\n";

/// What steps resulted in.
#[derive(Clone, Copy)]
struct Outcome {
    applied: Result<(), ApplyError>,
    is_old: bool,
    is_new: bool,
    failures: u64,
    changes: u32,
}

fn is_memory_gone(applied: Result<(), ApplyError>) -> bool {
    match applied {
        Ok(()) => false,
        Err(ApplyError::TakenBack { step: _, why }) => why == StepError::OutOfMemory,
        Err(
            ApplyError::HalfDone {
                step: _,
                why,
                made: _,
                back,
            },
        ) => why == StepError::OutOfMemory || back == StepError::OutOfMemory,
    }
}

/// Inventories: of the tree that the disk holds, and of the two trees between which the steps are.
#[derive(Clone, Copy)]
struct Way {
    held: &'static [u8],
    old: &'static [u8],
    new: &'static [u8],
    /// Whether all steps are made twice.
    is_repeated: bool,
    /// The odd thing that is at every path without an entry.
    odd: Option<Oddity>,
}

const THERE: Way = Way {
    held: OLD,
    old: OLD,
    new: NEW,
    is_repeated: false,
    odd: None,
};

const BACK: Way = Way {
    held: NEW,
    old: NEW,
    new: OLD,
    ..THERE
};

const FROM_OTHER: Way = Way {
    held: OTHER,
    ..THERE
};

const TWICE: Way = Way {
    is_repeated: true,
    ..THERE
};

const AMONG_DIRECTORIES: Way = Way {
    odd: Some(Oddity::Directory),
    ..THERE
};

fn steps_of(alloc: Global, way: Way, new: &Tree) -> Result<Vec<Change>, AllocError> {
    let old = tree(alloc, way.old)?;
    let mut steps = steps_between(alloc, &old, new)?;
    if way.is_repeated {
        let mut again = steps_between(alloc, &old, new)?;
        steps.append(&mut again)?;
    }
    Ok(steps)
}

fn made(
    alloc: Global,
    way: Way,
    failing: Failing,
    held: &Tree,
    new: &Tree,
    steps: &[Change],
) -> Result<Outcome, AllocError> {
    let mut disk = Box::new(alloc, Fake::new(held.share()?, failing))?;
    disk.odd = way.odd;
    let applied = apply(alloc, &mut *disk, steps);
    if is_memory_gone(applied) {
        return Err(AllocError);
    }
    Ok(Outcome {
        applied,
        is_old: are_same(&disk.tree, held),
        is_new: are_same(&disk.tree, new),
        failures: disk.failures,
        changes: disk.changes,
    })
}

/// What making the steps resulted in.
fn between(alloc: Global, way: Way, failing: Failing) -> Result<Outcome, AllocError> {
    let held = tree(alloc, way.held)?;
    let new = tree(alloc, way.new)?;
    let steps = steps_of(alloc, way, &new)?;
    made(alloc, way, failing, &held, &new, &steps)
}

fn tree_word(outcome: Outcome) -> &'static str {
    match (outcome.is_old, outcome.is_new) {
        (true, false) => "old",
        (false, true) => "new",
        (false, false) => "neither",
        (true, true) => "same",
    }
}

fn text_of(alloc: Global, outcome: Outcome) -> Result<Vec<u8>, AllocError> {
    let mut text = match outcome.applied {
        Ok(()) => format!(in alloc; "done")?.into_bytes(),
        Err(error) => format!(in alloc; "{error}")?.into_bytes(),
    };
    let tree = tree_word(outcome);
    let failures = outcome.failures;
    let changes = outcome.changes;
    let rest = format!(in alloc; "; {tree} tree, failed calls {failures}, changes {changes}")?;
    text.extend_from_slice(rest.as_bytes())?;
    Ok(text)
}

fn number(digits: &[u8]) -> u32 {
    let mut number = 0u32;
    for digit in digits {
        number = number
            .wrapping_mul(10)
            .wrapping_add(u32::from(digit.wrapping_sub(b'0')));
    }
    number
}

fn failing(text: &[u8]) -> Failing {
    let mut words = text.split(|b| *b == b' ');
    let first = words.next().unwrap_or(b"");
    if first.is_empty() {
        return Failing::NEVER;
    }
    match words.next() {
        None => Failing::once(number(first)),
        Some(b"on") => Failing::from(number(first)),
        Some(again) => Failing::twice(number(first), number(again)),
    }
}

fn way_named(word: &[u8]) -> Option<Way> {
    if word == b"there".as_slice() {
        return Some(THERE);
    }
    if word == b"back".as_slice() {
        return Some(BACK);
    }
    if word == b"there from another".as_slice() {
        return Some(FROM_OTHER);
    }
    if word == b"there twice".as_slice() {
        return Some(TWICE);
    }
    if word == b"there among directories".as_slice() {
        return Some(AMONG_DIRECTORIES);
    }
    None
}

fn answer(alloc: Global, row: &Row) -> Result<Vec<u8>, AllocError> {
    let Some(way) = way_named(&row.kind) else {
        return Vec::from_slice(alloc, b"unknown kind");
    };
    let outcome = between(alloc, way, failing(&row.one))?;
    text_of(alloc, outcome)
}

#[test]
fn steps_are_made_or_taken_back(rt: HostRuntime) -> Result<(), Fail> {
    assert_rows(rt.alloc(), ROWS, answer)
}

const HALF_DONE: &[u8] = b"\
    # One call fails, and all after it: so the way back fails too, if there is one.\n\
    there\t0 on\t\tstep 0: disk failure; old tree, failed calls 1, changes 0\n\
    there\t1 on\t\tstep 1: disk failure; old tree, failed calls 1, changes 0\n\
    there\t2 on\t\tstep 2: disk failure; old tree, failed calls 1, changes 0\n\
    there\t3 on\t\tstep 0: disk failure; old tree, failed calls 1, changes 0\n\
    there\t4 on\t\tstep 0: disk failure; old tree, failed calls 1, changes 0\n\
    there\t5 on\t\t\
        step 1: disk failure; half done, 1 steps are made: disk failure; neither tree, failed \
        calls 2, changes 1\n\
    there\t6 on\t\t\
        step 1: disk failure; half done, 1 steps are made: disk failure; neither tree, failed \
        calls 2, changes 1\n\
    there\t7 on\t\t\
        step 2: disk failure; half done, 2 steps are made: disk failure; neither tree, failed \
        calls 2, changes 2\n\
    there\t8 on\t\t\
        step 2: disk failure; half done, 2 steps are made: disk failure; neither tree, failed \
        calls 2, changes 2\n\
    # The last call fails, and one more on the way back: what was taken back until then stays so.\n\
    there\t8 9\t\t\
        step 2: disk failure; half done, 2 steps are made: disk failure; neither tree, failed \
        calls 2, changes 2\n\
    there\t8 10\t\t\
        step 2: disk failure; half done, 2 steps are made: disk failure; neither tree, failed \
        calls 2, changes 2\n\
    there\t8 11\t\t\
        step 2: disk failure; half done, 1 steps are made: disk failure; neither tree, failed \
        calls 2, changes 3\n\
    there\t8 12\t\t\
        step 2: disk failure; half done, 1 steps are made: disk failure; neither tree, failed \
        calls 2, changes 3\n\
    there\t8 13\t\tstep 2: disk failure; old tree, failed calls 1, changes 4\n\
    there\t8 14\t\tstep 2: disk failure; old tree, failed calls 1, changes 4\n";

#[test]
fn half_done_is_reported(rt: HostRuntime) -> Result<(), Fail> {
    assert_rows(rt.alloc(), HALF_DONE, answer)
}
