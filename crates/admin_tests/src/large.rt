//! Random scripts of events, against a plain machine that runs everything again for each reply.

use crate::events::said;
use link_tree::push_decimal;
use sample_steps::{begin_word, is, number, parts, push_numbered, push_pair};
use std::alloc::{AllocError, Global};
use std::process::Abort;
use std::test::Fail;

mod snapshots;

const SCRIPTS: u32 = 200;

const EVENTS: usize = 48;

fn next(random: u32) -> u32 {
    random.wrapping_mul(1_664_525).wrapping_add(1_013_904_223)
}

const SLOTS: [&[u8]; 3] = [b"0", b"7", b"15"];

const VERBS: [&[u8]; 6] = [b"put", b"put", b"remove", b"remove", b"look", b"ask"];

const UNITS: [&[u8]; 3] = [b"a", b"b", b"c"];

/// The word that a number chooses.
fn chosen(words: &[&'static [u8]], number: u32) -> &'static [u8] {
    let at = (number as usize).checked_rem(words.len()).unwrap_or(0);
    words.get(at).copied().unwrap_or(b"?")
}

/// Adds the word that the upper bits of a random number make: of thirteen, two are a snapshot, two
/// a plan, two a commit, three a call, two an undo, and two a redo.
fn push_word(random: u32, script: &mut Vec<u8>) -> Result<(), AllocError> {
    let bits = random >> 8;
    let slot = chosen(&SLOTS, bits / 13);
    let verb = chosen(&VERBS, bits / 39);
    let unit = chosen(&UNITS, bits / 234);
    match bits % 13 {
        0 | 1 => push_pair(script, b"snapshot", slot),
        2 | 3 => {
            push_pair(script, b"plan", slot)?;
            push_pair(script, b"", verb)?;
            push_pair(script, b"", unit)
        }
        4 | 5 => push_pair(script, b"alice:commit", slot),
        9 | 10 => push_numbered(script, b"bob:undo", bits / 702 % 9),
        11 | 12 => push_numbered(script, b"bob:redo", bits / 702 % 9),
        _ => {
            push_pair(script, b"bob", verb)?;
            push_pair(script, b"", unit)
        }
    }
}

fn script(alloc: Global, seed: u32) -> Result<Vec<u8>, AllocError> {
    let mut random = seed;
    let mut script = Vec::new(alloc);
    for _ in 0..EVENTS {
        begin_word(&mut script)?;
        random = next(random);
        push_word(random, &mut script)?;
    }
    Ok(script)
}

#[derive(Clone, Copy, PartialEq, Eq)]
enum Verb {
    Put,
    Remove,
    Look,
    Ask,
    Undo,
    Redo,
}

fn verb_of(word: &[u8]) -> Verb {
    if is(word, b"put") {
        return Verb::Put;
    }
    if is(word, b"remove") {
        return Verb::Remove;
    }
    if is(word, b"look") {
        return Verb::Look;
    }
    Verb::Ask
}

/// The verb and the unit of a step.
fn step_of(word: &[u8]) -> (Verb, u8) {
    let (verb, unit) = parts(word);
    (verb_of(verb), unit.first().copied().unwrap_or(b'?'))
}

/// What a row says.
#[derive(Clone, Copy)]
enum Said {
    Done,
    Exists,
    Absent,
    Static,
    Undid(u32),
    NoSuchRow,
    NotACommand,
    AlreadyUndone(u32),
    Blocked(u32),
    Redid(u32),
    NoRowToRedo,
    NoCommandToRedo,
    NotUndone,
    Hindered(u32),
}

impl Said {
    /// Whether it says that row `n` was undone.
    fn is_undo_of(self, n: u32) -> bool {
        matches!(self, Said::Undid(undone) if undone == n)
    }

    /// Whether it says that row `n` was redone.
    fn is_redo_of(self, n: u32) -> bool {
        matches!(self, Said::Redid(redone) if redone == n)
    }
}

/// A row: the operator, the step, and what it says.
#[derive(Clone, Copy)]
struct PlainRow {
    operator: &'static [u8],
    verb: Verb,
    unit: u8,
    said: Said,
    /// The row that undid it, if it is undone, or 0.
    undone_by: u32,
}

impl PlainRow {
    /// Whether it is an accepted command.
    fn is_command(&self) -> bool {
        matches!(self.said, Said::Done)
    }

    fn survives(&self) -> bool {
        self.is_command() && self.undone_by == 0
    }

    /// Whether it is an accepted command that changed the slot of a unit.
    fn changed(&self, unit: u8) -> bool {
        self.is_command() && self.verb != Verb::Look && self.unit == unit
    }

    fn push(&self, out: &mut Vec<u8>) -> Result<(), AllocError> {
        push_pair(out, self.operator, b"")?;
        match self.said {
            Said::Done => out.extend_from_slice(b"ok"),
            Said::Exists => push_pair(out, b"exists", &[self.unit]),
            Said::Absent => push_pair(out, b"absent", &[self.unit]),
            Said::Static => out.extend_from_slice(b"static"),
            Said::Undid(n) => push_numbered(out, b"undid", n),
            Said::NoSuchRow => out.extend_from_slice(b"no-such-row"),
            Said::NotACommand => out.extend_from_slice(b"not-a-command"),
            Said::AlreadyUndone(by) => push_numbered(out, b"already-undone", by),
            Said::Blocked(by) => push_numbered(out, b"blocked", by),
            Said::Redid(n) => push_numbered(out, b"redid", n),
            Said::NoRowToRedo => out.extend_from_slice(b"no-row-to-redo"),
            Said::NoCommandToRedo => out.extend_from_slice(b"no-command-to-redo"),
            Said::NotUndone => out.extend_from_slice(b"not-undone"),
            Said::Hindered(by) => push_numbered(out, b"hindered", by),
        }
    }
}

fn bit(unit: u8) -> u8 {
    match unit {
        b'a' => 1,
        b'b' => 2,
        _ => 4,
    }
}

/// The units at whose slots a file is, a bit each, when all surviving commands have run again.
fn present(rows: &[PlainRow]) -> u8 {
    let mut units = 0u8;
    for row in rows {
        if row.survives() {
            units = match row.verb {
                Verb::Put => units | bit(row.unit),
                Verb::Remove => units & !bit(row.unit),
                Verb::Look | Verb::Ask | Verb::Undo | Verb::Redo => units,
            };
        }
    }
    units
}

fn has(units: u8, unit: u8) -> bool {
    units & bit(unit) != 0
}

/// The first surviving command after row `n` that looked at the slot of a unit, or 0.
fn first_later(rows: &[PlainRow], n: u32, unit: u8) -> u32 {
    let mut number: u32 = 0;
    for row in rows {
        number = number.wrapping_add(1);
        if number > n && row.survives() && row.unit == unit {
            return number;
        }
    }
    0
}

/// What an undo of row `n` says.
fn said_of_undo(rows: &[PlainRow], n: u32) -> Said {
    let Some(row) = rows.get((n as usize).wrapping_sub(1)) else {
        return Said::NoSuchRow;
    };
    if !row.is_command() {
        return Said::NotACommand;
    }
    if row.undone_by != 0 {
        return Said::AlreadyUndone(row.undone_by);
    }
    let blocker = first_later(rows, n, row.unit);
    if row.verb != Verb::Look && blocker != 0 {
        Said::Blocked(blocker)
    } else {
        Said::Undid(n)
    }
}

/// Whether row `n` was undone, and not redone since, when row `later` was made.
fn was_undone(rows: &[PlainRow], n: u32, later: u32) -> bool {
    let mut is_undone = false;
    let mut number: u32 = 0;
    for row in rows {
        number = number.wrapping_add(1);
        if number < later {
            is_undone = (is_undone || row.said.is_undo_of(n)) && !row.said.is_redo_of(n);
        }
    }
    is_undone
}

/// The first command before row `n` that changed the slot at which row `n` looked, and that
/// survives now but didn't when row `n` was undone, or survived then but not now; or 0.
fn first_flipped(rows: &[PlainRow], n: u32, undone: &PlainRow) -> u32 {
    let mut number: u32 = 0;
    for row in rows {
        number = number.wrapping_add(1);
        if number < n
            && row.changed(undone.unit)
            && row.survives() == was_undone(rows, number, undone.undone_by)
        {
            return number;
        }
    }
    0
}

/// The row that hinders a redo of row `n`, which is undone, or 0.
fn hindrance(rows: &[PlainRow], n: u32, undone: &PlainRow) -> u32 {
    let flipped = first_flipped(rows, n, undone);
    if flipped != 0 || undone.verb == Verb::Look {
        flipped
    } else {
        first_later(rows, n, undone.unit)
    }
}

/// What a redo of row `n` says.
fn said_of_redo(rows: &[PlainRow], n: u32) -> Said {
    let Some(row) = rows.get((n as usize).wrapping_sub(1)) else {
        return Said::NoRowToRedo;
    };
    if !row.is_command() {
        return Said::NoCommandToRedo;
    }
    if row.undone_by == 0 {
        return Said::NotUndone;
    }
    let hindrance = hindrance(rows, n, row);
    if hindrance != 0 {
        Said::Hindered(hindrance)
    } else {
        Said::Redid(n)
    }
}

/// What a step says if a file is at its slot, or none.
fn said_of_step(verb: Verb, there: bool) -> Said {
    match (verb, there) {
        (Verb::Ask, _) => Said::Static,
        (Verb::Put, true) => Said::Exists,
        (Verb::Remove, false) => Said::Absent,
        _ => Said::Done,
    }
}

fn mark(rows: &mut [PlainRow], n: u32, by: u32) {
    if let Some(row) = rows.get_mut((n as usize).wrapping_sub(1)) {
        row.undone_by = by;
    }
}

/// What a slot keeps: the units at whose slots a file was, and a step with whether it saw a file.
#[derive(Clone, Copy)]
struct PlainSlot {
    snapshot: Option<u8>,
    plan: Option<(Verb, u8, bool)>,
}

const EMPTY: PlainSlot = PlainSlot {
    snapshot: None,
    plan: None,
};

/// Which of the slots in use a number names.
fn place(number: &[u8]) -> usize {
    if is(number, b"0") {
        return 0;
    }
    if is(number, b"7") { 1 } else { 2 }
}

#[derive(Drop)]
struct Plain {
    rows: Vec<PlainRow>,
    slots: [PlainSlot; 3],
    out: Vec<u8>,
}

impl Plain {
    fn new(alloc: Global) -> Plain {
        Plain {
            rows: Vec::new(alloc),
            slots: [EMPTY; 3],
            out: Vec::new(alloc),
        }
    }

    /// How many rows there are.
    fn count(&self) -> u32 {
        u32::try_from(self.rows.len()).unwrap_or(0)
    }

    fn say(&mut self, word: &[u8]) -> Result<(), AllocError> {
        self.out.extend_from_slice(word)
    }

    fn add(
        &mut self,
        operator: &'static [u8],
        verb: Verb,
        unit: u8,
        said: Said,
    ) -> Result<(), AllocError> {
        self.rows.push(PlainRow {
            operator,
            verb,
            unit,
            said,
            undone_by: 0,
        })?;
        let count = self.count();
        push_numbered(&mut self.out, b"row", count)
    }

    fn call(&mut self, operator: &'static [u8], verb: Verb, unit: u8) -> Result<(), AllocError> {
        let said = said_of_step(verb, has(present(&self.rows), unit));
        self.add(operator, verb, unit, said)
    }

    fn undo(&mut self, n: u32) -> Result<(), AllocError> {
        let said = said_of_undo(&self.rows, n);
        let by = self.count().wrapping_add(1);
        if said.is_undo_of(n) {
            mark(&mut self.rows, n, by);
        }
        self.add(b"bob", Verb::Undo, b'?', said)
    }

    fn redo(&mut self, n: u32) -> Result<(), AllocError> {
        let said = said_of_redo(&self.rows, n);
        if said.is_redo_of(n) {
            mark(&mut self.rows, n, 0);
        }
        self.add(b"bob", Verb::Redo, b'?', said)
    }

    /// What a slot keeps.
    fn kept(&self, slot: &[u8]) -> PlainSlot {
        self.slots.get(place(slot)).copied().unwrap_or(EMPTY)
    }

    fn keep(&mut self, slot: &[u8], kept: PlainSlot) {
        if let Some(there) = self.slots.get_mut(place(slot)) {
            *there = kept;
        }
    }

    fn snap(&mut self, slot: &[u8]) -> Result<(), AllocError> {
        let mut kept = self.kept(slot);
        kept.snapshot = Some(present(&self.rows));
        self.keep(slot, kept);
        self.say(b"taken")
    }

    /// Plans a step, of `7:put:a` in slot 7.
    fn plan(&mut self, word: &[u8]) -> Result<(), AllocError> {
        let (slot, step) = parts(word);
        let (verb, unit) = step_of(step);
        let mut kept = self.kept(slot);
        let Some(units) = kept.snapshot else {
            return self.say(b"nothing");
        };
        kept.plan = Some((verb, unit, has(units, unit)));
        self.keep(slot, kept);
        self.say(b"planned")
    }

    fn commit(&mut self, slot: &[u8]) -> Result<(), AllocError> {
        let mut kept = self.kept(slot);
        let Some((verb, unit, saw)) = kept.plan else {
            return self.say(b"nothing");
        };
        kept.plan = None;
        self.keep(slot, kept);
        if has(present(&self.rows), unit) == saw {
            self.call(b"alice", verb, unit)
        } else {
            push_pair(&mut self.out, b"stale", &[unit])
        }
    }

    /// What bob does: an undo, a redo, or a step.
    fn bob(&mut self, word: &[u8]) -> Result<(), AllocError> {
        let (first, n) = parts(word);
        if is(first, b"undo") {
            return self.undo(number(n));
        }
        if is(first, b"redo") {
            return self.redo(number(n));
        }
        let (verb, unit) = step_of(word);
        self.call(b"bob", verb, unit)
    }

    fn happen(&mut self, word: &[u8]) -> Result<(), AllocError> {
        let (first, rest) = parts(word);
        if is(first, b"snapshot") {
            return self.snap(rest);
        }
        if is(first, b"plan") {
            return self.plan(rest);
        }
        if is(first, b"alice") {
            return self.commit(parts(rest).1);
        }
        self.bob(rest)
    }

    /// Adds the rows, and how many files there are, to what was said of the events.
    fn say_rows(&mut self) -> Result<(), AllocError> {
        self.out.extend_from_slice(b" /")?;
        for row in &self.rows {
            begin_word(&mut self.out)?;
            row.push(&mut self.out)?;
        }
        let present = present(&self.rows);
        self.out.extend_from_slice(b" / entries:")?;
        push_decimal(&mut self.out, present.count_ones() as usize)
    }
}

/// What results from a script by the plain machine.
fn expected(alloc: Global, script: &[u8]) -> Result<Vec<u8>, AllocError> {
    let mut plain = Plain::new(alloc);
    for word in script.split(|b| *b == b' ') {
        begin_word(&mut plain.out)?;
        plain.happen(word)?;
    }
    plain.say_rows()?;
    Ok(plain.out)
}

fn assert_as_expected(rt: &impl Abort, alloc: Global, seed: u32) -> Result<(), AllocError> {
    let script = script(alloc, seed)?;
    let expected = expected(alloc, &script)?;
    let said = said(alloc, &script)?;
    assert_eq!(rt; said, expected);
    Ok(())
}

#[test]
fn random_events_come_to_what_plain_replays_say(rt: HostRuntime) -> Result<(), Fail> {
    for seed in 0..SCRIPTS {
        assert_as_expected(&rt, rt.alloc(), seed)?;
    }
    Ok(())
}
