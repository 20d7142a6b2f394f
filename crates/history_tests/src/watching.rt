//! An operation that looks by a key of any kind, reports a word, and links a file.
ghost use Rattle.std.specs.Prelude.{◌≡◌, ◌↔◌, ◌∷◌, [], Ok, IfOk, OnOk, OnErr, IsTrue};
ghost use Rattle.footprint.specs.Commands as commands;
ghost use Rattle.footprint.specs.Inquiry.{beside};
ghost use Rattle.sample_steps.specs.Samples.{linked_at, told_of, watch_command};
ghost use Rattle.transaction.specs.Runs.{Runs, asking, doing};

use footprint::{Key, Notice, NoticeKey, Notices, Operation, Outcome, Reason, Refusal};
use link_tree::{Scope, Slot, Tree, TreePath};
use sample_steps::{is, parts};
use sample_values::{name, path};
use std::alloc::{AllocError, Global};
use transaction::{Stop, Transaction, link_at};
use unit_file::Word;
use unit_name::UnitName;

/// Looks by a key; may report that a word of a unit was not found; and links a file at a slot.
#[derive(Drop)]
pub(crate) struct Watch {
    pub(crate) key: Key,
    pub(crate) told: Option<UnitName>,
    pub(crate) file: TreePath,
    pub(crate) slot: TreePath,
}

/// Whether two keys are equal.
fn is_same_key(one: &Key, other: &Key) -> bool
    ensures { IsTrue result ↔ (one.now ≡ other.now) }
{
    match (one, other) {
        (Key::Cell(one), Key::Cell(other)) => one == other,
        (Key::Marked(scope, one), Key::Marked(other_scope, other)) => {
            scope == other_scope && one == other
        }
        (Key::Presets, Key::Presets) => true,
        (Key::Links, Key::Links) => true,
        _ => false,
    }
}

impl Watch {
    fn notices(&self, alloc: Global) -> Result<Notices, AllocError>
        ensures { IfOk result (λ notices. notices ≡ told_of self.now.told) }
    {
        let mut notices = Notices::none(alloc);
        if let Some(unit) = &self.told {
            notices.add(Notice {
                unit: unit.copy()?,
                key: NoticeKey::Also,
                word: Word::from_slice(alloc, unit.text())?,
                reason: Reason::NotFound,
            })?;
        }
        Ok(notices)
    }

    /// Looks by the key.
    fn look(&self, alloc: Global, txn: &mut Transaction<'_>) -> Result<(), AllocError>
        ensures ok { OnOk result (Runs (asking (beside (self.now.key ∷ []))) txn.old txn.new (Ok tt)) }
        ensures err { OnErr result (txn.new.first ≡ txn.old.first) }
    {
        match &self.key {
            Key::Cell(path) => drop(txn.get(path)?),
            key => drop(txn.entries(alloc, key.copy()?)?),
        }
        Ok(())
    }

    /// Links the file at the slot, and reports the word.
    fn link(&self, alloc: Global, txn: &mut Transaction<'_>) -> Result<Notices, Stop>
        ensures { Runs (doing (commands.telling (told_of self.now.told) (linked_at self.now.file self.now.slot))) txn.old txn.new result }
    {
        let notices = self.notices(alloc)?;
        if Slot::of(&self.slot).is_none() {
            return Err(Stop::Refused(Refusal::NotASlot(self.slot.copy()?)));
        }
        let there = txn.get(&self.slot)?;
        match link_at(alloc, &self.file, &self.slot, there.as_ref()) {
            Ok(entry) => txn.put(alloc, &self.slot, entry)?,
            Err(Stop::Refused(refusal)) => return Err(Stop::Refused(refusal)),
            Err(Stop::OutOfMemory) => return Err(Stop::OutOfMemory),
        }
        Ok(notices)
    }

    fn watch(&self, alloc: Global, txn: &mut Transaction<'_>) -> Result<Notices, Stop>
        ensures { Runs (doing (watch_command self.now.key self.now.told self.now.file self.now.slot)) txn.old txn.new result }
    {
        self.look(alloc, txn)?;
        self.link(alloc, txn)
    }
}

impl Operation for Watch {
    ghost use Rattle.std.specs.Prelude.{false};
    ghost use Rattle.footprint.proofs.Carried.{laws_of};
    ghost use Rattle.footprint.specs.Commands.{carried_out};
    ghost use Rattle.sample_steps.specs.Samples.{watch_command};

    ghost meaning = { λ c. carried_out (watch_command c.key c.told c.file c.slot) };

    ghost asks = { λ c. false };

    ghost laws = { laws_of (λ c. watch_command c.key c.told c.file c.slot) };

    fn run(&self, alloc: Global, tree: &Tree) -> Result<Outcome, AllocError> {
        let mut txn = Transaction::new(alloc, tree);
        let done = self.watch(alloc, &mut txn);
        txn.outcome(alloc, done)
    }

    fn asks_only(&self) -> bool {
        false
    }

    fn copy(&self) -> Result<Watch, AllocError> {
        let told = match &self.told {
            Some(unit) => Some(unit.copy()?),
            None => None,
        };
        Ok(Watch {
            key: self.key.copy()?,
            told,
            file: self.file.copy()?,
            slot: self.slot.copy()?,
        })
    }

    fn same(&self, other: &Watch) -> bool {
        is_same_key(&self.key, &other.key)
            && self.told == other.told
            && self.file == other.file
            && self.slot == other.slot
    }
}

/// The key of a word: `slot:a.service` is the slot of a name in `/etc`, and `name:a.service` are
/// its links there.
fn key(alloc: Global, word: &[u8]) -> Result<Key, AllocError> {
    let (first, of) = parts(word);
    if is(first, b"slot") {
        return Ok(Key::Cell(Scope::Etc.place().slot(alloc, &name(alloc, of)?)?));
    }
    if is(first, b"name") {
        return Ok(Key::Marked(Scope::Etc, name(alloc, of)?));
    }
    if is(first, b"presets") {
        return Ok(Key::Presets);
    }
    if is(first, b"links") {
        return Ok(Key::Links);
    }
    Err(AllocError)
}

/// Looks by a key, and links the file of `a.service` at a slot; gives a notice of a unit, if there
/// is one.
fn linking(
    alloc: Global,
    key: Key,
    slot: &[u8],
    told: Option<UnitName>,
) -> Result<Box<Watch>, AllocError> {
    let watch = Watch {
        key,
        told,
        file: path(alloc, b"/usr/lib/systemd/system/a.service")?,
        slot: path(alloc, slot)?,
    };
    Ok(Box::new(alloc, watch)?)
}

/// Looks by the key of a word.
pub(crate) fn looking(alloc: Global, word: &[u8], slot: &[u8]) -> Result<Box<Watch>, AllocError> {
    linking(alloc, key(alloc, word)?, slot, None)
}

/// Looks by the presets, and gives a notice of a unit.
pub(crate) fn telling(alloc: Global, slot: &[u8], unit: &[u8]) -> Result<Box<Watch>, AllocError> {
    linking(alloc, Key::Presets, slot, Some(name(alloc, unit)?))
}
