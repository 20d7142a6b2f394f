//! Which rows of a history looked at a key.
ghost use Rattle.std.specs.Prelude.{◌≡◌, ℕ, Bool, false, ◌||◌, ◌&&◌, not, OnOk, OnErr, IfOk};
ghost use Rattle.std.specs.List.{list_any};
ghost use Rattle.std.specs.Ordering.{nat_cmp};
ghost use Rattle.std.specs.BTreeMap.{is_at};
ghost use Rattle.unit_paths.specs.Slots.{slot_of};
ghost use Rattle.tree_access.specs.declared.key.Key.{Key};
ghost use Rattle.unit_paths.specs.Kinds.{is_preset, is_dependency, scope_of};
ghost use Rattle.readers.specs.Numbers.{has, IsNext, AreAllAfter};
ghost use Rattle.readers.specs.Readers.{reads, is_key, is_read, IsListed, IsUnlisted, is_named_in, is_marked_of, is_marked_in, is_touched_in};

use crate::numbers::{Listed, Numbers};
use footprint::{Key, Observation, Reading};
use link_tree::{Change, Entry, last_part};
use std::alloc::{AllocError, Global};
use unit_name::{Kind, kind_in};
use unit_paths::{Scope, Slot, TreePath, is_null_target};

/// An index of the rows of a history by the keys that they looked at. Each row is listed under each
/// key of its reading: a cell under its path, the links that belong to a name under the name,
/// separately for each scope; the presets and the links of dependencies are one key each. So the
/// rows that looked at what a change touches are looked up by the texts in the change, without
/// allocating, however many rows there are.
#[derive(Debug, Drop)]
pub struct Readers {
    cells: Listed,
    etc: Listed,
    run: Listed,
    presets: Numbers,
    links: Numbers,
}

/// The smaller of two numbers, or the only one.
fn sooner(one: Option<u32>, other: Option<u32>) -> Option<u32>
    ensures { (p q : ℕ → Bool) (n : ℕ) → IsNext p n one → IsNext q n other → IsNext (λ i. p i || q i) n result }
{
    match (one, other) {
        (None, _) => other,
        (_, None) => one,
        (Some(m), Some(k)) => { if m <= k { one } else { other } }
    }
}

impl Listed {
    /// The least number after n under a link's file name, or under the last part of its target,
    /// unless that is the name of an instance.
    fn named_after(&self, name: &[u8], last: &[u8], n: u32) -> Option<u32>
        ensures { IsNext (is_named_in self.now name.now last.now) n result }
    {
        let first = self.after(name, n);
        match kind_in(last) {
            Kind::Plain => sooner(first, self.after(last, n)),
            Kind::Template => sooner(first, self.after(last, n)),
            Kind::Instance => first,
        }
    }
}

impl Readers {
    /// An index that lists no row. Takes no memory.
    pub fn none(alloc: Global) -> Readers
        ensures { (key : Key) (i : ℕ) → reads result key i ≡ false }
    {
        Readers {
            cells: Listed::none(alloc),
            etc: Listed::none(alloc),
            run: Listed::none(alloc),
            presets: Numbers::none(alloc),
            links: Numbers::none(alloc),
        }
    }

    /// Lists row n under a key. Fails only if memory runs out, and then nothing changes.
    fn add_key(&mut self, alloc: Global, key: &Key, n: u32) -> Result<(), AllocError>
        ensures ok { OnOk result ((k : Key) (i : ℕ) → reads self.new k i ≡ ((is_key k key.now && is_at (nat_cmp n) i) || reads self.old k i)) }
        ensures err { OnErr result (self.new ≡ self.old) }
    {
        match key {
            Key::Cell(path) => Ok(self.cells.add(alloc, path.text(), n)?),
            Key::Marked(Scope::Etc, name) => Ok(self.etc.add(alloc, name.text(), n)?),
            Key::Marked(Scope::Run, name) => Ok(self.run.add(alloc, name.text(), n)?),
            Key::Presets => Ok(self.presets.add(n)?),
            Key::Links => Ok(self.links.add(n)?),
        }
    }

    /// Removes row n from the list of a key.
    fn remove_key(&mut self, key: &Key, n: u32)
        ensures { (k : Key) (i : ℕ) → reads self.new k i ≡ (not (is_key k key.now && is_at (nat_cmp n) i) && reads self.old k i) }
    {
        match key {
            Key::Cell(path) => self.cells.remove(path.text(), n),
            Key::Marked(Scope::Etc, name) => self.etc.remove(name.text(), n),
            Key::Marked(Scope::Run, name) => self.run.remove(name.text(), n),
            Key::Presets => self.presets.remove(n),
            Key::Links => self.links.remove(n),
        }
    }

    /// Lists row n under each key of its reading. Fails only if memory runs out, and then the row
    /// is listed under none of these keys.
    pub fn add(&mut self, alloc: Global, reading: &Reading, n: u32) -> Result<(), AllocError>
        ensures ok { OnOk result (IsListed reading.now n self.old self.new) }
        ensures err { OnErr result (IsUnlisted reading.now n self.old self.new) }
    {
        match self.add_keys(alloc, reading.as_slice(), n) {
            Ok(()) => Ok(()),
            Err(error) => {
                self.remove(reading, n);
                Err(error)
            }
        }
    }

    /// Lists row n under each key; if memory runs out, only under the first ones.
    fn add_keys(&mut self, alloc: Global, reading: &[Observation], n: u32) -> Result<(), AllocError>
        ensures ok { OnOk result (IsListed reading.now n self.old self.new) }
        ensures err { OnErr result ((k : Key) (i : ℕ) → (not (is_read reading.now k && is_at (nat_cmp n) i) && reads self.new k i) ≡ (not (is_read reading.now k && is_at (nat_cmp n) i) && reads self.old k i)) }
    {
        for observation in reading {
            self.add_key(alloc, &observation.key, n)?;
        }
        Ok(())
    }

    /// Removes row n from the lists of the keys of a reading. Takes no memory.
    pub fn remove(&mut self, reading: &Reading, n: u32)
        ensures { IsUnlisted reading.now n self.old self.new }
    {
        for observation in reading.as_slice() {
            self.remove_key(&observation.key, n);
        }
    }

    /// The first row after n that is listed, in a scope, under the file name of a link or under the
    /// last part of its target.
    fn marked_of(&self, scope: Option<Scope>, name: &[u8], last: &[u8], n: u32) -> Option<u32>
        ensures { IsNext (is_marked_of self.now scope name.now last.now) n result }
    {
        match scope {
            None => None,
            Some(Scope::Etc) => self.etc.named_after(name, last, n),
            Some(Scope::Run) => self.run.named_after(name, last, n),
        }
    }

    /// The first row after n that is listed under a name to which the entry at a path belongs.
    fn marked_after(&self, path: &TreePath, entry: &Option<Entry>, n: u32) -> Option<u32>
        ensures { IsNext (is_marked_in self.now path.now entry.now) n result }
    {
        match entry {
            None | Some(Entry::File(_)) => None,
            Some(Entry::Link(target)) => {
                if is_null_target(path, target) {
                    None
                } else {
                    self.marked_of(
                        Slot::scope_of(path),
                        path.file_name(),
                        last_part(target.text()),
                        n,
                    )
                }
            }
        }
    }

    /// The first row after n that is listed under the presets, if a path is a preset slot.
    fn presets_after(&self, path: &TreePath, n: u32) -> Option<u32>
        ensures { IsNext (λ i. is_preset (slot_of path.now) && has self.now.presets i) n result }
    {
        if Slot::is_of_preset(path) {
            self.presets.after(n)
        } else {
            None
        }
    }

    /// The first row after n that is listed under the links of dependencies, if a path is the slot
    /// of one.
    fn links_after(&self, path: &TreePath, n: u32) -> Option<u32>
        ensures { IsNext (λ i. is_dependency (slot_of path.now) && has self.now.links i) n result }
    {
        if Slot::is_of_dependency(path) {
            self.links.after(n)
        } else {
            None
        }
    }

    /// The first row after n that is listed under a key that a change touches. Takes no memory.
    pub fn after(&self, change: &Change, n: u32) -> Option<u32>
        ensures { IsNext (is_touched_in self.now change.now) n result }
    {
        let path = &change.path;
        let cell = self.cells.after(path.text(), n);
        let before = self.marked_after(path, &change.before, n);
        let after = self.marked_after(path, &change.after, n);
        let presets = self.presets_after(path, n);
        let links = self.links_after(path, n);
        sooner(cell, sooner(before, sooner(after, sooner(presets, links))))
    }

    /// The first row after n that is listed under a key that one of these changes touches. Takes no
    /// memory.
    pub fn first_after(&self, changes: &[Change], n: u32) -> Option<u32>
        ensures { IsNext (λ i. list_any (λ change. is_touched_in self.now change i) changes.now) n result }
    {
        let mut first = None;
        for change in changes {
            first = sooner(first, self.after(change, n));
        }
        first
    }

    /// All rows that are listed under a key that a change touches, in ascending order. Fails only
    /// if memory runs out.
    pub fn all(&self, alloc: Global, change: &Change) -> Result<Vec<u32>, AllocError>
        ensures { IfOk result (λ numbers. AreAllAfter (is_touched_in self.now change.now) 0 numbers.items) }
    {
        let mut numbers = Vec::new(alloc);
        let mut last = 0;
        while let Some(n) = self.after(change, last) {
            numbers.push(n)?;
            last = n;
        }
        Ok(numbers)
    }
}
